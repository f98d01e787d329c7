// What holds of all words and all contents of the files.
ghost use Rattle.std.specs.Prelude.{◌≡◌, ◌<◌, ◌≤◌, ◌⊎◌, ◌↔◌, ◌++◌, ℕ, Option, List, length};
ghost use Rattle.circus_program.specs.Form.{IsOfNoForm, most_steps};
ghost use Rattle.circus_simulation.specs.Schedule.{schedule_of};
ghost use Rattle.circus_model.specs.Behaviour.{Behaviour};
ghost use Rattle.circus_schedule.specs.declared.line.Line.{Line};
ghost use Rattle.circus_world.specs.WorldState.{WorldState};
ghost use Rattle.circus_config.specs.declared.plan.Plan.{Plan};
ghost use Rattle.circus_program.specs.Answer.{Due, finish};
ghost use Rattle.circus_program.specs.Replay.{replay_of, picture_of};
ghost use Rattle.circus_program.specs.Agreeing.{IsAgreed, IsAgreedSoFar};
ghost use Rattle.circus_config.specs.Program.{IsPlan};
ghost use Rattle.circus_program.specs.Promise.{KeepsPromise, IsKept, IsKeptSoFar, enough_deliveries};
ghost use Rattle.circus_audit.specs.declared.given.Given.{Given};
ghost use Rattle.circus_verdict.specs.declared.verdict.Verdict.TheVariants.{NotARun};
ghost use Rattle.circus_program.specs.Accepted.{HasModuleNames, IsAccepted, IsAcceptedOf};
ghost use Rattle.circus_program.specs.Audit.{IsBadAt, IsJudged};
ghost use Rattle.circus_program.specs.ServedRuns.{IsServedRunOf, WasServedSoFar, WasSpentAtBoot};
ghost use Rattle.circus_serve.specs.Outside.{Tells};
ghost use Rattle.circus_node_command.specs.NodeEnds.{IsEndOfServing};
ghost use Rattle.circus_program.specs.Replayed.{AreShort, IsReplayed};
ghost use Rattle.circus_program.specs.Worlds.{AreLed, IsReported, IsCutByRefusal, IsCutBySpending, IsSpentAtBoot, IsPictured, AskForRecords, AskToSimulate, IsOfWorld};
ghost use Rattle.circus_commands.specs.Ending.{Ending};
ghost use Rattle.circus_commands.specs.declared.status.Status.TheVariants.{Done, BadCommandLine, BadProgram, BadSchedule, Spent, Unsettled, BadPlacing, NoPlacement, BadRecord};
ghost use Rattle.circus_commands.specs.Placed.{IsRefusedPlacing, HasNoChoice};
ghost use Rattle.circus_program.specs.Sound.{AreSound, AskToPlace, ComesWell, IsDone};
ghost use Rattle.circus_program.specs.Last.{IsDueLast, EndsWith, IsToBeRead, IsAnswered, IsRefusedProgram, IsNameless, IsRefusedReplay, IsSpent, IsRefusedAudit, IsUnsettled, HasLeft};

/// Of words one thing is due at last, whatever the files contain: an end, with its status and its text, a node that is to be
/// served, or the fetch of a file that is not there. Something is due, but where the first file of a form is there:
/// then something is due once reading it answers.
pub fn one_thing_is_due()
    ensures one { (contents : List ℕ → Option (List ℕ)) (words : List (List ℕ)) (due other : Due)
        → IsDueLast contents words due → IsDueLast contents words other → due ≡ other }
    ensures some { (contents : List ℕ → Option (List ℕ)) (words : List (List ℕ))
        → ((due : Due) × IsDueLast contents words due) ⊎ IsToBeRead contents words }
    ensures read { (contents : List ℕ → Option (List ℕ)) (words : List (List ℕ))
        (file : IsToBeRead contents words)
        → IsAnswered contents file.form file.bytes → (due : Due) × IsDueLast contents words due }
{}

/// What is due at last is an end with status 1 exactly where the words are of no form, with status 2 exactly where the file
/// of another form than `place` is no program or has no node of the name, with status 3 exactly where a line of a schedule
/// is refused, with status 8 exactly where a node has no number left in a replay or a picture, in a sample or its lines, or
/// in the deliveries that settle a program, with status 10 exactly where all deliveries are made and datagrams are left,
/// with status 11 exactly where a placing is refused, with status 12 exactly where no choice satisfies one, and with status
/// 13 exactly where a record has a line with which no record goes on, is no run of its node, or doesn't stand. Every command
/// line has its outcome: exactly where nothing is amiss with words and files, it is an end with status 0, or with 8 where
/// that says, or a node to be served. What such a node comes to is said by the contract of the call.
pub fn ends_tell_why()
    ensures bad_words { (contents : List ℕ → Option (List ℕ)) (words : List (List ℕ)) (due : Due)
        → IsDueLast contents words due → (EndsWith BadCommandLine due ↔ IsOfNoForm words) }
    ensures bad_program { (contents : List ℕ → Option (List ℕ)) (words : List (List ℕ)) (due : Due)
        → IsDueLast contents words due
        → (EndsWith BadProgram due
        ↔ (IsRefusedProgram contents words ⊎ IsNameless contents words)) }
    ensures bad_schedule { (contents : List ℕ → Option (List ℕ)) (words : List (List ℕ)) (due : Due)
        → IsDueLast contents words due
        → (EndsWith BadSchedule due ↔ IsRefusedReplay contents words) }
    ensures spent { (contents : List ℕ → Option (List ℕ)) (words : List (List ℕ)) (due : Due)
        → IsDueLast contents words due → (EndsWith Spent due ↔ IsSpent contents words) }
    ensures unsettled { (contents : List ℕ → Option (List ℕ)) (words : List (List ℕ)) (due : Due)
        → IsDueLast contents words due → (EndsWith Unsettled due ↔ IsUnsettled contents words) }
    ensures bad_placing { (contents : List ℕ → Option (List ℕ)) (words : List (List ℕ)) (due : Due)
        → IsDueLast contents words due
        → (EndsWith BadPlacing due ↔ AskToPlace contents words IsRefusedPlacing) }
    ensures no_placement { (contents : List ℕ → Option (List ℕ)) (words : List (List ℕ)) (due : Due)
        → IsDueLast contents words due
        → (EndsWith NoPlacement due ↔ AskToPlace contents words HasNoChoice) }
    ensures bad_record { (contents : List ℕ → Option (List ℕ)) (words : List (List ℕ)) (due : Due)
        → IsDueLast contents words due
        → (EndsWith BadRecord due ↔ IsRefusedAudit contents words) }
    ensures done { (contents : List ℕ → Option (List ℕ)) (words : List (List ℕ)) (due : Due)
        → IsDueLast contents words due
        → (EndsWith Done due ↔ IsDone contents words due) }
    ensures sound { (contents : List ℕ → Option (List ℕ)) (words : List (List ℕ)) (due : Due)
        → IsDueLast contents words due → (ComesWell due ↔ AreSound contents words) }
{}

/// What a replay writes is written of a world to which lines lead from boot, each of which may be stepped: the report of that
/// to which all lines lead. Where a line may not be stepped, or a node has no number left in its step, the lines before it lead
/// to a world, and of this it is the first line of the report, the lines of what was sent, and the line that says why.
pub fn reports_are_of_worlds()
    ensures done { (plan : Plan) (lines : List Line) → (replay_of plan lines).status ≡ Done
        → IsReported plan lines (replay_of plan lines).text }
    ensures refused { (plan : Plan) (lines : List Line)
        → (replay_of plan lines).status ≡ BadSchedule
        → IsCutByRefusal plan lines (replay_of plan lines).text }
    ensures spent { (plan : Plan) (lines : List Line) → (replay_of plan lines).status ≡ Spent
        → IsSpentAtBoot plan (replay_of plan lines).text
        ⊎ IsCutBySpending plan lines (replay_of plan lines).text }
{}

/// The picture of lines comes to the same status as their replay, and where that is 0, picture and report are of one world.
/// Where it isn't, the picture is the line that says why, with which the replay ends too.
pub fn pictures_are_of_worlds()
    ensures status { (plan : Plan) (lines : List Line)
        → (picture_of plan lines).status ≡ (replay_of plan lines).status }
    ensures done { (plan : Plan) (lines : List Line) → (picture_of plan lines).status ≡ Done
        → IsPictured plan lines }
    ensures cut { (plan : Plan) (lines : List Line) → ((picture_of plan lines).status ≡ Done → ⊥)
        → (sent : List ℕ) × ((replay_of plan lines).text ≡ sent ++ (picture_of plan lines).text) }
{}

/// Where words ask to simulate a program and what is due at last is an end with status 0, there is a plan, which the program
/// means, with lines that lead from its boot to a world: those of the schedule, those that were drawn, or a delivery of each
/// datagram. What is written is the report of that world, its picture, its summary, what is written of a world that has settled,
/// or, where the words ask for the lines that are drawn, these.
pub fn ends_are_of_worlds()
    ensures { (contents : List ℕ → Option (List ℕ)) (words : List (List ℕ)) (ending : Ending)
        → IsDueLast contents words (finish ending) → ending.status ≡ Done → AskToSimulate words
        → (plan : Plan) × (lines : List Line) × (last : WorldState Behaviour)
        × IsOfWorld contents words plan lines last ending.text }
{}

/// What is promised is kept of every world to which lines lead from the boot of a plan. So it is of the world of which a
/// simulation writes where it ends with status 0; and where a replay ends too early, of the world to which the lines before
/// lead. Deliveries that leave some of the datagrams are fewer than twice the segments of the messages that the unreplicated
/// program makes.
pub fn promises_are_kept()
    ensures worlds { (plan : Plan) (lines : List Line) (last : WorldState Behaviour)
        → IsPlan plan → (led : AreLed plan lines last) → KeepsPromise plan lines last led }
    ensures done { (contents : List ℕ → Option (List ℕ)) (words : List (List ℕ)) (ending : Ending)
        → IsDueLast contents words (finish ending) → ending.status ≡ Done → AskToSimulate words
        → IsKept contents words ending.text }
    ensures refused { (plan : Plan) (lines : List Line)
        → IsPlan plan → (replay_of plan lines).status ≡ BadSchedule
        → IsKeptSoFar plan lines (replay_of plan lines).text }
    ensures spent { (plan : Plan) (lines : List Line)
        → IsPlan plan → (replay_of plan lines).status ≡ Spent
        → IsSpentAtBoot plan (replay_of plan lines).text
        ⊎ IsKeptSoFar plan lines (replay_of plan lines).text }
    ensures enough { (plan : Plan) (deliveries : ℕ)
        → IsPlan plan → HasLeft plan deliveries → deliveries < enough_deliveries plan }
{}

/// So the promise of a whole run is kept in what is written of records: of facts of which the text is the report, the summary, or
/// what is written of a settling, by the lines that led to them. Each node was a node run by what the lines gave to it; what each
/// active member performed are the next runs of its module in the history of the program, which its unreplicated execution gives.
pub fn copies_agree()
    ensures done { (contents : List ℕ → Option (List ℕ)) (words : List (List ℕ)) (text : List ℕ)
        → AskForRecords words → IsKept contents words text → IsAgreed contents words text }
    ensures so_far { (plan : Plan) (lines : List Line) (text : List ℕ)
        → IsKeptSoFar plan lines text → IsAgreedSoFar plan lines text }
{}

/// The lines of a sample, as they are written, are a schedule that its program may be replayed under, where datagrams have
/// numbers that a line may have: a replay refuses none of them, and comes to the world of the sample. It reports those members
/// that the sample counts, and each with the same count.
pub fn lines_are_replayed()
    ensures { (plan : Plan) (seed steps : ℕ)
        → IsPlan plan → steps ≤ most_steps → AreShort plan seed steps
        → (schedule_of plan seed steps).status ≡ Done
        → IsReplayed plan seed steps (schedule_of plan seed steps).text }
{}

/// Where a node of a plan is served to its end with status 0, what is written is the record of a node run, if the node hosts a
/// member: its events are the takes, with the declarations and the join that these bring about, what it gave and told in each is
/// what is written, and so is the record of its member. Whatever the status is, what happened to it as far as it came is a node
/// run, and the link was given what the node gave in it, up to the call that failed; unless no number was left at boot.
pub fn served_ends_are_node_runs()
    ensures done { (plan : Plan) (node turns : ℕ) (old new : Tells) (ending : Ending)
        → IsPlan plan → IsEndOfServing plan node turns old new ending → ending.status ≡ Done
        → IsServedRunOf plan node turns old new ending.text }
    ensures so_far { (plan : Plan) (node turns : ℕ) (old new : Tells) (ending : Ending)
        → IsPlan plan → IsEndOfServing plan node turns old new ending
        → WasServedSoFar plan node turns old new ⊎ WasSpentAtBoot plan node old new }
{}

/// What a served node of a plan writes with status 0 is accepted by an audit, where what was taken is bytes from ports and the text
/// has fewer than 4,294,967,295 bytes: it is a record with no bad line, and what it says is a run of the node. So an audit of it
/// comes to no bad line, as there is none in it, and not to the answer that it is no run.
pub fn audits_accept_served_nodes()
    ensures accepted { (plan : Plan) (node turns : ℕ) (old new : Tells) (ending : Ending)
        → IsPlan plan → HasModuleNames plan → node < length plan.deployment.nodes
        → IsEndOfServing plan node turns old new ending → ending.status ≡ Done
        → IsAcceptedOf plan node turns old new ending.text }
    ensures no_bad_line { (plan : Plan) (text : List ℕ) (number : ℕ) → IsAccepted plan text
        → IsBadAt plan text number → ⊥ }
    ensures a_run { (plan : Plan) (text : List ℕ) (given : Given) → IsPlan plan
        → HasModuleNames plan → IsAccepted plan text → IsJudged plan text given NotARun → ⊥ }
{}
