// What holds of every text.
ghost use Rattle.std.specs.Prelude.{◌≡◌, ◌≤◌, ℕ, ◌↔◌, All, List, Ok, Result, Some, length, slice_get};
ghost use Rattle.circus_collate.specs.Deployment.{IsDeployment};
ghost use Rattle.circus_collate.specs.declared.deployment.Deployment.{Deployment};
ghost use Rattle.circus_collate.specs.declared.deployment.Host.{Host};
ghost use Rattle.circus_schedule.specs.declared.line.Line.{Line};
ghost use Rattle.circus_schedule.specs.declared.schedule_fault.ScheduleFault.{ScheduleFault};
ghost use Rattle.circus_schedule.specs.WrittenLine.{WrittenLine, IsName, Spells};
ghost use Rattle.circus_schedule.specs.TextLines.{lines_of};
ghost use Rattle.circus_schedule.specs.Meaning.{Numbers, NamesBelow, numbers_of};
ghost use Rattle.circus_schedule.specs.Answer.{AreReadAs, IsAnswer, most_lines};
ghost use Rattle.circus_schedule.specs.ScheduleText.{AreCalled, IsShort, IsWrittenAs, StandFor, lines_text};

/// A text spells one line at most.
pub fn one_spelling()
    ensures { (text : List ℕ) (a b : WrittenLine) → Spells text a → Spells text b → a ≡ b }
{}

/// A text comes to one thing as a schedule: lines, or one fault.
pub fn one_answer()
    ensures { (numbers : Numbers) (text : List ℕ) (a b : Result (List Line) ScheduleFault)
        → IsAnswer numbers text a → IsAnswer numbers text b → a ≡ b }
{}

/// What is written is read, and what is read is written so.
pub fn written_is_read()
    ensures { (numbers : Numbers) (text : List ℕ) (lines : List Line)
        → AreReadAs numbers (lines_of text) lines
        ↔ ((written : List WrittenLine) × IsWrittenAs text written
        × StandFor numbers written lines) }
{}

/// Each node of a deployment has a name that a line may have, and is found by it.
pub fn nodes_are_named()
    ensures { (deployment : Deployment) (number : ℕ) (node : Host) → IsDeployment deployment
        → slice_get deployment.nodes number ≡ Some node
        → IsName node.name × (numbers_of deployment.nodes node.name ≡ Some number) }
{}

/// The text of lines is read as these lines: of at most 200,000 that ask for nodes of the deployment alone, where nodes are
/// called by their names, and numbers of datagrams are below 2 to the 64th.
pub fn lines_are_read_back()
    ensures { (deployment : Deployment) (called : ℕ → List ℕ) (lines : List Line)
        → IsDeployment deployment
        → AreCalled deployment.nodes called
        → All (NamesBelow (length deployment.nodes)) lines → All IsShort lines
        → length lines ≤ most_lines
        → IsAnswer (numbers_of deployment.nodes) (lines_text called lines) (Ok lines) }
{}
