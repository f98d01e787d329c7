// What holds of a wire after every list of acts.
ghost use Rattle.std.specs.Prelude.{◌≡◌, ◌≢◌, ℕ, ◌+◌, ◌≤◌, [], not, true, ◌&&◌, ◌==◌, List, None, Some, IsSome, count_by, slice_get};
ghost use Rattle.circus_segment.specs.Segment.{Piece, IsSegment};
ghost use Rattle.circus_exchange.specs.declared.taken.Arrived.TheVariants.{ArrivedReturn};
ghost use Rattle.circus_pair.specs.Acts.{taken_by};
ghost use Rattle.circus_pair.specs.Handed.{calls_made, call_at};
ghost use Rattle.circus_pair.specs.Lawful.{AreLawful, is_stopped_after};
ghost use Rattle.circus_pair.specs.Standing.{arrival_after};
ghost use Rattle.circus_pair.specs.Taken.{has_arrived};
ghost use Rattle.circus_pair.specs.TwoEnds.{sent_by};
ghost use Rattle.circus_value.specs.declared.caller.Caller.{Caller};
ghost use Rattle.circus_wire.specs.Wire.{WireState, Beginning, IsOther, is_up, next_number};
ghost use Rattle.circus_wire.specs.WireActs.{WireAct, WireActs, followed_by, CallTo, AnswerTo, CameFrom, StopOf, acts_at, made_to, purpose_of, purpose_kept};
ghost use Rattle.circus_wire.specs.WireStanding.{WireStands, pair_of, owed_to, sent_in, arrived_from};

/// What a wire knows of its acts: of each other node, that what has happened at its pair is lawful, so that the laws of
/// pairs hold of it, whether it was declared down, and the number of the next call.
pub fn wires_know_their_acts<P>()
    ensures lawful { (w : WireState P) (b : Beginning) (acts : WireActs P) (node : ℕ)
        → WireStands w b acts → IsOther w node
        → AreLawful b.first b.format (acts_at (pair_of b) node acts) }
    ensures up { (w : WireState P) (b : Beginning) (acts : WireActs P) (node : ℕ)
        → WireStands w b acts → IsOther w node
        → is_up w node ≡ not (is_stopped_after (acts_at (pair_of b) node acts)) }
    ensures next { (w : WireState P) (b : Beginning) (acts : WireActs P) (node : ℕ)
        → WireStands w b acts → IsOther w node
        → next_number w node ≡ b.first + made_to node acts }
{}

/// Calls to a node are numbered as they are made, from the first number on; the call of a number keeps its message and
/// its purpose, whatever is added (docs/PROTOCOL.md, "Paired messages").
pub fn calls_are_numbered<P>()
    ensures count { (b : Beginning) (acts : WireActs P) (node : ℕ)
        → calls_made (acts_at (pair_of b) node acts) ≡ made_to node acts }
    ensures message { (b : Beginning) (acts : WireActs P) (node : ℕ) (message : List ℕ)
        (purpose : P)
        → call_at b.first
        (acts_at (pair_of b) node (followed_by acts (CallTo node message purpose)))
        (b.first + made_to node acts) ≡ Some message }
    ensures purpose { (b : Beginning) (acts : WireActs P) (node : ℕ) (message : List ℕ)
        (purpose : P)
        → purpose_of (pair_of b) node (followed_by acts (CallTo node message purpose))
        (b.first + made_to node acts) ≡ Some purpose }
    ensures stays { (b : Beginning) (acts : WireActs P) (act : WireAct P) (node number : ℕ)
        (purpose : P)
        → purpose_of (pair_of b) node acts number ≡ Some purpose
        → purpose_of (pair_of b) node (followed_by acts act) number ≡ Some purpose }
{}

/// A return that arrives finds the purpose of the call with its number, which was kept until then, and is kept no longer
/// then, nor later on (docs/PROTOCOL.md, "Segments").
pub fn returns_find_their_purposes<P>()
    ensures found { (b : Beginning) (acts : WireActs P) (from number : ℕ) (s : Piece)
        (message : List ℕ)
        → AreLawful b.first b.format (acts_at (pair_of b) from acts) → IsSegment s
        → arrival_after (pair_of b) (acts_at (pair_of b) from acts) s ≡ ArrivedReturn number message
        → IsSome (purpose_of (pair_of b) from acts number) }
    ensures still { (b : Beginning) (acts : WireActs P) (from number : ℕ) (s : Piece)
        (message : List ℕ) → IsSegment s
        → arrival_after (pair_of b) (acts_at (pair_of b) from acts) s ≡ ArrivedReturn number message
        → purpose_kept (pair_of b) from acts number ≡ purpose_of (pair_of b) from acts number }
    ensures kept { (b : Beginning) (acts : WireActs P) (from number : ℕ) (s : Piece)
        (message : List ℕ)
        → AreLawful b.first b.format (acts_at (pair_of b) from acts) → IsSegment s
        → arrival_after (pair_of b) (acts_at (pair_of b) from acts) s ≡ ArrivedReturn number message
        → purpose_kept (pair_of b) from (followed_by acts (CameFrom from s)) number ≡ None }
    ensures gone { (b : Beginning) (acts : WireActs P) (act : WireAct P) (node number : ℕ)
        → AreLawful b.first b.format (acts_at (pair_of b) node (followed_by acts act))
        → has_arrived (taken_by (pair_of b) (acts_at (pair_of b) node acts)) 1 number ≡ true
        → purpose_kept (pair_of b) node (followed_by acts act) number ≡ None }
{}

/// Each message of another node arrives at most once (docs/PROTOCOL.md, "Segments").
pub fn messages_arrive_once<P>()
    ensures { (b : Beginning) (acts : WireActs P) (node kind call : ℕ)
        → AreLawful b.first b.format (acts_at (pair_of b) node acts)
        → count_by (λ a. (a.kind == kind) && (a.call == call)) (arrived_from b node acts) ≤ 1 }
{}

/// What was sent to a node is what its pair has sent. An act that concerns one node owes nothing to another one, and a
/// declaration owes nothing.
pub fn acts_send_what_pairs_owe<P>()
    ensures all { (b : Beginning) (acts : WireActs P) (node : ℕ)
        → AreLawful b.first b.format (acts_at (pair_of b) node acts)
        → sent_in b node acts ≡ sent_by (pair_of b) (acts_at (pair_of b) node acts) }
    ensures calls { (b : Beginning) (acts : WireActs P) (node other : ℕ) (message : List ℕ)
        (purpose : P) → other ≢ node
        → (owed_to b acts (CallTo node message purpose) other).datagrams ≡ [] }
    ensures returns { (b : Beginning) (acts : WireActs P) (caller : Caller) (other : ℕ)
        (message : List ℕ) → other ≢ caller.node
        → (owed_to b acts (AnswerTo caller message) other).datagrams ≡ [] }
    ensures segments { (b : Beginning) (acts : WireActs P) (from other : ℕ) (s : Piece)
        → other ≢ from
        → (owed_to b acts (CameFrom from s) other).datagrams ≡ [] }
    ensures declarations { (b : Beginning) (acts : WireActs P) (node other : ℕ)
        → (owed_to b acts (StopOf node) other).datagrams ≡ [] }
{}
