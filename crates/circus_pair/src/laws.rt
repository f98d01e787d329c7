// What holds of an end after every list of acts.
ghost use Rattle.std.specs.Prelude.{◌≡◌, ◌⊎◌, ℕ, ◌+◌, ◌≤◌, true, false, not, ◌&&◌, ◌==◌, List, [], Some, Ok, is_some, count_by, slice_get, if◌then◌else◌};
ghost use Rattle.circus_exchange.specs.declared.taken.Arrived.TheVariants.{ArrivedCall};
ghost use Rattle.circus_segment.specs.Segment.{Piece, IsSegment, is_acknowledgement, reading, spelling};
ghost use Rattle.circus_exchange.specs.Exchange.{start, awaits_return, takes, arrived_after, datagrams_of_call, datagrams_of_return, datagrams_after, datagrams_of_tick, is_suspect};
ghost use Rattle.circus_pair.specs.Handed.{calls_made, call_at, return_at, is_taken, sent_below};
ghost use Rattle.circus_segment.specs.Cut.{segment_count, part_at};
ghost use Rattle.circus_exchange.specs.Inbox.{acknowledgement, data_up_to};
ghost use Rattle.circus_pair.specs.Taken.{total_in, has_arrived, message_in, AreTaken, AreOf};
ghost use Rattle.circus_pair.specs.Acts.{Act, Acts, more, Call, Return, Came, Tick, AreActs, end_after, taken_by, arrival_by, acknowledged_by};
ghost use Rattle.circus_pair.specs.Lawful.{is_stopped_after, AreLawful};
ghost use Rattle.circus_pair.specs.Window.{is_open, count_below, call_is_whole};
ghost use Rattle.circus_pair.specs.Sending.{is_sent, let_go_by, outputs};
ghost use Rattle.circus_pair.specs.Ticking.{ticks_after, suspects_after};
ghost use Rattle.circus_pair.specs.TwoEnds.{arrived_in, datagrams_by};
ghost use Rattle.circus_pair.specs.Saying.{IsSaid};
ghost use Rattle.circus_exchange.specs.Limits.{window};

/// What arrives by a segment that is taken is what the segments taken until then say: nothing, unless it is the
/// last that its message lacked; then the joined data, number by number, of the first segments taken.
pub fn arrivals_follow_the_segments()
    ensures { (number format : ℕ) (acts : Acts) (s : Piece) → AreActs acts → IsSegment s
        → takes (end_after (start number format) acts) s ≡ true
        → arrived_after (end_after (start number format) acts) s
        ≡ arrival_by (taken_by (start number format) acts) s }
{}

/// The acknowledgement that a segment of a call gets, if it gets one, says how many segments of its message were
/// taken from the first on without a gap; likewise that of a return.
pub fn acknowledgements_count_the_segments()
    ensures calls { (number format : ℕ) (acts : Acts) (s : Piece) → AreActs acts → IsSegment s
        → takes (end_after (start number format) acts) s ≡ true
        → is_acknowledgement s ≡ false → s.kind ≡ 0
        → let e = end_after (start number format) acts in
        acknowledgement e.stopped e.arriving_calls s
        ≡ acknowledged_by e.stopped (taken_by (start number format) acts) s }
    ensures returns { (number format : ℕ) (acts : Acts) (s : Piece) → AreActs acts → IsSegment s
        → takes (end_after (start number format) acts) s ≡ true
        → is_acknowledgement s ≡ false → s.kind ≡ 1
        → let e = end_after (start number format) acts in
        acknowledgement e.stopped e.arriving_returns s
        ≡ acknowledged_by e.stopped (taken_by (start number format) acts) s }
{}

/// A segment is taken exactly where it has the format and: an acknowledgement speaks of a message that was sent,
/// with its total; another one has the total of the first segment taken for its message, and a segment of a
/// return answers a call that was sent.
pub fn segments_are_taken_by_the_rules()
    ensures { (first format : ℕ) (acts : Acts) (s : Piece) → AreLawful first format acts
        → IsSegment s
        → let began = start first format in
        takes (end_after began acts) s
        ≡ is_taken first format acts (taken_by began acts) (is_sent began acts) s }
{}

/// What an end knows of its acts: its format, the number of its next call, whether the other end was declared down, and
/// which calls wait for a return, which are those that have arrived whole and had none.
pub fn ends_know_their_acts()
    ensures format { (first format : ℕ) (acts : Acts)
        → (end_after (start first format) acts).format ≡ format }
    ensures next { (first format : ℕ) (acts : Acts) → AreLawful first format acts
        → (end_after (start first format) acts).next ≡ first + calls_made acts }
    ensures down { (first format : ℕ) (acts : Acts) → AreLawful first format acts
        → (end_after (start first format) acts).stopped ≡ is_stopped_after acts }
    ensures awaits { (first format : ℕ) (acts : Acts) (call : ℕ)
        → AreLawful first format acts
        → let began = start first format in
        awaits_return (end_after began acts) call
        ≡ (has_arrived (taken_by began acts) 0 call && not (is_some (return_at acts call))) }
{}

/// The segments of a message join to it.
pub fn cut_messages_join()
    ensures { (message : List ℕ) → data_up_to (part_at message) (segment_count message) ≡ message }
{}

/// Where each segment that was taken for a message is a segment of one that was sent, what arrives is that one.
pub fn sent_messages_arrive()
    ensures { (ts : List Piece) (kind call : ℕ) (message : List ℕ) → AreTaken ts
        → AreOf kind call message ts
        → has_arrived ts kind call ≡ true
        → (total_in ts kind call ≡ Some (segment_count message))
        × (message_in ts kind call (segment_count message) ≡ message) }
{}

/// A call was sent exactly where the window let it go at the end of some act, from its making on and before the
/// other end was declared down: where fewer than 64 calls of smaller numbers were not acknowledged whole. So at
/// most 64 calls are sent and not acknowledged whole (docs/PROTOCOL.md, "The window").
pub fn calls_are_sent_in_time()
    ensures sent { (first format : ℕ) (acts : Acts) (call : ℕ)
        → AreLawful first format acts
        → let began = start first format in
        sent_below (end_after began acts).sent first acts call ≡ is_sent began acts call }
    ensures window { (first format : ℕ) (acts : Acts) → AreLawful first format acts
        → let began = start first format in
        count_below (λ call.
        is_sent began acts call && not (call_is_whole first acts (taken_by began acts) call))
        (first + calls_made acts) ≤ window }
{}

/// What an act sends is what is owed: a call is sent whole by the act that lets it go, and a return by the act
/// that hands it over; a segment that is taken is acknowledged, before the calls that it lets go; and a tick
/// sends the first open segment of each message that was sent and is not acknowledged whole, or the probe of a
/// call that has no return yet (docs/PROTOCOL.md, "The window" to "Ticks").
pub fn acts_send_what_is_owed()
    ensures calls { (first format : ℕ) (acts : Acts) (message : List ℕ)
        → AreLawful first format (more acts (Call message))
        → let began = start first format in
        datagrams_of_call (end_after began acts) message ≡ outputs began acts (Call message) }
    ensures returns { (first format : ℕ) (acts : Acts) (call : ℕ) (message : List ℕ)
        → AreLawful first format (more acts (Return call message))
        → let began = start first format in
        datagrams_of_return (end_after began acts) call message
        ≡ outputs began acts (Return call message) }
    ensures segments { (first format : ℕ) (acts : Acts) (s : Piece)
        → AreLawful first format (more acts (Came s))
        → let began = start first format in
        datagrams_after (end_after began acts) s ≡ outputs began acts (Came s) }
    ensures ticks { (first format : ℕ) (acts : Acts)
        → AreLawful first format (more acts Tick)
        → let began = start first format in
        datagrams_of_tick (end_after began acts) ≡ outputs began acts Tick }
{}

/// The ticks are those since a segment was taken, or a call was handed over while none was unfinished, as far as
/// calls were unfinished, up to 8. The other end is suspected at the tick that makes them 8
/// (docs/PROTOCOL.md, "Ticks").
pub fn ticks_are_counted()
    ensures count { (first format : ℕ) (acts : Acts) → AreLawful first format acts
        → let began = start first format in
        (end_after began acts).ticks ≡ ticks_after began acts }
    ensures suspicion { (first format : ℕ) (acts : Acts) → AreLawful first format acts
        → let began = start first format in
        is_suspect (end_after began acts) ≡ suspects_after began acts }
{}

/// What is there stays as acts are added: that a message has arrived and which total it has, the messages that were
/// handed over, and that a call was sent.
pub fn what_is_there_stays()
    ensures arrived { (first format : ℕ) (acts : Acts) (act : Act) (kind call : ℕ)
        → AreLawful first format (more acts act)
        → let began = start first format in
        has_arrived (taken_by began acts) kind call ≡ true
        → has_arrived (taken_by began (more acts act)) kind call ≡ true }
    ensures totals { (first format : ℕ) (acts : Acts) (act : Act) (kind call total : ℕ)
        → AreLawful first format (more acts act)
        → let began = start first format in
        total_in (taken_by began acts) kind call ≡ Some total
        → total_in (taken_by began (more acts act)) kind call ≡ Some total }
    ensures calls { (first format : ℕ) (acts : Acts) (act : Act) (call : ℕ) (message : List ℕ)
        → AreLawful first format (more acts act)
        → call_at first acts call ≡ Some message
        → call_at first (more acts act) call ≡ Some message }
    ensures returns { (first format : ℕ) (acts : Acts) (act : Act) (call : ℕ) (message : List ℕ)
        → AreLawful first format (more acts act)
        → return_at acts call ≡ Some message → return_at (more acts act) call ≡ Some message }
    ensures sent { (first format : ℕ) (acts : Acts) (act : Act) (call : ℕ)
        → let began = start first format in
        is_sent began acts call ≡ true → is_sent began (more acts act) call ≡ true }
{}

/// A message of each kind and number arrives at most once at an end, whatever comes: once where all its segments were
/// taken. The segments that are taken are such as `sent_messages_arrive` speaks of, and a call that arrives awaits its
/// return.
pub fn messages_arrive_once()
    ensures once { (first format : ℕ) (acts : Acts) → AreLawful first format acts
        → let began = start first format in
        (kind call : ℕ) → count_by (λ a.
        (a.kind == kind) && (a.call == call)) (arrived_in began acts)
        ≡ (if has_arrived (taken_by began acts) kind call then 1 else 0) }
    ensures taken { (first format : ℕ) (acts : Acts) → AreLawful first format acts
        → AreTaken (taken_by (start first format) acts) }
    ensures awaited { (first format : ℕ) (acts : Acts) (s : Piece) (call : ℕ) (message : List ℕ)
        → AreLawful first format (more acts (Came s))
        → let began = start first format in
        arrived_after (end_after began acts) s ≡ ArrivedCall call message
        → awaits_return (end_after began (more acts (Came s))) call ≡ true }
{}

/// An act that sends a call is the only one that does, and a call that is not sent, while the other end was not declared
/// down, has 64 calls of smaller numbers before it that are not acknowledged whole (docs/PROTOCOL.md, "The window").
pub fn calls_are_sent_once()
    ensures once { (first format : ℕ) (acts : Acts) (act : Act) (call : ℕ)
        → let began = start first format in
        is_sent began acts call ≡ true → let_go_by began acts act call ≡ [] }
    ensures waits { (first format : ℕ) (acts : Acts) (call : ℕ)
        → is_some (call_at first acts call) ≡ true → is_stopped_after acts ≡ false
        → let began = start first format in
        is_sent began acts call ≡ false
        → window ≤ count_below (is_open first acts (taken_by began acts)) call }
{}

/// Each datagram that an act sends is read as a segment of the format: an acknowledgement of no more segments than were
/// taken of that message from the first on, with its total; or a segment that has its total, place and bytes in a message
/// that was handed over, a return to a call that has arrived; a probe has no bytes (docs/PROTOCOL.md, "Segments").
/// Which acts send which of them is said by `acts_send_what_is_owed`.
pub fn datagrams_say_what_is_known()
    ensures { (first format : ℕ) (acts : Acts) (act : Act) (number : ℕ) (datagram : List ℕ)
        → (format ≡ 1) ⊎ (format ≡ 2) → AreLawful first format (more acts act)
        → let began = start first format in
        slice_get (datagrams_by (end_after began acts) act) number ≡ Some datagram
        → (s : Piece) × (reading datagram ≡ Ok s)
        × IsSaid first format (more acts act) (taken_by began (more acts act)) s }
{}
