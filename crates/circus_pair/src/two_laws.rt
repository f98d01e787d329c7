// What holds of two ends after every lawful list of acts, in which datagrams are lost, repeated and reordered.
ghost use Rattle.std.specs.Prelude.{◌≡◌, ◌⊎◌, ℕ, Bool, not, true, false, List, Some, Ok, ◌&&◌, ◌==◌, if◌then◌else◌, count_by, slice_get};
ghost use Rattle.std.specs.FinMap.{get};
ghost use Rattle.circus_exchange.specs.declared.progress.Progress.{Progress};
ghost use Rattle.circus_segment.specs.Segment.{Piece, IsSegment, reading};
ghost use Rattle.circus_exchange.specs.Exchange.{start};
ghost use Rattle.circus_pair.specs.Taken.{has_arrived};
ghost use Rattle.circus_pair.specs.Lawful.{AreLawful};
ghost use Rattle.circus_pair.specs.TwoEnds.{History, Talk, acts_at_first, acts_at_second, IsTalk, Agree, IsLawfulHistory, acts_of, taken_at, sent_by, arrived_at, end_at, both_after};

/// Whatever is handed over at two ends, however datagrams are lost, repeated and reordered on their way between them, and
/// whenever one is told that the other is down: a message arrives at most once and as it was handed over, and counts as
/// acknowledged whole only where it has arrived (docs/PROTOCOL.md, "Segments").
pub fn two_ends_agree()
    ensures { (format : ℕ) (talk : Talk) → (format ≡ 1) ⊎ (format ≡ 2) → IsTalk format talk
        → Agree format (acts_at_first talk) (acts_at_second talk) }
{}

/// A message has arrived at an end exactly where all its segments were taken (docs/PROTOCOL.md, "Segments").
pub fn whole_messages_have_arrived()
    ensures { (format : ℕ) (history : History) (end : Bool) (kind call : ℕ)
        → (format ≡ 1) ⊎ (format ≡ 2)
        → IsLawfulHistory format history
        → count_by (λ a. (a.kind == kind) && (a.call == call)) (arrived_at end format history)
        ≡ (if has_arrived (taken_at end format history) kind call then 1 else 0) }
{}

/// What an end keeps as acknowledged whole, of a call or of a return, has arrived whole at the other one
/// (docs/PROTOCOL.md, "The window").
pub fn acknowledged_messages_have_arrived()
    ensures calls { (format : ℕ) (history : History) (end : Bool) (call : ℕ) (kept : Progress)
        → (format ≡ 1) ⊎ (format ≡ 2)
        → IsLawfulHistory format history
        → get (end_at (both_after format history) end).exchange.calls.progress call ≡ Some kept
        → kept.count ≡ kept.total
        → has_arrived (taken_at (not end) format history) 0 call ≡ true }
    ensures returns { (format : ℕ) (history : History) (end : Bool) (call : ℕ) (kept : Progress)
        → (format ≡ 1) ⊎ (format ≡ 2)
        → IsLawfulHistory format history
        → get (end_at (both_after format history) end).exchange.returns.progress call ≡ Some kept
        → kept.count ≡ kept.total
        → has_arrived (taken_at (not end) format history) 1 call ≡ true }
{}

/// What has happened at either of two ends is lawful there, so that the laws of one end hold of it.
pub fn each_end_is_lawful()
    ensures low { (format : ℕ) (history : History) → (format ≡ 1) ⊎ (format ≡ 2)
        → IsLawfulHistory format history
        → AreLawful 0 format (acts_of false format history) }
    ensures high { (format : ℕ) (history : History) → (format ≡ 1) ⊎ (format ≡ 2)
        → IsLawfulHistory format history
        → AreLawful 0 format (acts_of true format history) }
{}

/// Each datagram that an end has sent is a segment of its format, and is read as that, so a delivery drops none for
/// its bytes. In format 1 no total is above 255.
pub fn datagrams_are_segments()
    ensures { (format : ℕ) (history : History) (end : Bool) (number : ℕ) (datagram : List ℕ)
        → (format ≡ 1) ⊎ (format ≡ 2)
        → IsLawfulHistory format history
        → slice_get (sent_by (start 0 format) (acts_of end format history)) number ≡ Some datagram
        → (s : Piece) × (reading datagram ≡ Ok s) × IsSegment s × (s.format ≡ format) }
{}
