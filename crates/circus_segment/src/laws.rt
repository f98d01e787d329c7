// What holds of the bytes of every segment.
ghost use Rattle.std.specs.Prelude.{◌≡◌, Ok};
ghost use Rattle.circus_segment.specs.Segment.{Piece, IsSegment, reading, spelling};

/// The bytes of a segment are read as that segment.
pub fn spelled_is_read()
    ensures { (s : Piece) → IsSegment s → reading (spelling s) ≡ Ok s }
{}
