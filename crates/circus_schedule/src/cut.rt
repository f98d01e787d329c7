// What stands before and behind a byte.
ghost use Rattle.std.specs.Prelude.{◌≡◌, ◌∷◌, ◌++◌, IfNone, IfSome};
ghost use Rattle.circus_schedule.specs.Seen.Cut.{Lacks};

use memchr::memchr;

/// What stands before the first place of the byte, and behind it. `None` exactly where the byte isn't there.
pub fn cut_at<'a>(byte: u8, text: &'a [u8]) -> Option<(&'a [u8], &'a [u8])>
    ensures some { IfSome result (λ cut.
        (text.now ≡ cut.0.now ++ byte ∷ cut.1.now) × Lacks byte cut.0.now) }
    ensures none { IfNone result (Lacks byte text.now) }
{
    let place = memchr(byte, text)?;
    Some((&text[..place], &text[place + 1..]))
}
