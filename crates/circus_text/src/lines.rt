// The line of a place in a text.
ghost use Rattle.std.specs.Prelude.{◌≡◌, ◌≤◌, length, take};
ghost use Rattle.circus_text.specs.Form.{longest_text};
ghost use Rattle.circus_text.specs.Lines.{line_of};

const NEWLINE: u8 = b'\n';

// What stands before a place, or the whole where it isn't inside.
#[tactic(auto, using(std::proofs::lemmas::List::take_all))]
fn text_before(text: &[u8], place: usize) -> &[u8]
    ensures { result.now ≡ take place text.now }
{
    if place < text.len() {
        &text[..place]
    } else {
        text
    }
}

/// The line of a place, counted from 1, or the last one where the place isn't inside.
pub fn line_at(text: &[u8], place: u64) -> u32
    requires { length text.now ≤ longest_text }
    ensures { result ≡ line_of text.now place }
{
    let ends = text_before(text, place as usize)
        .iter()
        .filter(|byte| **byte == NEWLINE)
        .count();
    1 + ends as u32
}
