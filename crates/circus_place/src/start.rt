// What the next token begins.
ghost use Rattle.std.specs.Prelude.{◌≡◌};
ghost use Rattle.circus_syntax.specs.Reader.{next};
ghost use Rattle.circus_place.specs.Seen.Reading.{value_start, alone_start};

use circus_syntax::Reader;

/// What a value begins with.
#[derive(Clone, Copy, Debug, PartialEq, Eq)]
pub enum ValueStart {
    /// A number, or no value.
    Number,
    Text,
    True,
    False,
}

/// What a condition begins with that stands by itself.
#[derive(Clone, Copy, Debug, PartialEq, Eq)]
pub enum AloneStart {
    Not,
    Group,
    Differ,
    /// A relation, or no condition.
    Relation,
}

/// What the next token begins, of the forms of a value.
#[tactic(auto, unfolding(crate::specs::Seen::Reading::value_start))]
pub fn value_start(reader: &Reader) -> ValueStart
    ensures { result ≡ value_start (next reader.now) }
{
    if reader.sees_text() {
        ValueStart::Text
    } else if reader.sees_word(b"TRUE") {
        ValueStart::True
    } else if reader.sees_word(b"FALSE") {
        ValueStart::False
    } else {
        ValueStart::Number
    }
}

/// What the next token begins, of the forms of a condition that stands by itself.
#[tactic(auto, unfolding(crate::specs::Seen::Reading::alone_start))]
pub fn alone_start(reader: &Reader) -> AloneStart
    ensures { result ≡ alone_start (next reader.now) }
{
    if reader.sees_word(b"NOT") {
        AloneStart::Not
    } else if reader.sees_sign(b"(") {
        AloneStart::Group
    } else if reader.sees_word(b"ALL") {
        AloneStart::Differ
    } else {
        AloneStart::Relation
    }
}
