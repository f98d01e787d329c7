// What the next token begins.
ghost use Rattle.std.specs.Prelude.{◌≡◌};
ghost use Rattle.circus_syntax.specs.Reader.{next, sees};
ghost use Rattle.circus_statement.specs.StatementReading.{begins_statement, start_of_statement};

use crate::StatementStart;
use circus_syntax::Reader;

/// Whether the next token begins a statement.
pub fn sees_statement(reader: &Reader<'_>) -> bool
    ensures { result ≡ sees begins_statement reader.now }
{
    reader.sees_name()
        || reader.sees_word(b"IF")
        || reader.sees_word(b"WHILE")
        || reader.sees_word(b"APPEND")
        || reader.sees_word(b"CALL")
        || reader.sees_word(b"RETURN")
        || reader.sees_word(b"RAISE")
}

/// What the next token begins, of the forms of a statement.
#[tactic(auto, unfolding(crate::specs::StatementReading::start_of_statement))]
pub fn statement_start(reader: &Reader<'_>) -> StatementStart
    ensures { result ≡ start_of_statement (next reader.now) }
{
    if reader.sees_word(b"IF") {
        StatementStart::If
    } else if reader.sees_word(b"WHILE") {
        StatementStart::While
    } else if reader.sees_word(b"APPEND") {
        StatementStart::Append
    } else if reader.sees_word(b"CALL") {
        StatementStart::Call
    } else if reader.sees_word(b"RETURN") {
        StatementStart::Return
    } else if reader.sees_word(b"RAISE") {
        StatementStart::Raise
    } else {
        StatementStart::Assign
    }
}
