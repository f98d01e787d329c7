// What the next token begins or goes on with.
ghost use Rattle.std.specs.Prelude.{◌≡◌};
ghost use Rattle.circus_syntax.specs.Reader.{next, sees};
ghost use Rattle.circus_expression.specs.Operators.{operators, comparisons, next_operator};
ghost use Rattle.circus_expression.specs.ExpressionReading.{start_of_primary, is_suffix};

use crate::{Chain, Operator, PrimaryStart};
use circus_syntax::Reader;

/// What the next token begins, of the forms of a primary.
#[tactic(auto, unfolding(crate::specs::ExpressionReading::start_of_primary))]
pub fn primary_start(reader: &Reader<'_>) -> PrimaryStart
    ensures { result ≡ start_of_primary (next reader.now) }
{
    if reader.sees_number() {
        PrimaryStart::Number
    } else if reader.sees_text() {
        PrimaryStart::Text
    } else if reader.sees_word(b"TRUE") {
        PrimaryStart::True
    } else if reader.sees_word(b"FALSE") {
        PrimaryStart::False
    } else if reader.sees_sign(b"(") {
        PrimaryStart::Parenthesis
    } else if reader.sees_word(b"LENGTH") {
        PrimaryStart::Length
    } else {
        PrimaryStart::Name
    }
}

/// Whether the next token begins a suffix.
pub fn sees_suffix(reader: &Reader<'_>) -> bool
    ensures { result ≡ sees is_suffix reader.now }
{
    reader.sees_sign(b".") || reader.sees_sign(b"[")
}

/// The operator of the chain that is the next token.
pub fn operator(reader: &Reader<'_>, of: Chain) -> Option<Operator>
    ensures { result ≡ next_operator (operators of) (next reader.now) }
{
    match of {
        Chain::Expression => or(reader),
        Chain::Conjunct => and(reader),
        Chain::Sum => sum_operator(reader),
        Chain::Term => term_operator(reader),
    }
}

fn or(reader: &Reader<'_>) -> Option<Operator>
    ensures { result ≡ next_operator (operators Chain.Expression) (next reader.now) }
{
    if reader.sees_word(b"OR") {
        Some(Operator::Or)
    } else {
        None
    }
}

fn and(reader: &Reader<'_>) -> Option<Operator>
    ensures { result ≡ next_operator (operators Chain.Conjunct) (next reader.now) }
{
    if reader.sees_word(b"AND") {
        Some(Operator::And)
    } else {
        None
    }
}

fn sum_operator(reader: &Reader<'_>) -> Option<Operator>
    ensures { result ≡ next_operator (operators Chain.Sum) (next reader.now) }
{
    if reader.sees_sign(b"+") {
        Some(Operator::Plus)
    } else if reader.sees_sign(b"-") {
        Some(Operator::Minus)
    } else if reader.sees_sign(b"&") {
        Some(Operator::Join)
    } else {
        None
    }
}

fn term_operator(reader: &Reader<'_>) -> Option<Operator>
    ensures { result ≡ next_operator (operators Chain.Term) (next reader.now) }
{
    if reader.sees_sign(b"*") {
        Some(Operator::Times)
    } else if reader.sees_word(b"DIV") {
        Some(Operator::Div)
    } else if reader.sees_word(b"MOD") {
        Some(Operator::Mod)
    } else {
        None
    }
}

/// The comparison that is the next token.
pub fn comparison(reader: &Reader<'_>) -> Option<Operator>
    ensures { result ≡ next_operator comparisons (next reader.now) }
{
    if reader.sees_sign(b"=") {
        Some(Operator::Equal)
    } else if reader.sees_sign(b"<>") {
        Some(Operator::Unequal)
    } else if reader.sees_sign(b"<") {
        Some(Operator::Less)
    } else if reader.sees_sign(b"<=") {
        Some(Operator::AtMost)
    } else if reader.sees_sign(b">") {
        Some(Operator::Greater)
    } else if reader.sees_sign(b">=") {
        Some(Operator::AtLeast)
    } else {
        None
    }
}
