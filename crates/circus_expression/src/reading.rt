// Reading expressions and places.
ghost use Rattle.std.specs.Prelude.{◌≡◌, ◌++◌, map, Some, IfOk, OnOk, codes};
ghost use Rattle.circus_syntax.specs.Placed.{word};
ghost use Rattle.circus_syntax.specs.Reading.{behind, name};
ghost use Rattle.circus_syntax.specs.Reader.{next, place, stop_reading, skipped_by};
ghost use Rattle.circus_expression.specs.ExpressionOf.{tree_of, kind_tree, place_of};
ghost use Rattle.circus_expression.specs.ExpressionTree.{expression, binary, is_arm};
ghost use Rattle.circus_expression.specs.Operators.{operators, next_operator};
ghost use Rattle.circus_expression.specs.Standing.{show_as, stands_for, lean_left, suffixes_stand_for, place_stands_for, type_place, join_with, related_tree};
ghost use Rattle.circus_expression.specs.ExpressionReading.{filler, first_operator, read_chain, operand, links, further_links, no_further, minus_operand, relation, related_within, factor, primary, length_primary, required_argument, named_primary, argument, read_subscript, list, items_within, suffixes, any, further, built_behind, tail_behind_dot, read_place, construction, name_with_tail};

use crate::seeing::{comparison, operator, primary_start, sees_suffix};
use crate::{
    Chain, Expression, ExpressionKind, Expressions, Operand, Operator, PlaceText, PrimaryStart,
    Suffix, Suffixes,
};
use circus_syntax::{Named, Reader, StopCause, TypeName};
use circus_value::NoMemory;

/// Reads an expression of at most so many levels, or stops: `TooDeep` at the first token that opens one too
/// many, and at the first other token with which no expression goes on (docs/LANGUAGE.md, "Expressions").
pub fn expression_text(reader: &mut Reader<'_>, levels: u8) -> Result<Expression, NoMemory>
    ensures { IfOk result (λ read.
        show_as stands_for (read_chain levels Chain.Expression reader.old)
        ≡ (tree_of read, reader.new)) }
{
    chain(reader, Chain::Expression, levels)
}

#[cycle(reading)]
fn chain(reader: &mut Reader<'_>, of: Chain, levels: u8) -> Result<Expression, NoMemory>
    ensures { IfOk result (λ read.
        show_as stands_for (read_chain levels of reader.old) ≡ (tree_of read, reader.new)) }
{
    let left = operand(reader, of, levels)?;
    match operator(reader, of) {
        Some(joint) => link(reader, left, joint, of, levels),
        None => Ok(left),
    }
}

// The operator, its operand, and what follows them, joined to what stands in front.
#[cycle(reading)]
fn link(
    reader: &mut Reader<'_>,
    left: Expression,
    joint: Operator,
    of: Chain,
    levels: u8,
) -> Result<Expression, NoMemory>
    requires { next_operator (operators of) (next reader.old) ≡ Some joint }
    ensures { IfOk result (λ read.
        show_as (lean_left (tree_of left)) (links levels of reader.old)
        ≡ (tree_of read, reader.new)) }
{
    let at = left.at;
    let left = Operand::new(reader.alloc(), left)?;
    reader.skip();
    let right = operand(reader, of, levels)?;
    let both = join(reader, at, joint, left, right)?;
    match operator(reader, of) {
        Some(further) => further_link(reader, both, further, of, levels),
        None => Ok(both),
    }
}

// A further operator of a chain and all behind it are a level more.
#[cycle(reading)]
fn further_link(
    reader: &mut Reader<'_>,
    left: Expression,
    joint: Operator,
    of: Chain,
    levels: u8,
) -> Result<Expression, NoMemory>
    requires { next_operator (operators of) (next reader.old) ≡ Some joint }
    ensures { IfOk result (λ read.
        show_as (lean_left (tree_of left)) (further_links levels of reader.old)
        ≡ (tree_of read, reader.new)) }
{
    if levels == 0 {
        return stop_linked(reader, left, of);
    }
    link(reader, left, joint, of, levels - 1)
}

#[cycle(reading)]
fn operand(reader: &mut Reader<'_>, of: Chain, levels: u8) -> Result<Expression, NoMemory>
    ensures { IfOk result (λ read.
        show_as stands_for (operand levels of reader.old) ≡ (tree_of read, reader.new)) }
{
    match of {
        Chain::Expression => chain(reader, Chain::Conjunct, levels),
        Chain::Conjunct => minus_operand(reader, levels),
        Chain::Sum => chain(reader, Chain::Term, levels),
        Chain::Term => factor(reader, levels),
    }
}

#[cycle(reading)]
fn minus_operand(reader: &mut Reader<'_>, levels: u8) -> Result<Expression, NoMemory>
    ensures { IfOk result (λ read.
        show_as stands_for (minus_operand levels reader.old) ≡ (tree_of read, reader.new)) }
{
    if !reader.sees_word(b"NOT") {
        return relation(reader, levels);
    }
    if levels == 0 {
        return stop(reader, StopCause::TooDeep);
    }
    let at = reader.place();
    reader.word(b"NOT");
    let inner = minus_operand(reader, levels - 1)?;
    let operand = Operand::new(reader.alloc(), inner)?;
    Ok(Expression {
        at,
        kind: ExpressionKind::Not(operand),
    })
}

#[cycle(reading)]
fn relation(reader: &mut Reader<'_>, levels: u8) -> Result<Expression, NoMemory>
    ensures { IfOk result (λ read.
        show_as stands_for (relation levels reader.old) ≡ (tree_of read, reader.new)) }
{
    let left = chain(reader, Chain::Sum, levels)?;
    rest_of_relation(reader, left, levels)
}

// What stands behind the first sum of a relation, joined to it.
#[cycle(reading)]
fn rest_of_relation(
    reader: &mut Reader<'_>,
    left: Expression,
    levels: u8,
) -> Result<Expression, NoMemory>
    ensures { IfOk result (λ read.
        show_as (related_tree (tree_of left)) (related_within levels reader.old)
        ≡ (tree_of read, reader.new)) }
{
    if reader.sees_word(b"IS") {
        return arm_test(reader, left);
    }
    match comparison(reader) {
        Some(joint) => rest_of_comparison(reader, left, joint, levels),
        None => Ok(left),
    }
}

// The next token, which compares, and the sum behind it, joined to what stands in front.
#[cycle(reading)]
fn rest_of_comparison(
    reader: &mut Reader<'_>,
    left: Expression,
    joint: Operator,
    levels: u8,
) -> Result<Expression, NoMemory>
    ensures { IfOk result (λ read.
        show_as (λ w. join_with joint (tree_of left) (stands_for w))
        (read_chain levels Chain.Sum (skipped_by reader.old.stop reader.old.rest reader.old.end))
        ≡ (tree_of read, reader.new)) }
{
    let at = left.at;
    let left = Operand::new(reader.alloc(), left)?;
    reader.skip();
    let right = chain(reader, Chain::Sum, levels)?;
    join(reader, at, joint, left, right)
}

#[cycle(reading)]
fn factor(reader: &mut Reader<'_>, levels: u8) -> Result<Expression, NoMemory>
    ensures { IfOk result (λ read.
        show_as stands_for (factor levels reader.old) ≡ (tree_of read, reader.new)) }
{
    if !reader.sees_sign(b"-") {
        return primary(reader, levels);
    }
    if levels == 0 {
        return stop(reader, StopCause::TooDeep);
    }
    let at = reader.place();
    reader.sign(b"-");
    let inner = factor(reader, levels - 1)?;
    let operand = Operand::new(reader.alloc(), inner)?;
    Ok(Expression {
        at,
        kind: ExpressionKind::Minus(operand),
    })
}

#[cycle(reading)]
fn primary(reader: &mut Reader<'_>, levels: u8) -> Result<Expression, NoMemory>
    ensures { IfOk result (λ read.
        show_as stands_for (primary levels reader.old) ≡ (tree_of read, reader.new)) }
{
    let at = reader.place();
    let kind = primary_kind(reader, levels)?;
    Ok(Expression { at, kind })
}

#[cycle(reading)]
fn primary_kind(reader: &mut Reader<'_>, levels: u8) -> Result<ExpressionKind, NoMemory>
    ensures { IfOk result (λ kind.
        show_as stands_for (primary levels reader.old)
        ≡ (expression (place reader.old) (kind_tree kind), reader.new)) }
{
    match primary_start(reader) {
        PrimaryStart::Number => Ok(ExpressionKind::Number(reader.number().value)),
        PrimaryStart::Text => Ok(ExpressionKind::Text(reader.text()?)),
        PrimaryStart::True => {
            reader.word(b"TRUE");
            Ok(ExpressionKind::Truth(true))
        }
        PrimaryStart::False => {
            reader.word(b"FALSE");
            Ok(ExpressionKind::Truth(false))
        }
        PrimaryStart::Parenthesis => Ok(group_in_parentheses(reader, levels)?.kind),
        PrimaryStart::Length => length(reader, levels),
        PrimaryStart::Name => kind_by_name(reader, levels),
    }
}

#[cycle(reading)]
fn length(reader: &mut Reader<'_>, levels: u8) -> Result<ExpressionKind, NoMemory>
    ensures { IfOk result (λ kind.
        show_as stands_for (length_primary levels reader.old)
        ≡ (expression (place reader.old) (kind_tree kind), reader.new)) }
{
    if levels == 0 {
        return Ok(stop(reader, StopCause::TooDeep)?.kind);
    }
    reader.word(b"LENGTH");
    let inner = length_argument(reader, levels - 1)?;
    Ok(ExpressionKind::Length(Operand::new(reader.alloc(), inner)?))
}

// What stands in the parentheses behind LENGTH.
#[cycle(reading)]
fn length_argument(reader: &mut Reader<'_>, levels: u8) -> Result<Expression, NoMemory>
    ensures { IfOk result (λ read.
        show_as stands_for (required_argument levels reader.old) ≡ (tree_of read, reader.new)) }
{
    if reader.sees_sign(b"(") {
        group_in_parentheses(reader, levels)
    } else {
        stop(reader, StopCause::Unexpected)
    }
}

// An expression in parentheses, which are a level.
#[cycle(reading)]
fn group_in_parentheses(reader: &mut Reader<'_>, levels: u8) -> Result<Expression, NoMemory>
    ensures { IfOk result (λ read.
        show_as stands_for (argument levels reader.old) ≡ (tree_of read, reader.new)) }
{
    if levels == 0 {
        return stop(reader, StopCause::TooDeep);
    }
    reader.sign(b"(");
    let inner = chain(reader, Chain::Expression, levels - 1)?;
    reader.sign(b")");
    Ok(inner)
}

#[cycle(reading)]
fn kind_by_name(reader: &mut Reader<'_>, levels: u8) -> Result<ExpressionKind, NoMemory>
    ensures { IfOk result (λ kind.
        show_as stands_for (named_primary levels reader.old)
        ≡ (expression (place reader.old) (kind_tree kind), reader.new)) }
{
    let name = reader.name()?;
    if reader.sees_sign(b"#") {
        return kind_of_type(reader, TypeName { module: None, name }, levels);
    }
    if reader.sees_sign(b".") {
        return kind_behind_dot(reader, name, levels);
    }
    let suffixes = any_suffixes(reader, levels)?;
    Ok(ExpressionKind::Read(PlaceText { name, suffixes }))
}

// What stands behind a name, where a dot follows it.
#[cycle(reading)]
fn kind_behind_dot(
    reader: &mut Reader<'_>,
    name: Named,
    levels: u8,
) -> Result<ExpressionKind, NoMemory>
    ensures { IfOk result (λ kind.
        show_as (λ behind.
        stands_for (name_with_tail name behind)) (tail_behind_dot levels reader.old)
        ≡ (expression name.at (kind_tree kind), reader.new)) }
{
    reader.sign(b".");
    let second = reader.name()?;
    if reader.sees_sign(b"#") {
        let of = TypeName {
            module: Some(name),
            name: second,
        };
        return kind_of_type(reader, of, levels);
    }
    let mut suffixes = Suffixes::new(reader.alloc());
    suffixes.push(Suffix::Field(second))?;
    further_suffixes(reader, &mut suffixes, levels)?;
    Ok(ExpressionKind::Read(PlaceText { name, suffixes }))
}

// What stands behind the name of a type: a hash, and a label, an arm with its value, or items.
#[cycle(reading)]
fn kind_of_type(
    reader: &mut Reader<'_>,
    of: TypeName,
    levels: u8,
) -> Result<ExpressionKind, NoMemory>
    ensures { IfOk result (λ kind.
        show_as (λ made. stands_for (construction of made)) (built_behind levels reader.old)
        ≡ (expression (type_place of) (kind_tree kind), reader.new)) }
{
    reader.sign(b"#");
    if reader.sees_sign(b"[") {
        return Ok(ExpressionKind::Items(of, list_text(reader, levels)?));
    }
    let name = reader.name()?;
    if !reader.sees_sign(b"(") {
        return Ok(ExpressionKind::Arm(of, name, None));
    }
    let value = group_in_parentheses(reader, levels)?;
    let operand = Operand::new(reader.alloc(), value)?;
    Ok(ExpressionKind::Arm(of, name, Some(operand)))
}

/// Reads a place of at most so many levels, or stops as `expression_text` does.
pub fn place_text(reader: &mut Reader<'_>, levels: u8) -> Result<PlaceText, NoMemory>
    ensures { IfOk result (λ read.
        show_as place_stands_for (read_place levels reader.old) ≡ (place_of read, reader.new)) }
{
    let name = reader.name()?;
    let suffixes = any_suffixes(reader, levels)?;
    Ok(PlaceText { name, suffixes })
}

#[cycle(reading)]
fn any_suffixes(reader: &mut Reader<'_>, levels: u8) -> Result<Suffixes, NoMemory>
    ensures { IfOk result (λ read.
        show_as suffixes_stand_for (any levels reader.old) ≡ (read, reader.new)) }
{
    let mut suffixes = Suffixes::new(reader.alloc());
    if !sees_suffix(reader) {
        return Ok(suffixes);
    }
    one_suffix(reader, &mut suffixes, levels)?;
    Ok(suffixes)
}

// A suffix, and those that follow it.
#[cycle(reading)]
fn one_suffix(reader: &mut Reader<'_>, into: &mut Suffixes, levels: u8) -> Result<(), NoMemory>
    ensures { OnOk result
        (show_as (λ ss. into.old ++ suffixes_stand_for ss) (suffixes levels reader.old)
        ≡ (into.new, reader.new)) }
{
    if reader.sees_sign(b"[") {
        into.push(Suffix::Subscript(subscript(reader, levels)?))?;
        return further_suffixes(reader, into, levels);
    }
    reader.sign(b".");
    into.push(Suffix::Field(reader.name()?))?;
    further_suffixes(reader, into, levels)
}

// The suffixes that follow one: each of them is a level more.
#[cycle(reading)]
fn further_suffixes(
    reader: &mut Reader<'_>,
    into: &mut Suffixes,
    levels: u8,
) -> Result<(), NoMemory>
    ensures { OnOk result
        (show_as (λ ss. into.old ++ suffixes_stand_for ss) (further levels reader.old)
        ≡ (into.new, reader.new)) }
{
    if !sees_suffix(reader) {
        return Ok(());
    }
    if levels == 0 {
        reader.stop_here(StopCause::TooDeep);
        into.push(Suffix::Field(reader.name()?))?;
        return Ok(());
    }
    one_suffix(reader, into, levels - 1)
}

#[cycle(reading)]
fn subscript(reader: &mut Reader<'_>, levels: u8) -> Result<Expression, NoMemory>
    ensures { IfOk result (λ read.
        show_as stands_for (read_subscript levels reader.old) ≡ (tree_of read, reader.new)) }
{
    if levels == 0 {
        return stop(reader, StopCause::TooDeep);
    }
    reader.sign(b"[");
    let inner = chain(reader, Chain::Expression, levels - 1)?;
    reader.sign(b"]");
    Ok(inner)
}

/// Reads a list of expressions in brackets, which are a level, or stops as `expression_text` does.
#[cycle(reading)]
pub fn list_text(reader: &mut Reader<'_>, levels: u8) -> Result<Expressions, NoMemory>
    ensures { IfOk result (λ read.
        show_as (map stands_for) (list levels reader.old) ≡ (read, reader.new)) }
{
    if levels == 0 {
        reader.stop_here(StopCause::TooDeep);
        return Ok(Expressions::new(reader.alloc()));
    }
    reader.sign(b"[");
    let items = items(reader, levels - 1)?;
    reader.sign(b"]");
    Ok(items)
}

#[cycle(reading)]
fn items(reader: &mut Reader<'_>, levels: u8) -> Result<Expressions, NoMemory>
    ensures { IfOk result (λ read.
        show_as (map stands_for) (items_within levels reader.old) ≡ (read, reader.new)) }
{
    let mut items = Expressions::new(reader.alloc());
    if reader.sees_sign(b"]") {
        return Ok(items);
    }
    items.push(chain(reader, Chain::Expression, levels)?)?;
    while reader.sees_sign(b",") {
        reader.sign(b",");
        items.push(chain(reader, Chain::Expression, levels)?)?;
    }
    Ok(items)
}

// Two expressions as one, which begins where the first does.
fn join(
    reader: &Reader<'_>,
    at: u32,
    joint: Operator,
    left: Operand,
    right: Expression,
) -> Result<Expression, NoMemory>
    ensures { IfOk result (λ made.
        tree_of made ≡ expression at (binary joint left (tree_of right))) }
{
    let right = Operand::new(reader.alloc(), right)?;
    Ok(Expression {
        at,
        kind: ExpressionKind::Binary(joint, left, right),
    })
}

// IS and the name of an arm.
fn arm_test(reader: &mut Reader<'_>, left: Expression) -> Result<Expression, NoMemory>
    ensures { IfOk result (λ read.
        show_as (λ arm. expression left.at (is_arm (tree_of left) arm))
        (behind (word (codes "IS")) name reader.old) ≡ (tree_of read, reader.new)) }
{
    let at = left.at;
    let operand = Operand::new(reader.alloc(), left)?;
    reader.word(b"IS");
    let arm = reader.name()?;
    Ok(Expression {
        at,
        kind: ExpressionKind::Is(operand, arm),
    })
}

// Stops where a further operator of the chain would be a level too many.
fn stop_linked(reader: &mut Reader<'_>, left: Expression, of: Chain) -> Result<Expression, NoMemory>
    ensures { IfOk result (λ read.
        show_as (lean_left (tree_of left)) (no_further of reader.old)
        ≡ (tree_of read, reader.new)) }
{
    let at = left.at;
    let left = Operand::new(reader.alloc(), left)?;
    let missing = stop(reader, StopCause::TooDeep)?;
    join(reader, at, first_operator(of), left, missing)
}

// Stops here, and fills in for an expression.
fn stop(reader: &mut Reader<'_>, cause: StopCause) -> Result<Expression, NoMemory>
    ensures { IfOk result (λ made.
        show_as stands_for (stop_reading cause filler reader.old) ≡ (tree_of made, reader.new)) }
{
    reader.stop_here(cause);
    let name = reader.name()?;
    let suffixes = Suffixes::new(reader.alloc());
    Ok(Expression {
        at: name.at,
        kind: ExpressionKind::Read(PlaceText { name, suffixes }),
    })
}

// The first operator of a chain, which fills in for one.
fn first_operator(of: Chain) -> Operator
    ensures { result ≡ first_operator of }
{
    match of {
        Chain::Expression => Operator::Or,
        Chain::Conjunct => Operator::And,
        Chain::Sum => Operator::Plus,
        Chain::Term => Operator::Times,
    }
}
