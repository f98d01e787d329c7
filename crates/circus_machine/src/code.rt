// Bodies as flat lists of instructions.
ghost use Rattle.std.specs.Prelude.{◌≡◌, ◌<◌, ◌≤◌, ◌+◌, ◌-◌, ◌++◌, length, map, All, OnOk, IfOk};
ghost use Rattle.circus_checked.specs.StatementOf.{tree_of};
ghost use Rattle.circus_checked.specs.StatementTree.{statement_trees, handler_trees};
ghost use Rattle.circus_checked.specs.ExpressionOf as expressions;
ghost use Rattle.circus_checked.specs.StatementTree as statement;
ghost use Rattle.circus_machine.specs.Seen.Code as acts;
ghost use Rattle.circus_machine.specs.Seen.Code.{code_of, codes_of};
ghost use Rattle.circus_machine.specs.declared.code.Instruction.TheVariants.{Ask};
ghost use Rattle.circus_machine.specs.Seen.Instructions.{act_of, acts_of, catch_of, leading_to};

use circus_checked::{
    CheckedCall, CheckedExpression, CheckedExpressions, CheckedHandlers, CheckedPlace,
    CheckedPlaces, CheckedStatement, CheckedStatements, NumberKind,
};
use circus_value::{Duplicate, ListOf, NoMemory};
use std::alloc::Global;

/// What is done at once. An offset is how many instructions are passed over, on the way ahead from the one behind it.
#[derive(Debug, Drop)]
pub(crate) enum Instruction {
    Assign(CheckedPlace, CheckedExpression),
    /// An item, the sequence, the most items of it, and the kind of its items where these are numbers.
    Append(CheckedExpression, CheckedPlace, u16, Option<NumberKind>),
    /// Goes on ahead where the condition doesn't hold.
    Unless(CheckedExpression, usize),
    /// Goes on ahead.
    Jump(usize),
    /// Goes back to so many instructions before it where the condition holds.
    Again(CheckedExpression, usize),
    Ask(Asking),
    Give(CheckedExpressions),
    /// The error with this number, with its values.
    Raise(u16, CheckedExpressions),
}

/// A call of another module. The code of its handlers stands behind it.
#[derive(Debug, Drop)]
pub(crate) struct Asking {
    pub callee: u16,
    pub procedure: u16,
    pub arguments: CheckedExpressions,
    pub into: CheckedPlaces,
    pub catches: Catches,
    /// The length of the code of the handlers.
    pub skip: usize,
}

/// A handler of a call.
#[derive(Debug, Drop)]
pub(crate) struct Catch {
    /// The number of the error, or `None` for every other error.
    pub error: Option<u16>,
    /// Where the error's values go.
    pub places: CheckedPlaces,
    /// Where its code begins, on the way ahead from the instruction behind the call.
    pub offset: usize,
}

/// Where errors of a call go, in the order in which they are tried.
pub(crate) type Catches = ListOf<Catch>;

/// Instructions, one behind another.
pub(crate) type Code = ListOf<Instruction>;

/// The code of a body, or `NoMemory`.
pub(crate) fn code_of(alloc: Global, statements: &CheckedStatements) -> Result<Code, NoMemory>
    ensures { IfOk result (λ code. acts_of code ≡ codes_of (statement_trees statements.now)) }
{
    let mut code = Code::new(alloc);
    append_all(alloc, statements, &mut code)?;
    Ok(code)
}

// Adds the code of statements.
#[cycle(compiling)]
#[tactic(auto, using(crate::proofs::CompilingSteps::statements_more, crate::proofs::CompilingSteps::statements_done, crate::proofs::CompilingSteps::weight_statement))]
fn append_all(
    alloc: Global,
    statements: &CheckedStatements,
    code: &mut Code,
) -> Result<(), NoMemory>
    ensures code { OnOk result
        (acts_of code.new ≡ acts_of code.old ++ codes_of (statement_trees statements.now)) }
    ensures longer { length code.old ≤ length code.new }
{
    for statement in statements.as_slice() {
        append(alloc, statement, code)?;
    }
    Ok(())
}

// Adds the code of a statement.
#[cycle(compiling)]
fn append(alloc: Global, statement: &CheckedStatement, code: &mut Code) -> Result<(), NoMemory>
    ensures code { OnOk result
        (acts_of code.new ≡ acts_of code.old ++ code_of (tree_of statement.now)) }
    ensures longer { length code.old ≤ length code.new }
{
    match statement {
        CheckedStatement::Assign(place, expression) => {
            code.push(Instruction::Assign(place.copy()?, expression.copy()?))
        }
        CheckedStatement::If(condition, then, others) => {
            append_branch(alloc, condition, then, others, code)
        }
        CheckedStatement::While(condition, body) => append_loop(alloc, condition, body, code),
        CheckedStatement::Append(item, place, bound, kind) => code.push(Instruction::Append(
            item.copy()?,
            place.copy()?,
            *bound,
            *kind,
        )),
        CheckedStatement::Call(call) => append_call(alloc, call, code),
        CheckedStatement::Return(values) => code.push(Instruction::Give(values.copy()?)),
        CheckedStatement::Raise(error, values) => {
            code.push(Instruction::Raise(*error, values.copy()?))
        }
    }
}

// The offset from one place to another one behind it.
fn offset(from: usize, to: usize) -> usize
    requires { from < to }
    ensures { result ≡ to - from - 1 }
{
    to - from - 1
}

#[cycle(compiling)]
fn append_branch(
    alloc: Global,
    condition: &CheckedExpression,
    then: &CheckedStatements,
    others: &CheckedStatements,
    code: &mut Code,
) -> Result<(), NoMemory>
    ensures code { OnOk result
        (acts_of code.new
        ≡ acts_of code.old
        ++ code_of (statement.branch (expressions.tree_of condition.now) (statement_trees then.now)
        (statement_trees others.now))) }
    ensures longer { length code.old ≤ length code.new }
{
    let at = code.len();
    code.push(Instruction::Jump(0))?;
    append_all(alloc, then, code)?;
    let behind = code.len();
    code.push(Instruction::Jump(0))?;
    let second = code.len();
    append_all(alloc, others, code)?;
    let unless = Instruction::Unless(condition.copy()?, offset(at, second));
    code.set(at, unless);
    let offset = offset(behind, code.len());
    code.set(behind, Instruction::Jump(offset));
    Ok(())
}

#[cycle(compiling)]
fn append_loop(
    alloc: Global,
    condition: &CheckedExpression,
    body: &CheckedStatements,
    code: &mut Code,
) -> Result<(), NoMemory>
    ensures code { OnOk result
        (acts_of code.new
        ≡ acts_of code.old
        ++ code_of (statement.repeat (expressions.tree_of condition.now)
        (statement_trees body.now))) }
    ensures longer { length code.old ≤ length code.new }
{
    let at = code.len();
    code.push(Instruction::Jump(0))?;
    append_all(alloc, body, code)?;
    let offset = offset(at, code.len());
    code.set(at, Instruction::Jump(offset));
    code.push(Instruction::Again(condition.copy()?, offset))
}

#[cycle(compiling)]
fn append_call(alloc: Global, call: &CheckedCall, code: &mut Code) -> Result<(), NoMemory>
    ensures code { OnOk result
        (acts_of code.new
        ≡ acts_of code.old
        ++ code_of (statement.call call.now.callee call.now.procedure call.now.arguments
        call.now.into (handler_trees call.now.handlers))) }
    ensures longer { length code.old ≤ length code.new }
{
    let at = code.len();
    code.push(Instruction::Jump(0))?;
    let catches = append_handlers(alloc, at, &call.handlers, code)?;
    let asking = asked_with(call, catches, offset(at, code.len()))?;
    code.set(at, Instruction::Ask(asking));
    Ok(())
}

// Adds the code of the handlers of a call whose instruction stands at a place, right before them.
#[cycle(compiling)]
fn append_handlers(
    alloc: Global,
    at: usize,
    handlers: &CheckedHandlers,
    code: &mut Code,
) -> Result<Catches, NoMemory>
    requires { length code.old ≡ at + 1 }
    ensures code { OnOk result
        (acts_of code.new ≡ acts_of code.old ++ acts.handlers_code (handler_trees handlers.now)) }
    ensures catches { IfOk result (λ catches.
        map catch_of catches ≡ acts.table_of 0 (handler_trees handlers.now)) }
    ensures longer { length code.old ≤ length code.new }
{
    let mut catches = Catches::new(alloc);
    let mut exits = ListOf::new(alloc);
    for handler in handlers.as_slice() {
        catches.push(Catch {
            error: handler.error,
            places: handler.places.copy()?,
            offset: offset(at, code.len()),
        })?;
        append_all(alloc, &handler.statements, code)?;
        exits.push(code.len())?;
        code.push(Instruction::Jump(0))?;
    }
    lead_to_end(code, exits.as_slice());
    Ok(catches)
}

// The ask of a call.
fn asked_with(call: &CheckedCall, catches: Catches, skip: usize) -> Result<Asking, NoMemory>
    ensures { IfOk result (λ asking.
        act_of (Ask asking)
        ≡ acts.ask call.now.callee call.now.procedure call.now.arguments call.now.into
        (map catch_of catches) skip) }
{
    Ok(Asking {
        callee: call.callee,
        procedure: call.procedure,
        arguments: call.arguments.copy()?,
        into: call.into.copy()?,
        catches,
        skip,
    })
}

// Makes the jumps at these places lead to the end.
#[tactic(auto, using(crate::proofs::CompilingSteps::leads_done))]
fn lead_to_end(code: &mut Code, exits: &[usize])
    requires { All (λ exit. exit < length code.old) exits.now }
    ensures code { acts_of code.new ≡ leading_to (length code.old) exits.now (acts_of code.old) }
    ensures long { length code.new ≡ length code.old }
{
    for exit in exits {
        let offset = offset(*exit, code.len());
        code.set(*exit, Instruction::Jump(offset));
    }
}
