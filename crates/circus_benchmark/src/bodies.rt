// How long bodies take: a loop that counts, and a loop that adds items to a sequence.
ghost use Rattle.std.specs.Prelude.{◌<◌, [], ◌∷◌, IfOk};
ghost use Rattle.circus_value.specs.ExternalSize.{size_of_values};
ghost use Rattle.circus_value.specs.ValueOf.{tree_of};

use circus_checked::{
    Calculation, CheckedExpression, CheckedExpressions, CheckedOperand, CheckedPlace,
    CheckedStatement, CheckedStatements, CheckedSuffixes, NumberKind, Order,
};
use circus_machine::{Body, Paused};
use circus_model::Turn;
use circus_value::{NoMemory, Value, Values};
use std::alloc::Global;
use std::io;
use std::time::Instant;

// The bytes that a value may have.
const LIMIT: u32 = 65_536;

// The items that the sequence may have.
const BOUND: u16 = 40_000;

// What is timed.
#[derive(Clone, Copy)]
enum Work {
    Counting,
    Adding,
}

/// Times the one up to a number of turns, and the other up to a number of items.
pub fn run(rt: &HostRuntime, turns: Option<u32>, items: Option<u32>) -> io::Result<()> {
    if let Some(turns) = turns {
        measure(rt, Work::Counting, turns)?;
    }
    if let Some(items) = items {
        measure(rt, Work::Adding, items)?;
    }
    Ok(())
}

// How long a body takes that goes so far, in microseconds, and how it ends.
fn measure(rt: &HostRuntime, work: Work, number: u32) -> io::Result<()> {
    let start = Instant::now(rt)?;
    let turn = turn_of_work(rt.alloc(), work, number);
    let micros = start.elapsed(rt)?.as_micros();
    match turn {
        Ok(Turn::Ends { outcome, .. }) => {
            println!(rt; "{number}: {micros} microseconds, {outcome}")
        }
        Ok(Turn::Asks { .. }) => println!(rt; "{number}: {micros} microseconds, asks"),
        Err(_) => println!(rt; "out of memory"),
    }
}

fn turn_of_work(alloc: Global, work: Work, number: u32) -> Result<Turn<Paused>, NoMemory> {
    let body = match work {
        Work::Counting => count_body(alloc)?,
        Work::Adding => append_body(alloc)?,
    };
    let arguments = one(alloc, Value::LongCardinal(number))?;
    body.start(alloc, LIMIT, Values::new(alloc), &arguments)
}

fn one(alloc: Global, value: Value) -> Result<Values, NoMemory>
    requires { size_of_values (tree_of value ∷ []) < 4294967296 }
    ensures { IfOk result (λ values. size_of_values values < 4294967296) }
{
    let mut values = Values::new(alloc);
    values.push(value)?;
    Ok(values)
}

// The number counts up to the parameter, and is returned.
fn count_body(alloc: Global) -> Result<Body, NoMemory> {
    let sum = CheckedExpression::Calculate(
        Calculation::Plus,
        CheckedOperand::new(alloc, read(alloc, 1))?,
        CheckedOperand::new(alloc, CheckedExpression::Number(1))?,
    );
    let condition = is_below_parameter(alloc, read(alloc, 1))?;
    let statements = loop_statements(
        alloc,
        condition,
        CheckedStatement::Assign(place(alloc, 1), sum),
        read(alloc, 1),
    )?;
    Body::new(alloc, statements, one(alloc, Value::LongCardinal(0))?)
}

// Items are added to the sequence up to the parameter, and its length is returned.
fn append_body(alloc: Global) -> Result<Body, NoMemory> {
    let condition = is_below_parameter(alloc, length(alloc)?)?;
    let statements = loop_statements(
        alloc,
        condition,
        CheckedStatement::Append(
            CheckedExpression::Number(7),
            place(alloc, 1),
            BOUND,
            Some(NumberKind::Cardinal),
        ),
        length(alloc)?,
    )?;
    Body::new(
        alloc,
        statements,
        one(alloc, Value::Sequence(Values::new(alloc)))?,
    )
}

// WHILE the condition holds DO the statement END; RETURN the number.
fn loop_statements(
    alloc: Global,
    condition: CheckedExpression,
    statement: CheckedStatement,
    number: CheckedExpression,
) -> Result<CheckedStatements, NoMemory> {
    let mut turn = CheckedStatements::new(alloc);
    turn.push(statement)?;
    let mut results = CheckedExpressions::new(alloc);
    results.push(CheckedExpression::Convert(
        NumberKind::LongCardinal,
        CheckedOperand::new(alloc, number)?,
    ))?;
    let mut statements = CheckedStatements::new(alloc);
    statements.push(CheckedStatement::While(condition, turn))?;
    statements.push(CheckedStatement::Return(results))?;
    Ok(statements)
}

fn is_below_parameter(
    alloc: Global,
    number: CheckedExpression,
) -> Result<CheckedExpression, NoMemory> {
    Ok(CheckedExpression::Compare(
        Order::Less,
        CheckedOperand::new(alloc, number)?,
        CheckedOperand::new(alloc, read(alloc, 0))?,
    ))
}

fn length(alloc: Global) -> Result<CheckedExpression, NoMemory> {
    Ok(CheckedExpression::Length(CheckedOperand::new(alloc, read(alloc, 1))?))
}

fn read(alloc: Global, variable: u16) -> CheckedExpression {
    CheckedExpression::Read(place(alloc, variable))
}

fn place(alloc: Global, variable: u16) -> CheckedPlace {
    CheckedPlace {
        variable,
        suffixes: CheckedSuffixes::new(alloc),
    }
}
