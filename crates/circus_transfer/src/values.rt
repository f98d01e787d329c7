// Values of which the shapes are known, one behind the other.
ghost use Rattle.std.specs.Prelude.{◌≤◌, length, drop};
ghost use Rattle.circus_external.specs.Seen.Given.{Gives};
ghost use Rattle.circus_external.specs.Reading.{fields_reading};
ghost use Rattle.circus_transfer.specs.Snapshot.{fields_of};
ghost use Rattle.circus_transfer.specs.Seen.Ending.{EndsAt};

use circus_external::{ByteSource, ExternalFault, read_from};
use circus_value::{Shapes, Values, ValuesBuilder};
use std::alloc::Global;

/// One value for each shape, whose bytes stand from a place on one after another, and the place behind them
/// (docs/FORMATS.md, "External data"). The faults are those of `read_from`, at the first shape that has one.
#[tactic(auto, using(crate::proofs::Fields::shapes_more, crate::proofs::Fields::shapes_all, crate::proofs::Fields::shapes_fault))]
pub fn read_values<S: ByteSource>(
    alloc: Global,
    source: &S,
    from: usize,
    shapes: &Shapes,
) -> Result<(Values, usize), ExternalFault>
    requires { from ≤ length (S.octets source.now) }
    ensures { Gives (λ ts.
        ts) (S.octets source.now) result
        (fields_reading (fields_of shapes.now) from (drop from (S.octets source.now))) }
{
    let mut values = ValuesBuilder::with_capacity(alloc, shapes.len())?;
    let mut at = from;
    for shape in shapes.as_slice() {
        let (value, next) = read_from(alloc, source, at, shape)?;
        values.push(value)?;
        at = next;
    }
    Ok((values.finish()?, at))
}

/// The place behind the values that `read_values` reads, which are not kept: no list is made of them. The faults are
/// those of `read_values`.
pub fn end_of_values<S: ByteSource>(
    alloc: Global,
    source: &S,
    from: usize,
    shapes: &Shapes,
) -> Result<usize, ExternalFault>
    requires { from ≤ length (S.octets source.now) }
    ensures { EndsAt (S.octets source.now) result
        (fields_reading (fields_of shapes.now) from (drop from (S.octets source.now))) }
{
    let mut at = from;
    for shape in shapes.as_slice() {
        let (_value, next) = read_from(alloc, source, at, shape)?;
        at = next;
    }
    Ok(at)
}
