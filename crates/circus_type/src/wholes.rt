// Whole types, which are no parts of others.
ghost use Rattle.std.specs.Prelude.{◌≡◌, None, OnOk, IfOk};
ghost use Rattle.circus_syntax.specs.TypeOf.{tree_of};
ghost use Rattle.circus_fault.specs.Least.{least_from};
ghost use Rattle.circus_type.specs.Inside as faults;
ghost use Rattle.circus_type.specs.Whole.{whole_faults};
ghost use Rattle.circus_type.specs.Seen.Measured.{measure_of_type, more_parts, is_over, cut_off};

use crate::inner::check_inside;
use crate::limits::{MOST_PARTS, MOST_ZERO_BYTES};
use crate::measuring::{Measure, measure_of_type};
use crate::{TypeCause, TypeNames, WithTypeCauses};
use circus_fault::Best;
use circus_syntax::{MOST_LEVELS, TypeText};
use circus_value::NoMemory;
use std::alloc::Global;

// The parts of types with so many more of one size.
fn more_parts(parts: u32, count: usize, size: Measure) -> u32
    ensures { result ≡ more_parts parts count size }
{
    let more = (count as u64).saturating_mul(u64::from(size.parts));
    u64::from(parts)
        .saturating_add(more)
        .min(u64::from(MOST_PARTS + 1)) as u32
}

// Whether a type of this size, with which there are so many parts, passes a limit.
fn is_over(parts: u32, size: Measure) -> bool
    ensures { result ≡ is_over parts size }
{
    size.zeros > MOST_ZERO_BYTES || size.levels > u32::from(MOST_LEVELS) || parts > MOST_PARTS
}

// The least fault inside of a type.
fn found_inside<N: TypeNames, C: WithTypeCauses>(
    alloc: Global,
    names: &N,
    shape: &TypeText,
) -> Result<Best<C>, NoMemory>
    ensures { IfOk result (λ own.
        own.fault ≡ least_from C.rank None
        (faults.inside C.embed (N.unknown_place names.now) (tree_of shape.now))) }
{
    let mut own: Best<C> = Best { fault: None };
    check_inside(alloc, names, &mut own, shape)?;
    Ok(own)
}

/// A whole type, which so many names share behind so many parts: finds its faults, counts its parts, and answers its size.
/// `within` is the place of the type in which reading stopped, whose size isn't tested.
pub fn whole<N: TypeNames, C: WithTypeCauses>(
    alloc: Global,
    names: &N,
    best: &mut Best<C>,
    within: Option<u32>,
    parts: &mut u32,
    count: usize,
    shape: &TypeText,
) -> Result<Measure, NoMemory>
    ensures found { OnOk result (best.new.fault ≡ least_from C.rank best.old.fault
        (whole_faults C.embed cut_off (N.unknown_place names.now)
        (N.sizes names.now) within parts.old count (tree_of shape.now))) }
    ensures counted { OnOk result
        (parts.new ≡ more_parts parts.old count
        (measure_of_type (N.sizes names.now) (tree_of shape.now))) }
    ensures sized { IfOk result (λ measure.
        measure ≡ measure_of_type (N.sizes names.now) (tree_of shape.now)) }
{
    let own = found_inside::<N, C>(alloc, names, shape)?;
    best.join(own);
    let size = measure_of_type(names, shape);
    *parts = more_parts(*parts, count, size);
    let tested = own.is_clean() && within != Some(shape.at);
    best.note(
        tested && is_over(*parts, size),
        shape.at,
        C::of_type(TypeCause::TooLarge),
    );
    Ok(size)
}
