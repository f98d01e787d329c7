// The variables of modules and procedures: their faults, and what they mean.
ghost use Rattle.std.specs.Prelude.{◌≡◌, ◌+◌, ◌&&◌, nat_lt, min, map, None, OnOk, IfOk};
ghost use Rattle.circus_fault.specs.Least.{least_from, faults_if, is_clean};
ghost use Rattle.circus_fault.specs.Seen.Tables.{holds_name};
ghost use Rattle.circus_type.specs.Limits.{most_zero_bytes};
ghost use Rattle.circus_type.specs.Together.{zero_size_of};
ghost use Rattle.circus_type.specs.Seen.Measured.{cut_off};
ghost use Rattle.circus_resolve.specs.Causes.{rank, of_type};
ghost use Rattle.circus_resolve.specs.declared.cause.CheckCause.TheVariants.{TooLarge};
ghost use Rattle.circus_lang.specs.ModuleTree.{variable_of};
ghost use Rattle.circus_check.specs.InRange.{AreVariablesInRange};
ghost use Rattle.circus_check.specs.Faults.{variables_faults, variables_parts, plain_faults, fields_of, also_variables};
ghost use Rattle.circus_type.specs.Inside.{also_name, repeated_name};
ghost use Rattle.circus_check.specs.Seen.Tables.{either};
ghost use Rattle.circus_check.specs.Seen.Scoped.{unknown_in, size_in, form_in, AreSized};

use crate::type_scope::TypeScope;
use circus_fault::{Best, Names};
use circus_lang::VariableText;
use circus_resolve::CheckCause;
use circus_syntax::Named;
use circus_type::{MOST_ZERO_BYTES, check_inside, measure_of_type, shape_of_type, whole};
use circus_value::{Duplicate, Field, Fields, Name, NoMemory};
use std::alloc::Global;

/// Adds a name to those that stand before.
pub fn add_name<'a>(names: &mut Names<'a>, name: &'a Name) -> Result<(), NoMemory>
    ensures { OnOk result (holds_name names.new ≡ also_name name.now (holds_name names.old)) }
{
    names.insert(name.as_slice(), 0)?;
    Ok(())
}

// A variable behind others and behind names from elsewhere.
fn meet<'a>(
    best: &mut Best<CheckCause>,
    outer: &Names<'_>,
    names: &mut Names<'a>,
    name: &'a Named,
) -> Result<(), NoMemory>
    ensures found { OnOk result
        (best.new.fault ≡ least_from rank best.old.fault
        (repeated_name of_type (either (holds_name outer.now) (holds_name names.old)) name.now)) }
    ensures added { OnOk result
        (holds_name names.new ≡ also_name name.now.name (holds_name names.old)) }
{
    let outside = outer.get(name.name.as_slice()).is_some();
    let earlier = names.insert(name.name.as_slice(), 0)?;
    best.note(outside || earlier.is_some(), name.at, CheckCause::Repeated);
    Ok(())
}

/// Finds the faults of variables in order, behind names from elsewhere.
pub fn variables<'a>(
    alloc: Global,
    scope: &TypeScope<'_, '_>,
    best: &mut Best<CheckCause>,
    outer: &Names<'_>,
    names: &mut Names<'a>,
    parts: &mut u32,
    list: &'a [VariableText],
) -> Result<(), NoMemory>
    ensures found { OnOk result
        (best.new.fault ≡ least_from rank best.old.fault
        (variables_faults cut_off (unknown_in scope.now) (size_in scope.now) parts.old
        (either (holds_name outer.now) (holds_name names.old)) (map variable_of list.now))) }
    ensures counted { OnOk result
        (parts.new ≡ variables_parts cut_off (size_in scope.now) parts.old
        (map variable_of list.now)) }
    ensures names { OnOk result
        (holds_name names.new ≡ also_variables (map variable_of list.now) (holds_name names.old)) }
{
    for variable in list {
        meet(best, outer, names, &variable.name)?;
        whole(alloc, scope, best, None, parts, 1, &variable.shape)?;
    }
    Ok(())
}

// Whether no fault but for those of size stands in a state, behind these names.
fn are_plain(
    alloc: Global,
    scope: &TypeScope<'_, '_>,
    outer: &Names<'_>,
    list: &[VariableText],
) -> Result<bool, NoMemory>
    ensures { IfOk result (λ plain.
        plain ≡ is_clean
        (plain_faults (unknown_in scope.now) (holds_name outer.now) (map variable_of list.now))) }
{
    let mut own: Best<CheckCause> = Best { fault: None };
    let mut names = Names::new(alloc);
    for variable in list {
        meet(&mut own, outer, &mut names, &variable.name)?;
        check_inside(alloc, scope, &mut own, &variable.shape)?;
    }
    Ok(own.fault.is_none())
}

// The bytes of the zero values of variables together, with a number that stops above the limit.
fn zero_bytes(scope: &TypeScope<'_, '_>, list: &[VariableText]) -> u32
    requires { AreSized scope.now }
    ensures { result
        ≡ min (zero_size_of (fields_of (form_in scope.now) (map variable_of list.now)))
        (1 + most_zero_bytes) }
{
    let mut bytes: u32 = 0;
    for variable in list {
        bytes = (bytes + measure_of_type(scope, &variable.shape).zeros).min(MOST_ZERO_BYTES + 1);
    }
    bytes
}

/// Finds whether the zero value of a state is too large, at the module's name, where no other fault stands in the state.
/// `outer` are the names that stand before the state.
pub fn state_size(
    alloc: Global,
    scope: &TypeScope<'_, '_>,
    best: &mut Best<CheckCause>,
    outer: &Names<'_>,
    name: &Named,
    list: &[VariableText],
) -> Result<(), NoMemory>
    requires { AreSized scope.now }
    ensures { OnOk result (best.new.fault ≡ least_from rank best.old.fault
        (faults_if (is_clean
        (plain_faults (unknown_in scope.now) (holds_name outer.now) (map variable_of list.now)) &&
        nat_lt most_zero_bytes
        (zero_size_of (fields_of (form_in scope.now) (map variable_of list.now)))) name.now.at
        TooLarge)) }
{
    let plain = are_plain(alloc, scope, outer, list)?;
    let large = zero_bytes(scope, list) > MOST_ZERO_BYTES;
    best.note(plain && large, name.at, CheckCause::TooLarge);
    Ok(())
}

/// Variables as fields, their types written out.
pub fn fields(
    alloc: Global,
    scope: &TypeScope<'_, '_>,
    list: &[VariableText],
) -> Result<Fields, NoMemory>
    requires { AreVariablesInRange (map variable_of list.now) }
    ensures { IfOk result (λ fields.
        fields ≡ fields_of (form_in scope.now) (map variable_of list.now)) }
{
    let mut fields = Fields::new(alloc);
    for variable in list {
        fields.push(Field {
            name: variable.name.name.copy()?,
            shape: shape_of_type(alloc, scope, &variable.shape)?,
        })?;
    }
    Ok(fields)
}
