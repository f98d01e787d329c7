// Interfaces as their names are found.
ghost use Rattle.std.specs.Prelude.{IfOk, OnOk};
ghost use Rattle.circus_idl.specs.Obeys.{Obeys};
ghost use Rattle.circus_check.specs.Seen.Known.{TellsInterface, TellsNothing, TellApart, AddsError, OffersOver};

use circus_body::{Offered, OfferedProcedures, Reported};
use circus_idl::{ErrorsByNumber, Interface, Procedure};
use circus_resolve::Types;
use circus_type::{Measure, shape_measure};
use circus_value::NoMemory;
use std::alloc::Global;
use std::collections::BTreeMap;

/// What an interface declares, by its names.
#[derive(Drop)]
pub struct Known<'s> {
    pub types: Types<'s>,
    /// How large each of its types is.
    pub sizes: BTreeMap<&'s [u8], Measure>,
    pub procedures: OfferedProcedures<'s>,
    /// The procedures in order.
    pub order: &'s [Procedure],
}

impl<'s> Known<'s> {
    /// No types and no procedures.
    pub fn nothing(alloc: Global) -> Self
        ensures { TellsNothing result }
    {
        Known {
            types: Types {
                table: BTreeMap::new(alloc),
            },
            sizes: BTreeMap::new(alloc),
            procedures: OfferedProcedures {
                table: BTreeMap::new(alloc),
            },
            order: &[],
        }
    }

    /// The types, errors and procedures of an interface by their names, or `NoMemory`.
    pub fn of(alloc: Global, interface: &'s Interface) -> Result<Self, NoMemory>
        requires { Obeys interface.now }
        ensures { IfOk result (λ known. TellsInterface known interface.now) }
    {
        let errors = ErrorsByNumber::new(alloc, interface.errors.as_slice())?;
        let mut known = Known::nothing(alloc);
        known.order = interface.procedures.as_slice();
        for declared in interface.types.as_slice() {
            let name = declared.name.as_slice();
            known.types.table.insert(name, &declared.shape)?;
            known.sizes.insert(name, shape_measure(&declared.shape))?;
        }
        for procedure in interface.procedures.as_slice() {
            let offered = offer_of(alloc, &errors, procedure)?;
            known
                .procedures
                .table
                .insert(procedure.name.as_slice(), offered)?;
        }
        Ok(known)
    }
}

// Adds the error of a number to those that a procedure reports, where there is one.
fn put_error<'s>(
    reported: &mut BTreeMap<&'s [u8], Reported<'s>>,
    errors: &ErrorsByNumber<'s>,
    number: u16,
) -> Result<(), NoMemory>
    ensures { OnOk result (AddsError errors.now.errors.now number reported.old reported.new) }
{
    if let Some(error) = errors.error(number) {
        let values = Reported {
            number: error.number,
            values: &error.arguments,
        };
        reported.insert(error.name.as_slice(), values)?;
    }
    Ok(())
}

// A procedure that reports some of these errors, as those know it who call it.
fn offer_of<'s>(
    alloc: Global,
    errors: &ErrorsByNumber<'s>,
    procedure: &'s Procedure,
) -> Result<Offered<'s>, NoMemory>
    requires { TellApart errors.now.errors.now }
    ensures { IfOk result (OffersOver errors.now.errors.now procedure.now) }
{
    let mut reported = BTreeMap::new(alloc);
    for number in procedure.reports.as_slice() {
        put_error(&mut reported, errors, *number)?;
    }
    Ok(Offered {
        number: procedure.number,
        arguments: &procedure.arguments,
        results: &procedure.results,
        reported,
    })
}
