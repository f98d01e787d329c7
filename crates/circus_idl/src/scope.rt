// What is declared before a place of an interface, and the faults that are found up to it.
ghost use Rattle.std.specs.Prelude.{◌≡◌, ◌++◌, map, OnOk, IfOk};
ghost use Rattle.circus_syntax.specs.TypeOf.{tree_of, group_of};
ghost use Rattle.circus_syntax.specs.TypeTree.{group_trees};
ghost use Rattle.circus_fault.specs.Least.{least_from, is_clean};
ghost use Rattle.circus_fault.specs.Seen.Tables.{known_of};
ghost use Rattle.circus_idl.specs.Rank.{rank_of};
ghost use Rattle.circus_type.specs.Inside.{no_name, group_names};
ghost use Rattle.circus_type.specs.Seen.Measured.{measure_of_type, more_parts, cut_off};
ghost use Rattle.circus_idl.specs.Seen.Known.{is_known, type_measure};
ghost use Rattle.circus_idl.specs.Inside as faults;
ghost use Rattle.circus_idl.specs.Inside.{by_name};
ghost use Rattle.circus_idl.specs.Seen.Scoped.{cut_in};
ghost use Rattle.circus_idl.specs.Faults as whole;

use crate::fault::Cause;
use crate::types::Types;
use circus_fault::{Best, Names, NumberSet};
use circus_syntax::{FieldsText, GroupText, Named, Nameds, TypeText};
use circus_type::{MOST_ZERO_BYTES, Measure, field_names, inside_groups, measured_groups, whole};
use circus_value::NoMemory;
use std::alloc::Global;

/// What is declared so far.
#[derive(Drop)]
pub struct Scope<'a> {
    pub alloc: Global,
    /// The place of the type, and that of the list of fields, in which reading stopped.
    pub within: Option<u32>,
    pub list: Option<u32>,
    pub best: Best<Cause>,
    pub names: Names<'a>,
    pub types: Types<'a>,
    /// The numbers of errors.
    pub errors: Names<'a>,
    pub error_numbers: NumberSet,
    pub procedure_numbers: NumberSet,
    /// The parts of the types so far, at most one more than there may be.
    pub parts: u32,
}

// Whether no fault stands inside of the types of fields and among their names.
fn are_clean(alloc: Global, types: &Types, groups: &[GroupText]) -> Result<bool, NoMemory>
    ensures { IfOk result (λ clean.
        clean ≡ is_clean
        (faults.repeated_names no_name (group_names (group_trees (map group_of groups.now)))
        ++ faults.inside_groups (is_known types.now) (group_trees (map group_of groups.now)))) }
{
    let mut own: Best<Cause> = Best { fault: None };
    field_names(alloc, &mut own, groups)?;
    inside_groups(alloc, types, &mut own, groups)?;
    Ok(own.is_clean())
}

impl<'a> Scope<'a> {
    /// A whole type that so many names share. It answers the type's size.
    pub fn whole(&mut self, count: usize, shape: &TypeText) -> Result<Measure, NoMemory>
        ensures found { OnOk result (self.new.best.fault ≡ least_from rank_of self.old.best.fault
            (whole.whole_faults cut_off (cut_in self.old) (is_known self.old.types)
            (type_measure self.old.types) self.old.parts count (tree_of shape.now))) }
        ensures others { OnOk result
            (self.new ≡ record self.old {
              best = self.new.best;
              parts = more_parts self.old.parts count
                  (measure_of_type (by_name (type_measure self.old.types)) (tree_of shape.now));
            }) }
        ensures sized { IfOk result (λ measure.
            measure ≡ measure_of_type (by_name (type_measure self.old.types)) (tree_of shape.now)) }
    {
        whole(
            self.alloc,
            &self.types,
            &mut self.best,
            self.within,
            &mut self.parts,
            count,
            shape,
        )
    }

    fn groups(&mut self, groups: &[GroupText]) -> Result<(), NoMemory>
        ensures found { OnOk result (self.new.best.fault ≡ least_from rank_of self.old.best.fault
            (whole.groups_faults cut_off (cut_in self.old) (is_known self.old.types)
            (type_measure self.old.types) self.old.parts (group_trees (map group_of groups.now)))) }
        ensures others { OnOk result
            (self.new ≡ record self.old {
              best = self.new.best;
              parts = whole.groups_parts cut_off
                  (type_measure self.old.types) self.old.parts
                  (group_trees (map group_of groups.now));
            }) }
    {
        for group in groups {
            self.whole(group.names.len(), &group.shape)?;
        }
        Ok(())
    }

    /// A list of fields, where it is written.
    pub fn fields(&mut self, fields: &Option<FieldsText>) -> Result<(), NoMemory>
        ensures found { OnOk result (self.new.best.fault ≡ least_from rank_of self.old.best.fault
            (whole.fields_faults cut_off (cut_in self.old) (is_known self.old.types)
            (type_measure self.old.types) self.old.parts fields.now)) }
        ensures others { OnOk result
            (self.new ≡ record self.old {
              best = self.new.best;
              parts = whole.fields_parts cut_off
                  (type_measure self.old.types) self.old.parts fields.now;
            }) }
    {
        if let Some(fields) = fields {
            field_names(self.alloc, &mut self.best, fields.groups.as_slice())?;
            self.groups(fields.groups.as_slice())?;
        }
        Ok(())
    }

    /// The arguments of a procedure together.
    pub fn arguments_together(
        &mut self,
        name: &Named,
        fields: &Option<FieldsText>,
    ) -> Result<(), NoMemory>
        ensures found { OnOk result (self.new.best.fault ≡ least_from rank_of self.old.best.fault
            (whole.together_faults cut_off (cut_in self.old) (is_known self.old.types)
            (type_measure self.old.types) name.now fields.now)) }
        ensures others { OnOk result (self.new ≡ record self.old { best = self.new.best }) }
    {
        if let Some(fields) = fields {
            let groups = fields.groups.as_slice();
            let clean = are_clean(self.alloc, &self.types, groups)?;
            let tested = clean && self.list != Some(fields.at);
            let zeros = measured_groups(&self.types, groups).zeros;
            self.best.note(tested && zeros > MOST_ZERO_BYTES, name.at, Cause::TooLarge);
        }
        Ok(())
    }

    /// The errors that a procedure reports.
    pub fn reports(&mut self, names: &Option<Nameds>)
        ensures found { self.new.best.fault
            ≡ least_from rank_of self.old.best.fault
            (whole.reports_faults (known_of self.old.errors) names.now) }
        ensures others { self.new ≡ record self.old { best = self.new.best } }
    {
        if let Some(names) = names {
            unknown_errors(&mut self.best, &self.errors, names.as_slice());
        }
    }
}

// Names that are those of no errors.
fn unknown_errors(best: &mut Best<Cause>, errors: &Names, names: &[Named])
    ensures { best.new.fault
        ≡ least_from rank_of best.old.fault (whole.unknown_errors (known_of errors.now) names.now) }
{
    for name in names {
        let known = errors.get(name.name.as_slice());
        best.note(known.is_none(), name.at, Cause::Unknown);
    }
}
