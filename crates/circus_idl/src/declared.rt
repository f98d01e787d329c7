// What an interface declares, looked at from its front on.
ghost use Rattle.std.specs.Prelude.{◌≡◌, OnOk, IfOk, IfNone};
ghost use Rattle.circus_syntax.specs.InterfaceTree.{a_type, an_error, a_procedure};
ghost use Rattle.circus_syntax.specs.TypeOf.{tree_of};
ghost use Rattle.circus_fault.specs.Least.{least_from};
ghost use Rattle.circus_idl.specs.Rank.{rank_of};
ghost use Rattle.circus_idl.specs.Seen.Scoped.{before_of, cut_in};
ghost use Rattle.circus_idl.specs.Faults.{declared_faults, behind};
ghost use Rattle.circus_idl.specs.Seen.Known.{type_form, tree_or};
ghost use Rattle.circus_type.specs.InRange.{IsInRange};
ghost use Rattle.circus_type.specs.Seen.Measured.{cut_off};
ghost use Rattle.circus_idl.specs.Meaning.{shape_of_type, standing_for};

use crate::limits::GREATEST_ERROR;
use crate::scope::Scope;
use circus_syntax::{ErrorText, Named, ProcedureText, TypeText};
use circus_type::{GREATEST_WORD, meet_name, meet_number, note_above, shape_of_type};
use circus_value::{NoMemory, Shape};

impl<'a> Scope<'a> {
    /// Declares an error.
    pub fn error(&mut self, error: &'a ErrorText) -> Result<(), NoMemory>
        ensures found { OnOk result
            (self.new.best.fault
            ≡ least_from rank_of self.old.best.fault
            (declared_faults cut_off (cut_in self.old) (before_of self.old) (an_error error.now))) }
        ensures behind { OnOk result
            (before_of self.new ≡ behind cut_off (before_of self.old) (an_error error.now)) }
        ensures cut { OnOk result (cut_in self.new ≡ cut_in self.old) }
        ensures types { OnOk result (self.new.types ≡ self.old.types) }
    {
        meet_name(&mut self.names, &mut self.best, &error.name)?;
        self.fields(&error.arguments)?;
        meet_number(&mut self.error_numbers, &mut self.best, error.number)?;
        note_above(&mut self.best, GREATEST_ERROR, error.number);
        self.errors
            .insert(error.name.name.as_slice(), error.number.value as usize)?;
        Ok(())
    }

    /// Declares a procedure.
    pub fn procedure(&mut self, procedure: &'a ProcedureText) -> Result<(), NoMemory>
        ensures found { OnOk result
            (self.new.best.fault
            ≡ least_from rank_of self.old.best.fault
            (declared_faults cut_off (cut_in self.old) (before_of self.old)
            (a_procedure procedure.now))) }
        ensures behind { OnOk result
            (before_of self.new ≡ behind cut_off (before_of self.old) (a_procedure procedure.now)) }
        ensures cut { OnOk result (cut_in self.new ≡ cut_in self.old) }
        ensures types { OnOk result (self.new.types ≡ self.old.types) }
    {
        meet_name(&mut self.names, &mut self.best, &procedure.name)?;
        self.arguments_together(&procedure.name, &procedure.arguments)?;
        self.fields(&procedure.arguments)?;
        self.fields(&procedure.results)?;
        self.reports(&procedure.reports);
        meet_number(
            &mut self.procedure_numbers,
            &mut self.best,
            procedure.number,
        )?;
        note_above(&mut self.best, GREATEST_WORD, procedure.number);
        Ok(())
    }

    /// Declares a type.
    pub fn declared_type(&mut self, name: &'a Named, shape: &'a TypeText) -> Result<(), NoMemory>
        ensures found { OnOk result
            (self.new.best.fault
            ≡ least_from rank_of self.old.best.fault
            (declared_faults cut_off (cut_in self.old) (before_of self.old)
            (a_type name.now (tree_of shape.now)))) }
        ensures behind { OnOk result
            (before_of self.new
            ≡ behind cut_off (before_of self.old) (a_type name.now (tree_of shape.now))) }
        ensures cut { OnOk result (cut_in self.new ≡ cut_in self.old) }

        // While no fault is found the type's shape is kept.
        ensures formed { OnOk result
            (IfNone self.new.best.fault
            (type_form self.new.types
            ≡ standing_for name.now.name
            (shape_of_type (type_form self.old.types) (tree_of shape.now))
            (type_form self.old.types))) }
    {
        meet_name(&mut self.names, &mut self.best, name)?;
        let size = self.whole(1, shape)?;
        let meant = self.shape_meant(shape)?;
        self.types.put(name.name.as_slice(), size, meant)?;
        Ok(())
    }

    // What a type means, while no fault is found.
    fn shape_meant(&self, shape: &TypeText) -> Result<Option<Shape>, NoMemory>
        requires { IfNone self.now.best.fault (IsInRange (tree_of shape.now)) }
        ensures { IfOk result (λ meant.
            IfNone self.now.best.fault
            (tree_or meant ≡ shape_of_type (type_form self.now.types) (tree_of shape.now))) }
    {
        match self.best.fault {
            None => Ok(Some(shape_of_type(self.alloc, &self.types, shape)?)),
            Some(_) => Ok(None),
        }
    }
}
