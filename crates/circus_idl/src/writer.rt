// Writes the tokens of an interface, each with a space before it.
ghost use Rattle.std.specs.Prelude.{◌≡◌, List, [], ◌∷◌, ◌++◌, OnOk, IfOk, map};
ghost use Rattle.std.specs.List.{flat_map};
ghost use Rattle.circus_value.specs.ShapeOf.{tree_of, field_of, arm_of};
ghost use Rattle.circus_value.specs.ShapeTree.{enumeration, field_trees, arm_trees};
ghost use Rattle.circus_idl.specs.Lexemes.{lexemes_behind_spaces};
ghost use Rattle.circus_idl.specs.Lexemes as lexeme;
ghost use Rattle.circus_idl.specs.Shown as shown;

use crate::errors_by_number::ErrorsByNumber;
use crate::interface::{DeclaredError, DeclaredType, Interface, Procedure};
use circus_value::{
    Arm, Arms, Duplicate, Field, Fields, Label, Labels, Name, NoMemory, Octets, Shape,
};
use std::alloc::Global;
use std::marker::Model;

/// What is written so far. Clauses see its bytes.
#[derive(Drop)]
pub struct Writer {
    alloc: Global,
    text: Octets,
}

impl Model for Writer {
    ghost use Rattle.std.specs.Prelude.{ℕ, List};

    ghost Value = { List ℕ };

    ghost view = { λ w. w.text };
}

impl Writer {
    /// Begins with a name, which has no space before it.
    pub fn new(alloc: Global, name: &Name) -> Result<Self, NoMemory>
        ensures { IfOk result (λ writer. writer ≡ name.now) }
    {
        Ok(Writer {
            alloc,
            text: name.copy()?,
        })
    }

    /// What was written.
    pub fn text(self) -> Octets
        ensures { result ≡ self }
    {
        self.text
    }

    /// Tokens that are spaced already.
    pub fn words(&mut self, words: &str) -> Result<(), NoMemory>
        ensures { OnOk result (self.new ≡ self.old ++ words.now) }
    {
        self.text.append(words.as_bytes())
    }

    fn name(&mut self, name: &Name) -> Result<(), NoMemory>
        ensures { OnOk result (self.new ≡ self.old ++ 32 ∷ name.now) }
    {
        self.bytes(name.as_slice())
    }

    fn bytes(&mut self, bytes: &[u8]) -> Result<(), NoMemory>
        ensures { OnOk result (self.new ≡ self.old ++ 32 ∷ bytes.now) }
    {
        self.text.push(b' ')?;
        self.text.append(bytes)
    }

    fn numeral(&mut self, number: u32) -> Result<(), NoMemory>
        ensures { OnOk result
            (self.new ≡ self.old ++ lexemes_behind_spaces (lexeme.number number ∷ [])) }
    {
        let digits = format!(in self.alloc; " {number}")?;
        self.text.append(digits.as_bytes())
    }

    /// What stands between an interface's name and what it declares.
    pub fn heading(&mut self, interface: &Interface) -> Result<(), NoMemory>
        ensures { OnOk result
            (self.new ≡ self.old ++ lexemes_behind_spaces (shown.heading interface.now)) }
    {
        self.words(" : PROGRAM")?;
        self.numeral(interface.number)?;
        self.words(" VERSION")?;
        self.numeral(u32::from(interface.version))?;
        self.words(" = BEGIN")
    }

    fn label(&mut self, name: &Name, number: u16) -> Result<(), NoMemory>
        ensures { OnOk result
            (self.new ≡ self.old ++ lexemes_behind_spaces (shown.label_lexemes name.now number)) }
    {
        self.name(name)?;
        self.words(" (")?;
        self.numeral(u32::from(number))?;
        self.words(" )")
    }

    fn labels(&mut self, labels: &Labels) -> Result<(), NoMemory>
        ensures { OnOk result
            (self.new ≡ self.old ++ lexemes_behind_spaces (shown.labels_lexemes labels.now)) }
    {
        let Some((first, others)) = labels.as_slice().split_first() else {
            return Ok(());
        };
        self.label(&first.name, first.number)?;
        for label in others {
            self.words(" ,")?;
            self.label(&label.name, label.number)?;
        }
        Ok(())
    }

    #[cycle(writing)]
    fn shape(&mut self, shape: &Shape) -> Result<(), NoMemory>
        ensures { OnOk result
            (self.new ≡ self.old
            ++ lexemes_behind_spaces (shown.type_lexemes (tree_of shape.now))) }
    {
        match shape {
            Shape::Boolean => self.words(" BOOLEAN"),
            Shape::Cardinal => self.words(" CARDINAL"),
            Shape::LongCardinal => self.words(" LONG CARDINAL"),
            Shape::Integer => self.words(" INTEGER"),
            Shape::LongInteger => self.words(" LONG INTEGER"),
            Shape::Text => self.words(" STRING"),
            Shape::Enumeration(labels) => self.enumeration(labels),
            Shape::Array(len, element) => {
                self.words(" ARRAY")?;
                self.items(*len, element.shape())
            }
            Shape::Sequence(bound, element) => {
                self.words(" SEQUENCE")?;
                self.items(*bound, element.shape())
            }
            Shape::Record(fields) => {
                self.words(" RECORD")?;
                self.fields(fields)
            }
            Shape::Choice(arms) => {
                self.words(" CHOICE OF")?;
                self.arms(arms)
            }
        }
    }

    fn enumeration(&mut self, labels: &Labels) -> Result<(), NoMemory>
        ensures { OnOk result
            (self.new ≡ self.old
            ++ lexemes_behind_spaces (shown.type_lexemes (enumeration labels.now))) }
    {
        self.words(" {")?;
        self.labels(labels)?;
        self.words(" }")
    }

    // The number and the type of the items of an array or a sequence.
    #[cycle(writing)]
    fn items(&mut self, len: u16, shape: &Shape) -> Result<(), NoMemory>
        ensures { OnOk result
            (self.new ≡ self.old
            ++ lexemes_behind_spaces
            (shown.items_lexemes len (shown.type_lexemes (tree_of shape.now)))) }
    {
        self.numeral(u32::from(len))?;
        self.words(" OF")?;
        self.shape(shape)
    }

    #[cycle(writing)]
    fn fields(&mut self, fields: &Fields) -> Result<(), NoMemory>
        ensures { OnOk result
            (self.new ≡ self.old ++ lexemes_behind_spaces (shown.fields_lexemes fields.now)) }
    {
        self.words(" [")?;
        self.fields_inside(fields.as_slice())?;
        self.words(" ]")
    }

    #[cycle(writing)]
    fn fields_inside(&mut self, fields: &[Field]) -> Result<(), NoMemory>
        ensures { OnOk result
            (self.new ≡ self.old
            ++ lexemes_behind_spaces
            (shown.fields_inside (field_trees (map field_of fields.now)))) }
    {
        for (place, field) in fields.iter().enumerate() {
            if place > 0 {
                self.words(" ,")?;
            }
            self.field(field)?;
        }
        Ok(())
    }

    #[cycle(writing)]
    fn field(&mut self, field: &Field) -> Result<(), NoMemory>
        ensures { OnOk result
            (self.new ≡ self.old
            ++ lexemes_behind_spaces (shown.field_lexemes field.now.name
            (shown.type_lexemes (tree_of field.now.shape)))) }
    {
        self.name(&field.name)?;
        self.words(" :")?;
        self.shape(&field.shape)
    }

    #[cycle(writing)]
    fn arms(&mut self, arms: &Arms) -> Result<(), NoMemory>
        ensures { OnOk result
            (self.new ≡ self.old ++ lexemes_behind_spaces (shown.arms_lexemes arms.now)) }
    {
        self.words(" {")?;
        self.arms_inside(arms.as_slice())?;
        self.words(" }")
    }

    #[cycle(writing)]
    fn arms_inside(&mut self, arms: &[Arm]) -> Result<(), NoMemory>
        ensures { OnOk result
            (self.new ≡ self.old
            ++ lexemes_behind_spaces (shown.arms_inside (arm_trees (map arm_of arms.now)))) }
    {
        for (place, arm) in arms.iter().enumerate() {
            if place > 0 {
                self.words(" ,")?;
            }
            self.arm(arm)?;
        }
        Ok(())
    }

    #[cycle(writing)]
    fn arm(&mut self, arm: &Arm) -> Result<(), NoMemory>
        ensures { OnOk result
            (self.new ≡ self.old
            ++ lexemes_behind_spaces (shown.arm_lexemes arm.now.name arm.now.number
            (shown.type_lexemes (tree_of arm.now.shape)))) }
    {
        self.label(&arm.name, arm.number)?;
        self.words(" =>")?;
        self.shape(&arm.shape)
    }

    fn optional_fields(&mut self, fields: &Fields) -> Result<(), NoMemory>
        ensures { OnOk result
            (self.new ≡ self.old ++ lexemes_behind_spaces (shown.optional_fields fields.now)) }
    {
        if fields.is_empty() {
            return Ok(());
        }
        self.fields(fields)
    }

    fn results(&mut self, fields: &Fields) -> Result<(), NoMemory>
        ensures { OnOk result
            (self.new ≡ self.old ++ lexemes_behind_spaces (shown.results_lexemes fields.now)) }
    {
        if fields.is_empty() {
            return Ok(());
        }
        self.words(" RETURNS")?;
        self.fields(fields)
    }

    // The number of an error or a procedure, with which its declaration ends.
    fn declared_number(&mut self, number: u16) -> Result<(), NoMemory>
        ensures { OnOk result
            (self.new ≡ self.old ++ lexemes_behind_spaces (shown.number_lexemes number)) }
    {
        self.words(" =")?;
        self.numeral(u32::from(number))?;
        self.words(" ;")
    }

    fn declared_type(&mut self, declared: &DeclaredType) -> Result<(), NoMemory>
        ensures { OnOk result
            (self.new ≡ self.old ++ lexemes_behind_spaces (shown.declared_type declared.now)) }
    {
        self.name(&declared.name)?;
        self.words(" : TYPE =")?;
        self.shape(&declared.shape)?;
        self.words(" ;")
    }

    fn declared_error(&mut self, error: &DeclaredError) -> Result<(), NoMemory>
        ensures { OnOk result
            (self.new ≡ self.old ++ lexemes_behind_spaces (shown.declared_error error.now)) }
    {
        self.name(&error.name)?;
        self.words(" : ERROR")?;
        self.optional_fields(&error.arguments)?;
        self.declared_number(error.number)
    }

    /// What an interface declares: its types, then its errors, then its procedures.
    pub fn declarations(&mut self, interface: &Interface) -> Result<(), NoMemory>
        ensures { OnOk result
            (self.new ≡ self.old ++ lexemes_behind_spaces (shown.declared_lexemes interface.now)) }
    {
        self.types(interface.types.as_slice())?;
        self.errors(interface.errors.as_slice())?;
        let names = ErrorsByNumber::new(self.alloc, interface.errors.as_slice())?;
        self.procedures(interface.procedures.as_slice(), &names)
    }

    fn types(&mut self, types: &[DeclaredType]) -> Result<(), NoMemory>
        ensures { OnOk result
            (self.new ≡ self.old
            ++ lexemes_behind_spaces (flat_map shown.declared_type types.now)) }
    {
        for declared in types {
            self.declared_type(declared)?;
        }
        Ok(())
    }

    fn errors(&mut self, errors: &[DeclaredError]) -> Result<(), NoMemory>
        ensures { OnOk result
            (self.new ≡ self.old
            ++ lexemes_behind_spaces (flat_map shown.declared_error errors.now)) }
    {
        for error in errors {
            self.declared_error(error)?;
        }
        Ok(())
    }

    // Procedures that report some of these errors.
    fn procedures(
        &mut self,
        procedures: &[Procedure],
        errors: &ErrorsByNumber,
    ) -> Result<(), NoMemory>
        ensures { OnOk result
            (self.new ≡ self.old
            ++ lexemes_behind_spaces
            (flat_map (shown.declared_procedure errors.now.errors.now) procedures.now)) }
    {
        for procedure in procedures {
            self.procedure(procedure, errors)?;
        }
        Ok(())
    }

    fn procedure(&mut self, procedure: &Procedure, errors: &ErrorsByNumber) -> Result<(), NoMemory>
        ensures { OnOk result
            (self.new ≡ self.old
            ++ lexemes_behind_spaces
            (shown.declared_procedure errors.now.errors.now procedure.now)) }
    {
        self.name(&procedure.name)?;
        self.words(" : PROCEDURE")?;
        self.signature(procedure, errors)?;
        self.declared_number(procedure.number)
    }

    #[tactic(auto, unfolding(crate::specs::Shown::signature_lexemes))]
    fn signature(&mut self, procedure: &Procedure, errors: &ErrorsByNumber) -> Result<(), NoMemory>
        ensures { OnOk result
            (self.new ≡ self.old
            ++ lexemes_behind_spaces
            (shown.signature_lexemes errors.now.errors.now procedure.now)) }
    {
        self.optional_fields(&procedure.arguments)?;
        self.results(&procedure.results)?;
        self.reports(procedure.reports.as_slice(), errors)
    }

    fn reports(&mut self, numbers: &[u16], errors: &ErrorsByNumber) -> Result<(), NoMemory>
        ensures { OnOk result
            (self.new ≡ self.old
            ++ lexemes_behind_spaces (shown.reports_lexemes errors.now.errors.now numbers.now)) }
    {
        if numbers.is_empty() {
            return Ok(());
        }
        self.words(" REPORTS")?;
        self.names(numbers, errors)
    }

    fn names(&mut self, numbers: &[u16], errors: &ErrorsByNumber) -> Result<(), NoMemory>
        ensures { OnOk result
            (self.new ≡ self.old
            ++ lexemes_behind_spaces (shown.names_lexemes errors.now.errors.now numbers.now)) }
    {
        self.words(" [")?;
        self.error_names(numbers, errors)?;
        self.words(" ]")
    }

    fn error_names(&mut self, numbers: &[u16], errors: &ErrorsByNumber) -> Result<(), NoMemory>
        ensures { OnOk result
            (self.new ≡ self.old
            ++ lexemes_behind_spaces (shown.names_inside errors.now.errors.now numbers.now)) }
    {
        for (place, number) in numbers.iter().enumerate() {
            if place > 0 {
                self.words(" ,")?;
            }
            self.bytes(errors.name(*number))?;
        }
        Ok(())
    }
}
