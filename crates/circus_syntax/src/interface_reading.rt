// Reading interfaces.
ghost use Rattle.std.specs.Prelude.{◌≡◌, ℕ, ◌≤◌, ◌-◌, length, map, drop, All, IfOk};
ghost use Rattle.circus_text.specs.Form.{longest_text};
ghost use Rattle.circus_text.specs.Token.{IsTokenIn};
ghost use Rattle.circus_syntax.specs.TypeOf.{tree_of};
ghost use Rattle.circus_syntax.specs.InterfaceTree.{interface_of, declared_of};
ghost use Rattle.circus_syntax.specs.Placed.{placed_of};
ghost use Rattle.circus_syntax.specs.Reader.{open_at};
ghost use Rattle.circus_syntax.specs.Reading.{fields, arguments, results, error_names, reports, number_at_end, a_type_behind, an_error_behind, a_procedure_behind, one_declaration, heading, declarations, interface};
ghost use Rattle.circus_syntax.specs.Spelling.{most_levels};
ghost use Rattle.circus_syntax.specs.Read.{Answers};

use crate::{
    DeclaredText, DeclaredTexts, ErrorText, FieldsText, InterfaceText, Named, Nameds, Numeral,
    ProcedureText, Reader, Stop, TypeText,
};
use circus_text::TokenList;
use circus_value::NoMemory;
use std::alloc::Global;

/// How many levels a type may have: each ARRAY, SEQUENCE, RECORD and CHOICE in which it stands is one, and
/// so is it itself where it is one of these (docs/LANGUAGE.md, "Interfaces").
pub const MOST_LEVELS: u8 = 64;

/// What was read at some tokens.
#[derive(Debug, Drop)]
pub struct Read {
    /// The interface. What a stop cut is filled in with the names `x`, the numbers 0 and the type BOOLEAN,
    /// whose places are that of the stop.
    pub interface: InterfaceText,
    /// The number of the first token that wasn't read.
    pub next: usize,
    /// Where reading stopped, or `None` where the interface was read to its end.
    pub stop: Option<Stop>,
}

/// Reads an interface that begins at the token `at` of a text (docs/LANGUAGE.md, "Interfaces").
///
/// Where there is one of at most 64 levels, it is read to its end. Else reading stops at the first token with
/// which no interface goes on, or as `TooDeep` at the token that begins a type that is a level too many.
/// `NoMemory` is the only fault.
pub fn read_interface_text(
    alloc: Global,
    text: &[u8],
    tokens: &TokenList,
    at: usize,
) -> Result<Read, NoMemory>
    requires of_text { All (IsTokenIn text.now) tokens.now }
    requires inside { at ≤ length tokens.now }
    requires short { length text.now ≤ longest_text }
    ensures { IfOk result (λ read. Answers text.now tokens.now at read) }
{
    let mut reader = Reader::from_token(alloc, text, tokens, at);
    let interface = reader.interface()?;
    Ok(Read {
        interface,
        next: tokens.len() - reader.tokens_left(),
        stop: reader.stop(),
    })
}

impl Reader<'_> {
    /// Reads an interface whose types have at most 64 levels, or stops (docs/LANGUAGE.md, "Interfaces").
    pub fn interface(&mut self) -> Result<InterfaceText, NoMemory>
        ensures { IfOk result (λ read.
            interface most_levels self.old ≡ (interface_of read, self.new)) }
    {
        let (name, number, version) = self.heading()?;
        let declared = self.declarations()?;
        self.word(b"END");
        self.sign(b".");
        Ok(InterfaceText {
            name,
            number,
            version,
            declared,
        })
    }

    fn heading(&mut self) -> Result<(Named, Numeral, Numeral), NoMemory>
        ensures { IfOk result (λ read. heading self.old ≡ ((read.0, (read.1, read.2)), self.new)) }
    {
        let name = self.name()?;
        self.sign(b":");
        self.word(b"PROGRAM");
        let number = self.number();
        self.word(b"VERSION");
        let version = self.number();
        self.sign(b"=");
        self.word(b"BEGIN");
        Ok((name, number, version))
    }

    fn declarations(&mut self) -> Result<DeclaredTexts, NoMemory>
        ensures { IfOk result (λ read.
            declarations most_levels self.old ≡ (map declared_of read, self.new)) }
    {
        let mut declared = DeclaredTexts::new(self.alloc());
        while self.sees_name() {
            declared.push(self.one_declaration()?)?;
        }
        Ok(declared)
    }

    fn one_declaration(&mut self) -> Result<DeclaredText, NoMemory>
        ensures { IfOk result (λ read.
            one_declaration most_levels self.old ≡ (declared_of read, self.new)) }
    {
        let name = self.name()?;
        self.sign(b":");
        if self.sees_word(b"ERROR") {
            let (arguments, number) = self.error_parts()?;
            Ok(DeclaredText::Error(ErrorText {
                name,
                arguments,
                number,
            }))
        } else if self.sees_word(b"PROCEDURE") {
            let (arguments, results, reports, number) = self.procedure_parts()?;
            Ok(DeclaredText::Procedure(ProcedureText {
                name,
                arguments,
                results,
                reports,
                number,
            }))
        } else {
            Ok(DeclaredText::Type(name, self.declared_type()?))
        }
    }

    fn declared_type(&mut self) -> Result<TypeText, NoMemory>
        ensures { IfOk result (λ read.
            a_type_behind most_levels self.old ≡ (tree_of read, self.new)) }
    {
        self.word(b"TYPE");
        self.sign(b"=");
        let read = self.type_text(MOST_LEVELS)?;
        self.sign(b";");
        Ok(read)
    }

    fn error_parts(&mut self) -> Result<(Option<FieldsText>, Numeral), NoMemory>
        ensures { IfOk result (λ read. an_error_behind most_levels self.old ≡ (read, self.new)) }
    {
        self.word(b"ERROR");
        let arguments = self.arguments()?;
        Ok((arguments, self.number_at_end()))
    }

    fn procedure_parts(
        &mut self,
    ) -> Result<
        (
            Option<FieldsText>,
            Option<FieldsText>,
            Option<Nameds>,
            Numeral,
        ),
        NoMemory,
    >
        ensures { IfOk result (λ read.
            a_procedure_behind most_levels self.old
            ≡ ((read.0, (read.1, (read.2, read.3))), self.new)) }
    {
        self.word(b"PROCEDURE");
        let arguments = self.arguments()?;
        let results = self.results()?;
        let reports = self.reports()?;
        Ok((arguments, results, reports, self.number_at_end()))
    }

    fn arguments(&mut self) -> Result<Option<FieldsText>, NoMemory>
        ensures { IfOk result (λ read. arguments most_levels self.old ≡ (read, self.new)) }
    {
        if self.sees_sign(b"[") {
            Ok(Some(self.fields()?))
        } else {
            Ok(None)
        }
    }

    fn results(&mut self) -> Result<Option<FieldsText>, NoMemory>
        ensures { IfOk result (λ read. results most_levels self.old ≡ (read, self.new)) }
    {
        if self.sees_word(b"RETURNS") {
            self.word(b"RETURNS");
            Ok(Some(self.fields()?))
        } else {
            Ok(None)
        }
    }

    fn fields(&mut self) -> Result<FieldsText, NoMemory>
        ensures { IfOk result (λ read. fields most_levels self.old ≡ (read, self.new)) }
    {
        let goes_on = self.stop().is_none();
        let at = self.place();
        self.sign(b"[");
        let groups = self.groups(MOST_LEVELS)?;
        self.sign(b"]");
        if goes_on {
            self.mark_list(at);
        }
        Ok(FieldsText { at, groups })
    }

    fn reports(&mut self) -> Result<Option<Nameds>, NoMemory>
        ensures { IfOk result (λ read. reports self.old ≡ (read, self.new)) }
    {
        if self.sees_word(b"REPORTS") {
            Ok(Some(self.error_names()?))
        } else {
            Ok(None)
        }
    }

    fn error_names(&mut self) -> Result<Nameds, NoMemory>
        ensures { IfOk result (λ read. error_names self.old ≡ (read, self.new)) }
    {
        self.word(b"REPORTS");
        self.sign(b"[");
        let names = self.names()?;
        self.sign(b"]");
        Ok(names)
    }

    fn number_at_end(&mut self) -> Numeral
        ensures { number_at_end self.old ≡ (result, self.new) }
    {
        self.sign(b"=");
        let number = self.number();
        self.sign(b";");
        number
    }
}
