// Reading types.
ghost use Rattle.std.specs.Prelude.{◌≡◌, ◌≢◌, true, false, option_map, IfOk};
ghost use Rattle.circus_syntax.specs.TypeOf.{tree_at, tree_of, group_of, arm_of};
ghost use Rattle.circus_syntax.specs.Reader.{next, place};
ghost use Rattle.circus_syntax.specs.Reading.{label, labels, name_of_type, start_of_type, is_long_integer, simple_type, type_name_place, unmarked_type, array_type, sequence_type, record_type, choice_type, group_of_type, arm_of_type, arms, groups, number_if_any, nests, type};

use crate::{
    ArmText, ArmTexts, ElementText, GroupText, GroupTexts, LabelText, LabelTexts, Numeral, Reader,
    StopCause, TypeKind, TypeName, TypeText,
};
use circus_value::NoMemory;

/// What a type begins with.
#[derive(Clone, Copy, Debug, PartialEq, Eq)]
pub enum TypeStart {
    Cardinal,
    Integer,
    Long,
    Text,
    Labels,
    Array,
    Sequence,
    Record,
    Choice,
    Name,
    Other,
}

impl TypeStart {
    // Whether it begins a type with others in it.
    fn nests(self) -> bool
        ensures { result ≡ nests self }
    {
        match self {
            TypeStart::Array | TypeStart::Sequence | TypeStart::Record | TypeStart::Choice => true,
            _ => false,
        }
    }
}

impl Reader<'_> {
    #[tactic(auto, unfolding(crate::specs::Reading::label))]
    fn label(&mut self) -> Result<LabelText, NoMemory>
        ensures { IfOk result (λ read. label self.old ≡ (read, self.new)) }
    {
        let name = self.name()?;
        self.sign(b"(");
        let number = self.number();
        self.sign(b")");
        Ok(LabelText { name, number })
    }

    #[tactic(auto, unfolding(crate::specs::Reading::labels))]
    fn labels(&mut self) -> Result<LabelTexts, NoMemory>
        ensures { IfOk result (λ read. labels self.old ≡ (read, self.new)) }
    {
        let mut labels = LabelTexts::new(self.alloc());
        labels.push(self.label()?)?;
        while self.sees_sign(b",") {
            self.sign(b",");
            labels.push(self.label()?)?;
        }
        Ok(labels)
    }

    fn name_of_type(&mut self) -> Result<TypeName, NoMemory>
        ensures read { IfOk result (λ read. name_of_type self.old ≡ (read, self.new)) }
        ensures at { IfOk result (λ read.
            type_name_place read.«module» read.name ≡ place self.old) }
    {
        let first = self.name()?;
        if self.sees_sign(b".") {
            self.sign(b".");
            let name = self.name()?;
            Ok(TypeName {
                module: Some(first),
                name,
            })
        } else {
            Ok(TypeName {
                module: None,
                name: first,
            })
        }
    }

    fn type_start(&self) -> TypeStart
        ensures { result ≡ start_of_type (next self.now) }
    {
        if self.sees_word(b"CARDINAL") {
            TypeStart::Cardinal
        } else if self.sees_word(b"INTEGER") {
            TypeStart::Integer
        } else if self.sees_word(b"LONG") {
            TypeStart::Long
        } else if self.sees_word(b"STRING") {
            TypeStart::Text
        } else if self.sees_sign(b"{") {
            TypeStart::Labels
        } else if self.sees_word(b"ARRAY") {
            TypeStart::Array
        } else if self.sees_word(b"SEQUENCE") {
            TypeStart::Sequence
        } else if self.sees_word(b"RECORD") {
            TypeStart::Record
        } else if self.sees_word(b"CHOICE") {
            TypeStart::Choice
        } else if self.sees_name() {
            TypeStart::Name
        } else {
            TypeStart::Other
        }
    }

    #[tactic(auto, unfolding(crate::specs::Reading::is_long_integer))]
    fn is_long_integer(&mut self) -> bool
        ensures { is_long_integer self.old ≡ (result, self.new) }
    {
        if self.sees_word(b"INTEGER") {
            self.word(b"INTEGER");
            true
        } else {
            self.word(b"CARDINAL");
            false
        }
    }

    fn simple_kind(&mut self, start: TypeStart) -> Result<TypeKind, NoMemory>
        ensures { IfOk result (λ kind.
            simple_type start self.old ≡ (tree_at (place self.old) kind, self.new)) }
    {
        match start {
            TypeStart::Long => return Ok(self.long_kind()),
            TypeStart::Labels => return self.labels_kind(),
            TypeStart::Name => return Ok(TypeKind::Called(self.name_of_type()?)),
            _ => {}
        }
        Ok(self.word_kind(start))
    }

    // A type of one word.
    fn word_kind(&mut self, start: TypeStart) -> TypeKind
        requires long { start ≢ TypeStart.Long }
        requires labels { start ≢ TypeStart.Labels }
        requires named { start ≢ TypeStart.Name }
        ensures { simple_type start self.old ≡ (tree_at (place self.old) result, self.new) }
    {
        match start {
            TypeStart::Cardinal => {
                self.word(b"CARDINAL");
                TypeKind::Cardinal
            }
            TypeStart::Integer => {
                self.word(b"INTEGER");
                TypeKind::Integer
            }
            TypeStart::Text => {
                self.word(b"STRING");
                TypeKind::Text
            }
            _ => {
                self.word(b"BOOLEAN");
                TypeKind::Boolean
            }
        }
    }

    fn long_kind(&mut self) -> TypeKind
        ensures { simple_type TypeStart.Long self.old
            ≡ (tree_at (place self.old) result, self.new) }
    {
        self.word(b"LONG");
        if self.is_long_integer() {
            TypeKind::LongInteger
        } else {
            TypeKind::LongCardinal
        }
    }

    fn labels_kind(&mut self) -> Result<TypeKind, NoMemory>
        ensures { IfOk result (λ kind.
            simple_type TypeStart.Labels self.old ≡ (tree_at (place self.old) kind, self.new)) }
    {
        self.sign(b"{");
        let labels = self.labels()?;
        self.sign(b"}");
        Ok(TypeKind::Enumeration(labels))
    }

    /// Reads a type of at most so many levels, or stops: `TooDeep` at the first ARRAY, SEQUENCE, RECORD or
    /// CHOICE that is one too many, and at the first other token with which no type goes on. `within` of
    /// the stop is then this type's place.
    #[cycle(reading)]
    pub fn type_text(&mut self, levels: u8) -> Result<TypeText, NoMemory>
        ensures { IfOk result (λ read. type levels self.old ≡ (tree_of read, self.new)) }
    {
        let goes_on = self.stop().is_none();
        let at = self.place();
        let kind = self.type_kind(levels)?;
        if goes_on {
            self.mark_type(at);
        }
        Ok(TypeText { at, kind })
    }

    #[cycle(reading)]
    fn type_kind(&mut self, levels: u8) -> Result<TypeKind, NoMemory>
        ensures { IfOk result (λ kind.
            unmarked_type levels self.old ≡ (tree_at (place self.old) kind, self.new)) }
    {
        let start = self.type_start();
        if !start.nests() {
            return self.simple_kind(start);
        }
        if levels == 0 {
            self.stop_here(StopCause::TooDeep);
            return Ok(TypeKind::Boolean);
        }
        match start {
            TypeStart::Array => self.array_kind(levels - 1),
            TypeStart::Sequence => self.sequence_kind(levels - 1),
            TypeStart::Record => self.record_kind(levels - 1),
            _ => self.choice_kind(levels - 1),
        }
    }

    #[cycle(reading)]
    fn array_kind(&mut self, levels: u8) -> Result<TypeKind, NoMemory>
        ensures { IfOk result (λ kind.
            array_type levels self.old ≡ (tree_at (place self.old) kind, self.new)) }
    {
        self.word(b"ARRAY");
        let len = self.number();
        self.word(b"OF");
        let element = self.type_text(levels)?;
        Ok(TypeKind::Array(len, ElementText::new(self.alloc(), element)?))
    }

    #[cycle(reading)]
    fn sequence_kind(&mut self, levels: u8) -> Result<TypeKind, NoMemory>
        ensures { IfOk result (λ kind.
            sequence_type levels self.old ≡ (tree_at (place self.old) kind, self.new)) }
    {
        self.word(b"SEQUENCE");
        let bound = self.upper_bound();
        self.word(b"OF");
        let element = self.type_text(levels)?;
        Ok(TypeKind::Sequence(bound, ElementText::new(self.alloc(), element)?))
    }

    #[cycle(reading)]
    fn record_kind(&mut self, levels: u8) -> Result<TypeKind, NoMemory>
        ensures { IfOk result (λ kind.
            record_type levels self.old ≡ (tree_at (place self.old) kind, self.new)) }
    {
        self.word(b"RECORD");
        self.sign(b"[");
        let groups = self.groups(levels)?;
        self.sign(b"]");
        Ok(TypeKind::Record(groups))
    }

    #[cycle(reading)]
    fn choice_kind(&mut self, levels: u8) -> Result<TypeKind, NoMemory>
        ensures { IfOk result (λ kind.
            choice_type levels self.old ≡ (tree_at (place self.old) kind, self.new)) }
    {
        self.word(b"CHOICE");
        self.word(b"OF");
        self.sign(b"{");
        let arms = self.arms(levels)?;
        self.sign(b"}");
        Ok(TypeKind::Choice(arms))
    }

    /// Reads groups of names with their types, or stops.
    #[cycle(reading)]
    pub(crate) fn groups(&mut self, levels: u8) -> Result<GroupTexts, NoMemory>
        ensures { IfOk result (λ read. groups levels self.old ≡ (read, self.new)) }
    {
        let mut groups = GroupTexts::new(self.alloc());
        if self.sees_sign(b"]") {
            return Ok(groups);
        }
        groups.push(self.group(levels)?)?;
        while self.sees_sign(b",") {
            self.sign(b",");
            groups.push(self.group(levels)?)?;
        }
        Ok(groups)
    }

    #[cycle(reading)]
    fn group(&mut self, levels: u8) -> Result<GroupText, NoMemory>
        ensures { IfOk result (λ read. group_of_type levels self.old ≡ (group_of read, self.new)) }
    {
        let names = self.names()?;
        self.sign(b":");
        let shape = self.type_text(levels)?;
        Ok(GroupText { names, shape })
    }

    #[cycle(reading)]
    fn arms(&mut self, levels: u8) -> Result<ArmTexts, NoMemory>
        ensures { IfOk result (λ read. arms levels self.old ≡ (read, self.new)) }
    {
        let mut arms = ArmTexts::new(self.alloc());
        arms.push(self.arm(levels)?)?;
        while self.sees_sign(b",") {
            self.sign(b",");
            arms.push(self.arm(levels)?)?;
        }
        Ok(arms)
    }

    #[cycle(reading)]
    fn arm(&mut self, levels: u8) -> Result<ArmText, NoMemory>
        ensures { IfOk result (λ read. arm_of_type levels self.old ≡ (arm_of read, self.new)) }
    {
        let LabelText { name, number } = self.label()?;
        self.sign(b"=>");
        let shape = self.type_text(levels)?;
        Ok(ArmText {
            name,
            number,
            shape,
        })
    }

    #[tactic(auto, unfolding(crate::specs::Reading::number_if_any))]
    fn upper_bound(&mut self) -> Option<Numeral>
        ensures { number_if_any self.old ≡ (result, self.new) }
    {
        if self.sees_number() {
            Some(self.number())
        } else {
            None
        }
    }
}
