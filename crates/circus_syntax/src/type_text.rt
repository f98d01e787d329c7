// Types as they are written, and the lists that they are made of.
ghost use Rattle.std.specs.Prelude.{◌≡◌, List, [], ◌∷◌, ◌++◌, length, map, option_map, option_copied, slice_get, OnOk, OnErr, IfOk, IsTrue, ◌↔◌};
ghost use Rattle.circus_syntax.specs.TypeOf.{tree_of, group_of, arm_of};

use crate::{LabelTexts, Named, Nameds, Numeral, TypeName};
use circus_value::NoMemory;
use std::alloc::Global;
use std::marker::Model;

/// A type with its place (docs/LANGUAGE.md, "Interfaces").
#[cycle(type_text)]
#[derive(Debug, Drop)]
pub struct TypeText {
    /// The place of its first byte, counted from 0.
    pub at: u32,
    pub kind: TypeKind,
}

/// What a type is.
#[cycle(type_text)]
#[derive(Debug, Drop)]
pub enum TypeKind {
    Boolean,
    Cardinal,
    LongCardinal,
    Integer,
    LongInteger,
    Text,
    Enumeration(LabelTexts),
    /// So many items of one type.
    Array(Numeral, ElementText),
    /// At most so many items of one type, or as many as there may be.
    Sequence(Option<Numeral>, ElementText),
    Record(GroupTexts),
    Choice(ArmTexts),
    Called(TypeName),
}

/// Names that share a type.
#[cycle(type_text)]
#[derive(Debug, Drop)]
pub struct GroupText {
    pub names: Nameds,
    pub shape: TypeText,
}

/// One of the alternatives of a choice.
#[cycle(type_text)]
#[derive(Debug, Drop)]
pub struct ArmText {
    pub name: Named,
    pub number: Numeral,
    pub shape: TypeText,
}

/// Groups of names in order. Clauses see the plain list of their trees.
#[cycle(type_text)]
#[derive(Debug)]
pub struct GroupTexts {
    items: Vec<GroupText>,
}

// Written out, so that dropping one is one step of a proof (docs/PROOFS.md, "Cost").
impl Drop for GroupTexts {
    #[cycle(type_drop)]
    fn drop(self) {
        let GroupTexts { items: _ } = self;
    }
}

/// Arms in order. Clauses see the plain list of their trees.
#[cycle(type_text)]
#[derive(Debug)]
pub struct ArmTexts {
    items: Vec<ArmText>,
}

// Written out, so that dropping one is one step of a proof (docs/PROOFS.md, "Cost").
impl Drop for ArmTexts {
    #[cycle(type_drop)]
    fn drop(self) {
        let ArmTexts { items: _ } = self;
    }
}

/// The type of the items of an array or a sequence. Clauses see its tree.
#[cycle(type_text)]
#[derive(Debug)]
pub struct ElementText {
    shape: Box<TypeText>,
}

// Written out, so that dropping one is one step of a proof (docs/PROOFS.md, "Cost").
impl Drop for ElementText {
    #[cycle(type_drop)]
    fn drop(self) {
        let ElementText { shape: _ } = self;
    }
}

impl Model for GroupTexts {
    ghost use Rattle.std.specs.Prelude.{List, map};
    ghost use Rattle.std.specs.Coded.{coded_list};
    ghost use Rattle.std.proofs.Common.{arith};
    ghost use Rattle.circus_syntax.specs.TypeTree.{GroupTree, group_trees};
    ghost use Rattle.circus_syntax.specs.Seen.TypeCode.{coded_group};
    ghost use Rattle.circus_syntax.specs.Seen.TypeWeight.{group_weights};

    ghost Value = { List GroupTree };

    ghost coded = { coded_list coded_group };

    ghost use Rattle.circus_syntax.specs.TypeOf.{group_of};

    ghost view = { λ a. map group_of a.items.items };

    ghost size = { λ groups. group_weights (group_trees groups) };

    ghost use Rattle.circus_syntax.specs.Seen.TypeFalls.{most_deep_le-group_weights};

    ghost size_decreases = { λ a h. Prim.omega (arith, most_deep_le-group_weights a.items.items) };
}

impl Model for ArmTexts {
    ghost use Rattle.std.specs.Prelude.{List, map};
    ghost use Rattle.std.specs.Coded.{coded_list};
    ghost use Rattle.std.proofs.Common.{arith};
    ghost use Rattle.circus_syntax.specs.TypeTree.{ArmTree, arm_trees};
    ghost use Rattle.circus_syntax.specs.Seen.TypeCode.{coded_arm};
    ghost use Rattle.circus_syntax.specs.Seen.TypeWeight.{arm_weights};

    ghost Value = { List ArmTree };

    ghost coded = { coded_list coded_arm };

    ghost use Rattle.circus_syntax.specs.TypeOf.{arm_of};

    ghost view = { λ a. map arm_of a.items.items };

    ghost size = { λ arms. arm_weights (arm_trees arms) };

    ghost use Rattle.circus_syntax.specs.Seen.TypeFalls.{most_deep_le-arm_weights};

    ghost size_decreases = { λ a h. Prim.omega (arith, most_deep_le-arm_weights a.items.items) };
}

impl Model for ElementText {
    ghost use Rattle.std.proofs.Common.{arith};
    ghost use Rattle.circus_syntax.specs.TypeTree.{TypeTree};
    ghost use Rattle.circus_syntax.specs.Seen.TypeCode.{coded_type};
    ghost use Rattle.circus_syntax.specs.Seen.TypeWeight.{weight};

    ghost Value = { TypeTree };

    ghost coded = { coded_type };

    ghost use Rattle.circus_syntax.specs.TypeOf.{tree_of};

    ghost view = { λ a. tree_of a.shape.value };

    ghost size = { weight };

    ghost use Rattle.circus_syntax.specs.Seen.TypeFalls.{deep_le-weight};

    ghost size_decreases = { λ a h. Prim.omega (arith, deep_le-weight a.shape.value) };
}

impl GroupTexts {
    /// No groups. It takes no memory, and grows with this allocator.
    pub fn new(alloc: Global) -> Self
        ensures { result ≡ [] }
    {
        GroupTexts {
            items: Vec::new(alloc),
        }
    }

    /// How many there are.
    pub fn len(&self) -> usize
        ensures { result ≡ length self.now }
    {
        self.items.len()
    }

    /// Whether there are none.
    pub fn is_empty(&self) -> bool
        ensures { IsTrue result ↔ (self.now ≡ []) }
    {
        self.items.is_empty()
    }

    /// The group at a place, counted from 0. `None` exactly where the place is not below the length.
    pub fn get(&self, place: usize) -> Option<&GroupText>
        ensures { option_map group_of (option_copied result) ≡ slice_get self.now place }
    {
        self.items.get(place)
    }

    /// All of them, in order.
    pub fn as_slice(&self) -> &[GroupText]
        ensures { map group_of result.now ≡ self.now }
    {
        self.items.as_slice()
    }

    /// Adds a group at the end. After `NoMemory` the list is unchanged.
    pub fn push(&mut self, item: GroupText) -> Result<(), NoMemory>
        ensures ok { OnOk result (self.new ≡ self.old ++ group_of item ∷ []) }
        ensures err { OnErr result (self.new ≡ self.old) }
    {
        self.items.push(item)?;
        Ok(())
    }
}

impl ArmTexts {
    /// No arms. It takes no memory, and grows with this allocator.
    pub fn new(alloc: Global) -> Self
        ensures { result ≡ [] }
    {
        ArmTexts {
            items: Vec::new(alloc),
        }
    }

    /// How many there are.
    pub fn len(&self) -> usize
        ensures { result ≡ length self.now }
    {
        self.items.len()
    }

    /// Whether there are none.
    pub fn is_empty(&self) -> bool
        ensures { IsTrue result ↔ (self.now ≡ []) }
    {
        self.items.is_empty()
    }

    /// The arm at a place, counted from 0. `None` exactly where the place is not below the length.
    pub fn get(&self, place: usize) -> Option<&ArmText>
        ensures { option_map arm_of (option_copied result) ≡ slice_get self.now place }
    {
        self.items.get(place)
    }

    /// All of them, in order.
    pub fn as_slice(&self) -> &[ArmText]
        ensures { map arm_of result.now ≡ self.now }
    {
        self.items.as_slice()
    }

    /// Adds an arm at the end. After `NoMemory` the list is unchanged.
    pub fn push(&mut self, item: ArmText) -> Result<(), NoMemory>
        ensures ok { OnOk result (self.new ≡ self.old ++ arm_of item ∷ []) }
        ensures err { OnErr result (self.new ≡ self.old) }
    {
        self.items.push(item)?;
        Ok(())
    }
}

impl ElementText {
    /// The type of the items, or `NoMemory`.
    pub fn new(alloc: Global, shape: TypeText) -> Result<Self, NoMemory>
        ensures { IfOk result (λ element. element ≡ tree_of shape) }
    {
        Ok(ElementText {
            shape: Box::new(alloc, shape)?,
        })
    }

    /// The shape.
    pub fn shape(&self) -> &TypeText
        ensures { tree_of result.now ≡ self.now }
    {
        &self.shape
    }
}
