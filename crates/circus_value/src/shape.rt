// Shapes of values, and the lists that they are made of.
ghost use Rattle.std.specs.Prelude.{◌≡◌, List, [], ◌∷◌, ◌++◌, length, map, option_map, option_copied, slice_get, bytes_eq, OnOk, OnErr, IfOk, IfSome, IsTrue, ◌↔◌};
ghost use Rattle.std.specs.List.{position_from};
ghost use Rattle.std.specs.Bool.{Decides};
ghost use Rattle.circus_value.specs.ShapeOf.{tree_of, field_of, arm_of};
ghost use Rattle.circus_value.specs.ArmShape.{arm_shape};
ghost use Rattle.circus_value.specs.ShapeTree.{field_trees, arm_trees};
ghost use Rattle.circus_value.specs.Seen.ShapeWords.{label_words, field_words, arm_words};

use crate::name_index::{HasName, NameIndex};
use crate::words::{Words, spell_arms, spell_fields, spell_labels};
use crate::{Duplicate, Name, NoMemory};
use std::alloc::Global;
use std::marker::Model;

/// A label of an enumeration.
#[derive(Debug, Drop)]
pub struct Label {
    pub name: Name,
    pub number: u16,
}

/// The labels of an enumeration, in order. Clauses see the plain list.
#[derive(Debug)]
pub struct Labels {
    items: Vec<Label>,
    index: NameIndex,
    words: Words,
}

// Written out, so that dropping one is one step of a proof (docs/PROOFS.md, "Cost").
impl Drop for Labels {
    fn drop(self) {
        let Labels {
            items: _,
            index: _,
            words: _,
        } = self;
    }
}

/// What values may stand somewhere.
#[cycle(shape)]
#[derive(Debug, Drop)]
pub enum Shape {
    Boolean,
    Cardinal,
    LongCardinal,
    Integer,
    LongInteger,
    Text,
    Enumeration(Labels),
    /// So many items of one shape.
    Array(u16, Element),
    /// At most so many items of one shape.
    Sequence(u16, Element),
    Record(Fields),
    Choice(Arms),
}

/// A named part of a record, or a parameter.
#[cycle(shape)]
#[derive(Debug, Drop)]
pub struct Field {
    pub name: Name,
    pub shape: Shape,
}

/// One of the alternatives of a choice.
#[cycle(shape)]
#[derive(Debug, Drop)]
pub struct Arm {
    pub name: Name,
    pub number: u16,
    pub shape: Shape,
}

/// Fields in order. Clauses see the plain list of their trees.
#[cycle(shape)]
#[derive(Debug)]
pub struct Fields {
    items: Vec<Field>,
    index: NameIndex,
    words: Words,
}

// Written out, so that dropping one is one step of a proof (docs/PROOFS.md, "Cost").
impl Drop for Fields {
    #[cycle(shape_drop)]
    fn drop(self) {
        let Fields {
            items: _,
            index: _,
            words: _,
        } = self;
    }
}

/// Arms in order. Clauses see the plain list of their trees.
#[cycle(shape)]
#[derive(Debug)]
pub struct Arms {
    items: Vec<Arm>,
    index: NameIndex,
    words: Words,
}

// Written out, so that dropping one is one step of a proof (docs/PROOFS.md, "Cost").
impl Drop for Arms {
    #[cycle(shape_drop)]
    fn drop(self) {
        let Arms {
            items: _,
            index: _,
            words: _,
        } = self;
    }
}

/// The shape of the items of an array or a sequence. Clauses see its tree.
#[cycle(shape)]
#[derive(Debug)]
pub struct Element {
    shape: Box<Shape>,
}

// Written out, so that dropping one is one step of a proof (docs/PROOFS.md, "Cost").
impl Drop for Element {
    #[cycle(shape_drop)]
    fn drop(self) {
        let Element { shape: _ } = self;
    }
}

impl Model for Labels {
    ghost use Rattle.std.specs.Prelude.{List};
    ghost use Rattle.circus_value.specs.declared.shape.Label.{Label};
    ghost use Rattle.circus_value.specs.Seen.NamePlaces.{IsIndexOf};
    ghost use Rattle.circus_value.specs.Seen.ShapeWords.{AreWords, label_words};

    ghost Value = { List Label };

    ghost view = { λ a. a.items.items };

    ghost invariant = { λ a.
        IsIndexOf (λ (l : Label). l.name) a.items.items a.index
        × AreWords (label_words a.items.items) a.words };
}

impl Model for Fields {
    ghost use Rattle.std.specs.Prelude.{List, map};
    ghost use Rattle.std.specs.Coded.{coded_list};
    ghost use Rattle.std.proofs.Common.{arith};
    ghost use Rattle.circus_value.specs.ShapeTree.{FieldTree, field_trees};
    ghost use Rattle.circus_value.specs.Seen.ShapeCode.{coded_field};
    ghost use Rattle.circus_value.specs.Seen.ShapeWeight.{field_weights};

    ghost Value = { List FieldTree };

    ghost coded = { coded_list coded_field };

    ghost use Rattle.circus_value.specs.ShapeOf.{field_of};

    ghost view = { λ a. map field_of a.items.items };

    ghost use Rattle.circus_value.specs.declared.shape.Field.{Field};
    ghost use Rattle.circus_value.specs.Seen.NamePlaces.{IsIndexOf};
    ghost use Rattle.circus_value.specs.Seen.ShapeWords.{AreWords, field_words};

    ghost invariant = { λ a.
        IsIndexOf (λ (f : Field). f.name) a.items.items a.index
        × AreWords (field_words (field_trees (map field_of a.items.items))) a.words };

    ghost size = { λ fs. field_weights (field_trees fs) };

    ghost use Rattle.circus_value.specs.Seen.ShapeFalls.{most_deep_le-field_weights};

    ghost size_decreases = { λ a h. Prim.omega (arith, most_deep_le-field_weights a.items.items) };
}

impl Model for Arms {
    ghost use Rattle.std.specs.Prelude.{List, map};
    ghost use Rattle.std.specs.Coded.{coded_list};
    ghost use Rattle.std.proofs.Common.{arith};
    ghost use Rattle.circus_value.specs.ShapeTree.{ArmTree, arm_trees};
    ghost use Rattle.circus_value.specs.Seen.ShapeCode.{coded_arm};
    ghost use Rattle.circus_value.specs.Seen.ShapeWeight.{arm_weights};

    ghost Value = { List ArmTree };

    ghost coded = { coded_list coded_arm };

    ghost use Rattle.circus_value.specs.ShapeOf.{arm_of};

    ghost view = { λ a. map arm_of a.items.items };

    ghost use Rattle.circus_value.specs.declared.shape.Arm.{Arm};
    ghost use Rattle.circus_value.specs.Seen.NamePlaces.{IsIndexOf};
    ghost use Rattle.circus_value.specs.Seen.ShapeWords.{AreWords, arm_words};

    ghost invariant = { λ a.
        IsIndexOf (λ (a : Arm). a.name) a.items.items a.index
        × AreWords (arm_words (arm_trees (map arm_of a.items.items))) a.words };

    ghost size = { λ arms. arm_weights (arm_trees arms) };

    ghost use Rattle.circus_value.specs.Seen.ShapeFalls.{most_deep_le-arm_weights};

    ghost size_decreases = { λ a h. Prim.omega (arith, most_deep_le-arm_weights a.items.items) };
}

impl Model for Element {
    ghost use Rattle.std.proofs.Common.{arith};
    ghost use Rattle.circus_value.specs.ShapeTree.{ShapeTree};
    ghost use Rattle.circus_value.specs.Seen.ShapeCode.{coded_shape};
    ghost use Rattle.circus_value.specs.Seen.ShapeWeight.{weight};

    ghost Value = { ShapeTree };

    ghost coded = { coded_shape };

    ghost use Rattle.circus_value.specs.ShapeOf.{tree_of};

    ghost view = { λ a. tree_of a.shape.value };

    ghost size = { weight };

    ghost use Rattle.circus_value.specs.Seen.ShapeFalls.{deep_le-weight};

    ghost size_decreases = { λ a h. Prim.omega (arith, deep_le-weight a.shape.value) };
}

impl Labels {
    /// No labels. It takes no memory, and grows with this allocator.
    pub fn new(alloc: Global) -> Self
        ensures { result ≡ [] }
    {
        Labels {
            items: Vec::new(alloc),
            index: NameIndex::new(),
            words: Words::new(),
        }
    }

    /// How many there are.
    pub fn len(&self) -> usize
        ensures { result ≡ length self.now }
    {
        self.items.len()
    }

    /// Whether there are none.
    pub fn is_empty(&self) -> bool
        ensures { IsTrue result ↔ (self.now ≡ []) }
    {
        self.items.is_empty()
    }

    /// The label at a place, counted from 0. `None` exactly where the place is not below the length.
    pub fn get(&self, place: usize) -> Option<&Label>
        ensures { option_copied result ≡ slice_get self.now place }
    {
        self.items.get(place)
    }

    /// All of them, in order.
    pub fn as_slice(&self) -> &[Label]
        ensures { result.now ≡ self.now }
    {
        self.items.as_slice()
    }

    /// The place of the first label of this name, counted from 0. `None` exactly where no label has it.
    pub fn find(&self, name: &[u8]) -> Option<usize>
        ensures { result ≡ position_from (λ l. bytes_eq l.name name.now) 0 self.now }
    {
        self.index.find(self.items.as_slice(), name)
    }

    /// Adds a label at the end. After `NoMemory` the list is unchanged.
    pub fn push(&mut self, item: Label) -> Result<(), NoMemory>
        ensures ok { OnOk result (self.new ≡ self.old ++ item ∷ []) }
        ensures err { OnErr result (self.new ≡ self.old) }
    {
        self.index = NameIndex::new();
        self.words = Words::new();
        self.items.push(item)?;
        Ok(())
    }

    /// Makes a table of the names, where there are many, and the words, for a list that doesn't grow any more. After
    /// `NoMemory` the list is unchanged.
    pub fn seal(&mut self) -> Result<(), NoMemory>
        ensures { self.new ≡ self.old }
    {
        let alloc = *self.items.allocator();
        let mut words = Vec::new(alloc);
        spell_labels(&mut words, self)?;
        self.index = NameIndex::of(alloc, self.items.as_slice())?;
        self.words = Words::of(alloc, words)?;
        Ok(())
    }

    /// Whether two lists that were sealed, and didn't grow since, are equal. `None` where one wasn't or did. It takes no
    /// memory.
    pub fn is_like(&self, other: &Self) -> Option<bool>
        ensures { IfSome result (λ like. Decides like (self.now ≡ other.now)) }
    {
        self.words.are_like(&other.words)
    }

    // The words of a list that was sealed.
    pub(crate) fn words(&self) -> Option<&[u16]>
        ensures { IfSome result (λ words. words.now ≡ label_words self.now) }
    {
        self.words.as_slice()
    }
}

impl Fields {
    /// No fields. It takes no memory, and grows with this allocator.
    pub fn new(alloc: Global) -> Self
        ensures { result ≡ [] }
    {
        Fields {
            items: Vec::new(alloc),
            index: NameIndex::new(),
            words: Words::new(),
        }
    }

    /// How many there are.
    pub fn len(&self) -> usize
        ensures { result ≡ length self.now }
    {
        self.items.len()
    }

    /// Whether there are none.
    pub fn is_empty(&self) -> bool
        ensures { IsTrue result ↔ (self.now ≡ []) }
    {
        self.items.is_empty()
    }

    /// The field at a place, counted from 0. `None` exactly where the place is not below the length.
    pub fn get(&self, place: usize) -> Option<&Field>
        ensures { option_map field_of (option_copied result) ≡ slice_get self.now place }
    {
        self.items.get(place)
    }

    /// All of them, in order.
    pub fn as_slice(&self) -> &[Field]
        ensures { map field_of result.now ≡ self.now }
    {
        self.items.as_slice()
    }

    /// The place of the first field of this name, counted from 0. `None` exactly where no field has it.
    pub fn find(&self, name: &[u8]) -> Option<usize>
        ensures { result ≡ position_from (λ f. bytes_eq f.name name.now) 0 self.now }
    {
        self.index.find(self.items.as_slice(), name)
    }

    /// Adds a field at the end. After `NoMemory` the list is unchanged.
    pub fn push(&mut self, item: Field) -> Result<(), NoMemory>
        ensures ok { OnOk result (self.new ≡ self.old ++ field_of item ∷ []) }
        ensures err { OnErr result (self.new ≡ self.old) }
    {
        self.index = NameIndex::new();
        self.words = Words::new();
        self.items.push(item)?;
        Ok(())
    }

    /// Makes a table of the names, where there are many, and the words, for a list that doesn't grow any more. After
    /// `NoMemory` the list is unchanged.
    pub fn seal(&mut self) -> Result<(), NoMemory>
        ensures { self.new ≡ self.old }
    {
        let alloc = *self.items.allocator();
        let mut words = Vec::new(alloc);
        spell_fields(&mut words, self)?;
        self.index = NameIndex::of(alloc, self.items.as_slice())?;
        self.words = Words::of(alloc, words)?;
        Ok(())
    }

    /// Whether two lists that were sealed, and didn't grow since, are equal. `None` where one wasn't or did. It takes no
    /// memory.
    pub fn is_like(&self, other: &Self) -> Option<bool>
        ensures { IfSome result (λ like. Decides like (self.now ≡ other.now)) }
    {
        self.words.are_like(&other.words)
    }

    // The words of a list that was sealed.
    pub(crate) fn words(&self) -> Option<&[u16]>
        ensures { IfSome result (λ words. words.now ≡ field_words (field_trees self.now)) }
    {
        self.words.as_slice()
    }
}

impl Arms {
    /// No arms. It takes no memory, and grows with this allocator.
    pub fn new(alloc: Global) -> Self
        ensures { result ≡ [] }
    {
        Arms {
            items: Vec::new(alloc),
            index: NameIndex::new(),
            words: Words::new(),
        }
    }

    /// How many there are.
    pub fn len(&self) -> usize
        ensures { result ≡ length self.now }
    {
        self.items.len()
    }

    /// Whether there are none.
    pub fn is_empty(&self) -> bool
        ensures { IsTrue result ↔ (self.now ≡ []) }
    {
        self.items.is_empty()
    }

    /// The arm at a place, counted from 0. `None` exactly where the place is not below the length.
    pub fn get(&self, place: usize) -> Option<&Arm>
        ensures { option_map arm_of (option_copied result) ≡ slice_get self.now place }
    {
        self.items.get(place)
    }

    /// All of them, in order.
    pub fn as_slice(&self) -> &[Arm]
        ensures { map arm_of result.now ≡ self.now }
    {
        self.items.as_slice()
    }

    /// The shape of the first arm with this number. `None` exactly where no arm has it.
    pub fn shape_of(&self, number: u16) -> Option<&Shape>
        ensures { option_map tree_of (option_copied result) ≡ arm_shape self.now number }
    {
        for arm in &self.items {
            if arm.number == number {
                return Some(&arm.shape);
            }
        }
        None
    }

    /// The place of the first arm of this name, counted from 0. `None` exactly where no arm has it.
    pub fn find(&self, name: &[u8]) -> Option<usize>
        ensures { result ≡ position_from (λ a. bytes_eq a.name name.now) 0 self.now }
    {
        self.index.find(self.items.as_slice(), name)
    }

    /// Adds an arm at the end. After `NoMemory` the list is unchanged.
    pub fn push(&mut self, item: Arm) -> Result<(), NoMemory>
        ensures ok { OnOk result (self.new ≡ self.old ++ arm_of item ∷ []) }
        ensures err { OnErr result (self.new ≡ self.old) }
    {
        self.index = NameIndex::new();
        self.words = Words::new();
        self.items.push(item)?;
        Ok(())
    }

    /// Makes a table of the names, where there are many, and the words, for a list that doesn't grow any more. After
    /// `NoMemory` the list is unchanged.
    pub fn seal(&mut self) -> Result<(), NoMemory>
        ensures { self.new ≡ self.old }
    {
        let alloc = *self.items.allocator();
        let mut words = Vec::new(alloc);
        spell_arms(&mut words, self)?;
        self.index = NameIndex::of(alloc, self.items.as_slice())?;
        self.words = Words::of(alloc, words)?;
        Ok(())
    }

    /// Whether two lists that were sealed, and didn't grow since, are equal. `None` where one wasn't or did. It takes no
    /// memory.
    pub fn is_like(&self, other: &Self) -> Option<bool>
        ensures { IfSome result (λ like. Decides like (self.now ≡ other.now)) }
    {
        self.words.are_like(&other.words)
    }

    // The words of a list that was sealed.
    pub(crate) fn words(&self) -> Option<&[u16]>
        ensures { IfSome result (λ words. words.now ≡ arm_words (arm_trees self.now)) }
    {
        self.words.as_slice()
    }
}

impl Element {
    /// The shape of the items, or `NoMemory`.
    pub fn new(alloc: Global, shape: Shape) -> Result<Self, NoMemory>
        ensures { IfOk result (λ element. element ≡ tree_of shape) }
    {
        Ok(Element {
            shape: Box::new(alloc, shape)?,
        })
    }

    /// The shape.
    pub fn shape(&self) -> &Shape
        ensures { tree_of result.now ≡ self.now }
    {
        &self.shape
    }
}

impl Duplicate for Label {
    fn copy(&self) -> Result<Self, NoMemory> {
        Ok(Label {
            name: self.name.copy()?,
            number: self.number,
        })
    }
}

impl Duplicate for Labels {
    fn copy(&self) -> Result<Self, NoMemory> {
        let mut items = Vec::with_capacity(*self.items.allocator(), self.items.len())?;
        for item in &self.items {
            items.push(item.copy()?)?;
        }
        Ok(Labels {
            items,
            index: self.index.copy()?,
            words: self.words.copy()?,
        })
    }
}

impl HasName for Label {
    ghost name_of = { λ l. l.name };

    fn name(&self) -> &[u8] {
        self.name.as_slice()
    }
}

impl HasName for Field {
    ghost name_of = { λ f. f.name };

    fn name(&self) -> &[u8] {
        self.name.as_slice()
    }
}

impl HasName for Arm {
    ghost name_of = { λ a. a.name };

    fn name(&self) -> &[u8] {
        self.name.as_slice()
    }
}

impl Duplicate for Shape {
    #[cycle(shape_copy)]
    fn copy(&self) -> Result<Self, NoMemory> {
        Ok(match self {
            Shape::Boolean => Shape::Boolean,
            Shape::Cardinal => Shape::Cardinal,
            Shape::LongCardinal => Shape::LongCardinal,
            Shape::Integer => Shape::Integer,
            Shape::LongInteger => Shape::LongInteger,
            Shape::Text => Shape::Text,
            Shape::Enumeration(labels) => Shape::Enumeration(labels.copy()?),
            Shape::Array(len, element) => Shape::Array(*len, element.copy()?),
            Shape::Sequence(bound, element) => Shape::Sequence(*bound, element.copy()?),
            Shape::Record(fields) => Shape::Record(fields.copy()?),
            Shape::Choice(arms) => Shape::Choice(arms.copy()?),
        })
    }
}

impl Duplicate for Field {
    #[cycle(shape_copy)]
    fn copy(&self) -> Result<Self, NoMemory> {
        Ok(Field {
            name: self.name.copy()?,
            shape: self.shape.copy()?,
        })
    }
}

impl Duplicate for Arm {
    #[cycle(shape_copy)]
    fn copy(&self) -> Result<Self, NoMemory> {
        Ok(Arm {
            name: self.name.copy()?,
            number: self.number,
            shape: self.shape.copy()?,
        })
    }
}

impl Duplicate for Fields {
    #[cycle(shape_copy)]
    fn copy(&self) -> Result<Self, NoMemory> {
        let mut items = Vec::with_capacity(*self.items.allocator(), self.items.len())?;
        for item in &self.items {
            items.push(item.copy()?)?;
        }
        Ok(Fields {
            items,
            index: self.index.copy()?,
            words: self.words.copy()?,
        })
    }
}

impl Duplicate for Arms {
    #[cycle(shape_copy)]
    fn copy(&self) -> Result<Self, NoMemory> {
        let mut items = Vec::with_capacity(*self.items.allocator(), self.items.len())?;
        for item in &self.items {
            items.push(item.copy()?)?;
        }
        Ok(Arms {
            items,
            index: self.index.copy()?,
            words: self.words.copy()?,
        })
    }
}

impl Duplicate for Element {
    #[cycle(shape_copy)]
    fn copy(&self) -> Result<Self, NoMemory> {
        Element::new(*Box::allocator(&self.shape), self.shape.copy()?)
    }
}
