// Values, and lists of them.
ghost use Rattle.std.specs.Prelude.{◌≡◌, ◌-◌, ◌^◌, min, List, [], ◌∷◌, ◌++◌, ◌<◌, length, map, option_map, option_copied, Some, slice_get, slice_set, take, OnOk, OnErr, IfOk, IsOk, IsTrue, ◌↔◌};
ghost use Rattle.circus_value.specs.ValueOf.{tree_of};
ghost use Rattle.circus_value.specs.ExternalSize.{size_of_values};
ghost use Rattle.circus_value.specs.Seen.SharedItems.{items_in, size_in, IsSized, IsCounted, IsRecounted};

use crate::size::size_of_all;
use crate::{Duplicate, NoMemory, Text, external_size};
use std::alloc::Global;
use std::marker::Model;
use std::mem;
use std::rc::Rc;

/// A value of some shape.
#[cycle(value)]
#[derive(Debug, Drop)]
pub enum Value {
    Boolean(bool),
    Cardinal(u16),
    LongCardinal(u32),
    Integer(i16),
    LongInteger(i32),
    Text(Text),
    Enumeration(u16),
    Array(Values),
    Sequence(Values),
    Record(Values),
    Choice(u16, Chosen),
}

// What a value takes in a list (docs/DECISIONS.md, "Nested values are shared").
const _: () = prove!(size_of::<Value>() == 24);

/// Values in order. Copies share them until one of the copies is changed. Clauses see the plain list of their trees.
#[cycle(value)]
#[derive(Debug)]
pub struct Values {
    alloc: Global,
    /// `None` where there are none and no memory was taken yet.
    items: Option<Rc<Items>>,
}

// Written out, so that dropping one is one step of a proof (docs/PROOFS.md, "Cost").
impl Drop for Values {
    #[cycle(value_drop)]
    fn drop(self) {
        let Values { alloc: _, items: _ } = self;
    }
}

// What the copies of a list share.
#[cycle(value)]
#[derive(Debug)]
struct Items {
    values: Vec<Value>,
    /// The bytes of their external forms, or 18,446,744,073,709,551,615 where there are more.
    size: u64,
}

// Written out, so that dropping one is one step of a proof (docs/PROOFS.md, "Cost").
impl Drop for Items {
    #[cycle(value_drop)]
    fn drop(self) {
        let Items { values: _, size: _ } = self;
    }
}

impl Model for Values {
    ghost use Rattle.std.specs.Prelude.{List, map};
    ghost use Rattle.std.specs.Coded.{coded_list};
    ghost use Rattle.circus_value.specs.ValueTree.{ValueTree, value_trees};
    ghost use Rattle.circus_value.specs.Seen.ValueCode.{coded_value};
    ghost use Rattle.circus_value.specs.Seen.ValueWeight.{weights};

    ghost Value = { List ValueTree };

    ghost coded = { coded_list coded_value };

    ghost use Rattle.circus_value.specs.ValueOf.{tree_of};
    ghost use Rattle.circus_value.specs.Seen.SharedItems.{items_in};

    ghost view = { λ a. map tree_of (items_in a.items) };

    ghost use Rattle.circus_value.specs.Seen.SharedItems.{IsCounted};

    ghost invariant = { λ a. IsCounted a.items };

    ghost size = { λ ts. weights (value_trees ts) };

    ghost use Rattle.circus_value.specs.Seen.ValueFalls.{items_fall};

    ghost size_decreases = { λ a h. items_fall a.alloc a.items };
}

/// The value of the chosen arm. Copies share it until one of the copies is changed. Clauses see its tree.
#[cycle(value)]
#[derive(Debug)]
pub struct Chosen {
    value: Rc<Value>,
}

// Written out, so that dropping one is one step of a proof (docs/PROOFS.md, "Cost").
impl Drop for Chosen {
    #[cycle(value_drop)]
    fn drop(self) {
        let Chosen { value: _ } = self;
    }
}

impl Model for Chosen {
    ghost use Rattle.circus_value.specs.ValueTree.{ValueTree};
    ghost use Rattle.circus_value.specs.Seen.ValueCode.{coded_value};
    ghost use Rattle.circus_value.specs.Seen.ValueWeight.{weight};

    ghost Value = { ValueTree };

    ghost coded = { coded_value };

    ghost use Rattle.circus_value.specs.ValueOf.{tree_of};

    ghost view = { λ a. tree_of a.value.value };

    ghost size = { weight };

    ghost use Rattle.std.proofs.Common.{arith};
    ghost use Rattle.circus_value.specs.Seen.ValueFalls.{deep_le-weight};

    ghost size_decreases = { λ a h. Prim.omega (arith, deep_le-weight a.value.value) };
}

impl Values {
    /// No values. It takes no memory, and grows with this allocator.
    pub fn new(alloc: Global) -> Self
        ensures { result ≡ [] }
    {
        Values { alloc, items: None }
    }

    // What it grows with.
    pub(crate) fn alloc(&self) -> Global {
        self.alloc
    }

    /// How many there are.
    pub fn len(&self) -> usize
        ensures { result ≡ length self.now }
    {
        self.as_slice().len()
    }

    /// Whether there are none.
    pub fn is_empty(&self) -> bool
        ensures { IsTrue result ↔ (self.now ≡ []) }
    {
        self.as_slice().is_empty()
    }

    /// The value at a place, counted from 0. `None` exactly where the place is not below the length.
    pub fn get(&self, place: usize) -> Option<&Value>
        ensures { option_map tree_of (option_copied result) ≡ slice_get self.now place }
    {
        self.as_slice().get(place)
    }

    /// All of them, in order.
    pub fn as_slice(&self) -> &[Value]
        ensures { map tree_of result.now ≡ self.now }
    {
        items_of(&self.items)
    }

    /// How many bytes they have in external form one after another, or 18,446,744,073,709,551,615 where there are more.
    pub(crate) fn size(&self) -> u64
        ensures { result ≡ min (size_of_values self.now) (2 ^ 64 - 1) }
    {
        size_of_items(&self.items)
    }

    /// Adds a value at the end. After `NoMemory` the list is unchanged.
    pub fn push(&mut self, item: Value) -> Result<(), NoMemory>
        ensures ok { OnOk result (self.new ≡ self.old ++ tree_of item ∷ []) }
        ensures err { OnErr result (self.new ≡ self.old) }
    {
        append(self.alloc, &mut self.items, item)
    }

    /// Keeps the first values, at most so many, and drops those behind them and the room for them. After `NoMemory` the
    /// list is unchanged.
    pub fn truncate(&mut self, len: usize) -> Result<(), NoMemory>
        ensures ok { OnOk result (self.new ≡ take len self.old) }
        ensures err { OnErr result (self.new ≡ self.old) }
    {
        keep_first(&mut self.items, len)
    }

    /// Puts a value in the place of another, which it answers. After `NoMemory` the list is unchanged.
    pub fn replace(&mut self, place: usize, item: Value) -> Result<Value, NoMemory>
        requires { place < length self.old }
        ensures new { OnOk result (self.new ≡ slice_set self.old place (tree_of item)) }
        ensures old { IfOk result (λ value. slice_get self.old place ≡ Some (tree_of value)) }
        ensures err { OnErr result (self.new ≡ self.old) }
    {
        exchange(&mut self.items, place, item)
    }
}

/// Values that are put in order before they are shared. Clauses see the plain list of their trees.
#[derive(Debug, Drop)]
pub struct ValuesBuilder {
    alloc: Global,
    items: Vec<Value>,
}

impl Model for ValuesBuilder {
    ghost use Rattle.std.specs.Prelude.{List, map};
    ghost use Rattle.std.specs.Coded.{coded_list};
    ghost use Rattle.circus_value.specs.ValueTree.{ValueTree};
    ghost use Rattle.circus_value.specs.Seen.ValueCode.{coded_value};
    ghost use Rattle.circus_value.specs.ValueOf.{tree_of};

    ghost Value = { List ValueTree };

    ghost coded = { coded_list coded_value };

    ghost view = { λ a. map tree_of a.items.items };
}

impl ValuesBuilder {
    /// No values yet, with room for so many, or `NoMemory`.
    pub fn with_capacity(alloc: Global, capacity: usize) -> Result<Self, NoMemory>
        ensures { IfOk result (λ values. values ≡ []) }
    {
        Ok(ValuesBuilder {
            alloc,
            items: Vec::with_capacity(alloc, capacity)?,
        })
    }

    /// Adds a value at the end. After `NoMemory` nothing has changed.
    pub fn push(&mut self, item: Value) -> Result<(), NoMemory>
        ensures ok { OnOk result (self.new ≡ self.old ++ tree_of item ∷ []) }
        ensures err { OnErr result (self.new ≡ self.old) }
    {
        self.items.push(item)?;
        Ok(())
    }

    /// These values, which are not copied, or `NoMemory`. Where there are none it takes no memory.
    pub fn finish(self) -> Result<Values, NoMemory>
        ensures value { IfOk result (λ values. values ≡ self) }
        ensures none { self ≡ [] → IsOk result }
    {
        let ValuesBuilder { alloc, items } = self;
        if items.is_empty() {
            return Ok(Values::new(alloc));
        }
        let size = size_of_all(&items);
        let items = Items {
            values: items,
            size,
        };
        Ok(Values {
            alloc,
            items: Some(Rc::new(alloc, items)?),
        })
    }
}

// The items.
fn items_of(items: &Option<Rc<Items>>) -> &[Value]
    ensures { result.now ≡ items_in items.now }
{
    match items {
        Some(items) => items.values.as_slice(),
        None => &[],
    }
}

// The size that is kept beside the items.
fn size_of_items(items: &Option<Rc<Items>>) -> u64
    ensures { result ≡ size_in items.now }
{
    match items {
        Some(items) => items.size,
        None => 0,
    }
}

// Adds an item at the end. After `NoMemory` the items are unchanged.
fn append(alloc: Global, items: &mut Option<Rc<Items>>, item: Value) -> Result<(), NoMemory>
    requires { IsCounted items.old }
    ensures ok { OnOk result (items_in items.new ≡ items_in items.old ++ item ∷ []) }
    ensures err { OnErr result (items_in items.new ≡ items_in items.old) }
    ensures counted { IsCounted items.new }
{
    match items {
        Some(items) => Rc::make_mut(items)?.push(item)?,
        None => *items = Some(Rc::new(alloc, Items::of(alloc, item)?)?),
    }
    Ok(())
}

// Keeps the first items. After `NoMemory` the items are unchanged.
fn keep_first(items: &mut Option<Rc<Items>>, len: usize) -> Result<(), NoMemory>
    requires { IsCounted items.old }
    ensures ok { OnOk result (items_in items.new ≡ take len (items_in items.old)) }
    ensures err { OnErr result (items_in items.new ≡ items_in items.old) }
    ensures counted { IsCounted items.new }
{
    if let Some(items) = items {
        Rc::make_mut(items)?.truncate(len);
    }
    Ok(())
}

// Puts an item in the place of another, which it answers. After `NoMemory` the items are unchanged.
fn exchange(items: &mut Option<Rc<Items>>, place: usize, item: Value) -> Result<Value, NoMemory>
    requires place { place < length (items_in items.old) }
    requires counted { IsCounted items.old }
    ensures new { OnOk result (items_in items.new ≡ slice_set (items_in items.old) place item) }
    ensures old { IfOk result (λ old. slice_get (items_in items.old) place ≡ Some old) }
    ensures err { OnErr result (items_in items.new ≡ items_in items.old) }
    ensures counted { IsCounted items.new }
{
    let Some(items) = items else { unreachable!() };
    Ok(Rc::make_mut(items)?.replace(place, item))
}

impl Items {
    // One value.
    fn of(alloc: Global, item: Value) -> Result<Self, NoMemory>
        ensures values { IfOk result (λ items. items.values.items ≡ item ∷ []) }
        ensures size { IfOk result IsSized }
    {
        let size = external_size(&item);
        let mut values = Vec::with_capacity(alloc, 1)?;
        values.push(item)?;
        Ok(Items { values, size })
    }

    // Adds a value at the end. After `NoMemory` nothing has changed.
    fn push(&mut self, item: Value) -> Result<(), NoMemory>
        requires { IsSized self.old }
        ensures ok { OnOk result (self.new.values.items ≡ self.old.values.items ++ item ∷ []) }
        ensures err { OnErr result (self.new.values.items ≡ self.old.values.items) }
        ensures size { IsSized self.new }
    {
        let grows = external_size(&item);
        self.values.push(item)?;
        self.size = self.size.saturating_add(grows);
        Ok(())
    }

    // Keeps the first values.
    fn truncate(&mut self, len: usize)
        ensures values { self.new.values.items ≡ take len self.old.values.items }
        ensures size { IsSized self.new }
    {
        self.values.truncate(len);
        self.values.shrink_to_fit();
        self.size = size_of_all(&self.values);
    }

    // Puts a value in the place of another, which it answers.
    fn replace(&mut self, place: usize, item: Value) -> Value
        requires place { place < length self.old.values.items }
        requires sized { IsSized self.old }
        ensures new { self.new.values.items ≡ slice_set self.old.values.items place item }
        ensures old { slice_get self.old.values.items place ≡ Some result }
        ensures size { IsSized self.new }
    {
        let grows = external_size(&item);
        let old = mem::replace(&mut self.values[place], item);
        self.size = size_after(&self.values, self.size, external_size(&old), grows);
        old
    }
}

// The size of items of which one was put in the place of another: before that all together had this size.
fn size_after(items: &[Value], before: u64, shrinks: u64, grows: u64) -> u64
    ensures { IsRecounted items.now before shrinks grows result }
{
    if before == u64::MAX {
        size_of_all(items)
    } else {
        before.saturating_sub(shrinks).saturating_add(grows)
    }
}

impl Chosen {
    /// Puts a value into an arm, or answers `NoMemory`.
    pub fn new(alloc: Global, value: Value) -> Result<Self, NoMemory>
        ensures { IfOk result (λ chosen. chosen ≡ tree_of value) }
    {
        Ok(Chosen {
            value: Rc::new(alloc, value)?,
        })
    }

    /// The value.
    pub fn value(&self) -> &Value
        ensures { tree_of result.now ≡ self.now }
    {
        &self.value
    }

    /// Puts a value in the place of the chosen one, which it answers. After `NoMemory` it is unchanged.
    pub fn replace(&mut self, value: Value) -> Result<Value, NoMemory>
        ensures new { OnOk result (self.new ≡ tree_of value) }
        ensures old { IfOk result (λ old. self.old ≡ tree_of old) }
        ensures err { OnErr result (self.new ≡ self.old) }
    {
        Ok(mem::replace(Rc::make_mut(&mut self.value)?, value))
    }
}

/// The bytes of a text, the items of a list, the value of a chosen arm, are shared.
impl Duplicate for Value {
    fn copy(&self) -> Result<Self, NoMemory> {
        Ok(match self {
            Value::Boolean(truth) => Value::Boolean(*truth),
            Value::Cardinal(number) => Value::Cardinal(*number),
            Value::LongCardinal(number) => Value::LongCardinal(*number),
            Value::Integer(number) => Value::Integer(*number),
            Value::LongInteger(number) => Value::LongInteger(*number),
            Value::Text(bytes) => Value::Text(bytes.copy()?),
            Value::Enumeration(number) => Value::Enumeration(*number),
            Value::Array(items) => Value::Array(items.copy()?),
            Value::Sequence(items) => Value::Sequence(items.copy()?),
            Value::Record(items) => Value::Record(items.copy()?),
            Value::Choice(number, chosen) => Value::Choice(*number, chosen.copy()?),
        })
    }
}

/// The values are shared.
impl Duplicate for Values {
    fn copy(&self) -> Result<Self, NoMemory> {
        Ok(Values {
            alloc: self.alloc,
            items: self.items.clone()?,
        })
    }
}

/// The value is shared.
impl Duplicate for Chosen {
    fn copy(&self) -> Result<Self, NoMemory> {
        Ok(Chosen {
            value: self.value.clone()?,
        })
    }
}

// What a change takes of a value that is shared.
impl Clone for Value {
    ghost is_clone = { λ value copy. copy ≡ value };

    fn clone(&self) -> Result<Self, NoMemory> {
        self.copy()
    }
}

// What a change takes of items that are shared.
impl Clone for Items {
    ghost is_clone = { λ items copy.
        (copy.values.items ≡ items.values.items) × (copy.size ≡ items.size) };

    fn clone(&self) -> Result<Self, NoMemory> {
        Ok(Items {
            values: self.values.clone()?,
            size: self.size,
        })
    }
}
