// The types that are declared before a place.
ghost use Rattle.std.specs.Prelude.{◌≡◌, IfOk, OnOk};
ghost use Rattle.circus_value.specs.ShapeOf.{tree_of};
ghost use Rattle.circus_value.specs.ShapeTree.{boolean};
ghost use Rattle.circus_type.specs.Seen.Measured.{measure_of};
ghost use Rattle.circus_type.specs.Inside.{also_name, no_name};
ghost use Rattle.circus_idl.specs.Seen.Known.{is_known, type_measure, type_form, tree_or};
ghost use Rattle.circus_idl.specs.Meaning.{standing_for};
ghost use Rattle.circus_idl.specs.Inside.{by_name, unknown_in};

use circus_syntax::TypeName;
use circus_type::{Measure, TypeNames};
use circus_value::{Duplicate, NoMemory, Shape};
use std::alloc::Global;
use std::collections::BTreeMap;

/// A declared type: how large it is, and its shape while there is use for it.
#[derive(Drop)]
pub struct KnownType {
    pub measure: Measure,
    pub shape: Option<Shape>,
}

/// The types that are declared so far, by their names.
#[derive(Drop)]
pub struct Types<'a> {
    pub table: BTreeMap<&'a [u8], KnownType>,
}

impl<'a> Types<'a> {
    /// No types. It takes no memory.
    pub fn new(alloc: Global) -> Self
        ensures known { is_known result ≡ no_name }
        ensures sized { type_measure result ≡ (λ _. measure_of boolean) }
        ensures formed { type_form result ≡ (λ _. boolean) }
    {
        Types {
            table: BTreeMap::new(alloc),
        }
    }

    /// Whether a type of this name is declared.
    pub fn has(&self, name: &[u8]) -> bool
        ensures { result ≡ is_known self.now name.now }
    {
        self.table.get(name).is_some()
    }

    /// The size of the type of this name, or that of BOOLEAN where there is none.
    pub fn measure_named(&self, name: &[u8]) -> Measure
        ensures { result ≡ type_measure self.now name.now }
    {
        match self.table.get(name) {
            Some(known) => known.measure,
            None => Measure::new(1, 0, 2),
        }
    }

    /// A copy of the shape of this name, or BOOLEAN where there is none.
    pub fn shape_of_name(&self, name: &[u8]) -> Result<Shape, NoMemory>
        ensures { IfOk result (λ shape. tree_of shape ≡ type_form self.now name.now) }
    {
        let Some(known) = self.table.get(name) else {
            return Ok(Shape::Boolean);
        };
        match &known.shape {
            Some(shape) => shape.copy(),
            None => Ok(Shape::Boolean),
        }
    }

    /// Declares a type.
    pub fn put(
        &mut self,
        name: &'a [u8],
        measure: Measure,
        shape: Option<Shape>,
    ) -> Result<(), NoMemory>
        ensures known { OnOk result (is_known self.new ≡ also_name name.now (is_known self.old)) }
        ensures sized { OnOk result
            (type_measure self.new ≡ standing_for name.now measure (type_measure self.old)) }
        ensures formed { OnOk result
            (type_form self.new ≡ standing_for name.now (tree_or shape) (type_form self.old)) }
    {
        self.table.insert(name, KnownType { measure, shape })?;
        Ok(())
    }
}

impl<'a> TypeNames for Types<'a> {
    ghost unknown_place = { λ types. unknown_in (is_known types) };

    ghost sizes = { λ types. by_name (type_measure types) };

    ghost forms = { λ types. by_name (type_form types) };

    fn unknown_place(&self, name: &TypeName) -> Option<u32> {
        match &name.module {
            None if self.has(name.name.name.as_slice()) => None,
            None => Some(name.name.at),
            Some(module) => Some(module.at),
        }
    }

    fn measure(&self, name: &TypeName) -> Measure {
        self.measure_named(name.name.name.as_slice())
    }

    fn shape(&self, name: &TypeName) -> Result<Shape, NoMemory> {
        self.shape_of_name(name.name.name.as_slice())
    }
}
