// What the names of types stand for in a module.
ghost use Rattle.std.specs.Prelude.{◌≡◌, Some, unwrap_or};
ghost use Rattle.circus_value.specs.ShapeTree.{boolean};
ghost use Rattle.circus_type.specs.Seen.Measured.{measure_of};
ghost use Rattle.circus_resolve.specs.Seen.Scoped.{shape_as};
ghost use Rattle.circus_check.specs.Seen.Scoped.{interface_in, module_name, known_in, shape_among, unknown_in, size_in, form_in};

use crate::known::Known;
use circus_syntax::TypeName;
use circus_type::{Measure, TypeNames};
use circus_value::{Duplicate, NoMemory, Shape};
use std::collections::BTreeMap;

/// The interfaces whose types a module may name.
#[derive(Drop)]
pub struct TypeScope<'p, 's> {
    /// Its own interface, or one without types for a root; `None` where it isn't known.
    pub own: Option<&'p Known<'s>>,
    /// Those of the modules that it imports, by the names of these; `None` where one isn't known.
    pub imported: BTreeMap<&'s [u8], Option<&'p Known<'s>>>,
}

impl<'p, 's> TypeScope<'p, 's> {
    /// The interface of an imported module, where it is known.
    pub fn of_module(&self, name: &[u8]) -> Option<&'p Known<'s>>
        ensures { result ≡ known_in (interface_in self.now (Some name.now)) }
    {
        match self.imported.get(name) {
            Some(known) => *known,
            None => None,
        }
    }

    // The interface that a name is looked for in, where it is known.
    fn interface(&self, name: &TypeName) -> Option<&'p Known<'s>>
        ensures { result ≡ known_in (interface_in self.now (module_name name.now)) }
    {
        match &name.module {
            None => self.own,
            Some(module) => self.of_module(module.name.as_slice()),
        }
    }

    // The shape that a name stands for.
    fn shape_named(&self, name: &TypeName) -> Option<&'s Shape>
        ensures { shape_as result
            ≡ shape_among name.now.name.name
            (known_in (interface_in self.now (module_name name.now))) }
    {
        match self.interface(name) {
            Some(known) => known.types.table.get(name.name.name.as_slice()).copied(),
            None => None,
        }
    }

    // The size of what a name stands for.
    fn size_named(&self, name: &TypeName) -> Option<Measure>
        ensures { unwrap_or result (measure_of boolean) ≡ size_in self.now name.now }
    {
        match self.interface(name) {
            Some(known) => known.sizes.get(name.name.name.as_slice()).copied(),
            None => None,
        }
    }
}

impl<'p, 's> TypeNames for TypeScope<'p, 's> {
    ghost unknown_place = { unknown_in };

    ghost sizes = { size_in };

    ghost forms = { form_in };

    fn unknown_place(&self, name: &TypeName) -> Option<u32> {
        if let Some(module) = &name.module {
            if self.imported.get(module.name.as_slice()).is_none() {
                return Some(module.at);
            }
        }
        match self.interface(name) {
            Some(_) if self.shape_named(name).is_none() => Some(name.name.at),
            _ => None,
        }
    }

    fn measure(&self, name: &TypeName) -> Measure {
        self.size_named(name).unwrap_or(Measure::new(1, 0, 2))
    }

    fn shape(&self, name: &TypeName) -> Result<Shape, NoMemory> {
        match self.shape_named(name) {
            Some(shape) => shape.copy(),
            None => Ok(Shape::Boolean),
        }
    }
}
