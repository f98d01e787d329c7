// What the names of types stand for.
ghost use Rattle.std.specs.Prelude.{◌≡◌, ℕ, Option, IfOk};
ghost use Rattle.circus_value.specs.ShapeTree.{ShapeTree};
ghost use Rattle.circus_value.specs.ShapeOf.{tree_of};
ghost use Rattle.circus_syntax.specs.declared.named.TypeName.{TypeName as Called};
ghost use Rattle.circus_type.specs.declared.measuring.Measure.{Measure as Size};

use crate::Measure;
use circus_syntax::TypeName;
use circus_value::{NoMemory, Shape};

/// What the names of types stand for where a type is written.
pub trait TypeNames {
    /// The place of what is unknown in a name, where it stands for no type.
    ghost unknown_place: { Self → Called → Option ℕ };

    /// The size of what a name stands for.
    ghost sizes: { Self → Called → Size };

    /// The shape that a name stands for.
    ghost forms: { Self → Called → ShapeTree };

    /// The place of what is unknown in the name, where it stands for no type.
    fn unknown_place(&self, name: &TypeName) -> Option<u32>
        ensures { result ≡ unknown_place self.now name.now };

    /// The size of the type that the name stands for; a name that stands for none has some size.
    fn measure(&self, name: &TypeName) -> Measure
        ensures { result ≡ sizes self.now name.now };

    /// A copy of the shape that the name stands for; a name that stands for none has some shape.
    fn shape(&self, name: &TypeName) -> Result<Shape, NoMemory>
        ensures { IfOk result (λ shape. tree_of shape ≡ forms self.now name.now) };
}
