// What holds of every type.
ghost use Rattle.std.specs.Prelude.{◌≡◌, ℕ, ◌+◌, min, [], Option, None};
ghost use Rattle.circus_value.specs.ShapeTree.{ShapeTree};
ghost use Rattle.circus_syntax.specs.declared.named.TypeName.{TypeName};
ghost use Rattle.circus_syntax.specs.Spelling.{IsType};
ghost use Rattle.circus_syntax.specs.TypeTree.{TypeTree};
ghost use Rattle.circus_type.specs.declared.cause.TypeCause.{TypeCause};
ghost use Rattle.circus_type.specs.Inside.{inside};
ghost use Rattle.circus_type.specs.Limits.{most_parts};
ghost use Rattle.circus_type.specs.Meaning.{shape_of_type};
ghost use Rattle.circus_type.specs.Obeys.{ObeysInside};
ghost use Rattle.circus_type.specs.Scale.{is_large};
ghost use Rattle.circus_type.specs.Seen.Measured.{measure_of_type, measure_of, is_over};

/// The size that is counted of a type is that of the type written out, each number cut off one above its limit, and
/// passes a limit exactly where the type written out does.
pub fn sizes_are_cut_off()
    ensures size { (forms : TypeName → ShapeTree) (t : TypeTree)
        → measure_of_type (λ n. measure_of (forms n)) t ≡ measure_of (shape_of_type forms t) }
    ensures over { (so_far : ℕ) (s : ShapeTree)
        → is_over (min so_far (1 + most_parts)) (measure_of s) ≡ is_large so_far s }
{}

/// A type without a fault inside means a shape in which no rule is broken, where the names that are known stand for such.
pub fn faultless_obeys()
    ensures { (unknown : TypeName → Option ℕ) (forms : TypeName → ShapeTree)
        → ((n : TypeName) → unknown n ≡ None → ObeysInside (forms n))
        → (t : TypeTree) → IsType t → inside (λ (cause : TypeCause). cause) unknown t ≡ []
        → ObeysInside (shape_of_type forms t) }
{}
