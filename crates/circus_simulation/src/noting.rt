// What is kept of the lines that are drawn.
ghost use Rattle.std.specs.Prelude.{◌≡◌, [], ◌∷◌, ◌++◌, List, OnOk};
ghost use Rattle.circus_schedule.specs.declared.line.Line.{Line};

use circus_schedule::{Line, Lines};
use circus_value::NoMemory;

/// Who is told each line that is drawn, before it is stepped.
pub trait Noting {
    /// These lines were noted since.
    ghost noted: { Self → List Line → Self → Type 0 };

    /// Notes one line more. `NoMemory` is the one fault.
    fn note(&mut self, line: &Line) -> Result<(), NoMemory>
        ensures { (begun : Self) (lines : List Line) → noted begun lines self.old
            → OnOk result (noted begun (lines ++ line.now ∷ []) self.new) };
}

/// Keeps nothing.
#[derive(Drop)]
pub struct Nothing;

impl Noting for Nothing {
    ghost noted = { λ _ _ _. Unit {0} };

    fn note(&mut self, _line: &Line) -> Result<(), NoMemory> {
        Ok(())
    }
}

impl Noting for Lines {
    ghost noted = { λ begun lines now. now ≡ begun ++ lines };

    fn note(&mut self, line: &Line) -> Result<(), NoMemory> {
        self.push(*line)
    }
}
