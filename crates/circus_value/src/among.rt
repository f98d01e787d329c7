// Numbers that are looked for in a list.
ghost use Rattle.std.specs.Prelude.{◌≡◌, ◌==◌};
ghost use Rattle.std.specs.List.{list_any};
ghost use Rattle.circus_value.specs.Among.{is_among};

use crate::Label;

/// Whether one of the numbers is this one.
pub fn is_among(numbers: &[u16], number: u16) -> bool
    ensures { result ≡ is_among numbers.now number }
{
    numbers.iter().any(|each| *each == number)
}

/// Whether one of the labels has this number.
pub fn has_label(labels: &[Label], number: u16) -> bool
    ensures { result ≡ list_any (λ l. l.number == number) labels.now }
{
    labels.iter().any(|label| label.number == number)
}
