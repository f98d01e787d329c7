// The values of digits.
ghost use Rattle.std.specs.Prelude.{◌≡◌, ◌≤◌, SomeIff};
ghost use Rattle.circus_text.specs.Form.{IsNumber, greatest_number, number_value};

// The greatest number that a text may have.
const GREATEST_NUMBER: u64 = 9_223_372_036_854_775_807;

/// The value of decimal digits, or `None` where it is above 9,223,372,036,854,775,807. Leading zeros
/// count for nothing.
pub fn number_of(digits: &[u8]) -> Option<u64>
    requires { IsNumber digits.now }
    ensures { SomeIff result (number_value digits.now ≤ greatest_number) (number_value digits.now) }
{
    let mut value = 0;
    for digit in digits {
        let unit = u64::from(*digit - b'0');
        if value > (GREATEST_NUMBER - unit) / 10 {
            return None;
        }
        value = 10 * value + unit;
    }
    Some(value)
}
