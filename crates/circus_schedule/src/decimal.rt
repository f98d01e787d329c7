// Numbers as words and lines spell them.
ghost use Rattle.std.specs.Char.{digit_value};
ghost use Rattle.std.specs.Fmt.{decimal};
ghost use Rattle.std.specs.Option.{SomeIff};
ghost use Rattle.std.specs.Prelude.{◌≡◌, ◌≢◌, ◌<◌, ◌≤◌, ◌+◌, ◌*◌, ◌^◌, ◌↔◌, ℕ, IfNone, IfSome, IsTrue, length, slice_index};
ghost use Rattle.std.specs.Str.Parse.{AllDigits, digits_value};

const PLUS: u8 = b'+';

const ZERO: u8 = b'0';

/// The number that the text spells in decimal, without a sign and without leading zeros, where it is
/// at most `greatest`. `None` exactly where there is no such number.
#[tactic(auto, using(std::proofs::lemmas::Fmt::decimal_injective))]
pub fn decimal_at_most(text: &[u8], greatest: u64) -> Option<u64>
    ensures some { IfSome result (λ number. (text.now ≡ decimal number) × (number ≤ greatest)) }
    ensures none { IfNone result ((number : ℕ) → number ≤ greatest → text.now ≢ decimal number) }
{
    let number = read_decimal(text)?;
    (number <= greatest).then_some(number)
}

fn read_decimal(text: &[u8]) -> Option<u64>
    ensures some { IfSome result (λ number. text.now ≡ decimal number) }
    ensures none { IfNone result ((number : ℕ) → number < 2 ^ 64 → text.now ≢ decimal number) }
{
    if !begins_as_decimal(text) {
        return None;
    }
    number_of_digits(text)
}

// The number of digits, which may begin with zeros.
fn number_of_digits(text: &[u8]) -> Option<u64>
    ensures { SomeIff result (AllDigits 10 text.now × (digits_value 10 text.now < 2 ^ 64))
        (digits_value 10 text.now) }
{
    let mut number = 0;
    for byte in text {
        number = with_digit(number, *byte)?;
    }
    Some(number)
}

// The number with one digit more.
fn with_digit(number: u64, byte: u8) -> Option<u64>
    ensures { SomeIff result
        ((digit_value byte < 10) × (number * 10 + digit_value byte < 2 ^ 64))
        (number * 10 + digit_value byte) }
{
    if !byte.is_ascii_digit() {
        return None;
    }
    number.checked_mul(10)?.checked_add(u64::from(byte - ZERO))
}

// The first byte is no sign, and a zero only where it is the only byte.
fn begins_as_decimal(text: &[u8]) -> bool
    ensures { IsTrue result
        ↔ (0 < length text.now) × (slice_index text.now 0 ≢ PLUS)
        × (slice_index text.now 0 ≡ ZERO → length text.now ≡ 1) }
{
    match text {
        [] | [PLUS, ..] => false,
        [ZERO, rest @ ..] => rest.is_empty(),
        _ => true,
    }
}
