// What holds of every text of a clock, of asks and of bytes.
ghost use Rattle.std.specs.Prelude.{◌≡◌, ◌++◌, ◌<◌, ◌≤◌, ◌^◌, ℕ, List, [], Some, None, codes, length};
ghost use Rattle.std.specs.List.{AllByRecursion};
ghost use Rattle.hex.specs.Hex.{encode_lower};
ghost use Rattle.circus_value.specs.ThreadText.{clock_text, numbers_behind};
ghost use Rattle.circus_value_text.specs.Reading.{behind_prefix};
ghost use Rattle.circus_value_text.specs.WordReading.{counts_read, asks_read, bytes_of};
ghost use Rattle.circus_value_text.specs.Stopping.{Stops};

/// The text of a clock is read as the clock, where no digit stands behind it.
pub fn clock_is_read()
    ensures { (clock rest : List ℕ) → AllByRecursion (λ n. n < 2 ^ 32) clock → Stops rest
        → counts_read (length clock) [] (clock_text clock ++ rest) ≡ Some (clock, rest) }
{}

/// What is read as a clock is the text of one with so many counts.
pub fn read_clock_is_shown()
    ensures { (count : ℕ) (text clock rest : List ℕ)
        → counts_read count [] text ≡ Some (clock, rest)
        → (text ≡ clock_text clock ++ rest) × (length clock ≡ count)
        × AllByRecursion (λ n. n < 2 ^ 32) clock }
{}

/// The asks of a path are read, where neither a digit nor a point stands behind them.
pub fn asks_are_read()
    ensures { (most : ℕ) (path rest : List ℕ) → length path ≤ most
        → AllByRecursion (λ n. n < 2 ^ 16) path → Stops rest → behind_prefix (codes ".") rest ≡ None
        → asks_read most (numbers_behind 46 path ++ rest) ≡ Some (path, rest) }
{}

/// What is read as the asks of a path is their text.
pub fn read_asks_are_shown()
    ensures { (most : ℕ) (text path rest : List ℕ) → asks_read most text ≡ Some (path, rest)
        → (text ≡ numbers_behind 46 path ++ rest) × AllByRecursion (λ n. n < 2 ^ 16) path }
{}

/// Bytes are read from their hexadecimal digits.
pub fn bytes_are_read()
    ensures { (bytes : List ℕ) → AllByRecursion (λ b. b < 2 ^ 8) bytes
        → bytes_of (encode_lower bytes) ≡ Some bytes }
{}

/// A text that is read as bytes is that of their hexadecimal digits.
pub fn read_bytes_are_shown()
    ensures { (text bytes : List ℕ) → bytes_of text ≡ Some bytes
        → (text ≡ encode_lower bytes) × AllByRecursion (λ b. b < 2 ^ 8) bytes }
{}
