// What bytes can begin.
ghost use Rattle.std.specs.Prelude.{◌≡◌};
ghost use Rattle.circus_text.specs.ByteClass.{class_of, is_word_class, is_digit_class, is_space_class, is_printable, is_space};

/// What opens and closes a string.
pub const QUOTE: u8 = b'"';

/// What ends a line.
pub const NEWLINE: u8 = b'\n';

/// What a byte can begin.
#[derive(Clone, Copy, Debug, PartialEq, Eq)]
pub enum ByteClass {
    Letter,
    Digit,
    Quote,
    Space,
    Mark,
    Other,
}

impl ByteClass {
    /// What a byte can begin.
    pub fn of(byte: u8) -> Self
        ensures { result ≡ class_of byte }
    {
        match byte {
            b'A'..=b'Z' | b'a'..=b'z' => ByteClass::Letter,
            b'0'..=b'9' => ByteClass::Digit,
            QUOTE => ByteClass::Quote,
            b' ' | b'\t' | b'\r' | NEWLINE => ByteClass::Space,
            b';' | b':' | b',' | b'.' | b'=' | b'<' | b'>' | b'+' | b'-' | b'*' | b'&' | b'#' => {
                ByteClass::Mark
            }
            b'(' | b')' | b'[' | b']' | b'{' | b'}' => ByteClass::Mark,
            _ => ByteClass::Other,
        }
    }

    /// Whether a word goes on with it.
    pub fn is_in_word(self) -> bool
        ensures { result ≡ is_word_class self }
    {
        matches!(self, ByteClass::Letter | ByteClass::Digit)
    }

    /// Whether a number goes on with it.
    pub fn is_digit(self) -> bool
        ensures { result ≡ is_digit_class self }
    {
        matches!(self, ByteClass::Digit)
    }

    /// Whether spacing goes on with it.
    pub fn is_space(self) -> bool
        ensures { result ≡ is_space_class self }
    {
        matches!(self, ByteClass::Space)
    }
}

/// Whether the byte is one of 32 to 126.
pub fn is_printable(byte: u8) -> bool
    ensures { result ≡ is_printable byte }
{
    matches!(byte, 32..=126)
}

/// Whether the byte is a space, a tab, a carriage return or a newline.
pub fn is_space(byte: u8) -> bool
    ensures { result ≡ is_space byte }
{
    matches!(byte, b' ' | b'\t' | b'\r' | NEWLINE)
}
