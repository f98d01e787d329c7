// Texts that are written from their end on, each in front of what stands in the room already.
ghost use Rattle.std.specs.Prelude.{◌≡◌, ◌+◌, ◌*◌, ◌≤◌, ◌++◌, length, take, drop};
ghost use Rattle.hex.specs.Hex.{encode_lower};

// The two hexadecimal digits of each byte.
static PAIRS: [u8; 512] =
    *b"000102030405060708090a0b0c0d0e0f101112131415161718191a1b1c1d1e1f202122232425262728292a2b2c2d2e2f303132333435363738393a3b3c3d3e3f404142434445464748494a4b4c4d4e4f505152535455565758595a5b5c5d5e5f606162636465666768696a6b6c6d6e6f707172737475767778797a7b7c7d7e7f808182838485868788898a8b8c8d8e8f909192939495969798999a9b9c9d9e9fa0a1a2a3a4a5a6a7a8a9aaabacadaeafb0b1b2b3b4b5b6b7b8b9babbbcbdbebfc0c1c2c3c4c5c6c7c8c9cacbcccdcecfd0d1d2d3d4d5d6d7d8d9dadbdcdddedfe0e1e2e3e4e5e6e7e8e9eaebecedeeeff0f1f2f3f4f5f6f7f8f9fafbfcfdfeff";

/// Writes a word so that it ends at a place, and answers where it begins.
#[inline(always)]
pub(crate) fn fill_word(word: &[u8], room: &mut [u8], end: usize) -> usize
    requires { (length word.now ≤ end) × (end ≤ length room.old) }
    ensures start { result + length word.now ≡ end }
    ensures written { drop result room.new ≡ word.now ++ drop end room.old }
{
    let start = end - word.len();
    room[start..end].copy_from_slice(word);
    start
}

/// Writes the hexadecimal digits of bytes so that they end at a place, and answers where they begin.
#[inline(always)]
pub(crate) fn fill_hexadecimal(bytes: &[u8], room: &mut [u8], end: usize) -> usize
    requires { (2 * length bytes.now ≤ end) × (end ≤ length room.old) }
    ensures start { result + 2 * length bytes.now ≡ end }
    ensures written { drop result room.new ≡ encode_lower bytes.now ++ drop end room.old }
{
    let start = end - 2 * bytes.len();
    write_pairs(bytes, &mut room[start..end]);
    start
}

#[inline(always)]
fn write_pairs(bytes: &[u8], digits: &mut [u8])
    requires { length digits.old ≡ 2 * length bytes.now }
    ensures { digits.new ≡ encode_lower bytes.now }
{
    'bytes: for place in 0..bytes.len() {
        let pair = usize::from(bytes[place]) * 2;
        let (high, low) = (PAIRS[pair], PAIRS[pair + 1]);
        digits[2 * place] = high;
        digits[2 * place + 1] = low;
    }
}
