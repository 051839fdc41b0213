//! The hexadecimal digits of a number, a byte's two at a time: those of any number from the last to the first, those of a number
//! that has ten of them from the first to the last.

ghost use Rattle.std.specs.Prelude.{◌≡◌, ◌+◌, ◌^◌, ◌/◌, ◌%◌, ◌<◌, ◌≤◌, [], ◌∷◌, ◌++◌, false, drop, length, take};
ghost use Rattle.std.specs.Fmt.{digit_glyph, digits};

/// The most digits of a number of 64 bits, which are those of a decimal one.
pub(crate) const MAX_DIGITS: usize = 20;

/// The two digits of each byte, of which the letters are small.
static PAIRS: [u8; 512] =
    *b"000102030405060708090a0b0c0d0e0f101112131415161718191a1b1c1d1e1f202122232425262728292a2b2c2d2e2f303132333435363738393a3b3c3d3e3f404142434445464748494a4b4c4d4e4f505152535455565758595a5b5c5d5e5f606162636465666768696a6b6c6d6e6f707172737475767778797a7b7c7d7e7f808182838485868788898a8b8c8d8e8f909192939495969798999a9b9c9d9e9fa0a1a2a3a4a5a6a7a8a9aaabacadaeafb0b1b2b3b4b5b6b7b8b9babbbcbdbebfc0c1c2c3c4c5c6c7c8c9cacbcccdcecfd0d1d2d3d4d5d6d7d8d9dadbdcdddedfe0e1e2e3e4e5e6e7e8e9eaebecedeeeff0f1f2f3f4f5f6f7f8f9fafbfcfdfeff";

/// Writes the digits so that they end in the middle of the buffer, and answers where they begin.
pub(crate) fn write_hexadecimal(number: u64, buffer: &mut [u8; 2 * MAX_DIGITS]) -> usize
    ensures start { result ≤ 20 }
    ensures written { drop result buffer.new ≡ digits 16 false number ++ drop 20 buffer.old }
{
    let mut rest = number;
    let mut at = MAX_DIGITS;
    while rest >= 256 {
        at -= 2;
        write_pair(rest % 256, buffer, at);
        rest /= 256;
    }
    if rest < 16 {
        let digit = PAIRS[rest as usize * 2 + 1];
        buffer[at - 1] = digit;
        return at - 1;
    }
    write_pair(rest, buffer, at - 2);
    at - 2
}

// Writes the two digits of a byte.
fn write_pair(byte: u64, buffer: &mut [u8; 2 * MAX_DIGITS], at: usize)
    requires byte { byte < 256 }
    requires within { at + 2 ≤ 40 }
    ensures { drop at buffer.new ≡ digit_glyph false (byte / 16) ∷ digit_glyph false (byte % 16) ∷ drop (at + 2) buffer.old }
{
    let place = byte as usize * 2;
    let (high, low) = (PAIRS[place], PAIRS[place + 1]);
    buffer[at + 1] = low;
    buffer[at] = high;
}

/// Writes the ten digits of a number that has as many, at a place; what stands before it stays.
pub(crate) fn write_ten(number: u64, bytes: &mut [u8], at: usize)
    requires many { 2 ^ 36 ≤ number }
    requires few { number < 2 ^ 40 }
    requires within { at + 10 ≤ length bytes.old }
    ensures written { take (at + 10) bytes.new ≡ take at bytes.old ++ digits 16 false number }
    ensures same_length { length bytes.new ≡ length bytes.old }
{
    append_pair(number / 0x1_0000_0000, bytes, at);
    append_pair(number / 0x100_0000 % 256, bytes, at + 2);
    append_pair(number / 0x1_0000 % 256, bytes, at + 4);
    append_pair(number / 0x100 % 256, bytes, at + 6);
    append_pair(number % 256, bytes, at + 8);
}

// Writes the two digits of a byte behind what stands before a place.
fn append_pair(byte: u64, bytes: &mut [u8], at: usize)
    requires byte { byte < 256 }
    requires within { at + 2 ≤ length bytes.old }
    ensures written { take (at + 2) bytes.new ≡ take at bytes.old ++ digit_glyph false (byte / 16) ∷ digit_glyph false (byte % 16) ∷ [] }
    ensures same_length { length bytes.new ≡ length bytes.old }
{
    let place = byte as usize * 2;
    let (high, low) = (PAIRS[place], PAIRS[place + 1]);
    bytes[at] = high;
    bytes[at + 1] = low;
}
