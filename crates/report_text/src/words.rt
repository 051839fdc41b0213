//! The numbers of a line. Behind each stands a blank, or the end of the line.

ghost use Rattle.std.specs.Prelude.{◌≡◌, ◌^◌, ◌<◌, [], List, ℕ, MatchOption};
ghost use Rattle.std.specs.Str.Parse.{digits_value};
ghost use Rattle.trace_reader.specs.Words.{IsField};
ghost use Rattle.report_text.specs.Words.{IsAddress, IsHead, IsLast};

use text_line::TextLine;
use trace_reader::words::{self, after};

/// A number of 64 bits and a blank at the front, and what follows them.
pub(crate) fn head(bytes: &[u8]) -> Option<(u64, &[u8])>
    ensures { MatchOption result
        ((n : ℕ) (rest : List ℕ) → ¬ IsHead (2 ^ 64) bytes.now n rest)
        (λ found. IsHead (2 ^ 64) bytes.now found.0 found.1.now) }
{
    let (number, rest) = number(bytes)?;
    Some((number, after(rest, b" ")?))
}

/// The same of a number of 32 bits.
pub(crate) fn short_head(bytes: &[u8]) -> Option<(u32, &[u8])>
    ensures { MatchOption result
        ((n : ℕ) (rest : List ℕ) → ¬ IsHead (2 ^ 32) bytes.now n rest)
        (λ found. IsHead (2 ^ 32) bytes.now found.0 found.1.now) }
{
    let (number, rest) = head(bytes)?;
    if number > u64::from(u32::MAX) {
        return None;
    }
    Some((number as u32, rest))
}

/// The same of a number of 8 bits.
pub(crate) fn byte_head(bytes: &[u8]) -> Option<(u8, &[u8])>
    ensures { MatchOption result
        ((n : ℕ) (rest : List ℕ) → ¬ IsHead (2 ^ 8) bytes.now n rest)
        (λ found. IsHead (2 ^ 8) bytes.now found.0 found.1.now) }
{
    let (number, rest) = head(bytes)?;
    if number > u64::from(u8::MAX) {
        return None;
    }
    Some((number as u8, rest))
}

/// The number of 64 bits that the bytes are.
pub(crate) fn last(bytes: &[u8]) -> Option<u64>
    ensures { MatchOption result
        ((n : ℕ) → ¬ IsLast (2 ^ 64) bytes.now n)
        (λ found. IsLast (2 ^ 64) bytes.now found) }
{
    let (number, rest) = number(bytes)?;
    if !rest.is_empty() {
        return None;
    }
    Some(number)
}

/// The same of a number of 32 bits.
pub(crate) fn short_last(bytes: &[u8]) -> Option<u32>
    ensures { MatchOption result
        ((n : ℕ) → ¬ IsLast (2 ^ 32) bytes.now n)
        (λ found. IsLast (2 ^ 32) bytes.now found) }
{
    let number = last(bytes)?;
    if number > u64::from(u32::MAX) {
        return None;
    }
    Some(number as u32)
}

/// The same of a number of 8 bits.
pub(crate) fn byte_last(bytes: &[u8]) -> Option<u8>
    ensures { MatchOption result
        ((n : ℕ) → ¬ IsLast (2 ^ 8) bytes.now n)
        (λ found. IsLast (2 ^ 8) bytes.now found) }
{
    let number = last(bytes)?;
    if number > u64::from(u8::MAX) {
        return None;
    }
    Some(number as u8)
}

/// The address whose hexadecimal digits the bytes are. They are compared with the digits that it is written with, since a
/// number has one text.
pub fn address(bytes: &[u8]) -> Option<u64>
    ensures { MatchOption result
        ((n : ℕ) → ¬ IsAddress bytes.now n)
        (λ found. IsAddress bytes.now found) }
{
    let number = hexadecimal(bytes)?;
    let mut digits = TextLine::new();
    digits.push_hexadecimal(number);
    if digits.as_slice() != bytes {
        return None;
    }
    Some(number)
}

// What the bytes are worth as hexadecimal digits, whatever the first is and whether the letters are small.
fn hexadecimal(bytes: &[u8]) -> Option<u64>
    ensures { MatchOption result
        ((n : ℕ) → ¬ IsAddress bytes.now n)
        (λ found. found ≡ digits_value 16 bytes.now) }
{
    let mut value = 0;
    for &byte in bytes {
        let digit = char::from(byte).to_digit(16)?;
        if value >= 1 << 60 {
            return None;
        }
        value = 16 * value + u64::from(digit);
    }
    Some(value)
}

// The number of 64 bits at the front with all its digits, and what follows it.
fn number(bytes: &[u8]) -> Option<(u64, &[u8])>
    ensures { MatchOption result
        ((n : ℕ) (rest : List ℕ) → n < 2 ^ 64 → ¬ IsField [] bytes.now n rest)
        (λ found. (found.0 < 2 ^ 64) × IsField [] bytes.now found.0 found.1.now) }
{
    let (number, rest) = words::number(bytes)?;
    if number > u128::from(u64::MAX) {
        return None;
    }
    Some((number as u64, rest))
}
