//! The words of a line: numbers, and the text between them.

ghost use Rattle.std.specs.Prelude.{◌≡◌, ◌≢◌, ◌^◌, ◌<◌, [], ◌∷◌, ◌++◌, List, ℕ, MatchOption, decimal, drop};
ghost use Rattle.trace_reader.specs.Words.{IsDigit, IsField, IsNumberAt, NoDigitFirst};

/// The least number of 20 digits, to which no digit is added.
const TWENTY_DIGITS: u128 = 10_000_000_000_000_000_000;

/// What follows the text at the front.
pub fn after<'a>(bytes: &'a [u8], text: &[u8]) -> Option<&'a [u8]>
    ensures { MatchOption result ((rest : List ℕ) → bytes.now ≢ text.now ++ rest) (λ rest. bytes.now ≡ text.now ++ rest.now) }
{
    bytes.strip_prefix(text)
}

/// The number behind the text at the front, and what follows it.
pub(crate) fn field<'a>(bytes: &'a [u8], text: &[u8]) -> Option<(u128, &'a [u8])>
    ensures { MatchOption result
        ((n : ℕ) (rest : List ℕ) → ¬ IsField text.now bytes.now n rest)
        (λ found. IsField text.now bytes.now found.0 found.1.now) }
{
    number(after(bytes, text)?)
}

/// The number at the front, and what follows it. A number is 0, or up to 20 digits that don't begin with 0.
pub fn number(bytes: &[u8]) -> Option<(u128, &[u8])>
    ensures { MatchOption result
        ((n : ℕ) (rest : List ℕ) → ¬ IsField [] bytes.now n rest)
        (λ found. IsField [] bytes.now found.0 found.1.now) }
{
    let (value, end) = short_number(bytes, 0)?;
    let first = u128::from(value);
    if end < bytes.len() && bytes[end].is_ascii_digit() {
        return longer(first, &bytes[end..]);
    }
    Some((first, &bytes[end..]))
}

/// The number that begins at this place, and the place at which it ends. Only 0 begins with 0, and only up to 19 digits are
/// taken, since 64 bits have room for no more. It may be that further digits follow.
#[inline(always)]
pub(crate) fn short_number(bytes: &[u8], start: usize) -> Option<(u64, usize)>
    ensures { MatchOption result (NoDigitFirst (drop start bytes.now)) (λ found. IsNumberAt bytes.now start found.0 found.1) }
{
    if start >= bytes.len() || !bytes[start].is_ascii_digit() {
        return None;
    }
    let mut value = u64::from(bytes[start]) - u64::from(b'0');
    let mut at = start + 1;
    if value == 0 {
        return Some((0, at));
    }
    let stop = bytes.len().min(start + 19);
    while at < stop && bytes[at].is_ascii_digit() {
        value = 10 * value + (u64::from(bytes[at]) - u64::from(b'0'));
        at += 1;
    }
    Some((value, at))
}

// The digit at the front, and what follows it.
fn digit(bytes: &[u8]) -> Option<(u8, &[u8])>
    ensures { MatchOption result
        (NoDigitFirst bytes.now)
        (λ found. IsDigit found.0 × (bytes.now ≡ found.0 ∷ found.1.now)) }
{
    let (&byte, rest) = bytes.split_first()?;
    if byte.is_ascii_digit() {
        Some((byte, rest))
    } else {
        None
    }
}

// The number that goes on with the digits at the front.
fn longer(first: u128, bytes: &[u8]) -> Option<(u128, &[u8])>
    requires { first < 10 ^ 19 }
    ensures { MatchOption result
        ((n : ℕ) (rest : List ℕ) → ¬ IsField [] (decimal first ++ bytes.now) n rest)
        (λ found. IsField [] (decimal first ++ bytes.now) found.0 found.1.now) }
{
    let mut value = first;
    let mut rest = bytes;
    while let Some((byte, after)) = digit(rest) {
        if value == 0 || value >= TWENTY_DIGITS {
            return None;
        }
        value = 10 * value + u128::from(byte - b'0');
        rest = after;
    }
    Some((value, rest))
}
