//! The lines that a trace has most of, whose numbers have few digits.
//!
//! They are read by places, with no part of the line lent, and no statement is made of them. Each line is read with the line
//! feed behind it: as that is no digit and no blank, no place on the way to it is compared with the line's end. What these
//! functions don't find may still be a line of the same kind, as one with a number of 20 digits. The two that read a whole line stand
//! apart from the loop over the lines: there each number would be kept in memory from digit to digit for want of registers.

ghost use Rattle.std.specs.Prelude.{◌≡◌, ◌≢◌, ◌≤◌, ◌∷◌, ◌++◌, IfSome, drop, take, true};
ghost use Rattle.trace_reader.specs.Spelling.{kind};
ghost use Rattle.trace_reader.specs.Says.{Says};
ghost use Rattle.trace_reader.specs.Words.{IsFed, IsNumberAt};
ghost use Rattle.trace_reader.specs.Short.{short_form};
ghost use Rattle.trace_reader.specs.declared.statement.Statement.TheVariants.{Alloc, Mark};

use crate::statement::AllocForm;

/// The most digits of a processor, of a size, and of a stack or an object. A size may have more, but seldom has.
const PROC_DIGITS: usize = 2;

const SIZE_DIGITS: usize = 8;

const DIGITS: usize = 6;

const NOUGHT: u32 = b'0' as u32;

/// The numbers of an `a` line.
#[derive(Clone, Copy)]
pub(crate) struct ShortAlloc {
    pub proc: u32,
    pub size: u32,
    pub scan: bool,
    pub stack: u32,
}

impl ShortAlloc {
    /// The same numbers as a form.
    #[inline(always)]
    pub(crate) fn form(self) -> AllocForm
        ensures { result ≡ short_form self }
    {
        AllocForm {
            proc: u128::from(self.proc),
            size: u128::from(self.size),
            scan: self.scan,
            stack: u128::from(self.stack),
        }
    }
}

/// The numbers of an `a` line before the line feed at `end`, if each has few digits.
#[inline(never)]
pub(crate) fn short_alloc(bytes: &[u8], end: usize) -> Option<ShortAlloc>
    requires { IsFed bytes.now end }
    ensures { IfSome result (λ found. Says (take end bytes.now) (Alloc (short_form found))) }
{
    if !begins_with(bytes, end, b'a') {
        return None;
    }
    let (proc, at) = few_digits(bytes, end, 2, PROC_DIGITS)?;
    let at = behind_blank(bytes, end, at)?;
    let (size, at) = few_digits(bytes, end, at, SIZE_DIGITS)?;
    let (scan, at) = behind_kind(bytes, end, at)?;
    let (stack, at) = few_digits(bytes, end, at, DIGITS)?;
    if at != end {
        return None;
    }
    Some(ShortAlloc {
        proc,
        size,
        scan,
        stack,
    })
}

/// The first and the last object of an `m` line before the line feed at `end`, if each has few digits.
#[inline(never)]
pub(crate) fn short_mark(bytes: &[u8], end: usize) -> Option<(u32, u32)>
    requires { IsFed bytes.now end }
    ensures { IfSome result (λ found. Says (take end bytes.now) (Mark found.0 found.1)) }
{
    if !begins_with(bytes, end, b'm') {
        return None;
    }
    let (lo, at) = few_digits(bytes, end, 2, DIGITS)?;
    let at = behind_blank(bytes, end, at)?;
    let (hi, at) = few_digits(bytes, end, at, DIGITS)?;
    if at != end {
        return None;
    }
    Some((lo, hi))
}

// Whether the line begins with this byte and a blank.
#[inline(always)]
fn begins_with(bytes: &[u8], end: usize, byte: u8) -> bool
    requires fed { IsFed bytes.now end }
    requires no_feed { byte ≢ 10 }
    ensures { result ≡ true → (bytes.now ≡ byte ∷ 32 ∷ drop 2 bytes.now) × (2 ≤ end) }
{
    bytes[0] == byte && bytes[1] == b' '
}

// The place behind the blank that stands at this one.
#[inline(always)]
fn behind_blank(bytes: &[u8], end: usize, at: usize) -> Option<usize>
    requires fed { IsFed bytes.now end }
    requires inside { at ≤ end }
    ensures { IfSome result (λ next. (drop at bytes.now ≡ 32 ∷ drop next bytes.now) × (next ≤ end)) }
{
    if bytes[at] == b' ' {
        Some(at + 1)
    } else {
        None
    }
}

// Whether an object has pointers, as is said at this place, and the place behind that.
#[inline(always)]
fn behind_kind(bytes: &[u8], end: usize, at: usize) -> Option<(bool, usize)>
    requires fed { IsFed bytes.now end }
    requires inside { at ≤ end }
    ensures { IfSome result (λ found. (drop at bytes.now ≡ kind found.0 ++ drop found.1 bytes.now) × (found.1 ≤ end)) }
{
    let at = behind_blank(bytes, end, at)?;
    match bytes[at] {
        b's' => Some((true, behind_blank(bytes, end, at + 1)?)),
        b'n' => Some((false, behind_blank(bytes, end, at + 1)?)),
        _ => None,
    }
}

// The number of up to `most` digits that begins at this place, and the place at which it ends. Only 0 begins with 0. It may be
// that further digits follow. As `most` is a constant, the loop is written out.
#[inline(always)]
fn few_digits(bytes: &[u8], end: usize, start: usize, most: usize) -> Option<(u32, usize)>
    requires fed { IsFed bytes.now end }
    requires inside { start ≤ end }
    requires few { (1 ≤ most) × (most ≤ 9) }
    ensures { IfSome result (λ found. IsNumberAt bytes.now start found.0 found.1 × (found.1 ≤ end)) }
{
    let mut value = u32::from(bytes[start]).wrapping_sub(NOUGHT);
    if value > 9 {
        return None;
    }
    if value == 0 {
        return Some((0, start + 1));
    }
    let mut count = 1;
    while count < most {
        let digit = u32::from(bytes[start + count]).wrapping_sub(NOUGHT);
        if digit > 9 {
            return Some((value, start + count));
        }
        value = 10 * value + digit;
        count += 1;
    }
    Some((value, start + most))
}
