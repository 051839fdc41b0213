//! What a line says, whatever stands before it.

ghost use Rattle.std.specs.Prelude.{◌≡◌, ◌^◌, ◌<◌, ℕ, List, MatchOption};
ghost use Rattle.report_text.specs.Words.{IsAddress};
ghost use Rattle.heap_text.specs.declared.text.HeapLine.{HeapLine as ALine};
ghost use Rattle.heap_text.specs.declared.sums.Sums.{Sums as ASums};
ghost use Rattle.heap_text.specs.Words.{IsFour, IsPart, SaysLine, SaysTop};

use crate::HeapLine;
use crate::sums::Sums;
use report_text::address;
use trace_reader::words::{after, number};

/// What a first line says.
#[derive(Clone, Copy)]
pub(crate) struct Top {
    /// Twice the rate.
    pub twice: u64,
    /// The sums of the lines.
    pub sums: Sums,
}

/// What a first line says, if the line is one.
pub(crate) fn top_of(line: &[u8]) -> Option<Top>
    ensures { MatchOption result
        ((twice : ℕ) (sums : ASums) → ¬ SaysTop line.now twice sums)
        (λ top. SaysTop line.now top.twice top.sums) }
{
    let (sums, rest) = four(after(line, b"heap profile: ")?)?;
    let (twice, rest) = part(after(rest, b"heap/")?, b"")?;
    if !rest.is_empty() {
        return None;
    }
    Some(Top { twice, sums })
}

/// What the line of a bucket says, if the line is one.
pub(crate) fn line_of(line: &[u8]) -> Option<HeapLine>
    ensures { MatchOption result
        ((said : ALine) → ¬ SaysLine line.now said)
        (λ said. SaysLine line.now said) }
{
    let (numbers, rest) = four(line)?;
    let stack = stack_of(after(rest, b"0x")?)?;
    Some(HeapLine {
        objects: numbers.objects,
        bytes: numbers.bytes,
        all_objects: numbers.all_objects,
        all_bytes: numbers.all_bytes,
        stack,
    })
}

// Four numbers at the front, and what stands behind them.
fn four(text: &[u8]) -> Option<(Sums, &[u8])>
    ensures { MatchOption result
        ((s : ASums) (rest : List ℕ) → ¬ IsFour text.now s rest)
        (λ found. IsFour text.now found.0 found.1.now) }
{
    let (objects, rest) = part(text, b": ")?;
    let (bytes, rest) = part(rest, b" [")?;
    let (all_objects, rest) = part(rest, b": ")?;
    let (all_bytes, rest) = part(rest, b"] @ ")?;
    let sums = Sums {
        objects,
        bytes,
        all_objects,
        all_bytes,
    };
    Some((sums, rest))
}

// A number of 64 bits at the front with the text behind it, and what follows them.
fn part<'a>(bytes: &'a [u8], behind: &[u8]) -> Option<(u64, &'a [u8])>
    ensures { MatchOption result
        ((n : ℕ) (rest : List ℕ) → ¬ IsPart behind.now bytes.now n rest)
        (λ found. IsPart behind.now bytes.now found.0 found.1.now) }
{
    let (number, rest) = number(bytes)?;
    if number > u128::from(u64::MAX) {
        return None;
    }
    Some((number as u64, after(rest, behind)?))
}

// The number of 32 bits whose hexadecimal digits the bytes are.
fn stack_of(bytes: &[u8]) -> Option<u32>
    ensures { MatchOption result
        ((n : ℕ) → n < 2 ^ 32 → ¬ IsAddress bytes.now n)
        (λ found. IsAddress bytes.now found) }
{
    let number = address(bytes)?;
    if number > u64::from(u32::MAX) {
        return None;
    }
    Some(number as u32)
}
