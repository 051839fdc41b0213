//! What a line says, whatever stands before it.

ghost use Rattle.std.specs.Prelude.{◌≡◌, ◌≢◌, ◌++◌, Bool, List, ℕ, MatchOption};
ghost use Rattle.trace_reader.specs.Spelling.{kind};
ghost use Rattle.trace_reader.specs.Says.{Says, said};
ghost use Rattle.trace_reader.specs.declared.statement.Statement.TheVariants.{Alloc, Gc, Heap, Mark, Title};

use crate::words::{after, field, number};

/// What one line says. Its numbers have up to 20 digits, and their limits are not tried yet.
#[derive(Clone, Copy)]
pub(crate) enum Statement {
    /// The first line, `goheap` and the version of the format.
    Title(u128),
    /// The `heap` line.
    Heap(HeapForm),
    /// An `a` line: an allocation.
    Alloc(AllocForm),
    /// A `gc` line: a mark end, with its distance.
    Gc(u128),
    /// An `m` line: the first and the last of the objects that are marked.
    Mark(u128, u128),
    /// The last line, `end`.
    End,
}

/// The numbers of a `heap` line.
#[derive(Clone, Copy)]
pub(crate) struct HeapForm {
    pub chunks: u128,
    pub procs: u128,
    pub rate: u128,
    pub seed: u128,
    pub goal: u128,
}

/// The numbers of an `a` line, and whether its object has pointers.
#[derive(Clone, Copy)]
pub(crate) struct AllocForm {
    pub proc: u128,
    pub size: u128,
    pub scan: bool,
    pub stack: u128,
}

/// What the line says, if it has the form of any line.
pub(crate) fn statement_of(line: &[u8]) -> Option<Statement>
    ensures { result ≡ said line.now }
{
    if let Some(form) = alloc_form(line) {
        return Some(Statement::Alloc(form));
    }
    other_statement(line)
}

// What a line that is no `a` line says.
fn other_statement(line: &[u8]) -> Option<Statement>
    requires { (form : AllocForm) → ¬ Says line.now (Alloc form) }
    ensures { result ≡ said line.now }
{
    if line == b"end".as_slice() {
        return Some(Statement::End);
    }
    if let Some(distance) = gc_form(line) {
        return Some(Statement::Gc(distance));
    }
    if let Some((lo, hi)) = mark_form(line) {
        return Some(Statement::Mark(lo, hi));
    }
    if let Some(form) = heap_form(line) {
        return Some(Statement::Heap(form));
    }
    if let Some(version) = title_form(line) {
        return Some(Statement::Title(version));
    }
    None
}

// The version that the first line says.
fn title_form(line: &[u8]) -> Option<u128>
    ensures { MatchOption result ((version : ℕ) → ¬ Says line.now (Title version)) (λ version. Says line.now (Title version)) }
{
    let (version, rest) = field(line, b"goheap ")?;
    if !rest.is_empty() {
        return None;
    }
    Some(version)
}

// The numbers of an `a` line.
fn alloc_form(line: &[u8]) -> Option<AllocForm>
    ensures { MatchOption result ((form : AllocForm) → ¬ Says line.now (Alloc form)) (λ form. Says line.now (Alloc form)) }
{
    let (proc, rest) = field(line, b"a ")?;
    let (size, rest) = field(rest, b" ")?;
    let (scan, rest) = scan_kind(rest)?;
    let (stack, rest) = number(rest)?;
    if !rest.is_empty() {
        return None;
    }
    Some(AllocForm {
        proc,
        size,
        scan,
        stack,
    })
}

// Whether an object has pointers, and what follows.
fn scan_kind(bytes: &[u8]) -> Option<(bool, &[u8])>
    ensures { MatchOption result
        ((scan : Bool) (rest : List ℕ) → bytes.now ≢ kind scan ++ rest)
        (λ found. bytes.now ≡ kind found.0 ++ found.1.now) }
{
    if let Some(rest) = after(bytes, b" s ") {
        return Some((true, rest));
    }
    let rest = after(bytes, b" n ")?;
    Some((false, rest))
}

// The numbers of a `heap` line.
fn heap_form(line: &[u8]) -> Option<HeapForm>
    ensures { MatchOption result ((form : HeapForm) → ¬ Says line.now (Heap form)) (λ form. Says line.now (Heap form)) }
{
    let (chunks, rest) = field(line, b"heap ")?;
    let (procs, rest) = field(rest, b" procs ")?;
    let (rate, rest) = field(rest, b" rate ")?;
    let (seed, rest) = field(rest, b" seed ")?;
    let (goal, rest) = field(rest, b" goal ")?;
    if !rest.is_empty() {
        return None;
    }
    Some(HeapForm {
        chunks,
        procs,
        rate,
        seed,
        goal,
    })
}

// The distance of a `gc` line.
fn gc_form(line: &[u8]) -> Option<u128>
    ensures { MatchOption result ((distance : ℕ) → ¬ Says line.now (Gc distance)) (λ distance. Says line.now (Gc distance)) }
{
    let (distance, rest) = field(line, b"gc ")?;
    if !rest.is_empty() {
        return None;
    }
    Some(distance)
}

// The first and the last object of an `m` line.
fn mark_form(line: &[u8]) -> Option<(u128, u128)>
    ensures { MatchOption result
        ((lo : ℕ) (hi : ℕ) → ¬ Says line.now (Mark lo hi))
        (λ found. Says line.now (Mark found.0 found.1)) }
{
    let (lo, rest) = field(line, b"m ")?;
    let (hi, rest) = field(rest, b" ")?;
    if !rest.is_empty() {
        return None;
    }
    Some((lo, hi))
}
