//! The first two lines, and the numbers of each line against their limits.

ghost use Rattle.std.specs.Prelude.{◌≡◌, ◌^◌, ◌<◌, ◌≤◌, [], ◌∷◌, List, ℕ, Some, IfErr, IfOk};
ghost use Rattle.std.specs.Option.{option_map};
ghost use Rattle.trace_reader.specs.declared.fault.TraceFault.TheVariants.{Limit};
ghost use Rattle.trace_reader.specs.declared.statement.Statement.{Statement as Said};
ghost use Rattle.trace_reader.specs.declared.statement.Statement.TheVariants.{Alloc, Gc, Heap, Mark, Title};
ghost use Rattle.trace_reader.specs.Spelling.{alloc_of, heap_of, mark_of};
ghost use Rattle.trace_reader.specs.Limits.{EventFits, HeaderFits, IsVersion, RegionFits, max_chunks as most_chunks, max_pages as most_pages};
ghost use Rattle.trace_reader.specs.Says.{said};
ghost use Rattle.trace_reader.specs.Checks.{event_numbers, header_numbers, numbers_within, passed};
ghost use Rattle.trace_reader.specs.Refusal.{said_fault};
ghost use Rattle.trace_reader.specs.Told.{NoReadFault};

use crate::fault::{TraceFault, Which};
use crate::span::Span;
use crate::statement::{AllocForm, HeapForm, Statement, statement_of};
use crate::trace::{Event, Header};
use size_classes::{MAX_CHUNKS, MAX_PAGES};

/// The latest version of the format. The first is 1.
pub const LATEST_VERSION: u8 = 3;

/// The chunks of the largest region of a trace of version 1.
pub const FIRST_MAX_CHUNKS: u32 = 128;

/// The largest goal of a trace of version 1, in pages: those of its largest region.
pub const FIRST_MAX_PAGES: u32 = 65536;

/// How many chunks the region of a trace of this version may have.
fn max_chunks(version: u8) -> u32
    ensures most { result ≡ most_chunks version }
    ensures any { result ≤ MAX_CHUNKS }
{
    if version == 1 {
        FIRST_MAX_CHUNKS
    } else {
        MAX_CHUNKS
    }
}

/// How many pages the goal of a trace of this version may have.
fn max_pages(version: u8) -> u32
    ensures most { result ≡ most_pages version }
    ensures any { result ≤ MAX_PAGES }
{
    if version == 1 {
        FIRST_MAX_PAGES
    } else {
        MAX_PAGES
    }
}

/// The version that the first line says, or what is wrong with it.
pub(crate) fn version_of(line: &[u8], number: u64) -> Result<u8, TraceFault>
    ensures says { IfOk result (λ version. said line.now ≡ Some (Title version)) }
    ensures version { IfOk result (λ version. IsVersion version) }
    ensures no_read { NoReadFault result }
    ensures fault { IfErr result (λ fault. said_fault number [] (said line.now) ≡ Some fault) }
{
    let Some(Statement::Title(version)) = statement_of(line) else {
        return Err(TraceFault::Malformed(number));
    };
    if version < 1 || version > u128::from(LATEST_VERSION) {
        return Err(TraceFault::Malformed(number));
    }
    Ok(version as u8)
}

/// The header that the second line has behind a first one of this version, or what is wrong with it.
pub(crate) fn header_of(line: &[u8], number: u64, version: u8) -> Result<Header, TraceFault>
    // what is known before
    requires { IsVersion version }

    // what is read
    ensures says { IfOk result (λ h. said line.now ≡ Some (heap_of h)) }
    ensures version { IfOk result (λ h. h.version ≡ version) }
    ensures fits { IfOk result (λ h. HeaderFits h) }
    ensures region { IfOk result (λ h. RegionFits h) }

    // why it is refused
    ensures no_read { NoReadFault result }
    ensures fault { IfErr result (λ fault. said_fault number (Title version ∷ []) (said line.now) ≡ Some fault) }
{
    let Some(Statement::Heap(form)) = statement_of(line) else {
        return Err(TraceFault::Malformed(number));
    };
    limited_header(form, number, version)
}

// The header of these numbers, or the first that is past its limit.
fn limited_header(form: HeapForm, number: u64, version: u8) -> Result<Header, TraceFault>
    // what is known before
    requires { IsVersion version }

    // what is read
    ensures version { IfOk result (λ h. h.version ≡ version) }
    ensures header { IfOk result (λ h. heap_of h ≡ Heap form) }
    ensures fits { IfOk result (λ h. HeaderFits h) }
    ensures region { IfOk result (λ h. RegionFits h) }

    // why it is refused
    ensures no_read { NoReadFault result }
    ensures fault { IfErr result (λ fault. option_map (λ which. Limit number which) (passed (header_numbers version form)) ≡ Some fault) }
{
    if form.chunks < 1 || form.chunks > u128::from(max_chunks(version)) {
        return Err(TraceFault::Limit(number, Which::Chunks));
    }
    if form.procs < 1 || form.procs > 64 {
        return Err(TraceFault::Limit(number, Which::Procs));
    }
    if form.rate > 1 << 30 {
        return Err(TraceFault::Limit(number, Which::Rate));
    }
    if form.seed > u128::from(u64::MAX) {
        return Err(TraceFault::Limit(number, Which::Seed));
    }
    if form.goal > u128::from(max_pages(version)) {
        return Err(TraceFault::Limit(number, Which::Goal));
    }
    Ok(Header {
        version,
        chunks: form.chunks as u32,
        procs: form.procs as u32,
        rate: form.rate as u64,
        seed: form.seed as u64,
        goal: form.goal as u32,
    })
}

/// The event of these numbers, or the first that is past its limit.
pub(crate) fn limited_event(form: AllocForm, number: u64, procs: u8) -> Result<Event, TraceFault>
    ensures event { IfOk result (λ e. alloc_of e ≡ Alloc form) }
    ensures fits { IfOk result (λ e. EventFits procs e) }
    ensures no_read { NoReadFault result }
    ensures fault { IfErr result (λ fault. option_map (λ which. Limit number which) (passed (event_numbers procs form)) ≡ Some fault) }
{
    if form.proc >= u128::from(procs) {
        return Err(TraceFault::Limit(number, Which::Proc));
    }
    if form.size > 1 << 40 {
        return Err(TraceFault::Limit(number, Which::Size));
    }
    if form.stack > 999_999 {
        return Err(TraceFault::Limit(number, Which::Stack));
    }
    Ok(Event {
        proc: form.proc as u8,
        size: form.size as u64,
        scan: form.scan,
        stack: form.stack as u32,
    })
}

/// The distance of a mark end, or that it is past its limit.
pub(crate) fn limited_distance(distance: u128, number: u64) -> Result<u64, TraceFault>
    ensures same { IfOk result (λ d. d ≡ distance) }
    ensures fits { IfOk result (λ d. (1 ≤ d) × (d ≤ 2 ^ 40)) }
    ensures no_read { NoReadFault result }
    ensures fault { IfErr result (λ fault. (past : List Said) → option_map (λ which. Limit number which) (passed (numbers_within past (Gc distance))) ≡ Some fault) }
{
    if distance < 1 || distance > 1 << 40 {
        return Err(TraceFault::Limit(number, Which::Distance));
    }
    Ok(distance as u64)
}

/// The span of these objects, or that one is past its limit.
pub(crate) fn limited_span(lo: u128, hi: u128, number: u64) -> Result<Span, TraceFault>
    ensures span { IfOk result (λ s. mark_of s ≡ Mark lo hi) }
    ensures fits { IfOk result (λ s. (s.lo ≤ 999999) × (s.hi ≤ 999999)) }
    ensures no_read { NoReadFault result }
    ensures fault { IfErr result (λ fault. (past : List Said) → option_map (λ which. Limit number which) (passed (numbers_within past (Mark lo hi))) ≡ Some fault) }
{
    if lo > 999_999 || hi > 999_999 {
        return Err(TraceFault::Limit(number, Which::Id));
    }
    Ok(Span {
        lo: lo as u32,
        hi: hi as u32,
    })
}
