//! The lines of the buckets in their order.

ghost use Rattle.std.specs.Prelude.{◌≡◌, ℕ, ◌^◌, ◌<◌, ◌≤◌, length, map, sum_by, IfOk};
ghost use Rattle.std.specs.List.{AllByRecursion};
ghost use Rattle.profile_cycle.specs.declared.buckets.Bucket.{Bucket as ABucket};
ghost use Rattle.profile_cycle.specs.declared.counts.Count.{Count as ACount};
ghost use Rattle.heap_text.specs.declared.order.Ranked.{Ranked as ARanked};
ghost use Rattle.heap_text.specs.Counting.{IsLimitedBucket, count_at, ranked_to};
ghost use Rattle.heap_text.specs.Lawful.{AreLawful};
ghost use Rattle.heap_text.specs.Published.{AreOrdered, bucket_at, told_of};

use crate::HeapLine;
use edge_io::{List, NoMemory};
use profile_cycle::{Buckets, Count};
use std::alloc::Global;

// A bucket's line with the bucket's number.
#[derive(Clone, Copy)]
struct Ranked {
    line: HeapLine,
    number: u32,
}

/// The lines of the buckets with allocations: those with more bytes in use first, and of those with as many the bucket of the lower
/// number.
pub(crate) fn lines_of(
    alloc: Global,
    buckets: &Buckets,
    counts: &[Count],
) -> Result<List<HeapLine>, NoMemory>
    requires buckets { AllByRecursion IsLimitedBucket buckets.now }
    requires size { length counts.now ≡ length buckets.now }
    requires few { sum_by (λ (c : ACount). c.allocs) counts.now ≤ 1000000 }
    requires freed { AllByRecursion (λ (c : ACount). c.frees ≤ c.allocs) counts.now }
    ensures ordered { IfOk result (λ lines. AreOrdered (length buckets.now) (λ n. told_of (bucket_at buckets.now n) (count_at counts.now n).allocs (count_at counts.now n).frees) lines) }
    ensures lawful { IfOk result (λ lines. AreLawful lines) }
{
    let mut ranked = ranked_of(alloc, buckets, counts)?;
    ranked.sort_unstable_by_key(|one| (u64::MAX - one.line.bytes, one.number));
    let lines = only_lines(alloc, ranked.as_slice())?;
    Ok(List::from_vec(lines))
}

// The lines in the order of their buckets' numbers.
fn ranked_of(alloc: Global, buckets: &Buckets, counts: &[Count]) -> Result<Vec<Ranked>, NoMemory>
    requires buckets { AllByRecursion IsLimitedBucket buckets.now }
    requires size { length counts.now ≡ length buckets.now }
    requires few { sum_by (λ (c : ACount). c.allocs) counts.now ≤ 1000000 }
    requires freed { AllByRecursion (λ (c : ACount). c.frees ≤ c.allocs) counts.now }
    ensures { IfOk result (λ ranked. ranked.items ≡ ranked_to (λ n. told_of (bucket_at buckets.now n) (count_at counts.now n).allocs (count_at counts.now n).frees) (length buckets.now)) }
{
    let mut ranked = Vec::new(alloc);
    for number in 0..buckets.len() {
        let count = counts[number as usize];
        if count.allocs > 0 {
            let (stack, slot) = buckets.key(number);
            ranked.push(Ranked {
                line: line_of(stack, slot, count),
                number,
            })?;
        }
    }
    Ok(ranked)
}

// The line of a bucket.
fn line_of(stack: u32, slot: u64, count: Count) -> HeapLine
    requires slot { slot ≤ 2 ^ 41 }
    requires few { count.allocs ≤ 1000000 }
    requires freed { count.frees ≤ count.allocs }
    ensures { result ≡ told_of (record { stack = stack; slot = slot }) count.allocs count.frees }
{
    let used = count.allocs - count.frees;
    HeapLine {
        objects: used,
        bytes: used * slot,
        all_objects: count.allocs,
        all_bytes: count.allocs * slot,
        stack,
    }
}

// The lines alone.
fn only_lines(alloc: Global, ranked: &[Ranked]) -> Result<Vec<HeapLine>, NoMemory>
    ensures { IfOk result (λ lines. lines.items ≡ map (λ (one : ARanked). one.line) ranked.now) }
{
    Ok(ranked.iter().map(|one| one.line).collect(alloc)?)
}
