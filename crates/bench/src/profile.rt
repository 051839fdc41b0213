//! Calls of the sampled profile: what `bench/profile.sh` times. The words `sample RATE CALLS` ask a processor's sampler
//! about so many objects of mixed slots; `allocated BUCKETS CALLS` counts so many allocations, of all buckets in turn, and
//! `freed BUCKETS CALLS` so many frees. How many objects were sampled, or are published of bucket 0 behind two mark ends,
//! is answered.

ghost use Rattle.std.specs.Prelude.{◌^◌, ◌<◌, ◌≤◌};

use crate::stop::Stop;
use fallible_list::NoMemory;
use profile_cycle::{Ring, Sampler};
use std::alloc::Global;

/// The greatest sampling rate in bytes.
const MOST_RATE: u64 = 1 << 30;

pub fn asked(alloc: Global, words: &[String]) -> Result<u64, Stop> {
    let [work, number, calls] = words else {
        return Err(Stop::Words);
    };
    let (Ok(number), Ok(calls)) = (number.parse::<u32>(), calls.parse::<u64>()) else {
        return Err(Stop::Words);
    };
    match work.as_str() {
        "sample" if u64::from(number) <= MOST_RATE => Ok(sampled(u64::from(number), calls)),
        "allocated" if number > 0 => Ok(allocated(alloc, number, calls)?),
        "freed" if number > 0 => Ok(freed(alloc, number, calls)?),
        _ => Err(Stop::Words),
    }
}

/// At rate 1 each of 10 objects is sampled, and of 30 calls that go over 10 buckets in turn each has 3.
pub fn few(alloc: Global) -> Result<u64, NoMemory> {
    let objects = sampled(1, 10);
    let objects = objects.saturating_add(allocated(alloc, 10, 30)?);
    Ok(objects.saturating_add(freed(alloc, 10, 30)?))
}

// How many of so many objects of 8 to 512 bytes are sampled at this rate.
fn sampled(rate: u64, calls: u64) -> u64
    requires { rate ≤ 2 ^ 30 }
{
    let mut sampler = Sampler::new(rate, 1, 0);
    let mut sampled = 0u64;
    for call in 0..calls {
        if sampler.sample(8 + 8 * (call % 64)) {
            sampled = sampled.saturating_add(1);
        }
    }
    sampled
}

// The allocations that are published of bucket 0, where so many were counted.
fn allocated(alloc: Global, buckets: u32, calls: u64) -> Result<u64, NoMemory>
    requires { 1 ≤ buckets }
{
    let (mut ring, mut tally) = Ring::new(alloc, buckets)?;
    let mut bucket = 0;
    for _ in 0..calls {
        ring.allocated(&mut tally, bucket);
        bucket = next_bucket(bucket, buckets);
    }
    ring.next_cycle(&mut tally);
    ring.next_cycle(&mut tally);
    Ok(ring.published(&mut tally, 0).allocs)
}

// The same of frees.
fn freed(alloc: Global, buckets: u32, calls: u64) -> Result<u64, NoMemory>
    requires { 1 ≤ buckets }
{
    let (mut ring, mut tally) = Ring::new(alloc, buckets)?;
    let mut bucket = 0;
    for _ in 0..calls {
        ring.freed(&mut tally, bucket);
        bucket = next_bucket(bucket, buckets);
    }
    ring.next_cycle(&mut tally);
    ring.next_cycle(&mut tally);
    Ok(ring.published(&mut tally, 0).frees)
}

fn next_bucket(bucket: u32, buckets: u32) -> u32
    requires { bucket < buckets }
    ensures { result < buckets }
{
    if bucket + 1 < buckets { bucket + 1 } else { 0 }
}
