//! The order in which a report lists the buckets.

ghost use Rattle.std.specs.Prelude.{◌≡◌, map, IfOk};
ghost use Rattle.profile_lines.specs.declared.order.Keyed.{Keyed};
ghost use Rattle.profile_lines.specs.Read.{AreDifferent, IsOrder};
ghost use Rattle.profile_lines.specs.Keyed.{keyed_from};

use edge_io::{List, NoMemory};
use profile_cycle::Buckets;
use std::alloc::Global;

// A bucket with its number.
#[derive(Clone, Copy)]
struct Keyed {
    stack: u32,
    slot: u64,
    number: u32,
}

/// The numbers of all buckets, by their stacks, and for one stack by their slots.
pub fn order_of(alloc: Global, buckets: &Buckets) -> Result<List<u32>, NoMemory>
    requires { AreDifferent buckets.now }
    ensures { IfOk result (λ order. IsOrder buckets.now order) }
{
    let mut keyed = keyed_of(alloc, buckets)?;
    keyed.sort_unstable_by_key(|one| (one.stack, one.slot));
    let order = numbers_of(alloc, keyed.as_slice())?;
    Ok(List::from_vec(order))
}

// The buckets in the order of their numbers.
fn keyed_of(alloc: Global, buckets: &Buckets) -> Result<Vec<Keyed>, NoMemory>
    ensures { IfOk result (λ keyed. keyed.items ≡ keyed_from 0 buckets.now) }
{
    let mut keyed = Vec::new(alloc);
    for number in 0..buckets.len() {
        let (stack, slot) = buckets.key(number);
        keyed.push(Keyed {
            stack,
            slot,
            number,
        })?;
    }
    Ok(keyed)
}

// Their numbers alone.
fn numbers_of(alloc: Global, keyed: &[Keyed]) -> Result<Vec<u32>, NoMemory>
    ensures { IfOk result (λ numbers. numbers.items ≡ map (λ (k : Keyed). k.number) keyed.now) }
{
    Ok(keyed.iter().map(|one| one.number).collect(alloc)?)
}
