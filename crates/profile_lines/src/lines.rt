//! The lines of a mark end, read from the ring.

ghost use Rattle.std.specs.Prelude.{◌≡◌, ◌<◌, ◌≤◌, true, [], ◌∷◌, ◌++◌, length, map, IfOk, OnOk};
ghost use Rattle.profile_lines.specs.Read.{AreFew, IsOrder, all_lines, changed_lines, count_of, line_of};

use cycle_history::Prof;
use edge_io::{List, NoMemory};
use profile_cycle::{Buckets, Count, Ring, Tally};

/// Appends the lines of a mark end of all buckets of which allocations are published, in the order of the buckets. The driver's
/// tally, of which no other is split off, stays as it was. Without memory some of the lines are appended.
pub fn add_all(
    ring: &Ring,
    tally: &mut Tally,
    buckets: &Buckets,
    order: &[u32],
    mark: u32,
    lines: &mut List<Prof>,
) -> Result<(), NoMemory>
    // the tally
    requires ring { tally.old.ring ≡ ring.now }
    requires drives { tally.old.view.drives ≡ true }
    requires alone { tally.old.view.out ≡ 0 }
    requires few { AreFew (length buckets.now) tally.old.view.calls }

    // the buckets, and their order
    requires buckets { length buckets.now ≤ ring.now.buckets }
    requires order { IsOrder buckets.now order.now }

    // the tally, as it was
    ensures tally { tally.new ≡ tally.old }

    // the lines
    ensures lines { OnOk result (lines.new ≡ lines.old ++ all_lines buckets.now tally.old.view.calls mark order.now) }
{
    for number in order {
        add_if_any(ring, tally, buckets, *number, mark, lines)?;
    }
    Ok(())
}

/// Appends the lines of a mark end of the buckets whose published numbers are others than `before`, in the order of the buckets,
/// and makes `before` the published numbers. Both the numbers and the lines stand in the order that is given. The driver's tally,
/// of which no other is split off, stays as it was. Without memory this is done for some of the buckets.
pub fn add_changed(
    ring: &Ring,
    tally: &mut Tally,
    buckets: &Buckets,
    order: &[u32],
    mark: u32,
    before: &mut [Count],
    lines: &mut List<Prof>,
) -> Result<(), NoMemory>
    // the tally
    requires ring { tally.old.ring ≡ ring.now }
    requires drives { tally.old.view.drives ≡ true }
    requires alone { tally.old.view.out ≡ 0 }
    requires few { AreFew (length buckets.now) tally.old.view.calls }

    // the buckets, their order and the numbers before
    requires buckets { length buckets.now ≤ ring.now.buckets }
    requires order { IsOrder buckets.now order.now }
    requires before { length before.old ≡ length order.now }

    // the tally, as it was
    ensures tally { tally.new ≡ tally.old }

    // the numbers, and the lines
    ensures before { OnOk result (before.new ≡ map (count_of tally.old.view.calls) order.now) }
    ensures lines { OnOk result (lines.new ≡ lines.old ++ changed_lines buckets.now tally.old.view.calls mark order.now before.old) }
{
    for (place, number) in order.iter().enumerate() {
        let was = before[place];
        before[place] = add_if_changed(ring, tally, buckets, *number, mark, was, lines)?;
    }
    Ok(())
}

// Appends the line of a bucket if allocations of it are published.
fn add_if_any(
    ring: &Ring,
    tally: &mut Tally,
    buckets: &Buckets,
    number: u32,
    mark: u32,
    lines: &mut List<Prof>,
) -> Result<(), NoMemory>
    // the tally
    requires ring { tally.old.ring ≡ ring.now }
    requires drives { tally.old.view.drives ≡ true }
    requires alone { tally.old.view.out ≡ 0 }
    requires few { AreFew (length buckets.now) tally.old.view.calls }

    // the bucket
    requires buckets { length buckets.now ≤ ring.now.buckets }
    requires number { number < length buckets.now }

    // the tally, as it was
    ensures tally { tally.new ≡ tally.old }

    // the lines
    ensures lines { OnOk result (lines.new ≡ lines.old ++ all_lines buckets.now tally.old.view.calls mark (number ∷ [])) }
{
    let now = published(ring, tally, buckets, number);
    if now.allocs > 0 {
        lines.push(line(buckets, number, mark, now))?;
    }
    Ok(())
}

// Appends the line of a bucket if its published numbers are others than before, and answers them.
fn add_if_changed(
    ring: &Ring,
    tally: &mut Tally,
    buckets: &Buckets,
    number: u32,
    mark: u32,
    was: Count,
    lines: &mut List<Prof>,
) -> Result<Count, NoMemory>
    // the tally
    requires ring { tally.old.ring ≡ ring.now }
    requires drives { tally.old.view.drives ≡ true }
    requires alone { tally.old.view.out ≡ 0 }
    requires few { AreFew (length buckets.now) tally.old.view.calls }

    // the bucket
    requires buckets { length buckets.now ≤ ring.now.buckets }
    requires number { number < length buckets.now }

    // the tally, as it was
    ensures tally { tally.new ≡ tally.old }

    // the answer, and the lines
    ensures count { IfOk result (λ now. now ≡ count_of tally.old.view.calls number) }
    ensures lines { OnOk result (lines.new ≡ lines.old ++ changed_lines buckets.now tally.old.view.calls mark (number ∷ []) (was ∷ [])) }
{
    let now = published(ring, tally, buckets, number);
    if was.allocs != now.allocs || was.frees != now.frees {
        lines.push(line(buckets, number, mark, now))?;
    }
    Ok(now)
}

// What is published of a bucket.
fn published(ring: &Ring, tally: &mut Tally, buckets: &Buckets, number: u32) -> Count
    // the tally
    requires ring { tally.old.ring ≡ ring.now }
    requires drives { tally.old.view.drives ≡ true }
    requires alone { tally.old.view.out ≡ 0 }
    requires few { AreFew (length buckets.now) tally.old.view.calls }

    // the bucket
    requires buckets { length buckets.now ≤ ring.now.buckets }
    requires number { number < length buckets.now }

    // the tally, as it was
    ensures tally { tally.new ≡ tally.old }

    // the answer
    ensures count { result ≡ count_of tally.old.view.calls number }
{
    ring.published(tally, number)
}

// The line of a bucket with these numbers.
fn line(buckets: &Buckets, number: u32, mark: u32, now: Count) -> Prof
    requires { number < length buckets.now }
    ensures { result ≡ line_of buckets.now mark number now }
{
    let (stack, size) = buckets.key(number);
    Prof {
        mark,
        stack,
        size,
        allocs: now.allocs,
        frees: now.frees,
    }
}
