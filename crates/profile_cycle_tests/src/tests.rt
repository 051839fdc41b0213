ghost use Rattle.std.specs.Prelude.{◌≡◌};
ghost use Rattle.profile_cycle_tests.specs.Rows.{IsOut};

use edge_io::NoMemory;
use profile_cycle::{Count, Ring, Sampler, Tally};
use std::alloc::Global;
use std::test::Fail;
use std::thread::join;

#[test]
fn sampler_at_rates_0_and_1(rt: HostRuntime) {
    let mut none = Sampler::new(0, 7, 3);
    let mut all = Sampler::new(1, 7, 3);
    for _ in 0..100 {
        assert!(rt; !none.sample(8));
        assert!(rt; all.sample(8));
    }
}

// What is published of a bucket behind some calls: an allocation, a free, a mark end (`m`) or a sweep.
fn published_after(alloc: Global, calls: &str) -> Result<Count, NoMemory> {
    let (mut ring, mut tally) = Ring::new(alloc, 1)?;
    for call in calls.bytes() {
        match call {
            b'a' => ring.allocated(&mut tally, 0),
            b'f' => ring.freed(&mut tally, 0),
            b'm' => ring.next_cycle(&mut tally),
            _ => ring.after_sweep(&mut tally),
        }
    }
    Ok(ring.published(&mut tally, 0))
}

// Each row is worked by hand from the rule: an allocation is published two cycles on, a free one cycle on, and a sweep
// publishes the cycle that follows.
#[test]
fn histories(rt: HostRuntime) -> Result<(), Fail> {
    let rows = [
        ("", 0, 0),
        ("aaf", 0, 0),
        // a mark end alone doesn't publish the cycle before it, and the sweep behind it does
        ("am", 0, 0),
        ("ams", 1, 0),
        ("aaamffs", 3, 2),
        // an allocation behind the mark end waits for the next
        ("amas", 1, 0),
        ("amasm", 1, 0),
        ("amasms", 2, 0),
        // a mark end with no sweep, and two in a row
        ("amfm", 1, 1),
        ("amm", 1, 0),
        ("amafmm", 2, 1),
        // a free before its allocation is published
        ("afs", 0, 1),
        ("afm", 0, 1),
        ("afsm", 0, 1),
        ("afsms", 1, 1),
        // a free behind the sweep waits for the next mark end
        ("amsf", 1, 0),
        ("amsfm", 1, 1),
        // nothing is published twice
        ("amfssms", 1, 1),
        ("ammmsss", 1, 0),
    ];
    for (calls, allocs, frees) in rows {
        let count = published_after(rt.alloc(), calls)?;
        assert_eq!(rt;
            (count.allocs, count.frees),
            (allocs, frees),
            "after {calls}"
        );
    }
    Ok(())
}

// Two tallies count at once, and are joined in the other order: what is published of both buckets behind a mark end and
// a sweep.
fn two_tallies(alloc: Global) -> Result<(Count, Count), NoMemory> {
    let (mut ring, mut driver) = Ring::new(alloc, 2)?;
    let mut first = ring.split(&mut driver)?;
    let mut second = ring.split(&mut driver)?;
    ring.allocated(&mut first, 0);
    ring.allocated(&mut second, 1);
    ring.allocated(&mut second, 0);
    ring.join(&mut driver, second);
    ring.join(&mut driver, first);
    ring.next_cycle(&mut driver);
    let mut sweeper = ring.split(&mut driver)?;
    ring.freed(&mut sweeper, 0);
    ring.allocated(&mut sweeper, 1);
    ring.join(&mut driver, sweeper);
    ring.after_sweep(&mut driver);
    let zero = ring.published(&mut driver, 0);
    let one = ring.published(&mut driver, 1);
    Ok((zero, one))
}

#[test]
fn tallies_are_joined(rt: HostRuntime) -> Result<(), Fail> {
    let counts = two_tallies(rt.alloc())?;
    let zero = Count {
        allocs: 2,
        frees: 1,
    };
    let one = Count {
        allocs: 1,
        frees: 0,
    };
    assert_eq!(rt; counts, (zero, one));
    Ok(())
}

// What a worker counts in its thread: allocations of bucket 0, and frees of bucket 1.
fn count_many(ring: &Ring, mut tally: Tally) -> Tally
    requires buckets { ring.now.buckets ≡ 2 }
    requires tally { IsOut ring.now tally }
    ensures { IsOut ring.now result }
{
    for _ in 0..1000 {
        ring.allocated(&mut tally, 0);
        ring.freed(&mut tally, 1);
    }
    tally
}

// Two tallies count in threads of their own, on the same two words. Each schedule publishes the same numbers.
#[test]
fn tallies_count_side_by_side(rt: HostRuntime) -> Result<(), Fail> {
    let (mut ring, mut driver) = Ring::new(rt.alloc(), 2)?;
    let first = ring.split(&mut driver)?;
    let second = ring.split(&mut driver)?;
    let (first, second) = join(
        &rt,
        || count_many(&ring, first),
        || count_many(&ring, second),
    );
    ring.join(&mut driver, first);
    ring.join(&mut driver, second);
    ring.allocated(&mut driver, 0);
    ring.next_cycle(&mut driver);
    let zero = ring.published(&mut driver, 0);
    let one = ring.published(&mut driver, 1);
    assert_eq!(rt; (zero.allocs, zero.frees), (0, 0));
    assert_eq!(rt; (one.allocs, one.frees), (0, 2000));
    ring.after_sweep(&mut driver);
    let zero = ring.published(&mut driver, 0);
    let one = ring.published(&mut driver, 1);
    assert_eq!(rt; (zero.allocs, zero.frees), (2001, 0));
    assert_eq!(rt; (one.allocs, one.frees), (0, 2000));
    Ok(())
}
