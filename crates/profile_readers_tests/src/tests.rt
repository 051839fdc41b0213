//! What watchers see, on one thread and beside a publisher.

ghost use Rattle.std.specs.Prelude.{◌≡◌, ◌+◌, ◌≤◌, [], length, IfOk};

use edge_io::{List, NoMemory};
use profile_cycle::Count;
use profile_readers::{Board, Opened, Publisher, Sight, Told, Viewer, Watcher, board};
use std::alloc::Global;
use std::marker::Brand;
use std::process::Abort;
use std::sync::Wait;
use std::test::Fail;
use std::thread::{Threads, join};

const BUCKETS: u32 = 3;

// Each bucket of the profile that the publish of this number shows.
fn count_of(number: u32) -> Count {
    Count {
        allocs: 7 * u64::from(number),
        frees: 3 * u64::from(number),
    }
}

// The profile that the publish of this number shows.
fn counts_of(alloc: Global, number: u32) -> Result<List<Count>, NoMemory>
    ensures { IfOk result (λ l. length l ≡ 3) }
{
    let counts = Vec::from_elem(alloc, count_of(number), BUCKETS as usize)?;
    Ok(List::from_vec(counts))
}

// Whether each bucket has what the publish of this number shows.
fn is_whole(counts: &[Count], number: u32) -> bool {
    counts.len() == 3 && counts.iter().all(|count| *count == count_of(number))
}

// What a watcher sees, if that is a whole profile.
fn sight<B: Board>(watcher: &mut Watcher<B>, into: &mut List<Count>) -> Option<u32>
    requires { length into.old ≡ B.buckets }
    ensures { length into.new ≡ B.buckets }
{
    let number = watcher.see(into);
    is_whole(into.as_slice(), number).then_some(number)
}

// Sees, publishes, sees, publishes and sees.
fn by_turns<B: Board, R: Wait>(
    rt: &R,
    alloc: Global,
    publisher: &mut Publisher<B>,
    watcher: &mut Watcher<B>,
) -> Result<[Option<u32>; 3], NoMemory>
    requires buckets { B.buckets ≡ 3 }
    requires room { length publisher.old ≤ 100 }
{
    let mut into = counts_of(alloc, 9)?;
    let before = sight(watcher, &mut into);
    publisher.publish(rt, &counts_of(alloc, 1)?)?;
    let first = sight(watcher, &mut into);
    publisher.publish(rt, &counts_of(alloc, 2)?)?;
    let second = sight(watcher, &mut into);
    Ok([before, first, second])
}

fn saw_by_turns<B: Board, R: Wait + Abort>(
    rt: &R,
    alloc: Global,
    opened: Opened,
) -> Result<(), Fail>
    requires name { opened ≡ B.book }
    requires buckets { B.buckets ≡ 3 }
{
    let (mut publisher, watchers) = board::<B, R>(alloc, rt, opened, BUCKETS, 1)?;
    let mut watchers = watchers.into_vec();
    let seen = match watchers.pop() {
        Some(mut watcher) => by_turns(rt, alloc, &mut publisher, &mut watcher),
        None => Err(NoMemory),
    };
    publisher.close(rt);
    let [before, first, second] = seen.map_err(|_| "no memory")?;
    assert_eq!(rt; (before, first, second), (Some(0), Some(1), Some(2)));
    Ok(())
}

#[test]
fn each_publish_is_seen(rt: HostRuntime) -> Result<(), Fail> {
    saw_by_turns::<Brand, _>(&rt, rt.alloc(), Opened::new())
}

// What the sight of a publish has: three buckets of it.
fn sight_of(number: u32) -> Sight {
    Sight {
        k: number,
        allocs: 21 * u64::from(number),
        frees: 9 * u64::from(number),
    }
}

// Sees before the first publish, sees twice behind it, publishes twice more, and tells.
fn kept_by_turns<B: Board, R: Wait>(
    rt: &R,
    alloc: Global,
    publisher: &mut Publisher<B>,
    watcher: Watcher<B>,
) -> Result<List<Sight>, NoMemory>
    requires buckets { B.buckets ≡ 3 }
    requires room { length publisher.old ≤ 100 }
{
    let mut viewer = Viewer::new(alloc, watcher, BUCKETS, 4)?;
    viewer.watch(1);
    publisher.publish(rt, &counts_of(alloc, 1)?)?;
    viewer.watch(2);
    publisher.publish(rt, &counts_of(alloc, 2)?)?;
    publisher.publish(rt, &counts_of(alloc, 3)?)?;
    viewer.finish(publisher.tell()?)
}

fn kept_newer_sights<B: Board, R: Wait + Abort>(
    rt: &R,
    alloc: Global,
    opened: Opened,
) -> Result<(), Fail>
    requires name { opened ≡ B.book }
    requires buckets { B.buckets ≡ 3 }
{
    let (mut publisher, watchers) = board::<B, R>(alloc, rt, opened, BUCKETS, 1)?;
    let mut watchers = watchers.into_vec();
    let kept = match watchers.pop() {
        Some(watcher) => kept_by_turns(rt, alloc, &mut publisher, watcher),
        None => Err(NoMemory),
    };
    publisher.close(rt);
    let kept = kept.map_err(|_| "no memory")?;
    let sights = [sight_of(0), sight_of(1), sight_of(3)];
    assert!(rt; kept.as_slice() == sights.as_slice());
    Ok(())
}

#[test]
fn a_viewer_keeps_each_newer_sight(rt: HostRuntime) -> Result<(), Fail> {
    kept_newer_sights::<Brand, _>(&rt, rt.alloc(), Opened::new())
}

// Publishes twice, tells behind each, and closes. What each told says, and what a watcher sees that learnt the newer one first.
fn told_twice<B: Board, R: Wait>(
    rt: &R,
    alloc: Global,
    mut publisher: Publisher<B>,
    watcher: &mut Watcher<B>,
) -> Result<[Option<u32>; 4], NoMemory>
    requires buckets { B.buckets ≡ 3 }
    requires room { length publisher ≤ 100 }
{
    let older = told_of(rt, alloc, &mut publisher, 1);
    let newer = told_of(rt, alloc, &mut publisher, 2);
    publisher.close(rt);
    let (older, newer) = (older?, newer?);
    let numbers = (number_told(&older), number_told(&newer));
    let mut into = counts_of(alloc, 9)?;
    watcher.learn(newer);
    let seen = sight(watcher, &mut into);
    watcher.learn(older);
    Ok([numbers.0, numbers.1, seen, sight(watcher, &mut into)])
}

// Publishes, and tells.
fn told_of<B: Board, R: Wait>(
    rt: &R,
    alloc: Global,
    publisher: &mut Publisher<B>,
    number: u32,
) -> Result<Told<B>, NoMemory>
    requires buckets { B.buckets ≡ 3 }
    requires room { length publisher.old ≤ 101 }
    ensures { length publisher.new ≤ length publisher.old + 1 }
{
    publisher.publish(rt, &counts_of(alloc, number)?)?;
    publisher.tell()
}

// The number that is told, if the counts are those of its publish.
fn number_told<B: Board>(told: &Told<B>) -> Option<u32> {
    is_whole(told.counts(), told.number()).then_some(told.number())
}

fn learnt_after_the_close<B: Board, R: Wait + Abort>(
    rt: &R,
    alloc: Global,
    opened: Opened,
) -> Result<(), Fail>
    requires name { opened ≡ B.book }
    requires buckets { B.buckets ≡ 3 }
{
    let (publisher, watchers) = board::<B, R>(alloc, rt, opened, BUCKETS, 4)?;
    let mut watchers = watchers.into_vec();
    assert_eq!(rt; watchers.len(), 4);
    let Some(mut watcher) = watchers.pop() else {
        publisher.close(rt);
        return Err("no watcher".into());
    };
    let seen = told_twice(rt, alloc, publisher, &mut watcher).map_err(|_| "no memory")?;
    assert_eq!(rt; seen, [Some(1), Some(2), Some(2), Some(2)]);
    Ok(())
}

#[test]
fn a_watcher_shows_what_it_learnt(rt: HostRuntime) -> Result<(), Fail> {
    learnt_after_the_close::<Brand, _>(&rt, rt.alloc(), Opened::new())
}

const PUBLISHES: u32 = 300;

const SIGHTS: u32 = 2000;

// Shows so many profiles, one after another.
fn publish_all<B: Board, R: Wait>(
    rt: &R,
    alloc: Global,
    publisher: &mut Publisher<B>,
) -> Result<(), NoMemory>
    requires buckets { B.buckets ≡ 3 }
    requires none { publisher.old ≡ [] }
{
    for number in 0..PUBLISHES {
        publisher.publish(rt, &counts_of(alloc, number + 1)?)?;
    }
    Ok(())
}

// Sees so often. `None` where a profile wasn't whole, or older than the one before.
fn see_all<B: Board>(alloc: Global, watcher: &mut Watcher<B>) -> Result<Option<u32>, NoMemory>
    requires buckets { B.buckets ≡ 3 }
{
    let mut into = counts_of(alloc, 0)?;
    let mut last = 0;
    for _ in 0..SIGHTS {
        match sight(watcher, &mut into) {
            Some(number) if number >= last => last = number,
            _ => return Ok(None),
        }
    }
    Ok(Some(last))
}

// What a watcher sees when all was published.
fn last_sight<B: Board>(alloc: Global, watcher: &mut Watcher<B>) -> Result<Option<u32>, NoMemory>
    requires buckets { B.buckets ≡ 3 }
{
    let mut into = counts_of(alloc, 0)?;
    Ok(sight(watcher, &mut into))
}

// Publishes in one thread, and sees in two others. Whether each sight was of a whole profile, none older than the one before;
// and what the watchers see in the end.
fn side_by_side<B: Board + Send + Sync, R: Threads + Wait + Sync>(
    rt: &R,
    alloc: Global,
    publisher: &mut Publisher<B>,
    one: &mut Watcher<B>,
    other: &mut Watcher<B>,
) -> Result<(bool, [Option<u32>; 2]), NoMemory>
    requires buckets { B.buckets ≡ 3 }
    requires none { publisher.old ≡ [] }
{
    let (published, (first, second)) = join(
        rt,
        || -> Result<(), NoMemory>
            requires { (B.buckets ≡ 3) × (publisher.now ≡ []) }
        { publish_all(rt, alloc, publisher) },
        || -> (Result<Option<u32>, NoMemory>, Result<Option<u32>, NoMemory>)
            requires { B.buckets ≡ 3 }
        { (see_all(alloc, one), see_all(alloc, other)) },
    );
    published?;
    let whole = first?.is_some() && second?.is_some();
    Ok((whole, [last_sight(alloc, one)?, last_sight(alloc, other)?]))
}

fn seen_in_threads<B: Board + Send + Sync, R: Threads + Wait + Abort + Sync>(
    rt: &R,
    alloc: Global,
    opened: Opened,
) -> Result<(), Fail>
    requires name { opened ≡ B.book }
    requires buckets { B.buckets ≡ 3 }
{
    let (mut publisher, watchers) = board::<B, R>(alloc, rt, opened, BUCKETS, 2)?;
    let mut watchers = watchers.into_vec();
    let seen = match (watchers.pop(), watchers.pop()) {
        (Some(mut one), Some(mut other)) => {
            side_by_side(rt, alloc, &mut publisher, &mut one, &mut other)
        }
        _ => Err(NoMemory),
    };
    publisher.close(rt);
    let (whole, last) = seen.map_err(|_| "no memory")?;
    assert!(rt; whole);
    assert_eq!(rt; last, [Some(PUBLISHES), Some(PUBLISHES)]);
    Ok(())
}

#[test]
fn threads_see_whole_profiles_in_order(rt: HostRuntime) -> Result<(), Fail> {
    seen_in_threads::<Brand, _>(&rt, rt.alloc(), Opened::new())
}
