//! Random lines on three chunks, with page caches of two processors: those that a body finds that goes page by page are the ones that
//! the pages and the page caches make.

ghost use Rattle.std.specs.Prelude.{◌≡◌, ◌<◌, IfOk};
ghost use Rattle.report_check.specs.Replays.{IsReplay, region_in};

use crate::plain_body::{GOAL, PAGES, count, fill, loose, search, size_of};
use page_bitmap::{Line, Run};
use rand_core::utils::NextWord;
use rand_pcg::Pcg32;
use report_check::Replay;
use std::process::Abort;
use std::test::Fail;

/// The processors that have a page cache.
const PROCS: u32 = 2;

/// The pages of a block.
const BLOCK_PAGES: u32 = 64;

/// The pages of a region, each with its owner, and whether it is backed; and the first page of the block that each of two
/// processors has out. A page in a page cache has an owner too, which is no page.
#[derive(Drop)]
struct Plain {
    owners: Vec<Option<u32>>,
    backed: Vec<bool>,
    blocks: Vec<Option<u32>>,
    cuts: u32,
}

/// The owner of the pages that a processor has in its page cache.
fn cached_by(proc: u32) -> Option<u32> {
    Some(PAGES.saturating_add(proc))
}

/// The first run of `n` pages with this owner.
fn first_of(owners: &[Option<u32>], owner: Option<u32>, n: u32) -> Option<u32> {
    let mut run = 0u32;
    let mut end = 0u32;
    for other in owners {
        end = end.saturating_add(1);
        run = if *other == owner {
            run.saturating_add(1)
        } else {
            0
        };
        if run == n {
            return Some(end.saturating_sub(n));
        }
    }
    None
}

/// Gives the free pages of a block to the page cache of a processor, and answers how many they are.
fn pull_block(plain: &mut Plain, proc: u32, page: u32) -> u32 {
    let mut pages = 0u32;
    for (owner, backed) in plain
        .owners
        .iter_mut()
        .zip(plain.backed.iter_mut())
        .skip(page as usize)
        .take(BLOCK_PAGES as usize)
    {
        if owner.is_none() {
            *owner = cached_by(proc);
            *backed = true;
            pages = pages.saturating_add(1);
        }
    }
    pages
}

/// Takes all pages from an owner, and answers how many they were.
fn free_all(owners: &mut [Option<u32>], owner: Option<u32>) -> u32 {
    let mut pages = 0u32;
    for other in owners {
        if *other == owner {
            *other = None;
            pages = pages.saturating_add(1);
        }
    }
    pages
}

/// The replay takes this line.
fn comes(rt: &impl Abort, replay: &mut Replay, line: Line) -> Result<(), Fail>
    requires { IsReplay replay.old }
    ensures sound { IfOk result (λ _. IsReplay replay.new) }
    ensures region { IfOk result (λ _. region_in replay.new ≡ region_in replay.old) }
{
    let yes = replay.accept(line)?;
    assert!(rt; yes, "{line:?}");
    Ok(())
}

fn take(rt: &impl Abort, replay: &mut Replay, plain: &mut Plain, word: u32) -> Result<(), Fail>
    requires { IsReplay replay.old }
    ensures sound { IfOk result (λ _. IsReplay replay.new) }
    ensures region { IfOk result (λ _. region_in replay.new ≡ region_in replay.old) }
{
    let (pages, class) = size_of(word);
    let (first, _) = search(plain.owners.as_slice(), pages);
    let Some(page) = first else {
        return comes(
            rt,
            replay,
            Line::Miss {
                cycle: 0,
                pages,
                class,
            },
        );
    };
    fill(plain.owners.as_mut_slice(), Run { page, pages }, Some(page));
    fill(plain.backed.as_mut_slice(), Run { page, pages }, true);
    comes(
        rt,
        replay,
        Line::Take {
            cycle: 0,
            page,
            pages,
            class,
        },
    )
}

fn give(rt: &impl Abort, replay: &mut Replay, plain: &mut Plain, word: u32) -> Result<(), Fail>
    requires { IsReplay replay.old }
    ensures sound { IfOk result (λ _. IsReplay replay.new) }
    ensures region { IfOk result (λ _. region_in replay.new ≡ region_in replay.old) }
{
    let owner = plain.owners.get((word % PAGES) as usize).copied();
    let Some(Some(page)) = owner else {
        return Ok(());
    };
    if page >= PAGES {
        return Ok(());
    }
    let pages = count(plain.owners.as_slice(), page);
    fill(plain.owners.as_mut_slice(), Run { page, pages }, None);
    comes(
        rt,
        replay,
        Line::Give {
            cycle: 0,
            page,
            pages,
        },
    )
}

fn scavenge(rt: &impl Abort, replay: &mut Replay, plain: &mut Plain) -> Result<(), Fail>
    requires { IsReplay replay.old }
    ensures sound { IfOk result (λ _. IsReplay replay.new) }
    ensures region { IfOk result (λ _. region_in replay.new ≡ region_in replay.old) }
{
    let (top, backed) = loose(plain.owners.as_slice(), plain.backed.as_slice());
    let Some(run) = top else {
        return Ok(());
    };
    if backed <= GOAL {
        return Ok(());
    }
    fill(plain.backed.as_mut_slice(), run, false);
    comes(
        rt,
        replay,
        Line::Scav {
            cycle: 0,
            page: run.page,
            pages: run.pages,
        },
    )
}

fn pull(rt: &impl Abort, replay: &mut Replay, plain: &mut Plain, proc: u32) -> Result<(), Fail>
    requires { IsReplay replay.old }
    ensures sound { IfOk result (λ _. IsReplay replay.new) }
    ensures region { IfOk result (λ _. region_in replay.new ≡ region_in replay.old) }
{
    let Some(None) = plain.blocks.get(proc as usize).copied() else {
        return Ok(());
    };
    let (first, _) = search(plain.owners.as_slice(), 1);
    let Some(least) = first else {
        return Ok(());
    };
    let page = least - least % BLOCK_PAGES;
    let pages = pull_block(plain, proc, page);
    fill(
        plain.blocks.as_mut_slice(),
        Run {
            page: proc,
            pages: 1,
        },
        Some(page),
    );
    comes(
        rt,
        replay,
        Line::Pull {
            cycle: 0,
            proc,
            page,
            pages,
        },
    )
}

fn cut(
    rt: &impl Abort,
    replay: &mut Replay,
    plain: &mut Plain,
    proc: u32,
    word: u32,
) -> Result<(), Fail>
    requires { IsReplay replay.old }
    ensures sound { IfOk result (λ _. IsReplay replay.new) }
    ensures region { IfOk result (λ _. region_in replay.new ≡ region_in replay.old) }
{
    let (pages, class) = size_of(word);
    let first = first_of(plain.owners.as_slice(), cached_by(proc), pages);
    let Some(page) = first else {
        return Ok(());
    };
    if pages > 15 {
        return Ok(());
    }
    fill(plain.owners.as_mut_slice(), Run { page, pages }, Some(page));
    plain.cuts = plain.cuts.saturating_add(1);
    comes(
        rt,
        replay,
        Line::Cut {
            cycle: 0,
            proc,
            page,
            pages,
            class,
        },
    )
}

/// Up to three cuts of a processor's block, if it has one, and what is left of it goes back.
fn settle(
    rt: &impl Abort,
    replay: &mut Replay,
    plain: &mut Plain,
    proc: u32,
    word: u32,
) -> Result<(), Fail>
    requires { IsReplay replay.old }
    ensures sound { IfOk result (λ _. IsReplay replay.new) }
    ensures region { IfOk result (λ _. region_in replay.new ≡ region_in replay.old) }
{
    let Some(Some(page)) = plain.blocks.get(proc as usize).copied() else {
        return Ok(());
    };
    cut(rt, replay, plain, proc, word)?;
    cut(rt, replay, plain, proc, word / 4)?;
    cut(rt, replay, plain, proc, word / 16)?;
    fill(
        plain.blocks.as_mut_slice(),
        Run {
            page: proc,
            pages: 1,
        },
        None,
    );
    let pages = free_all(plain.owners.as_mut_slice(), cached_by(proc));
    comes(
        rt,
        replay,
        Line::Drop {
            cycle: 0,
            proc,
            page,
            pages,
        },
    )
}

fn step(rt: &impl Abort, replay: &mut Replay, plain: &mut Plain, word: u32) -> Result<(), Fail>
    requires { IsReplay replay.old }
    ensures sound { IfOk result (λ _. IsReplay replay.new) }
    ensures region { IfOk result (λ _. region_in replay.new ≡ region_in replay.old) }
{
    match word % 8 {
        0..2 => take(rt, replay, plain, word / 8),
        2..4 => give(rt, replay, plain, word / 8),
        4 => scavenge(rt, replay, plain),
        5 => pull(rt, replay, plain, word / 8 % PROCS),
        _ => settle(rt, replay, plain, word / 8 % PROCS, word / 16),
    }
}

/// The pages answer what the plain body has.
fn agree(rt: &impl Abort, replay: &Replay, plain: &Plain, page: u32)
    requires region { region_in replay.now ≡ 1536 }
    requires page { page < 1536 }
{
    let pages = replay.pages();
    let (_, longest) = search(plain.owners.as_slice(), 1);
    let (_, backed) = loose(plain.owners.as_slice(), plain.backed.as_slice());
    let taken = plain.owners.iter().filter(|owner| owner.is_some()).count();
    assert_eq!(rt; (pages.longest_free(), pages.backed()), (longest, backed));
    assert_eq!(rt; pages.taken() as usize, taken);
    let owner = match plain.owners.get(page as usize).copied() {
        Some(Some(first)) if first < PAGES => Some(first),
        _ => None,
    };
    assert_eq!(rt; pages.owner(page), owner, "owner of {page}");
}

#[test]
fn random_lines_are_those_of_a_plain_body(rt: HostRuntime) -> Result<(), Fail> {
    let alloc = rt.alloc();
    let mut replay = Replay::new(alloc, 3, PROCS, GOAL)?;
    let mut plain = Plain {
        owners: vec![in alloc; None; PAGES as usize]?,
        backed: vec![in alloc; false; PAGES as usize]?,
        blocks: vec![in alloc; None; PROCS as usize]?,
        cuts: 0,
    };
    let mut words = Pcg32::new(7, 2);
    for _ in 0..4000 {
        let word = words.next_word();
        step(&rt, &mut replay, &mut plain, word)?;
        agree(&rt, &replay, &plain, word / 8 % PAGES);
    }
    assert!(&rt; plain.cuts > 400, "{} cuts", plain.cuts);
    Ok(())
}
