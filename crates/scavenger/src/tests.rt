//! Where scavenging stops, over one chunk.

ghost use Rattle.std.specs.Prelude.{[], ◌≡◌, IfOk};
ghost use Rattle.span_laws.specs.Asks.{IsAtWork};
ghost use Rattle.page_alloc.specs.Blocks.{open_blocks};
ghost use Rattle.page_alloc.specs.Journal.{IsBy};

use super::*;
use page_alloc::Pages;
use page_bitmap::Run;
use span_table::{Shared, Worker};
use std::alloc::Global;
use std::sync::Wait;
use std::test::Fail;

/// A region of one chunk with its driver.
fn fresh(alloc: Global, goal: u32) -> Result<(Shared, Worker), Fail>
    ensures { IfOk result (λ made. IsAtWork made.0 made.1) }
{
    Ok(Shared::new(alloc, 1, goal, 0)?)
}

/// Takes a span of so many pages, from 5 on.
fn take<R: Wait>(rt: &R, shared: &Shared, w: &mut Worker, pages: u32) -> Result<(), Fail>
    requires works { IsAtWork shared.now w.old }
    ensures works { IsAtWork shared.now w.new }
{
    if pages < 5 {
        return Err("no span is that small".into());
    }
    match shared.take_span(rt, w, pages, 1) {
        Ok(_) => Ok(()),
        Err(_) => Err("no run is free".into()),
    }
}

// The goal, the pages of the only span, which stay backed, and why the scavenger stops.
const TAKEN: [(u32, u32, Reason); 5] = [
    (0, 5, Reason::NoCandidate),
    (4, 5, Reason::NoCandidate),
    (5, 5, Reason::AtGoal),
    (511, 512, Reason::NoCandidate),
    (512, 512, Reason::AtGoal),
];

#[test]
fn taken_pages_stay_backed(rt: HostRuntime) -> Result<(), Fail> {
    for (goal, pages, reason) in TAKEN {
        let (shared, mut driver) = fresh(rt.alloc(), goal)?;
        take(&rt, &shared, &mut driver, pages)?;
        let stopped = scavenge_to(&rt, &shared, &mut driver)?;
        let answer = Stopped {
            backed: pages,
            reason,
        };
        assert_eq!(rt; stopped, answer, "goal {goal}, {pages} pages");
    }
    Ok(())
}

/// Pages 0 to 127 of one chunk, taken and given back.
fn freed(alloc: Global, goal: u32) -> Result<Pages, Fail>
    ensures by { IfOk result (λ pages. IsBy 0 pages.past) }
    ensures blocks { IfOk result (λ pages. open_blocks pages.past ≡ []) }
{
    let mut pages = Pages::new(alloc, 1, goal)?;
    pages.reserve_line()?;
    let Ok(page) = pages.take(0, 128, 1) else {
        return Err("no run is free".into());
    };
    if pages.owner(page) != Some(page) {
        return Err("the span begins elsewhere".into());
    }
    pages.give(0, page);
    Ok(pages)
}

// The two runs of these pages.
const HIGH: Option<Run> = Some(Run {
    page: 64,
    pages: 64,
});

const LOW: Option<Run> = Some(Run { page: 0, pages: 64 });

// The goal, and what three steps release.
const FREED: [(u32, [Option<Run>; 3]); 7] = [
    (0, [HIGH, LOW, None]),
    (63, [HIGH, LOW, None]),
    (64, [HIGH, None, None]),
    (100, [HIGH, None, None]),
    (127, [HIGH, None, None]),
    (128, [None, None, None]),
    (512, [None, None, None]),
];

#[test]
fn freed_pages_are_released_to_the_goal(rt: HostRuntime) -> Result<(), Fail> {
    for (goal, runs) in FREED {
        let mut pages = freed(rt.alloc(), goal)?;
        for run in runs {
            pages.reserve_line()?;
            assert_eq!(rt; pages.scavenge(0), run, "goal {goal}");
        }
    }
    Ok(())
}
