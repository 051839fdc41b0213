ghost use Rattle.std.specs.Prelude.{◌≡◌, ◌*◌, ◌<◌, ◌≤◌, [], true, None, OnOk, length};
ghost use Rattle.span_set.specs.Asks.{WorksIn};
ghost use Rattle.span_set.specs.Tallies.{Frees};
ghost use Rattle.sweeper.specs.Reclaims.{Reclaims};
ghost use Rattle.sweeper.specs.ReclaimSteps.{ReclaimsChunk, ReclaimsNext};

use crate::settle::settle;
use fallible_list::NoMemory;
use size_classes::{CHUNK_PAGES, MAX_PAGES};
use span_set::{Hand, Shop};
use span_state::Body;
use std::sync::Wait;

// How many pages the span of a body has.
fn pages_of(body: &Body) -> u32
    ensures { result ≡ body.now.pages }
{
    body.pages
}

// Sweeps the first span that waits and has no marked object, of those at the pages from one to another, without popping it. Answers the
// page behind its first page and the pages given back; none where there is no such span. There is room for a note, before and after.
fn reclaim_next<R: Wait>(
    rt: &R,
    shop: &Shop,
    hand: &mut Hand,
    from: u32,
    to: u32,
) -> Result<Option<(u32, u32)>, NoMemory>
    // the hand works in the shop, and has room
    requires works { WorksIn shop.now hand.old }
    requires unclaimed { hand.old.worker.view.own.claimed ≡ None }
    requires unpopped { hand.old.worker.view.own.popped ≡ [] }
    requires room { length hand.old.notes.items < hand.old.notes.space }

    // the pages
    requires order { from ≤ to }
    requires pages { to ≤ hand.old.worker.view.region }

    // what was done
    ensures did { ReclaimsNext from to hand.old hand.new result }
    ensures room { OnOk result (length hand.new.notes.items < hand.new.notes.space) }
    ensures tally { Frees shop.now.marks.now hand.old hand.new }
{
    let found = shop
        .shared
        .acquire_unmarked(&mut hand.worker, shop.marks, from, to);
    let Some(body) = found else {
        return Ok(None);
    };
    let behind = body.page + 1;
    let pages = pages_of(&body);
    settle(rt, shop, hand, body);
    hand.reserve_note()?;
    Ok(Some((behind, pages)))
}

// The same of all pages of a chunk, in rising order. Room for a note is made before the first page and behind each sweep.
fn reclaim_chunk<R: Wait>(
    rt: &R,
    shop: &Shop,
    hand: &mut Hand,
    chunk: u32,
    region: u32,
) -> Result<u32, NoMemory>
    // the hand works in the shop
    requires works { WorksIn shop.now hand.old }
    requires unclaimed { hand.old.worker.view.own.claimed ≡ None }
    requires unpopped { hand.old.worker.view.own.popped ≡ [] }

    // the chunk
    requires region { region ≡ hand.old.worker.view.region }
    requires few { region ≤ MAX_PAGES }
    requires chunk { 512 * chunk < region }

    // what was done
    ensures did { ReclaimsChunk chunk hand.old hand.new result }
    ensures tally { Frees shop.now.marks.now hand.old hand.new }
{
    let mut next = CHUNK_PAGES * chunk;
    let end = region.min(next + CHUNK_PAGES);
    let mut given: u32 = 0;
    hand.reserve_note()?;
    while let Some((behind, pages)) = reclaim_next(rt, shop, hand, next, end)? {
        given = given.saturating_add(pages);
        next = behind;
    }
    Ok(given)
}

/// Gives at least so many pages back before a new span is made, as far as it finds them (`mheap.go`, `reclaim`): it claims chunks of
/// 512 pages, and in each sweeps every span that waits and has no marked object, which goes back to the heap. It stops between
/// chunks: where it gave back as many pages as asked, where the claimed index passed the last chunk, or where it claimed as many
/// chunks as the region has.
///
/// Answers the pages given back, or 2^32 - 1 where there are more. After NoMemory the sweeps and the claims of chunks before stand.
pub fn reclaim<R: Wait>(rt: &R, shop: &Shop, hand: &mut Hand, pages: u32) -> Result<u32, NoMemory>
    requires works { WorksIn shop.now hand.old }
    requires unclaimed { hand.old.worker.view.own.claimed ≡ None }
    requires unpopped { hand.old.worker.view.own.popped ≡ [] }
    ensures did { Reclaims pages hand.old hand.new result }
    ensures tally { Frees shop.now.marks.now hand.old hand.new }
{
    let region = shop.shared.region(&hand.worker);
    let chunks = region.div_ceil(CHUNK_PAGES);
    let mut given: u32 = 0;
    for _ in 0..chunks {
        if given >= pages {
            return Ok(given);
        }
        let chunk = shop.shared.claim_chunk(&mut hand.worker);
        if chunk >= u64::from(chunks) {
            return Ok(given);
        }
        given = given.saturating_add(reclaim_chunk(rt, shop, hand, chunk as u32, region)?);
    }
    Ok(given)
}
