//! Rule 6: how small objects fill the lives of a cycle.

ghost use Rattle.std.specs.Prelude.{◌≡◌, ◌≤◌, ◌<◌, length, slice_index_or, IfErr, IfNone, IfOk, IfSome, MatchBool, OnOk, slice_set, Some as Just, None as Nothing};
ghost use Rattle.cycle_history.specs.Requests.{marked_by};
ghost use Rattle.cycle_history.specs.Rules.{AreFilled};
ghost use Rattle.report_check.specs.Placing.{BreaksFilling};
ghost use Rattle.report_check.specs.Tops.{lives_of};
ghost use Rattle.report_check.specs.Filling.{HasFillingRoom, IsEmptyFilling, IsTakenUp, filled_by, next_in as next_of, place_of_class};
ghost use Rattle.report_check.specs.Fitting.{AreHeld, IsFitting, IsFreeAt, FillsOther, IsOthers, IsOwn, IsStaying, IsUnfitting};

use crate::CheckFault;
use crate::items::Item;
use crate::objects::Objects;
use crate::piece::Piece;
use crate::tops::Tops;
use edge_io::NoMemory;
use std::alloc::Global;

/// The span classes: two for each of 68 size classes (`mheap.go`).
pub const SPAN_CLASSES: usize = 136;

// Of a life, the newest cycle in which it got small objects, and their processor. In that cycle each index below `next`
// is held.
#[derive(Clone, Copy, Debug)]
struct Fill {
    cycle: u32,
    proc: u32,
    next: u32,
}

// Of a processor's span class, the newest small object's cycle and life.
#[derive(Clone, Copy, Debug)]
struct Newest {
    cycle: u32,
    life: u64,
}

/// How far the lives are filled.
#[derive(Drop)]
pub struct Filling {
    /// Until which cycle each index is held.
    pub tops: Tops,
    // by the number of the life
    fills: Vec<Option<Fill>>,
    // by processor, and then by span class
    newest: Vec<Option<Newest>>,
}

impl Objects<'_> {
    ghost use Rattle.report_check.specs.Fault.{IsFaultOf};
    ghost use Rattle.report_check.specs.Items.{objects_of};
    ghost use Rattle.report_check.specs.Known.{AreKnownItems};
    ghost use Rattle.report_check.specs.Pieces.{seen_by};

    /// Whether each small object of the piece fills its life as it should: rule 6. It takes time in the objects and the marks.
    pub fn judge_filling(&self, alloc: Global, piece: Piece) -> Result<(), CheckFault>
        requires piece { 1 ≤ piece.count }
        requires known { AreKnownItems self.now.trace.now self.now.report.now self.now.items.now self.now.lasts.now }
        ensures filling { OnOk result (AreFilled (marked_by self.now.trace.now) (objects_of (seen_by piece self.now.items.now))) }
        ensures fault { IfErr result (IsFaultOf 6 (BreaksFilling (marked_by self.now.trace.now) (objects_of (seen_by piece self.now.items.now)))) }
    {
        let places = self.trace.header.procs as usize * SPAN_CLASSES;
        let mut filling = Filling::new(alloc, self.report.journal().len(), places)?;
        for number in 0..self.items.len() {
            let item = self.items[number];
            if piece.sees(&item) {
                if !filling.fits(&item) {
                    let line = number as u64 + 1;
                    return Err(CheckFault::Broken { rule: 6, line });
                }
                filling.take_up(&item, self.lasts[number])?;
            }
        }
        Ok(())
    }
}

impl Filling {
    /// Nothing is known of so many lives, and so many processors' span classes.
    pub fn new(alloc: Global, lives: usize, places: usize) -> Result<Filling, NoMemory>
        ensures room { IfOk result (λ filling. HasFillingRoom filling lives places) }
        ensures empty { IfOk result (λ filling. IsEmptyFilling filling) }
    {
        Ok(Filling {
            tops: Tops::new(alloc, lives)?,
            fills: vec![in alloc; None; lives]?,
            newest: vec![in alloc; None; places]?,
        })
    }

    /// Whether an object fills its life as it should, if it is small.
    pub fn fits(&self, item: &Item) -> bool
        requires life { item.now.life < length self.now.fills.items }
        requires place { place_of_class item.now.proc item.now.class < length self.now.newest.items }
        ensures { MatchBool result (2 ≤ item.now.class → IsFitting self.now item.now) ((2 ≤ item.now.class) × IsUnfitting self.now item.now) }
    {
        if item.class < 2 {
            return true;
        }
        let fill = self.fills[item.life as usize];
        if is_others(fill, item) {
            return false;
        }
        let next = next_in(fill, item.cycle);
        if !are_held(&self.tops, item.life, next, item.index, item.cycle) {
            return false;
        }
        match left_by(self.newest[place_of(item)], item) {
            Some(life) => are_held(&self.tops, life, 0, item.count, item.cycle),
            None => true,
        }
    }

    /// Takes up an object with its last cycle.
    pub fn take_up(&mut self, item: &Item, last: u32) -> Result<(), NoMemory>
        requires life { item.now.life < length self.old.fills.items }
        requires row { item.now.life < lives_of self.old.tops }
        requires place { place_of_class item.now.proc item.now.class < length self.old.newest.items }
        requires last { last < 20000 }
        requires index { item.now.index < 20000 }
        ensures { OnOk result (IsTakenUp self.old self.new item.now last) }
    {
        if item.class >= 2 {
            note(&mut self.fills, item);
            self.newest[place_of(item)] = Some(Newest {
                cycle: item.cycle,
                life: item.life,
            });
        }
        self.tops.raise(item.life, item.index, last + 1)
    }
}

// The place of the item's processor and span class.
fn place_of(item: &Item) -> usize
    ensures { result ≡ place_of_class item.now.proc item.now.class }
{
    item.proc as usize * SPAN_CLASSES + item.class as usize
}

// Notes that an object fills its life.
fn note(fills: &mut [Option<Fill>], item: &Item)
    requires life { item.now.life < length fills.old }
    requires index { item.now.index < 20000 }
    ensures { fills.new ≡ slice_set fills.old item.now.life (Just (filled_by (slice_index_or fills.old item.now.life Nothing) item.now)) }
{
    let next = next_in(fills[item.life as usize], item.cycle);
    fills[item.life as usize] = Some(Fill {
        cycle: item.cycle,
        proc: item.proc,
        next: next.max(item.index + 1),
    });
}

// Whether another processor fills the life in the object's cycle.
fn is_others(fill: Option<Fill>, item: &Item) -> bool
    ensures { MatchBool result (IsOthers fill item.now) (IsOwn fill item.now) }
{
    match fill {
        Some(fill) => fill.cycle == item.cycle && fill.proc != item.proc,
        None => false,
    }
}

// The index up to which a life is known to be held in the cycle.
fn next_in(fill: Option<Fill>, cycle: u32) -> u32
    ensures { result ≡ next_of fill cycle }
{
    match fill {
        Some(fill) => { if fill.cycle == cycle { fill.next } else { 0 } }
        None => 0,
    }
}

// The other life that the object's processor filled before, in this cycle.
fn left_by(newest: Option<Newest>, item: &Item) -> Option<u64>
    ensures left { IfSome result (λ life. FillsOther newest item.now life) }
    ensures staying { IfNone result (IsStaying newest item.now) }
{
    match newest {
        Some(newest) => {
            if newest.cycle == item.cycle && newest.life != item.life {
                Some(newest.life)
            } else {
                None
            }
        }
        None => None,
    }
}

// Whether each index of the life from low up to high is held in the cycle.
fn are_held(tops: &Tops, life: u64, low: u32, high: u32, cycle: u32) -> bool
    ensures { MatchBool result (AreHeld tops.now life low high cycle) (IsFreeAt tops.now life low high cycle) }
{
    for index in low..high {
        if tops.at(life, index) <= cycle {
            return false;
        }
    }
    true
}
