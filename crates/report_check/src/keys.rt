//! Which sweeps are printed, by cycle and page.

ghost use Rattle.std.specs.Prelude.{◌≡◌, ◌^◌, ◌<◌, Bool, true, List as Notes, IfOk, MatchBool};
ghost use Rattle.span_state.specs.declared.sweep.SweepNote.{SweepNote as Note};
ghost use Rattle.report_check.specs.Sweeping.{HasNote, key_of as key_in};

use edge_io::NoMemory;
use span_state::SweepNote;
use std::alloc::Global;
use std::collections::HashSet;

/// The cycles and pages of some of the printed sweeps.
#[derive(Drop)]
pub(crate) struct Keys {
    keys: HashSet<u64>,
}

impl Keys {
    ghost use Rattle.report_check.specs.Keys.{AreKeys};

    /// Those of all sweeps, or of those alone that kept nothing.
    pub(crate) fn of(alloc: Global, sweeps: &[SweepNote], empty: bool) -> Result<Keys, NoMemory>
        ensures { IfOk result (λ keys. AreKeys empty sweeps.now keys) }
    {
        let mut keys = HashSet::new(alloc);
        for note in sweeps {
            if is_wanted(*note, empty) {
                keys.insert(key_of(note.cycle, note.page))?;
            }
        }
        Ok(Keys { keys })
    }

    /// Whether the cycle and page are among them.
    pub(crate) fn has(&self, cycle: u32, page: u32) -> bool
        ensures { (empty : Bool) (sweeps : Notes Note) → AreKeys empty sweeps self.now
            → MatchBool result (HasNote (λ note. empty ≡ true → note.kept ≡ 0) sweeps cycle page) (¬ HasNote (λ note. empty ≡ true → note.kept ≡ 0) sweeps cycle page) }
    {
        let key = key_of(cycle, page);
        self.keys.contains(&key)
    }
}

/// The pages that a number of 32 bits can name.
const PAGES: u64 = 4_294_967_296;

// A cycle and a page as one number.
fn key_of(cycle: u32, page: u32) -> u64
    ensures key { result ≡ key_in cycle page }
    ensures page { page < 2 ^ 32 }
{
    u64::from(cycle) * PAGES + u64::from(page)
}

// Whether the sweep's key is wanted.
fn is_wanted(note: SweepNote, empty: bool) -> bool
    ensures { MatchBool result (empty ≡ true → note.kept ≡ 0) (¬ (empty ≡ true → note.kept ≡ 0)) }
{
    !empty || note.kept == 0
}
