//! The notes of a cycle in the order of a report.

ghost use Rattle.std.specs.Prelude.{◌≡◌, ◌++◌, [], List as Items, OnOk};
ghost use Rattle.std.specs.List.Sorted.{IsNonDecreasingBy, IsPermutation};
ghost use Rattle.span_state.specs.declared.sweep.SweepNote.{SweepNote};

use edge_io::{List, NoMemory};
use span_state::SweepNote;
use std::alloc::Global;
use sweep_lists::Entries;

/// Puts the notes of a cycle, which come in any order, behind those of the cycles before, by their pages; none are left.
pub(crate) fn file_notes(
    alloc: Global,
    notes: &mut Entries<SweepNote>,
    sweeps: &mut List<SweepNote>,
) -> Result<(), NoMemory>
    ensures { OnOk result ((notes.new.items ≡ []) × ((sorted : Items SweepNote) × (sweeps.new ≡ sweeps.old ++ sorted)
        × IsPermutation notes.old.items sorted × IsNonDecreasingBy (λ (n : SweepNote). n.page) sorted)) }
{
    let mut sorted = Vec::from_slice(alloc, notes.as_slice())?;
    sorted.sort_unstable_by_key(|note| note.page);
    for note in sorted.as_slice() {
        sweeps.push(*note)?;
    }
    notes.clear();
    Ok(())
}
