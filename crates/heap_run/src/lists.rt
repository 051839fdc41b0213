//! Lists that are empty at first, and grow by many items at once.

ghost use Rattle.std.specs.Prelude.{◌≡◌, ℕ, [], ◌++◌, replicate, slice_index_or, vec_len, IfOk, OnOk};

use edge_io::{List, NoMemory};
use std::alloc::Global;
use std::mem::replace;

/// An empty list for each processor, with room for so many items.
pub(crate) fn empty_lists<T: Drop>(
    alloc: Global,
    procs: u32,
    room: usize,
) -> Result<Vec<List<T>>, NoMemory>
    ensures length { IfOk result (λ lists. vec_len lists ≡ procs) }
    ensures empty { IfOk result (λ lists. (w : ℕ) → slice_index_or lists.items w [] ≡ []) }
{
    let mut lists = Vec::new(alloc);
    for _proc in 0..procs {
        lists.push(List::with_room(alloc, room)?)?;
    }
    Ok(lists)
}

/// Puts so many zeros behind the numbers of a list.
pub(crate) fn append_zeros(
    alloc: Global,
    list: &mut List<u32>,
    count: usize,
) -> Result<(), NoMemory>
    ensures { OnOk result (list.new ≡ list.old ++ replicate count 0) }
{
    let mut items = replace(list, List::new(alloc)).into_vec();
    let grown = items.resize(items.len().saturating_add(count), 0);
    *list = List::from_vec(items);
    grown?;
    Ok(())
}
