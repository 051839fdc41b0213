//! Which calls of a stream in memory fail.

ghost use Rattle.std.specs.Prelude.{◌≡◌};
ghost use Rattle.edge_io.specs.MemoryStreams.{is_listed};

use fallible_list::List;

// Whether the call of this number fails by its list.
pub(super) fn is_listed(failing: &List<u64>, call: u64) -> bool
    ensures { result ≡ is_listed failing.now call }
{
    call < u64::MAX && failing.as_slice().contains(&call)
}
