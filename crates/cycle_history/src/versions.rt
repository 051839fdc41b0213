//! What later versions of traces bring.

ghost use Rattle.std.specs.Prelude.{◌≡◌};
ghost use Rattle.cycle_history.specs.Requests.{caching_procs as caching_by};

use trace_reader::Trace;

/// The first version whose processors have page caches.
pub const CACHING_VERSION: u8 = 2;

/// The first version in which tiny objects share blocks.
pub const TINY_VERSION: u8 = 3;

/// How many processors of a trace have page caches: all of them from `CACHING_VERSION` on, and before that none.
pub fn caching_procs(trace: &Trace) -> u32
    ensures { result ≡ caching_by trace.now }
{
    if trace.header.version >= CACHING_VERSION {
        trace.header.procs
    } else {
        0
    }
}
