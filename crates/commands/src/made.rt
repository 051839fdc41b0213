//! The text of a made trace.

ghost use Rattle.std.specs.Prelude.{◌≡◌, IsErrOf, OnOk};
ghost use Rattle.std.specs.Io.KnownBytes.{Appends};
ghost use Rattle.edge_io.specs.Causes.{Rose};
ghost use Rattle.edge_io.specs.Front.{AppendsFront};
ghost use Rattle.commands.specs.declared.made.MadeFault.TheVariants.{NoMemory, Failed};
ghost use Rattle.commands.specs.Asks.{made_text};

use crate::wanted::Wanted;
use edge_io::Sink;
use std::alloc::Global;
use trace_gen::{a_made_trace_is_within_limits, make_trace};
use trace_writer::print_trace;

/// Why the text was not written whole.
#[derive(Clone, Copy, Debug, PartialEq, Eq)]
pub enum MadeFault {
    /// Memory ran out, and nothing was written.
    NoMemory,
    /// The sink failed, and a front of the text was written.
    Failed,
}

/// Appends the one text of the made trace. It is made whole before a byte is written, so after [`MadeFault::NoMemory`]
/// nothing was appended; [`MadeFault::Failed`] comes only where the sink's count rose, and a front of the text was appended.
pub fn write_made<K: Sink>(alloc: Global, out: &mut K, wanted: Wanted) -> Result<(), MadeFault>
    ensures ok { OnOk result (Appends (K.held out.old) (K.held out.new) (made_text wanted.seed wanted.objects)) }
    ensures no_memory { IsErrOf result NoMemory → out.new ≡ out.old }
    ensures cause { IsErrOf result Failed → Rose (K.faults out.old) (K.faults out.new) }
    ensures front { IsErrOf result Failed → AppendsFront (K.held out.old) (K.held out.new) (made_text wanted.seed wanted.objects) }
{
    let Ok(trace) = make_trace(alloc, wanted.seed, wanted.objects) else {
        return Err(MadeFault::NoMemory);
    };
    a_made_trace_is_within_limits();
    match print_trace(out, &trace) {
        Ok(()) => Ok(()),
        Err(_) => Err(MadeFault::Failed),
    }
}
