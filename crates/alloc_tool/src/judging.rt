//! Judging a report that stands behind its trace.

ghost use Rattle.std.specs.Prelude.{◌≡◌, ◌⊎◌, IfErr, OnOk};
ghost use Rattle.std.specs.Io.KnownBytes.{Appends};
ghost use Rattle.edge_io.specs.Causes.{Rose};
ghost use Rattle.edge_io.specs.Front.{AppendsFront};
ghost use Rattle.commands.specs.Judged.{IsSound, Stops};
ghost use Rattle.commands.specs.Pair.{BreaksOff, HasReadCause, IsReadFault};
ghost use Rattle.report_check.specs.Versions.{BreaksVersion, MeetsVersion};
ghost use Rattle.alloc_tool.specs.Checked.{Checked, check_text};
ghost use Rattle.commands.specs.Texts.{status_text};
ghost use Rattle.commands.specs.Told.{Tells};

use check_parallel::check_version_parallel;
use commands::{Judge, Stop, Verdict, check_input, read_pair, refuse_pair, stop_writing};
use cycle_history::Report;
use edge_io::{Sink, Source, write_all};
use report_check::{CheckFault, Pieces, check_version};
use std::alloc::Global;
use std::thread::Threads;
use trace_reader::Trace;

/// The rules of a sound report, by the trace's version.
struct Rules;

impl Judge for Rules {
    ghost Sound = { MeetsVersion };

    ghost Broken = { BreaksVersion };

    fn judge(&self, alloc: Global, trace: &Trace, report: &Report) -> Result<(), Verdict> {
        match check_version(alloc, trace, report) {
            Ok(()) => Ok(()),
            Err(CheckFault::Broken { rule, line }) => Err(Verdict::Broken { rule, line }),
            Err(CheckFault::NoMemory) => Err(Verdict::NoMemory),
        }
    }
}

/// Reads a trace, and behind it a report, judges the report, and writes `check ok` where it is sound.
pub(crate) fn judge_report<S: Source, K: Sink, E: Sink>(
    alloc: Global,
    input: &mut S,
    output: &mut K,
    errors: &mut E,
) -> u8
    ensures { Checked S.left S.faults K.held K.faults E.held E.faults input.old input.new output.old output.new errors.old errors.new result }
{
    match check_input(alloc, input, &Rules) {
        Ok(()) => say_ok(output, errors),
        Err(stop) => refuse_pair(errors, stop),
    }
}

/// The same, but that the report is judged in so many pieces.
pub(crate) fn judge_in_pieces<R: Threads + Sync, S: Source, K: Sink, E: Sink>(
    rt: &R,
    alloc: Global,
    pieces: Pieces,
    input: &mut S,
    output: &mut K,
    errors: &mut E,
) -> u8
    ensures { Checked S.left S.faults K.held K.faults E.held E.faults input.old input.new output.old output.new errors.old errors.new result }
{
    match check_in_pieces(rt, alloc, pieces, input) {
        Ok(()) => say_ok(output, errors),
        Err(stop) => refuse_pair(errors, stop),
    }
}

// What `check_input` does with these rules, but that they are judged in so many pieces.
fn check_in_pieces<R: Threads + Sync, S: Source>(
    rt: &R,
    alloc: Global,
    pieces: Pieces,
    input: &mut S,
) -> Result<(), Stop>
    ensures sound { OnOk result (IsSound MeetsVersion (S.left input.old) (S.left input.new)) }
    ensures stopped { IfErr result (Stops BreaksVersion (S.left input.old) (S.left input.new)) }
    ensures broken_off { IfErr result (λ stop. IsReadFault stop → BreaksOff (S.left input.old) (S.left input.new)) }
    ensures cause { HasReadCause (S.faults input.old) (S.faults input.new) result }
{
    let (trace, report) = read_pair(alloc, input)?;
    match check_version_parallel(rt, alloc, &trace, &report, pieces) {
        Ok(()) => Ok(()),
        Err(CheckFault::Broken { rule, line }) => Err(Stop::Verdict(Verdict::Broken {
            rule,
            line,
        })),
        Err(CheckFault::NoMemory) => Err(Stop::Verdict(Verdict::NoMemory)),
    }
}

// Writes that the report is sound.
fn say_ok<K: Sink, E: Sink>(output: &mut K, errors: &mut E) -> u8
    ensures status { (result ≡ 0) ⊎ (result ≡ 6) }
    ensures answered { result ≡ 0 → Appends (K.held output.old) (K.held output.new) check_text }
    ensures silent { result ≡ 0 → errors.new ≡ errors.old }
    ensures write_fault { result ≡ 6 → Rose (K.faults output.old) (K.faults output.new) }
    ensures partly_written { result ≡ 6 → AppendsFront (K.held output.old) (K.held output.new) check_text }
    ensures told { result ≡ 6 → Tells E.held E.faults errors.old errors.new (status_text 6) }
{
    match write_all(output, b"check ok\n") {
        Ok(()) => 0,
        Err(_) => stop_writing(errors),
    }
}
