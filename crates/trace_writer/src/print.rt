//! Printing a trace.

ghost use Rattle.std.specs.Prelude.{[], ◌≡◌, ◌∷◌, map, Some, OnErr, OnOk};
ghost use Rattle.std.specs.Io.KnownBytes.{Appends};
ghost use Rattle.std.specs.List.{flat_map};
ghost use Rattle.edge_io.specs.Causes.{HasCause};
ghost use Rattle.edge_io.specs.Front.{AppendsFront};
ghost use Rattle.edge_io.specs.Output.{IsSameSink, sink_of, waiting_of};
ghost use Rattle.edge_io.specs.Text.{text};
ghost use Rattle.trace_reader.specs.Limits.{WithinLimits};
ghost use Rattle.edge_io.specs.Puts.{OutputPuts, OutputPutsFront};
ghost use Rattle.trace_reader.specs.Spelling.{alloc_of, cycle_statements, heap_of, line_for, lines_of, mark_of, mark_statements, spelled, title_line};

use crate::spelling::{
    push_alloc_line, push_gc_line, push_heap_line, push_mark_line, push_title_line,
};
use edge_io::{Failed, Output, Sink};
use text_line::TextLine;
use trace_reader::{Cycle, Event, Header, MarkEnd, Span, Trace};

/// Appends the one text of the trace, or after [`Failed`] a front of it. Failed comes only where the sink's count rose.
/// It takes no memory.
pub fn print_trace<K: Sink>(out: &mut K, trace: &Trace) -> Result<(), Failed>
    requires { WithinLimits trace.now }
    ensures ok { OnOk result (Appends (K.held out.old) (K.held out.new) (text (lines_of trace.now))) }
    ensures front { AppendsFront (K.held out.old) (K.held out.new) (text (lines_of trace.now)) }
    ensures cause { HasCause (K.faults out.old) (K.faults out.new) result }
{
    let mut output = Output::new(out);
    print_lines(&mut output, trace)
}

// Puts all lines behind nothing that waits, and sends them.
fn print_lines<K: Sink>(out: &mut Output<'_, K>, trace: &Trace) -> Result<(), Failed>
    requires { waiting_of out.old ≡ [] }
    ensures same_sink { IsSameSink out.old out.new }
    ensures ok { OnOk result (Appends (K.held (sink_of out.old)) (K.held (sink_of out.new)) (text (lines_of trace.now))) }
    ensures front { AppendsFront (K.held (sink_of out.old)) (K.held (sink_of out.new)) (text (lines_of trace.now)) }
    ensures cause { HasCause (K.faults (sink_of out.old)) (K.faults (sink_of out.new)) result }
{
    put_head(out, trace.header)?;
    put_cycles(out, trace.cycles.as_slice())?;
    out.put(b"end\n")?;
    out.flush()
}

// Puts the first two lines behind what waits.
fn put_head<K: Sink>(out: &mut Output<'_, K>, header: Header) -> Result<(), Failed>
    ensures same_sink { IsSameSink out.old out.new }
    ensures ok { OnOk result (OutputPuts K.held out.old out.new (text (title_line header.version ∷ line_for (heap_of header) ∷ []))) }
    ensures err { OnErr result (OutputPutsFront K.held out.old out.new (text (title_line header.version ∷ line_for (heap_of header) ∷ []))) }
    ensures cause { HasCause (K.faults (sink_of out.old)) (K.faults (sink_of out.new)) result }
{
    let mut line = TextLine::new();
    push_title_line(&mut line, header.version);
    out.put(line.as_slice())?;
    line.clear();
    push_heap_line(&mut line, header);
    out.put(line.as_slice())
}

// Puts the lines of cycles behind what waits.
fn put_cycles<K: Sink>(out: &mut Output<'_, K>, cycles: &[Cycle]) -> Result<(), Failed>
    ensures same_sink { IsSameSink out.old out.new }
    ensures ok { OnOk result (OutputPuts K.held out.old out.new (spelled (flat_map cycle_statements cycles.now))) }
    ensures err { OnErr result (OutputPutsFront K.held out.old out.new (spelled (flat_map cycle_statements cycles.now))) }
    ensures cause { HasCause (K.faults (sink_of out.old)) (K.faults (sink_of out.new)) result }
{
    for cycle in cycles {
        put_cycle(out, cycle)?;
    }
    Ok(())
}

// Puts the lines of a cycle behind what waits.
fn put_cycle<K: Sink>(out: &mut Output<'_, K>, cycle: &Cycle) -> Result<(), Failed>
    ensures same_sink { IsSameSink out.old out.new }
    ensures ok { OnOk result (OutputPuts K.held out.old out.new (spelled (cycle_statements cycle.now))) }
    ensures err { OnErr result (OutputPutsFront K.held out.old out.new (spelled (cycle_statements cycle.now))) }
    ensures cause { HasCause (K.faults (sink_of out.old)) (K.faults (sink_of out.new)) result }
{
    put_events(out, cycle.events.as_slice())?;
    match &cycle.mark {
        Some(end) => put_mark_end(out, end),
        None => Ok(()),
    }
}

// Puts the lines of events behind what waits.
fn put_events<K: Sink>(out: &mut Output<'_, K>, events: &[Event]) -> Result<(), Failed>
    ensures same_sink { IsSameSink out.old out.new }
    ensures ok { OnOk result (OutputPuts K.held out.old out.new (spelled (map alloc_of events.now))) }
    ensures err { OnErr result (OutputPutsFront K.held out.old out.new (spelled (map alloc_of events.now))) }
    ensures cause { HasCause (K.faults (sink_of out.old)) (K.faults (sink_of out.new)) result }
{
    let mut line = TextLine::new();
    for event in events {
        line.clear();
        push_alloc_line(&mut line, *event);
        out.put(line.as_slice())?;
    }
    Ok(())
}

// Puts the lines of a mark end behind what waits.
fn put_mark_end<K: Sink>(out: &mut Output<'_, K>, end: &MarkEnd) -> Result<(), Failed>
    ensures same_sink { IsSameSink out.old out.new }
    ensures ok { OnOk result (OutputPuts K.held out.old out.new (spelled (mark_statements (Some end.now)))) }
    ensures err { OnErr result (OutputPutsFront K.held out.old out.new (spelled (mark_statements (Some end.now)))) }
    ensures cause { HasCause (K.faults (sink_of out.old)) (K.faults (sink_of out.new)) result }
{
    let mut line = TextLine::new();
    push_gc_line(&mut line, end.distance);
    out.put(line.as_slice())?;
    put_marks(out, end.marks.as_slice())
}

// Puts the lines of marks behind what waits.
fn put_marks<K: Sink>(out: &mut Output<'_, K>, marks: &[Span]) -> Result<(), Failed>
    ensures same_sink { IsSameSink out.old out.new }
    ensures ok { OnOk result (OutputPuts K.held out.old out.new (spelled (map mark_of marks.now))) }
    ensures err { OnErr result (OutputPutsFront K.held out.old out.new (spelled (map mark_of marks.now))) }
    ensures cause { HasCause (K.faults (sink_of out.old)) (K.faults (sink_of out.new)) result }
{
    let mut line = TextLine::new();
    for span in marks {
        line.clear();
        push_mark_line(&mut line, *span);
        out.put(line.as_slice())?;
    }
    Ok(())
}
