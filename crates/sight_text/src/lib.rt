//! The lines of what watchers saw of a live profile, behind a report.
#![tactic(auto)]

ghost use Rattle.std.specs.Prelude.{◌≡◌, ◌≤◌, ◌++◌, ◌∷◌, [], length, map, OnErr, OnOk};
ghost use Rattle.std.specs.Io.KnownBytes.{Appends};
ghost use Rattle.edge_io.specs.Causes.{HasCause};
ghost use Rattle.edge_io.specs.Front.{AppendsFront};
ghost use Rattle.edge_io.specs.Output.{IsSameSink, sink_of, waiting_of};
ghost use Rattle.edge_io.specs.Puts.{Puts, PutsFront};
ghost use Rattle.edge_io.specs.Text.{text};
ghost use Rattle.sight_text.specs.Text.{seen_text, sight_line};

use edge_io::{Failed, List, Output, Sink};
use profile_readers::Sight;
use text_line::TextLine;

/// Appends a line for each sight of each watcher, or after [`Failed`] a front of them. Failed comes only where the sink's count rose. It
/// takes no memory. The watchers are numbered from 0, and there are at most 4.
pub fn write_sights<K: Sink>(out: &mut K, seen: &[List<Sight>]) -> Result<(), Failed>
    requires few { length seen.now ≤ 4 }
    ensures ok { OnOk result (Appends (K.held out.old) (K.held out.new) (seen_text 0 seen.now)) }
    ensures front { AppendsFront (K.held out.old) (K.held out.new) (seen_text 0 seen.now) }
    ensures cause { HasCause (K.faults out.old) (K.faults out.new) result }
{
    let mut output = Output::new(out);
    write_all(&mut output, seen)
}

// Writes all lines behind nothing that waits, and sends them.
fn write_all<K: Sink>(out: &mut Output<'_, K>, seen: &[List<Sight>]) -> Result<(), Failed>
    requires empty { waiting_of out.old ≡ [] }
    requires few { length seen.now ≤ 4 }
    ensures same_sink { IsSameSink out.old out.new }
    ensures ok { OnOk result (Appends (K.held (sink_of out.old)) (K.held (sink_of out.new)) (seen_text 0 seen.now)) }
    ensures front { AppendsFront (K.held (sink_of out.old)) (K.held (sink_of out.new)) (seen_text 0 seen.now) }
    ensures cause { HasCause (K.faults (sink_of out.old)) (K.faults (sink_of out.new)) result }
{
    put_watchers(out, seen)?;
    out.flush()
}

// Puts the lines of all watchers behind what waits.
fn put_watchers<K: Sink>(out: &mut Output<'_, K>, seen: &[List<Sight>]) -> Result<(), Failed>
    requires few { length seen.now ≤ 4 }
    ensures same_sink { IsSameSink out.old out.new }
    ensures ok { OnOk result (Puts (K.held (sink_of out.old)) (K.held (sink_of out.new)) (waiting_of out.old) (waiting_of out.new) (seen_text 0 seen.now)) }
    ensures err { OnErr result (PutsFront (K.held (sink_of out.old)) (K.held (sink_of out.new)) (waiting_of out.old) (waiting_of out.new) (seen_text 0 seen.now)) }
    ensures cause { HasCause (K.faults (sink_of out.old)) (K.faults (sink_of out.new)) result }
{
    for (watcher, sights) in seen.iter().enumerate() {
        put_sights(out, watcher as u32, sights.as_slice())?;
    }
    Ok(())
}

// Puts the lines of one watcher behind what waits.
fn put_sights<K: Sink>(
    out: &mut Output<'_, K>,
    watcher: u32,
    sights: &[Sight],
) -> Result<(), Failed>
    ensures same_sink { IsSameSink out.old out.new }
    ensures ok { OnOk result (Puts (K.held (sink_of out.old)) (K.held (sink_of out.new)) (waiting_of out.old) (waiting_of out.new) (text (map (sight_line watcher) sights.now))) }
    ensures err { OnErr result (PutsFront (K.held (sink_of out.old)) (K.held (sink_of out.new)) (waiting_of out.old) (waiting_of out.new) (text (map (sight_line watcher) sights.now))) }
    ensures cause { HasCause (K.faults (sink_of out.old)) (K.faults (sink_of out.new)) result }
{
    let mut line = TextLine::new();
    for sight in sights {
        line.clear();
        push_line(&mut line, watcher, *sight);
        out.put(line.as_slice())?;
    }
    Ok(())
}

// Puts the line of a sight together.
fn push_line(line: &mut TextLine, watcher: u32, sight: Sight)
    requires empty { line.old ≡ [] }
    ensures text { line.new ≡ sight_line watcher sight ++ 10 ∷ [] }
    ensures short { length line.new ≤ 128 }
{
    line.push(b"w ");
    line.push_short(watcher);
    line.push(b" ");
    line.push_short(sight.k);
    line.push(b" ");
    line.push_decimal(sight.allocs);
    line.push(b" ");
    line.push_decimal(sight.frees);
    line.push(b"\n");
}
