//! Writing the size classes.

ghost use Rattle.std.specs.Prelude.{◌≡◌, ◌∷◌, ◌++◌, ◌≤◌, [], length, OnOk};
ghost use Rattle.std.specs.Io.KnownBytes.{Appends};
ghost use Rattle.edge_io.specs.Causes.{HasCause};
ghost use Rattle.edge_io.specs.Front.{AppendsFront};
ghost use Rattle.edge_io.specs.Output.{IsSameSink, sink_of, waiting_of};
ghost use Rattle.size_classes.specs.Classes.{IsClass};
ghost use Rattle.commands.specs.Classes.{class_line, classes_text};

use edge_io::{Failed, Output, Sink};
use size_classes::{slot_size, span_objects, span_pages};
use text_line::TextLine;

/// The number of size classes, which are numbered from 1.
const CLASSES: u8 = 67;

/// Appends a line for each size class from 1 to 67: `c`, the class, the bytes of an object, the pages of a span, and the
/// objects of a span (`sizeclasses.go`). After [`Failed`] a front of the text was appended. Failed comes only where the
/// sink's count rose. It takes no memory.
pub fn write_classes<K: Sink>(out: &mut K) -> Result<(), Failed>
    ensures ok { OnOk result (Appends (K.held out.old) (K.held out.new) classes_text) }
    ensures front { AppendsFront (K.held out.old) (K.held out.new) classes_text }
    ensures cause { HasCause (K.faults out.old) (K.faults out.new) result }
{
    let mut output = Output::new(out);
    write_lines(&mut output)
}

// Puts all lines behind nothing that waits, and sends them.
fn write_lines<K: Sink>(out: &mut Output<'_, K>) -> Result<(), Failed>
    requires { waiting_of out.old ≡ [] }
    ensures same_sink { IsSameSink out.old out.new }
    ensures ok { OnOk result (Appends (K.held (sink_of out.old)) (K.held (sink_of out.new)) classes_text) }
    ensures front { AppendsFront (K.held (sink_of out.old)) (K.held (sink_of out.new)) classes_text }
    ensures cause { HasCause (K.faults (sink_of out.old)) (K.faults (sink_of out.new)) result }
{
    let mut line = TextLine::new();
    for before in 0..CLASSES {
        line.clear();
        push_class(&mut line, before + 1);
        out.put(line.as_slice())?;
    }
    out.flush()
}

// Puts the line of a class together.
fn push_class(line: &mut TextLine, class: u8)
    requires empty { line.old ≡ [] }
    requires class { IsClass class }
    ensures text { line.new ≡ class_line class ++ 10 ∷ [] }
    ensures short { length line.new ≤ 128 }
{
    line.push(b"c ");
    line.push_short(u32::from(class));
    line.push(b" ");
    line.push_short(slot_size(class));
    line.push(b" ");
    line.push_short(span_pages(class));
    line.push(b" ");
    line.push_short(span_objects(class));
    line.push(b"\n");
}
