//! Writing a heap profile.

ghost use Rattle.std.specs.Prelude.{◌≡◌, ◌+◌, ◌^◌, ◌<◌, ◌≤◌, ◌∷◌, ◌++◌, [], length, map, OnErr, OnOk};
ghost use Rattle.std.specs.Io.KnownBytes.{Appends};
ghost use Rattle.edge_io.specs.Causes.{HasCause};
ghost use Rattle.edge_io.specs.Front.{AppendsFront, Sends};
ghost use Rattle.edge_io.specs.Output.{IsSameSink, sink_of, waiting_of};
ghost use Rattle.edge_io.specs.Puts.{Puts, PutsFront};
ghost use Rattle.edge_io.specs.Text.{text};
ghost use Rattle.heap_text.specs.Lawful.{AreLow, IsLawful};
ghost use Rattle.heap_text.specs.Text.{four_text, heap_line, heap_text, sums_of, top_line};

use crate::sums::Sums;
use crate::{HeapLine, HeapText};
use edge_io::{Failed, Output, Sink};
use text_line::TextLine;

/// Appends the text of the heap profile, or after [`Failed`] a front of it. Failed comes only where the sink's count rose. It takes
/// no memory. The profile is one that a text may be of: twice the rate is even and at most 2^31; each line has allocations, at most
/// all of them in use, and one slot size by which both numbers of bytes are those of their objects; the bytes in use fall from line to
/// line; and each sum is below 2^63.
pub fn write_heap<K: Sink>(out: &mut K, text: &HeapText) -> Result<(), Failed>
    requires lawful { IsLawful text.now }
    ensures ok { OnOk result (Appends (K.held out.old) (K.held out.new) (heap_text text.now)) }
    ensures front { AppendsFront (K.held out.old) (K.held out.new) (heap_text text.now) }
    ensures cause { HasCause (K.faults out.old) (K.faults out.new) result }
{
    let mut output = Output::new(out);
    write_lines(&mut output, text)
}

// Writes all lines behind nothing that waits, and sends them.
fn write_lines<K: Sink>(out: &mut Output<'_, K>, heap: &HeapText) -> Result<(), Failed>
    requires empty { waiting_of out.old ≡ [] }
    requires lawful { IsLawful heap.now }
    ensures same_sink { IsSameSink out.old out.new }
    ensures ok { OnOk result (Appends (K.held (sink_of out.old)) (K.held (sink_of out.new)) (heap_text heap.now)) }
    ensures front { AppendsFront (K.held (sink_of out.old)) (K.held (sink_of out.new)) (heap_text heap.now) }
    ensures cause { HasCause (K.faults (sink_of out.old)) (K.faults (sink_of out.new)) result }
{
    put_top(out, heap)?;
    put_lines(out, heap.lines.as_slice())?;
    out.flush()
}

// Puts the first line behind what waits.
fn put_top<K: Sink>(out: &mut Output<'_, K>, heap: &HeapText) -> Result<(), Failed>
    requires lawful { IsLawful heap.now }
    ensures same_sink { IsSameSink out.old out.new }
    ensures ok { OnOk result (Sends (K.held (sink_of out.old)) (K.held (sink_of out.new)) (waiting_of out.new) (waiting_of out.old ++ (top_line heap.now.twice (sums_of heap.now.lines) ++ 10 ∷ []))) }
    ensures err { OnErr result (Sends (K.held (sink_of out.old)) (K.held (sink_of out.new)) (waiting_of out.new) (waiting_of out.old)) }
    ensures cause { HasCause (K.faults (sink_of out.old)) (K.faults (sink_of out.new)) result }
{
    let sums = sum_up(heap.lines.as_slice());
    let mut line = TextLine::new();
    push_top(&mut line, heap.twice as u32, sums);
    out.put(line.as_slice())
}

// Puts the lines of the buckets behind what waits.
fn put_lines<K: Sink>(out: &mut Output<'_, K>, lines: &[HeapLine]) -> Result<(), Failed>
    ensures same_sink { IsSameSink out.old out.new }
    ensures ok { OnOk result (Puts (K.held (sink_of out.old)) (K.held (sink_of out.new)) (waiting_of out.old) (waiting_of out.new) (text (map heap_line lines.now))) }
    ensures err { OnErr result (PutsFront (K.held (sink_of out.old)) (K.held (sink_of out.new)) (waiting_of out.old) (waiting_of out.new) (text (map heap_line lines.now))) }
    ensures cause { HasCause (K.faults (sink_of out.old)) (K.faults (sink_of out.new)) result }
{
    let mut text = TextLine::new();
    for line in lines {
        text.clear();
        push_line(&mut text, line);
        out.put(text.as_slice())?;
    }
    Ok(())
}

// The sums of the lines' numbers, each of which is below 2^63.
fn sum_up(lines: &[HeapLine]) -> Sums
    requires low { AreLow (sums_of lines.now) }
    ensures { result ≡ sums_of lines.now }
{
    let mut sums = Sums::none();
    for line in lines {
        sums.objects += line.objects;
        sums.bytes += line.bytes;
        sums.all_objects += line.all_objects;
        sums.all_bytes += line.all_bytes;
    }
    sums
}

// Puts the first line together.
fn push_top(text: &mut TextLine, twice: u32, sums: Sums)
    requires empty { text.old ≡ [] }
    ensures text { text.new ≡ top_line twice sums ++ 10 ∷ [] }
    ensures short { length text.new ≤ 128 }
{
    text.push(b"heap profile: ");
    push_four(text, sums);
    text.push(b"heap/");
    text.push_short(twice);
    text.push(b"\n");
}

// Puts the line of a bucket together.
fn push_line(text: &mut TextLine, line: &HeapLine)
    requires empty { text.old ≡ [] }
    ensures text { text.new ≡ heap_line line.now ++ 10 ∷ [] }
    ensures short { length text.new ≤ 128 }
{
    let mut stack = TextLine::new();
    stack.push_hexadecimal(u64::from(line.stack));
    push_four(text, Sums::of(line));
    text.push(b"0x");
    text.push(stack.as_slice());
    text.push(b"\n");
}

// Appends four numbers, and what stands between them and behind them.
fn push_four(text: &mut TextLine, sums: Sums)
    requires room { length text.old ≤ 14 }
    ensures text { text.new ≡ text.old ++ four_text sums [] }
    ensures short { length text.new ≤ length text.old + 90 }
{
    text.push_decimal(sums.objects);
    text.push(b": ");
    text.push_decimal(sums.bytes);
    text.push(b" [");
    text.push_decimal(sums.all_objects);
    text.push(b": ");
    text.push_decimal(sums.all_bytes);
    text.push(b"] @ ");
}
