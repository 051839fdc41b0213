//! Writing a report.

ghost use Rattle.std.specs.Prelude.{[], ◌≡◌, ◌≤◌, ◌∷◌, ◌++◌, length, OnErr, OnOk};
ghost use Rattle.std.specs.Io.KnownBytes.{Appends};
ghost use Rattle.edge_io.specs.Causes.{HasCause};
ghost use Rattle.edge_io.specs.Front.{AppendsFront, Sends};
ghost use Rattle.edge_io.specs.Output.{IsSameSink, sink_of, waiting_of};
ghost use Rattle.edge_io.specs.Text.{text};
ghost use Rattle.cycle_history.specs.Orders.{AreRisingProfile, AreRisingSweeps, AreRisingTotals};
ghost use Rattle.cycle_history.specs.Text.{answer_line, answer_text, closing_lines, numbered, report_text};
ghost use Rattle.edge_io.specs.Puts.{Puts, PutsFront};

use crate::lines::{ReportLine, push_answer};
use cycle_history::{Answer, Report};
use edge_io::{Failed, Output, Sink};
use text_line::{Counter, ObjectLine, TextLine};

/// Appends the text of the report, or after [`Failed`] a front of it. Failed comes only where the sink's count rose. It
/// takes no memory. The sweeps are in the order of their cycles and first pages, the totals in that of their classes, and
/// the profile in that of mark ends, stacks and slot sizes, none twice.
pub fn write_report<K: Sink>(out: &mut K, report: &Report) -> Result<(), Failed>
    requires sweeps { AreRisingSweeps report.now.sweeps }
    requires totals { AreRisingTotals report.now.totals }
    requires profile { AreRisingProfile report.now.profile }
    ensures ok { OnOk result (Appends (K.held out.old) (K.held out.new) (report_text report.now)) }
    ensures front { AppendsFront (K.held out.old) (K.held out.new) (report_text report.now) }
    ensures cause { HasCause (K.faults out.old) (K.faults out.new) result }
{
    let mut output = Output::new(out);
    write_all_lines(&mut output, report)
}

// Writes all lines behind nothing that waits, and sends them.
fn write_all_lines<K: Sink>(out: &mut Output<'_, K>, report: &Report) -> Result<(), Failed>
    requires { waiting_of out.old ≡ [] }
    ensures same_sink { IsSameSink out.old out.new }
    ensures ok { OnOk result (Appends (K.held (sink_of out.old)) (K.held (sink_of out.new)) (report_text report.now)) }
    ensures front { AppendsFront (K.held (sink_of out.old)) (K.held (sink_of out.new)) (report_text report.now) }
    ensures cause { HasCause (K.faults (sink_of out.old)) (K.faults (sink_of out.new)) result }
{
    put_answers(out, report.answers.as_slice())?;
    put_lines(out, report.journal.as_slice())?;
    put_closing(out, report)?;
    out.flush()
}

// Puts the lines behind the journal behind what waits.
fn put_closing<K: Sink>(out: &mut Output<'_, K>, report: &Report) -> Result<(), Failed>
    ensures same_sink { IsSameSink out.old out.new }
    ensures ok { OnOk result (Puts (K.held (sink_of out.old)) (K.held (sink_of out.new)) (waiting_of out.old) (waiting_of out.new) (text (closing_lines report.now))) }
    ensures err { OnErr result (PutsFront (K.held (sink_of out.old)) (K.held (sink_of out.new)) (waiting_of out.old) (waiting_of out.new) (text (closing_lines report.now))) }
    ensures cause { HasCause (K.faults (sink_of out.old)) (K.faults (sink_of out.new)) result }
{
    put_lines(out, report.sweeps.as_slice())?;
    put_lines(out, report.totals.as_slice())?;
    put_lines(out, report.profile.as_slice())?;
    out.put(b"end\n")?;
    Ok(())
}

// Puts the lines of the answers, numbered from 0, behind what waits.
fn put_answers<K: Sink>(out: &mut Output<'_, K>, answers: &[Answer]) -> Result<(), Failed>
    ensures same_sink { IsSameSink out.old out.new }
    ensures ok { OnOk result (Puts (K.held (sink_of out.old)) (K.held (sink_of out.new)) (waiting_of out.old) (waiting_of out.new) (text (numbered answer_line 0 answers.now))) }
    ensures err { OnErr result (PutsFront (K.held (sink_of out.old)) (K.held (sink_of out.new)) (waiting_of out.old) (waiting_of out.new) (text (numbered answer_line 0 answers.now))) }
    ensures cause { HasCause (K.faults (sink_of out.old)) (K.faults (sink_of out.new)) result }
{
    let mut line = ObjectLine::new();
    for (number, answer) in answers.iter().enumerate() {
        put_answer(out, &mut line, *answer)?;
        line.advance(number as u64);
    }
    Ok(())
}

// Puts an answer's line, of which the front stands. Most answers are addresses of ten digits.
fn put_answer<K: Sink>(
    out: &mut Output<'_, K>,
    line: &mut ObjectLine,
    answer: Answer,
) -> Result<(), Failed>
    ensures same_sink { IsSameSink out.old out.new }
    ensures front { line.new.0 ≡ line.old.0 }
    ensures ok { OnOk result (Sends (K.held (sink_of out.old)) (K.held (sink_of out.new)) (waiting_of out.new) (waiting_of out.old ++ (line.old.0 ++ (answer_text answer ++ 10 ∷ [])))) }
    ensures err { OnErr result (Sends (K.held (sink_of out.old)) (K.held (sink_of out.new)) (waiting_of out.new) (waiting_of out.old)) }
    ensures cause { HasCause (K.faults (sink_of out.old)) (K.faults (sink_of out.new)) result }
{
    if let Answer::Placed(address) = answer {
        if address >= 0x10_0000_0000 && address < 0x100_0000_0000 {
            line.set_address(address);
            return out.put(line.as_slice());
        }
    }
    put_any(out, line.front(), answer)
}

// Puts the line of any answer behind its front.
#[inline(never)]
fn put_any<K: Sink>(out: &mut Output<'_, K>, front: &[u8], answer: Answer) -> Result<(), Failed>
    requires { length front.now ≤ 24 }
    ensures same_sink { IsSameSink out.old out.new }
    ensures ok { OnOk result (Sends (K.held (sink_of out.old)) (K.held (sink_of out.new)) (waiting_of out.new) (waiting_of out.old ++ (front.now ++ (answer_text answer ++ 10 ∷ [])))) }
    ensures err { OnErr result (Sends (K.held (sink_of out.old)) (K.held (sink_of out.new)) (waiting_of out.new) (waiting_of out.old)) }
    ensures cause { HasCause (K.faults (sink_of out.old)) (K.faults (sink_of out.new)) result }
{
    let mut text = TextLine::new();
    text.push(front);
    push_answer(&mut text, answer);
    text.push(b"\n");
    out.put(text.as_slice())
}

// Puts the lines of these items, numbered from 0, behind what waits.
fn put_lines<K: Sink, X: ReportLine>(out: &mut Output<'_, K>, items: &[X]) -> Result<(), Failed>
    ensures same_sink { IsSameSink out.old out.new }
    ensures ok { OnOk result (Puts (K.held (sink_of out.old)) (K.held (sink_of out.new)) (waiting_of out.old) (waiting_of out.new) (text (numbered X.printed 0 items.now))) }
    ensures err { OnErr result (PutsFront (K.held (sink_of out.old)) (K.held (sink_of out.new)) (waiting_of out.old) (waiting_of out.new) (text (numbered X.printed 0 items.now))) }
    ensures cause { HasCause (K.faults (sink_of out.old)) (K.faults (sink_of out.new)) result }
{
    let mut line = TextLine::new();
    let mut counter = Counter::new();
    for (number, item) in items.iter().enumerate() {
        line.clear();
        item.push_line(&mut line, &counter);
        out.put(line.as_slice())?;
        counter.advance(number as u64);
    }
    Ok(())
}
