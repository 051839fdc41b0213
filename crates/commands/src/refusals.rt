//! What the program tells, and which status it answers, where it stops without its answer. It takes no memory.

ghost use Rattle.std.specs.Prelude.{◌≡◌, ◌≤◌, [], length};
ghost use Rattle.commands.specs.declared.stop.Stop.TheVariants.{Verdict as OfVerdict};
ghost use Rattle.commands.specs.Stopped.{stop_status, stop_text};
ghost use Rattle.commands.specs.Texts.{fault_status, fault_text, limit_name, place, report_fault_text, report_place, report_status, rule_text, usage, write_fault};
ghost use Rattle.commands.specs.Told.{Tells, TellsAll};

use crate::stop::{Stop, Verdict};
use edge_io::{Sink, write_all};
use report_text::ReportFault;
use text_line::TextLine;
use trace_reader::{TraceFault, Which};

/// Words that are not known: tells the usage, and answers the status.
pub fn refuse_words<E: Sink>(errors: &mut E) -> u8
    ensures status { result ≡ 2 }
    ensures told { Tells E.held E.faults errors.old errors.new usage }
{
    tell(
        errors,
        b"usage: goheap run [--background=N] [--each] / check [--pieces=N] / gen SEED OBJECTS / demo SEED OBJECTS / classes / watch N / heap\n",
    );
    2
}

/// A write that failed: tells so, and answers the status.
pub fn stop_writing<E: Sink>(errors: &mut E) -> u8
    ensures status { result ≡ 6 }
    ensures told { Tells E.held E.faults errors.old errors.new write_fault }
{
    tell(errors, b"goheap: write fault\n");
    6
}

/// A trace that was not taken, or want of memory: tells why, and answers the status.
pub fn refuse_trace<E: Sink>(errors: &mut E, fault: TraceFault) -> u8
    ensures status { result ≡ fault_status fault }
    ensures told { Tells E.held E.faults errors.old errors.new (fault_text fault) }
{
    let mut line = TextLine::new();
    push_fault(&mut line, fault);
    line.push(b"\n");
    tell(errors, line.as_slice());
    status_of(fault)
}

/// A report that was not taken or breaks a rule, or what stands before it: tells why, and answers the status.
pub fn refuse_pair<E: Sink>(errors: &mut E, stop: Stop) -> u8
    ensures status { result ≡ stop_status stop }
    ensures told { Tells E.held E.faults errors.old errors.new (stop_text stop) }
{
    match stop {
        Stop::Trace(fault) => refuse_trace(errors, fault),
        Stop::Report(fault) => refuse_report(errors, fault),
        Stop::Verdict(verdict) => refuse_verdict(errors, verdict),
    }
}

// A report that breaks a rule, or want of memory: tells so, and answers the status.
fn refuse_verdict<E: Sink>(errors: &mut E, verdict: Verdict) -> u8
    ensures status { result ≡ stop_status (OfVerdict verdict) }
    ensures told { Tells E.held E.faults errors.old errors.new (stop_text (OfVerdict verdict)) }
{
    match verdict {
        Verdict::Broken { rule, line } => refuse_rule(errors, rule, line),
        Verdict::NoMemory => refuse_trace(errors, TraceFault::NoMemory),
    }
}

// A report that was not taken: tells why, and answers the status.
fn refuse_report<E: Sink>(errors: &mut E, fault: ReportFault) -> u8
    ensures status { result ≡ report_status fault }
    ensures told { Tells E.held E.faults errors.old errors.new (report_fault_text fault) }
{
    let mut line = TextLine::new();
    push_report_fault(&mut line, fault);
    line.push(b"\n");
    tell(errors, line.as_slice());
    status_of_report(fault)
}

// The status of a report that was not taken.
fn status_of_report(fault: ReportFault) -> u8
    ensures { result ≡ report_status fault }
{
    match fault {
        ReportFault::ReadFault => 5,
        ReportFault::NoMemory => 7,
        ReportFault::Malformed(_) | ReportFault::Truncated(_) | ReportFault::Limit(_) => 4,
    }
}

// A report that breaks a rule: tells the rule and the line, and answers the status.
fn refuse_rule<E: Sink>(errors: &mut E, rule: u8, number: u64) -> u8
    ensures status { result ≡ 4 }
    ensures told { Tells E.held E.faults errors.old errors.new (rule_text rule number) }
{
    let mut line = TextLine::new();
    push_rule(&mut line, rule, number);
    line.push(b"\n");
    tell(errors, line.as_slice());
    4
}

// Puts the line of a broken rule together.
fn push_rule(line: &mut TextLine, rule: u8, number: u64)
    requires { line.old ≡ [] }
    ensures text { line.new ≡ rule_text rule number }
    ensures short { length line.new ≤ 127 }
{
    push_report_place(line, number);
    line.push(b"rule ");
    line.push_decimal(u64::from(rule));
}

// Puts the line of a report's fault together.
fn push_report_fault(line: &mut TextLine, fault: ReportFault)
    requires { line.old ≡ [] }
    ensures text { line.new ≡ report_fault_text fault }
    ensures short { length line.new ≤ 127 }
{
    match fault {
        ReportFault::ReadFault => line.push(b"goheap: read fault"),
        ReportFault::NoMemory => line.push(b"goheap: out of memory"),
        ReportFault::Malformed(number) => {
            push_report_place(line, number);
            line.push(b"malformed");
        }
        ReportFault::Truncated(number) => {
            push_report_place(line, number);
            line.push(b"ends early");
        }
        ReportFault::Limit(number) => {
            push_report_place(line, number);
            line.push(b"limit bytes");
        }
    }
}

// Names the line of the report.
fn push_report_place(line: &mut TextLine, number: u64)
    requires { line.old ≡ [] }
    ensures text { line.new ≡ report_place number }
    ensures short { length line.new ≤ 42 }
{
    line.push(b"goheap: report line ");
    line.push_decimal(number);
    line.push(b": ");
}

// The status of a trace that was not taken.
fn status_of(fault: TraceFault) -> u8
    ensures { result ≡ fault_status fault }
{
    match fault {
        TraceFault::ReadFault => 5,
        TraceFault::NoMemory => 7,
        TraceFault::Malformed(_)
        | TraceFault::Truncated(_)
        | TraceFault::Limit(..)
        | TraceFault::BadMark(..) => 3,
    }
}

// Tells a line as far as the sink takes it.
fn tell<E: Sink>(errors: &mut E, line: &[u8])
    ensures { TellsAll E.held E.faults errors.old errors.new line.now }
{
    let _ = write_all(errors, line);
}

// Puts the line of a fault together.
fn push_fault(line: &mut TextLine, fault: TraceFault)
    requires { line.old ≡ [] }
    ensures text { line.new ≡ fault_text fault }
    ensures short { length line.new ≤ 127 }
{
    match fault {
        TraceFault::ReadFault => line.push(b"goheap: read fault"),
        TraceFault::NoMemory => line.push(b"goheap: out of memory"),
        TraceFault::Malformed(number) => {
            push_place(line, number);
            line.push(b"malformed");
        }
        TraceFault::Truncated(number) => {
            push_place(line, number);
            line.push(b"ends early");
        }
        TraceFault::Limit(number, which) => {
            push_place(line, number);
            line.push(b"limit ");
            line.push(name_of(which));
        }
        TraceFault::BadMark(number, object) => {
            push_place(line, number);
            line.push(b"object ");
            line.push_decimal(u64::from(object));
            line.push(b" is not live");
        }
    }
}

// Names the line of the trace.
fn push_place(line: &mut TextLine, number: u64)
    requires { line.old ≡ [] }
    ensures text { line.new ≡ place number }
    ensures short { length line.new ≤ 41 }
{
    line.push(b"goheap: trace line ");
    line.push_decimal(number);
    line.push(b": ");
}

// The name of a limit.
fn name_of(which: Which) -> &'static [u8]
    ensures name { result.now ≡ limit_name which }
    ensures short { length result.now ≤ 8 }
{
    match which {
        Which::Bytes => b"bytes",
        Which::Chunks => b"chunks",
        Which::Procs => b"procs",
        Which::Rate => b"rate",
        Which::Seed => b"seed",
        Which::Goal => b"goal",
        Which::Proc => b"proc",
        Which::Size => b"size",
        Which::Stack => b"stack",
        Which::Distance => b"distance",
        Which::Id => b"id",
        Which::Objects => b"objects",
        Which::MarkEnds => b"markends",
        Which::Marks => b"marks",
    }
}
