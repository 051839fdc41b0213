//! The program: the words of the command line and the standard streams, handed to [`alloc_tool::goheap`].
//!
//! `goheap run` reads a trace from standard input and writes its report to standard output. `goheap check` reads a trace and
//! behind it a report, and says whether the report is sound. `goheap demo` makes a trace, runs and checks it, and sums up.
#![tactic(auto)]

use alloc_tool::{goheap, refuse_trace, refuse_words};
use edge_io::{OpenGate, StdSink, StdSource};
use std::alloc::Global;
use std::process::ExitCode;
use std::rt::Env;
use std::{env, io};
use trace_reader::TraceFault;

// The words of the command line, without the program's name.
fn words<R: Env + AllocGlobal>(rt: &R) -> io::Result<Vec<String>> {
    let mut words = Vec::new(rt.alloc());
    for word in env::args(rt)?.skip(1) {
        words.push(word)?;
    }
    Ok(words)
}

fn main(rt: HostRuntime) -> ExitCode {
    let alloc: Global = rt.alloc();
    let mut input = StdSource::new(rt.stdin());
    let mut output = StdSink::new(rt.stdout());
    let mut errors = StdSink::new(rt.stderr());
    let status = match words(&rt) {
        Ok(words) => goheap(
            &rt,
            alloc,
            &words,
            &mut input,
            &mut output,
            &mut errors,
            &OpenGate,
        ),
        Err(error) if error.kind() == io::ErrorKind::OutOfMemory => {
            refuse_trace(&mut errors, TraceFault::NoMemory)
        }
        // A word is no UTF-8.
        Err(_) => refuse_words(&mut errors),
    };
    ExitCode::from(status)
}
