//! The whole program over any source and sinks.

ghost use Rattle.std.specs.Prelude.{◌≡◌, ◌≢◌, ◌≤◌, ◌↔◌, Bool, List, ℕ, IsTrue, Some};
ghost use Rattle.trace_reader.specs.declared.trace.Trace.{Trace as ATrace};
ghost use Rattle.trace_reader.specs.Limits.{Spells};
ghost use Rattle.commands.specs.Classes.{classes_text};
ghost use Rattle.trace_gen.specs.Made.{made_trace};
ghost use Rattle.commands.specs.Pieces.{AsksPieces};
ghost use Rattle.commands.specs.Watchers.{AsksWatchers};
ghost use Rattle.alloc_tool.specs.Checked.{AcceptsSound, Checked};
ghost use Rattle.alloc_tool.specs.Demo.{Demos};
ghost use Rattle.alloc_tool.specs.Outcome.{Outcome};
ghost use Rattle.alloc_tool.specs.Plain.{Plain, Writes};
ghost use Rattle.alloc_tool.specs.Top.{IsComplete, IsReportText, IsStatusOfRun, IsUndisturbed};
ghost use Rattle.alloc_tool.specs.Watch.{IsWatchText};
ghost use Rattle.alloc_tool.specs.Words.{IsCheck, IsDemo, IsHeap, IsRun, IsRunWith, IsWord};

use crate::demo::show_run;
use crate::generate::{generate, wanted_by};
use crate::judging::{judge_in_pieces, judge_report};
use crate::watch::watch;
use commands::{
    are_of_run, pieces_of, read_options, refuse_trace, refuse_words, show_heap, stop_writing,
    watchers_of, write_classes,
};
use edge_io::{Gate, NoMemory, Sink, Source};
use heap_run::{Options, run_trace};
use report_check::Pieces;
use report_text::write_report;
use std::alloc::Global;
use std::sync::Wait;
use std::thread::Threads;
use trace_reader::{TraceFault, read_whole};

/// Does what the words say, and answers the exit status. It runs `run`, `watch`, `demo` and `check --pieces=N` itself; all other
/// words go to [`goheap_plain`].
///
/// `words` are those behind the program's name. `run` reads a trace from `input` to its end and writes its report to
/// `output`; its options are `--each` and `--background=N` or `--background N`. `watch N` does what `run` does, with N watchers of
/// the run's profile, and writes behind the report what they saw. `demo SEED OBJECTS` makes a trace, runs and
/// judges it, and writes what came of it. `check --pieces=N` does what `check` does, with the objects in N pieces that are judged
/// beside each other. Where a call does not answer, one line on `errors` says why.
pub fn goheap<R: Threads + Wait + Sync, S: Source, K: Sink, E: Sink, G: Gate>(
    rt: &R,
    alloc: Global,
    words: &[String],
    input: &mut S,
    output: &mut K,
    errors: &mut E,
    gate: &G,
) -> u8
    // run
    ensures outcome { (background : ℕ) (each : Bool) → IsRunWith words.now background each
        → Outcome (IsReportText each) S.left S.faults K.held K.faults E.held E.faults input.old input.new output.old output.new errors.old errors.new result }
    ensures run_words { IsRun words.now → IsStatusOfRun result }
    ensures complete { IsRun words.now → (bytes : List ℕ)
        → IsUndisturbed S.left S.faults K.faults input.old input.new output.old output.new bytes → IsComplete bytes result }

    // watch
    ensures watch { (n : ℕ) → AsksWatchers words.now n
        → Outcome (IsWatchText n) S.left S.faults K.held K.faults E.held E.faults input.old input.new output.old output.new errors.old errors.new result }
    ensures watch_words { (n : ℕ) → AsksWatchers words.now n → IsStatusOfRun result }
    ensures watch_complete { (n : ℕ) → AsksWatchers words.now n → (bytes : List ℕ)
        → IsUndisturbed S.left S.faults K.faults input.old input.new output.old output.new bytes → IsComplete bytes result }

    // demo
    ensures demo { (seed objects : ℕ) → IsDemo words.now seed objects
        → Demos (made_trace seed objects) K.held K.faults E.held E.faults output.old output.new errors.old errors.new result × (input.new ≡ input.old) }

    // check, in pieces
    ensures in_pieces { (n : ℕ) → AsksPieces words.now n
        → Checked S.left S.faults K.held K.faults E.held E.faults input.old input.new output.old output.new errors.old errors.new result }
    ensures accepts_in_pieces { (n : ℕ) → AsksPieces words.now n → (bytes : List ℕ)
        → IsUndisturbed S.left S.faults K.faults input.old input.new output.old output.new bytes → AcceptsSound bytes result }

    // all other words
    ensures other_words { (IsRun words.now → ⊥) → ((seed objects : ℕ) → IsDemo words.now seed objects → ⊥) → ((n : ℕ) → AsksPieces words.now n → ⊥) → ((n : ℕ) → AsksWatchers words.now n → ⊥) → Plain S.left S.faults K.held K.faults E.held E.faults words.now input.old input.new output.old output.new errors.old errors.new result }
    ensures check { IsCheck words.now → (bytes : List ℕ)
        → IsUndisturbed S.left S.faults K.faults input.old input.new output.old output.new bytes → AcceptsSound bytes result }
    ensures heap { IsHeap words.now → (bytes : List ℕ)
        → IsUndisturbed S.left S.faults K.faults input.old input.new output.old output.new bytes → AcceptsSound bytes result }
{
    if are_of_run(words) {
        return run(rt, alloc, words, input, output, errors, gate);
    }
    if let Some(pieces) = pieces_of(words) {
        return judge_in_pieces(rt, alloc, Pieces { count: pieces }, input, output, errors);
    }
    if let Some(readers) = watchers_of(words) {
        return watch(rt, alloc, readers, input, output, errors, gate);
    }
    match wanted_by(words, "demo") {
        Some(wanted) => show_run(rt, alloc, wanted, output, errors, gate),
        None => goheap_plain(alloc, words, input, output, errors),
    }
}

/// Does what the words say where that needs no runtime, and answers the exit status. `classes` writes the table of size
/// classes to `output`, and `gen SEED OBJECTS` a made trace. `check` reads a trace from `input` and directly behind it a report to
/// the end, judges the report, and writes `check ok` where it is sound. `heap` does the same, and writes the heap profile as of the
/// last mark end in its place. All other words are not known yet, and `run`, `watch` and `demo` need the runtime.
pub fn goheap_plain<S: Source, K: Sink, E: Sink>(
    alloc: Global,
    words: &[String],
    input: &mut S,
    output: &mut K,
    errors: &mut E,
) -> u8
    ensures words { Plain S.left S.faults K.held K.faults E.held E.faults words.now input.old input.new output.old output.new errors.old errors.new result }
    ensures check { IsCheck words.now → (bytes : List ℕ)
        → IsUndisturbed S.left S.faults K.faults input.old input.new output.old output.new bytes → AcceptsSound bytes result }
    ensures heap { IsHeap words.now → (bytes : List ℕ)
        → IsUndisturbed S.left S.faults K.faults input.old input.new output.old output.new bytes → AcceptsSound bytes result }
{
    if is_word(words, "classes") {
        return classes(output, errors);
    }
    if is_word(words, "check") {
        return judge_report(alloc, input, output, errors);
    }
    if is_word(words, "heap") {
        return show_heap(alloc, input, output, errors);
    }
    match wanted_by(words, "gen") {
        Some(wanted) => generate(alloc, wanted, output, errors),
        None => refuse_words(errors),
    }
}

// Whether the words are this one word.
fn is_word(words: &[String], word: &str) -> bool
    ensures { IsTrue result ↔ IsWord word.now words.now }
{
    words.len() == 1 && words[0].as_str() == word
}

// Writes the size classes.
fn classes<K: Sink, E: Sink>(output: &mut K, errors: &mut E) -> u8
    ensures writes { Writes K.held K.faults E.held E.faults classes_text output.old output.new errors.old errors.new result }
    ensures no_memory { result ≢ 7 }
{
    match write_classes(output) {
        Ok(()) => 0,
        Err(_) => stop_writing(errors),
    }
}

// Reads the options, and runs a trace by them.
fn run<R: Threads + Wait + Sync, S: Source, K: Sink, E: Sink, G: Gate>(
    rt: &R,
    alloc: Global,
    words: &[String],
    input: &mut S,
    output: &mut K,
    errors: &mut E,
    gate: &G,
) -> u8
    requires { IsRun words.now }
    ensures outcome { (background : ℕ) (each : Bool) → IsRunWith words.now background each
        → Outcome (IsReportText each) S.left S.faults K.held K.faults E.held E.faults input.old input.new output.old output.new errors.old errors.new result }
    ensures status { IsStatusOfRun result }
    ensures complete { (bytes : List ℕ) (trace : ATrace) → S.left input.old ≡ Some bytes → Spells bytes trace → result ≢ 3 }
{
    match read_options(alloc, words) {
        Ok(asked) => {
            let options = Options {
                background: asked.background,
                each: asked.each,
            };
            run_by(rt, alloc, options, input, output, errors, gate)
        }
        Err(NoMemory) => refuse_trace(errors, TraceFault::NoMemory),
    }
}

// Reads a trace, and writes its report.
fn run_by<R: Threads + Wait + Sync, S: Source, K: Sink, E: Sink, G: Gate>(
    rt: &R,
    alloc: Global,
    options: Options,
    input: &mut S,
    output: &mut K,
    errors: &mut E,
    gate: &G,
) -> u8
    requires { options.background ≤ 4 }
    ensures outcome { Outcome (IsReportText options.each) S.left S.faults K.held K.faults E.held E.faults input.old input.new output.old output.new errors.old errors.new result }
    ensures status { IsStatusOfRun result }
    ensures complete { (bytes : List ℕ) (trace : ATrace) → S.left input.old ≡ Some bytes → Spells bytes trace → result ≢ 3 }
{
    let trace = match read_whole(alloc, input) {
        Ok(trace) => trace,
        Err(fault) => return refuse_trace(errors, fault),
    };
    let Ok(ran) = run_trace(rt, alloc, &trace, options, gate) else {
        return refuse_trace(errors, TraceFault::NoMemory);
    };
    match write_report(output, &ran.report) {
        Ok(()) => 0,
        Err(_) => stop_writing(errors),
    }
}
