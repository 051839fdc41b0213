//! The word `gen`: a made trace in place of one that is read; and the words that ask for one.

ghost use Rattle.std.specs.Prelude.{ℕ, MatchOption};
ghost use Rattle.commands.specs.Asks.{made_text};
ghost use Rattle.alloc_tool.specs.Plain.{Writes};
ghost use Rattle.alloc_tool.specs.Words.{AsksForMade};

use commands::{MadeFault, Wanted, read_words, refuse_trace, stop_writing, write_made};
use edge_io::Sink;
use std::alloc::Global;
use trace_reader::TraceFault;

/// The made trace that the words ask for, if they are this word, `SEED` and `OBJECTS`.
pub(crate) fn wanted_by(words: &[String], word: &str) -> Option<Wanted>
    ensures { MatchOption result ((seed objects : ℕ) → ¬ AsksForMade word.now words.now seed objects) (λ wanted. AsksForMade word.now words.now wanted.seed wanted.objects) }
{
    if words.len() != 3 || words[0].as_str() != word {
        return None;
    }
    read_words(words[1].as_str().as_bytes(), words[2].as_str().as_bytes())
}

/// Writes the made trace.
pub(crate) fn generate<K: Sink, E: Sink>(
    alloc: Global,
    wanted: Wanted,
    output: &mut K,
    errors: &mut E,
) -> u8
    ensures { Writes K.held K.faults E.held E.faults (made_text wanted.seed wanted.objects) output.old output.new errors.old errors.new result }
{
    match write_made(alloc, output, wanted) {
        Ok(()) => 0,
        Err(MadeFault::Failed) => stop_writing(errors),
        Err(MadeFault::NoMemory) => refuse_trace(errors, TraceFault::NoMemory),
    }
}
