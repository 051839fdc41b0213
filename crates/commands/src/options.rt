//! What the options of `run` ask for.

ghost use Rattle.std.specs.Prelude.{◌≡◌, ◌≤◌, ℕ, Bool, IfErr, IfOk, map, string_bytes};
ghost use Rattle.clap.specs.Words.{found_of, kind_of};
ghost use Rattle.commands.specs.Options.{AreOfRun, IsRun};
ghost use Rattle.commands.specs.HasRead.{HasRead};

use clap::error::ErrorKind;
use clap::{Arg, ArgAction, ArgMatches, Command, Error};
use fallible_list::NoMemory;
use std::alloc::Global;

/// What the options of `run` ask for.
#[derive(Clone, Copy, Debug, PartialEq, Eq)]
pub struct RunOptions {
    /// Background sweepers, from 0 to 4.
    pub background: u32,
    /// Whether the report has the profile of each mark end, and not of the last alone.
    pub each: bool,
}

/// What the options ask for: without one, one background sweeper and the last profile. The words are those of `run`
/// ([`are_of_run`](crate::are_of_run)), so that nothing but want of memory is refused.
pub fn read_options(alloc: Global, words: &[String]) -> Result<RunOptions, NoMemory>
    requires { AreOfRun (map string_bytes words.now) }
    ensures asked { IfOk result (λ options. IsRun (map string_bytes words.now) options.background options.each) }
    ensures only { IfOk result (λ options. (n : ℕ) (each : Bool) → IsRun (map string_bytes words.now) n each → (options.background ≡ n) × (options.each ≡ each)) }
    ensures few { IfOk result (λ options. options.background ≤ 4) }
{
    match parse(alloc, words) {
        Ok(matches) => Ok(RunOptions {
            background: matches.get_one("background").unwrap_or(1),
            each: matches.get_flag("each"),
        }),
        Err(_) => Err(NoMemory),
    }
}

// The command line of `run`, whose name is its first word.
fn parse<'a>(alloc: Global, words: &'a [String]) -> Result<ArgMatches<'a>, Error>
    requires { AreOfRun (map string_bytes words.now) }
    ensures read { IfOk result (λ matches. (n : ℕ) (each : Bool) → IsRun (map string_bytes words.now) n each → HasRead (found_of matches) n each) }
    ensures memory { IfErr result (λ error. kind_of error ≡ ErrorKind.OutOfMemory) }
{
    let background = Arg::new(alloc, "background")
        .long("background")
        .default_value("1");
    let each = Arg::new(alloc, "each")
        .long("each")
        .action(ArgAction::SetTrue);
    let command = Command::new(alloc, "run").arg(background)?.arg(each)?;
    command.try_get_matches_from(words)
}
