//! The program that the scripts under `bench/` time. Its first word names a layer, and the others say what to do there:
//!
//! - `core`: moves of the ownership core (`ownership`)
//! - `table`: calls of the shared span table, and the same moves of the core (`table`)
//! - `bitmap`: searches in a chunk of pages (`bitmap`)
//! - `pages`: takes, gives and searches in a region (`pages`)
//! - `marks`: marks and sweeps of full spans (`marks`)
//! - `history`: totals of a trace from standard input (`history`)
//! - `profile`: samples and counts of the sampled profile (`profile`)
//!
//! The layers' modules say their words. No words do a few calls in each layer.
#![tactic(auto)]

mod bitmap;
mod found;
mod history;
mod layer;
mod marks;
mod ownership;
mod pages;
mod profile;
mod stop;
mod table;

use edge_io::{Lines, StdSource};
use found::print;
use layer::Layer;
use std::process::ExitCode;
use std::rt::Env;
use std::{env, io};
use stop::Stop;

/// The most bytes of a trace.
const MAX_BYTES: u64 = 67_108_864;

fn words<R: Env + AllocGlobal>(rt: &R) -> io::Result<Vec<String>> {
    let mut words = Vec::new(rt.alloc());
    for word in env::args(rt)?.skip(1) {
        words.push(word)?;
    }
    Ok(words)
}

fn status_of(stop: Stop) -> ExitCode {
    match stop {
        Stop::Words => ExitCode::from(2),
        Stop::Trace => ExitCode::from(3),
        Stop::Refused => ExitCode::from(4),
        Stop::NoMemory => ExitCode::from(1),
    }
}

fn main(rt: HostRuntime) -> io::Result<ExitCode> {
    let words = words(&rt)?;
    let mut source = StdSource::new(rt.stdin());
    let mut lines = Lines::new(&mut source, MAX_BYTES);
    if let [name, rest @ ..] = words.as_slice() {
        let Some(layer) = Layer::named(name.as_str()) else {
            return Ok(status_of(Stop::Words));
        };
        return match layer.asked(&rt, rt.alloc(), rest, &mut lines) {
            Ok(found) => {
                print(&rt, &found)?;
                Ok(ExitCode::from(0))
            }
            Err(stop) => Ok(status_of(stop)),
        };
    }
    for layer in Layer::ALL {
        match layer.few(&rt, rt.alloc(), &mut lines) {
            Ok(found) => print(&rt, &found)?,
            Err(stop) => return Ok(status_of(stop)),
        }
    }
    Ok(ExitCode::from(0))
}
