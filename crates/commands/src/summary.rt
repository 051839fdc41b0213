//! The eight lines, put together in memory.

ghost use Rattle.std.specs.Prelude.{◌≡◌, ◌++◌, ◌∷◌, ◌≤◌, [], length, IfOk, OnOk};
ghost use Rattle.commands.specs.Summary.{counted, summary_text};

use crate::sums::{frees, mallocs, objects, placed, refused, sampled, sampled_dead};
use cycle_history::Report;
use fallible_list::NoMemory;
use itoa::Buffer;
use std::alloc::Global;
use trace_reader::Trace;

// The text of a trace and its report.
pub(crate) fn summary(alloc: Global, trace: &Trace, report: &Report) -> Result<Vec<u8>, NoMemory>
    requires some { 1 ≤ length trace.now.cycles }
    requires few { length trace.now.cycles ≤ 10001 }
    ensures { IfOk result (λ text. text.items ≡ summary_text trace.now report.now) }
{
    let last = trace.cycles.len() as u32 - 1;
    let answers = report.answers.as_slice();
    let totals = report.totals.as_slice();
    let profile = report.profile.as_slice();
    let mut text = Vec::new(alloc);
    push_line(&mut text, b"objects ", objects(trace.cycles.as_slice()))?;
    push_line(&mut text, b"placed ", placed(answers))?;
    push_line(&mut text, b"refused ", refused(answers))?;
    push_line(&mut text, b"mark ends ", u128::from(last))?;
    push_line(&mut text, b"mallocs ", mallocs(totals))?;
    push_line(&mut text, b"frees ", frees(totals))?;
    push_number(&mut text, b"sampled ", sampled(profile, last))?;
    push_line(&mut text, b" ", sampled_dead(profile, last))?;
    text.extend_from_slice(b"check ok\n")?;
    Ok(text)
}

// Appends a name, a number and a line feed.
fn push_line(text: &mut Vec<u8>, name: &[u8], number: u128) -> Result<(), NoMemory>
    ensures { OnOk result (text.new.items ≡ text.old.items ++ (counted name.now number ++ 10 ∷ [])) }
{
    push_number(text, name, number)?;
    text.push(b'\n')?;
    Ok(())
}

// Appends a name and a number.
fn push_number(text: &mut Vec<u8>, name: &[u8], number: u128) -> Result<(), NoMemory>
    ensures { OnOk result (text.new.items ≡ text.old.items ++ counted name.now number) }
{
    let mut digits = Buffer::new();
    text.extend_from_slice(name)?;
    text.extend_from_slice(digits.format(number).as_bytes())?;
    Ok(())
}
