//! Sums over a trace and its report. Each number has 64 bits, so that no sum of them passes 128.

ghost use Rattle.std.specs.Prelude.{◌≡◌};
ghost use Rattle.std.specs.List.{sum_by};
ghost use Rattle.commands.specs.Summary.{dead_at, frees_of, mallocs_of, objects_asked, one_placed, one_refused, sampled_at};

use cycle_history::{Answer, Prof, Total};
use trace_reader::Cycle;

// The objects of these cycles.
pub(crate) fn objects(cycles: &[Cycle]) -> u128
    ensures { result ≡ sum_by objects_asked cycles.now }
{
    let mut sum: u128 = 0;
    for cycle in cycles {
        sum += cycle.events.len() as u128;
    }
    sum
}

// The placed objects.
pub(crate) fn placed(answers: &[Answer]) -> u128
    ensures { result ≡ sum_by one_placed answers.now }
{
    let mut sum: u128 = 0;
    for answer in answers {
        sum += u128::from(one_if_placed(*answer));
    }
    sum
}

// The refused objects.
pub(crate) fn refused(answers: &[Answer]) -> u128
    ensures { result ≡ sum_by one_refused answers.now }
{
    let mut sum: u128 = 0;
    for answer in answers {
        sum += u128::from(one_if_refused(*answer));
    }
    sum
}

fn one_if_placed(answer: Answer) -> u64
    ensures { result ≡ one_placed answer }
{
    match answer {
        Answer::Placed(_) => 1,
        Answer::Zero | Answer::Missed(_) => 0,
    }
}

fn one_if_refused(answer: Answer) -> u64
    ensures { result ≡ one_refused answer }
{
    match answer {
        Answer::Missed(_) => 1,
        Answer::Zero | Answer::Placed(_) => 0,
    }
}

// The placed objects of all size classes.
pub(crate) fn mallocs(totals: &[Total]) -> u128
    ensures { result ≡ sum_by mallocs_of totals.now }
{
    let mut sum: u128 = 0;
    for total in totals {
        sum += u128::from(total.mallocs);
    }
    sum
}

// Those of them that died.
pub(crate) fn frees(totals: &[Total]) -> u128
    ensures { result ≡ sum_by frees_of totals.now }
{
    let mut sum: u128 = 0;
    for total in totals {
        sum += u128::from(total.frees);
    }
    sum
}

// The sampled objects as of this mark end.
pub(crate) fn sampled(profile: &[Prof], mark: u32) -> u128
    ensures { result ≡ sum_by (sampled_at mark) profile.now }
{
    let mut sum: u128 = 0;
    for line in profile {
        sum += u128::from(allocs_at(line, mark));
    }
    sum
}

// Those of them that died.
pub(crate) fn sampled_dead(profile: &[Prof], mark: u32) -> u128
    ensures { result ≡ sum_by (dead_at mark) profile.now }
{
    let mut sum: u128 = 0;
    for line in profile {
        sum += u128::from(frees_at(line, mark));
    }
    sum
}

fn allocs_at(line: &Prof, mark: u32) -> u64
    ensures { result ≡ sampled_at mark line.now }
{
    if line.mark == mark { line.allocs } else { 0 }
}

fn frees_at(line: &Prof, mark: u32) -> u64
    ensures { result ≡ dead_at mark line.now }
{
    if line.mark == mark { line.frees } else { 0 }
}
