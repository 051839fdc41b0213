//! Rule 10: the objects that ride in the blocks of others.

ghost use Rattle.std.specs.Prelude.{◌≡◌, length, IfErr, MatchBool, OnOk};
ghost use Rattle.report_check.specs.Fault.{IsFaultOf, MeetsChecked};
ghost use Rattle.trace_reader.specs.declared.trace.Trace.{Trace as ATrace};
ghost use Rattle.tiny_alloc.specs.Base.{riders_below};
ghost use Rattle.tiny_alloc.specs.Riders.{part_at};
ghost use Rattle.tiny_alloc.specs.Sound.{AreRiding};
ghost use Rattle.report_check.specs.Answered.{having_answers};
ghost use Rattle.report_check.specs.Based.{IsBaseReport};
ghost use Rattle.report_check.specs.Versions.{BreaksRiding, IsJudgedTiny, IsRidingAt, placed_at};

use crate::CheckFault;
use crate::tiny::based::BaseReport;
use cycle_history::{Answer, Report};
use tiny_alloc::Rider;

/// Tries rule 10, the last one, where the base meets the other rules.
pub fn judge_riders(report: &Report, base: &BaseReport) -> Result<(), CheckFault>
    ensures { (t : ATrace) → IsBaseReport t report.now base.now → MeetsChecked base.now.trace (having_answers report.now base.now.answers) → IsJudgedTiny t report.now result }
{
    judge_riding(report.answers.as_slice(), base.riders.as_slice())
}

// Whether each of these riders, which are those of a trace with the answers, stands in its lead's block where it rides.
fn judge_riding(answers: &[Answer], riders: &[Rider]) -> Result<(), CheckFault>
    ensures riding { (t : ATrace) → riders.now ≡ riders_below (part_at t answers.now) (length answers.now) → OnOk result (AreRiding t answers.now) }
    ensures fault { (t : ATrace) → riders.now ≡ riders_below (part_at t answers.now) (length answers.now) → IfErr result (IsFaultOf 10 (BreaksRiding t answers.now)) }
{
    for rider in riders {
        if !is_riding(answers, *rider) {
            return Err(CheckFault::Broken {
                rule: 10,
                line: u64::from(rider.object) + 1,
            });
        }
    }
    Ok(())
}

// Whether the rider's lead is placed, and the rider's address is the lead's plus its offset.
fn is_riding(answers: &[Answer], rider: Rider) -> bool
    ensures { MatchBool result (IsRidingAt answers.now rider.object rider.lead rider.offset) (¬ IsRidingAt answers.now rider.object rider.lead rider.offset) }
{
    let Some(start) = address_at(answers, rider.lead) else {
        return false;
    };
    let Some(own) = address_at(answers, rider.object) else {
        return false;
    };
    if own < start {
        return false;
    }
    own - start == u64::from(rider.offset)
}

// The address of an object, if it is placed.
fn address_at(answers: &[Answer], object: u32) -> Option<u64>
    ensures { result ≡ placed_at answers.now object }
{
    match answers.get(object as usize) {
        Some(Answer::Placed(address)) => Some(*address),
        _ => None,
    }
}
