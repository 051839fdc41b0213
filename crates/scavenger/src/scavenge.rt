ghost use Rattle.std.specs.Prelude.{◌≡◌, IfOk, false, true};
ghost use Rattle.span_laws.specs.Asks.{IsAtWork};
ghost use Rattle.span_laws.specs.Views.{drives};
ghost use Rattle.scavenger.specs.Scavenges.{EndsScavenged, IsReason, Scavenges, ScavengesApart};

use fallible_list::NoMemory;
use span_table::{Shared, Worker};
use std::sync::Wait;

/// Why the scavenger stopped.
#[derive(Clone, Copy, Debug, PartialEq, Eq)]
pub enum Reason {
    /// Backed pages were at most the goal.
    AtGoal,
    /// More pages were backed than the goal, and no free page was.
    NoCandidate,
    /// As many runs were released as the region has pages.
    TurnsSpent,
}

/// How a call of the scavenger ended.
#[derive(Clone, Copy, Debug, PartialEq, Eq)]
pub struct Stopped {
    /// The backed pages after its last step.
    pub backed: u32,
    /// Why it was the last one.
    pub reason: Reason,
}

/// Why a step that released nothing did so.
fn reason_of(backed: u32, goal: u32) -> Reason
    ensures { IsReason backed goal result }
{
    if backed <= goal {
        Reason::AtGoal
    } else {
        Reason::NoCandidate
    }
}

/// Scavenges to the goal: it makes scavenging steps until one releases nothing, and at most as many as the region has pages
/// (`mgcscavenge.go`, `bgscavenge`; the goal in pages and the bound on steps are ours). The driver knows the whole journal then;
/// another worker knows that each of its steps stood behind some legal journal. After NoMemory the steps made before stand.
pub fn scavenge_to<R: Wait>(rt: &R, shared: &Shared, w: &mut Worker) -> Result<Stopped, NoMemory>
    requires works { IsAtWork shared.now w.old }
    ensures same { w.new ≡ record w.old { journal = w.new.journal } }
    ensures steps { drives w.old ≡ true → Scavenges w.old w.new result }
    ensures scavenged { drives w.old ≡ true → IfOk result (λ _. EndsScavenged w.new) }
    ensures apart { drives w.old ≡ false → ScavengesApart w.old w.new result }
{
    let goal = shared.goal(w);
    let region = shared.region(w);
    let mut backed = 0;
    for _turn in 0..region {
        let step = shared.scavenge_step(rt, w)?;
        backed = step.backed;
        if step.run.is_none() {
            let reason = reason_of(backed, goal);
            return Ok(Stopped { backed, reason });
        }
    }
    Ok(Stopped {
        backed,
        reason: Reason::TurnsSpent,
    })
}
