//! What a report has besides what a run kept of its cycles.

ghost use Rattle.std.specs.Prelude.{◌≡◌, ◌≤◌, ◌++◌, true, List as Items, length, Some, IfOk, OnOk};
ghost use Rattle.page_alloc.specs.Journal.{past_of};
ghost use Rattle.trace_reader.specs.Limits.{events_of};
ghost use Rattle.cycle_history.specs.Before.{IsLimited};
ghost use Rattle.cycle_history.specs.Counted.{AreObjectsOf, AreZeros};
ghost use Rattle.cycle_history.specs.Objects.{Object};
ghost use Rattle.cycle_history.specs.Requests.{last_cycle, marked_by};
ghost use Rattle.cycle_history.specs.Sweeps.{AreTotals};
ghost use Rattle.profile_lines.specs.Read.{AreFew, IsOrder, all_lines};
ghost use Rattle.span_laws.specs.Asks.{IsAtWork, KnowsJournal};

use crate::profile::Profile;
use cycle_history::{Answer, Total, totals_of};
use edge_io::{List, NoMemory};
use page_bitmap::Line;
use profile_cycle::Tally;
use span_table::{Shared, Worker};
use std::alloc::Global;
use trace_reader::Trace;

/// Reads what a report has besides what the run kept: the lines of the last mark end into the profile, the whole journal and the totals.
/// Without memory the profile may have some of the lines.
// It stands alone, so that the run is let go at one place where memory runs out.
pub(crate) fn read_rest(
    alloc: Global,
    trace: &Trace,
    answers: &List<Answer>,
    shared: &Shared,
    driver: &mut Worker,
    tally: &mut Tally,
    profile: &mut Profile,
) -> Result<(List<Line>, List<Total>), NoMemory>
    // the trace
    requires limits { IsLimited trace.now }

    // the driver's tally
    requires ring { tally.old.ring ≡ profile.old.ring }
    requires drives { tally.old.view.drives ≡ true }
    requires alone { tally.old.view.out ≡ 0 }

    // the known buckets and their counts
    requires room { length profile.old.known ≤ profile.old.ring.buckets }
    requires order { IsOrder profile.old.known profile.old.order }
    requires few { AreFew (length profile.old.known) tally.old.view.calls }

    // the driver, which knows the journal
    requires works { IsAtWork shared.now driver.old }
    requires driver { driver.old.number ≡ 69 }
    requires told { KnowsJournal driver.old }

    // what the run answered
    requires answers { length answers.now ≡ length (events_of trace.now) }
    requires zeros { AreZeros trace.now answers.now }

    // the profile with the lines
    ensures lines { OnOk result (profile.new.lines ≡ profile.old.lines ++ all_lines profile.old.known tally.old.view.calls (last_cycle trace.now) profile.old.order) }

    // what stays
    ensures same { OnOk result (driver.new ≡ driver.old) }

    // what is answered
    ensures journal { IfOk result (λ rest. driver.old.journal ≡ Some (past_of rest.0)) }
    ensures totals { IfOk result (λ rest. (objects : Items Object) → AreObjectsOf trace.now answers.now objects → AreTotals (marked_by trace.now) (last_cycle trace.now) objects rest.1) }
{
    profile.read_last(tally, trace.cycles.len() as u32 - 1)?;
    let journal = shared.journal_copy(alloc, driver)?;
    let totals = totals_of(alloc, trace, answers)?;
    Ok((journal, totals))
}
