ghost use Rattle.std.specs.Prelude.{◌≡◌, ◌<◌, true, None, Some};
ghost use Rattle.sweep_laws.specs.Lists.{has};
ghost use Rattle.span_laws.specs.Asks.{HasBody, IsAtWork};
ghost use Rattle.span_laws.specs.OwnSteps.{after_said};
ghost use Rattle.span_set.specs.Sets.{MayPush, swept_of};

use crate::sets::{Claim, SetId, swept_number};
use span_state::Body;
use span_table::{Said, Shared, Worker};

/// Claims an index of the swept part of a set for a span that the worker holds, while it has claimed nothing, and brings the body
/// home. The set is of the body's class, the full one exactly where the body has no free index; the body has an object at
/// least, and the worker has not popped it from that set since the last mark end, nor placed an object in it for a
/// partial set. The claim is to be filled (`mspanset.go`, `push`). Takes no memory.
pub fn claim(shared: &Shared, w: &mut Worker, set: SetId, body: Body) -> Claim
    // the worker
    requires works { IsAtWork shared.now w.old }
    requires unclaimed { w.old.view.own.claimed ≡ None }

    // the set, and the span that goes there
    requires class { set.class < 136 }
    requires held { has body.page w.old.view.own.held ≡ true }
    requires lent { HasBody w.old.view.own body }
    requires may { MayPush set body w.old }

    // the claim
    ensures set { result.set ≡ swept_of w.old.view.generation set }
    ensures page { result.page ≡ body.page }

    // the worker behind it
    ensures view { w.new ≡ after_said (Said.Claims result.set result.index result.page) (after_said (Said.Reads 1 w.old.view.generation) w.old) }
{
    let generation = shared.generation(w);
    let number = swept_number(set, generation);
    let page = body.page;
    let index = shared.claim_index(w, number, body);
    Claim {
        set: number,
        index,
        page,
    }
}

/// Fills the cell of the worker's own claim, and lets go of the span. Takes no memory.
pub fn fill(shared: &Shared, w: &mut Worker, claim: Claim)
    requires works { IsAtWork shared.now w.old }
    requires claimed { w.old.view.own.claimed ≡ Some (record { set = claim.set; index = claim.index; page = claim.page }) }
    ensures { w.new ≡ after_said (Said.Fills claim.set claim.page) w.old }
{
    shared.fill_cell(w, claim.set, claim.index, claim.page);
}

/// Pushes a span that the worker holds to the swept part of a set: `claim`, then `fill`, with what `claim` asks. Takes no
/// memory.
pub fn push(shared: &Shared, w: &mut Worker, set: SetId, body: Body)
    // the worker
    requires works { IsAtWork shared.now w.old }
    requires unclaimed { w.old.view.own.claimed ≡ None }

    // the set, and the span that goes there
    requires class { set.class < 136 }
    requires held { has body.page w.old.view.own.held ≡ true }
    requires lent { HasBody w.old.view.own body }
    requires may { MayPush set body w.old }

    // the worker behind it
    ensures { w.new ≡ after_said (Said.Fills (swept_of w.old.view.generation set) body.page) (after_said (Said.Reads 1 w.old.view.generation) w.old) }
{
    let claimed = claim(shared, w, set, body);
    fill(shared, w, claimed);
}
