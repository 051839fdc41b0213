//! Sweeping, paying for allocation by sweeping, reclaiming pages, and new spans, over the sets of spans.
//!
//! `specs/Work.antt` says what each of these calls leaves of a hand, and what the log of a call has. `specs/Sweeps.antt`,
//! `specs/Pays.antt`, `specs/Reclaims.antt` and `specs/NewSpans.antt` say what each did by its answer.
#![tactic(auto)]

mod answers;
mod cuts;
mod laws;
mod payments;
mod reclaimer;
mod settle;
mod spans;
mod sweep;

pub use answers::{Paid, SweptOne};
pub use laws::a_refused_sweep_may_be_made_again;
pub use payments::{finish, pay};
pub use reclaimer::reclaim;
pub use settle::settle as settle_span;
pub use span_table::Refused;
pub use spans::new_span;
pub use sweep::sweep_one;
