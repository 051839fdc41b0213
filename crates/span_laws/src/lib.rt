//! What contracts see of the workers that share spans: their views and logs, how each step changes them, what calls ask and
//! answer, and the rule that ties the views to the core, the pages and the bodies, with the laws that keep it.
//!
//! `specs/Views.antt` has what contracts see, and `specs/OwnSteps.antt`, `specs/Handed.antt` and `specs/MarkEnds.antt` how it
//! changes. `specs/Asks.antt`, `specs/BodyAsks.antt` and `specs/MarkEndAsks.antt` have what calls ask, `specs/Answers.antt`,
//! `specs/TakeAnswers.antt`, `specs/CacheAnswers.antt` and `specs/ScavengeAnswers.antt` what they answer, `specs/Caches.antt` what a page
//! cache has to do with the log, and `specs/Rule.antt` the rule.
#![tactic(auto)]

mod answers;
mod said;
mod view;

pub use answers::{Acquired, Pulled, Refused, Step, Uncached};
pub use said::{Said, SaidOf};
pub use view::{Cell, Part, Span, View};
pub use worker_log::Entry;
