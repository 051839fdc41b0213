//! The judge of reports: which rule a report breaks first, and the first of its lines that breaks it.
//!
//! `check` tries the rules in their order, each in passes that answer the least line that breaks it: answers (`items`), the
//! journal (`journal`, by a `replay` over the pages and the page caches), misses (`misses`), places (`places`, by the table of
//! open lives in `lives`), overlaps (`apart`), filling (`filling`, by the table of last cycles in `tops`), sweeps (`gives`,
//! `sweeps`, by what `ledger` counts at each mark end, and `unswept`), totals (`totals`) and the profile (`profile`, by the
//! samples of `sampled`, whose buckets are searched among `sorted` numbers).
//! From rule 5 on each object has its seat (`objects`) and its last cycle (`lasts`), so that no rule searches for a life or
//! asks the marks again. `totals` tries rule 8 alone too, where rule 1 is met. The parts are offered each by itself, and the
//! rules 5 and 6 of a `piece` of the objects alone.
//!
//! `check_version` (`versions`) judges by the rules of the trace's version: of a trace with tiny objects the base that `tiny`
//! makes, by the same rules, and the objects that ride in the blocks of others by a tenth. A `view` of a report has the base's
//! answers in place of those that it prints.
//!
//! `specs/Lines.antt` numbers the lines of a report. `Answers.antt`, `Placing.antt`, `Closing.antt` and `Published.antt` say
//! which of them breaks each rule, `Broken.antt` which rule is the first and which line the least, and `Versions.antt` the same
//! of a trace of any version. `laws` says that where a line is named so, the report doesn't meet that rule, and that rule 2 is
//! that of `Plain.antt` where no processor has a page cache.
#![tactic(auto)]

mod apart;
mod asked;
mod cycle_lives;
mod fault;
mod filling;
mod gives;
mod items;
mod journal;
mod judge;
mod keys;
mod lasts;
mod laws;
mod ledger;
mod lines;
mod lives;
mod misses;
mod objects;
mod piece;
mod pieces;
mod places;
mod profile;
mod replay;
mod sampled;
mod sorted;
mod sweeps;
mod tiny;
mod tops;
mod totals;
mod unswept;
mod versions;
mod view;

pub use asked::{Asked, asked_of};
pub use cycle_lives::Opened;
pub use fault::CheckFault;
pub use filling::{Filling, SPAN_CLASSES};
pub use gives::judge_gives;
pub use items::{Item, is_right, items_of};
pub use journal::judge_journal;
pub use judge::{check, check_first_rules};
pub use lasts::lasts_of;
pub use laws::{
    a_broken_report_breaks_its_rule, a_plain_journal_breaks_the_same_lines,
    version_1_breaks_the_same_lines,
};
pub use lines::end_of;
pub use lives::{OpenLife, Seat, seat_of};
pub use misses::judge_misses;
pub use objects::Objects;
pub use piece::Piece;
pub use pieces::{MAX_PIECES, Pieces};
pub use places::{first_lost, judge_places};
pub use replay::{Replay, cycle_of};
pub use tiny::{BaseReport, base_report, judge_riders};
pub use tops::Tops;
pub use totals::judge_totals;
pub use unswept::judge_lives;
pub use versions::check_version;
pub use view::ReportView;
