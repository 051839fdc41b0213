//! What a trace with tiny objects asks of its report besides the nine rules of its base: rule 1 of the trace itself (`answers`), its base
//! (`based`), and rule 10, of the objects that ride in the blocks of others (`riders`).

mod answers;
mod based;
mod riders;

pub use based::{BaseReport, base_report};
pub use riders::judge_riders;
