//! The commands of the program: which words ask for what, what `gen`, `demo`, `classes` and `heap` write, what `check` reads, and
//! what is told of a call that stops without its answer. The run itself, and the top call, stand above.
#![tactic(auto)]

mod classes;
mod demo;
mod heap;
mod judge;
mod made;
mod numbers;
mod options;
mod pair;
mod pieces;
mod refusals;
mod run_words;
mod stop;
mod summary;
mod sums;
mod wanted;
mod watchers;

pub use classes::write_classes;
pub use demo::{SummaryFault, write_summary};
pub use heap::show_heap;
pub use judge::{Judge, check_input};
pub use made::{MadeFault, write_made};
pub use options::{RunOptions, read_options};
pub use pair::read_pair;
pub use pieces::pieces_of;
pub use refusals::{refuse_pair, refuse_trace, refuse_words, stop_writing};
pub use run_words::are_of_run;
pub use stop::{Stop, Verdict};
pub use wanted::{Wanted, read_words};
pub use watchers::watchers_of;
