use fallible_list::NoMemory;
use sweep_generation::StepFault;

/// Why a run ended early.
#[derive(Clone, Copy, Debug)]
pub enum Stop {
    /// The words are not those of a layer.
    Words,
    /// The trace was not read.
    Trace,
    /// The ownership core refused a move.
    Refused,
    /// Memory ran out.
    NoMemory,
}

impl From<NoMemory> for Stop {
    fn from(_: NoMemory) -> Self {
        Stop::NoMemory
    }
}

impl From<StepFault> for Stop {
    fn from(_: StepFault) -> Self {
        Stop::Refused
    }
}
