//! Why a report is refused.

ghost use Rattle.std.specs.Prelude.{◌≡◌};
ghost use Rattle.report_check.specs.declared.fault.CheckFault.TheVariants.{NoMemory as OutOfMemory};

use edge_io::NoMemory;

/// Why a report is refused.
#[derive(Clone, Copy, Debug, PartialEq, Eq)]
pub enum CheckFault {
    /// The first rule that the report breaks, and the first of its lines that breaks it, from 1.
    Broken { rule: u8, line: u64 },
    /// Memory ran out.
    NoMemory,
}

impl From<NoMemory> for CheckFault {
    ghost from_gives = { λ _ fault. fault ≡ OutOfMemory };

    fn from(_: NoMemory) -> Self {
        CheckFault::NoMemory
    }
}
