ghost use Rattle.std.specs.Prelude.{◌≡◌};
ghost use Rattle.report_text.specs.declared.fault.ReportFault.TheVariants.{NoMemory as OutOfMemory};

use edge_io::NoMemory;

/// Why a text is no report's. A line's number counts from 1, and the first line with which the lines so far begin no
/// report's text decides.
#[derive(Clone, Copy, Debug, PartialEq, Eq)]
pub enum ReportFault {
    /// The source failed before the byte or the end of input that ends a line.
    ReadFault,
    /// The line has more than 120 bytes, another form, or does not stand where it may.
    Malformed(u64),
    /// The input ended inside the line, or where it should begin.
    Truncated(u64),
    /// The bytes so far are past the limit.
    Limit(u64),
    /// Memory ran out.
    NoMemory,
}

impl From<NoMemory> for ReportFault {
    ghost from_gives = { λ _ e. e ≡ OutOfMemory };

    fn from(_: NoMemory) -> Self {
        ReportFault::NoMemory
    }
}
