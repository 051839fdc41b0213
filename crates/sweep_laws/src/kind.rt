/// The lists of a hand that a need asks for.
#[derive(Clone, Copy, Debug, PartialEq, Eq)]
pub enum Kind {
    /// Spans that it sweeps.
    Sweeping,
    /// Swept spans that it holds.
    Held,
    /// Spans that it has cached.
    Cached,
    /// Entries that it popped from unswept sets.
    Popped,
}
