//! What is known of a report that meets the rules 1 to 4.

use crate::items::Item;
use crate::view::ReportView;
use trace_reader::Trace;

/// The objects of a report that meets the rules 1 to 4, in their seats.
#[derive(Drop)]
pub struct Objects<'a> {
    /// The trace.
    pub trace: &'a Trace,
    /// The report.
    pub report: &'a ReportView<'a>,
    /// Its objects in their seats.
    pub items: &'a [Item],
    /// The last cycle in which each item lives, if it is placed.
    pub lasts: &'a [u32],
}
