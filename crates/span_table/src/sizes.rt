//! How large the region is.
ghost use Rattle.std.specs.Prelude.{◌≡◌, ◌≤◌};

use crate::shared::{Shared, Worker};
use size_classes::{CHUNK_PAGES, MAX_PAGES};

impl Shared {
    /// The number of pages of the region: 512 to 2097152.
    pub fn region(&self, w: &Worker) -> u32
        requires table { w.now.table ≡ self.now }
        ensures region { result ≡ w.now.view.region }
        ensures some { 512 ≤ result }
        ensures most { result ≤ MAX_PAGES }
    {
        let _seat = &w.seat;
        CHUNK_PAGES * self.chunks
    }

    /// The goal for backed pages, in pages.
    pub fn goal(&self, w: &Worker) -> u32
        requires { w.now.table ≡ self.now }
        ensures { result ≡ w.now.view.goal }
    {
        w.goal
    }
}
