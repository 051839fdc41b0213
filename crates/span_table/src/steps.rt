//! A worker's own steps.
ghost use Rattle.std.specs.Prelude.{◌≡◌, ℕ, ◌+◌, ◌<◌, ◌≤◌, true, [], ◌∷◌};
ghost use Rattle.span_laws.specs.Answers.{AcquiresSpan, IsAhead};
ghost use Rattle.span_laws.specs.Views.{acts};
ghost use Rattle.span_laws.specs.OwnSteps.{after_of, after_said};

use crate::plays::{Acquire, Look, ReadGeneration, Return};
use crate::shared::{Shared, Worker};
use crate::view::Item;
use crate::words::{halves, word_of_page, word_of_set};
use span_laws::{Acquired, Said};

impl Shared {
    /// The heap generation, from 4 to 2^33, which a log entry tells (word 1).
    pub fn generation(&self, w: &mut Worker) -> u64
        requires table { w.old.table ≡ self.now }
        ensures value { result ≡ w.old.view.generation }
        ensures range { (4 ≤ result) × (result ≤ 8589934592) }
        ensures view { w.new ≡ after_said (Said.Reads 1 result) w.old }
    {
        let table = &self.table;
        table.shared.load::<ReadGeneration>(&mut w.seat, 1)
    }

    /// Head and tail of a set, which a log entry tells.
    pub fn look(&self, w: &mut Worker, set: u32) -> (u32, u32)
        requires table { w.old.table ≡ self.now }
        requires set { set < 544 }
        ensures view { w.new ≡ after_said (Said.Looks set result.0 result.1) w.old }
        ensures ahead { IsAhead set result.0 result.1 w.old.view.own.log }
    {
        let table = &self.table;
        let place = word_of_set(self.chunks, set);
        let word = table.shared.load::<Look>(&mut w.seat, place);
        halves(word)
    }

    /// A worker begins to sweep the span of a page of the region whose word is G-2, and gets its body; else it is told the
    /// word, and an entry of the page that it popped is dropped.
    pub fn acquire(&self, w: &mut Worker, page: u32) -> Acquired
        requires table { w.old.table ≡ self.now }
        requires page { page < w.old.view.region }
        ensures { AcquiresSpan page w.old w.new result }
    {
        let table = &self.table;
        let waits = w.generation - 2;
        let place = word_of_page(page);
        let word = table
            .shared
            .compare_exchange::<Acquire>(&mut w.seat, place, waits, waits + 1);
        if word != waits {
            return Acquired::Other(word);
        }
        let Item::Span(body) = table
            .shared
            .exchange(&mut w.seat, page as usize + 1, Item::Nothing)
        else {
            unreachable!()
        };
        table.shared.load::<Return>(&mut w.seat, 0);
        Acquired::Got(body)
    }
}
