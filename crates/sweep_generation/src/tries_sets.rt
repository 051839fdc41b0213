//! The needs of pushes and pops, in their order. They read, and write nothing.

ghost use Rattle.std.specs.Prelude.{◌≡◌, ◌<◌, OnOk, IfOk, length, Some, [], ◌∷◌, true, false};
ghost use Rattle.sweep_laws.specs.Reading.{hand_of, set_of, cell_of, is_swept_set as is_of_swept_part};
ghost use Rattle.sweep_laws.specs.NeedsOfRange.{set_in_range};
ghost use Rattle.sweep_laws.specs.NeedsOfSets.{part_is_swept, part_is_unswept, life_begins, class_is_of_set, has_entries, tail_has_room, cell_is_filled};
ghost use Rattle.sweep_laws.specs.Needs.{claim_needs, fill_needs, pop_swept_needs, pop_unswept_needs};
ghost use Rattle.sweep_laws.specs.ChangesOfSets.{head_base as base_at_head};
ghost use Rattle.sweep_laws.specs.Tries.{Tried};

use crate::state::Core;
use crate::tries::demand;
use crate::tries_next::is_swept;
use sweep_laws::{Claimed, Found, Kind, StepFault};

impl Core {
    fn try_set(&self, set: u32) -> Result<(), StepFault>
        ensures ok { OnOk result (set < length self.now.sets) }
        ensures tried { Tried (set_in_range self.now set ∷ []) result }
    {
        demand((set as usize) < self.sets.len(), Found::Range)
    }

    // Whether a set is of the part that is swept in this generation.
    fn is_swept_set(&self, set: u32) -> bool
        ensures { result ≡ is_of_swept_part self.now.generation set }
    {
        is_swept(self.generation, u64::from(set))
    }

    fn try_swept(&self, set: u32) -> Result<(), StepFault>
        ensures part { OnOk result (is_of_swept_part self.now.generation set ≡ true) }
        ensures tried { Tried (part_is_swept self.now set ∷ []) result }
    {
        demand(self.is_swept_set(set), Found::Range)
    }

    fn try_unswept(&self, set: u32) -> Result<(), StepFault>
        ensures part { OnOk result (is_of_swept_part self.now.generation set ≡ false) }
        ensures tried { Tried (part_is_unswept self.now set ∷ []) result }
    {
        demand(!self.is_swept_set(set), Found::Range)
    }

    fn try_class(&self, set: u32, page: u32) -> Result<(), StepFault>
        ensures { Tried (life_begins self.now page ∷ class_is_of_set self.now set page ∷ []) result }
    {
        match self.life(page) {
            Some(life) => demand(u32::from(life.class) == set / 4, Found::Range),
            None => demand(false, Found::Range),
        }
    }

    fn try_entries(&self, set: u32) -> Result<(), StepFault>
        requires { set < length self.now.sets }
        ensures ok { OnOk result ((set_of self.now set).head < (set_of self.now set).tail) }
        ensures tried { Tried (has_entries self.now set ∷ []) result }
    {
        let entries = &self.sets[set as usize];
        demand(
            entries.head < entries.tail,
            Found::HeadTail(entries.head, entries.tail),
        )
    }

    fn try_tail(&self, set: u32) -> Result<(), StepFault>
        requires { set < length self.now.sets }
        ensures ok { OnOk result ((set_of self.now set).tail < 4294967295) }
        ensures tried { Tried (tail_has_room self.now set ∷ []) result }
    {
        let entries = &self.sets[set as usize];
        demand(
            entries.tail < u32::MAX,
            Found::HeadTail(entries.head, entries.tail),
        )
    }

    // The cell at the head of a set.
    fn head_cell(&self, set: u32) -> u64
        requires { set < length self.now.sets }
        ensures { result ≡ cell_of (set_of self.now set) (set_of self.now set).head }
    {
        let entries = &self.sets[set as usize];
        match entries.cells.as_slice().get(entries.head as usize) {
            Some(cell) => *cell,
            None => 0,
        }
    }

    // The page that the cell at the head of a set names, 0 where it names none.
    pub(crate) fn head_base(&self, set: u32) -> u32
        requires { set < length self.now.sets }
        ensures { result ≡ base_at_head self.now set }
    {
        let cell = self.head_cell(set);
        if 0 < cell && cell <= self.words.len() as u64 {
            (cell - 1) as u32
        } else {
            0
        }
    }

    fn try_cell(&self, set: u32) -> Result<(), StepFault>
        requires { set < length self.now.sets }
        ensures { Tried (cell_is_filled self.now set ∷ []) result }
    {
        demand(self.head_cell(set) != 0, Found::Cell(0))
    }

    pub(crate) fn try_claim(&self, worker: u32, set: u32, page: u32) -> Result<(), StepFault>
        ensures worker { OnOk result (worker < length self.now.hands) }
        ensures set { OnOk result (set < length self.now.sets) }
        ensures part { OnOk result (is_of_swept_part self.now.generation set ≡ true) }
        ensures tail { OnOk result ((set_of self.now set).tail < 4294967295) }
        ensures tried { Tried (claim_needs self.now worker set page) result }
    {
        self.try_worker(worker)?;
        self.try_set(set)?;
        self.try_page(page)?;
        self.try_swept(set)?;
        self.try_class(set, page)?;
        self.try_list(Kind::Held, worker, page)?;
        self.try_claims_nothing(worker)?;
        self.try_tail(set)
    }

    pub(crate) fn try_fill(&self, worker: u32) -> Result<Claimed, StepFault>
        ensures worker { OnOk result (worker < length self.now.hands) }
        ensures claim { IfOk result (λ claim. (hand_of self.now worker).claimed ≡ Some claim) }
        ensures tried { Tried (fill_needs self.now worker) result }
    {
        self.try_worker(worker)?;
        match self.hands[worker as usize].claimed {
            Some(claim) => Ok(claim),
            None => Err(StepFault::NotAllowed {
                found: Found::Index(None),
            }),
        }
    }

    pub(crate) fn try_pop_swept(&self, worker: u32, set: u32) -> Result<(), StepFault>
        ensures worker { OnOk result (worker < length self.now.hands) }
        ensures set { OnOk result (set < length self.now.sets) }
        ensures part { OnOk result (is_of_swept_part self.now.generation set ≡ true) }
        ensures head { OnOk result ((set_of self.now set).head < (set_of self.now set).tail) }
        ensures tried { Tried (pop_swept_needs self.now worker set) result }
    {
        self.try_worker(worker)?;
        self.try_set(set)?;
        self.try_swept(set)?;
        self.try_entries(set)?;
        self.try_cell(set)
    }

    pub(crate) fn try_pop_unswept(&self, worker: u32, set: u32) -> Result<(), StepFault>
        ensures worker { OnOk result (worker < length self.now.hands) }
        ensures set { OnOk result (set < length self.now.sets) }
        ensures part { OnOk result (is_of_swept_part self.now.generation set ≡ false) }
        ensures head { OnOk result ((set_of self.now set).head < (set_of self.now set).tail) }
        ensures tried { Tried (pop_unswept_needs self.now worker set) result }
    {
        self.try_worker(worker)?;
        self.try_set(set)?;
        self.try_unswept(set)?;
        self.try_entries(set)
    }
}
