//! New cores, and room for later moves. Memory is asked for here, so that no step needs to: `make_room` once, and
//! `make_life_room` before each Take. Neither changes what contracts see of the state but the two numbers of the room.

ghost use Rattle.std.specs.Prelude.{◌≡◌, ℕ, ◌≤◌, ◌<◌, ◌+◌, ◌^◌, map, length, max, None, IfOk, OnOk, OnErr};
ghost use Rattle.std.specs.List.{All};
ghost use Rattle.sweep_laws.specs.Owned.{Owned};
ghost use Rattle.sweep_lists.specs.Bare.{bare_hand, bare_set};
ghost use Rattle.sweep_laws.specs.Start.{copies, new_state};
ghost use Rattle.sweep_laws.specs.Tidy.{IsTidy, TailsFit};
ghost use Rattle.sweep_lists.specs.Views.{hand_view, set_view, HandRoom};

use crate::page_words::PageWords;
use crate::state::Core;
use crate::unpopped::count_unpopped;
use fallible_list::{List, NoMemory};
use std::alloc::{AllocError, Global};
use sweep_lists::{CoreHand, CoreSet, Lives, Spare};

// The number of sets: for each of 136 span classes two partial and two full ones.
const SETS: usize = 544;

fn no_owners(alloc: Global, pages: u32) -> Result<Vec<Option<u32>>, AllocError>
    ensures { IfOk result (λ owners. owners.items ≡ copies pages None) }
{
    (0..pages).map(|_| None).collect(alloc)
}

fn empty_sets(alloc: Global) -> Result<Vec<CoreSet>, AllocError>
    ensures { IfOk result (λ sets. sets.items ≡ copies 544 bare_set) }
{
    (0..SETS).map(|_| CoreSet::new(alloc)).collect(alloc)
}

fn empty_hands(alloc: Global, workers: u32, pages: u32) -> Result<Vec<CoreHand>, NoMemory>
    ensures { IfOk result (λ hands. hands.items ≡ copies workers (bare_hand pages)) }
{
    let mut hands = Vec::new(alloc);
    for _ in 0..workers {
        hands.push(CoreHand::new(alloc, pages)?)?;
    }
    Ok(hands)
}

// Each set gets room for so many cells.
fn reserve_sets(sets: &mut [CoreSet], room: usize) -> Result<(), NoMemory>
    ensures view { map set_view sets.new ≡ map set_view sets.old }
    ensures ok { OnOk result (All (λ set. room ≤ set.cells.space) sets.new) }
    ensures keeps { (n : ℕ) → All (λ set. n ≤ set.cells.space) sets.old → All (λ set. n ≤ set.cells.space) sets.new }
{
    for k in 0..sets.len() {
        sets[k].cells.reserve(room)?;
    }
    Ok(())
}

// Each list of each hand gets room for so many entries.
fn reserve_hands(hands: &mut [CoreHand], room: usize) -> Result<(), NoMemory>
    ensures view { map hand_view hands.new ≡ map hand_view hands.old }
    ensures ok { OnOk result ((pages n : ℕ) → All (HandRoom pages n) hands.old → All (HandRoom pages room) hands.new) }
    ensures keeps { (pages n : ℕ) → All (HandRoom pages n) hands.old → All (HandRoom pages n) hands.new }
{
    for k in 0..hands.len() {
        hands[k].reserve_all(room)?;
    }
    Ok(())
}

impl Core {
    /// A region of so many pages, all of them free, for so many workers: generation 4, all 544 sets empty, no
    /// holder of the lock, and no room made.
    pub fn new(alloc: Global, pages: u32, workers: u32) -> Result<Core, NoMemory>
        ensures state { IfOk result (λ core. core ≡ new_state pages workers) }
        ensures owned { IfOk result (λ core. Owned core) }
        ensures tidy { IfOk result (λ core. IsTidy core) }
        ensures tails { IfOk result (λ core. TailsFit core) }
    {
        let sets = empty_sets(alloc)?;
        Core::with_sets(alloc, pages, workers, 4, List::from_vec(sets))
    }

    /// A core as `new` makes it, but of another generation and with these sets: a state to try moves on.
    pub fn with_sets(
        alloc: Global,
        pages: u32,
        workers: u32,
        generation: u64,
        sets: List<CoreSet>,
    ) -> Result<Core, NoMemory>
        requires { generation + 3 < 2 ^ 64 }
        ensures state { IfOk result (λ core. core ≡ record (new_state pages workers) { generation = generation; sets = map set_view sets }) }
        ensures tidy { IfOk result (λ core. IsTidy core) }
    {
        let owners = no_owners(alloc, pages)?;
        let hands = empty_hands(alloc, workers, pages)?;
        let sets = sets.into_vec();
        let unpopped = count_unpopped(&sets, generation);
        Ok(Core {
            generation,
            words: PageWords::new(alloc, pages)?,
            owners,
            lives: Lives::with_table(alloc, pages)?,
            sets,
            lock: None,
            hands,
            room: 0,
            spare: Spare::new(alloc),
            unpopped,
            alloc,
        })
    }

    /// Makes room for as many entries as there are pages in the lives, in each set's cells and in each list of
    /// each hand.
    pub fn make_room(&mut self) -> Result<(), NoMemory>
        ensures ok { OnOk result (self.new ≡ record self.old { room = length self.old.words }) }
        ensures err { OnErr result (self.new ≡ self.old) }
    {
        let room = self.words.len();
        self.lives.reserve(room)?;
        reserve_sets(&mut self.sets, room)?;
        reserve_hands(&mut self.hands, room)?;
        self.room = room;
        Ok(())
    }

    /// Prepares a life of so many objects. The next Take of at most as many uses it up and takes no memory for
    /// its life.
    pub fn make_life_room(&mut self, count: u32) -> Result<(), NoMemory>
        ensures ok { OnOk result (self.new ≡ record self.old { prepared = max self.old.prepared count }) }
        ensures err { OnErr result (self.new ≡ self.old) }
    {
        self.spare.reserve(self.alloc, count)
    }
}
