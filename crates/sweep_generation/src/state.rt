//! The state of span ownership. Its fields are written by the files of the moves alone, each only what its move's definition
//! names, and by `start.rt`; callers read them through the methods below. The type keeps that tables and lists agree, and that
//! `unpopped` is the count that it names.

ghost use Rattle.std.specs.Prelude.{◌≡◌, ◌==◌, ◌≤◌, ℕ, length, map, option_map, slice_index};
ghost use Rattle.std.specs.List.{find};
ghost use Rattle.sweep_lists.specs.Views.{hand_view, life_view, set_view};

use crate::page_words::PageWords;
use std::alloc::Global;
use std::marker::Model;
use sweep_lists::{CoreHand, CoreSet, Life, Lives, Spare};

/// The whole state of span ownership over plain lists.
#[derive(Debug, Drop)]
pub struct Core {
    pub(crate) generation: u64,
    pub(crate) words: PageWords,
    pub(crate) owners: Vec<Option<u32>>,
    pub(crate) lives: Lives,
    pub(crate) sets: Vec<CoreSet>,
    pub(crate) lock: Option<u32>,
    pub(crate) hands: Vec<CoreHand>,
    // How many entries the lives, each set's cells and each list of each hand have room for at least.
    pub(crate) room: usize,
    pub(crate) spare: Spare,
    // How many unswept sets have head and tail apart.
    pub(crate) unpopped: usize,
    pub(crate) alloc: Global,
}

impl Model for Core {
    ghost use Rattle.std.specs.Prelude.{◌≤◌};
    ghost use Rattle.sweep_laws.specs.State.{CoreState};

    ghost Value = { CoreState };

    ghost use Rattle.sweep_generation.specs.Kept.{core_view, IsKept};

    ghost view = { core_view };

    ghost invariant = { IsKept };
}

impl Core {
    /// The generation: it starts at 4 and rises by 2 at each mark end.
    pub fn generation(&self) -> u64
        ensures { result ≡ self.now.generation }
    {
        self.generation
    }

    /// The generation word of each page.
    pub fn words(&self) -> &[u64]
        ensures { result.now ≡ self.now.words }
    {
        self.words.as_slice()
    }

    /// The page behind the last at which a span ever began: all words from it on are 0. Whoever looks for a word other than 0
    /// need not look there.
    pub fn used_end(&self) -> u32
        ensures most { result ≤ length self.now.words }
        ensures zero { (page : ℕ) → result ≤ page → slice_index self.now.words page ≡ 0 }
    {
        self.words.end() as u32
    }

    /// The first page of the span that owns each page, None for a free page.
    pub fn owners(&self) -> &[Option<u32>]
        ensures { result.now ≡ self.now.owners }
    {
        &self.owners
    }

    /// How many spans there are from their Take to their Give.
    pub fn span_count(&self) -> usize
        ensures { result ≡ length self.now.lives }
    {
        self.lives.len()
    }

    /// The span that begins at a page, in the order of their Takes the first.
    pub fn span(&self, page: u32) -> Option<&Life>
        ensures { option_map (λ life. life_view life.now) result ≡ find (λ life. life.page == page) self.now.lives }
    {
        self.lives.find(page)
    }

    /// The sets. The number of a set is four times the span class, plus 2 for a full set, plus its part.
    pub fn sets(&self) -> &[CoreSet]
        ensures { map set_view result.now ≡ self.now.sets }
    {
        &self.sets
    }

    /// The worker that holds the heap lock.
    pub fn lock(&self) -> Option<u32>
        ensures { result ≡ self.now.lock }
    {
        self.lock
    }

    /// What each worker has.
    pub fn hands(&self) -> &[CoreHand]
        ensures { map hand_view result.now ≡ self.now.hands }
    {
        &self.hands
    }
}
