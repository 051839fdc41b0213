//! The generation word of each page. Only the methods here write the words, so that the bound behind which all are 0 is that of
//! each word that was ever written.

ghost use Rattle.std.specs.Prelude.{◌≡◌, ◌≤◌, ◌<◌, ℕ, length, slice_index, slice_set, IfOk};
ghost use Rattle.sweep_laws.specs.Start.{copies};

use std::alloc::{AllocError, Global};
use std::marker::Model;

/// The words by page, with a bound of the pages that were ever used. Pages are used lowest first, so the pages of a large region
/// are mostly beyond it, and what looks over words need not look there.
#[derive(Debug, Drop)]
pub struct PageWords {
    items: Vec<u64>,
    // No word was written at this page or beyond it.
    end: usize,
}

impl Model for PageWords {
    ghost use Rattle.std.specs.Prelude.{List, ℕ};
    ghost use Rattle.sweep_generation.specs.Used.{EndsAt};

    ghost Value = { List ℕ };

    ghost view = { λ words. words.items.items };

    ghost invariant = { λ words. EndsAt words.end words.items.items };
}

impl PageWords {
    /// A word of 0 for each of so many pages.
    pub fn new(alloc: Global, pages: u32) -> Result<Self, AllocError>
        ensures { IfOk result (λ words. words ≡ copies pages 0) }
    {
        let items = (0..pages).map(|_| 0u64).collect(alloc)?;
        Ok(PageWords { items, end: 0 })
    }

    /// The words.
    pub fn as_slice(&self) -> &[u64]
        ensures { result.now ≡ self.now }
    {
        &self.items
    }

    /// How many pages there are.
    pub fn len(&self) -> usize
        ensures { result ≡ length self.now }
    {
        self.items.len()
    }

    /// The page from which on all words are 0.
    pub fn end(&self) -> usize
        ensures most { result ≤ length self.now }
        ensures zero { (page : ℕ) → result ≤ page → slice_index self.now page ≡ 0 }
    {
        self.end
    }

    /// The word of a page.
    pub fn at(&self, page: u32) -> u64
        requires { page < length self.now }
        ensures { result ≡ slice_index self.now page }
    {
        self.items[page as usize]
    }

    /// Writes the word of a page.
    pub fn put(&mut self, page: u32, word: u64)
        requires { page < length self.old }
        ensures { self.new ≡ slice_set self.old page word }
    {
        let at = page as usize;
        self.items[at] = word;
        self.end = self.end.max(at + 1);
    }
}
