use fallible_list::{List, NoMemory};

/// An index of a set that a worker took for a page and has not filled yet.
#[derive(Clone, Copy, Debug, PartialEq, Eq)]
pub struct Claimed {
    /// The number of the set: four times the span class, plus 2 for a full set, plus its part.
    pub set: u32,
    /// The index of the cell.
    pub index: u32,
    /// The first page of the span.
    pub page: u32,
}

/// One event of the allocator. The first field is the worker, pages are numbers of the region. A block of a page cache is 64 pages
/// from a multiple of 64 on, cut off at the end of the region (`pageAlloc.allocToCache`, `mpagecache.go`).
#[derive(Debug, Drop)]
pub enum Move {
    /// Takes the heap lock.
    Lock(u32),
    /// Lets go of the heap lock.
    Unlock(u32),
    /// Makes a span: worker, first page, pages, objects, span class.
    Take(u32, u32, u32, u32, u8),
    /// Gives a span back to the heap: worker, first page.
    Give(u32, u32),
    /// Begins to sweep a span (`mspan.sweep` after `sweepLocker.tryAcquire`): worker, first page.
    Acquire(u32, u32),
    /// Ends the sweep of a span: worker, first page.
    Release(u32, u32),
    /// Caches a span that the worker holds: worker, first page.
    Cache(u32, u32),
    /// Allocates an object: worker, first page, index of the object.
    Allocate(u32, u32, u32),
    /// Takes a swept span out of the cache: worker, first page.
    Uncache(u32, u32),
    /// Takes a span out of the cache that is to be swept first: worker, first page.
    StaleUncache(u32, u32),
    /// Takes the next index of a swept set: worker, set, first page.
    Claim(u32, u32, u32),
    /// Puts the page into the cell of the claimed index: worker.
    Fill(u32),
    /// Takes a span out of a swept set: worker, set.
    PopSwept(u32, u32),
    /// Takes an entry out of an unswept set: worker, set.
    PopUnswept(u32, u32),
    /// Forgets an entry whose span another worker swept: worker, first page.
    DropPopped(u32, u32),
    /// Puts the free pages of the block with the least free page into the worker's own list: worker.
    Pull(u32),
    /// Makes a span of pages that the worker pulled: worker, first page, pages, objects, span class.
    Cut(u32, u32, u32, u32, u8),
    /// Frees the pages that the worker pulled and has not cut: worker.
    Drop(u32),
    /// Ends a mark phase: the marked pairs of first page and index, strictly rising.
    Next(List<(u32, u32)>),
}

/// What a move that was done answers.
#[derive(Clone, Copy, Debug, PartialEq, Eq)]
pub enum Reply {
    /// It is done.
    Done,
    /// The index that a Claim took.
    Index(u32),
    /// The first page that a pop took.
    Base(u32),
}

/// What a refused move found in place of what it needs.
#[derive(Clone, Copy, Debug, PartialEq, Eq)]
pub enum Found {
    /// The generation word of the page, or the generation.
    Word(u64),
    /// The holder of the lock, or the first worker that has the page.
    Holder(Option<u32>),
    /// The cell at the head of the set.
    Cell(u64),
    /// Head and tail of the set.
    HeadTail(u32, u32),
    /// The first page of the span that owns a page.
    Owner(u32),
    /// An index: of an object, or of a claimed cell; or a page that a worker has pulled, or has not.
    Index(Option<u32>),
    /// A worker, page, span class, set or list of marks is out of range.
    Range,
}

/// Why a move was not done.
#[derive(Clone, Copy, Debug, PartialEq, Eq)]
pub enum StepFault {
    /// A need of the move fails: the first one decides.
    NotAllowed { found: Found },
    /// Memory ran out.
    NoMemory,
}

impl From<NoMemory> for StepFault {
    ghost use Rattle.std.specs.Prelude.{◌≡◌};
    ghost use Rattle.sweep_laws.specs.declared.moves.StepFault.TheVariants.{NoMemory};

    ghost from_gives = { λ _ fault. fault ≡ NoMemory };

    fn from(_: NoMemory) -> Self {
        StepFault::NoMemory
    }
}
