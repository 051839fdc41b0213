//! The buckets that a tally noted as it counted, so that a cycle with few calls costs little.

ghost use Rattle.std.specs.Prelude.{◌≡◌, false, [], IfOk, IfSome};
ghost use Rattle.profile_cycle.specs.Listing.{Adds, AreEmpty, Has};

use edge_io::NoMemory;
use std::alloc::Global;

/// All buckets, or those on a list.
#[derive(Drop)]
pub(crate) struct Listed {
    pub buckets: Vec<u32>,
    pub all: bool,
}

/// Buckets whose words a tally found empty: those of the next cycle, and of the one behind it.
#[derive(Drop)]
pub(crate) struct Noted {
    pub due: Listed,
    pub later: Listed,
}

impl Listed {
    /// No bucket yet. There is room for an eighth of all buckets; behind these it stands for all.
    fn new(alloc: Global, buckets: u32) -> Result<Listed, NoMemory>
        ensures list { IfOk result (λ l. l.buckets.items ≡ []) }
        ensures all { IfOk result (λ l. l.all ≡ false) }
    {
        Ok(Listed {
            buckets: Vec::with_capacity(alloc, buckets as usize / 8)?,
            all: false,
        })
    }

    // Lists a bucket, or all where the list is full.
    fn add(&mut self, bucket: u32)
        ensures { Adds self.old.all self.old.buckets.items self.new.all self.new.buckets.items (λ b. bucket ≡ b) }
    {
        if self.buckets.len() < self.buckets.capacity() {
            self.buckets.push(bucket).unwrap();
        } else {
            self.all = true;
        }
    }

    /// Lists a bucket whose word was found empty.
    pub fn add_new(&mut self, bucket: u32, found: u64)
        ensures { Adds self.old.all self.old.buckets.items self.new.all self.new.buckets.items (λ b. (found ≡ 0) × (bucket ≡ b)) }
    {
        if found == 0 {
            self.add(bucket);
        }
    }

    /// Lists all that another lists.
    pub fn add_all(&mut self, other: &Listed)
        ensures all { self.new.all ≡ false → other.now.all ≡ false }
        ensures adds { Adds self.old.all self.old.buckets.items self.new.all self.new.buckets.items (Has other.now.buckets.items) }
    {
        for bucket in &other.buckets {
            self.add(*bucket);
        }
        if other.all {
            self.all = true;
        }
    }

    /// Lists none any more.
    pub fn clear(&mut self)
        ensures list { self.new.buckets.items ≡ [] }
        ensures all { self.new.all ≡ false }
    {
        self.buckets.clear();
        self.all = false;
    }
}

impl Noted {
    /// None yet, of so many buckets.
    pub fn new(alloc: Global, buckets: u32) -> Result<Noted, NoMemory>
        ensures { IfOk result AreEmpty }
    {
        Ok(Noted {
            due: Listed::new(alloc, buckets)?,
            later: Listed::new(alloc, buckets)?,
        })
    }

    /// Notes none any more.
    pub fn clear(&mut self)
        ensures { AreEmpty self.new }
    {
        self.due.clear();
        self.later.clear();
    }
}

/// The lists that lie ready, or else new ones. Nothing is listed.
pub(crate) fn take_spare(
    spare: &mut Option<Noted>,
    alloc: Global,
    buckets: u32,
) -> Result<Noted, NoMemory>
    requires { IfSome spare.old AreEmpty }
    ensures ok { IfOk result AreEmpty }
    ensures spare { IfSome spare.new AreEmpty }
{
    match spare.take() {
        Some(noted) => Ok(noted),
        None => Noted::new(alloc, buckets),
    }
}
