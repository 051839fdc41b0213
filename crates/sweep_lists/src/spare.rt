//! The life that the next Take uses: its lists are made before, so that a Take takes no memory.

ghost use Rattle.std.specs.Prelude.{◌≡◌, ◌<◌, OnOk, OnErr, IfOk, max};
ghost use Rattle.sweep_laws.specs.ChangesOfLives.{new_life, left_prepared};
ghost use Rattle.sweep_lists.specs.KeptSpare.{IsPrepared};
ghost use Rattle.sweep_lists.specs.Views.{life_view, LifeRoom};

use crate::entries::Entries;
use crate::indices::Indices;
use crate::life::Life;
use fallible_list::NoMemory;
use std::alloc::Global;
use std::marker::Model;
use std::mem::swap;

/// The two lists of a life to come. Its value is the number of objects for which they are prepared.
#[derive(Debug, Drop)]
pub struct Spare {
    count: u32,
    allocated: Indices,
    kept: Entries<u32>,
}

impl Model for Spare {
    ghost use Rattle.std.specs.Prelude.{ℕ};
    ghost use Rattle.sweep_lists.specs.KeptSpare.{IsPrepared};

    ghost Value = { ℕ };

    ghost view = { λ spare. spare.count };

    ghost invariant = { λ spare. IsPrepared spare.count spare.allocated spare.kept };
}

impl Spare {
    /// Nothing prepared.
    pub fn new(alloc: Global) -> Self
        ensures { result ≡ 0 }
    {
        Spare {
            count: 0,
            allocated: Indices::new(alloc),
            kept: Entries::new(alloc),
        }
    }

    /// Prepares for at least so many objects. It fails only where fewer are prepared.
    pub fn reserve(&mut self, alloc: Global, count: u32) -> Result<(), NoMemory>
        ensures ok { OnOk result (self.new ≡ max self.old count) }
        ensures err { OnErr result (self.new ≡ self.old) }
        ensures full { OnErr result (self.old < count) }
    {
        if self.count < count {
            let room = count as usize;
            self.kept.reserve(room)?;
            let mut allocated = Indices::with_table(alloc, count)?;
            allocated.reserve(room)?;
            self.allocated = allocated;
            self.count = count;
        }
        Ok(())
    }

    /// Makes a life with room for `count` objects, of what is prepared where that is enough: then nothing is prepared
    /// any more.
    pub fn make(
        &mut self,
        alloc: Global,
        page: u32,
        pages: u32,
        count: u32,
        class: u8,
    ) -> Result<Life, NoMemory>
        ensures life { IfOk result (λ life. life_view life ≡ new_life page pages count class) }
        ensures room { IfOk result LifeRoom }
        ensures left { OnOk result (self.new ≡ left_prepared self.old count) }
        ensures err { OnErr result (self.new ≡ self.old) }
        ensures full { OnErr result (self.old < count) }
    {
        let mut spare = Spare::new(alloc);
        if count <= self.count {
            swap(self, &mut spare);
        }
        spare.reserve(alloc, count)?;
        let Spare {
            count: _,
            allocated,
            kept,
        } = spare;
        Ok(Life {
            page,
            pages,
            count,
            class,
            allocated,
            kept,
        })
    }
}
