use crate::history::Sums;
use crate::marks::Marked;
use crate::ownership::Moved;
use std::io;

/// What a run found. It is printed, so that no call can be left out.
#[derive(Clone, Copy, Debug)]
pub enum Found {
    Core(Moved),
    /// How often a span was put into a cache and taken out of it.
    Table(u64),
    /// The sum of the pages that searches in a chunk answered.
    Bitmap(u64),
    /// The sum of the pages that a region answered.
    Pages(u64),
    Marks(Marked),
    History(Sums),
    /// How many objects were sampled, or are published as allocated.
    Profile(u64),
}

/// Prints a line.
pub fn print(rt: &impl Print, found: &Found) -> io::Result<()> {
    match found {
        Found::Core(Moved { moves, spans }) => println!(rt; "core: moves {moves}, spans {spans}"),
        Found::Table(rounds) => println!(rt; "table: rounds {rounds}"),
        Found::Bitmap(pages) => println!(rt; "bitmap: pages {pages}"),
        Found::Pages(pages) => println!(rt; "pages: pages {pages}"),
        Found::Marks(
            Marked {
                marked,
                kept,
                freed,
            },
        ) => println!(rt; "marks: marked {marked}, kept {kept}, freed {freed}"),
        Found::History(Sums { objects, classes }) => println!(rt;
            "history: objects {objects}, classes {classes}"
        ),
        Found::Profile(objects) => println!(rt; "profile: objects {objects}"),
    }
}
