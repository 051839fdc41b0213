use crate::found::Found;
use crate::stop::Stop;
use crate::{bitmap, history, marks, ownership, pages, profile, table};
use edge_io::{Lines, Source};
use std::alloc::Global;
use std::sync::Wait;

/// What is timed.
#[derive(Clone, Copy, Debug, PartialEq, Eq)]
pub enum Layer {
    Core,
    Table,
    Bitmap,
    Pages,
    Marks,
    History,
    Profile,
}

impl Layer {
    /// All of them, in the order in which few calls of each are made.
    pub const ALL: [Layer; 7] = [
        Layer::Core,
        Layer::Table,
        Layer::Bitmap,
        Layer::Pages,
        Layer::Marks,
        Layer::History,
        Layer::Profile,
    ];

    pub fn named(word: &str) -> Option<Layer> {
        match word {
            "core" => Some(Layer::Core),
            "table" => Some(Layer::Table),
            "bitmap" => Some(Layer::Bitmap),
            "pages" => Some(Layer::Pages),
            "marks" => Some(Layer::Marks),
            "history" => Some(Layer::History),
            "profile" => Some(Layer::Profile),
            _ => None,
        }
    }

    /// What the words behind the layer's say. A trace is read from the lines, where it is wanted.
    pub fn asked<R: Wait, S: Source>(
        self,
        rt: &R,
        alloc: Global,
        words: &[String],
        lines: &mut Lines<'_, S>,
    ) -> Result<Found, Stop> {
        match self {
            Layer::Core => Ok(Found::Core(ownership::asked(alloc, words)?)),
            Layer::Table => Ok(Found::Table(table::asked(rt, alloc, words)?)),
            Layer::Bitmap => Ok(Found::Bitmap(bitmap::asked(words)?)),
            Layer::Pages => Ok(Found::Pages(pages::asked(alloc, words)?)),
            Layer::Marks => Ok(Found::Marks(marks::asked(alloc, words)?)),
            Layer::History => Ok(Found::History(history::asked(alloc, words, lines)?)),
            Layer::Profile => Ok(Found::Profile(profile::asked(alloc, words)?)),
        }
    }

    /// A few calls.
    pub fn few<R: Wait, S: Source>(
        self,
        rt: &R,
        alloc: Global,
        lines: &mut Lines<'_, S>,
    ) -> Result<Found, Stop> {
        match self {
            Layer::Core => Ok(Found::Core(ownership::few(alloc)?)),
            Layer::Table => Ok(Found::Table(table::few(rt, alloc)?)),
            Layer::Bitmap => Ok(Found::Bitmap(bitmap::few())),
            Layer::Pages => Ok(Found::Pages(pages::few(alloc)?)),
            Layer::Marks => Ok(Found::Marks(marks::few(alloc)?)),
            Layer::History => Ok(Found::History(history::few(alloc, lines)?)),
            Layer::Profile => Ok(Found::Profile(profile::few(alloc)?)),
        }
    }
}
