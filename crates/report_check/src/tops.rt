//! Until which cycle the objects live that sit at an index of a life.

ghost use Rattle.std.specs.Prelude.{◌≡◌, ◌<◌, ◌≤◌, ◌^◌, ℕ, length, slice_index_or, IfOk, OnOk};
ghost use Rattle.report_check.specs.Tops.{AreNoTops, IsRaised, IsRaisedIn, lives_of, top_at};

use edge_io::NoMemory;
use std::alloc::Global;

/// A number for each index of each life, which is 0 until it is raised.
#[derive(Drop)]
pub struct Tops {
    // By the number of the life and then by index. A row is as long as the highest index that was raised asks.
    rows: Vec<Vec<u32>>,
}

impl Tops {
    /// Nothing is noted, for lives of numbers below this one.
    pub fn new(alloc: Global, lives: usize) -> Result<Tops, NoMemory>
        ensures lives { IfOk result (λ tops. lives_of tops ≡ lives) }
        ensures none { IfOk result (λ tops. AreNoTops tops) }
    {
        let mut rows = Vec::new(alloc);
        for _life in 0..lives {
            rows.push(Vec::new(alloc))?;
        }
        Ok(Tops { rows })
    }

    /// The number for an index of a life.
    pub fn at(&self, life: u64, index: u32) -> u32
        ensures { result ≡ top_at self.now life index }
    {
        if life >= self.rows.len() as u64 {
            return 0;
        }
        number_at(&self.rows[life as usize], index as usize)
    }

    /// Raises the number for an index of a life to this one, if it is lower.
    pub fn raise(&mut self, life: u64, index: u32, value: u32) -> Result<(), NoMemory>
        requires { life < lives_of self.old }
        ensures { OnOk result (IsRaised self.old self.new life index value) }
    {
        raise_in(&mut self.rows[life as usize], index as usize, value)
    }
}

// The number at a place of a row, or 0 behind its end.
fn number_at(row: &[u32], index: usize) -> u32
    ensures { result ≡ slice_index_or row.now index 0 }
{
    if index < row.len() { row[index] } else { 0 }
}

// Raises the number at a place of a row to this one, if it is lower.
fn raise_in(row: &mut Vec<u32>, index: usize, value: u32) -> Result<(), NoMemory>
    requires { index < 2 ^ 32 }
    ensures { OnOk result (IsRaisedIn row.old.items row.new.items index value) }
{
    grow(row, index + 1)?;
    if row[index] < value {
        row[index] = value;
    }
    Ok(())
}

// Makes a row at least this long, with 0 at the new places.
fn grow(row: &mut Vec<u32>, count: usize) -> Result<(), NoMemory>
    ensures length { OnOk result (count ≤ length row.new.items) }
    ensures same { OnOk result ((k : ℕ) → slice_index_or row.new.items k 0 ≡ slice_index_or row.old.items k 0) }
{
    for _place in row.len()..count {
        row.push(0)?;
    }
    Ok(())
}
