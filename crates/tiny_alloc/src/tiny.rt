//! The current block of a processor.

ghost use Rattle.std.specs.Prelude.{◌≡◌, ℕ, ◌+◌, ◌-◌, ◌^◌, ◌<◌, ◌≤◌, None, IfSome};
ghost use Rattle.tiny_alloc.specs.Blocks.{behind_lead, behind_ride, behind_seat, raised as raised_offset, ride_start, seat_in};

use crate::block::{BLOCK, Current, Seat};
use std::marker::Model;

/// The tiny allocator of one processor: its current block, or none.
#[derive(Debug, Drop)]
pub struct Tiny {
    block: Option<Current>,
}

impl Model for Tiny {
    ghost use Rattle.std.specs.Prelude.{Option};
    ghost use Rattle.tiny_alloc.specs.Blocks.{Block, block_of};

    ghost Value = { Option Block };

    ghost view = { λ tiny. block_of tiny.block };
}

impl Tiny {
    /// No block.
    pub fn new() -> Tiny
        ensures { result ≡ None }
    {
        Tiny { block: None }
    }

    /// Forgets the block, as at each mark end.
    pub fn clear(&mut self)
        ensures { self.new ≡ None }
    {
        self.block = None;
    }

    /// The address of an object of this size, from 1 to 15 bytes, if it rides in the block. `None` comes exactly where it doesn't
    /// fit there, and changes nothing: the object then needs a block of its own.
    pub fn ride(&mut self, size: u32) -> Option<u64>
        requires some { 1 ≤ size }
        requires tiny { size ≤ 15 }
        ensures address { result ≡ ride_start self.old size }
        ensures block { self.new ≡ behind_ride self.old size }
    {
        let seat = self.seat(size)?;
        Some(seat.start + u64::from(seat.offset))
    }

    // The same as `ride`, but for the address: the seat.
    pub(crate) fn seat(&mut self, size: u32) -> Option<Seat>
        requires some { 1 ≤ size }
        requires tiny { size ≤ 15 }
        ensures seat { result ≡ seat_in self.old size }
        ensures block { self.new ≡ behind_seat result self.old size }
        ensures room { IfSome result (λ seat. (seat.start ≤ 2 ^ 64 - 17) × (seat.offset ≤ 15)) }
    {
        let block = self.block?;
        let offset = raised(block.offset, size);
        if offset + size > BLOCK {
            return None;
        }
        self.block = Some(Current {
            start: block.start,
            offset: offset + size,
        });
        Some(Seat {
            start: block.start,
            offset,
        })
    }

    /// Notes an object of this size, from 1 to 15 bytes, that didn't ride and was placed at an address up to 2^64 - 17, where a
    /// block of its own begins. That becomes the current block where there was none, or where it has more room.
    pub fn lead(&mut self, size: u32, addr: u64)
        requires some { 1 ≤ size }
        requires tiny { size ≤ 15 }
        requires room { addr ≤ 2 ^ 64 - 17 }
        ensures { self.new ≡ behind_lead self.old addr size }
    {
        if let Some(block) = self.block {
            if block.offset <= size {
                return;
            }
        }
        self.block = Some(Current {
            start: addr,
            offset: size,
        });
    }
}

// The offset raised to the alignment of an object of this size.
fn raised(offset: u32, size: u32) -> u32
    requires { offset ≤ 16 }
    ensures { result ≡ raised_offset offset size }
{
    if size % 8 == 0 {
        (offset + 7) / 8 * 8
    } else if size % 4 == 0 {
        (offset + 3) / 4 * 4
    } else if size % 2 == 0 {
        (offset + 1) / 2 * 2
    } else {
        offset
    }
}
