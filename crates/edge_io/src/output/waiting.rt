//! The buffer behind an output.

ghost use Rattle.std.specs.Prelude.{◌≡◌, ◌≤◌, ◌-◌, ◌==◌, ◌++◌, [], List, ℕ, drop, length, take};

use std::marker::Model;

/// The bytes of the buffer.
pub(super) const BUFFER: usize = 32768;

/// Bytes that wait in a buffer; contracts see them and the room behind them.
#[derive(Drop)]
pub(super) struct Waiting {
    buffer: [u8; BUFFER],
    start: usize,
    end: usize,
}

impl Model for Waiting {
    ghost Value = { List ℕ × ℕ };

    ghost view = { λ w. (drop w.start (take w.end w.buffer), 32768 - w.end) };

    ghost invariant = { λ w. (w.start ≤ w.end) × (w.end ≤ 32768) };
}

impl Waiting {
    pub(super) fn new() -> Self
        ensures { result ≡ ([], 32768) }
    {
        Waiting {
            buffer: [0; BUFFER],
            start: 0,
            end: 0,
        }
    }

    pub(super) fn as_slice(&self) -> &[u8]
        ensures { result.now ≡ self.now.0 }
    {
        &self.buffer[self.start..self.end]
    }

    pub(super) fn is_empty(&self) -> bool
        ensures { result ≡ (length self.now.0 == 0) }
    {
        self.start == self.end
    }

    /// How many bytes fit behind those that wait.
    pub(super) fn room(&self) -> usize
        ensures { result ≡ self.now.1 }
    {
        BUFFER - self.end
    }

    /// Puts a piece behind the others.
    pub(super) fn push(&mut self, piece: &[u8])
        requires { length piece.now ≤ self.old.1 }
        ensures bytes { self.new.0 ≡ self.old.0 ++ piece.now }
        ensures room { self.new.1 ≡ self.old.1 - length piece.now }
    {
        let end = self.end + piece.len();
        self.buffer[self.end..end].copy_from_slice(piece);
        self.end = end;
    }

    /// Lets go of the first bytes.
    pub(super) fn drop_front(&mut self, count: usize)
        requires { count ≤ length self.old.0 }
        ensures bytes { self.new.0 ≡ drop count self.old.0 }
        ensures room { self.new.1 ≡ self.old.1 }
    {
        self.start += count;
    }

    /// Lets go of all.
    pub(super) fn clear(&mut self)
        ensures { self.new ≡ ([], 32768) }
    {
        self.start = 0;
        self.end = 0;
    }
}
