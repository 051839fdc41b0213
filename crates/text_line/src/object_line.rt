//! The lines of placed objects, of which little changes from one to the next.

ghost use Rattle.std.specs.Prelude.{◌≡◌, ◌+◌, ◌^◌, ◌<◌, ◌≤◌, List, ℕ, [], ◌∷◌, ◌++◌, codes, decimal, drop, false, length, take};
ghost use Rattle.std.specs.Fmt.{digits};

use crate::digits::write_ten;
use itoa::write_digits;
use std::marker::Model;

/// Where the number ends.
const NUMBER_END: usize = 24;

/// The bytes of the longest line.
const LINE_END: usize = 38;

/// The line of an object whose address has ten hexadecimal digits, as `o 17 0xc000012340`. Each part stays at its place, so
/// that only what changes is written. Contracts see what stands up to the number's end, and what stands behind it.
#[derive(Drop)]
pub struct ObjectLine {
    bytes: [u8; LINE_END],
    start: usize,
}

impl Model for ObjectLine {
    ghost Value = { List ℕ × List ℕ };

    ghost view = { λ line. (drop line.start (take 24 line.bytes), drop 24 line.bytes) };

    ghost invariant = { λ line. line.start ≤ 24 };
}

impl ObjectLine {
    /// The line of object 0, which has no address yet.
    pub fn new() -> Self
        ensures { result.0 ≡ codes "o " ++ decimal 0 }
    {
        let mut line = ObjectLine {
            bytes: [b' '; LINE_END],
            start: 0,
        };
        line.write_number(0);
        line
    }

    /// Goes on to the object behind this one. Mostly only the number's last digit changes.
    pub fn advance(&mut self, number: u64)
        requires below { number + 1 < 2 ^ 64 }
        requires at { self.old.0 ≡ codes "o " ++ decimal number }
        ensures { self.new.0 ≡ codes "o " ++ decimal (number + 1) }
    {
        let last = self.bytes[NUMBER_END - 1];
        if last < b'9' {
            self.bytes[NUMBER_END - 1] = last + 1;
            return;
        }
        self.write_number(number + 1);
    }

    /// Puts an address of ten digits and the line's end behind the number.
    pub fn set_address(&mut self, address: u64)
        requires many { 2 ^ 36 ≤ address }
        requires few { address < 2 ^ 40 }
        ensures front { self.new.0 ≡ self.old.0 }
        ensures address { self.new.1 ≡ codes " 0x" ++ (digits 16 false address ++ 10 ∷ []) }
    {
        self.bytes[NUMBER_END] = b' ';
        self.bytes[NUMBER_END + 1] = b'0';
        self.bytes[NUMBER_END + 2] = b'x';
        write_ten(address, &mut self.bytes, NUMBER_END + 3);
        self.bytes[LINE_END - 1] = b'\n';
    }

    /// What stands up to the number's end.
    pub fn front(&self) -> &[u8]
        ensures text { result.now ≡ self.now.0 }
        ensures short { length result.now ≤ 24 }
    {
        &self.bytes[self.start..NUMBER_END]
    }

    /// The whole line.
    pub fn as_slice(&self) -> &[u8]
        ensures text { result.now ≡ self.now.0 ++ self.now.1 }
        ensures short { length result.now ≤ 38 }
    {
        &self.bytes[self.start..]
    }

    // Writes the front anew.
    #[inline(never)]
    fn write_number(&mut self, number: u64)
        ensures { self.new.0 ≡ codes "o " ++ decimal number }
    {
        let start = write_digits(number, &mut self.bytes, NUMBER_END);
        self.bytes[start - 1] = b' ';
        self.bytes[start - 2] = b'o';
        self.start = start - 2;
    }
}
