//! One line of text while it is put together, without memory of its own.

ghost use Rattle.std.specs.Prelude.{◌≡◌, ◌+◌, ◌-◌, ◌^◌, ◌<◌, ◌≤◌, List, ℕ, [], ◌++◌, false, drop, length, take, decimal};
ghost use Rattle.std.specs.Fmt.{digits};

use crate::counter::Counter;
use crate::digits::{MAX_DIGITS, write_hexadecimal, write_ten};
use itoa::write_digits;
use std::marker::Model;

/// The most bytes of a line here, its line feed included.
const MAX_LINE: usize = 128;

/// Behind the longest line there is room for what is copied behind a number's digits.
const ROOM: usize = MAX_LINE + MAX_DIGITS;

/// At most 128 bytes of text, which contracts see as the list of these bytes.
#[derive(Drop)]
pub struct TextLine {
    bytes: [u8; ROOM],
    used: usize,
}

impl Model for TextLine {
    ghost Value = { List ℕ };

    ghost view = { λ line. take line.used line.bytes };

    ghost invariant = { λ line. line.used ≤ 128 };
}

impl TextLine {
    pub fn new() -> Self
        ensures { result ≡ [] }
    {
        TextLine {
            bytes: [0; ROOM],
            used: 0,
        }
    }

    /// Forgets the text.
    pub fn clear(&mut self)
        ensures { self.new ≡ [] }
    {
        self.used = 0;
    }

    pub fn as_slice(&self) -> &[u8]
        ensures text { result.now ≡ self.now }
        ensures short { length result.now ≤ 128 }
    {
        &self.bytes[..self.used]
    }

    /// Appends a piece.
    pub fn push(&mut self, piece: &[u8])
        requires { length self.old + length piece.now ≤ 128 }
        ensures { self.new ≡ self.old ++ piece.now }
    {
        let end = self.used + piece.len();
        self.bytes[self.used..end].copy_from_slice(piece);
        self.used = end;
    }

    /// Appends a number in decimal digits.
    pub fn push_decimal(&mut self, number: u64)
        requires { length self.old ≤ 108 }
        ensures text { self.new ≡ self.old ++ decimal number }
        ensures short { length self.new ≤ length self.old + 20 }
    {
        if number < 10 {
            self.push_digit(number as u8);
            return;
        }
        let mut digits = [0; 2 * MAX_DIGITS];
        let start = write_digits(number, &mut digits, MAX_DIGITS);
        self.push_digits(&digits, start);
    }

    /// Appends a number of the smaller type, which has fewer digits.
    pub fn push_short(&mut self, number: u32)
        requires { length self.old ≤ 118 }
        ensures text { self.new ≡ self.old ++ decimal number }
        ensures short { length self.new ≤ length self.old + 10 }
    {
        let mut digits = [0; 2 * MAX_DIGITS];
        let start = write_digits(u64::from(number), &mut digits, MAX_DIGITS);
        self.push_digits(&digits, start);
    }

    /// Appends a number in hexadecimal digits, of which the letters are small.
    pub fn push_hexadecimal(&mut self, number: u64)
        requires { length self.old ≤ 64 }
        ensures text { self.new ≡ self.old ++ digits 16 false number }
        ensures short { length self.new ≤ length self.old + 64 }
    {
        if number >= 0x10_0000_0000 && number < 0x100_0000_0000 {
            self.push_ten(number);
            return;
        }
        self.push_any_hexadecimal(number);
    }

    /// Appends the digits of a counted number.
    pub fn push_counter(&mut self, counter: &Counter)
        requires { length self.old ≤ 108 }
        ensures text { self.new ≡ self.old ++ counter.now }
        ensures short { length self.new ≤ length self.old + 20 }
    {
        let (digits, start) = counter.parts();
        self.push_digits(digits, start);
    }

    // Appends the hexadecimal digits of a number that has ten, as most addresses do.
    fn push_ten(&mut self, number: u64)
        requires many { 2 ^ 36 ≤ number }
        requires few { number < 2 ^ 40 }
        requires room { length self.old ≤ 64 }
        ensures text { self.new ≡ self.old ++ digits 16 false number }
        ensures short { length self.new ≤ length self.old + 10 }
    {
        write_ten(number, &mut self.bytes, self.used);
        self.used += 10;
    }

    // Appends the hexadecimal digits of any number.
    #[inline(never)]
    fn push_any_hexadecimal(&mut self, number: u64)
        requires { length self.old ≤ 64 }
        ensures text { self.new ≡ self.old ++ digits 16 false number }
        ensures short { length self.new ≤ length self.old + 64 }
    {
        let mut digits = [0; 2 * MAX_DIGITS];
        let start = write_hexadecimal(number, &mut digits);
        self.push_digits(&digits, start);
    }

    // Appends the one digit of a number below ten.
    fn push_digit(&mut self, number: u8)
        requires below { number < 10 }
        requires room { length self.old ≤ 127 }
        ensures text { self.new ≡ self.old ++ decimal number }
        ensures short { length self.new ≡ length self.old + 1 }
    {
        self.bytes[self.used] = b'0' + number;
        self.used += 1;
    }

    // Appends the digits from `start` to the middle of the buffer. As many bytes as a number can have digits are copied,
    // since a copy of a fixed length is faster; those behind the digits are forgotten.
    fn push_digits(&mut self, digits: &[u8; 2 * MAX_DIGITS], start: usize)
        requires within { start ≤ 20 }
        requires short { length self.old + (20 - start) ≤ 128 }
        ensures { self.new ≡ self.old ++ take (20 - start) (drop start digits.now) }
    {
        self.bytes[self.used..self.used + MAX_DIGITS].copy_from_slice(
            &digits[start..start + MAX_DIGITS],
        );
        self.used += MAX_DIGITS - start;
    }
}
