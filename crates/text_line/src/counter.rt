//! The decimal digits of a number that counts up.

ghost use Rattle.std.specs.Prelude.{◌≡◌, ◌+◌, ◌-◌, ◌^◌, ◌<◌, ◌≤◌, List, ℕ, decimal, drop, take};

use crate::digits::MAX_DIGITS;
use itoa::write_digits;
use std::marker::Model;

/// The decimal digits of a number that counts up by one, which contracts see as the list of these digits.
#[derive(Drop)]
pub struct Counter {
    digits: [u8; 2 * MAX_DIGITS],
    start: usize,
}

impl Model for Counter {
    ghost Value = { List ℕ };

    ghost view = { λ counter. take (20 - counter.start) (drop counter.start counter.digits) };

    ghost invariant = { λ counter. counter.start ≤ 20 };
}

impl Counter {
    /// The digit of 0.
    pub fn new() -> Self
        ensures { result ≡ decimal 0 }
    {
        Counter {
            digits: [b'0'; 2 * MAX_DIGITS],
            start: MAX_DIGITS - 1,
        }
    }

    /// Goes on to the number behind this one. Mostly only the last digit changes.
    pub fn advance(&mut self, number: u64)
        requires below { number + 1 < 2 ^ 64 }
        requires at { self.old ≡ decimal number }
        ensures { self.new ≡ decimal (number + 1) }
    {
        let last = self.digits[MAX_DIGITS - 1];
        if last < b'9' {
            self.digits[MAX_DIGITS - 1] = last + 1;
            return;
        }
        self.write(number + 1);
    }

    /// The digits, which end in the middle of the buffer, and where they begin.
    pub(crate) fn parts(&self) -> (&[u8; 2 * MAX_DIGITS], usize)
        ensures start { result.1 ≤ 20 }
        ensures digits { take (20 - result.1) (drop result.1 result.0.now) ≡ self.now }
    {
        (&self.digits, self.start)
    }

    // Writes the digits of a number.
    #[inline(never)]
    fn write(&mut self, number: u64)
        ensures { self.new ≡ decimal number }
    {
        self.start = write_digits(number, &mut self.digits, MAX_DIGITS);
    }
}
