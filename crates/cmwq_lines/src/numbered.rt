//! Numbers that keep their text.
ghost use Rattle.cmwq_lines.specs.Putting.{Puts};
ghost use Rattle.std.specs.Fmt.{decimal};
ghost use Rattle.std.specs.Prelude.{◌≡◌, ◌+◌, ◌≤◌, length};

use crate::short::COPIED;
use itoa::write_digits;
use std::marker::Model;

/// A number with its decimal text, which is made anew only where the number is another. Contracts see the number.
#[derive(Drop)]
pub(crate) struct Numbered {
    number: u64,
    /// The digits end in the midst. What lies behind them is copied with them, and never read.
    digits: [u8; 2 * COPIED],
    /// Where the digits begin.
    start: usize,
}

impl Model for Numbered {
    ghost use Rattle.cmwq_lines.specs.Parts.{EndsWithin};
    ghost use Rattle.std.specs.Prelude.{ℕ};

    ghost Value = { ℕ };

    ghost view = { λ numbered. numbered.number };

    ghost invariant = { λ numbered. EndsWithin numbered.digits numbered.start numbered.number };
}

impl Numbered {
    /// The number with its text.
    pub(crate) fn new(number: u64) -> Numbered
        ensures { result ≡ number }
    {
        let mut digits = [0; 2 * COPIED];
        let start = write_digits(number, &mut digits, COPIED);
        Numbered {
            number,
            digits,
            start,
        }
    }

    /// Puts the number's text behind the first `at` bytes, and answers where it ends.
    #[inline(always)]
    pub(crate) fn put(&self, block: &mut [u8], at: usize) -> usize
        requires { at + 24 ≤ length block.old }
        ensures text { Puts block.old at block.new result (decimal self.now) }
        ensures short { length (decimal self.now) ≤ 24 }
    {
        // A copy of a copy: what is put lies nowhere in the block, which the compiler then needs not ask at run time.
        let mut text = [0; COPIED];
        text.copy_from_slice(&self.digits[self.start..self.start + COPIED]);
        block[at..at + COPIED].copy_from_slice(&text);
        at + (COPIED - self.start)
    }

    /// Takes this number, and makes its text where it is another.
    #[inline(always)]
    pub(crate) fn set(&mut self, number: u64)
        ensures { self.new ≡ number }
    {
        if self.number != number {
            self.renew(number);
        }
    }

    /// Takes another number, and makes its text.
    #[inline(never)]
    fn renew(&mut self, number: u64)
        ensures { self.new ≡ number }
    {
        let Numbered {
            number: kept,
            digits,
            start,
        } = self;
        *start = write_digits(number, digits, COPIED);
        *kept = number;
    }
}
