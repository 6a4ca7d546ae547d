//! The memory that a search works in.
ghost use Rattle.std.specs.Prelude.{◌≡◌, length};
ghost use Rattle.fault.specs.Faults.{refused_or};
ghost use Rattle.trellis.specs.Answers.{size_fault};

use crate::search::check_sizes;
use fault::Fault;
use std::marker::Model;

/// How many totals a search works with.
pub const TOTALS: usize = 32;

/// How many numbers a search works with.
pub const NUMBERS: usize = 180;

/// Totals and numbers that a caller lends for work. What they hold before and after a call says nothing.
#[derive(Drop)]
pub struct Work<'a, T> {
    pub(crate) totals: &'a mut [T],
    pub(crate) numbers: &'a mut [u16],
}

impl<'a, T> Model for Work<'a, T> {
    ghost use Rattle.std.specs.Prelude.{length};
    ghost use Rattle.trellis.specs.Sizes.{Sizes};

    ghost Value = { Sizes };

    ghost view = { λ work. record { totals = length work.totals.now; numbers = length work.numbers.now } };
}

impl<'a, T> Work<'a, T> {
    /// Work memory of any size: a call that works in it refuses a wrong one.
    pub fn new(totals: &'a mut [T], numbers: &'a mut [u16]) -> Work<'a, T>
        ensures { result ≡ record { totals = length totals.old; numbers = length numbers.old } }
    {
        Work { totals, numbers }
    }

    /// How many totals and how many numbers there are.
    pub fn sizes(&self) -> (usize, usize)
        ensures { result ≡ (self.now.totals, self.now.numbers) }
    {
        (self.totals.len(), self.numbers.len())
    }

    /// Refuses the first memory of the wrong size, the readings before the totals and the numbers.
    pub fn check_sizes(&self, readings: usize) -> Result<(), Fault>
        ensures { result ≡ refused_or (size_fault readings self.now.totals self.now.numbers) tt }
    {
        let (totals, numbers) = self.sizes();
        check_sizes(readings, totals, numbers)
    }
}
