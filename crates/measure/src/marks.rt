//! Readings that are bits, some of them marked as unreadable.
ghost use Rattle.std.specs.Prelude.{◌≡◌, ◌%◌, false, slice_index};
ghost use Rattle.measure.specs.Marks.{marks_means, misses, counts};
ghost use Rattle.std.proofs.Common.{rules};

use crate::weighing::{Measure, MutedMarks};
use bits::Dibit;

/// Counts the readable bits that differ from those supposed. A reading is 0 to 15: its lowest two bits are a dibit,
/// 4 marks the first bit as unreadable, and 8 the second.
#[derive(Clone, Copy)]
pub struct Marks;

/// How many readable bits of each reading differ from the dibits 11, 10, 01 and 00, two bits for each. The lowest two
/// are free: no count is then shifted by 0, which costs more where many are shifted at once.
static COUNTS: [u16; 16] = [
    0b10_01_01_00_00,
    0b01_10_00_01_00,
    0b01_00_10_01_00,
    0b00_01_01_10_00,
    0b01_00_01_00_00,
    0b00_01_00_01_00,
    0b01_00_01_00_00,
    0b00_01_00_01_00,
    0b01_01_00_00_00,
    0b01_01_00_00_00,
    0b00_00_01_01_00,
    0b00_00_01_01_00,
    0b00_00_00_00_00,
    0b00_00_00_00_00,
    0b00_00_00_00_00,
    0b00_00_00_00_00,
];

fn counts_of(reading: u8) -> u16
    ensures { result ≡ slice_index counts (reading % 16) }
{
    COUNTS[(reading % 16) as usize]
}

// No comparison and no branch: this runs for every place and every state of a search.
fn missed(reading: u8, supposed: Dibit) -> u16
    ensures { result ≡ misses reading supposed }
{
    (counts_of(reading) >> (2 + 2 * supposed.value())) % 4
}

impl Measure for Marks {
    type Reading = u8;

    type Total = u16;

    ghost means = { marks_means };

    ghost lawful = { Prim.search rules };

    fn start(&self) -> u16 {
        0
    }

    fn extend(&self, total: u16, place: usize, reading: &u8, dibit: Dibit) -> u16 {
        total.saturating_add(missed(*reading, dibit))
    }

    fn better(&self, a: u16, b: u16) -> bool {
        a < b
    }

    fn plain(&self, reading: &u8) -> Dibit {
        Dibit::new(*reading / 2 % 2 != 0, *reading % 2 != 0)
    }

    fn proper(&self, reading: &u8) -> bool {
        *reading <= 15
    }
}

impl MutedMarks for Marks {
    ghost muted = { λ _ _. false };

    ghost tied = { Prim.search rules };

    fn muted(&self, place: usize) -> bool {
        false
    }
}
