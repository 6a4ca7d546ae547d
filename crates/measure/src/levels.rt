//! Readings that are levels.
ghost use Rattle.std.specs.Prelude.{◌≡◌};
ghost use Rattle.measure.specs.Levels.{levels_means, nominal_level};
ghost use Rattle.std.proofs.Common.{rules};

use crate::weighing::Measure;
use bits::Dibit;

/// Sums the squared differences between the levels and the nominal levels of the dibits supposed.
#[derive(Clone, Copy)]
pub struct Levels;

fn nominal(dibit: Dibit) -> i16
    ensures { result ≡ nominal_level dibit }
{
    match dibit {
        Dibit::D00 => 1000,
        Dibit::D01 => 3000,
        Dibit::D10 => -1000,
        Dibit::D11 => -3000,
    }
}

impl Measure for Levels {
    type Reading = i16;

    type Total = u64;

    ghost means = { levels_means };

    ghost lawful = { Prim.search rules };

    fn start(&self) -> u64 {
        0
    }

    fn extend(&self, total: u64, place: usize, reading: &i16, dibit: Dibit) -> u64 {
        let difference = u64::from(reading.abs_diff(nominal(dibit)));
        total.saturating_add(difference * difference)
    }

    fn better(&self, a: u64, b: u64) -> bool {
        a < b
    }

    fn plain(&self, reading: &i16) -> Dibit {
        let level = *reading;
        if level >= 2000 {
            return Dibit::D01;
        }
        if level >= 0 {
            return Dibit::D00;
        }
        if level >= -1999 {
            return Dibit::D10;
        }
        Dibit::D11
    }

    fn proper(&self, reading: &i16) -> bool {
        true
    }
}
