//! What every measure does, and the laws that it owes.
ghost use Rattle.std.specs.Prelude.{◌≡◌, ℕ, Bool};
ghost use Rattle.measure.specs.Meaning.{Meaning, Lawful};
ghost use Rattle.measure.specs.Muting.{IsMutedMarks};

use bits::Dibit;

/// Weighs readings, each of them what was received for one dibit, by a total for the dibits that are supposed.
pub trait Measure {
    type Reading;

    type Total: Copy;

    ghost means: { Meaning Self Self.Reading Self.Total };

    /// The total of no readings.
    fn start(&self) -> Self::Total
        ensures { result ≡ means.start self.now };

    /// The total with one more reading, at a place for which a dibit is supposed.
    fn extend(
        &self,
        total: Self::Total,
        place: usize,
        reading: &Self::Reading,
        dibit: Dibit,
    ) -> Self::Total
        ensures { result ≡ means.extend self.now total place reading.now dibit };

    /// Whether the dibits of total `a` fit their readings better than those of `b`.
    fn better(&self, a: Self::Total, b: Self::Total) -> bool
        ensures { result ≡ means.better self.now a b };

    /// The dibit of a reading taken alone.
    fn plain(&self, reading: &Self::Reading) -> Dibit
        ensures { result ≡ means.plain self.now reading.now };

    /// Whether the reading is one that a receiver gives.
    fn proper(&self, reading: &Self::Reading) -> bool
        ensures { result ≡ means.proper self.now reading.now };

    ghost lawful: { Lawful means };
}

/// Marks under any pile of mutes: marks, with some places muted.
pub trait MutedMarks: Measure<Reading = u8, Total = u16> {
    ghost muted: { Self → ℕ → Bool };

    /// Whether a reading at the place leaves every total as it is.
    fn muted(&self, place: usize) -> bool
        ensures { result ≡ muted self.now place };

    ghost tied: { IsMutedMarks Self.Measure.means muted };
}
