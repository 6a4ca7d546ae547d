//! A measure over another, under which the readings of some stretches of places count for nothing.
#![tactic(auto)]

ghost use Rattle.std.specs.Prelude.{◌≡◌, ◌+◌, ◌<◌, ◌≤◌, ◌||◌, [], take, None};
ghost use Rattle.fault.specs.Faults.{refused_or, unless};
ghost use Rattle.mute.specs.Mutes.{mute_means, inside, covered, stretches, hidden, unmuted, added, add_fault, Grown};
ghost use Rattle.std.proofs.Common.{rules};

use bits::Dibit;
use fault::Fault;
use layout::FRAME_PLACES;
use measure::{Measure, MutedMarks};

const SLOTS: usize = 8;

/// The places from `first` to below `past`.
#[derive(Clone, Copy)]
struct Stretch {
    first: u16,
    past: u16,
}

impl Stretch {
    fn holds(self, place: usize) -> bool
        ensures { result ≡ inside self place }
    {
        let place = place.min(0xffff) as u16;
        (self.first <= place) & (place < self.past)
    }
}

// Every slot is looked at, and no test branches, so that the eight are compared at once. A function of its own, since
// it runs for slots alone, whatever measure lies below.
fn covers(slots: &[Stretch; SLOTS], used: u16, place: usize) -> bool
    ensures { result ≡ covered (take used slots.now) place }
{
    let mut inside = false;
    for (i, slot) in slots.iter().enumerate() {
        inside |= (i < usize::from(used)) & slot.holds(place);
    }
    inside
}

// Slots and their number, and no growing list: a mute is copied, and its memory is fixed.
/// The measure below it, except that a reading inside one of up to eight stretches leaves the total as it is.
#[derive(Clone, Copy)]
pub struct Mute<M> {
    below: M,
    slots: [Stretch; SLOTS],
    used: u16,
}

impl<M> Mute<M> {
    /// A mute with no stretch.
    pub fn new(below: M) -> Mute<M>
        ensures value { result ≡ unmuted below }
        ensures none { stretches result ≡ [] }
    {
        Mute {
            below,
            slots: [Stretch { first: 0, past: 0 }; SLOTS],
            used: 0,
        }
    }

    /// Adds a stretch of `length` places. Stretches may overlap.
    pub fn add(&mut self, first: usize, length: usize) -> Result<(), Fault>
        ensures answer { result ≡ refused_or (add_fault self.old first length) tt }
        ensures after { self.new ≡ unless (add_fault self.old first length) (added self.old first length) self.old }
        ensures grown { add_fault self.old first length ≡ None → Grown self.old self.new first length }
    {
        if self.used >= SLOTS as u16 {
            return Err(Fault::StretchNotAllowed);
        }
        if length == 0 {
            return Err(Fault::StretchNotAllowed);
        }
        if first > FRAME_PLACES || length > FRAME_PLACES - first {
            return Err(Fault::StretchNotAllowed);
        }
        self.put(first, length);
        Ok(())
    }

    fn put(&mut self, first: usize, length: usize)
        requires { (self.old.used < 8) × (first + length ≤ 480) }
        ensures after { self.new ≡ added self.old first length }
        ensures grown { Grown self.old self.new first length }
    {
        self.slots[self.used as usize] = Stretch {
            first: first as u16,
            past: (first + length) as u16,
        };
        self.used += 1;
    }

    fn hides(&self, place: usize) -> bool
        ensures { result ≡ hidden self.now place }
    {
        covers(&self.slots, self.used, place)
    }
}

impl<M: Measure> Measure for Mute<M> {
    type Reading = M::Reading;

    type Total = M::Total;

    ghost means = { mute_means M.Measure.means };

    ghost lawful = { Prim.search rules };

    fn start(&self) -> M::Total {
        self.below.start()
    }

    fn extend(
        &self,
        total: M::Total,
        place: usize,
        reading: &M::Reading,
        dibit: Dibit,
    ) -> M::Total {
        if self.hides(place) {
            total
        } else {
            self.below.extend(total, place, reading, dibit)
        }
    }

    fn better(&self, a: M::Total, b: M::Total) -> bool {
        self.below.better(a, b)
    }

    fn plain(&self, reading: &M::Reading) -> Dibit {
        self.below.plain(reading)
    }

    fn proper(&self, reading: &M::Reading) -> bool {
        self.below.proper(reading)
    }
}

impl<M: MutedMarks> MutedMarks for Mute<M> {
    ghost muted = { λ m place. hidden m place || M.MutedMarks.muted m.below place };

    ghost tied = { Prim.search rules };

    fn muted(&self, place: usize) -> bool {
        self.hides(place) | self.below.muted(place)
    }
}

#[cfg(test)]
mod tests;
