//! The walk over a recording, from frame to frame.
#![tactic(auto)]

ghost use Rattle.std.specs.Prelude.{◌≡◌, ◌+◌, ◌<◌, ◌≤◌, true, length, IfSome, Some};
ghost use Rattle.std.specs.Iterator.{item_count, UpTo};
ghost use Rattle.std.specs.Iterator.SizeHint.{IsWithinCount};
ghost use Rattle.walk.specs.Sync.{sync_dibit, synced, frame_places, first_sync};
ghost use Rattle.walk.specs.Walks.{here, seen, start, past, shown, taken, frame_taken, position_after};
ghost use Rattle.walk.specs.Frames.{all_frames, frames_left, to_come, Takes, Runs, Advances};

use bits::{Dibit, bit};
use layout::{FRAME_PLACES, SYNC_WORD};
use measure::Measure;

#[cfg(test)]
mod tests;

/// How many dibits, and so how many readings, a sync word has.
const SYNC_PLACES: usize = 20;

/// How many sync words in succession a locked walk may miss.
const MISSES_BORNE: u8 = 3;

/// A frame of a recording: where it starts, whether its sync word was missed, and its readings.
#[derive_where(Clone, Copy)]
pub struct Frame<'a, R> {
    pub place: usize,
    pub missed: bool,
    pub readings: &'a [R],
}

/// A walk over a recording that hands out its frames one by one.
#[derive(Drop)]
pub struct Walk<'a, R> {
    readings: &'a [R],
    place: usize,
    /// How many sync words in succession a locked walk has missed. A walk that is not locked has none.
    misses: Option<u8>,
}

/// The frames that a walk hands out when it asks one measure at each step.
#[derive(Drop)]
pub struct Frames<'m, 'a, M: Measure> {
    measure: &'m M,
    walk: Walk<'a, M::Reading>,
}

/// Dibit `k` of the sync word.
fn sync_dibit(k: usize) -> Dibit
    requires { k < 20 }
    ensures { result ≡ sync_dibit k }
{
    Dibit::new(bit(&SYNC_WORD, 2 * k), bit(&SYNC_WORD, 2 * k + 1))
}

impl<'a, R> Walk<'a, R> {
    /// A walk from the start of a recording.
    pub fn new(readings: &'a [R]) -> Walk<'a, R>
        ensures position { here result ≡ start }
        ensures same { result.readings ≡ readings.entry }
    {
        Walk {
            readings,
            place: 0,
            misses: None,
        }
    }

    /// Whether a sync word starts at a place.
    fn starts_sync<M: Measure<Reading = R>>(&self, m: &M, place: usize) -> bool
        requires { place + 20 ≤ length self.now.readings.now }
        ensures { result ≡ synced M.means m.now self.now.readings.now place }
    {
        let word = &self.readings[place..place + SYNC_PLACES];
        word.iter().enumerate().all(
            |(k, reading)|
                requires { k < 20 }
            { m.plain(reading) == sync_dibit(k) },
        )
    }

    /// How many places of the recording have a frame's readings from there on.
    fn frame_places(&self) -> usize
        ensures { result ≡ frame_places (length self.now.readings.now) }
    {
        self.readings.len().saturating_sub(FRAME_PLACES - 1)
    }

    /// The first place, from that of the walk on, where a sync word starts and a frame's readings remain.
    fn hunt<M: Measure<Reading = R>>(&self, m: &M) -> Option<usize>
        ensures value { result ≡ first_sync M.means m.now self.now.readings.now self.now.place }
        ensures whole { IfSome result (λ place. place + 480 ≤ length self.now.readings.now) }
    {
        (self.place..self.frame_places()).find(|place| self.starts_sync(m, *place))
    }

    /// The place of the frame that comes next, and whether its sync word is missed.
    fn next_place<M: Measure<Reading = R>>(&self, m: &M) -> Option<(usize, bool)>
        ensures value { result ≡ taken M.means m.now self.now.readings.now (here self.now) }
        ensures whole { IfSome result (λ t. (t.0 + 480 ≤ length self.now.readings.now) × (t.1 ≡ true → (here self.now).misses < 3)) }
    {
        match self.misses {
            Some(_) if self.place >= self.frame_places() => None,
            Some(_) if self.starts_sync(m, self.place) => Some((self.place, false)),
            Some(misses) if misses < MISSES_BORNE => Some((self.place, true)),
            _ => self.hunt(m).map(|place| (place, false)),
        }
    }

    /// The frame at a place, past which the walk then stands.
    fn hand_out(&mut self, place: usize, missed: bool) -> Frame<'a, R>
        requires whole { place + 480 ≤ length self.old.readings.now }
        requires few { missed ≡ true → (here self.old).misses < 3 }
        ensures value { seen (Some result) ≡ shown self.old.readings.now (Some (place, missed)) }
        ensures after { here self.new ≡ past (here self.old) (Some (place, missed)) }
        ensures same { self.new.readings ≡ self.old.readings }
    {
        let misses = self.misses.unwrap_or(0);
        self.misses = Some(if missed { misses + 1 } else { 0 });
        self.place = place + FRAME_PLACES;
        Frame {
            place,
            missed,
            readings: &self.readings[place..place + FRAME_PLACES],
        }
    }

    /// The next frame, or none at the end of the recording.
    pub fn next<M: Measure<Reading = R>>(&mut self, m: &M) -> Option<Frame<'a, R>>
        ensures value { seen result ≡ frame_taken M.means m.now self.old.readings.now (here self.old) }
        ensures after { here self.new ≡ position_after M.means m.now self.old.readings.now (here self.old) }
        ensures same { self.new.readings ≡ self.old.readings }
        ensures law { Takes M.means m.now self.old.readings.now (here self.old) (here self.new) (seen result) }
        ensures run { Runs M.means m.now self.old.readings.now (all_frames M.means m.now self.old.readings.now) }
    {
        let (place, missed) = self.next_place(m)?;
        Some(self.hand_out(place, missed))
    }
}

impl<'m, 'a, M: Measure> Frames<'m, 'a, M> {
    /// The frames of a recording, from its start.
    pub fn new(measure: &'m M, readings: &'a [M::Reading]) -> Frames<'m, 'a, M>
        ensures position { here result.walk ≡ start }
        ensures same { result.walk.readings ≡ readings.entry }
        ensures measure { result.measure ≡ measure.entry }
        ensures frames { to_come M.means result ≡ all_frames M.means measure.now readings.now }
        ensures run { Runs M.means measure.now readings.now (all_frames M.means measure.now readings.now) }
    {
        Frames {
            measure,
            walk: Walk::new(readings),
        }
    }
}

impl<'m, 'a, M: Measure> Iterator for Frames<'m, 'a, M> {
    type Item = Frame<'a, M::Reading>;

    ghost next_gives = { Advances M.means };

    ghost remaining = { item_count (to_come M.means) };

    /// The next frame, or none at the end of the recording.
    fn next(&mut self) -> Option<Frame<'a, M::Reading>> {
        self.walk.next(self.measure)
    }

    /// No more frames come than the rest of the recording has room for.
    fn size_hint(&self) -> (usize, Option<usize>)
        ensures value { result ≡ (0, Some (frames_left (length self.now.walk.readings.now) self.now.walk.place)) }
        ensures lower { IsWithinCount result.0 (item_count (to_come M.means) self.now) }
        ensures upper { IfSome result.1 (UpTo (item_count (to_come M.means) self.now)) }
    {
        let rest = self.walk.readings.len().saturating_sub(self.walk.place);
        (0, Some(rest / FRAME_PLACES))
    }
}
