//! Two lists of entries as one list of lines, by place.
ghost use Rattle.std.specs.Prelude.{◌≡◌};
ghost use Rattle.std.specs.Iterator.{YieldsFirst, item_count};
ghost use Rattle.entries.specs.Lines.{frame_first, merged, to_come, HoldsBoth, SplitsBack};

use crate::entry::{FaultEntry, FrameEntry, Line};

/// The lines that are still to come.
#[derive(Drop)]
pub struct Merge<'a, 'b> {
    frames: &'a [FrameEntry],
    faults: &'b [FaultEntry],
}

impl<'a, 'b> Merge<'a, 'b> {
    /// Whether no refused frame comes before the next accepted one.
    fn frame_first(&self) -> bool
        ensures { result ≡ frame_first self.now.frames.now self.now.faults.now }
    {
        match (self.frames.first(), self.faults.first()) {
            (Some(frame), Some(fault)) => frame.place <= fault.place,
            (_, None) => true,
            (None, Some(_)) => false,
        }
    }
}

impl<'a, 'b> Iterator for Merge<'a, 'b> {
    type Item = Line;

    ghost next_gives = { YieldsFirst to_come };

    ghost remaining = { item_count to_come };

    /// The line with the smallest place, of equal places that of the accepted frame.
    fn next(&mut self) -> Option<Line> {
        if self.frame_first() {
            self.frames.split_off_first().copied().map(Line::from)
        } else {
            self.faults.split_off_first().copied().map(Line::from)
        }
    }
}

/// The lines of two lists, by place.
pub fn lines<'a, 'b>(frames: &'a [FrameEntry], faults: &'b [FaultEntry]) -> Merge<'a, 'b>
    ensures value { to_come result ≡ merged frames.now faults.now }
    ensures whole { HoldsBoth frames.now faults.now (to_come result) }
    ensures back { SplitsBack }
{
    Merge { frames, faults }
}
