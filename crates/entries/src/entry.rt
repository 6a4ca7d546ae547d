//! What is said of a place in a recording.
ghost use Rattle.std.specs.Prelude.{◌≡◌};
ghost use Rattle.entries.specs.Entries.{accepted_line, refused_line};

use fault::Fault;
use fields::fich::Fich;

/// A frame, and what came of reading it.
#[derive(Clone, Copy, PartialEq, Eq, Debug)]
pub struct Entry<T> {
    pub place: usize,
    /// Its sync word was not found.
    pub missed: bool,
    pub outcome: T,
}

/// A frame that was read.
pub type FrameEntry = Entry<Fich>;

/// A frame that was refused.
pub type FaultEntry = Entry<Fault>;

/// A line of a listing: a frame that was read or refused.
pub type Line = Entry<Result<Fich, Fault>>;

// Two impls and no `map` on the outcome: what calls a closure asks of its callers that it may, and a public function asks
// nothing.
impl From<FrameEntry> for Line {
    ghost from_gives = { λ frame line. line ≡ accepted_line frame };

    fn from(frame: FrameEntry) -> Line {
        Entry {
            place: frame.place,
            missed: frame.missed,
            outcome: Ok(frame.outcome),
        }
    }
}

impl From<FaultEntry> for Line {
    ghost from_gives = { λ fault line. line ≡ refused_line fault };

    fn from(fault: FaultEntry) -> Line {
        Entry {
            place: fault.place,
            missed: fault.missed,
            outcome: Err(fault.outcome),
        }
    }
}
