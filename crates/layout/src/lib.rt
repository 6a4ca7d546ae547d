//! Where a frame keeps its parts.
#![tactic(auto)]

ghost use Rattle.std.specs.Prelude.{◌≡◌, ◌^◌, ◌<◌, ◌≤◌};
ghost use Rattle.layout.specs.Places.{interleave_of, length_of, spread, stands, OwnPlaces};

use codes::interleave::{COLUMNS, Interleave};

/// How many bytes a frame has.
pub const FRAME_BYTES: usize = 120;

/// How many dibits, and so how many readings, a frame has.
pub const FRAME_PLACES: usize = 480;

/// How many bytes a message has.
pub const MESSAGE_BYTES: usize = 320;

/// The five bytes that begin every frame.
pub const SYNC_WORD: [u8; 5] = [0xD4, 0x71, 0xC9, 0x63, 0x4D];

/// A coded block: the FICH, or a unit in one of the places that a frame has for one.
#[derive(Clone, Copy, PartialEq, Eq)]
pub enum Block {
    Fich,
    /// The first of two units, or the only one of a type 1 frame.
    First,
    Second,
    /// The short unit of a type 2 frame.
    Short,
    /// The undivided unit of the first Voice FR frame.
    Solid,
}

/// Place `j` of a run that is cut into pieces of a width, one to each stretch of 72 dibits.
fn spread<const WIDTH: usize>(j: usize) -> usize
    requires { (20 ≤ WIDTH) × ((WIDTH ≤ 36) × (j < 2 ^ 62)) }
    ensures { result ≡ spread WIDTH j }
{
    72 * (j / WIDTH) + j % WIDTH
}

impl Block {
    pub fn interleave(self) -> Interleave
        ensures { result ≡ interleave_of self }
    {
        match self {
            Block::Fich | Block::Short => Interleave::Five,
            Block::First | Block::Second | Block::Solid => Interleave::Nine,
        }
    }

    /// How many coded dibits the block has.
    pub fn dibits(self) -> usize
        ensures { result ≡ length_of self }
    {
        COLUMNS * self.interleave().rows()
    }

    /// The place in the frame of coded dibit `i`.
    pub fn place(self, i: usize) -> usize
        ensures value { result ≡ stands self i }
        ensures law { OwnPlaces self }
    {
        let j = self.interleave().place(i);
        match self {
            Block::Fich => 20 + j,
            Block::First => 120 + spread::<36>(j),
            Block::Second => 156 + spread::<36>(j),
            Block::Short => 120 + spread::<20>(j),
            Block::Solid => 120 + j,
        }
    }
}
