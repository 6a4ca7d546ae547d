//! Every refusal by its cause, with the number and the detail under which it is reported.
#![tactic(auto)]

ghost use Rattle.std.specs.Prelude.{◌≡◌, Some};
ghost use Rattle.fault.specs.Faults.{number_of, detail_of, fault_text};
ghost use Rattle.fault.specs.declared.Fault.TheVariants.{FieldNotAllowed};

use std::error::Error;
use std::fmt;

/// Memory of a reading call, in the order in which sizes are checked.
#[derive(Clone, Copy, PartialEq, Eq, Debug)]
pub enum Memory {
    Readings = 1,
    Record = 2,
    Totals = 3,
    Numbers = 4,
}

/// A rule that the fields of a received FICH keep, in the order in which they are checked.
#[derive(Clone, Copy, PartialEq, Eq, Debug)]
pub enum Field {
    /// FI is one of the three kinds of frame.
    FrameKind = 1,
    /// CS says that all callsigns are carried.
    Callsigns = 2,
    /// CM is a call mode.
    CallMode = 3,
    /// BN is at most BT.
    BlockNumber = 4,
    /// FN is at most FT.
    FrameNumber = 5,
    /// MR is a routing.
    Routing = 6,
}

/// A buffer that a caller lends, in the order in which lengths are checked.
#[derive(Clone, Copy, PartialEq, Eq, Debug)]
pub enum Buffer {
    Frame = 1,
    Message = 2,
}

/// Why a call refused.
#[derive(Clone, Copy, PartialEq, Eq, Debug)]
pub enum Fault {
    /// Lent readings, record or work memory have the wrong size.
    WrongSize(Memory),
    /// A reading is not one that a receiver gives; the first such place of the frame.
    Improper(u16),
    /// No Golay codeword lies within three bits of a received word; which word of the block it was.
    NoCodeword(u8),
    /// The checksum of a FICH is not the one received.
    WrongChecksum,
    /// A field of a FICH has a value that no frame carries; the first such field.
    FieldNotAllowed(Field),
    /// A setting has a value that no frame may carry.
    SettingNotAllowed,
    /// A lent buffer has the wrong length.
    WrongLength(Buffer),
    /// A mute has no room for a stretch, or the stretch is empty or ends past the frame.
    StretchNotAllowed,
    /// A Golay argument has bits beyond its width.
    TooWide,
    /// A list has no room for one more entry.
    ListFull,
}

impl Fault {
    // Numbers, and so the details: refusals are listed by them, and some cases carry a value that no discriminant says.
    /// The number under which the refusal is listed.
    pub fn number(self) -> u8
        ensures { result ≡ number_of self }
    {
        match self {
            Fault::WrongSize(_) => 1,
            Fault::Improper(_) => 2,
            Fault::NoCodeword(_) => 3,
            Fault::WrongChecksum => 4,
            Fault::FieldNotAllowed(_) => 5,
            Fault::SettingNotAllowed => 9,
            Fault::WrongLength(_) => 10,
            Fault::StretchNotAllowed => 13,
            Fault::TooWide => 14,
            Fault::ListFull => 15,
        }
    }

    /// What the number leaves open.
    pub fn detail(self) -> u16
        ensures { result ≡ detail_of self }
    {
        match self {
            Fault::WrongSize(memory) => memory as u16,
            Fault::Improper(place) => place,
            Fault::NoCodeword(word) => u16::from(word),
            Fault::FieldNotAllowed(field) => field as u16,
            Fault::WrongLength(buffer) => buffer as u16,
            Fault::WrongChecksum
            | Fault::SettingNotAllowed
            | Fault::StretchNotAllowed
            | Fault::TooWide
            | Fault::ListFull => 0,
        }
    }
}

impl From<Field> for Fault {
    ghost from_gives = { λ field fault. fault ≡ FieldNotAllowed field };

    fn from(field: Field) -> Fault {
        Fault::FieldNotAllowed(field)
    }
}

impl fmt::Display for Fault {
    ghost output = { λ fault. Some (fault_text fault) };

    fn fmt<W: fmt::Write>(&self, f: &mut fmt::Formatter<W>) -> fmt::Result {
        let number = self.number();
        let detail = self.detail();
        write!(f, "number {number}, detail {detail}")
    }
}

impl Error for Fault {}
