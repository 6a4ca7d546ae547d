//! The frame information channel, field by field.
ghost use Rattle.std.specs.Prelude.{◌≡◌};
ghost use Rattle.bits.specs.Bits.{byte_bits};
ghost use Rattle.fields.specs.Fields.{fich_bits, fich_bytes};
ghost use Rattle.fields.specs.Numbers.{addressing_number, counting_number, signalling_number, squelch_number};
ghost use Rattle.fields.specs.Received.{kind_read, call_read, routing_read};

use fault::Field;

/// What a frame is for (FI).
#[derive(Clone, Copy, PartialEq, Eq)]
pub enum FrameKind {
    Header = 0,
    Communication = 1,
    Terminator = 2,
}

/// Whom a call addresses (CM).
#[derive(Clone, Copy, PartialEq, Eq)]
pub enum CallMode {
    /// Anyone who hears it.
    Group = 0,
    /// The station with a Radio ID.
    RadioId = 1,
    /// The station with a callsign.
    Individual = 3,
}

/// The way that a message takes (MR).
#[derive(Clone, Copy, PartialEq, Eq)]
pub enum Routing {
    Direct = 0,
    /// From a repeater whose uplink is not busy.
    DownlinkFree = 1,
    /// From a repeater whose uplink is busy.
    DownlinkBusy = 2,
}

/// How a transmission shares its frames between voice and data (DT).
#[derive(Clone, Copy, PartialEq, Eq)]
pub enum DataType {
    VdType1 = 0,
    DataFr = 1,
    VdType2 = 2,
    VoiceFr = 3,
}

/// The fields of a FICH. Of a number only the bits that its field has are sent.
#[derive(Clone, Copy, PartialEq, Eq)]
pub struct Fich {
    pub kind: FrameKind,
    pub call_mode: CallMode,
    /// BN, two bits.
    pub block_number: u8,
    /// BT, two bits.
    pub block_total: u8,
    /// FN, three bits.
    pub frame_number: u8,
    /// FT, three bits.
    pub frame_total: u8,
    pub reserved: bool,
    /// Dev: the narrow deviation.
    pub narrow: bool,
    pub routing: Routing,
    pub voip: bool,
    pub data_type: DataType,
    /// SQL: the squelch code is not in use.
    pub squelch_off: bool,
    /// SC, seven bits.
    pub squelch_code: u8,
}

/// The kind that FI says; an error names the rule that a number of no kind breaks.
impl TryFrom<u8> for FrameKind {
    type Error = Field;

    ghost try_from_gives = { λ fi r. r ≡ kind_read fi };

    fn try_from(fi: u8) -> Result<Self, Field> {
        match fi {
            0 => Ok(FrameKind::Header),
            1 => Ok(FrameKind::Communication),
            2 => Ok(FrameKind::Terminator),
            _ => Err(Field::FrameKind),
        }
    }
}

/// The mode that CM says; an error names the rule that a number of no mode breaks.
impl TryFrom<u8> for CallMode {
    type Error = Field;

    ghost try_from_gives = { λ cm r. r ≡ call_read cm };

    fn try_from(cm: u8) -> Result<Self, Field> {
        match cm {
            0 => Ok(CallMode::Group),
            1 => Ok(CallMode::RadioId),
            3 => Ok(CallMode::Individual),
            _ => Err(Field::CallMode),
        }
    }
}

/// The routing that MR says; an error names the rule that a number of no routing breaks.
impl TryFrom<u8> for Routing {
    type Error = Field;

    ghost try_from_gives = { λ mr r. r ≡ routing_read mr };

    fn try_from(mr: u8) -> Result<Self, Field> {
        match mr {
            0 => Ok(Routing::Direct),
            1 => Ok(Routing::DownlinkFree),
            2 => Ok(Routing::DownlinkBusy),
            _ => Err(Field::Routing),
        }
    }
}

impl Fich {
    fn addressing(&self) -> u8
        ensures { result ≡ addressing_number self.now }
    {
        self.kind as u8 * 64 + 32 + self.call_mode as u8 * 4 + self.block_number % 4
    }

    fn counting(&self) -> u8
        ensures { result ≡ counting_number self.now }
    {
        self.block_total % 4 * 64 + self.frame_number % 8 * 8 + self.frame_total % 8
    }

    fn signalling(&self) -> u8
        ensures { result ≡ signalling_number self.now }
    {
        let flags = u8::from(self.reserved) * 128
            + u8::from(self.narrow) * 64
            + u8::from(self.voip) * 4;
        flags + self.routing as u8 * 8 + self.data_type as u8
    }

    fn squelch(&self) -> u8
        ensures { result ≡ squelch_number self.now }
    {
        u8::from(self.squelch_off) * 128 + self.squelch_code % 128
    }

    /// The 32 bits, highest first.
    #[tactic(auto, using(crate::proofs::Parts::numbers_bits, crate::proofs::Parts::numbers_bytes))]
    pub fn bytes(&self) -> [u8; 4]
        ensures value { result ≡ fich_bytes self.now }
        ensures bits { byte_bits result ≡ fich_bits self.now }
    {
        [
            self.addressing(),
            self.counting(),
            self.signalling(),
            self.squelch(),
        ]
    }
}
