//! The fields of a FICH that was received.
ghost use Rattle.std.specs.Prelude.{◌≡◌};
ghost use Rattle.fields.specs.Received.{type_of, fich_read, Inverse};

use crate::fich::{CallMode, DataType, Fich, FrameKind, Routing};
use fault::{Fault, Field};

// No `TryFrom`: each number of two bits is a type, so its error would never come.
/// The type that the two bits of DT say.
fn data_type(dt: u8) -> DataType
    ensures { result ≡ type_of dt }
{
    match dt {
        0 => DataType::VdType1,
        1 => DataType::DataFr,
        2 => DataType::VdType2,
        _ => DataType::VoiceFr,
    }
}

impl Fich {
    /// The FICH of its 32 bits, highest first, or a refusal that names the first field with a value not allowed.
    #[tactic(auto, using(crate::proofs::Inverses::inverse))]
    pub fn from_bytes(bytes: &[u8; 4]) -> Result<Fich, Fault>
        ensures value { result ≡ fich_read bytes.now }
        ensures inverse { Inverse bytes.now }
    {
        let [addressing, counting, signalling, squelch] = *bytes;
        let kind = FrameKind::try_from(addressing / 64)?;
        if addressing / 16 % 4 != 2 {
            return Err(Fault::FieldNotAllowed(Field::Callsigns));
        }
        let call_mode = CallMode::try_from(addressing / 4 % 4)?;
        if addressing % 4 > counting / 64 {
            return Err(Fault::FieldNotAllowed(Field::BlockNumber));
        }
        if counting / 8 % 8 > counting % 8 {
            return Err(Fault::FieldNotAllowed(Field::FrameNumber));
        }
        let routing = Routing::try_from(signalling / 8 % 8)?;
        Ok(Fich {
            kind,
            call_mode,
            block_number: addressing % 4,
            block_total: counting / 64,
            frame_number: counting / 8 % 8,
            frame_total: counting % 8,
            reserved: signalling / 128 == 1,
            narrow: signalling / 64 % 2 == 1,
            routing,
            voip: signalling / 4 % 2 == 1,
            data_type: data_type(signalling % 4),
            squelch_off: squelch / 128 == 1,
            squelch_code: squelch % 128,
        })
    }
}
