//! What a sender chooses about a transmission.
ghost use Rattle.std.specs.Prelude.{◌≡◌};
ghost use Rattle.fields.specs.Settings.{flag_read, checked_header};

use crate::fich::{CallMode, DataType, Fich, FrameKind, Routing};
use fault::Fault;

/// The chosen fields of a FICH, as numbers that may yet be out of range.
// Numbers and no enums: by rule a setting too large for its field is refused, and not cut to it.
#[derive(Clone, Copy, PartialEq, Eq)]
pub struct Settings {
    pub cm: u8,
    pub dev: u8,
    pub mr: u8,
    pub voip: u8,
    pub sql: u8,
    pub sc: u8,
}

// By hand: there is no `TryFrom<u8>` of `bool`.
/// The flag that a setting of one bit says.
fn flag(setting: u8) -> Result<bool, Fault>
    ensures { result ≡ flag_read setting }
{
    match setting {
        0 => Ok(false),
        1 => Ok(true),
        _ => Err(Fault::SettingNotAllowed),
    }
}

impl Settings {
    /// The FICH of a header with these settings, or a refusal where one is not allowed.
    pub fn header(&self, mode: DataType) -> Result<Fich, Fault>
        ensures { result ≡ checked_header self.now mode }
    {
        if self.sc >= 128 {
            return Err(Fault::SettingNotAllowed);
        }
        Ok(Fich {
            kind: FrameKind::Header,
            call_mode: CallMode::try_from(self.cm).map_err(|_| Fault::SettingNotAllowed)?,
            block_number: 0,
            block_total: 0,
            frame_number: 0,
            frame_total: 0,
            reserved: false,
            narrow: flag(self.dev)?,
            routing: Routing::try_from(self.mr).map_err(|_| Fault::SettingNotAllowed)?,
            voip: flag(self.voip)?,
            data_type: mode,
            squelch_off: flag(self.sql)?,
            squelch_code: self.sc,
        })
    }
}
