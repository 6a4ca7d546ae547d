//! An order for a header frame, read line by line: `key value`, where a later line of a key wins.
#![tactic(auto)]

pub mod cause;
mod decimal;
mod keys;
mod lines;
#[cfg(test)]
mod tests;

ghost use Rattle.std.specs.Prelude.{◌≡◌, ◌+◌, ◌≤◌, true, length};
ghost use Rattle.fields.specs.Settings.{allowed};
ghost use Rattle.order.specs.Changes.{Changed};
ghost use Rattle.order.specs.Decimals.{byte_of};
ghost use Rattle.order.specs.Keys.{field_of};
ghost use Rattle.order.specs.Lines.{bare_of, key_of, value_of};
ghost use Rattle.order.specs.Orders.{blank_order, padded, with_setting, written, written_number, read_line, answer, left};

use cause::Cause;
use decimal::decimal;
use fields::fich::DataType;
use fields::settings::Settings;
use keys::{Field, Setting};
use layout::MESSAGE_BYTES;

/// What a header frame is to say.
#[derive(Clone, Copy, PartialEq, Eq)]
pub struct Order {
    /// Four texts of ten bytes, four of five, and spaces.
    pub message: [u8; MESSAGE_BYTES],
    pub mode: DataType,
    pub settings: Settings,
}

/// Writes a text over the bytes of its field, and spaces over the rest of them.
fn put(place: &mut [u8], text: &[u8])
    requires { length text.now ≤ length place.old }
    ensures { place.new ≡ padded (length place.old) text.now }
{
    place.fill(b' ');
    place[..text.len()].copy_from_slice(text);
}

// No step is chosen here: each arm writes one field.
/// Changes one of the settings.
fn change(settings: &mut Settings, setting: Setting, number: u8)
    ensures { settings.new ≡ with_setting settings.old setting number }
{
    match setting {
        Setting::Cm => settings.cm = number,
        Setting::Dev => settings.dev = number,
        Setting::Mr => settings.mr = number,
        Setting::Voip => settings.voip = number,
        Setting::Sql => settings.sql = number,
        Setting::Sc => settings.sc = number,
    }
}

impl Order {
    /// An order with a message of spaces, the mode V/D type 2 and every setting 0.
    #[tactic(auto, unfolding(crate::specs::Orders::blank_message))]
    pub fn new() -> Order
        ensures value { result ≡ blank_order }
        ensures settings { allowed result.settings ≡ true }
    {
        Order {
            message: [b' '; MESSAGE_BYTES],
            mode: DataType::VdType2,
            settings: Settings {
                cm: 0,
                dev: 0,
                mr: 0,
                voip: 0,
                sql: 0,
                sc: 0,
            },
        }
    }

    /// Writes a decimal number into one of the settings.
    fn write_number(&mut self, setting: Setting, value: &[u8]) -> Result<(), Cause>
        ensures value { result ≡ answer (written_number self.old setting (byte_of value.now)) }
        ensures after { self.new ≡ left (written_number self.old setting (byte_of value.now)) self.old }
    {
        let number = decimal(value).ok_or(Cause::NotANumber)?;
        if !setting.allows(number) {
            return Err(Cause::OutOfRange);
        }
        change(&mut self.settings, setting, number);
        Ok(())
    }

    /// Writes a value into the part of the order that takes it.
    fn write(&mut self, field: Field, value: &[u8]) -> Result<(), Cause>
        ensures value { result ≡ answer (written self.old field value.now) }
        ensures after { self.new ≡ left (written self.old field value.now) self.old }
    {
        match field {
            Field::Text(text) => {
                let place = text.place();
                if value.len() > place.len() {
                    return Err(Cause::TooLong);
                }
                put(&mut self.message[place], value);
                Ok(())
            }
            Field::Mode => {
                self.mode = keys::mode_of(value).ok_or(Cause::UnknownMode)?;
                Ok(())
            }
            Field::Number(setting) => self.write_number(setting, value),
        }
    }

    /// Takes one line, without its newline. A line that is refused leaves the order as it was.
    pub fn line(&mut self, line: &[u8]) -> Result<(), Cause>
        ensures value { result ≡ answer (read_line self.old line.now) }
        ensures after { self.new ≡ left (read_line self.old line.now) self.old }
        ensures law { Changed self.old (field_of (key_of (bare_of line.now))) (value_of (bare_of line.now)) self.new }
    {
        let bare = lines::bare(line);
        if bare.is_empty() {
            return Ok(());
        }
        let (key, value) = lines::split(bare);
        let field = keys::field_of(key).ok_or(Cause::UnknownKey)?;
        self.write(field, value)
    }
}
