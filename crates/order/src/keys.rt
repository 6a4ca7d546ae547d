//! Which part of an order each key names, and the words and numbers that a part takes.
ghost use Rattle.std.specs.Prelude.{◌≡◌, ◌+◌, ◌≤◌};
ghost use Rattle.order.specs.Keys.{field_of, mode_of, allows, text_at, text_width};

use fields::fich::{CallMode, DataType, Routing};
use std::ops::Range;
use std::str::from_utf8;

/// A number among the settings.
#[derive(Clone, Copy, PartialEq, Eq)]
pub enum Setting {
    Cm,
    Dev,
    Mr,
    Voip,
    Sql,
    Sc,
}

/// A text of the message.
#[derive(Clone, Copy, PartialEq, Eq)]
pub enum TextField {
    Dest,
    Src,
    Down,
    Up,
    Rem1,
    Rem2,
    Rem3,
    Rem4,
}

/// A part of an order that a line can write.
#[derive(Clone, Copy, PartialEq, Eq)]
pub enum Field {
    Text(TextField),
    Mode,
    Number(Setting),
}

impl Setting {
    // No step is chosen here: each arm is the range of one setting.
    /// Whether the setting may have this number.
    pub fn allows(self, number: u8) -> bool
        ensures { result ≡ allows self number }
    {
        match self {
            Setting::Cm => CallMode::try_from(number).is_ok(),
            Setting::Dev | Setting::Voip | Setting::Sql => number <= 1,
            Setting::Mr => Routing::try_from(number).is_ok(),
            Setting::Sc => number <= 127,
        }
    }
}

impl TextField {
    /// The bytes of the message that the text takes.
    pub fn place(self) -> Range<usize>
        ensures start { result.start ≡ text_at self }
        ensures end { result.end ≡ text_at self + text_width self }
        ensures within { text_at self + text_width self ≤ 320 }
    {
        match self {
            TextField::Dest => 0..10,
            TextField::Src => 10..20,
            TextField::Down => 20..30,
            TextField::Up => 30..40,
            TextField::Rem1 => 40..45,
            TextField::Rem2 => 45..50,
            TextField::Rem3 => 50..55,
            TextField::Rem4 => 55..60,
        }
    }
}

/// The part that a key names.
pub fn field_of(key: &[u8]) -> Option<Field>
    ensures { result ≡ field_of key.now }
{
    match from_utf8(key).ok()? {
        "dest" => Some(Field::Text(TextField::Dest)),
        "src" => Some(Field::Text(TextField::Src)),
        "down" => Some(Field::Text(TextField::Down)),
        "up" => Some(Field::Text(TextField::Up)),
        "rem1" => Some(Field::Text(TextField::Rem1)),
        "rem2" => Some(Field::Text(TextField::Rem2)),
        "rem3" => Some(Field::Text(TextField::Rem3)),
        "rem4" => Some(Field::Text(TextField::Rem4)),
        "mode" => Some(Field::Mode),
        "cm" => Some(Field::Number(Setting::Cm)),
        "dev" => Some(Field::Number(Setting::Dev)),
        "mr" => Some(Field::Number(Setting::Mr)),
        "voip" => Some(Field::Number(Setting::Voip)),
        "sql" => Some(Field::Number(Setting::Sql)),
        "sc" => Some(Field::Number(Setting::Sc)),
        _ => None,
    }
}

/// The mode that a word names.
pub fn mode_of(word: &[u8]) -> Option<DataType>
    ensures { result ≡ mode_of word.now }
{
    match from_utf8(word).ok()? {
        "vd1" => Some(DataType::VdType1),
        "vd2" => Some(DataType::VdType2),
        "data" => Some(DataType::DataFr),
        "voice" => Some(DataType::VoiceFr),
        _ => None,
    }
}
