//! Why a line of an order is refused.
ghost use Rattle.std.specs.Prelude.{◌≡◌, Some};
ghost use Rattle.order.specs.Causes.{words_of};

use std::error::Error;
use std::fmt;

#[derive(Clone, Copy, PartialEq, Eq, Debug)]
pub enum Cause {
    UnknownKey,
    TooLong,
    NotANumber,
    OutOfRange,
    UnknownMode,
}

impl Cause {
    /// The cause in words, for whoever wrote the line.
    pub fn text(self) -> &'static str
        ensures { result.now ≡ words_of self }
    {
        match self {
            Cause::UnknownKey => "unknown key",
            Cause::TooLong => "value too long",
            Cause::NotANumber => "not a number",
            Cause::OutOfRange => "number out of range",
            Cause::UnknownMode => "unknown mode",
        }
    }
}

impl fmt::Display for Cause {
    ghost output = { λ cause. Some (words_of cause) };

    fn fmt<W: fmt::Write>(&self, f: &mut fmt::Formatter<W>) -> fmt::Result {
        f.write_str(self.text())
    }
}

impl Error for Cause {}
