//! The text of a line: the place, whether the sync word was missed, the number of the refusal and its detail.
//! An accepted frame has the number 0, and as its detail the bytes of its FICH in hexadecimal digits.
ghost use Rattle.std.specs.Prelude.{Some};
ghost use Rattle.entries.specs.Texts.{line_text};

use crate::entry::Line;
use std::fmt;

impl fmt::Display for Line {
    ghost output = { λ line. Some (line_text line) };

    fn fmt<W: fmt::Write>(&self, f: &mut fmt::Formatter<W>) -> fmt::Result {
        let place = self.place;
        let missed = u8::from(self.missed);
        match self.outcome {
            Ok(fich) => {
                // Byte by byte, as the definition of the text has them.
                let [a, b, c, d] = fich.bytes();
                write!(f, "{place} {missed} 0 {a:02X}{b:02X}{c:02X}{d:02X}")
            }
            Err(fault) => {
                let number = fault.number();
                let detail = fault.detail();
                write!(f, "{place} {missed} {number} {detail}")
            }
        }
    }
}
