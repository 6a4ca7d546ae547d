//! The extended Golay code (24,12,8): twelve data bits in a word of 24 that survives three turned bits.
#![tactic(auto)]

ghost use Rattle.std.specs.Prelude.{◌≡◌, ◌*◌, ◌/◌, ◌%◌, ◌^◌, ◌<◌, ◌≤◌, bit_xor};
ghost use Rattle.std.specs.Option.{option_map};
ghost use Rattle.bits.specs.Bits.{bits_of};
ghost use Rattle.bits.specs.Division.{remainder};
ghost use Rattle.golay.specs.Golay.{generator, code_of, check_of, distance, golay_write, Apart};
ghost use Rattle.golay.specs.Nearest.{first_near, nearest, Near, Nearest, golay_read, Read, counted, Explains};

use bits::shift_in_number;
use fault::Fault;
use std::ops::BitXor;

/// The generator below x^11, left-aligned in sixteen bits.
const TAPS: u16 = 0x8EA0;

/// Data and check bits take twelve bits each.
const HALF: u16 = 0x1000;

/// A word takes 24 bits.
const WHOLE: u32 = 0x0100_0000;

/// How many turned bits are mended.
const MENDED: u32 = 3;

/// Twelve bits: the data of a word, or its check bits.
#[derive(Clone, Copy)]
struct Half {
    bits: u16,
    ghost fits: { bits < 4096 },
}

/// A word of 24 bits: twelve data bits, and twelve check bits.
#[derive(Clone, Copy)]
struct Word {
    bits: u32,
    ghost fits: { bits < 2 ^ 24 },
}

/// The remainder of the data times x^11 by the generator.
fn remainder_of(data: u16) -> u16
    ensures value { bits_of 11 result ≡ remainder generator (bits_of 12 «data») }
    ensures within { result < 2048 }
{
    shift_in_number(0, data, 12, TAPS) >> 5
}

impl BitXor for Half {
    type Output = Half;

    ghost bitxor_gives = { λ a b sum. sum.bits ≡ bit_xor a.bits b.bits };

    fn bitxor(self, other: Half) -> Half {
        Half {
            bits: self.bits ^ other.bits,
        }
    }
}

impl Half {
    /// The check bits of the data: the remainder, and the bit that makes the number of ones even.
    fn check_bits(self) -> Half
        ensures { result.bits ≡ check_of self.bits }
    {
        let remainder = remainder_of(self.bits);
        let parity = (self.bits.count_ones() + remainder.count_ones()) % 2;
        Half {
            bits: remainder * 2 + parity as u16,
        }
    }

    /// The data and their check bits.
    #[tactic(auto, using(crate::proofs::Checks::code_halves, crate::proofs::Unique::apart))]
    fn word(self) -> Word
        ensures value { result.bits ≡ code_of self.bits }
        ensures apart { Apart }
    {
        Word {
            bits: u32::from(self.bits) * HALF as u32 + u32::from(self.check_bits().bits),
        }
    }
}

impl Word {
    fn data(self) -> Half
        ensures { result.bits ≡ self.bits / 4096 }
    {
        Half {
            bits: (self.bits / HALF as u32) as u16,
        }
    }

    fn check_bits(self) -> Half
        ensures { result.bits ≡ self.bits % 4096 }
    {
        Half {
            bits: (self.bits % HALF as u32) as u16,
        }
    }

    /// In how many bits two words differ.
    fn distance(self, other: Word) -> u8
        ensures value { result ≡ distance self.bits other.bits }
        ensures within { result ≤ 24 }
    {
        (self.bits ^ other.bits).count_ones() as u8
    }

    /// The data of the one codeword within three bits of a received word.
    fn mended(self) -> Option<Half>
        ensures value { counted self.bits (option_map (λ (h : Half). h.bits) result) ≡ first_near 3 self.bits 0 4096 }
        ensures only { Near 3 self.bits (counted self.bits (option_map (λ (h : Half). h.bits) result)) }
    {
        let data = self.data();
        let wrong = seek(data.check_bits() ^ self.check_bits(), 12, MENDED)?;
        Some(data ^ wrong)
    }
}

/// The codeword of the twelve lowest bits of `data`; codewords of different data differ in at least eight bits.
pub fn codeword(data: u16) -> u32
    ensures value { result ≡ code_of («data» % 4096) }
    ensures apart { Apart }
{
    let data = Half { bits: data % HALF };
    data.word().bits
}

/// The codeword of twelve data bits; wider data are refused.
pub fn encode(data: u16) -> Result<u32, Fault>
    ensures { result ≡ golay_write «data» }
{
    if data >= HALF {
        return Err(Fault::TooWide);
    }
    Ok(codeword(data))
}

/// Which of the `places` lowest data bits to turn to explain a syndrome, if turning `left` bits in all is enough: turned
/// data bits take their check bits out of the syndrome, and what it has left are turned check bits.
fn seek(syndrome: Half, places: u32, left: u32) -> Option<Half>
    requires { places ≤ 12 }
    ensures { Explains syndrome.bits places left (option_map (λ (h : Half). h.bits) result) }
{
    if syndrome.bits.count_ones() <= left {
        return Some(Half { bits: 0 });
    }
    if places == 0 || left == 0 {
        return None;
    }
    let bit = Half {
        bits: 1 << (places - 1),
    };
    // No `map` and `or_else`: a closure that calls `seek` makes a cycle of two functions, each with its measure.
    match seek(syndrome ^ bit.check_bits(), places - 1, left - 1) {
        Some(lower) => Some(lower ^ bit),
        None => seek(syndrome, places - 1, left),
    }
}

/// The data of the one codeword within three bits of the 24 lowest bits of `received`, and how many bits differ.
pub fn nearest_word(received: u32) -> Option<(u16, u8)>
    ensures value { result ≡ nearest (received % 2 ^ 24) }
    ensures only { Nearest (received % 2 ^ 24) result }
{
    let received = Word {
        bits: received % WHOLE,
    };
    let data = received.mended()?;
    Some((data.bits, data.word().distance(received)))
}

/// The same of a word of 24 bits; a wider word is refused, and so is one with no codeword within three bits.
pub fn decode(received: u32) -> Result<(u16, u8), Fault>
    ensures value { result ≡ golay_read received }
    ensures only { received < 2 ^ 24 → Read received result }
{
    if received >= WHOLE {
        return Err(Fault::TooWide);
    }
    nearest_word(received).ok_or(Fault::NoCodeword(0))
}

#[cfg(test)]
mod tests;
