//! The checksum of sixteen bits that FICH and units carry.
ghost use Rattle.std.specs.Prelude.{◌≡◌};
ghost use Rattle.bits.specs.Bits.{bits_of, number_of, byte_bits};
ghost use Rattle.bits.specs.Division.{remainder};
ghost use Rattle.codes.specs.Crc.{crc, crc_generator, all_inverted};

use bits::shift_in_number;

/// x^12 + x^5 + 1, below x^16.
const GENERATOR: u16 = 0x1021;

fn remainder_of(bytes: &[u8]) -> u16
    ensures { bits_of 16 result ≡ remainder crc_generator (byte_bits bytes.now) }
{
    let mut rest = 0;
    for byte in bytes {
        rest = shift_in_number(rest, u16::from(*byte), 8, GENERATOR);
    }
    rest
}

fn inverted(register: u16) -> u16
    ensures { result ≡ number_of (all_inverted (bits_of 16 register)) }
{
    register ^ 0xFFFF
}

/// The checksum of a string of bytes.
pub fn crc16(bytes: &[u8]) -> u16
    ensures { result ≡ crc bytes.now }
{
    inverted(remainder_of(bytes))
}
