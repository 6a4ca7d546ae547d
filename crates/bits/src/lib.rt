//! Bits and dibits of byte strings, and the shift register that divides by a polynomial.
#![tactic(auto)]

ghost use Rattle.std.specs.Prelude.{◌≡◌, ◌<◌, if◌then◌else◌, nat_le, slice_index};
ghost use Rattle.bits.specs.Bits.{bits_of, bit_at};
ghost use Rattle.bits.specs.Dibits.{dibit, value_of};
ghost use Rattle.bits.specs.Division.{shifted, fed};

/// Two bits, the first the higher.
#[derive(Clone, Copy, PartialEq, Eq)]
pub enum Dibit {
    D00 = 0,
    D01 = 1,
    D10 = 2,
    D11 = 3,
}

impl Dibit {
    /// The dibit of a first and a second bit.
    pub fn new(first: bool, second: bool) -> Dibit
        ensures { result ≡ dibit (if first then 1 else 0) (if second then 1 else 0) }
    {
        match (first, second) {
            (false, false) => Dibit::D00,
            (false, true) => Dibit::D01,
            (true, false) => Dibit::D10,
            (true, true) => Dibit::D11,
        }
    }

    /// Twice the first bit, and the second.
    pub fn value(self) -> u8
        ensures { result ≡ value_of self }
    {
        self as u8
    }
}

/// Byte `k` of a string of bytes, and 0 past its end.
fn byte_at(bytes: &[u8], k: usize) -> u8
    ensures { result ≡ slice_index bytes.now k }
{
    bytes.get(k).copied().unwrap_or(0)
}

/// Bit `k` of a byte, the highest first.
fn bit_of(byte: u8, k: usize) -> bool
    requires { k < 8 }
    ensures { (if result then 1 else 0) ≡ slice_index (bits_of 8 byte) k }
{
    (byte >> (7 - k)) % 2 == 1
}

/// Bit `i` of a string of bytes, and 0 past its end.
pub fn bit(bytes: &[u8], i: usize) -> bool
    ensures { (if result then 1 else 0) ≡ bit_at bytes.now i }
{
    bit_of(byte_at(bytes, i / 8), i % 8)
}

/// A register of sixteen bits that divides by x^16 and the powers in `taps`, one bit on.
pub fn shift_in(register: u16, bit: bool, taps: u16) -> u16
    ensures { bits_of 16 result ≡ shifted (bits_of 16 taps) (bits_of 16 register) (if bit then 1 else 0) }
{
    let top = register >= 0x8000;
    if top != bit {
        (register << 1) ^ taps
    } else {
        register << 1
    }
}

/// The same of the `width` lowest bits of a number, the highest first.
pub fn shift_in_number(register: u16, number: u16, width: u32, taps: u16) -> u16
    ensures { bits_of 16 result ≡ fed (bits_of 16 taps) (bits_of 16 register) (bits_of width number) }
{
    let mut rest = register;
    // No index into a buffer: the bits of a number, by their place.
    for place in (0..width).rev() {
        rest = shift_in(rest, number.unbounded_shr(place) % 2 == 1, taps);
    }
    rest
}
