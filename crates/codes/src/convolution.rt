//! The convolutional coder.
ghost use Rattle.std.specs.Prelude.{◌≡◌, if◌then◌else◌};
ghost use Rattle.bits.specs.Bits.{byte_bits};
ghost use Rattle.codes.specs.Convolution.{symbol, input_before, symbol_at};

use bits::{Dibit, bit};

/// The input `k` steps before input `i`, and 0 before the start.
fn earlier(inputs: &[u8], i: usize, k: usize) -> bool
    ensures { (if result then 1 else 0) ≡ input_before (byte_bits inputs.now) i k }
{
    if i < k {
        return false;
    }
    bit(inputs, i - k)
}

/// The dibit for an input and the four before it.
fn tapped(u: bool, u1: bool, u2: bool, u3: bool, u4: bool) -> Dibit
    ensures { result ≡ symbol (if u then 1 else 0) (if u1 then 1 else 0) (if u2 then 1 else 0) (if u3 then 1 else 0) (if u4 then 1 else 0) }
{
    Dibit::new(u ^ u3 ^ u4, u ^ u1 ^ u2 ^ u4)
}

/// Dibit `i` of the word whose free inputs are the bits of `inputs`; 00 past its end.
pub fn coded_dibit(inputs: &[u8], i: usize) -> Dibit
    ensures { result ≡ symbol_at (byte_bits inputs.now) i }
{
    let u = earlier(inputs, i, 0);
    let u1 = earlier(inputs, i, 1);
    let u2 = earlier(inputs, i, 2);
    let u3 = earlier(inputs, i, 3);
    let u4 = earlier(inputs, i, 4);
    tapped(u, u1, u2, u3, u4)
}
