//! From data to inputs, and from inputs to the interleaved dibits of a block.
ghost use Rattle.std.specs.Prelude.{◌≡◌, ◌+◌, ◌*◌, ◌<◌, length};
ghost use Rattle.bits.specs.Bits.{byte_bits};
ghost use Rattle.bits.specs.Dibits.{value_of, byte_by};
ghost use Rattle.codes.specs.Convolution.{coded};
ghost use Rattle.codes.specs.Interleaving.{rows_of};
ghost use Rattle.frame.specs.Coding.{dibit_at, block_bytes, unit_bytes};

use codes::convolution::coded_dibit;
use codes::crc::crc16;
use codes::interleave::Interleave;
use codes::whitening::whiten;

/// How many bytes of a message a unit carries.
pub(crate) const UNIT_DATA: usize = 20;

/// How many bytes a unit has: its data and a checksum.
const UNIT_BYTES: usize = 22;

/// The dibit at place `j` of the block, as a number.
fn interleaved_value(inputs: &[u8], interleave: Interleave, j: usize) -> u8
    ensures small { result < 4 }
    ensures value { result ≡ value_of (dibit_at (rows_of interleave) (coded (byte_bits inputs.now)) j) }
{
    coded_dibit(inputs, interleave.item(j)).value()
}

/// Byte `k` of the block: four dibits.
fn interleaved_byte(inputs: &[u8], interleave: Interleave, k: usize) -> u8
    requires { k < 45 }
    ensures { result ≡ byte_by (dibit_at (rows_of interleave) (coded (byte_bits inputs.now))) k }
{
    let first = interleaved_value(inputs, interleave, 4 * k);
    let second = interleaved_value(inputs, interleave, 4 * k + 1);
    let third = interleaved_value(inputs, interleave, 4 * k + 2);
    let fourth = interleaved_value(inputs, interleave, 4 * k + 3);
    64 * first + 16 * second + 4 * third + fourth
}

/// Writes the block whose free inputs are the bits of `inputs`.
// A slice and no array: the interleave says how long it is.
pub(crate) fn fill_block(inputs: &[u8], interleave: Interleave, block: &mut [u8])
    requires { length block.old ≡ 5 * rows_of interleave }
    ensures { block.new ≡ block_bytes (rows_of interleave) (byte_bits inputs.now) }
{
    for (k, byte) in block.iter_mut().enumerate() {
        *byte = interleaved_byte(inputs, interleave, k);
    }
}

/// The unit of some data: the data whitened, then the checksum of that.
pub(crate) fn unit_of(bytes: &[u8; UNIT_DATA]) -> [u8; UNIT_BYTES]
    ensures { result ≡ unit_bytes bytes.now }
{
    let mut white = *bytes;
    whiten(&mut white);
    let mut unit = [0; UNIT_BYTES];
    unit[..UNIT_DATA].copy_from_slice(&white);
    unit[UNIT_DATA..].copy_from_slice(&crc16(&white).to_be_bytes());
    unit
}
