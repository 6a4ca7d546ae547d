//! The header frame, which says who calls whom.
ghost use Rattle.std.specs.Prelude.{◌≡◌, ◌<◌, ◌++◌, length, slice_index};
ghost use Rattle.bits.specs.Bits.{bits_of, byte_bits};
ghost use Rattle.fault.specs.Faults.{refused_or};
ghost use Rattle.fields.specs.Settings.{checked_header};
ghost use Rattle.golay.specs.Golay.{golay};
ghost use Rattle.frame.specs.Coding.{by_turns};
ghost use Rattle.frame.specs.Header.{golay_words, fich_inputs, fich_block, unit_block, paired_units, header_frame, header_fault, frame_after, LaidOut};
ghost use Rattle.frame.specs.Known.{KnownValues};

use crate::coding::{UNIT_DATA, fill_block, unit_of};
use codes::crc::crc16;
use codes::interleave::Interleave;
use fault::{Buffer, Fault};
use fields::fich::{DataType, Fich};
use fields::settings::Settings;
use golay::codeword;
pub use layout::MESSAGE_BYTES;
use layout::{FRAME_BYTES, SYNC_WORD};

/// The Golay word of the twelve lowest bits.
fn golay_bytes(twelve: u16) -> [u8; 3]
    ensures { byte_bits result ≡ golay (bits_of 12 twelve) }
{
    let [_, high, middle, low] = codeword(twelve).to_be_bytes();
    [high, middle, low]
}

// By hand: twelve bits are no whole bytes.
/// The two Golay words of three bytes.
fn golay_pair(a: u8, b: u8, c: u8) -> [u8; 6]
    ensures { byte_bits result ≡ golay_words 2 (bits_of 8 a ++ (bits_of 8 b ++ bits_of 8 c)) }
{
    let [p, q, r] = golay_bytes(u16::from(a) * 16 + u16::from(b) / 16);
    let [s, t, u] = golay_bytes(u16::from(b) % 16 * 256 + u16::from(c));
    [p, q, r, s, t, u]
}

/// The four Golay words of a FICH and its checksum.
fn fich_words(fich: &Fich) -> [u8; 12]
    ensures { byte_bits result ≡ fich_inputs fich.now }
{
    let bytes = fich.bytes();
    let [a, b, c, d] = bytes;
    let [high, low] = crc16(&bytes).to_be_bytes();
    let mut words = [0; 12];
    words[..6].copy_from_slice(&golay_pair(a, b, c));
    words[6..].copy_from_slice(&golay_pair(d, high, low));
    words
}

/// Writes the FICH into the part of a frame that is kept for it.
// A slice and no array: nothing is known of a frame whose middle was lent by `as_mut_array`.
fn write_fich(part: &mut [u8], fich: &Fich)
    requires { length part.old ≡ 25 }
    ensures { part.new ≡ fich_block fich.now }
{
    fill_block(&fich_words(fich), Interleave::Five, part);
}

/// The coded unit of twenty bytes.
fn coded_unit(bytes: &[u8; UNIT_DATA]) -> [u8; 45]
    ensures { result ≡ unit_block bytes.now }
{
    let mut block = [0; 45];
    fill_block(&unit_of(bytes), Interleave::Nine, &mut block);
    block
}

/// Byte `k` of two units in pieces of nine bytes by turns.
fn piece_byte(first: &[u8; 45], second: &[u8; 45], k: usize) -> u8
    requires { k < 90 }
    ensures { result ≡ slice_index (by_turns 9 5 first.now second.now) k }
{
    let place = k / 18 * 9 + k % 9;
    if k % 18 < 9 {
        first[place]
    } else {
        second[place]
    }
}

/// Writes the two units of a header or terminator into the part of a frame after the FICH, which is lent from it.
// By places: no clause of `chunks_exact_mut` says what the part holds after it.
fn write_units(part: &mut [u8], message: &[u8; MESSAGE_BYTES])
    requires { length part.old ≡ 90 }
    ensures { part.new ≡ paired_units message.now }
{
    let first = coded_unit(message[..UNIT_DATA].try_into().unwrap());
    let second = coded_unit(message[UNIT_DATA..2 * UNIT_DATA].try_into().unwrap());
    for (k, byte) in part.iter_mut().enumerate() {
        *byte = piece_byte(&first, &second, k);
    }
}

/// Writes a frame of two units.
fn write_frame(frame: &mut [u8; FRAME_BYTES], message: &[u8; MESSAGE_BYTES], fich: &Fich)
    ensures { frame.new ≡ header_frame fich.now message.now }
{
    frame[..5].copy_from_slice(&SYNC_WORD);
    write_fich(&mut frame[5..30], fich);
    write_units(&mut frame[30..], message);
}

/// Writes the header frame of a transmission with these settings into `frame`: who calls whom stands in the first
/// forty bytes of the message.
#[tactic(auto, using(crate::proofs::Standing::laid_out, crate::proofs::Known::known_values))]
pub fn write_header(
    frame: &mut [u8],
    message: &[u8],
    mode: DataType,
    settings: &Settings,
) -> Result<(), Fault>
    ensures value { result ≡ refused_or (header_fault (checked_header settings.now mode) (length frame.old) (length message.now)) tt }
    ensures after { frame.new ≡ frame_after (checked_header settings.now mode) message.now frame.old }
    ensures layout { LaidOut }
    ensures known { KnownValues }
{
    let fich = settings.header(mode)?;
    let Some(frame) = frame.as_mut_array() else {
        return Err(Fault::WrongLength(Buffer::Frame));
    };
    let Some(message) = message.as_array() else {
        return Err(Fault::WrongLength(Buffer::Message));
    };
    write_frame(frame, message, &fich);
    Ok(())
}
