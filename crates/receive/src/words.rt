//! From the word of a FICH block to the FICH.
ghost use Rattle.std.specs.Prelude.{◌≡◌, ◌^◌, ◌<◌, ◌++◌, slice_index};
ghost use Rattle.bits.specs.Bits.{bits_of, byte_bits, numbers_of};
ghost use Rattle.golay.specs.Nearest.{nearest};
ghost use Rattle.layout.specs.declared.Block.TheVariants.{Fich as FichBlock};
ghost use Rattle.trellis.specs.Answers.{word_inputs};
ghost use Rattle.receive.specs.Words.{data_read, golay_data, six_bytes, checked_fich, fich_of_word};

use codes::crc::crc16;
use fault::Fault;
use fields::fich::Fich;
use golay::nearest_word;
use trellis::search::WORD_BYTES;

/// Golay word `k` of the four, as it was received.
fn received(word: &[u8; WORD_BYTES], k: usize) -> u32
    requires { k < 4 }
    ensures value { result ≡ slice_index (numbers_of 24 4 (word_inputs FichBlock word.now)) k }
    ensures within { result < 2 ^ 24 }
{
    u32::from_be_bytes([0, word[3 * k], word[3 * k + 1], word[3 * k + 2]])
}

/// The twelve data bits of Golay word `k`.
fn data_of(word: &[u8; WORD_BYTES], k: u8) -> Result<u16, Fault>
    requires { k < 4 }
    ensures { result ≡ data_read k (nearest (slice_index (numbers_of 24 4 (word_inputs FichBlock word.now)) k)) }
{
    nearest_word(received(word, usize::from(k)))
        .map(|(data, _)| data)
        .ok_or(Fault::NoCodeword(k))
}

/// The data bits of the four Golay words.
fn golay_data(word: &[u8; WORD_BYTES]) -> Result<[u16; 4], Fault>
    ensures { result ≡ golay_data 0 (numbers_of 24 4 (word_inputs FichBlock word.now)) }
{
    Ok([
        data_of(word, 0)?,
        data_of(word, 1)?,
        data_of(word, 2)?,
        data_of(word, 3)?,
    ])
}

// By hand as far as twelve bits are no whole bytes.
/// The twelve lowest bits of two numbers, as three bytes.
fn three_bytes(a: u16, b: u16) -> [u8; 3]
    ensures { byte_bits result ≡ bits_of 12 a ++ bits_of 12 b }
{
    let [_, high, middle, low] = (u32::from(a % 4096) * 4096 + u32::from(b % 4096)).to_be_bytes();
    [high, middle, low]
}

/// The twelve lowest bits of four numbers, as six bytes.
fn six_bytes(data: [u16; 4]) -> [u8; 6]
    ensures { result ≡ six_bytes «data» }
{
    let [a, b, c, d] = data;
    let [p, q, r] = three_bytes(a, b);
    let [s, t, u] = three_bytes(c, d);
    [p, q, r, s, t, u]
}

/// The FICH of its four bytes and the two of its checksum.
fn checked_fich(six: [u8; 6]) -> Result<Fich, Fault>
    ensures { result ≡ checked_fich six }
{
    let [a, b, c, d, e, f] = six;
    let bytes = [a, b, c, d];
    if crc16(&bytes) != u16::from_be_bytes([e, f]) {
        return Err(Fault::WrongChecksum);
    }
    Fich::from_bytes(&bytes)
}

/// The FICH of the word of a FICH block.
pub(crate) fn fich_of_word(word: &[u8; WORD_BYTES]) -> Result<Fich, Fault>
    ensures { result ≡ fich_of_word (word_inputs FichBlock word.now) }
{
    let data = golay_data(word)?;
    checked_fich(six_bytes(data))
}
