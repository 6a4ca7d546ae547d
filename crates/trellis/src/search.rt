//! From the readings of a block to its word.
ghost use Rattle.std.specs.Prelude.{◌≡◌, ℕ, ◌+◌, ◌-◌, ◌*◌, ◌/◌, ◌<◌, ◌≤◌, ◌++◌, reverse, length, take, drop, replicate, slice_index, slice_set};
ghost use Rattle.bits.specs.Bits.{Bits, number_of, numbers_of};
ghost use Rattle.layout.specs.Places.{length_of};
ghost use Rattle.fault.specs.Faults.{refused_or};
ghost use Rattle.trellis.specs.Answers.{size_fault, work_fault, Answers, Searched};
ghost use Rattle.trellis.specs.Words.{heard};
ghost use Rattle.trellis.specs.Steps.{traced, Holds};

use crate::steps::{STATES, step};
use crate::work::{NUMBERS, TOTALS, Work};
use fault::{Fault, Memory};
use layout::{Block, FRAME_PLACES};
use measure::Measure;

/// How many bytes the free inputs of the longest word fill.
pub const WORD_BYTES: usize = 22;

/// What a search found: the free inputs of a word, the first the highest bit of the first byte, and its total.
#[derive(Clone, Copy)]
pub struct Found<T> {
    pub word: [u8; WORD_BYTES],
    pub total: T,
}

/// Weighs all readings of a block. A step is asked for in one place only, so that the compiler takes it into the loop
/// and keeps the bank in registers.
fn weigh<M: Measure>(
    m: &M,
    block: Block,
    readings: &[M::Reading; FRAME_PLACES],
    bank: &mut [M::Total; STATES],
    decisions: &mut [u16],
)
    requires { length decisions.old ≡ length_of block }
    ensures { Holds M.means m.now (reverse (heard block readings.now)) bank.new (reverse decisions.new) }
{
    bank[0] = m.start();
    for (t, decision) in decisions.iter_mut().enumerate() {
        *decision = step(m, block, t, readings, bank);
    }
}

/// Follows the decisions back from the all-0 state, and puts the inputs in their place.
fn trace(decisions: &mut [u16])
    ensures { decisions.new ≡ reverse (traced (reverse decisions.old) 0) }
{
    let mut state = 0;
    // By index: nothing is known of what a loop over `iter_mut().rev()` leaves.
    for t in (0..decisions.len()).rev() {
        let ways = decisions[t];
        decisions[t] = state % 2;
        state = state / 2 + 8 * ((ways >> state) % 2);
    }
}

/// The byte of eight bits, the highest first.
fn gathered(eight: &[u16]) -> u8
    requires { (length eight.now ≤ 8) × ((i : ℕ) → slice_index eight.now i < 2) }
    ensures { result ≡ number_of eight.now }
{
    let mut byte = 0u8;
    for bit in eight {
        byte = byte * 2 + *bit as u8;
    }
    byte
}

/// The bits in bytes, as many as fill one.
fn word_of(bits: &[u16]) -> [u8; WORD_BYTES]
    requires { (length bits.now ≤ 180) × Bits bits.now }
    ensures { result ≡ numbers_of 8 (length bits.now / 8) bits.now ++ replicate (22 - length bits.now / 8) 0 }
{
    let mut word = [0; WORD_BYTES];
    // By index: nothing is known of what `zip` with `iter_mut` leaves.
    for (k, eight) in bits.chunks_exact(8).enumerate() {
        word[k] = gathered(eight);
    }
    word
}

// Totals as a slice: nothing is known of the lent ones after `first_chunk_mut`.
/// The best word and its total, worked out in sixteen totals and a number for each reading.
fn find<M: Measure>(
    m: &M,
    block: Block,
    readings: &[M::Reading; FRAME_PLACES],
    totals: &mut [M::Total],
    decisions: &mut [u16],
) -> Found<M::Total>
    requires { (length totals.old ≡ 16) × (length decisions.old ≡ length_of block) }
    ensures { Answers M.means m.now block readings.now result }
{
    let bank = totals.as_mut_array().unwrap();
    weigh(m, block, readings, bank, decisions);
    trace(decisions);
    Found {
        word: word_of(decisions),
        total: bank[0],
    }
}

/// Refuses the first memory of the wrong size.
pub fn check_sizes(readings: usize, totals: usize, numbers: usize) -> Result<(), Fault>
    ensures { result ≡ refused_or (size_fault readings totals numbers) tt }
{
    if readings != FRAME_PLACES {
        return Err(Fault::WrongSize(Memory::Readings));
    }
    if totals != TOTALS {
        return Err(Fault::WrongSize(Memory::Totals));
    }
    if numbers != NUMBERS {
        return Err(Fault::WrongSize(Memory::Numbers));
    }
    Ok(())
}

/// The word that fits the readings of a block best.
pub fn search<M: Measure>(
    m: &M,
    block: Block,
    readings: &[M::Reading],
    work: &mut Work<M::Total>,
) -> Result<Found<M::Total>, Fault>
    ensures answer { Searched M.means m.now block readings.now (work_fault readings.now work.old) result }
    ensures kept { work.new ≡ work.old }
{
    work.check_sizes(readings.len())?;
    // A step makes its totals in memory of its own, so that one bank is enough.
    let totals = &mut work.totals[0..STATES];
    let numbers = &mut work.numbers[0..block.dibits()];
    let readings = readings.as_array().unwrap();
    Ok(find(m, block, readings, totals, numbers))
}
