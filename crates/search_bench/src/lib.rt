//! The search with work memory of its own, for C to call.
#![tactic(auto)]

ghost use Rattle.std.specs.Prelude.{◌≡◌, ℕ, ◌/◌, length};
ghost use Rattle.measure.specs.Marks.{marks_means};
ghost use Rattle.measure.specs.Levels.{levels_means};
ghost use Rattle.search_bench.specs.Calls.{searched_block, laid, Searches, Called, mute_of, MutedCall};

use fault::Fault;
use layout::Block;
use measure::Measure;
use measure::levels::Levels;
use measure::marks::Marks;
use mute::Mute;
use trellis::search::{WORD_BYTES, search};
use trellis::work::{NUMBERS, TOTALS, Work};

/// What a search that refused answers for a total: C has no `Option` for it.
const REFUSED: u64 = u64::MAX;

// A flag, as C hands it over.
fn block_of(long: bool) -> Block
    ensures { result ≡ searched_block long }
{
    if long { Block::First } else { Block::Fich }
}

fn put(found: &[u8; WORD_BYTES], word: &mut [u8])
    ensures { word.new ≡ laid found.now word.old }
{
    if word.len() == WORD_BYTES {
        word.copy_from_slice(found);
    }
}

// Lent totals: an array of a type parameter is no slice without a bound on its size.
/// Lays the word that a search finds into `word`; the answer is its total, unless the search refused.
fn searched<M: Measure>(
    m: &M,
    long: bool,
    readings: &[M::Reading],
    totals: &mut [M::Total],
    word: &mut [u8],
) -> Option<M::Total>
    requires { length totals.old ≡ 32 }
    ensures { Searches M.means m.now long readings.now word.old word.new result }
{
    let mut numbers = [0; NUMBERS];
    let mut work = Work::new(totals, &mut numbers);
    let found = search(m, block_of(long), readings, &mut work).ok()?;
    put(&found.word, word);
    Some(found.total)
}

/// Searches a frame of 480 marks for the FICH, or for the first of two units if `long`. The word has 22 bytes.
#[unsafe(no_mangle)]
pub extern "C" fn bench_marks(long: bool, readings: &[u8], word: &mut [u8]) -> u64
    ensures { Called marks_means (record {}) long readings.now word.old word.new result }
{
    searched(&Marks, long, readings, &mut [0; TOTALS], word).map_or(REFUSED, u64::from)
}

fn muted(stretches: &[u16]) -> Result<Mute<Marks>, Fault>
    ensures { result ≡ mute_of (length stretches.now / 2) stretches.now }
{
    let mut mute = Mute::new(Marks);
    for pair in stretches.chunks_exact(2) {
        mute.add(usize::from(pair[0]), usize::from(pair[1]))?;
    }
    Ok(mute)
}

/// The same under a mute. Each stretch is its first place and its length.
#[unsafe(no_mangle)]
pub extern "C" fn bench_muted(
    long: bool,
    stretches: &[u16],
    readings: &[u8],
    word: &mut [u8],
) -> u64
    ensures { MutedCall (mute_of (length stretches.now / 2) stretches.now) long readings.now word.old word.new result }
{
    let Ok(mute) = muted(stretches) else {
        return REFUSED;
    };
    searched(&mute, long, readings, &mut [0; TOTALS], word).map_or(REFUSED, u64::from)
}

/// The same for a frame of 480 levels, with no mute.
#[unsafe(no_mangle)]
pub extern "C" fn bench_levels(long: bool, readings: &[i16], word: &mut [u8]) -> u64
    ensures { Called levels_means (record {}) long readings.now word.old word.new result }
{
    searched(&Levels, long, readings, &mut [0; TOTALS], word).unwrap_or(REFUSED)
}
