//! One step of the search: from the totals of the sixteen states to those one reading further.
ghost use Rattle.std.specs.Prelude.{◌≡◌, ℕ, ◌+◌, ◌*◌, ◌<◌, [], ◌∷◌, length, if◌then◌else◌, nat_le, slice_set};
ghost use Rattle.layout.specs.Places.{length_of, stands};
ghost use Rattle.trellis.specs.Search.{output};
ghost use Rattle.trellis.specs.Steps.{packed, at_bank, one_wins, kept, turned, hears, Stepped};

use bits::Dibit;
use layout::{Block, FRAME_PLACES};
use measure::Measure;

/// How many states the coder has: its last four inputs.
pub(crate) const STATES: usize = 16;

/// The totals of the two states that share their states before, and which way won: 1 for the even, 2 for the odd, as
/// the two bits stand in a decision.
#[derive(Clone, Copy)]
struct Pair<T> {
    even: T,
    odd: T,
    ones: u16,
}

/// The dibits of input 0 in the states 0 to 7. Input 1 turns both bits, and so does the oldest bit of a state.
static OUTPUTS: [Dibit; 8] = [
    Dibit::D00,
    Dibit::D01,
    Dibit::D01,
    Dibit::D00,
    Dibit::D10,
    Dibit::D11,
    Dibit::D11,
    Dibit::D10,
];

fn output_of(state: usize) -> Dibit
    requires { state < 8 }
    ensures { result ≡ output state 0 }
{
    OUTPUTS[state]
}

fn turned_over(dibit: Dibit) -> Dibit
    ensures { result ≡ turned dibit }
{
    match dibit {
        Dibit::D00 => Dibit::D11,
        Dibit::D01 => Dibit::D10,
        Dibit::D10 => Dibit::D01,
        Dibit::D11 => Dibit::D00,
    }
}

// Measure, place and reading are parameters here and below: with a struct of them each clause that says `place` and
// `reading.now` would say `self.now.place` and `self.now.reading.now`.
/// The totals of two states, each by the two dibits that lead on from it. The measure is asked in one place only,
/// so that the compiler takes what it does for the reading out of the loops over the states.
fn four_ways<M: Measure>(
    m: &M,
    place: usize,
    reading: &M::Reading,
    low: M::Total,
    high: M::Total,
    plain: Dibit,
) -> [M::Total; 4]
    ensures { result ≡ M.means.extend m.now low place reading.now plain ∷ M.means.extend m.now high place reading.now (turned plain) ∷ M.means.extend m.now low place reading.now (turned plain) ∷ M.means.extend m.now high place reading.now plain ∷ [] }
{
    let turned = turned_over(plain);
    let dibits = [plain, turned, turned, plain];
    let mut ways = [low, high, low, high];
    // By index: `map`, and the totals as a slice, need a bound on the size of a total, and a measure gives none.
    for w in 0..4usize {
        ways[w] = m.extend(ways[w], place, reading, dibits[w]);
    }
    ways
}

/// The total of the better way into a state, the first at a tie; and whether the second won, which is a bit of the
/// decision and no missing total.
fn pick<M: Measure>(m: &M, zero: M::Total, one: M::Total) -> (M::Total, bool)
    ensures { result ≡ ((if M.means.better m.now one zero then one else zero), M.means.better m.now one zero) }
{
    let wins = m.better(one, zero);
    if wins { (one, wins) } else { (zero, wins) }
}

fn if_both<T: Copy>(both: bool, better: T, only: T) -> T
    ensures { result ≡ (if both then better else only) }
{
    if both { better } else { only }
}

/// The two states that states `j` and `j + 8` lead to; the second offers a way only if both are reached.
fn butterfly<M: Measure>(
    m: &M,
    both: bool,
    place: usize,
    reading: &M::Reading,
    old: &[M::Total; STATES],
    j: usize,
) -> Pair<M::Total>
    requires { j < 8 }
    ensures even { result.even ≡ kept M.means m.now both (hears place reading.now) old.now (2 * j) }
    ensures odd { result.odd ≡ kept M.means m.now both (hears place reading.now) old.now (2 * j + 1) }
    ensures ones { result.ones ≡ (if one_wins M.means m.now (hears place reading.now) old.now (2 * j) then 1 else 0) + (if one_wins M.means m.now (hears place reading.now) old.now (2 * j + 1) then 2 else 0) }
{
    let ways = four_ways(m, place, reading, old[j], old[j + 8], output_of(j));
    let (even, a) = pick(m, ways[0], ways[1]);
    let (odd, b) = pick(m, ways[2], ways[3]);
    Pair {
        even: if_both(both, even, ways[0]),
        odd: if_both(both, odd, ways[2]),
        ones: u16::from(a) + 2 * u16::from(b),
    }
}

fn store<T: Copy>(bank: &mut [T; STATES], state: usize, total: T)
    requires { state < 16 }
    ensures { bank.new ≡ slice_set bank.old state total }
{
    bank[state] = total;
}

/// The totals of all sixteen states one reading further, and which ways won.
fn advance<M: Measure>(
    m: &M,
    both: bool,
    place: usize,
    reading: &M::Reading,
    old: &[M::Total; STATES],
    new: &mut [M::Total; STATES],
) -> u16
    ensures totals { (s : ℕ) → s < 16 → at_bank M.means m.now new.new s ≡ kept M.means m.now both (hears place reading.now) old.now s }
    ensures decisions { result ≡ packed (one_wins M.means m.now (hears place reading.now) old.now) 16 }
{
    let mut decisions = 0;
    // By index: a butterfly reads totals j and j + 8, and writes 2j and 2j + 1.
    for j in 0..8usize {
        let pair = butterfly(m, both, place, reading, old, j);
        store(new, 2 * j, pair.even);
        store(new, 2 * j + 1, pair.odd);
        decisions += pair.ones << (2 * j);
    }
    decisions
}

/// Whether all states are reached after `t` readings.
fn all_reached(t: usize) -> bool
    ensures { result ≡ nat_le 4 t }
{
    t >= 4
}

/// One reading further: the totals of the bank become those after `t + 1` readings of the block. The new totals are
/// made in memory that nothing else reaches.
pub(crate) fn step<M: Measure>(
    m: &M,
    block: Block,
    t: usize,
    readings: &[M::Reading; FRAME_PLACES],
    bank: &mut [M::Total; STATES],
) -> u16
    requires { t < length_of block }
    ensures { Stepped M.means m.now t (stands block t) readings.now bank.old bank.new result }
{
    let both = all_reached(t);
    let place = block.place(t);
    let mut next = [m.start(); STATES];
    let decisions = advance(m, both, place, &readings[place], bank, &mut next);
    *bank = next;
    if_both(both, decisions, 0)
}
