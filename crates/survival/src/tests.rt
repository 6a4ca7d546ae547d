//! Words of damaged blocks, as an independent implementation finds them.
ghost use Rattle.std.specs.Prelude.{◌<◌};

use crate::{read_levels, read_marks};
use fault::{Fault, Memory};
use layout::Block;
use measure::marks::Marks;
use measure::{Measure, MutedMarks};
use mute::Mute;
use std::process::Abort;
use std::test::Fail;
use trellis::work::Work;

// Computed by an independent implementation, as all readings and words below.
const FICH_MARKS: [[u8; 20]; 5] = [
    [3, 0, 2, 0, 3, 0, 1, 3, 3, 0, 0, 1, 0, 3, 0, 3, 1, 3, 0, 1],
    [2, 1, 2, 2, 3, 0, 1, 3, 2, 0, 1, 2, 3, 1, 3, 2, 1, 0, 1, 1],
    [0, 1, 0, 1, 0, 1, 3, 0, 2, 0, 3, 2, 2, 2, 3, 0, 1, 1, 0, 0],
    [0, 0, 0, 0, 5, 3, 2, 0, 0, 2, 3, 3, 1, 3, 2, 2, 0, 2, 2, 1],
    [3, 2, 2, 0, 3, 2, 5, 1, 2, 2, 2, 1, 3, 1, 1, 2, 0, 1, 3, 3],
];

const FICH_WORD: &[u8; 22] =
    b"\xDE\x5C\xDB\x53\xB5\x1A\x29\x58\x56\x72\x6F\x8F\0\0\0\0\0\0\0\0\0\0";

const SHORT_MARKS: [[u8; 20]; 5] = [
    [3, 9, 1, 1, 2, 8, 0, 3, 11, 3, 0, 2, 3, 0, 0, 4, 1, 1, 3, 0],
    [1, 3, 3, 3, 8, 8, 3, 4, 2, 2, 2, 0, 1, 4, 0, 3, 2, 9, 7, 1],
    [2, 5, 0, 2, 5, 2, 10, 2, 0, 11, 1, 1, 6, 9, 1, 0, 5, 2, 5, 2],
    [0, 8, 1, 1, 2, 1, 2, 0, 2, 7, 2, 3, 0, 0, 6, 9, 3, 0, 13, 0],
    [0, 1, 3, 11, 1, 7, 2, 2, 1, 11, 7, 7, 3, 0, 2, 1, 1, 5, 6, 0],
];

const SHORT_WORD: &[u8; 22] =
    b"\xBB\xD5\x2C\x4C\xA3\x9C\x0E\x0B\x5C\x62\x12\x9C\0\0\0\0\0\0\0\0\0\0";

const SHORT_WORD_MUTED: &[u8; 22] =
    b"\xBB\xD5\x2C\x4C\xA3\x87\x4E\x3E\x9A\x82\x08\x9C\0\0\0\0\0\0\0\0\0\0";

const FICH_LEVELS: [[i16; 5]; 20] = [
    [2105, -2893, 2244, 3222, 905],
    [3476, -68, -200, -991, -5],
    [3348, 685, 2795, 2637, -3870],
    [1122, -2280, -3074, -3911, -1718],
    [-2336, -105, -3165, 3279, -3245],
    [-975, 1001, 2004, -2316, 1326],
    [-163, -349, 815, 355, 1571],
    [2140, -903, 3232, 753, 2749],
    [-1319, -1531, -3180, -2420, -2704],
    [2355, 1344, -2844, 1455, -583],
    [-1231, 1866, -2186, -1421, -873],
    [-2129, 3552, 1925, 608, -389],
    [1265, 2015, 434, -2953, -2413],
    [-2710, -3681, 1338, -264, -3212],
    [-1832, -3808, -3812, 3123, 1723],
    [-951, 473, -2607, -2557, -2027],
    [-353, -1101, -1708, -3479, -974],
    [3293, 1369, 1148, -1085, -2356],
    [3008, -831, 2333, 1889, 3860],
    [1237, -1127, -1288, 2328, 2271],
];

const LEVELS_WORD: &[u8; 22] =
    b"\x6E\x73\x6C\xDC\x04\x01\xFC\xE1\x24\x4B\x1E\xD2\0\0\0\0\0\0\0\0\0\0";

/// Lays rows into a frame, each at the front of a stretch of its own.
fn lay<T: Copy, const N: usize>(frame: &mut [T], apart: usize, rows: &[[T; N]])
    requires { 0 < apart }
{
    for (stretch, row) in frame.chunks_exact_mut(apart).zip(rows) {
        for (reading, given) in stretch.iter_mut().zip(row) {
            *reading = *given;
        }
    }
}

fn check_marks<M: MutedMarks>(
    rt: &impl Abort,
    m: &M,
    block: Block,
    frame: &[u8; 480],
    word: &[u8; 22],
    total: u16,
) -> Result<(), Fail> {
    let mut totals = [0; 32];
    let mut numbers = [0; 180];
    let found = read_marks(m, block, frame, &mut Work::new(&mut totals, &mut numbers))?;
    assert!(rt; found.word == *word);
    assert_eq!(rt; found.total, total);
    Ok(())
}

// Two flips, at places 70 and 72, and two unreadable bits.
#[test]
fn at_the_bound(rt: HostRuntime) -> Result<(), Fail> {
    let mut frame = [0; 480];
    lay(&mut frame[20..120], 20, &FICH_MARKS);
    check_marks(&rt, &Marks, Block::Fich, &frame, FICH_WORD, 2)?;
    let mut mute = Mute::new(Marks);
    mute.add(70, 1)?;
    mute.add(72, 1)?;
    check_marks(&rt, &mute, Block::Fich, &frame, FICH_WORD, 0)
}

#[test]
fn past_the_bound(rt: HostRuntime) -> Result<(), Fail> {
    let mut frame = [0; 480];
    lay(&mut frame[120..480], 72, &SHORT_MARKS);
    check_marks(&rt, &Marks, Block::Short, &frame, SHORT_WORD, 13)?;
    let mut mute = Mute::new(Marks);
    mute.add(343, 10)?;
    check_marks(&rt, &mute, Block::Short, &frame, SHORT_WORD_MUTED, 9)
}

#[test]
fn levels(rt: HostRuntime) -> Result<(), Fail> {
    let mut frame = [0; 480];
    lay(&mut frame[20..120], 5, &FICH_LEVELS);
    let mut totals = [0; 32];
    let mut numbers = [0; 180];
    let mut work = Work::new(&mut totals, &mut numbers);
    let found = read_levels(Block::Fich, &frame, &mut work)?;
    assert!(rt; found.word == *LEVELS_WORD);
    assert_eq!(rt; found.total, 129_913_074);
    Ok(())
}

#[test]
fn sizes_are_refused(rt: HostRuntime) {
    let mut frame = [0; 480];
    lay(&mut frame[20..120], 20, &FICH_MARKS);
    let mut totals = [0; 31];
    let mut numbers = [0; 180];
    let mut work = Work::new(&mut totals, &mut numbers);
    let found = read_marks(&Marks, Block::Fich, &frame, &mut work);
    assert_eq!(rt; found.err(), Some(Fault::WrongSize(Memory::Totals)));
}
