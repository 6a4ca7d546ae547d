//! Searches each frame of readings on standard input, and prints the bytes of the word found and its total.
//!
//! A line is a case: `marks` or `levels`, the block, the first place and the length of the stretch that is muted
//! (length 0: none is), and the 480 readings. Marks are hexadecimal digits, levels decimal numbers between commas.
//! The expected values were computed by an independent implementation.
#![tactic(auto)]

use anyhow::anyhow;
use layout::Block;
use measure::Measure;
use measure::levels::Levels;
use measure::marks::Marks;
use mute::Mute;
use std::alloc::Global;
use std::fmt::Display;
use std::io::{BufRead, BufReader};
use trellis::search::search;
use trellis::work::{NUMBERS, TOTALS, Work};

fn block_of(name: &str) -> anyhow::Result<Block> {
    match name {
        "fich" => Ok(Block::Fich),
        "first" => Ok(Block::First),
        "second" => Ok(Block::Second),
        "short" => Ok(Block::Short),
        "solid" => Ok(Block::Solid),
        _ => Err(anyhow!("no such block")),
    }
}

// By hand: `to_digit` takes lower case too.
fn mark_of(digit: u8) -> anyhow::Result<u8> {
    match digit {
        b'0'..=b'9' => Ok(digit - b'0'),
        b'A'..=b'F' => Ok(digit - b'A' + 10),
        _ => Err(anyhow!("no hexadecimal digit")),
    }
}

fn marks_of(heap: Global, text: &str) -> anyhow::Result<Vec<u8>> {
    text.bytes().map(mark_of).try_collect(heap)
}

fn levels_of(heap: Global, text: &str) -> anyhow::Result<Vec<i16>> {
    text.split(',')
        .map(|level| level.parse::<i16>().map_err(anyhow::Error::from))
        .try_collect(heap)
}

/// The word that a search finds, and its total, in text.
fn found<M: Measure<Total = T>, T: Copy + Display>(
    heap: Global,
    m: &M,
    block: Block,
    readings: &[M::Reading],
    totals: &mut [T],
) -> anyhow::Result<String> {
    let mut numbers = [0; NUMBERS];
    let mut work = Work::new(totals, &mut numbers);
    // The cause is left out of the message: a case is at fault here, and its line shows it.
    let found = search(m, block, readings, &mut work).map_err(|_| anyhow!("the search refused"))?;
    let mut text = hex::encode(heap, found.word)?;
    let total = found.total;
    write!(text, " {total}")?;
    Ok(text)
}

fn by_marks(
    heap: Global,
    block: Block,
    first: usize,
    length: usize,
    text: &str,
) -> anyhow::Result<String> {
    let marks = marks_of(heap, text)?;
    if length == 0 {
        return found(heap, &Marks, block, &marks, &mut [0; TOTALS]);
    }
    let mut mute = Mute::new(Marks);
    // As above: the message says what is wrong with the line.
    mute.add(first, length)
        .map_err(|_| anyhow!("no such stretch"))?;
    found(heap, &mute, block, &marks, &mut [0; TOTALS])
}

fn answer(heap: Global, line: &str) -> anyhow::Result<String> {
    let mut words = line.split_whitespace();
    let kind = words.next().unwrap_or("");
    let block = block_of(words.next().unwrap_or(""))?;
    let first = words.next().unwrap_or("").parse::<usize>()?;
    let length = words.next().unwrap_or("").parse::<usize>()?;
    let readings = words.next().unwrap_or("");
    match kind {
        "levels" => found(
            heap,
            &Levels,
            block,
            &levels_of(heap, readings)?,
            &mut [0; TOTALS],
        ),
        _ => by_marks(heap, block, first, length, readings),
    }
}

fn main(rt: HostRuntime) -> anyhow::Result<()> {
    let heap = rt.alloc();
    for line in BufReader::new(heap, rt.stdin())?.lines(heap) {
        let line = line?;
        rt.println(answer(heap, line.as_str())?)?;
    }
    Ok(())
}
