//! Lists every frame of a recording: reads marks from standard input, one a byte, and prints a line for each frame
//! with its place, whether its sync word was missed, and the FICH that was read or why it was refused.
#![tactic(auto)]

use anyhow::anyhow;
use entries::bounded::BoundedList;
use entries::entry::{Entry, FaultEntry, FrameEntry};
use entries::merge;
use fault::Fault;
use fields::fich::{CallMode, DataType, Fich, FrameKind, Routing};
use index::index;
use measure::marks::Marks;
use std::io::Read;
use std::process::ExitCode;
use trellis::work::{NUMBERS, TOTALS, Work};

/// The most readings that a recording has.
const READINGS: usize = 57_600;

/// How many frames each of the two lists takes.
const LISTED: usize = 120;

// One for each list: the values have nothing in common.
/// What a slot holds before its entry is there.
fn no_frame() -> FrameEntry {
    Entry {
        place: 0,
        missed: false,
        outcome: Fich {
            kind: FrameKind::Header,
            call_mode: CallMode::Group,
            block_number: 0,
            block_total: 0,
            frame_number: 0,
            frame_total: 0,
            reserved: false,
            narrow: false,
            routing: Routing::Direct,
            voip: false,
            data_type: DataType::VdType1,
            squelch_off: false,
            squelch_code: 0,
        },
    }
}

fn no_fault() -> FaultEntry {
    Entry {
        place: 0,
        missed: false,
        outcome: Fault::ListFull,
    }
}

/// The bytes of standard input, and one too many where there are more than a recording has.
fn read_input(rt: &HostRuntime) -> anyhow::Result<Vec<u8>> {
    let mut readings = Vec::new(rt.alloc());
    rt.stdin()
        .take(READINGS as u64 + 1)
        .read_to_end(&mut readings)?;
    Ok(readings)
}

/// Prints the entries by place, and how many there are.
fn print_lines(
    rt: &HostRuntime,
    frames: &[FrameEntry],
    faults: &[FaultEntry],
) -> anyhow::Result<()> {
    for line in merge::lines(frames, faults) {
        println!(rt; "{line}")?;
    }
    let refused = faults.len();
    let all = frames.len().saturating_add(refused);
    println!(rt; "frames {all} refused {refused}")?;
    Ok(())
}

/// Prints a line for each frame of the readings, also of those before a list was full.
fn list(rt: &HostRuntime, readings: &[u8]) -> anyhow::Result<()> {
    let mut frame_slots = [no_frame(); LISTED];
    let mut fault_slots = [no_fault(); LISTED];
    let mut frames = BoundedList::new(&mut frame_slots);
    let mut faults = BoundedList::new(&mut fault_slots);
    let mut totals = [0; TOTALS];
    let mut numbers = [0; NUMBERS];
    let mut work = Work::new(&mut totals, &mut numbers);
    let outcome = index(&Marks, readings, &mut work, &mut frames, &mut faults);
    print_lines(rt, frames.entries(), faults.entries())?;
    outcome.map_err(|fault| anyhow!("stopped with {fault}"))
}

fn run(rt: &HostRuntime) -> anyhow::Result<()> {
    let readings = read_input(rt)?;
    if readings.len() > READINGS {
        println!(rt; "input too long")?;
        return Ok(());
    }
    list(rt, &readings)
}

// No returned error: the message begins with the program's name.
fn main(rt: HostRuntime) -> anyhow::Result<ExitCode> {
    if let Err(error) = run(&rt) {
        eprintln!(rt; "listing: {error}")?;
        return Ok(ExitCode::FAILURE);
    }
    Ok(ExitCode::SUCCESS)
}
