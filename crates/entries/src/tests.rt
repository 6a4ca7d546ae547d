//! Lines and their text.
use crate::bounded::BoundedList;
use crate::entry::{Entry, FaultEntry, FrameEntry};
use crate::merge;
use fault::Fault;
use fields::fich::{CallMode, DataType, Fich, FrameKind, Routing};
use std::test::Fail;

fn frame_at(place: usize) -> FrameEntry {
    Entry {
        place,
        missed: false,
        outcome: Fich {
            kind: FrameKind::Terminator,
            call_mode: CallMode::Individual,
            block_number: 0,
            block_total: 3,
            frame_number: 6,
            frame_total: 7,
            reserved: true,
            narrow: true,
            routing: Routing::DownlinkBusy,
            voip: true,
            data_type: DataType::VoiceFr,
            squelch_off: true,
            squelch_code: 93,
        },
    }
}

fn fault_at(place: usize) -> FaultEntry {
    Entry {
        place,
        missed: true,
        outcome: Fault::Improper(479),
    }
}

#[test]
fn lines_are_written_in_order(rt: HostRuntime) -> Result<(), Fail> {
    let heap = rt.alloc();
    let frames = [frame_at(480)];
    let faults = [fault_at(0), fault_at(480)];
    let mut lines = merge::lines(&frames, &faults);
    let first = lines.next().ok_or("no line")?;
    assert!(rt; format!(in heap; "{first}")?.as_str() == "0 1 2 479");
    let second = lines.next().ok_or("no line")?;
    assert!(rt; format!(in heap; "{second}")?.as_str() == "480 0 0 ACF7D7DD");
    assert!(rt; lines.next().is_some());
    assert!(rt; lines.next().is_none());
    Ok(())
}

#[test]
fn a_full_list_stays(rt: HostRuntime) {
    let mut slots = [0u8; 2];
    let mut list = BoundedList::new(&mut slots);
    assert!(rt; list.push(7).is_ok() && list.push(8).is_ok());
    assert!(rt; list.push(9).is_err());
    assert!(rt; list.entries() == [7, 8].as_slice());
}
