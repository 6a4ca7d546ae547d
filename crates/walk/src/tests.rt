//! Walks over small recordings, with the frames that they hand out worked out by hand.
use crate::{Frames, Walk};
use measure::marks::Marks;
use std::alloc::Global;
use std::process::Abort;
use std::test::Fail;

const SYNC: [u8; 20] = [3, 1, 1, 0, 1, 3, 0, 1, 3, 0, 2, 1, 1, 2, 0, 3, 1, 0, 3, 1];

/// The readings of a frame: one marked S begins with the sync word, and all else is zeros.
fn frame(mark: u8) -> [u8; 480] {
    let mut readings = [0; 480];
    if mark == b'S' {
        readings[..20].copy_from_slice(&SYNC);
    }
    readings
}

/// A lead-in, and a frame for each mark.
fn recording(heap: Global, lead: usize, marks: &[u8]) -> Result<Vec<u8>, Fail> {
    let mut readings = vec![in heap; 0; lead]?;
    for mark in marks {
        readings.extend_from_slice(&frame(*mark))?;
    }
    Ok(readings)
}

/// Walks over a recording whose last readings are cut off. A frame is its place, and whether its sync word is missed.
fn walk(
    rt: &impl Abort,
    heap: Global,
    lead: usize,
    marks: &[u8],
    cut: usize,
    frames: &[(usize, bool)],
) -> Result<(), Fail> {
    let readings = recording(heap, lead, marks)?;
    assert!(rt; cut <= readings.len());
    let readings = &readings[0..readings.len() - cut];
    let mut walk = Walk::new(readings);
    let mut all = Frames::new(&Marks, readings);
    for row in frames {
        for next in [walk.next(&Marks), all.next()] {
            let frame = next.ok_or("no more frames")?;
            assert!(rt; frame.place == row.0 && frame.missed == row.1);
            assert!(rt; frame.readings.len() == 480);
        }
    }
    for end in [walk.next(&Marks), all.next(), walk.next(&Marks), all.next()] {
        assert!(rt; end.is_none());
    }
    Ok(())
}

#[test]
fn walks(rt: HostRuntime) -> Result<(), Fail> {
    let heap = rt.alloc();
    // the lead-in, the frames, the readings cut off, and what is handed out
    let rows: [(usize, &[u8], usize, &[(usize, bool)]); 8] = [
        (0, b"", 0, &[]),
        (7, b"S", 0, &[(7, false)]),
        (7, b"S", 1, &[]),
        (7, b".SS", 1, &[(487, false)]),
        (7, b"SS", 461, &[(7, false)]),
        (7, b"S", 461, &[]),
        (
            5,
            b"S...S.",
            0,
            &[
                (5, false),
                (485, true),
                (965, true),
                (1445, true),
                (1925, false),
                (2405, true),
            ],
        ),
        (
            5,
            b"S....S.",
            0,
            &[
                (5, false),
                (485, true),
                (965, true),
                (1445, true),
                (2405, false),
                (2885, true),
            ],
        ),
    ];
    for row in &rows {
        walk(&rt, heap, row.0, row.1, row.2, row.3)?;
    }
    Ok(())
}
