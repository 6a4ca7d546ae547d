//! Mutes worked out by hand.
use crate::Mute;
use bits::Dibit;
use fault::Fault;
use measure::marks::Marks;
use measure::{Measure, MutedMarks};
use std::process::Abort;
use std::test::Fail;

// Muted below are place 10, and above 0 to 1 and 478 to 479.
fn check_muted(rt: &impl Abort, mute: &Mute<Mute<Marks>>) {
    for place in [0, 1, 10, 478, 479] {
        assert!(rt; mute.muted(place));
        assert_eq!(rt; mute.extend(5, place, &3, Dibit::D00), 5);
    }
    for place in [2, 9, 11, 477, 480, 65535, 65536, usize::MAX] {
        assert!(rt; !mute.muted(place));
        assert_eq!(rt; mute.extend(5, place, &3, Dibit::D00), 7);
    }
}

#[test]
fn mutes_stretches(rt: HostRuntime) -> Result<(), Fail> {
    let mut below = Mute::new(Marks);
    below.add(10, 1)?;
    let mut mute = Mute::new(below);
    mute.add(0, 2)?;
    mute.add(478, 2)?;
    check_muted(&rt, &mute);
    let refused = Err(Fault::StretchNotAllowed);
    for stretch in [
        (5, 0),
        (480, 0),
        (480, 1),
        (479, 2),
        (0, 481),
        (usize::MAX, 1),
        (1, usize::MAX),
        (usize::MAX, usize::MAX),
    ] {
        assert_eq!(rt; mute.add(stretch.0, stretch.1), refused);
    }
    check_muted(&rt, &mute);
    for _ in 0..6u8 {
        mute.add(1, 1)?;
    }
    assert_eq!(rt; mute.add(20, 1), refused);
    check_muted(&rt, &mute);
    below.add(0, 480)?;
    assert!(rt; below.muted(479) & !below.muted(480));
    Ok(())
}
