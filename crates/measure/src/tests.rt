//! Totals and plain dibits worked out by hand.
use crate::levels::Levels;
use crate::marks::Marks;
use crate::weighing::Measure;
use bits::Dibit;

#[test]
fn counts_readable_bits(rt: HostRuntime) {
    // a reading, the dibit supposed, the total before and after
    let rows = [
        (0b0010, Dibit::D10, 7, 7),
        (0b0010, Dibit::D01, 7, 9),
        (0b0110, Dibit::D01, 7, 8),
        (0b1010, Dibit::D01, 7, 8),
        (0b0110, Dibit::D00, 7, 7),
        (0b1010, Dibit::D00, 7, 8),
        (0b1010, Dibit::D11, 7, 7),
        (0b1110, Dibit::D01, 7, 7),
        (0b10010, Dibit::D01, 7, 9),
        (0b0011, Dibit::D00, 65534, 65535),
        (0b0001, Dibit::D00, 65535, 65535),
    ];
    for row in &rows {
        assert_eq!(rt; Marks.extend(row.2, 0, &row.0, row.1), row.3);
    }
    assert!(rt; Marks.plain(&0b0110) == Dibit::D10);
    assert!(rt; Marks.plain(&0b1101) == Dibit::D01);
    assert!(rt; Marks.proper(&15) & !Marks.proper(&16));
}

#[test]
fn squares_differences(rt: HostRuntime) {
    let rows = [
        (1000, Dibit::D00, 5, 5),
        (1200, Dibit::D00, 5, 40_005),
        (0, Dibit::D10, 5, 1_000_005),
        (i16::MIN, Dibit::D01, 0, 1_279_349_824),
        (i16::MAX, Dibit::D11, 0, 1_279_278_289),
        (1, Dibit::D00, u64::MAX - 998_001, u64::MAX),
        (1, Dibit::D00, u64::MAX - 998_000, u64::MAX),
    ];
    for row in &rows {
        assert_eq!(rt; Levels.extend(row.2, 0, &row.0, row.1), row.3);
    }
    let plain = [
        (i16::MAX, Dibit::D01),
        (2000, Dibit::D01),
        (1999, Dibit::D00),
        (0, Dibit::D00),
        (-1, Dibit::D10),
        (-1999, Dibit::D10),
        (-2000, Dibit::D11),
        (i16::MIN, Dibit::D11),
    ];
    for row in &plain {
        assert!(rt; Levels.plain(&row.0) == row.1);
    }
}
