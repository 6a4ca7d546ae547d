//! Published values of the codes.
use crate::crc::crc16;
use crate::whitening::whiten;

// CRC-16/GSM of the nine digits is its published check value. The other two are the published values of
// CRC-16/XMODEM, which does not invert, with all bits inverted.
#[test]
fn checksums(rt: HostRuntime) {
    assert_eq!(rt; crc16(b"123456789"), 0xCE3C);
    assert_eq!(rt; crc16(b"A"), 0x58E5 ^ 0xFFFF);
    assert_eq!(rt;
        crc16(b"The quick brown fox jumps over the lazy dog"),
        0xF0C8 ^ 0xFFFF
    );
}

// The first four bytes by hand from the recurrence, the others computed by an independent implementation.
#[test]
fn whitening_of_zeros(rt: HostRuntime) {
    let mut bytes = [0; 20];
    whiten(&mut bytes);
    assert!(rt;
        bytes
            == [
                0x93, 0xD7, 0x51, 0x21, 0x9C, 0x2F, 0x6C, 0xD0, 0xEF, 0x0F, 0xF8, 0x3D, 0xF1, 0x73,
                0x20, 0x94, 0xED, 0x1E, 0x7C, 0xD8,
            ]
    );
    whiten(&mut bytes);
    assert!(rt; bytes == [0; 20]);
}
