use super::*;

/// Received words with their data and how many bits are turned; computed by an independent implementation.
const READ: [(u32, u16, u8); 32] = [
    (0xF9022F, 0xF90, 0),
    (0x5B2EC1, 0x5B2, 0),
    (0x22FF21, 0x22F, 0),
    (0xBE14CC, 0xBE1, 0),
    (0xAE8655, 0xAE8, 0),
    (0x882691, 0x882, 0),
    (0xF546FB, 0xF54, 0),
    (0x09A445, 0x09A, 0),
    (0xDD9835, 0xDD1, 1),
    (0xC8202A, 0xC82, 1),
    (0xCC6D33, 0xCC2, 1),
    (0x209A44, 0x209, 1),
    (0x75E4E1, 0x75A, 1),
    (0x213DDE, 0x213, 1),
    (0xA7E545, 0xA7E, 1),
    (0x9D71D2, 0x1D7, 1),
    (0xD9B8CD, 0xDDB, 2),
    (0x29E886, 0x29C, 2),
    (0x47C3BD, 0x4FE, 2),
    (0xB88EB1, 0xB88, 2),
    (0x2B3C4D, 0x2B3, 2),
    (0x43449D, 0x474, 2),
    (0x8D618F, 0x8C6, 2),
    (0x6F1255, 0x6F1, 2),
    (0x41237E, 0x49A, 3),
    (0x0D8A1A, 0x8F8, 3),
    (0xCF1542, 0xEE1, 3),
    (0xF14EFF, 0xF54, 3),
    (0xD50F2D, 0xDF2, 3),
    (0x59D3E1, 0x79D, 3),
    (0xC0EB61, 0xE0E, 3),
    (0x9F7C42, 0xBF7, 3),
];

/// Received words with no codeword within three bits; computed by an independent implementation.
const LOST: [u32; 8] = [
    0x60FD6D, 0x290376, 0x71B9DC, 0x64B97E, 0xD0E678, 0xB29671, 0x77679B, 0xE3D6A9,
];

#[test]
fn reads(rt: HostRuntime) {
    for (word, data, turned) in &READ {
        assert_eq!(rt; decode(*word), Ok((*data, *turned)));
    }
    for word in &LOST {
        assert_eq!(rt; decode(*word), Err(Fault::NoCodeword(0)));
    }
}

#[test]
fn writes(rt: HostRuntime) {
    assert_eq!(rt; encode(0x001), Ok(0x0018EB));
    assert_eq!(rt; encode(0x800), Ok(0x800C75));
    assert_eq!(rt; encode(0xFFF), Ok(0xFFFFFF));
}

#[test]
fn refuses_wide(rt: HostRuntime) {
    assert_eq!(rt; encode(0x1000), Err(Fault::TooWide));
    assert_eq!(rt; decode(0x0100_0000), Err(Fault::TooWide));
}
