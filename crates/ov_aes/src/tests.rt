use crate::{AesKey, KeyBytes, KeyLength};
use std::test::Fail;

/// The key of the example vectors of FIPS 197, appendix C, which has as many of these bytes as a key
/// has.
static KEY: [u8; 32] = [
    0x00, 0x01, 0x02, 0x03, 0x04, 0x05, 0x06, 0x07, 0x08, 0x09, 0x0a, 0x0b, 0x0c, 0x0d, 0x0e, 0x0f,
    0x10, 0x11, 0x12, 0x13, 0x14, 0x15, 0x16, 0x17, 0x18, 0x19, 0x1a, 0x1b, 0x1c, 0x1d, 0x1e, 0x1f,
];

/// The block of these vectors.
const BLOCK: [u8; 16] = [
    0x00, 0x11, 0x22, 0x33, 0x44, 0x55, 0x66, 0x77, 0x88, 0x99, 0xaa, 0xbb, 0xcc, 0xdd, 0xee, 0xff,
];

/// The length of the key, and the block that the vector gives.
const VECTORS: [(usize, [u8; 16]); 3] = [
    // C.1
    (
        16,
        [
            0x69, 0xc4, 0xe0, 0xd8, 0x6a, 0x7b, 0x04, 0x30, 0xd8, 0xcd, 0xb7, 0x80, 0x70, 0xb4,
            0xc5, 0x5a,
        ],
    ),
    // C.2
    (
        24,
        [
            0xdd, 0xa9, 0x7c, 0xa4, 0x86, 0x4c, 0xdf, 0xe0, 0x6e, 0xaf, 0x70, 0xa0, 0xec, 0x0d,
            0x71, 0x91,
        ],
    ),
    // C.3
    (
        32,
        [
            0x8e, 0xa2, 0xb7, 0xca, 0x51, 0x67, 0x45, 0xbf, 0xea, 0xfc, 0x49, 0x90, 0x4b, 0x49,
            0x60, 0x89,
        ],
    ),
];

#[test]
fn the_example_vectors_of_the_standard(rt: HostRuntime) -> Result<(), Fail> {
    for (length, expected) in VECTORS {
        let key = AesKey::new(&KEY[..length])?;
        assert_eq!(rt; key.encrypt(BLOCK), expected);
        assert_eq!(rt; key.encrypt_two(BLOCK, BLOCK), (expected, expected));
    }
    Ok(())
}

#[test]
fn a_key_of_seventeen_bytes_is_refused(rt: HostRuntime) {
    assert_eq!(rt; KeyBytes::of(&KEY[..17]), Err(KeyLength(17)));
    assert!(rt; AesKey::new(&KEY[..17]).is_err());
}

#[test]
fn a_key_keeps_its_bytes(rt: HostRuntime) -> Result<(), Fail> {
    for length in [16, 24, 32] {
        let key = KeyBytes::of(&KEY[..length])?;
        assert_eq!(rt; key.bytes(), &KEY[..length]);
    }
    Ok(())
}
