mod cases;

ghost use Rattle.std.specs.Prelude.{◌<◌, ◌≤◌, length};

use crate::{BadTag, GcmKey};
use cases::{COUNT, DIGESTS, LENGTHS, TAGS};
use ov_aes::KeyBytes;
use sha2::{Digest, Sha256};
use std::alloc::Global;
use std::process::Abort;
use std::test::Fail;

/// Bytes that are drawn from a seed, as the cases say.
#[derive(Drop)]
struct Draw {
    x: u32,
}

impl Draw {
    fn fill(&mut self, bytes: &mut [u8]) {
        for byte in bytes.iter_mut() {
            self.x = self.x.wrapping_mul(1664525).wrapping_add(1013904223);
            *byte = (self.x >> 24) as u8;
        }
    }
}

/// The first half of the SHA-256 digest of a text, its first byte the highest.
fn digest_half(text: &[u8]) -> u128 {
    let digest = Sha256::digest(text);
    let mut half = [0; 16];
    half.copy_from_slice(&digest[..16]);
    u128::from_be_bytes(half)
}

/// Seals the text of case `n` and unseals it again, and looks at the tag and the ciphertext between.
fn seal_and_unseal(
    rt: &impl Abort,
    n: usize,
    key: &GcmKey,
    nonce: [u8; 12],
    ad: &[u8],
    text: &mut [u8],
)
    requires n { n < COUNT }
    requires ad { length ad.now ≤ 65536 }
    requires text { length text.old ≤ 65536 }
{
    let tag = key.seal(nonce, ad, text);
    assert_eq!(rt; u128::from_be_bytes(tag), TAGS[n], "the tag of case {n}");
    assert_eq!(rt; digest_half(text), DIGESTS[n], "the ciphertext of case {n}");
    assert!(rt; key.unseal(nonce, ad, text, tag).is_ok(), "case {n} opens");
}

#[test]
fn cases_of_another_implementation(rt: HostRuntime) -> Result<(), Fail> {
    for n in 0..COUNT {
        let (key_length, ad_length, text_length) = LENGTHS[n];
        assert!(rt; key_length <= 32 && ad_length <= 20 && text_length <= 65536);
        let mut draw = Draw { x: n as u32 + 1 };
        let mut key = [0; 32];
        draw.fill(&mut key[..key_length]);
        let mut nonce = [0; 12];
        draw.fill(&mut nonce);
        let mut ad = [0; 20];
        draw.fill(&mut ad[..ad_length]);
        let mut text = vec![in rt.alloc(); 0u8; text_length]?;
        draw.fill(&mut text);
        let plain = text.clone()?;
        let key = GcmKey::new(&KeyBytes::of(&key[..key_length])?);
        seal_and_unseal(&rt, n, &key, nonce, &ad[..ad_length], &mut text);
        assert_eq!(rt; text, plain, "the text of case {n}");
    }
    Ok(())
}

/// The bytes of a key, and the first half of the SHA-256 digest of what the same package seals under such keys:
/// of every length from 0 to 520 bytes the ciphertext and its tag, one behind the other. The bytes are drawn
/// as those of the cases, from the length plus one, with as many bytes of associated data as the length
/// leaves modulo 21. `tools/vectors digests` prints the digests.
const SEALED: [(usize, u128); 3] = [
    (16, 0x61641f1c41a63a0b4ce15aa699bfcc05),
    (24, 0x19953f9beaed44d1019827a42805153c),
    (32, 0xd0985059b6eb7df75dce04f2c5e7b172),
];

/// Seals a text of `length` bytes, appends it and its tag to `all`, and unseals it again.
fn seal_behind(
    rt: &impl Abort,
    alloc: Global,
    all: &mut Vec<u8>,
    key_length: usize,
    length: usize,
) -> Result<(), Fail>
    requires { length ≤ 520 }
{
    let mut draw = Draw {
        x: length as u32 + 1,
    };
    let mut key = [0; 32];
    let key_length = key_length.min(32);
    draw.fill(&mut key[..key_length]);
    let mut nonce = [0; 12];
    draw.fill(&mut nonce);
    let mut ad = [0; 20];
    draw.fill(&mut ad[..length % 21]);
    let mut text = vec![in alloc; 0u8; length]?;
    draw.fill(&mut text);
    let plain = text.clone()?;
    let key = GcmKey::new(&KeyBytes::of(&key[..key_length])?);
    let tag = key.seal(nonce, &ad[..length % 21], &mut text);
    all.extend_from_slice(&text)?;
    all.extend_from_slice(&tag)?;
    assert!(rt;
        key.unseal(nonce, &ad[..length % 21], &mut text, tag)
            .is_ok()
    );
    assert_eq!(rt; text, plain, "the text of {length} bytes");
    Ok(())
}

#[test]
fn every_length_up_to_520(rt: HostRuntime) -> Result<(), Fail> {
    for (key_length, expected) in SEALED {
        let mut all = Vec::new(rt.alloc());
        for length in 0..521 {
            seal_behind(&rt, rt.alloc(), &mut all, key_length, length)?;
        }
        assert_eq!(rt; digest_half(&all), expected, "keys of {key_length} bytes");
    }
    Ok(())
}

/// The examples that came with GCM, with a key and a nonce of zeros and no associated data: the bytes of
/// the key, the text of zeros, the ciphertext and the tag.
const EXAMPLES: [(usize, usize, u128, u128); 4] = [
    (16, 0, 0, 0x58e2fccefa7e3061367f1d57a4e7455a),
    (
        16,
        16,
        0x0388dace60b6a392f328c2b971b2fe78,
        0xab6e47d42cec13bdf53a67b21257bddf,
    ),
    (32, 0, 0, 0x530f8afbc74536b9a963b4f1c4cb738b),
    (
        32,
        16,
        0xcea7403d4d606b6e074ec5d3baf39d18,
        0xd0d1c8a799996bf0265b98b5d48ab919,
    ),
];

#[test]
fn the_printed_examples(rt: HostRuntime) -> Result<(), Fail> {
    for (key, length, cipher, tag) in EXAMPLES {
        assert!(rt; length <= 16 && key <= 32);
        let key = GcmKey::new(&KeyBytes::of(&[0; 32][..key])?);
        let mut text = [0; 16];
        let sealed = key.seal([0; 12], &[], &mut text[..length]);
        assert_eq!(rt; sealed, tag.to_be_bytes());
        assert_eq!(rt; text, cipher.to_be_bytes());
    }
    Ok(())
}

#[test]
fn a_tag_that_is_wrong_in_one_byte_is_bad(rt: HostRuntime) {
    let key = GcmKey::new(&KeyBytes::K16([7; 16]));
    let mut text = [9; 40];
    let tag = key.seal([1; 12], &[2; 8], &mut text);
    let sealed = text;
    for i in 0..16 {
        let mut wrong = tag;
        wrong[i] ^= 0x80;
        assert_eq!(rt;
            key.unseal([1; 12], &[2; 8], &mut text, wrong),
            Err(BadTag),
            "byte {i}"
        );
        assert_eq!(rt; text, sealed);
    }
}

#[test]
fn a_key_prints_none_of_its_bytes(rt: HostRuntime) -> Result<(), Fail> {
    let bytes = KeyBytes::K32([0xa5; 32]);
    let key = GcmKey::new(&bytes);
    let printed = format!(in rt.alloc(); "{key:?}")?;
    assert_eq!(rt; printed.as_str(), "GcmKey(AesKey(KeyBytes(256 bits)))");
    Ok(())
}
