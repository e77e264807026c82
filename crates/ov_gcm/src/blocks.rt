// Blocks of 16 bytes: sums, padding and lengths.

ghost use Rattle.std.specs.Prelude.{◌≡◌, ℕ, ◌+◌, ◌-◌, ◌*◌, ◌<◌, ◌≤◌, ◌++◌, List, [], ◌∷◌, length};
ghost use Rattle.std.specs.Int.{w64, to_be_bytes};
ghost use Rattle.ov_aes.specs.Field.{plus};
ghost use Rattle.ov_ghash.specs.Block.{ghash};
ghost use Rattle.ov_ghash.specs.Ghash.{IsPrepared};
ghost use Rattle.ov_gcm.specs.Gcm.{padded, padded_blocks};

use ov_ghash::HashKey;
use std::simd::prelude::*;

/// The bytes in a block.
pub const BLOCK: usize = 16;

/// The most bytes that associated data or a text may have.
pub const MOST_BYTES: usize = 65536;

/// Adds a block to at most 16 bytes, without carry.
pub fn add_block(text: &mut [u8], block: [u8; BLOCK])
    requires { length text.old ≤ 16 }
    ensures { text.new ≡ plus text.old block }
{
    if text.len() == BLOCK {
        (u8x16::from_slice(text) ^ u8x16::from_array(block)).copy_to_slice(text);
    } else {
        for i in 0..text.len() {
            text[i] ^= block[i];
        }
    }
}

/// At most 16 bytes with zeros behind.
fn padded_with_zeros(bytes: &[u8]) -> [u8; BLOCK]
    requires { length bytes.now ≤ 16 }
    ensures { result ≡ padded bytes.now }
{
    let mut block = [0; BLOCK];
    block[..bytes.len()].copy_from_slice(bytes);
    block
}

/// GHASH of blocks and at most 16 bytes more, padded, where `sum` is GHASH of the blocks. A whole
/// block goes without a copy.
#[inline(always)]
fn folded_part(key: &HashKey, sum: [u8; BLOCK], bytes: &[u8]) -> [u8; BLOCK]
    requires { length bytes.now ≤ 16 }
    ensures { (h : List ℕ) (xs : List (List ℕ)) → IsPrepared key.now h →
        ghash h xs ≡ sum → ghash h (xs ++ padded bytes.now ∷ []) ≡ result }
{
    match bytes.as_array::<BLOCK>() {
        Some(block) => key.folded(sum, *block),
        None => key.folded(sum, padded_with_zeros(bytes)),
    }
}

/// GHASH of blocks and the blocks of `bytes`, the last one padded, where `sum` is GHASH of those before.
pub fn absorbed(key: &HashKey, sum: [u8; BLOCK], bytes: &[u8]) -> [u8; BLOCK]
    requires { length bytes.now ≤ MOST_BYTES }
    ensures { (h : List ℕ) (xs : List (List ℕ)) → IsPrepared key.now h →
        ghash h xs ≡ sum → ghash h (xs ++ padded_blocks bytes.now) ≡ result }
{
    let mut sum = sum;
    for i in 0..bytes.len().div_ceil(BLOCK) {
        let end = bytes.len().min(BLOCK * i + BLOCK);
        let next = folded_part(key, sum, &bytes[BLOCK * i..end]);
        sum = next;
    }
    sum
}

/// The two lengths in bits as a block, that of the associated data first.
pub fn lengths(ad: usize, text: usize) -> [u8; BLOCK]
    requires ad { ad ≤ MOST_BYTES }
    requires text { text ≤ MOST_BYTES }
    ensures { result ≡ to_be_bytes w64 (8 * ad) ++ to_be_bytes w64 (8 * text) }
{
    let mut block = [0; BLOCK];
    block[..8].copy_from_slice(&(8 * ad as u64).to_be_bytes());
    block[8..].copy_from_slice(&(8 * text as u64).to_be_bytes());
    block
}
