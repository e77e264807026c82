// The round keys as the rounds want them.
//
// Round key 0 is kept as it is, and 0x63 is added to each byte of the others, since the look-ups of the
// rounds leave the 0x63 of S out. Those of the rounds with MixColumns have the inner form.

ghost use Rattle.std.specs.Prelude.{◌≡◌, ℕ, ◌+◌, ◌*◌, ◌/◌, ◌<◌, ◌≤◌, ◌≢◌, length, map, slice_index};
ghost use Rattle.std.specs.Simd.Lanes.{chunk};
ghost use Rattle.ov_aes.specs.RoundKeys.{kept_byte, kept_keys, word_byte};
ghost use Rattle.ov_aes.specs.Words.{bytes_of};

use crate::key_schedule::WORDS;
use crate::nibbles::inner_form;
use crate::words::{byte0, byte1, byte2, byte3};
use std::simd::prelude::*;

/// The most bytes that round keys have: those of 14 rounds and the first round key.
pub const KEYS: usize = 240;

/// The four words of round key `r`.
fn key_at(words: &[u32; WORDS], r: usize) -> [u32; 4]
    requires { r < 15 }
    ensures { (k : ℕ) → k < 4 → slice_index result k ≡ slice_index words.now (4 * r + k) }
{
    [
        words[4 * r],
        words[4 * r + 1],
        words[4 * r + 2],
        words[4 * r + 3],
    ]
}

/// The bytes of a state.
fn block_of(s: [u32; 4]) -> [u8; 16]
    ensures { result ≡ bytes_of s }
{
    let [a, b, c, d] = s;
    [
        byte0(a),
        byte1(a),
        byte2(a),
        byte3(a),
        byte0(b),
        byte1(b),
        byte2(b),
        byte3(b),
        byte0(c),
        byte1(c),
        byte2(c),
        byte3(c),
        byte0(d),
        byte1(d),
        byte2(d),
        byte3(d),
    ]
}

/// Round key `r`, not 15 or more, as it is kept for `rounds` rounds.
fn kept(key: u8x16, r: usize, rounds: usize) -> u8x16
    ensures { result ≡ map (kept_byte rounds r) key }
{
    if r == 0 {
        key
    } else if r < rounds {
        inner_form(key ^ u8x16::splat(0x63))
    } else {
        key ^ u8x16::splat(0x63)
    }
}

/// Writes round key `r`.
fn put_key(keys: &mut [u8; KEYS], r: usize, key: [u8; 16])
    requires { r < 15 }
    ensures put { (m : ℕ) → m < 16 → slice_index keys.new (16 * r + m) ≡ slice_index key m }
    ensures same { (k : ℕ) → k < 16 * r → slice_index keys.new k ≡ slice_index keys.old k }
{
    for m in 0..16 {
        keys[16 * r + m] = key[m];
    }
}

/// The round keys of the words of a key schedule, as they are kept.
pub fn kept_of(words: &[u32; WORDS], rounds: usize) -> [u8; KEYS]
    ensures { kept_keys words.now rounds ≡ result }
{
    let mut keys = [0; KEYS];
    for r in 0..15 {
        let key = u8x16::from_array(block_of(key_at(words, r)));
        put_key(&mut keys, r, kept(key, r, rounds).to_array());
    }
    keys
}

/// Round key `r` as it is kept.
#[inline(always)]
pub fn kept_at(keys: &[u8; KEYS], r: usize) -> u8x16
    requires { r < 15 }
    ensures { (m : ℕ) → m < 16 → slice_index result m ≡ slice_index keys.now (16 * r + m) }
{
    u8x16::from_slice(&keys[16 * r..])
}
