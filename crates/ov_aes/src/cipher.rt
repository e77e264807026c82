// The rounds of the cipher (FIPS 197, 5.1) on a vector of the state's 16 bytes.

ghost use Rattle.std.specs.Prelude.{◌≡◌, ℕ, ◌+◌, ◌-◌, ◌*◌, ◌<◌, ◌≤◌, List, [], ◌∷◌, map, replicate};
ghost use Rattle.ov_aes.specs.Field.{plus};
ghost use Rattle.ov_aes.specs.SBox.{sub_bytes};
ghost use Rattle.ov_aes.specs.Nibbles.{AreBytes, inner};
ghost use Rattle.ov_aes.specs.Cipher.{cipher, mix_columns, shift_rows};
ghost use Rattle.ov_aes.specs.RoundKeys.{HasKeys};

use crate::nibbles::{
    LAST_FIRST, LAST_SECOND, ONCE_FIRST, ONCE_SECOND, TWICE_FIRST, TWICE_SECOND, inner_form,
    places, summed,
};
use crate::round_keys::{KEYS, kept_at};
use std::simd::prelude::*;

/// Where ShiftRows takes the bytes of the state from (5.1.2).
const SHIFTED: [usize; 16] = [0, 5, 10, 15, 4, 9, 14, 3, 8, 13, 2, 7, 12, 1, 6, 11];

/// The same for the byte one row below in the shifted column.
const ONE_BELOW: [usize; 16] = [5, 10, 15, 0, 9, 14, 3, 4, 13, 2, 7, 8, 1, 6, 11, 12];

/// The same for the byte two rows below.
const TWO_BELOW: [usize; 16] = [10, 15, 0, 5, 14, 3, 4, 9, 2, 7, 8, 13, 6, 11, 12, 1];

/// The same for the byte three rows below.
const THREE_BELOW: [usize; 16] = [15, 0, 5, 10, 3, 4, 9, 14, 7, 8, 13, 2, 11, 12, 1, 6];

/// A round with MixColumns, of a state in the inner form. The key has the inner form of the round key
/// plus 0x63, since the look-ups leave the 0x63 of S out.
#[inline(always)]
fn round(state: u8x16, key: u8x16) -> u8x16
    ensures { (s k : List ℕ) → AreBytes s → AreBytes k →
        state ≡ map inner s → key ≡ map inner (plus k (replicate 16 0x63)) →
        result ≡ map inner (plus (mix_columns (shift_rows (sub_bytes s))) k) }
{
    let found = places(state);
    let once = summed(ONCE_FIRST, ONCE_SECOND, found);
    let twice = summed(TWICE_FIRST, TWICE_SECOND, found);
    let thrice = once ^ twice;
    twice.swizzle(SHIFTED)
        ^ thrice.swizzle(ONE_BELOW)
        ^ once.swizzle(TWO_BELOW)
        ^ once.swizzle(THREE_BELOW)
        ^ key
}

/// The last round, which has no MixColumns, of a state in the inner form. The key has the round key plus
/// 0x63.
#[inline(always)]
fn last_round(state: u8x16, key: u8x16) -> u8x16
    ensures { (s k : List ℕ) → AreBytes s → AreBytes k →
        state ≡ map inner s → key ≡ plus k (replicate 16 0x63) →
        result ≡ plus (shift_rows (sub_bytes s)) k }
{
    summed(LAST_FIRST, LAST_SECOND, places(state)).swizzle(SHIFTED) ^ key
}

/// Bytes as a vector.
#[inline(always)]
fn vector_of(bytes: [u8; 16]) -> u8x16
    ensures same { result ≡ bytes }
    ensures bytes { AreBytes result }
{
    u8x16::from_array(bytes)
}

/// The cipher of `rounds` rounds on a block, with the round keys as they are kept.
pub fn encrypted(keys: &[u8; KEYS], rounds: usize, block: [u8; 16]) -> [u8; 16]
    requires { (1 ≤ rounds) × (rounds < 15) }
    ensures { (w : List (List ℕ)) → HasKeys keys.now w rounds → result ≡ cipher w rounds block }
{
    let mut state = inner_form(vector_of(block) ^ kept_at(keys, 0));
    for r in 1..rounds {
        let next = round(state, kept_at(keys, r));
        state = next;
    }
    last_round(state, kept_at(keys, rounds)).to_array()
}

/// The cipher of two blocks side by side: the rounds of one don't wait for those of the other.
pub fn encrypted_two(
    keys: &[u8; KEYS],
    rounds: usize,
    first: [u8; 16],
    second: [u8; 16],
) -> ([u8; 16], [u8; 16])
    requires { (1 ≤ rounds) × (rounds < 15) }
    ensures first { (w : List (List ℕ)) →
        HasKeys keys.now w rounds → result.0 ≡ cipher w rounds first }
    ensures second { (w : List (List ℕ)) →
        HasKeys keys.now w rounds → result.1 ≡ cipher w rounds second }
{
    let begin = kept_at(keys, 0);
    let mut one = inner_form(vector_of(first) ^ begin);
    let mut other = inner_form(vector_of(second) ^ begin);
    for r in 1..rounds {
        let key = kept_at(keys, r);
        let next_one = round(one, key);
        let next_other = round(other, key);
        one = next_one;
        other = next_other;
    }
    let end = kept_at(keys, rounds);
    (
        last_round(one, end).to_array(),
        last_round(other, end).to_array(),
    )
}
