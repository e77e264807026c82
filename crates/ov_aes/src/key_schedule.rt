// The key expansion (FIPS 197, 5.2): the words of all round keys, from the key.

ghost use Rattle.std.specs.Prelude.{◌≡◌, ◌+◌, ◌-◌, ◌*◌, ◌/◌, ◌<◌, ◌≤◌, length};
ghost use Rattle.std.specs.Int.{to_be_bytes, w32};
ghost use Rattle.ov_aes.specs.Field.{plus};
ghost use Rattle.ov_aes.specs.SBox.{sub_bytes};
ghost use Rattle.ov_aes.specs.KeySchedule.{changed_word, key_schedule, key_word, rot_word, round_constant};
ghost use Rattle.ov_aes.specs.Aes.{IsKeyLength};
ghost use Rattle.ov_aes.specs.Words.{Begins, words_of};

use crate::nibbles::substituted;
use crate::powers::power;
use crate::words::{byte0, byte1, byte2, byte3, word_of};
use std::simd::prelude::*;

/// The most words that a key schedule has: those of 14 rounds and the first round key.
pub const WORDS: usize = 60;

/// SubWord: S of each byte.
fn sub_word(w: u32) -> u32
    ensures { to_be_bytes w32 result ≡ sub_bytes (to_be_bytes w32 w) }
{
    let [a, b, c, d] = w.to_be_bytes();
    let bytes = u8x16::from_array([a, b, c, d, 0, 0, 0, 0, 0, 0, 0, 0, 0, 0, 0, 0]);
    let found = substituted(bytes).to_array();
    word_of(found[0], found[1], found[2], found[3])
}

/// SubWord of RotWord, with the round constant of round `round`, from 1 on, in the first byte.
fn turned(w: u32, round: usize) -> u32
    requires { (1 ≤ round) × (round ≤ 10) }
    ensures { to_be_bytes w32 result
        ≡ plus (sub_bytes (rot_word (to_be_bytes w32 w))) (round_constant round) }
{
    let moved = word_of(byte1(w), byte2(w), byte3(w), byte0(w));
    sub_word(moved) ^ word_of(power(round - 1), 0, 0, 0)
}

/// What word `i` adds to the word one key before it, where `before` is word `i - 1`.
fn changed(key_words: usize, i: usize, before: u32) -> u32
    requires positive { 0 < key_words }
    requires past { key_words ≤ i }
    requires rounds { i / key_words ≤ 10 }
    ensures { to_be_bytes w32 result ≡ changed_word key_words i (to_be_bytes w32 before) }
{
    if i % key_words == 0 {
        turned(before, i / key_words)
    } else if key_words == 8 && i % 8 == 4 {
        sub_word(before)
    } else {
        before
    }
}

/// Word `i` of the key.
fn word_at(key: &[u8], i: usize) -> u32
    requires { 4 * i + 4 ≤ length key.now }
    ensures { to_be_bytes w32 result ≡ key_word key.now i }
{
    word_of(key[4 * i], key[4 * i + 1], key[4 * i + 2], key[4 * i + 3])
}

/// The key schedule of a key of 16, 24 or 32 bytes, and zeros.
pub fn expand(key: &[u8]) -> [u32; WORDS]
    requires { IsKeyLength (length key.now) }
    ensures schedule { Begins result (key_schedule key.now) (length key.now + 28) }
    ensures words { words_of key.now ≡ result }
{
    let key_words = key.len() / 4;
    let mut words = [0; WORDS];
    for i in 0..key_words {
        words[i] = word_at(key, i);
    }
    for j in key_words..4 * key_words + 28 {
        words[j] = words[j - key_words] ^ changed(key_words, j, words[j - 1]);
    }
    words
}
