// Counter mode: the stream of the counter blocks, added to a text.

ghost use Rattle.std.specs.Prelude.{◌≡◌, ℕ, ◌+◌, ◌*◌, ◌^◌, ◌<◌, ◌≤◌, List, length};
ghost use Rattle.ov_aes.specs.Aes.{key_list};
ghost use Rattle.ov_aes.specs.Cipher.{aes};
ghost use Rattle.ov_gcm.specs.Gcm.{counter, crypted};
ghost use Rattle.ov_gcm.specs.Steps.{IsCryptedUpTo};

use crate::blocks::{BLOCK, MOST_BYTES, add_block};
use ov_aes::AesKey;

/// Counter block `i`, of which the first, block 0, makes the tag.
pub fn counter_block(nonce: [u8; 12], i: u32) -> [u8; BLOCK]
    requires { i + 1 < 2 ^ 32 }
    ensures { result ≡ counter nonce i }
{
    let mut block = [0; BLOCK];
    block[..12].copy_from_slice(&nonce);
    block[12..].copy_from_slice(&(i + 1).to_be_bytes());
    block
}

/// Adds what the cipher makes of counter block `i + 1` to block `i` of a text, of which the last may
/// be cut.
fn add_at(text: &mut [u8], i: usize, block: [u8; BLOCK])
    requires within { 16 * i < length text.old }
    requires most { length text.old ≤ MOST_BYTES }
    ensures { (key nonce p : List ℕ) → length p ≡ length text.old →
        block ≡ aes key (counter nonce (i + 1)) →
        IsCryptedUpTo key nonce p i text.old → IsCryptedUpTo key nonce p (i + 1) text.new }
{
    let end = text.len().min(BLOCK * i + BLOCK);
    add_block(&mut text[BLOCK * i..end], block);
}

/// Encrypts or decrypts block `i` of a text, of which the last may be cut.
fn crypt_block(key: &AesKey, nonce: [u8; 12], text: &mut [u8], i: usize)
    requires within { 16 * i < length text.old }
    requires most { length text.old ≤ MOST_BYTES }
    ensures { (p : List ℕ) → length p ≡ length text.old →
        IsCryptedUpTo (key_list key.now) nonce p i text.old →
        IsCryptedUpTo (key_list key.now) nonce p (i + 1) text.new }
{
    add_at(text, i, key.encrypt(counter_block(nonce, i as u32 + 1)));
}

/// Encrypts or decrypts blocks `i` and `i + 1` of a text side by side. The second may be cut.
fn crypt_two(key: &AesKey, nonce: [u8; 12], text: &mut [u8], i: usize)
    requires within { 16 * (i + 1) < length text.old }
    requires most { length text.old ≤ MOST_BYTES }
    ensures { (p : List ℕ) → length p ≡ length text.old →
        IsCryptedUpTo (key_list key.now) nonce p i text.old →
        IsCryptedUpTo (key_list key.now) nonce p (i + 2) text.new }
{
    let number = i as u32 + 1;
    let (first, second) = key.encrypt_two(
        counter_block(nonce, number),
        counter_block(nonce, number + 1),
    );
    add_at(text, i, first);
    add_at(text, i + 1, second);
}

/// Encrypts or decrypts a text in place: two counter blocks a turn, and then the one that may be
/// left.
pub fn crypt(key: &AesKey, nonce: [u8; 12], text: &mut [u8])
    requires { length text.old ≤ MOST_BYTES }
    ensures { text.new ≡ crypted (key_list key.now) nonce text.old }
{
    let blocks = text.len().div_ceil(BLOCK);
    for turn in 0..blocks / 2 {
        crypt_two(key, nonce, text, 2 * turn);
    }
    if blocks % 2 == 1 {
        crypt_block(key, nonce, text, blocks - 1);
    }
}
