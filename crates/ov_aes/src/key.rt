// A key that is ready for use: its bytes, and the round keys that its bytes determine.

ghost use Rattle.std.specs.Prelude.{◌≡◌, ◌↔◌, length, IfOk, IfErr, IsOk};
ghost use Rattle.ov_aes.specs.Aes.{IsKeyLength, key_list};
ghost use Rattle.ov_aes.specs.Cipher.{aes};

use crate::cipher::{encrypted, encrypted_two};
use crate::key_bytes::{KeyBytes, KeyLength};
use crate::key_schedule::expand;
use crate::round_keys::{KEYS, kept_of};
use std::fmt;
use std::marker::Model;

/// A key of AES with its key schedule. Contracts see it as the bytes of the key.
#[derive(Clone, Copy)]
pub struct AesKey {
    key: KeyBytes,
    // The round keys, as the rounds want them.
    keys: [u8; KEYS],
    rounds: usize,
}

impl Model for AesKey {
    ghost use Rattle.ov_aes.specs.declared.key_bytes.KeyBytes.{KeyBytes};

    ghost Value = { KeyBytes };

    ghost use Rattle.std.specs.Prelude.{◌≡◌, ◌+◌, ◌/◌, length};
    ghost use Rattle.ov_aes.specs.Aes.{IsKeyLength, key_list};
    ghost use Rattle.ov_aes.specs.KeySchedule.{key_schedule};
    ghost use Rattle.ov_aes.specs.RoundKeys.{HasKeys, keys_of};

    ghost view = { λ a. a.key };

    ghost invariant = { λ a. (keys_of (key_list a.key) ≡ a.keys)
        × HasKeys a.keys (key_schedule (key_list a.key)) (length (key_list a.key) / 4 + 6)
        × (length (key_list a.key) / 4 + 6 ≡ a.rounds)
        × IsKeyLength (length (key_list a.key)) };

    ghost inverse = { λ k. record { key = k; keys = keys_of (key_list k); rounds = length (key_list k) / 4 + 6 } };

    ghost inverse_ok = { λ a h. λ i. record { key = a.key; keys = h.0 i; rounds = h.2 i } };
}

/// The key prints as its kind and its length, with no byte of it and no round key.
impl fmt::Debug for AesKey {
    fn fmt<W: fmt::Write>(&self, f: &mut fmt::Formatter<W>) -> fmt::Result {
        let key = &self.key;
        write!(f, "AesKey({key:?})")
    }
}

impl AesKey {
    /// The key of these bytes, ready for use.
    pub fn of(key: KeyBytes) -> AesKey
        ensures { result ≡ key }
    {
        let bytes = key.bytes();
        let rounds = bytes.len() / 4 + 6;
        let keys = kept_of(&expand(bytes), rounds);
        AesKey { key, keys, rounds }
    }

    /// The key of these bytes, ready for use. `KeyLength` comes exactly where there are not 16, 24
    /// or 32 of them.
    pub fn new(key: &[u8]) -> Result<AesKey, KeyLength>
        ensures made { IfOk result (λ k. key_list k ≡ key.now) }
        ensures exactly { IsOk result ↔ IsKeyLength (length key.now) }
        ensures length { IfErr result (λ e. e.0 ≡ length key.now) }
    {
        Ok(AesKey::of(KeyBytes::of(key)?))
    }

    /// The block that the cipher of FIPS 197 makes of a block of 16 bytes under this key.
    pub fn encrypt(&self, block: [u8; 16]) -> [u8; 16]
        ensures { result ≡ aes (key_list self.now) block }
    {
        encrypted(&self.keys, self.rounds, block)
    }

    /// The blocks that the cipher makes of two blocks, in less time than one after the other.
    pub fn encrypt_two(&self, first: [u8; 16], second: [u8; 16]) -> ([u8; 16], [u8; 16])
        ensures first { result.0 ≡ aes (key_list self.now) first }
        ensures second { result.1 ≡ aes (key_list self.now) second }
    {
        encrypted_two(&self.keys, self.rounds, first, second)
    }
}
