// A key that seals and unseals.

ghost use Rattle.std.specs.Prelude.{◌≡◌, ◌≤◌, ◌↔◌, length, IsOk, IsErr, IsTrue, OnOk, OnErr};
ghost use Rattle.ov_aes.specs.Aes.{key_list};
ghost use Rattle.ov_gcm.specs.Gcm.{seal_text, seal_tag, tag_of, Opens, plain};

use crate::blocks::{BLOCK, MOST_BYTES, absorbed, add_block, lengths};
use crate::stream::{counter_block, crypt};
use ov_aes::{AesKey, KeyBytes};
use ov_ghash::HashKey;
use std::fmt;
use std::marker::Model;
use thiserror::Error;

/// The tag of a text is not the one that its key, nonce and associated data give it.
#[derive(Clone, Copy, Debug, PartialEq, Eq, Error)]
#[error("the tag is not that of the text")]
pub struct BadTag;

/// A key of AES in Galois/Counter Mode, ready for use. Contracts see it as the bytes of the key. It has
/// 800 bytes.
#[derive(Clone, Copy)]
pub struct GcmKey {
    aes: AesKey,
    // The hash subkey.
    hash: HashKey,
}

impl Model for GcmKey {
    ghost use Rattle.ov_aes.specs.declared.key_bytes.KeyBytes.{KeyBytes};

    ghost Value = { KeyBytes };

    ghost use Rattle.std.specs.Prelude.{◌≡◌};
    ghost use Rattle.ov_aes.specs.Aes.{key_list};
    ghost use Rattle.ov_ghash.specs.Ghash.{IsPrepared, prepared};
    ghost use Rattle.ov_gcm.specs.Gcm.{hash_key};

    ghost view = { λ g. g.aes };

    ghost invariant = { λ g. (prepared (hash_key (key_list g.aes)) ≡ g.hash)
        × IsPrepared g.hash (hash_key (key_list g.aes)) };

    ghost inverse = { λ k. record { aes = k; hash = prepared (hash_key (key_list k)) } };

    ghost inverse_ok = { λ a h. λ i. record { aes = a.aes; hash = h.0 i } };
}

/// The key prints as its kind, with no byte of it and nothing that is computed of it.
impl fmt::Debug for GcmKey {
    fn fmt<W: fmt::Write>(&self, f: &mut fmt::Formatter<W>) -> fmt::Result {
        let aes = &self.aes;
        write!(f, "GcmKey({aes:?})")
    }
}

/// Whether two tags are equal. Every byte of both is looked at, wherever they differ first, so that
/// the time doesn't tell how much of a forged tag is right.
fn equal(right: [u8; 16], tag: [u8; 16]) -> bool
    ensures { IsTrue result ↔ (right ≡ tag) }
{
    let mut differing = 0;
    for i in 0..16 {
        differing |= right[i] ^ tag[i];
    }
    differing == 0
}

impl GcmKey {
    /// The key of these bytes, ready for use.
    pub fn new(key: &KeyBytes) -> GcmKey
        ensures { result ≡ key.now }
    {
        let aes = AesKey::of(*key);
        let hash = HashKey::new(aes.encrypt([0; BLOCK]));
        GcmKey { aes, hash }
    }

    /// Encrypts `text` in place and answers its tag (SP 800-38D, 7.1). A nonce must never be given twice
    /// under a key. `ad` is the associated data, which the tag covers too. Each has at most 65,536 bytes.
    pub fn seal(&self, nonce: [u8; 12], ad: &[u8], text: &mut [u8]) -> [u8; 16]
        requires ad { length ad.now ≤ MOST_BYTES }
        requires text { length text.old ≤ MOST_BYTES }
        ensures text { text.new ≡ seal_text (key_list self.now) nonce ad.now text.old }
        ensures tag { result ≡ seal_tag (key_list self.now) nonce ad.now text.old }
    {
        crypt(&self.aes, nonce, text);
        self.tag(nonce, ad, text)
    }

    /// Decrypts `text` in place, if `tag` is its tag (SP 800-38D, 7.2). `BadTag` comes exactly where it
    /// isn't, and then `text` is unchanged. `ad` and `text` have at most 65,536 bytes each.
    pub fn unseal(
        &self,
        nonce: [u8; 12],
        ad: &[u8],
        text: &mut [u8],
        tag: [u8; 16],
    ) -> Result<(), BadTag>
        requires ad { length ad.now ≤ MOST_BYTES }
        requires text { length text.old ≤ MOST_BYTES }
        ensures right { IsOk result ↔ Opens (key_list self.now) nonce ad.now text.old tag }
        ensures text { OnOk result (text.new ≡ plain (key_list self.now) nonce text.old) }
        ensures wrong { IsErr result ↔ ¬ (Opens (key_list self.now) nonce ad.now text.old tag) }
        ensures unchanged { OnErr result (text.new ≡ text.old) }
    {
        let right = self.tag(nonce, ad, text);
        if !equal(right, tag) {
            return Err(BadTag);
        }
        crypt(&self.aes, nonce, text);
        Ok(())
    }

    /// The tag of a ciphertext.
    fn tag(&self, nonce: [u8; 12], ad: &[u8], text: &[u8]) -> [u8; 16]
        requires ad { length ad.now ≤ MOST_BYTES }
        requires text { length text.now ≤ MOST_BYTES }
        ensures { result ≡ tag_of (key_list self.now) nonce ad.now text.now }
    {
        let of_ad = absorbed(&self.hash, [0; BLOCK], ad);
        let of_text = absorbed(&self.hash, of_ad, text);
        let mut tag = self.hash.folded(of_text, lengths(ad.len(), text.len()));
        add_block(&mut tag, self.aes.encrypt(counter_block(nonce, 0)));
        tag
    }
}
