// The bytes of a key, which has one of three lengths.

ghost use Rattle.std.specs.Prelude.{◌≡◌, ◌↔◌, length, IfOk, IfErr, IsOk};
ghost use Rattle.ov_aes.specs.Aes.{IsKeyLength, key_list};

use std::fmt;
use thiserror::Error;

/// The bytes of a key of AES, of one of the lengths of FIPS 197, section 5.
#[derive(Clone, Copy, PartialEq, Eq)]
pub enum KeyBytes {
    /// A key of 16 bytes, for 10 rounds.
    K16([u8; 16]),
    /// A key of 24 bytes, for 12 rounds.
    K24([u8; 24]),
    /// A key of 32 bytes, for 14 rounds.
    K32([u8; 32]),
}

/// A key has another length than 16, 24 or 32 bytes: the length that it has, in bytes.
#[derive(Clone, Copy, Debug, PartialEq, Eq, Error)]
#[error("a key of {0} bytes, not of 16, 24 or 32")]
pub struct KeyLength(pub usize);

/// A key prints as its kind and its length in bits, with no byte of it.
impl fmt::Debug for KeyBytes {
    fn fmt<W: fmt::Write>(&self, f: &mut fmt::Formatter<W>) -> fmt::Result {
        match self {
            KeyBytes::K16(_) => write!(f, "KeyBytes(128 bits)"),
            KeyBytes::K24(_) => write!(f, "KeyBytes(192 bits)"),
            KeyBytes::K32(_) => write!(f, "KeyBytes(256 bits)"),
        }
    }
}

impl KeyBytes {
    /// The key of these bytes. `KeyLength` comes exactly where there are not 16, 24 or 32 of them.
    pub fn of(bytes: &[u8]) -> Result<KeyBytes, KeyLength>
        ensures bytes { IfOk result (λ k. key_list k ≡ bytes.now) }
        ensures exactly { IsOk result ↔ IsKeyLength (length bytes.now) }
        ensures length { IfErr result (λ e. e.0 ≡ length bytes.now) }
    {
        if let Some(key) = bytes.as_array::<16>() {
            return Ok(KeyBytes::K16(*key));
        }
        if let Some(key) = bytes.as_array::<24>() {
            return Ok(KeyBytes::K24(*key));
        }
        if let Some(key) = bytes.as_array::<32>() {
            return Ok(KeyBytes::K32(*key));
        }
        Err(KeyLength(bytes.len()))
    }

    /// The bytes of the key, the first byte of the standard first.
    pub fn bytes(&self) -> &[u8]
        ensures bytes { result.now ≡ key_list self.now }
        ensures length { IsKeyLength (length result.now) }
    {
        match self {
            KeyBytes::K16(key) => key,
            KeyBytes::K24(key) => key,
            KeyBytes::K32(key) => key,
        }
    }
}
