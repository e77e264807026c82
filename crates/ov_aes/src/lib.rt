// The block cipher AES of FIPS 197, for keys of 16, 24 and 32 bytes.
#![tactic(auto)]

mod cipher;
mod key;
mod key_bytes;
mod key_schedule;
pub mod laws;
mod nibbles;
mod powers;
mod round_keys;
#[cfg(test)]
mod tests;
mod words;

pub use key::AesKey;
pub use key_bytes::{KeyBytes, KeyLength};
