// Authenticated encryption of one packet: AES in Galois/Counter Mode (SP 800-38D).
#![tactic(auto)]

mod blocks;
mod key;
pub mod laws;
mod stream;
#[cfg(test)]
mod tests;

pub use blocks::MOST_BYTES;
pub use key::{BadTag, GcmKey};
