//! The bytes of a data packet's head and nonce, and what an inner packet says of itself.
#![tactic(auto)]

mod datagram;
mod head;
mod inner_packet;
pub mod laws;
mod nonces;
#[cfg(test)]
mod tests;

pub use datagram::write_datagram;
pub use head::{Head, HeadStop, read_head, write_head};
pub use inner_packet::{InnerFacts, inner, is_keepalive, keepalive_message};
pub use nonces::nonce;
