//! The live peers in the order of making, found by id, by VPN address, by transport and by serial without a search.
#![tactic(auto)]

mod gone;
mod index;
mod name;
mod names;
mod peers;
mod places;
mod ticks;

pub use gone::{Gone, Numbered};
pub use index::Index;
pub use ov_peer::Peer;
