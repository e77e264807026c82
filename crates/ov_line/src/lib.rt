//! The line that bytes say: the grammar of lines, both ways.
#![tactic(auto)]

pub mod compact;
pub mod compact_key;
pub mod compact_peer;
pub mod compact_rx;
pub mod compact_tx;
pub mod digits;
pub mod grammar;
pub mod keyconf;
pub mod laws;
pub mod line;
pub mod member;
pub mod packets;
pub mod parts;
pub mod peer;
pub mod why;

pub use line::{LineStop, read_line};
pub use packets::{MOST_DATAGRAM, MOST_PACKET};
pub use why::{Name, Why};
