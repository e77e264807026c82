//! A lane's desk over the words that all lanes share: what a line does at the table, the replay shards, the counters and the
//! holds. No lock is held while a packet is sealed or opened, and none is taken for a draw or a give-back.
#![tactic(auto)]

mod desk;
mod held;

pub use desk::LaneDesk;
