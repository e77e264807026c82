//! What a lane has of the words that all lanes share, and what it does with them: its seats of the lock over the peer table,
//! of the replay shards and of the send counters.
#![tactic(auto)]

mod steps;
mod words;

pub use words::{Ending, Share, Words};
