//! The table shared by threads: a call of a pass is one step under its ticket of the lock, with the links and
//! unlinks of the cells and the releases that it owes. A pass also has its seats of the replay shards and of the send
//! counters.
#![tactic(auto)]

mod dealing;
mod ovpn;
mod pass;

pub use ovpn::{Closed, Ovpn};
pub use pass::Pass;
