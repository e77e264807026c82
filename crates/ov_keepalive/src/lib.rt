//! The keepalive rule: which peers a tick removes, and which it pings.
#![tactic(auto)]

mod tick;

pub use tick::{TickFacts, TickLists, lists};

#[cfg(test)]
mod tests;
