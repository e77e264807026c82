//! What is kept of one peer, and how commands and datagrams change it.
#![tactic(auto)]

mod peer;

pub use peer::Peer;

#[cfg(test)]
mod tests;
