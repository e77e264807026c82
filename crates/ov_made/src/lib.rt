//! The script that a seed and a count stand for: peers with their keys, and packets to and from them.
#![tactic(auto)]

mod crossing;
mod head;
mod keys;
mod script;
#[cfg(test)]
mod tests;

pub use script::made;
