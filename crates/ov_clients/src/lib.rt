//! Two threads at each kind of shared words, and what both together are proved to have done.
#![tactic(auto)]

pub mod appending;
pub mod calling;
pub mod drawing;
pub mod holding;
pub mod journal;
pub mod stage;
#[cfg(test)]
mod tests;
