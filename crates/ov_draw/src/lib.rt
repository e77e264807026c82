//! Send counters: the packet ids of each key, each drawn once over all seats.
#![tactic(auto)]

mod draws;
mod hand;
pub mod laws;
#[cfg(test)]
mod tests;

pub use draws::{DrawSeat, Draws, KEYS};
