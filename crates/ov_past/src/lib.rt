//! The present line of a lane: what it has done, event by event, and what it holds.
#![tactic(auto)]

mod holding;
mod past;
#[cfg(test)]
mod tests;

pub use holding::Hold;
pub use past::{Happening, Judged, Past};
