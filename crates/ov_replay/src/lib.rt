//! Which packet ids of a key may still come, each once.
#![tactic(auto)]

pub mod course;
pub mod desk;
mod locked;
mod marks;
mod parts;
#[cfg(test)]
mod plain;
pub mod shard;
#[cfg(test)]
mod tests;
pub mod window;

pub use course::Course;
pub use desk::{DeskSeat, ReplayDesk};
pub use shard::Shard;
pub use window::Window;
