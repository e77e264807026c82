//! Lanes on threads: a script's lines, each lane on a thread of its own, and the report of all.
#![tactic(auto)]

mod job;
pub mod laws;
mod pairs;
mod run;

pub use run::{Ran, gather, run_lanes};
