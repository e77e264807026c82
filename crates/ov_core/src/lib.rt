//! Lines of many lanes at one table: a world that all lanes share, its turns, and the report of a script.
#![tactic(auto)]

mod counters;
mod course;
mod seat;
mod session;
mod world;

pub use session::{run_schedule, run_serially};
