//! A line, and the lines of a lane, at a lane's desk.
#![tactic(auto)]

mod gate;
mod lines;
mod walk;

pub use gate::{Gate, OpenGate};
pub use lines::{run_line, run_lines};
pub use walk::walk_out;
