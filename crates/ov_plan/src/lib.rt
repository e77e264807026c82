//! What the words of the command line ask for: the plan of a run, or what the program says of itself.
#![tactic(auto)]

mod command;
pub mod saying;
#[cfg(test)]
mod saying_tests;
mod schedule;
#[cfg(test)]
mod word_tests;
pub mod words;

pub use saying::{About, said};
pub use words::{Mode, PlanStop, RunPlan, plan};
