//! The notifications of a table, in the order in which they were made.
#![tactic(auto)]

mod log;

pub use log::NoteLog;

#[cfg(test)]
mod tests;
