//! The table of peers and keys: each step with its entry and its notes, so that the journal is always a run.
#![tactic(auto)]

mod find;
mod locked;
mod outcome;
mod peers;
mod removal;
mod retired;
mod room;
pub mod table;

pub use locked::{CELLS, KEY_CELLS};
pub use table::Table;
