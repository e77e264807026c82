//! The script that bytes say: its lines, each by the grammar of lines.
#![tactic(auto)]

pub mod good;
pub mod pieces;
pub mod script;

pub use good::MOST_WIDE;
pub use pieces::{MOST_LINE_BYTES, MOST_LINES};
pub use script::{Limit, MOST_BYTES, ReadStop, Reading, read_script};
