//! The canonical text of a line, which says the line again.
#![tactic(auto)]

pub mod member;
pub mod object;
pub mod text;

pub use text::line_bytes;
