//! The text of a report: each line's text, the lines in their order, and the summary.
#![tactic(auto)]

pub mod answer;
pub mod counts;
pub mod differ;
pub mod laws;
mod listed;
pub mod page;
pub mod print;
pub mod summary;
pub mod text;

pub use answer::answer_line;
pub use differ::keys_differ;
pub use page::PrintStop;
pub use print::{entry_line, note_line, replay_line};
pub use summary::summary_line;
pub use text::print_report;
