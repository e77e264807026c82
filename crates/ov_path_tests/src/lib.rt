//! The tests of ov_path: a packet sealed and opened, and lines that run over a desk of plain lists. They stand in a crate of their own, so
//! that the crate is not proved once more for them.
#![tactic(auto)]

#[cfg(test)]
mod tests;
