//! The tests of ov_table: what no clause says of a step, its happy path. They stand in a crate of their own, so
//! that the crate is not proved once more for them.
#![tactic(auto)]

#[cfg(test)]
mod tests;
