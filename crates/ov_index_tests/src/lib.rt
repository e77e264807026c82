//! The tests of ov_index: each public call once, on its happy path. They stand in a crate of their own, so
//! that the crate is not proved once more for them.
#![tactic(auto)]

#[cfg(test)]
mod tests;
