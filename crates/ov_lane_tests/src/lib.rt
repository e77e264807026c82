//! The tests of ov_lane: calls of a pass, and what they leave in the history. They stand in a crate of their own, so
//! that the crate is not proved once more for them.
#![tactic(auto)]

#[cfg(test)]
mod tests;
