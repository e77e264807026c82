//! The tests of ov_core: scripts that run serially and by a schedule, with their reports. They stand in a crate of their own, so
//! that the crate is not proved once more for them.
#![tactic(auto)]

#[cfg(test)]
mod tests;
