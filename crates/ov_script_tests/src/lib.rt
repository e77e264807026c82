//! The tests of ov_script: scripts that are read, and where the limits stop them. They stand in a crate of their own, so
//! that the crate is not proved once more for them.
#![tactic(auto)]

#[cfg(test)]
mod limit_tests;
#[cfg(test)]
mod reading_tests;
