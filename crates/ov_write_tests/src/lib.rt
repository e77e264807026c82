//! The tests of ov_write: lines that are written and read again. They stand in a crate of their own, so that the crate is
//! not proved once more for them.
#![tactic(auto)]

#[cfg(test)]
mod forms_tests;
