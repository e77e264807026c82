//! The tests of ov_report: the exact texts of a report. They stand in a crate of their own, so
//! that the crate is not proved once more for them.
#![tactic(auto)]

#[cfg(test)]
mod print_tests;
#[cfg(test)]
mod tests;
