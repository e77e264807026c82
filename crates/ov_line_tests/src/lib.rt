//! The tests of ov_line: tables of good, bad and odd lines. They stand in a crate of their own, so
//! that the crate is not proved once more for them.
#![tactic(auto)]

#[cfg(test)]
mod forms_tests;
#[cfg(test)]
mod line_tests;
#[cfg(test)]
mod odd_lines_tests;
#[cfg(test)]
mod packet_tests;
