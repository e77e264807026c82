//! The tests of ov_text: the texts of pieces, members and replies. They stand in a crate of their own, so that the crate is
//! not proved once more for them.
#![tactic(auto)]

#[cfg(test)]
mod piece_tests;
