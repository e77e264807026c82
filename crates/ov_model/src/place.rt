//! Where a call stands in the script.

/// The lane and the line of a call: the line's number within its lane, from 0.
#[derive(Clone, Copy, Debug, PartialEq, Eq)]
pub struct Place {
    pub lane: u32,
    pub line: u64,
}
