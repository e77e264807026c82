//! What a run reports.

use crate::answer::Answer;
use crate::entry::Entry;
use crate::line::Line;
use crate::note::Note;
use crate::replay::ReplayEntry;
use ov_base::ListOf;

/// A part of an answer that the link didn't take: the line's number within its lane and the part's
/// number among the answer's sendable parts, both from 0.
#[derive(Clone, Copy, Debug, PartialEq, Eq)]
pub struct Unsent {
    pub line: u64,
    pub nth: u32,
}

/// What one lane did: its lines, an answer for each, and how many of its last lines came from a link.
#[derive(Debug, Drop, PartialEq, Eq)]
pub struct LaneLog {
    pub lines: ListOf<Line>,
    pub answers: ListOf<Answer>,
    pub recorded: u64,
    pub unsent: ListOf<Unsent>,
}

/// The whole of a run: each lane's log, the history of the peer table, the notifications in order,
/// and the histories of the eight replay shards.
#[derive(Debug, Drop, PartialEq, Eq)]
pub struct Report {
    pub lanes: ListOf<LaneLog>,
    pub journal: ListOf<Entry>,
    pub notes: ListOf<Note>,
    pub shards: ListOf<ListOf<ReplayEntry>>,
}
