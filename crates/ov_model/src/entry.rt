//! The entries of the peer table's history.

use crate::act::Call;
use crate::place::Place;
use crate::reply::Reply;

/// One step of the peer table with where it came from and what it answered.
#[derive(Debug, Drop, PartialEq, Eq)]
pub struct Entry {
    pub place: Place,
    pub call: Call,
    pub reply: Reply,
}
