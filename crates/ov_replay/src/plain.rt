//! The rule by its own words, over the list of all accepted ids: slow, and the twin of the ring in
//! the tests.

use ov_base::Memory;
use ov_model::Verdict;
use ov_model::limits::{QUIET_SECONDS, WINDOW_PLACES};
use std::alloc::Global;

/// An accepted id with the window's moment at its acceptance.
#[derive(Clone, Copy)]
struct Accepted {
    id: u32,
    moment: u32,
}

/// A window that keeps its whole list.
#[derive(Drop)]
pub(crate) struct PlainWindow {
    accepted: Vec<Accepted>,
    moment: u32,
}

impl PlainWindow {
    pub(crate) fn new(alloc: Global) -> PlainWindow {
        PlainWindow {
            accepted: Vec::new(alloc),
            moment: 0,
        }
    }

    pub(crate) fn step(&mut self, id: u32, at: u32) -> Result<Verdict, Memory> {
        if at > self.moment {
            self.moment = at;
        }
        let verdict = self.verdict(id);
        if verdict == Verdict::Accept {
            self.accepted.push(Accepted {
                id,
                moment: self.moment,
            })?;
        }
        Ok(verdict)
    }

    fn verdict(&self, id: u32) -> Verdict {
        let greatest = greatest(&self.accepted);
        if id == 0 {
            Verdict::Zero
        } else if self.accepted.iter().all(|a| a.id < id) {
            Verdict::Accept
        } else if greatest >= id && greatest - id >= WINDOW_PLACES {
            Verdict::Old
        } else if id <= self.floor() {
            Verdict::Below
        } else if self.accepted.iter().any(|a| a.id == id) {
            Verdict::Again
        } else {
            Verdict::Accept
        }
    }

    /// The greatest id of the longest prefix that is followed by a gap: each prefix is tried.
    fn floor(&self) -> u32 {
        let mut floor = 0;
        for (index, last) in self.accepted.iter().enumerate() {
            let next = match self.accepted.get(index + 1) {
                Some(next) => next.moment,
                None => self.moment,
            };
            if u64::from(last.moment) + u64::from(QUIET_SECONDS) <= u64::from(next) {
                floor = greatest(&self.accepted[..index + 1]);
            }
        }
        floor
    }
}

fn greatest(accepted: &[Accepted]) -> u32 {
    accepted.iter().map(|a| a.id).max().unwrap_or(0)
}
