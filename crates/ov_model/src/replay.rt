//! The answers of the replay rule and the record of its steps.

use crate::place::Place;

/// What the replay rule says of one packet id of one key.
#[derive(Clone, Copy, Debug, PartialEq, Eq)]
pub enum Verdict {
    /// The id is new: it may be delivered, and won't be accepted again.
    Accept,
    /// The id is 0, which no sender uses.
    Zero,
    /// The id is 2,048 or more below the greatest accepted one.
    Old,
    /// The id is at or below the floor: what came before a silence of 30 seconds is over.
    Below,
    /// The id was accepted before.
    Again,
}

/// The verdicts that don't accept a packet id, each as above.
#[derive(Clone, Copy, Debug, PartialEq, Eq)]
pub enum Refusal {
    Zero,
    Old,
    Below,
    Again,
}

/// One step of a replay window, as the report shows it. `at` is the step's own moment, `moment` the
/// window's after it, both in whole seconds.
#[derive(Clone, Copy, Debug, PartialEq, Eq)]
pub struct ReplayEntry {
    pub place: Place,
    /// The serial of the key whose window this is.
    pub key: u32,
    /// The packet id that was judged.
    pub id: u32,
    pub at: u32,
    pub moment: u32,
    pub verdict: Verdict,
}
