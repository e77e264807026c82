//! The steps of keys behind a lock: the history is that of the steps, and there is nothing that may be held.
ghost use Rattle.std.specs.Prelude.{[]};

use crate::course::Course;
use ov_model::ReplayEntry;
use ov_turn::Kept;

impl Kept for Course {
    type Item = ReplayEntry;

    ghost history = { λ c. c };

    ghost live = { λ _. [] };

    ghost dying = { λ _. [] };

    fn length(&self) -> u64 {
        self.len() as u64
    }
}
