//! One of the eight shards of the replay windows: those of the keys with one remainder modulo 8,
//! and all steps that these keys made, in their order.

ghost use Rattle.std.specs.Prelude.{◌≡◌, ◌%◌, ◌<◌, [], ◌∷◌, ◌++◌, IfOk, OnOk, OnErr};
ghost use Rattle.ov_model.specs.Limits.{shard_count};
ghost use Rattle.ov_model.specs.Replay.{ShardJudges, judged};

use crate::course::Course;
use ov_base::{ListOf, Memory};
use ov_model::{Place, ReplayEntry, Verdict};
use std::alloc::Global;
use std::marker::Model;

/// The windows and the history of one shard.
#[derive(Debug, Drop)]
pub struct Shard {
    number: u32,
    course: Course,
}

impl Model for Shard {
    ghost use Rattle.ov_replay.specs.History.{History};
    ghost use Rattle.ov_model.specs.Replay.{ShardJudges};

    ghost Value = { History };

    ghost view = { λ s. record { number = s.number; entries = s.course } };

    ghost invariant = { λ s. ShardJudges s.number s.course };
}

impl Shard {
    /// The shard of the keys whose remainder modulo 8 is `number`. It takes no memory until its
    /// first step.
    pub fn new(alloc: Global, number: u32) -> Shard
        requires { number < shard_count }
        ensures { result ≡ record { number = number; entries = [] } }
    {
        Shard {
            number,
            course: Course::new(alloc),
        }
    }

    /// Makes the step of packet id `id` on the window of the key with the serial `key` and stores
    /// its entry. A key that has no window yet gets a new one. After Memory the shard is as it was.
    pub fn step(&mut self, place: Place, key: u32, id: u32, at: u32) -> Result<Verdict, Memory>
        requires { key % shard_count ≡ self.old.number }
        // The stored entry is the one that the rule gives after the key's earlier steps.
        ensures verdict { IfOk result (λ verdict.
            verdict ≡ (judged self.old.entries place key id at).verdict) }
        ensures ok { OnOk result (self.new
            ≡ record self.old {
              entries = self.old.entries ++ judged self.old.entries place key id at ∷ [];
            }) }

        // Want of memory changes nothing, neither the window nor its moment.
        ensures err { OnErr result (self.new ≡ self.old) }
    {
        self.course.step(place, key, id, at)
    }

    /// Closes the shard and moves its history out: the entries of all its steps, in their order.
    pub fn finish(self) -> ListOf<ReplayEntry>
        ensures entries { result ≡ self.entries }
        ensures judged { ShardJudges self.number result }
    {
        let Shard { number: _, course } = self;
        course.finish()
    }
}
