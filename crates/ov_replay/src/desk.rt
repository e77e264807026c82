//! The eight shards of the replay windows, each behind a lock of its own: steps of keys of two shards never wait for
//! one another.
ghost use Rattle.std.specs.Prelude.{◌≡◌, ◌<◌, ◌≤◌, ℕ, length, get_or, slice_get, [], IfOk, OnErr};
ghost use Rattle.ov_model.specs.Limits.{shard_count};
ghost use Rattle.ov_replay.specs.Desk.{part_at, no_part, is_new, IsDeskSeat, HasShares, IsCut, IsJoined, HasStepped, HasNotStepped, IsShardOf};

use crate::course::Course;
use crate::parts::{close_all, cut_all, join_all, judge_once, lock_all, no_histories, no_parts};
use ov_base::{ListOf, Memory};
use ov_model::limits::SHARDS;
use ov_model::{Place, ReplayEntry, Verdict};
use ov_turn::{LockSeat, TicketLock};
use std::alloc::Global;
use std::marker::Model;
use std::sync::Wait;

/// The replay windows of all keys, for many threads. It has to be closed, with the seat into which every other was
/// joined.
pub struct ReplayDesk {
    locks: Vec<TicketLock<Course>>,
    // Room for what `close` gives.
    shards: Vec<ListOf<ReplayEntry>>,
}

impl Model for ReplayDesk {
    ghost use Rattle.std.specs.Prelude.{◌≡◌, List, length, map};
    ghost use Rattle.ov_model.specs.Limits.{shard_count};
    ghost use Rattle.ov_turn.specs.Seats.{Name, name_of};

    ghost Value = { List Name };

    ghost view = { λ d. map name_of d.locks.items };

    ghost invariant = { λ d. (length d.locks.items ≡ shard_count) × (length d.shards.items ≡ shard_count) };
}

/// The right to make steps at a `ReplayDesk`, on one thread at a time. It knows what it has seen of each shard's
/// history and which entries are its own.
#[derive(Drop)]
pub struct DeskSeat {
    // Of each shard its seat of the shard's lock. One is out only while a step has it.
    parts: Vec<Option<LockSeat<Course>>>,
}

impl Model for DeskSeat {
    ghost use Rattle.std.specs.Prelude.{◌≡◌, ℕ, List, length, map, get_or, None};
    ghost use Rattle.ov_model.specs.Limits.{shard_count};
    ghost use Rattle.ov_replay.specs.Desk.{Part, part_in, IsOfShard};

    ghost Value = { List Part };

    ghost view = { λ t. map part_in t.parts.items };

    ghost invariant = { λ t. (length t.parts.items ≡ shard_count) × ((s : ℕ) → IsOfShard s (get_or t.parts.items s None)) };
}

impl DeskSeat {
    /// A seat of no desk: the room for one that `split` cuts off. `Err` is want of memory.
    pub fn none(alloc: Global) -> Result<DeskSeat, Memory>
        ensures { IfOk result (λ t. (s : ℕ) → part_at t s ≡ no_part) }
    {
        Ok(DeskSeat {
            parts: no_parts(alloc)?,
        })
    }
}

impl ReplayDesk {
    /// Eight shards without a step, and the seat that has the whole share of 4294967296 of each. `Err` is want of
    /// memory.
    pub fn new(alloc: Global) -> Result<(ReplayDesk, DeskSeat), Memory>
        ensures of { IfOk result (λ r. IsDeskSeat r.0 r.1) }
        ensures new { IfOk result (λ r. (s : ℕ) → s < shard_count → part_at r.1 s ≡ is_new (slice_get r.0 s)) }
    {
        let shards = no_histories(alloc)?;
        let parts = no_parts(alloc)?;
        let (locks, parts, shards) = lock_all(alloc, parts, shards)?;
        Ok((ReplayDesk { locks, shards }, DeskSeat { parts }))
    }

    /// Cuts one share of each shard off, into a seat of no desk.
    pub fn split(&self, seat: DeskSeat, none: DeskSeat) -> (DeskSeat, DeskSeat)
        requires of { IsDeskSeat self.now seat }
        requires share { HasShares 2 seat }
        ensures of { IsDeskSeat self.now result.0 × IsDeskSeat self.now result.1 }
        ensures cut { (s : ℕ) → s < shard_count → IsCut (part_at seat s) (part_at result.0 s) (part_at result.1 s) }
    {
        let DeskSeat { parts } = seat;
        let DeskSeat { parts: others } = none;
        let (parts, others) = cut_all(self.locks.as_slice(), parts, others);
        (DeskSeat { parts }, DeskSeat { parts: others })
    }

    /// Puts two seats together.
    pub fn join(&self, left: DeskSeat, right: DeskSeat) -> DeskSeat
        requires left { IsDeskSeat self.now left }
        requires right { IsDeskSeat self.now right }
        ensures of { IsDeskSeat self.now result }
        ensures joined { (s : ℕ) → s < shard_count → IsJoined (part_at left s) (part_at right s) (part_at result s) }
    {
        let DeskSeat { parts } = left;
        let DeskSeat { parts: others } = right;
        DeskSeat {
            parts: join_all(self.locks.as_slice(), parts, others),
        }
    }

    /// Makes the step of packet id `id` on the window of the key with the serial `key`, in the history of the shard
    /// `key mod 8`. `Err` is want of memory: then no step was made.
    pub fn step<R: Wait>(
        &self,
        rt: &R,
        seat: &mut DeskSeat,
        place: Place,
        key: u32,
        id: u32,
        at: u32,
    ) -> Result<Verdict, Memory>
        requires of { IsDeskSeat self.now seat.old }
        ensures of { IsDeskSeat self.now seat.new }
        ensures ok { IfOk result (λ v. HasStepped seat.old seat.new place key id at v) }
        ensures err { OnErr result (HasNotStepped seat.old seat.new key) }
    {
        let shard = (key % SHARDS) as usize;
        let part = seat.parts[shard].take();
        let (part, verdict) = judge_once(rt, &self.locks[shard], part, place, key, id, at);
        seat.parts[shard] = part;
        verdict
    }

    /// Ends the desk, with the seat into which every other seat was joined, and gives the history of each shard.
    pub fn close(self, seat: DeskSeat) -> ListOf<ListOf<ReplayEntry>>
        requires of { IsDeskSeat self seat }
        requires whole { (s : ℕ) → s < shard_count → (part_at seat s).share ≡ 4294967296 }
        ensures eight { length result ≡ shard_count }
        ensures each { (s : ℕ) → s < shard_count → IsShardOf s (part_at seat s) (get_or result s []) }
    {
        let ReplayDesk { locks, shards } = self;
        let DeskSeat { parts } = seat;
        ListOf::of_vec(close_all(locks, parts, shards))
    }
}
