//! The shards' locks side by side, and the seats of one desk seat: each is made, cut, put together, used and closed as
//! one lock is.
ghost use Rattle.std.specs.Prelude.{◌≡◌, ◌%◌, ◌<◌, ◌≤◌, ℕ, length, get_or, slice_get, [], None, Some, IfOk, OnErr};
ghost use Rattle.ov_model.specs.Limits.{shard_count};
ghost use Rattle.ov_turn.specs.Seats.{name_of};
ghost use Rattle.ov_replay.specs.Desk.{part_in, name_at, is_new, IsOfShard, IsCut, IsJoined, IsStepped, HasLooked, IsClosed, IsResting, IsJudgedIn, IsUnjudged};

use crate::course::Course;
use ov_base::{ListOf, Memory};
use ov_model::limits::SHARDS;
use ov_model::{Place, ReplayEntry, Verdict};
use ov_turn::{Inside, LockSeat, TicketLock};
use std::alloc::Global;
use std::sync::Wait;

/// Room for a seat of each shard, with none in it.
pub(crate) fn no_parts(alloc: Global) -> Result<Vec<Option<LockSeat<Course>>>, Memory>
    ensures long { IfOk result (λ parts. length parts.items ≡ shard_count) }
    ensures none { IfOk result (λ parts. (s : ℕ) → get_or parts.items s None ≡ None) }
{
    let mut parts = Vec::new(alloc);
    parts.reserve(SHARDS as usize)?;
    for _shard in 0..SHARDS {
        parts.push_reserved(None);
    }
    Ok(parts)
}

/// Room for the history of each shard.
pub(crate) fn no_histories(alloc: Global) -> Result<Vec<ListOf<ReplayEntry>>, Memory>
    ensures long { IfOk result (λ shards. length shards.items ≡ shard_count) }
{
    let mut shards = Vec::new(alloc);
    shards.reserve(SHARDS as usize)?;
    for _shard in 0..SHARDS {
        shards.push_reserved(ListOf::new(alloc));
    }
    Ok(shards)
}

/// A lock for each shard, with its seat put in its place.
pub(crate) fn lock_all(
    alloc: Global,
    mut parts: Vec<Option<LockSeat<Course>>>,
    shards: Vec<ListOf<ReplayEntry>>,
) -> Result<
    (
        Vec<TicketLock<Course>>,
        Vec<Option<LockSeat<Course>>>,
        Vec<ListOf<ReplayEntry>>,
    ),
    Memory,
>
    requires long { (length parts.items ≡ shard_count) × (length shards.items ≡ shard_count) }
    requires none { (s : ℕ) → get_or parts.items s None ≡ None }
    ensures long { IfOk result (λ r. (length r.0.items ≡ shard_count) × (length r.1.items ≡ shard_count)) }
    ensures shards { IfOk result (λ r. r.2.items ≡ shards.items) }
    ensures new { IfOk result (λ r. (s : ℕ) → s < shard_count
        → part_in (get_or r.1.items s None) ≡ is_new (name_at (slice_get r.0.items s))) }
    ensures fit { IfOk result (λ r. (s : ℕ) → IsOfShard s (get_or r.1.items s None)) }
{
    let mut locks = Vec::new(alloc);
    if locks.reserve(SHARDS as usize).is_err() {
        locks.destroy_empty();
        return Err(Memory);
    }
    for shard in 0..SHARDS as usize {
        let Ok((lock, seat)) = TicketLock::new(alloc, Course::new(alloc), 0) else {
            close_all(locks, parts, shards);
            return Err(Memory);
        };
        parts[shard] = Some(seat);
        locks.push_reserved(lock);
    }
    Ok((locks, parts, shards))
}

/// Cuts one share of each lock off.
pub(crate) fn cut_all(
    locks: &[TicketLock<Course>],
    mut parts: Vec<Option<LockSeat<Course>>>,
    mut others: Vec<Option<LockSeat<Course>>>,
) -> (Vec<Option<LockSeat<Course>>>, Vec<Option<LockSeat<Course>>>)
    requires long { (length parts.items ≡ length locks.now) × (length others.items ≡ length locks.now) }
    requires of { (s : ℕ) → s < length locks.now
        → (part_in (get_or parts.items s None)).name ≡ name_at (slice_get locks.now s) }
    requires share { (s : ℕ) → s < length locks.now → 2 ≤ (part_in (get_or parts.items s None)).share }
    requires fit { (s : ℕ) → IsOfShard s (get_or parts.items s None) }
    ensures long { (length result.0.items ≡ length locks.now) × (length result.1.items ≡ length locks.now) }
    ensures cut { (s : ℕ) → s < length locks.now
        → IsCut (part_in (get_or parts.items s None)) (part_in (get_or result.0.items s None)) (part_in (get_or result.1.items s None)) }
    ensures fit { (s : ℕ) → IsOfShard s (get_or result.0.items s None) × IsOfShard s (get_or result.1.items s None) }
{
    for shard in 0..locks.len() {
        let (left, right) = cut(&locks[shard], parts[shard].take());
        parts[shard] = left;
        others[shard] = right;
    }
    (parts, others)
}

/// Puts the seats of each lock together.
pub(crate) fn join_all(
    locks: &[TicketLock<Course>],
    mut parts: Vec<Option<LockSeat<Course>>>,
    mut others: Vec<Option<LockSeat<Course>>>,
) -> Vec<Option<LockSeat<Course>>>
    requires long { (length parts.items ≡ length locks.now) × (length others.items ≡ length locks.now) }
    requires left { (s : ℕ) → s < length locks.now
        → (part_in (get_or parts.items s None)).name ≡ name_at (slice_get locks.now s) }
    requires right { (s : ℕ) → s < length locks.now
        → (part_in (get_or others.items s None)).name ≡ name_at (slice_get locks.now s) }
    requires fit { (s : ℕ) → IsOfShard s (get_or parts.items s None) × IsOfShard s (get_or others.items s None) }
    ensures long { length result.items ≡ length locks.now }
    ensures joined { (s : ℕ) → s < length locks.now
        → IsJoined (part_in (get_or parts.items s None)) (part_in (get_or others.items s None)) (part_in (get_or result.items s None)) }
    ensures fit { (s : ℕ) → IsOfShard s (get_or result.items s None) }
{
    for shard in 0..locks.len() {
        parts[shard] = together(&locks[shard], parts[shard].take(), others[shard].take());
    }
    parts
}

/// Closes each lock with its seat, the last first, and puts its history in its place.
pub(crate) fn close_all(
    mut locks: Vec<TicketLock<Course>>,
    mut parts: Vec<Option<LockSeat<Course>>>,
    mut shards: Vec<ListOf<ReplayEntry>>,
) -> Vec<ListOf<ReplayEntry>>
    requires fits { (length locks.items ≤ length parts.items) × (length locks.items ≤ length shards.items) }
    requires of { (s : ℕ) → s < length locks.items
        → (part_in (get_or parts.items s None)).name ≡ name_at (slice_get locks.items s) }
    requires whole { (s : ℕ) → s < length locks.items → (part_in (get_or parts.items s None)).share ≡ 4294967296 }
    ensures long { length result.items ≡ length shards.items }
    ensures each { (s : ℕ) → s < length locks.items
        → IsClosed (part_in (get_or parts.items s None)) (get_or result.items s []) }
{
    let count = locks.len();
    for _closed in 0..count {
        let Some(lock) = locks.pop() else {
            unreachable!()
        };
        let shard = locks.len();
        shards[shard] = close_one(lock, parts[shard].take());
    }
    locks.destroy_empty();
    shards
}

/// Cuts one share off a seat.
fn cut(
    lock: &TicketLock<Course>,
    part: Option<LockSeat<Course>>,
) -> (Option<LockSeat<Course>>, Option<LockSeat<Course>>)
    requires of { (part_in part).name ≡ Some (name_of lock.now) }
    requires share { 2 ≤ (part_in part).share }
    ensures cut { IsCut (part_in part) (part_in result.0) (part_in result.1) }
    ensures fit { (s : ℕ) → IsOfShard s part → IsOfShard s result.0 × IsOfShard s result.1 }
{
    let Some(seat) = part else { unreachable!() };
    let (left, right) = lock.split(seat);
    (Some(left), Some(right))
}

/// Puts two seats of a lock together.
fn together(
    lock: &TicketLock<Course>,
    left: Option<LockSeat<Course>>,
    right: Option<LockSeat<Course>>,
) -> Option<LockSeat<Course>>
    requires left { (part_in left).name ≡ Some (name_of lock.now) }
    requires right { (part_in right).name ≡ Some (name_of lock.now) }
    requires fit { (s : ℕ) × IsOfShard s left × IsOfShard s right }
    ensures joined { IsJoined (part_in left) (part_in right) (part_in result) }
    ensures fit { (s : ℕ) → IsOfShard s left → IsOfShard s right → IsOfShard s result }
{
    let Some(left) = left else { unreachable!() };
    let Some(right) = right else { unreachable!() };
    Some(lock.join(left, right))
}

/// Closes a lock with its seat, and gives the history.
fn close_one(lock: TicketLock<Course>, part: Option<LockSeat<Course>>) -> ListOf<ReplayEntry>
    requires of { (part_in part).name ≡ Some (name_of lock) }
    requires whole { (part_in part).share ≡ 4294967296 }
    ensures { IsClosed (part_in part) result }
{
    let Some(seat) = part else { unreachable!() };
    lock.close(seat).finish()
}

/// Makes a step under the shard's lock.
fn judge_inside(
    inside: &mut Inside<'_, Course>,
    place: Place,
    key: u32,
    id: u32,
    at: u32,
) -> Result<Verdict, Memory>
    requires { IsResting inside.old }
    ensures ok { IfOk result (λ v. IsJudgedIn inside.old inside.new place key id at v) }
    ensures err { OnErr result (IsUnjudged inside.old inside.new) }
{
    let verdict = inside.kept().step(place, key, id, at)?;
    inside.append();
    Ok(verdict)
}

/// Takes the shard's lock, makes a step, and leaves.
pub(crate) fn judge_once<R: Wait>(
    rt: &R,
    lock: &TicketLock<Course>,
    part: Option<LockSeat<Course>>,
    place: Place,
    key: u32,
    id: u32,
    at: u32,
) -> (Option<LockSeat<Course>>, Result<Verdict, Memory>)
    requires of { (part_in part).name ≡ Some (name_of lock.now) }
    requires fit { (s : ℕ) × IsOfShard s part }
    ensures ok { IfOk result.1 (λ v. IsStepped (part_in part) (part_in result.0) place key id at v) }
    ensures err { OnErr result.1 (HasLooked (part_in part) (part_in result.0)) }
    ensures fit { (s : ℕ) → key % shard_count ≡ s → IsOfShard s part → IsOfShard s result.0 }
{
    let Some(seat) = part else { unreachable!() };
    let mut inside = lock.enter(rt, seat);
    let verdict = judge_inside(&mut inside, place, key, id, at);
    (Some(inside.leave()), verdict)
}
