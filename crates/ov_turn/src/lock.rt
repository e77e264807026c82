//! The lock and its seats: made, cut, put together and closed.
ghost use Rattle.std.specs.Prelude.{◌≡◌, ◌+◌, ◌<◌, true, false, [], ◌∷◌, vec_len};
ghost use Rattle.ov_turn.specs.Views.{holds_fit};

use crate::kept::Kept;
use crate::view::{CELLS, Cut, Glue, LENGTH, Meet, TurnRule, View};
use atomic_table::{Refused, Seat, Table};
use std::alloc::{AllocFailed, Global};

/// A lock that seats take in the order of their tickets, with a kept value and with cells.
/// It has to be closed, which gives the kept value back.
pub struct TicketLock<S: Kept> {
    pub(crate) table: Table<S, View<S::Item>, u64, TurnRule, Global>,
    ghost sized: { (table.shared.table_id.words ≡ 3 + table.shared.key) × (table.shared.table_id.slots ≡ 1) },
}

/// The right to take part in a `TicketLock`, outside it: a token of no bytes, which knows what it has
/// seen and done.
#[derive(Drop)]
pub struct LockSeat<S: Kept> {
    pub(crate) seat: Seat<S, View<S::Item>>,
    ghost idle: { (seat.me.1 ≡ []) × (seat.me.0.queued ≡ false) × (seat.me.0.inside ≡ false) × (0 < seat.me.0.share) },
    ghost fit: { (holds_fit seat.me.0 ≡ true) × (3 + seat.me.0.cells ≡ seat.table_id.words) },
}

impl<S: Kept> TicketLock<S> {
    ghost use Rattle.std.specs.Prelude.{◌≡◌, ℕ, ◌+◌, ◌-◌, ◌<◌, ◌≤◌, ◌⊎◌, [], ◌++◌, IfOk, IfErr};
    ghost use mathlib.Core.List.{IsPrefix};
    ghost use Rattle.ov_base.specs.Sums.{count_of};
    ghost use Rattle.ov_turn.specs.Lists.{has, IsWhole};
    ghost use Rattle.ov_turn.specs.Seats.{cells_of, IsSeatOf, IsNew, share_of, seen_of, own_of, holds_of, owes_of};

    /// A lock round `kept`, with `cells` cells at 0, and the seat that has the whole share of
    /// 4294967296. A refusal gives `kept` back: it is for want of memory, which no clause ties to a cause.
    pub fn new(alloc: Global, kept: S, cells: u32) -> Result<(TicketLock<S>, LockSeat<S>), S>
        requires empty { S.history kept ≡ [] }
        requires live { S.live kept ≡ [] }
        requires dying { S.dying kept ≡ [] }
        ensures lock { IfOk result (λ r. IsSeatOf r.0 r.1 × (cells_of r.0 ≡ cells)) }
        ensures seat { IfOk result (λ r. IsNew r.1) }
        ensures back { IfErr result (λ given. given ≡ kept) }
    {
        let count = u64::from(cells);
        let Ok(words) = Vec::from_elem(alloc, 0, CELLS + cells as usize) else {
            return Err(kept);
        };
        let mut slots = Vec::new(alloc);
        if let Err(failed) = slots.push(kept) {
            let AllocFailed { value } = failed;
            slots.destroy_empty();
            return Err(value);
        }
        match Table::new(alloc, words.as_slice(), slots, &count) {
            Ok((table, seat)) => Ok((TicketLock { table }, LockSeat { seat })),
            Err(Refused { slots }) => Err(only(slots)),
        }
    }

    /// Cuts one share off. The second seat has seen what the first has, and has nothing else.
    pub fn split(&self, seat: LockSeat<S>) -> (LockSeat<S>, LockSeat<S>)
        requires seat { IsSeatOf self.now seat }
        requires share { 2 ≤ share_of seat }
        ensures lock { IsSeatOf self.entry.now result.0 × IsSeatOf self.entry.now result.1 }
        ensures share { (share_of result.0 + 1 ≡ share_of seat) × (share_of result.1 ≡ 1) }
        ensures seen { (seen_of result.0 ≡ seen_of seat) × (seen_of result.1 ≡ seen_of seat) }
        ensures own { (own_of result.0 ≡ own_of seat) × (own_of result.1 ≡ []) }
        ensures holds { (holds_of result.0 ≡ holds_of seat) × (holds_of result.1 ≡ []) }
        ensures owes { (owes_of result.0 ≡ owes_of seat) × (owes_of result.1 ≡ []) }
    {
        let LockSeat { mut seat } = seat;
        let second = self.table.shared.split_seat::<Cut>(&mut seat);
        (LockSeat { seat }, LockSeat { seat: second })
    }

    /// Puts two seats together. What each had seen begins the longer of the two, which is what the
    /// one seat has seen then. No cell is owed by both.
    pub fn join(&self, left: LockSeat<S>, right: LockSeat<S>) -> LockSeat<S>
        requires left { IsSeatOf self.now left }
        requires right { IsSeatOf self.now right }
        requires apart { (c : ℕ) → count_of c (holds_of left) + count_of c (holds_of right) ≤ 1 }
        ensures lock { IsSeatOf self.entry.now result }
        ensures share { share_of result ≡ share_of left + share_of right }
        ensures seen { IsPrefix (seen_of left) (seen_of result) × IsPrefix (seen_of right) (seen_of result) }
        ensures longer { (seen_of result ≡ seen_of left) ⊎ (seen_of result ≡ seen_of right) }
        ensures own { own_of result ≡ own_of left ++ own_of right }
        ensures holds { holds_of result ≡ holds_of left ++ holds_of right }
        ensures owes { owes_of result ≡ owes_of left ++ owes_of right }
        ensures once { (c : ℕ) → count_of c (owes_of result) ≤ 1 }
    {
        let LockSeat { mut seat } = left;
        let LockSeat { seat: other } = right;
        let shared = &self.table.shared;
        shared.join_seat::<Glue>(&mut seat, other);
        shared.load::<Meet>(&mut seat, LENGTH);
        LockSeat { seat }
    }

    /// Ends the lock, with the seat into which every other seat was joined, and gives the kept
    /// value back.
    pub fn close(self, seat: LockSeat<S>) -> S
        requires seat { IsSeatOf self seat }
        requires whole { share_of seat ≡ 4294967296 }
        ensures seen { IsPrefix (seen_of seat) (S.history result) }
        ensures own { IsWhole (S.history result) (own_of seat) }
        ensures cells { (c : ℕ) → has c (S.dying result) ≡ 1 → 0 < count_of c (holds_of seat) + count_of c (owes_of seat) }
    {
        let TicketLock { table } = self;
        let LockSeat { seat } = seat;
        let mut closed = table.close_with(seat);
        let kept = closed.take(0);
        closed.free();
        kept
    }
}

// The value of a list of one.
fn only<S>(mut slots: Vec<S>) -> S
    requires { vec_len slots ≡ 1 }
    ensures { slots.items ≡ result ∷ [] }
{
    let Some(kept) = slots.pop() else {
        unreachable!()
    };
    slots.destroy_empty();
    kept
}
