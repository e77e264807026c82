//! A seat that is inside the lock: it alone has the kept value.
ghost use Rattle.std.specs.Prelude.{◌≡◌, ◌+◌, ◌<◌, true, length};
ghost use Rattle.atomic_table.specs.Table.{rest};
ghost use Rattle.ov_turn.specs.Views.{holds_fit, lists_fit};
ghost use Rattle.ov_turn.specs.Slots.{front};

use crate::kept::Kept;
use crate::lock::{LockSeat, TicketLock};
use crate::view::{Append, Enter, LENGTH, Leave, Queue, SERVING, TICKET, View};
use atomic_table::Seat;
use std::sync::Wait;
use std::thread;

/// A seat that has the kept value until it leaves.
pub struct Inside<'a, S: Kept> {
    pub(crate) lock: &'a TicketLock<S>,
    pub(crate) seat: Seat<S, View<S::Item>>,
    ghost here: { seat.table_id ≡ lock.now.table.shared.table_id },
    ghost slot: { (front seat.me.1 ≡ 0) × (length (rest seat.me.1) ≡ 0) },
    ghost place: { (seat.me.0.queued ≡ true) × (seat.me.0.inside ≡ true) × (0 < seat.me.0.share) },
    ghost fit: { (holds_fit seat.me.0 ≡ true) × (lists_fit seat.me.0 ≡ true) × (3 + seat.me.0.cells ≡ seat.table_id.words) },
}

impl<S: Kept> TicketLock<S> {
    ghost use Rattle.std.specs.Prelude.{◌≡◌, ℕ, ◌+◌, ◌<◌, ◌≤◌, []};
    ghost use mathlib.Core.List.{IsPrefix};
    ghost use Rattle.ov_base.specs.Sums.{count_of};
    ghost use Rattle.ov_turn.specs.Lists.{has};
    ghost use Rattle.ov_turn.specs.Seats.{IsSeatOf, share_of, seen_of, own_of, holds_of, owes_of, cells_of};
    ghost use Rattle.ov_turn.specs.Insides.{IsIn, kept_of, share_in, seen_in, own_in, holds_in, owes_in, live_in, dying_in, to_link_in, to_unlink_in, cells_in};

    /// Draws a ticket, and waits until it is served.
    pub fn enter<R: Wait>(&self, rt: &R, seat: LockSeat<S>) -> Inside<'_, S>
        requires seat { IsSeatOf self.now seat }
        ensures lock { IsIn self.entry.now result × (cells_in result ≡ cells_of self.entry.now) }
        ensures share { share_in result ≡ share_of seat }
        ensures seen { IsPrefix (seen_of seat) (seen_in result) }
        ensures kept { S.history (kept_of result) ≡ seen_in result }
        ensures lists { (S.live (kept_of result) ≡ live_in result) × (S.dying (kept_of result) ≡ dying_in result) }
        ensures linked { (to_link_in result ≡ []) × (to_unlink_in result ≡ []) }
        ensures own { own_in result ≡ own_of seat }
        ensures holds { holds_in result ≡ holds_of seat }
        ensures owes { owes_in result ≡ owes_of seat }
        ensures held { (c : ℕ) → 0 < count_of c (holds_of seat) → has c (live_in result) + has c (dying_in result) ≡ 1 }
        ensures owed { (c : ℕ) → 0 < count_of c (owes_of seat) → has c (dying_in result) ≡ 1 }
        ensures once { (c : ℕ) → count_of c (owes_of seat) ≤ 1 }
    {
        let LockSeat { mut seat } = seat;
        let shared = &self.table.shared;
        let ticket = shared.fetch_add::<Queue>(&mut seat, TICKET, 1);
        for _ in rt.forever() {
            if shared.load::<Enter>(&mut seat, SERVING) == ticket {
                return Inside { lock: self, seat };
            }
            thread::yield_now();
        }
        unreachable!()
    }
}

impl<S: Kept> Inside<'_, S> {
    ghost use Rattle.std.specs.Prelude.{◌≡◌, ℕ, ◌+◌, ◌<◌, [], ◌∷◌, ◌++◌, length};
    ghost use Rattle.ov_turn.specs.Lists.{newly, still};
    ghost use Rattle.ov_turn.specs.HoldRule.{MayBecome};
    ghost use Rattle.ov_turn.specs.Seats.{share_of, seen_of, own_of, holds_of, owes_of};
    ghost use Rattle.ov_turn.specs.Insides.{IsSame, IsBackFrom, kept_of, share_in, seen_in, own_in, holds_in, owes_in, live_in, dying_in, to_link_in, to_unlink_in, cells_in};

    /// Makes the one entry more that the kept value has since the last append, or since the seat
    /// entered, the seat's own.
    pub fn append(&mut self)
        requires linked { (to_link_in self.old ≡ []) × (to_unlink_in self.old ≡ []) }
        requires history { (x : S.Item) × (S.history (kept_of self.old) ≡ seen_in self.old ++ x ∷ []) }
        requires cells { MayBecome (cells_in self.old) (live_in self.old) (dying_in self.old) (owes_in self.old) (S.live (kept_of self.old)) (S.dying (kept_of self.old)) }
        ensures lock { IsSame self.old self.new }
        ensures kept { kept_of self.new ≡ kept_of self.old }
        ensures seen { seen_in self.new ≡ S.history (kept_of self.old) }
        ensures own { (x : S.Item) → S.history (kept_of self.old) ≡ seen_in self.old ++ x ∷ [] → own_in self.new ≡ own_in self.old ++ (length (seen_in self.old), x) ∷ [] }
        ensures lists { (live_in self.new ≡ S.live (kept_of self.old)) × (dying_in self.new ≡ S.dying (kept_of self.old)) }
        ensures link { to_link_in self.new ≡ newly (live_in self.old) (live_in self.new) }
        ensures unlink { to_unlink_in self.new ≡ newly (dying_in self.old) (dying_in self.new) }
        ensures holds { holds_in self.new ≡ holds_in self.old }
        ensures owes { owes_in self.new ≡ still (dying_in self.new) (owes_in self.old) }
    {
        let _length = self.kept().length();
        self.lock
            .table
            .shared
            .fetch_add::<Append>(&mut self.seat, LENGTH, 1);
    }

    /// Puts the kept value back, for the next ticket.
    pub fn leave(self) -> LockSeat<S>
        requires linked { (to_link_in self ≡ []) × (to_unlink_in self ≡ []) }
        requires history { S.history (kept_of self) ≡ seen_in self }
        requires lists { (S.live (kept_of self) ≡ live_in self) × (S.dying (kept_of self) ≡ dying_in self) }
        ensures lock { IsBackFrom self.entry result }
        ensures share { share_of result ≡ share_in self.entry }
        ensures seen { seen_of result ≡ seen_in self.entry }
        ensures own { own_of result ≡ own_in self.entry }
        ensures holds { holds_of result ≡ holds_in self.entry }
        ensures owes { owes_of result ≡ owes_in self.entry }
    {
        let Inside { lock, mut seat } = self;
        lock.table.shared.fetch_add::<Leave>(&mut seat, SERVING, 1);
        LockSeat { seat }
    }
}
