//! Calls at the table, each under a ticket of its own.
ghost use Rattle.std.specs.Prelude.{◌≡◌, ◌<◌, [], IfOk, OnErr};
ghost use Rattle.std.specs.VecDeque.{deque_len};
ghost use Rattle.ov_turn.specs.Seats.{IsSeatOf, cells_of, holds_of, owes_of, seen_of, sight_of};
ghost use Rattle.ov_turn.specs.Insides.{IsIn};
ghost use Rattle.ov_ticket.specs.Within.{HasRoom};
ghost use Rattle.ov_model.specs.Runs.{last_table};
ghost use Rattle.ov_ticket.specs.Asks.{OwedFits, MayAsk, found_pair};
ghost use Rattle.ov_past.specs.Pasts.{event_of};
ghost use Rattle.ov_ticket.specs.Asked.{IsEntered};
ghost use Rattle.ov_ticket.specs.Tickets.{IsCalled, HasSeen, StepAt, ReleasedAt};

use crate::asked::make;
use crate::within::{release_one, serve};
use ov_base::Memory;
use ov_hold::Held;
use ov_keys::KeyPair;
use ov_model::{Call, Command, Owed, Place, Reply};
use ov_past::Happening;
use ov_table::Table;
use ov_turn::{Inside, LockSeat, TicketLock};
use std::collections::VecDeque;
use std::sync::Wait;

/// Takes the lock, makes a command and the releases that it leaves to the seat, and leaves.
pub fn serve_once<R: Wait>(
    rt: &R,
    lock: &TicketLock<Table>,
    seat: LockSeat<Table>,
    place: Place,
    at: u32,
    command: &Command,
    owed: &mut VecDeque<Owed>,
) -> (LockSeat<Table>, Result<Reply, Memory>)
    requires seat { IsSeatOf lock.now seat }
    requires cells { cells_of lock.now ≡ 69632 }
    requires free { owes_of seat ≡ [] }
    requires room { HasRoom owed.old }
    ensures lock { IsSeatOf lock.entry.now result.0 }
    ensures ok { IfOk result.1 (λ r. IsCalled (sight_of seat) (sight_of result.0) place at command.now r) }
    ensures err { OnErr result.1 (HasSeen (sight_of seat) (sight_of result.0)) }
    ensures room { HasRoom owed.new }
{
    let mut inside = lock.enter(rt, seat);
    let _told = inside.kept().journal();
    let reply = serve(&mut inside, place, at, command, owed);
    (inside.leave(), reply)
}

/// Enters, and knows of the table that it is the last one of the history.
fn enter<'a, R: Wait>(
    rt: &R,
    lock: &'a TicketLock<Table>,
    seat: LockSeat<Table>,
) -> Inside<'a, Table>
    requires seat { IsSeatOf lock.now seat }
    requires cells { cells_of lock.now ≡ 69632 }
    ensures lock { IsIn lock.entry.now result }
    ensures entered { IsEntered (sight_of seat) result }
{
    let mut inside = lock.enter(rt, seat);
    let _told = inside.kept().journal();
    inside
}

/// Takes the lock, makes one step of the table, any but a release, and leaves. A look-up takes the holds on what it found,
/// which go into `held`. What the step took out and nobody holds is listed in `owed`, the keys before the peers, each kind
/// in its order: the seat owes its release. A key that is spent is held by the seat, so it is owed only once it is given
/// back. The two directions of a key that a look-up found are copied into `pair`, under the same ticket. The step is also told
/// as an event. `Err` is want of memory: then nothing was made, though more may have been seen.
pub fn step_once<R: Wait>(
    rt: &R,
    lock: &TicketLock<Table>,
    seat: LockSeat<Table>,
    place: Place,
    call: &Call,
    held: &mut Held,
    owed: &mut VecDeque<Owed>,
    pair: &mut Option<KeyPair>,
) -> (LockSeat<Table>, Result<(Reply, Happening), Memory>)
    requires seat { IsSeatOf lock.now seat }
    requires cells { cells_of lock.now ≡ 69632 }
    requires asks { MayAsk (holds_of seat) (owes_of seat) call.now.act }
    requires held { held.old ≡ holds_of seat }
    requires owed { OwedFits owed.old (owes_of seat) }
    ensures lock { IsSeatOf lock.entry.now result.0 }
    ensures ok { IfOk result.1 (λ r.
        StepAt (sight_of seat) (sight_of result.0) place call.now r.0 (event_of r.1) owed.old.items
        owed.new.items) }
    ensures err { OnErr result.1 (HasSeen (sight_of seat) (sight_of result.0)) }
    ensures kept { OnErr result.1 (owed.new.items ≡ owed.old.items) }
    ensures held { held.new ≡ holds_of result.0 }
    ensures owed { OwedFits owed.new (owes_of result.0) }
    ensures pair { IfOk result.1 (λ r.
        pair.new ≡ found_pair (last_table (seen_of result.0)) r.0 pair.old) }
    ensures kept_pair { OnErr result.1 (pair.new ≡ pair.old) }
{
    let mut inside = enter(rt, lock, seat);
    let reply = make(&mut inside, place, call, held, owed, pair);
    (inside.leave(), reply)
}

/// Takes the lock, makes the release that is listed first, and leaves. It is also told as an event.
pub fn release_once<R: Wait>(
    rt: &R,
    lock: &TicketLock<Table>,
    seat: LockSeat<Table>,
    place: Place,
    at: u32,
    owed: &mut VecDeque<Owed>,
) -> (LockSeat<Table>, Happening)
    requires seat { IsSeatOf lock.now seat }
    requires cells { cells_of lock.now ≡ 69632 }
    requires owed { OwedFits owed.old (owes_of seat) }
    requires some { 0 < deque_len owed.old }
    ensures lock { IsSeatOf lock.entry.now result.0 }
    ensures released { ReleasedAt (sight_of seat) (sight_of result.0) place at (event_of result.1)
        owed.old.items owed.new.items }
    ensures owed { OwedFits owed.new (owes_of result.0) }
{
    let Some(first) = owed.pop_front() else {
        unreachable!()
    };
    let mut inside = enter(rt, lock, seat);
    let event = release_one(&mut inside, place, at, first);
    (inside.leave(), event)
}
