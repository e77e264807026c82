//! Two threads hold one thing and give it back.
ghost use Rattle.std.specs.Prelude.{◌≡◌, [], IfOk, IfSome};
ghost use Rattle.ov_turn.specs.Lists.{without};
ghost use Rattle.ov_turn.specs.Seats.{IsSeatOf, share_of, holds_of, owes_of};
ghost use Rattle.ov_hold.specs.Holds.{Owes};
ghost use Rattle.ov_clients.specs.Stages.{Keeps, IsOneLast};

use crate::stage::Stage;
use ov_base::Memory;
use ov_hold::{Held, get, give_back, link, unlink};
use ov_model::Given;
use ov_turn::{LockSeat, TicketLock};
use std::alloc::Global;
use std::sync::Wait;
use std::thread::{Threads, join};

/// The cell of the thing.
const CELL: u32 = 0;

/// Makes the thing and links its cell, where it isn't there yet.
fn make<R: Wait>(rt: &R, lock: &TicketLock<Stage>, seat: LockSeat<Stage>) -> LockSeat<Stage>
    requires { Keeps lock.now seat [] }
    ensures keeps { Keeps lock.entry.now result [] }
    ensures share { share_of result ≡ share_of seat }
{
    let mut inside = lock.enter(rt, seat);
    if !inside.kept().make() {
        return inside.leave();
    }
    inside.append();
    link(&mut inside, CELL);
    inside.leave()
}

/// Gets a hold on the thing, where it is live.
fn hold<R: Wait>(
    rt: &R,
    lock: &TicketLock<Stage>,
    seat: LockSeat<Stage>,
    held: &mut Held,
) -> LockSeat<Stage>
    requires keeps { Keeps lock.now seat held.old }
    requires none { held.old ≡ [] }
    ensures keeps { Keeps lock.entry.now result held.new }
    ensures share { share_of result ≡ share_of seat }
{
    let mut inside = lock.enter(rt, seat);
    if !inside.kept().is_live() {
        return inside.leave();
    }
    get(&mut inside, held, CELL);
    inside.leave()
}

/// Ends the thing and unlinks its cell, where the seat holds it.
fn end<R: Wait>(
    rt: &R,
    lock: &TicketLock<Stage>,
    seat: LockSeat<Stage>,
    held: &Held,
) -> LockSeat<Stage>
    requires { Keeps lock.now seat held.now }
    ensures keeps { Keeps lock.entry.now result held.entry.now }
    ensures share { share_of result ≡ share_of seat }
{
    if !held.has(CELL) {
        return seat;
    }
    let mut inside = lock.enter(rt, seat);
    if !inside.kept().end() {
        return inside.leave();
    }
    inside.append();
    unlink(&mut inside, CELL);
    inside.leave()
}

/// Gives the hold back, where the seat has one. It waits for nobody.
fn release(
    lock: &TicketLock<Stage>,
    mut seat: LockSeat<Stage>,
    mut held: Held,
) -> (LockSeat<Stage>, Given)
    requires { Keeps lock.now seat held }
    ensures lock { IsSeatOf lock.entry.now result.0 }
    ensures share { share_of result.0 ≡ share_of seat }
    ensures holds { holds_of result.0 ≡ without 0 held }
    ensures owes { Owes result.1 0 [] (owes_of result.0) }
{
    if !held.has(CELL) {
        return (seat, Given::More);
    }
    let given = give_back(lock, &mut seat, &mut held, CELL);
    (seat, given)
}

/// Two threads hold one thing, which comes to its end meanwhile, and give it back. Exactly one of
/// them is told that it was the last. `None` where the thing hasn't come to its end: where two
/// threads couldn't hold it.
///
/// `Memory` says that memory ran out. No clause ties it to that, and none says when `None` comes: a test shows that the thing
/// comes to its end.
pub fn hold_on_two_threads<R: Threads + Wait + Sync>(
    rt: &R,
    alloc: Global,
) -> Result<Option<(Given, Given)>, Memory>
    ensures { IfOk result (λ r. IfSome r (λ told. IsOneLast told.0 told.1)) }
{
    let Ok((lock, seat)) = TicketLock::new(alloc, Stage::Unmade, 1) else {
        return Err(Memory);
    };
    let (one, two) = lock.split(seat);
    let mut first = Held::new();
    let mut second = Held::new();
    let one = make(rt, &lock, one);
    let one = hold(rt, &lock, one, &mut first);
    let two = hold(rt, &lock, two, &mut second);
    let one = end(rt, &lock, one, &first);
    let shared = &lock;
    let ((one, told), (two, also)) = join(
        rt,
        move || -> (LockSeat<Stage>, Given)
            requires { Keeps shared.now one first }
            ensures lock { IsSeatOf shared.entry.now result.0 }
            ensures share { share_of result.0 ≡ share_of one }
            ensures holds { holds_of result.0 ≡ without 0 first }
            ensures owes { Owes result.1 0 [] (owes_of result.0) }
        { release(shared, one, first) },
        move || -> (LockSeat<Stage>, Given)
            requires { Keeps shared.now two second }
            ensures lock { IsSeatOf shared.entry.now result.0 }
            ensures share { share_of result.0 ≡ share_of two }
            ensures holds { holds_of result.0 ≡ without 0 second }
            ensures owes { Owes result.1 0 [] (owes_of result.0) }
        { release(shared, two, second) },
    );
    let seat = lock.join(one, two);
    match lock.close(seat) {
        Stage::Dying => Ok(Some((told, also))),
        Stage::Unmade => Ok(None),
        Stage::Live => Ok(None),
    }
}
