//! That each call does what its contract says, once on its way with one thread.
ghost use Rattle.std.specs.Prelude.{◌≡◌, [], MatchBool};
ghost use Rattle.ov_turn.specs.Seats.{IsSeatOf, cells_of, share_of, holds_of};

use crate::{Held, get, give_back, link, unlink};
use ov_model::Given;
use ov_turn::{Kept, LockSeat, TicketLock};
use std::sync::Wait;
use std::test::Fail;

/// The cell of the door.
const CELL: u32 = 0;

/// A door that is opened once and shut once. While it is open, its cell may be held anew.
#[derive(Clone, Copy, Debug, PartialEq, Eq)]
enum Door {
    Unopened,
    Open,
    Shut,
}

impl Door {
    /// Opens the door, and says whether it did.
    fn open(&mut self) -> bool
        ensures from { MatchBool result (self.old ≡ Door.Unopened) (self.new ≡ self.old) }
        ensures to { MatchBool result (self.new ≡ Door.Open) (self.new ≡ self.old) }
    {
        let opens = *self == Door::Unopened;
        if opens {
            *self = Door::Open;
        }
        opens
    }

    /// Shuts the door, and says whether it did.
    fn shut(&mut self) -> bool
        ensures from { MatchBool result (self.old ≡ Door.Open) (self.new ≡ self.old) }
        ensures to { MatchBool result (self.new ≡ Door.Shut) (self.new ≡ self.old) }
    {
        let shuts = *self == Door::Open;
        if shuts {
            *self = Door::Shut;
        }
        shuts
    }
}

impl Kept for Door {
    /// Whether it was opened: else it was shut.
    type Item = bool;

    ghost use Rattle.std.specs.Prelude.{true, false, [], ◌∷◌};
    ghost use Rattle.ov_hold.specs.declared.tests.Door.TheVariants.{Unopened, Open, Shut};

    ghost history = { λ d. elim d [ Unopened ↦ [] | Open ↦ true ∷ [] | Shut ↦ true ∷ false ∷ [] ] };

    ghost live = { λ d. elim d [ Unopened ↦ [] | Open ↦ 0 ∷ [] | Shut ↦ [] ] };

    ghost dying = { λ d. elim d [ Unopened ↦ [] | Open ↦ [] | Shut ↦ 0 ∷ [] ] };

    fn length(&self) -> u64 {
        match self {
            Door::Unopened => 0,
            Door::Open => 1,
            Door::Shut => 2,
        }
    }
}

/// Opens the door, links its cell and gets a hold on it.
fn open<R: Wait>(
    rt: &R,
    lock: &TicketLock<Door>,
    seat: LockSeat<Door>,
    held: &mut Held,
) -> LockSeat<Door>
    requires seat { IsSeatOf lock.now seat }
    requires cells { cells_of lock.now ≡ 1 }
    requires none { (holds_of seat ≡ []) × (held.old ≡ []) }
    ensures lock { IsSeatOf lock.entry.now result }
    ensures share { share_of result ≡ share_of seat }
    ensures holds { holds_of result ≡ held.new }
{
    let mut inside = lock.enter(rt, seat);
    if !inside.kept().open() {
        return inside.leave();
    }
    inside.append();
    link(&mut inside, CELL);
    get(&mut inside, held, CELL);
    inside.leave()
}

/// Shuts the door and unlinks its cell. The answer is also what `unlink` said, or `Last` where the
/// door wasn't open.
fn shut<R: Wait>(rt: &R, lock: &TicketLock<Door>, seat: LockSeat<Door>) -> (LockSeat<Door>, Given)
    requires seat { IsSeatOf lock.now seat }
    ensures lock { IsSeatOf lock.entry.now result.0 }
    ensures share { share_of result.0 ≡ share_of seat }
    ensures holds { holds_of result.0 ≡ holds_of seat }
{
    let mut inside = lock.enter(rt, seat);
    if !inside.kept().shut() {
        return (inside.leave(), Given::Last);
    }
    inside.append();
    let unlinked = unlink(&mut inside, CELL);
    (inside.leave(), unlinked)
}

/// Gives the hold back. The answer is also what `give_back` said, or `More` where there was no
/// hold.
fn release(
    lock: &TicketLock<Door>,
    mut seat: LockSeat<Door>,
    held: &mut Held,
) -> (LockSeat<Door>, Given)
    requires seat { IsSeatOf lock.now seat }
    requires holds { holds_of seat ≡ held.old }
    ensures lock { IsSeatOf lock.entry.now result.0 }
    ensures share { share_of result.0 ≡ share_of seat }
{
    if !held.has(CELL) {
        return (seat, Given::More);
    }
    let given = give_back(lock, &mut seat, held, CELL);
    (seat, given)
}

#[test]
fn who_unlinks_has_more_and_who_gives_the_last_hold_back_is_told(
    rt: HostRuntime,
) -> Result<(), Fail> {
    let Ok((lock, seat)) = TicketLock::new(rt.alloc(), Door::Unopened, 1) else {
        return Err("there is memory for a lock".into());
    };
    let mut held = Held::new();
    let seat = open(&rt, &lock, seat, &mut held);
    let has = held.has(CELL);
    let (seat, unlinked) = shut(&rt, &lock, seat);
    let (seat, given) = release(&lock, seat, &mut held);
    let door = lock.close(seat);
    assert!(rt; has);
    assert_eq!(rt; unlinked, Given::More);
    assert_eq!(rt; given, Given::Last);
    assert_eq!(rt; door, Door::Shut);
    assert!(rt; !held.has(CELL) && !held.is_full());
    Ok(())
}
