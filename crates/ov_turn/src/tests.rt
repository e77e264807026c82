//! That each call does what its contract says, once on its way with one thread.
ghost use Rattle.std.specs.Prelude.{◌≡◌, [], ◌∷◌, ◌++◌, MatchBool};
ghost use Rattle.ov_turn.specs.Seats.{IsSeatOf, share_of, holds_of};

use crate::{Kept, LockSeat, TicketLock};
use ov_base::ListOf;
use std::marker::Model;
use std::sync::Wait;
use std::test::Fail;

/// Numbers in the order in which they were noted, which are their own history.
#[derive(Drop)]
struct Notes {
    numbers: ListOf<u32>,
}

impl Model for Notes {
    ghost use Rattle.std.specs.Prelude.{List, ℕ};

    ghost Value = { List ℕ };

    ghost view = { λ n. n.numbers };
}

impl Notes {
    /// Adds a number, where there is memory for it, and says whether there was.
    fn add(&mut self, number: u32) -> bool
        ensures { MatchBool result (self.new ≡ self.old ++ number ∷ []) (self.new ≡ self.old) }
    {
        self.numbers.push(number).is_ok()
    }
}

impl Kept for Notes {
    type Item = u32;

    ghost use Rattle.std.specs.Prelude.{[]};

    ghost history = { λ n. n };

    ghost live = { λ _. [] };

    ghost dying = { λ _. [] };

    fn length(&self) -> u64 {
        self.numbers.len() as u64
    }
}

/// Takes the lock, notes a number and leaves, and says whether there was memory for it.
fn note<R: Wait>(
    rt: &R,
    lock: &TicketLock<Notes>,
    seat: LockSeat<Notes>,
    number: u32,
) -> (LockSeat<Notes>, bool)
    requires { IsSeatOf lock.now seat }
    ensures lock { IsSeatOf lock.entry.now result.0 }
    ensures share { share_of result.0 ≡ share_of seat }
    ensures holds { holds_of result.0 ≡ holds_of seat }
{
    let mut inside = lock.enter(rt, seat);
    let noted = inside.kept().add(number);
    if noted {
        inside.append();
    }
    (inside.leave(), noted)
}

/// Takes the lock, counts the numbers and leaves.
fn count<R: Wait>(rt: &R, lock: &TicketLock<Notes>, seat: LockSeat<Notes>) -> (LockSeat<Notes>, u64)
    requires { IsSeatOf lock.now seat }
    ensures lock { IsSeatOf lock.entry.now result.0 }
    ensures share { share_of result.0 ≡ share_of seat }
    ensures holds { holds_of result.0 ≡ holds_of seat }
{
    let mut inside = lock.enter(rt, seat);
    let length = inside.kept().length();
    (inside.leave(), length)
}

#[test]
fn what_one_seat_appends_the_next_one_sees(rt: HostRuntime) -> Result<(), Fail> {
    let none = Notes {
        numbers: ListOf::new(rt.alloc()),
    };
    let Ok((lock, seat)) = TicketLock::new(rt.alloc(), none, 2) else {
        return Err("there is memory for a lock".into());
    };
    let (one, two) = lock.split(seat);
    let (one, noted) = note(&rt, &lock, one, 7);
    let (two, seen) = count(&rt, &lock, two);
    let seat = lock.join(one, two);
    let notes = lock.close(seat);
    assert!(rt; noted);
    assert_eq!(rt; seen, 1);
    assert_eq!(rt; notes.numbers.as_slice(), [7].as_slice());
    Ok(())
}
