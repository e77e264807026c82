//! Two threads append to the history behind one lock.
ghost use Rattle.std.specs.Prelude.{◌+◌, if◌then◌else◌, IfOk};
ghost use Rattle.ov_turn.specs.Seats.{share_of};
ghost use Rattle.ov_clients.specs.Entries.{HasAppended, AreBoth};

use crate::journal::{Entry, Journal};
use ov_base::{ListOf, Memory};
use ov_turn::{LockSeat, TicketLock};
use std::alloc::Global;
use std::sync::Wait;
use std::thread::{Threads, join};

/// Takes the lock, appends a thread's next entry and leaves. Where there is no memory it leaves the history as it is, and
/// says `false`.
fn append_one<R: Wait>(
    rt: &R,
    lock: &TicketLock<Journal>,
    seat: LockSeat<Journal>,
    thread: u32,
    number: u32,
) -> (LockSeat<Journal>, bool)
    requires { HasAppended lock.now (share_of seat) thread number seat }
    ensures { HasAppended lock.entry.now (share_of seat) thread (if result.1 then number + 1 else number) result.0 }
{
    let mut inside = lock.enter(rt, seat);
    let added = inside.kept().add(Entry { thread, number });
    if added {
        inside.append();
    }
    (inside.leave(), added)
}

/// Appends up to `count` entries of a thread, and says how many it has appended. It stops at the first for which there is no memory.
fn append_many<R: Wait>(
    rt: &R,
    lock: &TicketLock<Journal>,
    mut seat: LockSeat<Journal>,
    thread: u32,
    count: u32,
) -> (LockSeat<Journal>, u32)
    requires { HasAppended lock.now (share_of seat) thread 0 seat }
    ensures { HasAppended lock.entry.now (share_of seat) thread result.1 result.0 }
{
    for number in 0..count {
        let (next, added) = append_one(rt, lock, seat, thread, number);
        seat = next;
        if !added {
            return (seat, number);
        }
    }
    (seat, count)
}

/// Two threads append up to `count` entries each to one history. The answer is the history and how many each has appended:
/// all positions are theirs, and each thread's entries stand in it once, in order.
///
/// `Memory` says that memory ran out. No clause ties it to that, and none says that a thread appends as many as it is asked to.
pub fn append_on_two_threads<R: Threads + Wait + Sync>(
    rt: &R,
    alloc: Global,
    count: u32,
) -> Result<(ListOf<Entry>, u32, u32), Memory>
    ensures { IfOk result (λ r. AreBoth r.0 r.1 r.2) }
{
    let Ok((lock, seat)) = TicketLock::new(alloc, Journal::new(alloc), 0) else {
        return Err(Memory);
    };
    let (one, two) = lock.split(seat);
    let shared = &lock;
    let ((one, first), (two, second)) = join(
        rt,
        move || -> (LockSeat<Journal>, u32)
            requires { HasAppended shared.now (share_of one) 1 0 one }
            ensures { HasAppended shared.entry.now (share_of one) 1 result.1 result.0 }
        { append_many(rt, shared, one, 1, count) },
        move || -> (LockSeat<Journal>, u32)
            requires { HasAppended shared.now (share_of two) 2 0 two }
            ensures { HasAppended shared.entry.now (share_of two) 2 result.1 result.0 }
        { append_many(rt, shared, two, 2, count) },
    );
    let seat = lock.join(one, two);
    let journal = lock.close(seat);
    Ok((journal.into_entries(), first, second))
}
