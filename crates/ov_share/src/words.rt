//! The words that all lanes share, and the shares of them: made, cut, put together and ended.
ghost use Rattle.std.specs.Prelude.{◌≡◌, ℕ, ◌≤◌, ◌<◌, IfOk, Some};
ghost use Rattle.ov_base.specs.Sums.{count_of};
ghost use Rattle.ov_ticket.specs.Tickets.{HasSeen};
ghost use Rattle.ov_turn.specs.Seats.{IsSeatOf, holds_of, name_of_seat, seen_of, sight_of};
ghost use Rattle.ov_share.specs.Shares.{IsShareOf, IsFree, IsBlank, HasEnough, IsCutOff, IsBoth, OnlySaw, IsWholeShare, IsEnd};

use ov_base::{ListOf, Memory};
use ov_draw::laws::ended;
use ov_draw::{DrawSeat, Draws};
use ov_model::{Entry, Note, ReplayEntry};
use ov_replay::{DeskSeat, ReplayDesk};
use ov_table::{CELLS, Table};
use ov_turn::{LockSeat, TicketLock};
use std::alloc::Global;
use std::marker::Model;

/// One peer table behind a lock, the replay windows of all keys behind eight, and the send counters of all keys, for many
/// lanes, each with a share of its own. They have to be ended, with the share into which every other was put.
pub struct Words {
    pub(crate) lock: TicketLock<Table>,
    pub(crate) replays: ReplayDesk,
    pub(crate) draws: Draws,
}

impl Model for Words {
    ghost use Rattle.std.specs.Prelude.{◌≡◌};
    ghost use Rattle.ov_turn.specs.Seats.{name_of, cells_of};
    ghost use Rattle.ov_share.specs.Shares.{Common};

    ghost Value = { Common };

    ghost view = { λ w. record { name = name_of w.lock; shards = w.replays; counters = w.draws } };

    ghost invariant = { λ w. cells_of w.lock ≡ 69632 };
}

/// A lane's share: the right to make steps at the words, on one thread at a time. It knows what it has seen of the table's
/// history and of each shard's, which steps are its own, what it holds and owes, and what it has drawn.
#[derive(Drop)]
pub struct Share {
    // It is out only while a step has it.
    pub(crate) seat: Option<LockSeat<Table>>,
    pub(crate) parts: DeskSeat,
    pub(crate) drawer: DrawSeat,
}

impl Model for Share {
    ghost use Rattle.ov_share.specs.Inner.{name_in, sight_in, IsThere};
    ghost use Rattle.ov_share.specs.Shares.{Sharing};

    ghost Value = { Sharing };

    ghost view = { λ s. record { name = name_in s.seat; sight = sight_in s.seat; parts = s.parts; drawer = s.drawer } };

    ghost invariant = { λ s. IsThere s.seat };
}

/// What the words end with.
#[derive(Debug, Drop)]
pub struct Ending {
    /// Every step of the table, in the order of the history.
    pub journal: ListOf<Entry>,
    /// The notifications of the steps, each with its entry's number from 0.
    pub notes: ListOf<Note>,
    /// The replay steps of each of the eight shards, in the order of its history.
    pub shards: ListOf<ListOf<ReplayEntry>>,
}

impl Words {
    /// A table without peers, windows of no key, counters that begin at `first`, and the share that has all of them. `Err`
    /// is want of memory.
    pub fn new(alloc: Global, first: u32) -> Result<(Words, Share), Memory>
        requires { 1 ≤ first }
        ensures of { IfOk result (λ r. IsShareOf r.0 r.1) }
        ensures first { IfOk result (λ r. r.0.counters.first ≡ first) }
        ensures blank { IfOk result (λ r. IsBlank 4294967296 4294967296 4294967296 r.1) }
    {
        let (draws, drawer) = Draws::new(alloc, first)?;
        let (replays, parts) = ReplayDesk::new(alloc)?;
        match TicketLock::new(alloc, Table::new(alloc), CELLS) {
            Ok((lock, seat)) => Ok((
                Words {
                    lock,
                    replays,
                    draws,
                },
                share_of(seat, parts, drawer),
            )),
            // A desk of shards has to be closed.
            Err(_table) => {
                drop(replays.close(parts));
                Err(Memory)
            }
        }
    }

    /// Cuts a share off, which has seen what the first has, and has nothing else. `none` is the room for what it has of the
    /// replay shards.
    pub fn split(&self, share: Share, none: DeskSeat) -> (Share, Share)
        requires of { IsShareOf self.now share }
        requires enough { HasEnough share }
        ensures of { IsShareOf self.now result.0 × IsShareOf self.now result.1 }
        ensures cut { IsCutOff share result.0 result.1 }
    {
        let (seat, parts, drawer) = share.into_seats();
        let (seat, one) = self.lock.split(seat);
        let (seat, two) = self.lock.split(seat);
        let (parts, others) = self.replays.split(parts, none);
        let (drawer, other) = self.draws.split(drawer);
        (
            share_of(seat, parts, drawer),
            share_of(self.lock.join(one, two), others, other),
        )
    }

    /// Puts two shares together that hold and owe nothing.
    pub fn join(&self, left: Share, right: Share) -> Share
        requires left { IsShareOf self.now left }
        requires right { IsShareOf self.now right }
        requires free { IsFree left × IsFree right }
        ensures of { IsShareOf self.now result }
        ensures free { IsFree result }
        ensures both { IsBoth left right result }
    {
        let (seat, parts, drawer) = left.into_seats();
        let (other, others, second) = right.into_seats();
        share_of(
            self.lock.join(seat, other),
            self.replays.join(parts, others),
            self.draws.join(drawer, second),
        )
    }

    /// Hands each share what the other has seen of the table's history: then both have seen the longer of the two. It waits
    /// for nobody.
    pub fn meet(&self, one: &mut Share, other: &mut Share)
        requires one { IsShareOf self.now one.old }
        requires other { IsShareOf self.now other.old }
        requires shares { (2 ≤ one.old.sight.share) × (2 ≤ other.old.sight.share) }
        requires once { (c : ℕ) → count_of c one.old.sight.holds ≤ 1 }
        requires also { (c : ℕ) → count_of c other.old.sight.holds ≤ 1 }
        ensures of { IsShareOf self.now one.new × IsShareOf self.now other.new }
        ensures one { OnlySaw one.old one.new }
        ensures other { OnlySaw other.old other.new }
        ensures same { one.new.sight.seen ≡ other.new.sight.seen }
    {
        let Some(first) = one.seat.take() else {
            unreachable!()
        };
        let Some(second) = other.seat.take() else {
            unreachable!()
        };
        let (first, second) = show_both(&self.lock, first, second);
        one.seat = Some(first);
        other.seat = Some(second);
    }

    /// Ends the words, with the one share that is left, and gives the histories.
    pub fn end(self, share: Share) -> Ending
        requires of { IsShareOf self share }
        requires whole { IsWholeShare share }
        requires free { IsFree share }
        ensures { IsEnd share result.journal result.notes result.shards }
    {
        let Words {
            lock,
            replays,
            draws,
        } = self;
        let (seat, parts, drawer) = share.into_seats();
        let _drawer = ended(draws, drawer);
        let shards = replays.close(parts);
        let (journal, notes) = lock.close(seat).finish();
        Ending {
            journal,
            notes,
            shards,
        }
    }
}

/// A share of its three seats.
fn share_of(seat: LockSeat<Table>, parts: DeskSeat, drawer: DrawSeat) -> Share
    ensures { result ≡ record { name = Some (name_of_seat seat); sight = sight_of seat; parts = parts; drawer = drawer } }
{
    Share {
        seat: Some(seat),
        parts,
        drawer,
    }
}

impl Share {
    /// Its three seats.
    fn into_seats(self) -> (LockSeat<Table>, DeskSeat, DrawSeat)
        ensures name { Some (name_of_seat result.0) ≡ self.name }
        ensures sight { sight_of result.0 ≡ self.sight }
        ensures parts { result.1 ≡ self.parts }
        ensures drawer { result.2 ≡ self.drawer }
    {
        let Share {
            seat,
            parts,
            drawer,
        } = self;
        let Some(seat) = seat else { unreachable!() };
        (seat, parts, drawer)
    }
}

/// Hands each seat what the other has seen, by a share that goes to and fro.
fn show_both(
    lock: &TicketLock<Table>,
    one: LockSeat<Table>,
    other: LockSeat<Table>,
) -> (LockSeat<Table>, LockSeat<Table>)
    requires of { IsSeatOf lock.now one × IsSeatOf lock.now other }
    requires share { (2 ≤ (sight_of one).share) × (2 ≤ (sight_of other).share) }
    requires once { (c : ℕ) → count_of c (holds_of one) ≤ 1 }
    requires also { (c : ℕ) → count_of c (holds_of other) ≤ 1 }
    ensures of { IsSeatOf lock.entry.now result.0 × IsSeatOf lock.entry.now result.1 }
    ensures one { HasSeen (sight_of one) (sight_of result.0) }
    ensures other { HasSeen (sight_of other) (sight_of result.1) }
    ensures same { seen_of result.0 ≡ seen_of result.1 }
{
    let (one, token) = lock.split(one);
    let other = lock.join(other, token);
    let (other, token) = lock.split(other);
    let one = lock.join(one, token);
    (one, other)
}
