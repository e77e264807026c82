//! The world of all lanes: the peer table, the eight replay shards, the send counters, and a seat for each
//! lane. To the lane that has its turn it is the desk. It is kept true that what is held is there, that what
//! is on its way out and held by nobody is owed by exactly one lane, and that each line has the room for what it
//! may come to owe.

ghost use Rattle.std.specs.Prelude.{◌≡◌, ◌<◌, ◌≤◌, ◌+◌, [], length, map, get_or, IfOk, OnOk, IsSome, IsTrue, slice_get};
ghost use Rattle.std.specs.List.{AllByRecursion, list_any};
ghost use Rattle.ov_model.specs.declared.hold.Owed.TheVariants as owed;
ghost use Rattle.ov_model.specs.Path.{removed};
ghost use Rattle.ov_model.specs.Replay.{ShardJudges};
ghost use Rattle.ov_past.specs.Pasts.{gave};
ghost use Rattle.ov_core.specs.Seats.{Seated, Kept, GivesBack, Happened, shown_of, new_seated, histories};
ghost use Rattle.ov_core.specs.Seats as spec;
ghost use Rattle.ov_path.specs.Desks.{NoHold, Did};

use crate::counters::{count_key, drawn, following};
use crate::seat::Seat;
use ov_base::{Addr, ListOf, Memory};
use ov_keys::KeyPair;
use ov_model::{
    Act, Call, Command, Drawn, Entry, Given, Note, Owed, Place, ReplayEntry, Reply, Route, Verdict,
    via_of,
};
use ov_past::{Happening, Judged};
use ov_path::Desk;
use ov_replay::Shard;
use ov_table::Table;
use std::alloc::Global;
use std::marker::Model;

/// The number of replay shards: a key's is its serial modulo this.
const SHARDS: u32 = 8;

/// What a line may come to owe for a peer: two keys and the peer.
const MOST_OWED: usize = 3;

/// The number of lanes.
pub const LANES: u32 = 64;

/// The world, as it stands at some lane's turn.
#[derive(Drop)]
pub struct World {
    table: Table,
    shards: Vec<Shard>,
    // Where each counter begins.
    first: u32,
    // For each key by its serial what its counter gives next.
    next: Vec<u64>,
    seats: Vec<Seat>,
    // The lane that has its turn.
    turn: usize,
    // The routes of the script.
    routes: ListOf<Route>,
}

impl Model for World {
    ghost use Rattle.ov_core.specs.Seats.{Seated, Kept};

    ghost Value = { Seated };

    ghost view = { λ d. record {
      table = d.table;
      shards = d.shards.items;
      first = d.first;
      next = d.next.items;
      seats = d.seats.items;
      turn = d.turn;
      routes = d.routes;
    } };

    ghost invariant = { λ d. Kept (record {
      table = d.table;
      shards = d.shards.items;
      first = d.first;
      next = d.next.items;
      seats = d.seats.items;
      turn = d.turn;
      routes = d.routes;
    }) };
}

impl World {
    /// The world before any turn, with the routes of its script. Send counters will begin at `first`.
    pub fn new(alloc: Global, first: u32, routes: ListOf<Route>) -> Result<World, Memory>
        ensures { IfOk result (λ d. d ≡ new_seated first routes) }
    {
        let shards = new_shards(alloc)?;
        let seats = new_seats(alloc)?;
        Ok(World {
            table: Table::new(alloc),
            shards,
            first,
            next: Vec::new(alloc),
            seats,
            turn: 0,
            routes,
        })
    }

    /// The next turn is a lane's.
    pub fn give_turn(&mut self, lane: usize)
        requires { lane < 64 }
        ensures { self.new ≡ record self.old { turn = lane } }
    {
        self.turn = lane;
    }

    /// The line of the lane that has its turn is over.
    pub fn end_line(&mut self)
        requires free { (spec.shown_of self.old).hold ≡ NoHold }
        requires owes { (spec.shown_of self.old).owing ≡ [] }
        ensures { self.new ≡ spec.after_line self.old }
    {
        self.seats[self.turn].clear();
    }

    /// Moves out the journal, the notes and the histories of the eight shards.
    pub fn finish(
        self,
        alloc: Global,
    ) -> Result<(ListOf<Entry>, ListOf<Note>, ListOf<ListOf<ReplayEntry>>), Memory>
        ensures journal { IfOk result (λ r. r.0 ≡ self.table.journal) }
        ensures notes { IfOk result (λ r. r.1 ≡ self.table.notes) }
        ensures shards { IfOk result (λ r. r.2 ≡ histories self.shards) }
    {
        let World { table, shards, .. } = self;
        let histories = finish_all(alloc, shards)?;
        let (journal, notes) = table.finish();
        Ok((journal, notes, histories))
    }
}

impl Desk for World {
    ghost use Rattle.std.specs.Prelude.{⊤};
    ghost use Rattle.ov_core.specs.Seats.{shown_of, Happened};

    ghost view = { λ d. shown_of d };

    ghost does = { λ d event e. Happened d event e };

    ghost keeps = { λ d e. ⊤ };

    ghost keeps_itself = { λ d. tt };

    fn table(&mut self, place: Place, call: &Call) -> Result<Reply, Memory> {
        self.next.reserve(1)?;
        let room = room_of(&self.table, &call.act);
        self.seats[self.turn].begin(&call.act, room)?;
        let reply = self.table.step(place, call)?;
        count_key(&mut self.next, self.first, &call.act, &reply);
        owe_taken(&mut self.seats, self.turn, self.table.taken());
        owe_removed(&mut self.seats, self.turn, removed_by(&reply));
        self.seats[self.turn].stepped(place, call, &reply, &self.table);
        Ok(reply)
    }

    fn pair(&self, key: u32) -> Option<&KeyPair> {
        self.table.pair(key)
    }

    fn replay(&mut self, place: Place, key: u32, id: u32, at: u32) -> Result<Verdict, Memory> {
        let shard = (key % SHARDS) as usize;
        let verdict = self.shards[shard].step(place, key, id, at)?;
        self.seats[self.turn].saw(Happening::Judged(Judged {
            place,
            key,
            id,
            at,
            verdict,
        }));
        Ok(verdict)
    }

    fn draw(&mut self, key: u32) -> Drawn {
        let next = self.next[key as usize];
        let result = drawn(next);
        self.next[key as usize] = following(next);
        self.seats[self.turn].saw(Happening::Drew(key, result));
        result
    }

    fn give_back_key(&mut self, key: u32) -> Given {
        self.let_go(Owed::Key(key))
    }

    fn give_back(&mut self, peer: u32) -> Given {
        self.let_go(Owed::Peer(peer))
    }

    fn owed(&self) -> Option<Owed> {
        self.seats[self.turn].owed()
    }

    fn release(&mut self, place: Place, at: u32, owed: Owed) {
        let call = release_call(at, owed);
        let Ok(reply) = self.table.step(place, &call) else {
            unreachable!();
        };
        self.seats[self.turn].released(place, &call, &reply, &self.table);
    }

    fn via(&self, addr: Addr) -> Addr {
        via_of(self.routes.as_slice(), addr)
    }
}

impl World {
    /// Gives back the key or the peer that the lane holds. Where nobody else holds it and it is on its way out,
    /// that was the last hold, and its release is owed.
    fn let_go(&mut self, owed: Owed) -> Given
        requires { GivesBack (shown_of self.old).hold owed }
        ensures { Did shown_of Happened self.old (gave owed result) self.new }
    {
        self.seats[self.turn].let_go(owed);
        let given = last_of(&self.table, self.seats.as_slice(), owed);
        self.seats[self.turn].gave(owed, given);
        given
    }

    /// What the world keeps true, for whoever runs lines in it.
    pub fn keeps(&self)
        ensures { Kept self.now }
    {
        let _ = &self.table;
    }
}

/// For how many releases a step takes room.
fn room_of(table: &Table, act: &Act) -> usize
    ensures { result ≡ spec.room_of table.now.now act.now }
{
    if removes_all(act) {
        MOST_OWED + MOST_OWED * table.live_count()
    } else {
        MOST_OWED
    }
}

/// Whether a step may remove all live peers.
fn removes_all(act: &Act) -> bool
    ensures { result ≡ spec.removes_all act.now }
{
    match act {
        Act::Do(Command::Tick) => true,
        Act::Do(Command::Down) => true,
        _ => false,
    }
}

/// Whether what was given back may be let go: it is on its way out and no lane holds it.
fn last_of(table: &Table, seats: &[Seat], owed: Owed) -> Given
    ensures { result ≡ spec.given_by table.now.now seats.now owed }
{
    if table.may(&release_call(0, owed)) && !is_held(seats, owed) {
        Given::Last
    } else {
        Given::More
    }
}

/// Whether a seat holds the peer or the key.
fn is_held(seats: &[Seat], owed: Owed) -> bool
    ensures { result ≡ spec.is_held seats.now owed }
{
    match owed {
        Owed::Peer(peer) => seats.iter().any(|seat| seat.holds_peer(peer)),
        Owed::Key(key) => seats.iter().any(|seat| seat.holds_key(key)),
    }
}

/// Owes a release where no seat holds what is to be let go.
fn owe(seats: &mut Vec<Seat>, turn: usize, owed: Owed)
    requires turn { turn < length seats.old.items }
    requires spare { 0 < (get_or seats.old.items turn spec.empty_seat).spare }
    ensures { seats.new.items ≡ spec.owe_one seats.old.items turn owed }
{
    if !is_held(seats.as_slice(), owed) {
        seats[turn].owe(owed);
    }
}

/// Owes the releases of the keys that a step took and that no seat holds.
fn owe_taken(seats: &mut Vec<Seat>, turn: usize, taken: &[u32])
    requires turn { turn < length seats.old.items }
    requires spare { length taken.now ≤ (get_or seats.old.items turn spec.empty_seat).spare }
    ensures { seats.new.items ≡ spec.owe_each seats.old.items turn (map owed.Key taken.now) }
{
    for key in taken {
        owe(seats, turn, Owed::Key(*key));
    }
}

/// Owes the releases of the peers that a step removed and that no seat holds.
fn owe_removed(seats: &mut Vec<Seat>, turn: usize, gone: &[u32])
    requires turn { turn < length seats.old.items }
    requires spare { length gone.now ≤ (get_or seats.old.items turn spec.empty_seat).spare }
    ensures { seats.new.items ≡ spec.owe_each seats.old.items turn (map owed.Peer gone.now) }
{
    for peer in gone {
        owe(seats, turn, Owed::Peer(*peer));
    }
}

/// The peers that a reply says were removed.
fn removed_by(reply: &Reply) -> &[u32]
    ensures { result.now ≡ removed reply.now }
{
    match reply {
        Reply::Removed(peers) => peers.as_slice(),
        Reply::Ticked { expired, .. } => expired.as_slice(),
        _ => &[],
    }
}

/// The call that makes a release.
fn release_call(at: u32, owed: Owed) -> Call
    ensures { result ≡ spec.release_call at owed }
{
    match owed {
        Owed::Peer(peer) => Call {
            at,
            act: Act::Released(peer),
        },
        Owed::Key(key) => Call {
            at,
            act: Act::KeyReleased(key),
        },
    }
}

/// The shards before any step.
fn new_shards(alloc: Global) -> Result<Vec<Shard>, Memory>
    ensures { IfOk result (λ shards. shards.items ≡ spec.new_shards) }
{
    let mut shards = Vec::new(alloc);
    for number in 0..SHARDS {
        shards.push(Shard::new(alloc, number))?;
    }
    Ok(shards)
}

/// The seats before any turn.
fn new_seats(alloc: Global) -> Result<Vec<Seat>, Memory>
    ensures { IfOk result (λ seats. seats.items ≡ spec.seats_to 64) }
{
    let mut seats = Vec::new(alloc);
    for _lane in 0..LANES {
        seats.push(Seat::new(alloc))?;
    }
    Ok(seats)
}

/// Closes the shards: their histories, in their order.
fn finish_all(alloc: Global, shards: Vec<Shard>) -> Result<ListOf<ListOf<ReplayEntry>>, Memory>
    ensures { IfOk result (λ histories. histories ≡ spec.histories shards.items) }
{
    let mut histories = Vec::new(alloc);
    for shard in shards {
        histories.push(shard.finish())?;
    }
    Ok(ListOf::of_vec(histories))
}
