//! What a share's lane does at the words. Each call but those under `Wait` waits for nobody.
ghost use Rattle.std.specs.Prelude.{◌≡◌, ◌<◌, [], IfOk, OnErr};
ghost use Rattle.std.specs.VecDeque.{deque_len};
ghost use Rattle.ov_base.specs.Sums.{count_of};
ghost use Rattle.ov_hold.specs.Holds.{Owes};
ghost use Rattle.ov_model.specs.Runs.{last_table};
ghost use Rattle.ov_past.specs.Pasts.{event_of};
ghost use Rattle.ov_replay.specs.Desk.{HasStepped, HasNotStepped};
ghost use Rattle.ov_share.specs.Shares.{IsShareOf, HasDrawn};
ghost use Rattle.ov_ticket.specs.Asks.{OwedFits, MayAsk, found_pair};
ghost use Rattle.ov_ticket.specs.Tickets.{IsCalled, HasSeen, StepAt, ReleasedAt};
ghost use Rattle.ov_ticket.specs.Within.{HasRoom};
ghost use Rattle.ov_turn.specs.Lists.{has, without};

use crate::words::{Share, Words};
use ov_base::Memory;
use ov_hold::{Held, give_back};
use ov_keys::KeyPair;
use ov_model::{Call, Command, Drawn, Given, Owed, Place, Reply, Verdict};
use ov_past::Happening;
use ov_ticket::{release_once, serve_once, step_once};
use std::collections::VecDeque;
use std::sync::Wait;

impl Words {
    /// Makes a command and the releases that it leaves to the lane, all under one ticket. `Err` is want of memory: then
    /// nothing was made, though more may have been seen.
    pub fn serve<R: Wait>(
        &self,
        rt: &R,
        share: &mut Share,
        place: Place,
        at: u32,
        command: &Command,
        owed: &mut VecDeque<Owed>,
    ) -> Result<Reply, Memory>
        requires of { IsShareOf self.now share.old }
        requires free { share.old.sight.owes ≡ [] }
        requires room { HasRoom owed.old }
        ensures of { IsShareOf self.now share.new }
        ensures same { share.new ≡ record share.old { sight = share.new.sight } }
        ensures ok { IfOk result (λ r.
            IsCalled share.old.sight share.new.sight place at command.now r) }
        ensures err { OnErr result (HasSeen share.old.sight share.new.sight) }
        ensures room { HasRoom owed.new }
    {
        let Some(seat) = share.seat.take() else {
            unreachable!()
        };
        let (seat, reply) = serve_once(rt, &self.lock, seat, place, at, command, owed);
        share.seat = Some(seat);
        reply
    }

    /// Makes one step of the table, any but a release, under a ticket. What a look-up finds is held, and the two directions
    /// of its key are copied into `pair`. What a command leaves to the lane is listed in `owed`. The step is also told as an
    /// event. `Err` is want of memory:
    /// then nothing was made, though more may have been seen.
    pub fn step<R: Wait>(
        &self,
        rt: &R,
        share: &mut Share,
        place: Place,
        call: &Call,
        held: &mut Held,
        owed: &mut VecDeque<Owed>,
        pair: &mut Option<KeyPair>,
    ) -> Result<(Reply, Happening), Memory>
        requires of { IsShareOf self.now share.old }
        requires asks { MayAsk share.old.sight.holds share.old.sight.owes call.now.act }
        requires held { held.old ≡ share.old.sight.holds }
        requires owed { OwedFits owed.old share.old.sight.owes }
        ensures of { IsShareOf self.now share.new }
        ensures same { share.new ≡ record share.old { sight = share.new.sight } }
        ensures ok { IfOk result (λ r.
            StepAt share.old.sight share.new.sight place call.now r.0 (event_of r.1)
            owed.old.items owed.new.items) }
        ensures err { OnErr result (HasSeen share.old.sight share.new.sight) }
        ensures kept { OnErr result (owed.new.items ≡ owed.old.items) }
        ensures held { held.new ≡ share.new.sight.holds }
        ensures owed { OwedFits owed.new share.new.sight.owes }
        ensures pair { IfOk result (λ r.
            pair.new ≡ found_pair (last_table share.new.sight.seen) r.0 pair.old) }
        ensures kept_pair { OnErr result (pair.new ≡ pair.old) }
    {
        let Some(seat) = share.seat.take() else {
            unreachable!()
        };
        let (seat, made) = step_once(rt, &self.lock, seat, place, call, held, owed, pair);
        share.seat = Some(seat);
        made
    }

    /// Makes the release that is listed first, under a ticket. It is also told as an event.
    pub fn release<R: Wait>(
        &self,
        rt: &R,
        share: &mut Share,
        place: Place,
        at: u32,
        owed: &mut VecDeque<Owed>,
    ) -> Happening
        requires of { IsShareOf self.now share.old }
        requires owed { OwedFits owed.old share.old.sight.owes }
        requires some { 0 < deque_len owed.old }
        ensures of { IsShareOf self.now share.new }
        ensures same { share.new ≡ record share.old { sight = share.new.sight } }
        ensures released { ReleasedAt share.old.sight share.new.sight place at (event_of result)
            owed.old.items owed.new.items }
        ensures owed { OwedFits owed.new share.new.sight.owes }
    {
        let Some(seat) = share.seat.take() else {
            unreachable!()
        };
        let (seat, event) = release_once(rt, &self.lock, seat, place, at, owed);
        share.seat = Some(seat);
        event
    }

    /// Gives back the hold on a cell. `Last` where nobody else holds it and it is on its way out: then its release is owed.
    pub fn give_back(&self, share: &mut Share, held: &mut Held, cell: u32) -> Given
        requires of { IsShareOf self.now share.old }
        requires has { has cell held.old ≡ 1 }
        requires holds { 0 < count_of cell share.old.sight.holds }
        ensures of { IsShareOf self.now share.new }
        ensures same { share.new ≡ record share.old {
          sight = record share.old.sight {
            holds = without cell share.old.sight.holds;
            owes = share.new.sight.owes;
          };
        } }
        ensures owes { Owes result cell share.old.sight.owes share.new.sight.owes }
        ensures held { held.new ≡ without cell held.old }
    {
        let Some(mut seat) = share.seat.take() else {
            unreachable!()
        };
        let given = give_back(&self.lock, &mut seat, held, cell);
        share.seat = Some(seat);
        given
    }

    /// Asks the replay window of a key about a packet id, under a ticket of the key's shard. `Err` is want of memory: then
    /// it wasn't judged.
    pub fn judge<R: Wait>(
        &self,
        rt: &R,
        share: &mut Share,
        place: Place,
        key: u32,
        id: u32,
        at: u32,
    ) -> Result<Verdict, Memory>
        requires of { IsShareOf self.now share.old }
        ensures of { IsShareOf self.now share.new }
        ensures same { share.new ≡ record share.old { parts = share.new.parts } }
        ensures ok { IfOk result (λ v.
            HasStepped share.old.parts share.new.parts place key id at v) }
        ensures err { OnErr result (HasNotStepped share.old.parts share.new.parts key) }
    {
        self.replays.step(rt, &mut share.parts, place, key, id, at)
    }

    /// Asks the counter of a key for a packet id.
    pub fn draw(&self, share: &mut Share, key: u32) -> Drawn
        requires of { IsShareOf self.now share.old }
        requires key { key < 65536 }
        ensures of { IsShareOf self.now share.new }
        ensures drew { HasDrawn share.old share.new key result }
    {
        self.draws.draw(&mut share.drawer, key)
    }
}
