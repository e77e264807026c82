//! The desk of one lane: its share of the words, and its line under way.

ghost use Rattle.std.specs.Prelude.{◌≡◌, ◌<◌, [], length};
ghost use Rattle.ov_path.specs.Desks.{NoHold, Did};
ghost use Rattle.ov_past.specs.Pasts.{gave};
ghost use Rattle.ov_past.specs.Holds.{holding};
ghost use Rattle.ov_desk.specs.Sittings.{shown_of, Happened, GivesBack, WasReleased, HasLetGo, HasGivenUp, at_rest};
ghost use Rattle.ov_share.specs.Shares.{IsShareOf, IsFree};
ghost use Rattle.ov_ticket.specs.Within.{HasRoom};

use crate::held::{cell, owe_if};
use ov_base::{Addr, Memory};
use ov_hold::Held;
use ov_keys::KeyPair;
use ov_model::{Call, Drawn, Given, Owed, Place, Reply, Route, Verdict, via_of};
use ov_past::{Happening, Hold, Judged, Past};
use ov_path::Desk;
use ov_share::{Share, Words};
use std::collections::VecDeque;
use std::marker::Model;
use std::sync::Wait;

/// What one lane does at the shared words, for the line that stands at it.
#[derive(Drop)]
pub struct LaneDesk<'a, R: Wait> {
    rt: &'a R,
    words: &'a Words,
    routes: &'a [Route],
    share: Share,
    held: Held,
    owed: VecDeque<Owed>,
    // The two directions of the key that is held, copied under the ticket that found it.
    pair: Option<KeyPair>,
    past: Past,
    hold: Hold,
}

impl<'a, R: Wait> Model for LaneDesk<'a, R> {
    ghost use Rattle.ov_past.specs.Holds.{holding};
    ghost use Rattle.ov_desk.specs.Sittings.{Sitting};
    ghost use Rattle.ov_desk.specs.Kept.{sitting, IsSeated};

    ghost Value = { Sitting };

    ghost view = { λ d.
        sitting d.words.now d.routes.now d.share d.past (holding d.hold) d.owed.items };

    ghost invariant = { λ d.
        IsSeated d.words.now d.routes.now d.share d.past (holding d.hold) d.held d.pair d.owed };
}

impl<'a, R: Wait> LaneDesk<'a, R> {
    /// The desk before a line, with a lane's share, the routes of the script, and the room for every release that the lane
    /// may come to owe.
    pub fn new(
        rt: &'a R,
        words: &'a Words,
        routes: &'a [Route],
        share: Share,
        owed: VecDeque<Owed>,
    ) -> LaneDesk<'a, R>
        requires of { IsShareOf words.now share }
        requires free { IsFree share }
        requires room { HasRoom owed }
        ensures { result ≡ at_rest words.now routes.now share }
    {
        LaneDesk {
            rt,
            words,
            routes,
            share,
            held: Held::new(),
            owed,
            pair: None,
            past: Past::new(),
            hold: Hold::Nothing,
        }
    }

    /// The line is over: its events are forgotten.
    pub fn end_line(&mut self)
        requires hold { self.old.hold ≡ NoHold }
        requires owing { self.old.owing ≡ [] }
        ensures rests { self.new ≡ record self.old { events = [] } }
        ensures free { IsFree self.new.share }
    {
        self.past = Past::new();
    }

    /// Ends a line for which there was no memory: gives back what it holds, the key before the peer, and makes the releases
    /// that it owes.
    pub fn give_up(&mut self, place: Place, at: u32)
        ensures { HasGivenUp place at self.old self.new }
    {
        self.let_all_go();
        let count = self.owed_count();
        for _done in 0..count {
            self.release_first(place, at);
        }
        self.end_line();
    }

    /// The share, and the room for the releases.
    pub fn into_parts(self) -> (Share, VecDeque<Owed>)
        requires hold { self.hold ≡ NoHold }
        requires owing { self.owing ≡ [] }
        ensures share { result.0 ≡ self.entry.share }
        ensures of { IsShareOf self.entry.common result.0 }
        ensures free { IsFree result.0 }
        ensures room { HasRoom result.1 }
    {
        let LaneDesk { share, owed, .. } = self;
        (share, owed)
    }
}

impl<'a, R: Wait> Desk for LaneDesk<'a, R> {
    ghost use Rattle.std.proofs.Common.{refl};
    ghost use Rattle.ov_turn.proofs.Fronts.{prefix_self};
    ghost use Rattle.ov_desk.specs.Sittings.{shown_of, Happened, Stayed};

    ghost view = { λ d. shown_of d };

    ghost does = { λ d event e. Happened d event e };

    ghost keeps = { λ d e. Stayed d e };

    ghost keeps_itself = { λ d. record { same = refl; saw = record { table = record { front = prefix_self d.share.sight.seen; same = refl }; shards = λ i. record { front = prefix_self _; same = refl }; drawer = refl; name = refl } } };

    fn table(&mut self, place: Place, call: &Call) -> Result<Reply, Memory> {
        let (reply, event) = self.words.step(
            self.rt,
            &mut self.share,
            place,
            call,
            &mut self.held,
            &mut self.owed,
            &mut self.pair,
        )?;
        self.hold = self.hold.after(&call.act, &reply);
        self.past.push(event);
        Ok(reply)
    }

    fn pair(&self, key: u32) -> Option<&KeyPair> {
        match self.hold {
            Hold::Both(view) if view.key == key => self.pair.as_ref(),
            _ => None,
        }
    }

    fn replay(&mut self, place: Place, key: u32, id: u32, at: u32) -> Result<Verdict, Memory> {
        let verdict = self
            .words
            .judge(self.rt, &mut self.share, place, key, id, at)?;
        self.past.push(Happening::Judged(Judged {
            place,
            key,
            id,
            at,
            verdict,
        }));
        Ok(verdict)
    }

    fn draw(&mut self, key: u32) -> Drawn {
        let drawn = self.words.draw(&mut self.share, key);
        self.past.push(Happening::Drew(key, drawn));
        drawn
    }

    fn give_back_key(&mut self, key: u32) -> Given {
        self.let_go(Owed::Key(key))
    }

    fn give_back(&mut self, peer: u32) -> Given {
        self.let_go(Owed::Peer(peer))
    }

    fn owed(&self) -> Option<Owed> {
        self.owed.front().copied()
    }

    fn release(&mut self, place: Place, at: u32, _owed: Owed) {
        self.release_first(place, at);
    }

    fn via(&self, addr: Addr) -> Addr {
        via_of(self.routes, addr)
    }
}

impl<'a, R: Wait> LaneDesk<'a, R> {
    /// Gives back the key or the peer that the line holds. Where nobody else holds it and it is on its way out, that was the
    /// last hold, and its release is owed.
    fn let_go(&mut self, owed: Owed) -> Given
        requires { GivesBack self.old.hold owed }
        ensures { Did shown_of Happened self.old (gave owed result) self.new }
    {
        self.hold = self.hold.without(owed);
        let cell = cell(owed);
        let given = self.words.give_back(&mut self.share, &mut self.held, cell);
        owe_if(&mut self.owed, given, owed);
        self.past.push(Happening::Gave(owed, given));
        given
    }

    /// Gives back what the line holds, the key before the peer.
    fn let_all_go(&mut self)
        ensures { HasLetGo self.old self.new }
    {
        match self.holds() {
            Hold::Nothing => {}
            Hold::Both(view) => {
                self.let_go(Owed::Key(view.key));
                self.let_go(Owed::Peer(view.peer));
            }
            Hold::PeerLeft(view) => {
                self.let_go(Owed::Peer(view.peer));
            }
        }
    }

    /// What the line holds.
    fn holds(&self) -> Hold
        ensures { holding result ≡ self.now.hold }
    {
        self.hold
    }

    /// How many releases are owed.
    fn owed_count(&self) -> usize
        ensures { result ≡ length self.now.owing }
    {
        self.owed.len()
    }

    /// Makes the release that is owed first.
    fn release_first(&mut self, place: Place, at: u32)
        requires { 0 < length self.old.owing }
        ensures { WasReleased place at self.old self.new }
    {
        let event = self
            .words
            .release(self.rt, &mut self.share, place, at, &mut self.owed);
        self.past.push(event);
    }
}
