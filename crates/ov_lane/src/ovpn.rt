//! The shared table: passes, their calls, and the end.
ghost use Rattle.std.specs.Prelude.{◌≡◌, ◌<◌, ◌≤◌, IfOk, OnErr};
ghost use Rattle.ov_share.specs.Passings.{OneHistory};
ghost use Rattle.ov_lane.specs.Passes.{IsPassOf, IsFree, CallDone, OnlySaw, AreAllPasses, LastReleases, AreFresh};

use crate::dealing::{deal, gather, pass_of, room, rooms};
use crate::pass::Pass;
use ov_base::{ListOf, Memory};
use ov_model::{Command, Entry, Note, Place, ReplayEntry, Reply, Route};
use ov_share::{Ending, Words};
use std::alloc::Global;
use std::marker::Model;
use std::sync::Wait;

/// One peer table that many threads use, with the replay windows and the send counters of all keys. Each thread has a pass
/// of its own. It has to be closed with all its passes, which gives the history that they share.
pub struct Ovpn {
    words: Words,
    routes: ListOf<Route>,
}

impl Model for Ovpn {
    ghost use Rattle.ov_lane.specs.Passes.{Shared};

    ghost Value = { Shared };

    ghost view = { λ o. record { words = o.words; routes = o.routes } };
}

/// What a shared table ends with.
#[derive(Debug, Drop)]
pub struct Closed {
    /// Every step of the table, in the order of the history.
    pub journal: ListOf<Entry>,
    /// The notifications of the steps, each with its entry's number from 0.
    pub notes: ListOf<Note>,
    /// The replay steps of each of the eight shards, in the order of its history.
    pub shards: ListOf<ListOf<ReplayEntry>>,
}

impl Ovpn {
    /// A table without peers, counters that begin at `first`, the routes of all lines, and so many passes, numbered from 0.
    /// Each has seen and made nothing. A pass takes all the room that it may need here. `Err` is want of memory.
    pub fn new(
        alloc: Global,
        first: u32,
        passes: u32,
        routes: ListOf<Route>,
    ) -> Result<(Ovpn, ListOf<Pass>), Memory>
        requires first { 1 ≤ first }
        requires some { 1 ≤ passes }
        requires few { passes ≤ 64 }
        ensures first { IfOk result (λ r. r.0.words.counters.first ≡ first) }
        ensures routes { IfOk result (λ r. r.0.routes ≡ routes) }
        ensures passes { IfOk result (λ r. AreFresh r.0 passes r.1) }
        ensures all { IfOk result (λ r. AreAllPasses r.0 r.1) }
    {
        let last = passes - 1;
        let own = room(alloc)?;
        let rooms = rooms(alloc, last)?;
        let mut list = Vec::new(alloc);
        list.reserve(passes as usize)?;
        // Words have to be ended, so no room is taken behind them.
        let (words, whole) = Words::new(alloc, first)?;
        let rest = deal(&words, whole, last, rooms, &mut list);
        list.push_reserved(pass_of(last, rest, own));
        Ok((Ovpn { words, routes }, ListOf::of_vec(list)))
    }

    /// Ends the table, with all its passes, and gives the history that they share and its notes, and the replay shards.
    pub fn close(self, passes: ListOf<Pass>) -> Closed
        requires { AreAllPasses self passes }
        ensures history { OneHistory self.words.counters.first result.journal result.notes result.shards passes }
        ensures releases { LastReleases result.journal }
    {
        let Ovpn { words, routes } = self;
        drop(routes);
        let whole = gather(&words, passes.into_vec());
        let Ending {
            journal,
            notes,
            shards,
        } = words.end(whole);
        Closed {
            journal,
            notes,
            shards,
        }
    }

    /// The words that all passes share.
    pub fn words(&self) -> &Words
        ensures { result.now ≡ self.now.words }
    {
        &self.words
    }

    /// The routes of all lines.
    pub fn routes(&self) -> &[Route]
        ensures { result.now ≡ self.now.routes }
    {
        self.routes.as_slice()
    }

    /// Makes a command at the table, and then the releases that it leaves to the pass, all under one ticket: the reply
    /// is the serial table's at the call's place in the history. `Err` is want of memory: then the pass has no new
    /// entry and as many lines as before; else it has one line more.
    pub fn call<R: Wait>(
        &self,
        rt: &R,
        pass: &mut Pass,
        at: u32,
        command: &Command,
    ) -> Result<Reply, Memory>
        requires of { IsPassOf self.now pass.old }
        requires free { IsFree pass.old }
        requires lines { pass.old.lines < 18446744073709551615 }
        ensures ok { IfOk result (λ r. CallDone pass.old pass.new at command.now r) }
        ensures err { OnErr result (OnlySaw pass.old pass.new) }
    {
        let place = Place {
            lane: pass.number,
            line: pass.lines,
        };
        let reply = self
            .words
            .serve(rt, &mut pass.share, place, at, command, &mut pass.owed)?;
        pass.lines += 1;
        Ok(reply)
    }

    /// Hands each pass what the other has seen: then both have seen the longer of the two histories. It waits for
    /// nobody.
    pub fn meet(&self, one: &mut Pass, other: &mut Pass)
        requires one { IsPassOf self.now one.old }
        requires other { IsPassOf self.now other.old }
        ensures one { OnlySaw one.old one.new }
        ensures other { OnlySaw other.old other.new }
        ensures same { one.new.share.sight.seen ≡ other.new.share.sight.seen }
    {
        self.words.meet(&mut one.share, &mut other.share);
    }
}
