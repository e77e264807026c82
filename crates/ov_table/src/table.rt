//! The peer table with its journal and its notes. It is kept true that the journal is a run whose last
//! table is the present one and whose notes are the kept ones, and that each peer that isn't let go and
//! each retired key has room for the entry that lets it go.

ghost use Rattle.std.specs.Prelude.{◌≡◌, ◌<◌, ◌≤◌, ◌++◌, true, false, max, length, IfOk, IsOk, OnOk, OnErr, option_copied};
ghost use Rattle.std.specs.Vec.{vec_capacity};
ghost use Rattle.ov_model.specs.declared.act.Act.TheVariants as act;
ghost use Rattle.ov_model.specs.declared.command.Command.TheVariants as command;
ghost use Rattle.ov_model.specs.Runs.{numbered};
ghost use Rattle.ov_model.specs.Step.{step, removals, May, may_act};
ghost use Rattle.ov_table.specs.Outcomes.{note_list, serial_list};
ghost use Rattle.ov_table.specs.Pairs.{pair_in};
ghost use Rattle.ov_table.specs.Picked.{picked, left};
ghost use Rattle.ov_table.specs.Recorded.{no_steps, stepped, IsTold, is_release, is_sweep, first_waiting};

use crate::peers::Peers;
use crate::removal::put_taken;
use crate::room::push_within;
use ov_base::{ListOf, Memory};
use ov_keepalive::TickLists;
use ov_keys::KeyPair;
use ov_model::{Act, Call, Command, Entry, Note, NoteBody, Owed, Place, Reason, Reply};
use ov_notes::NoteLog;
use std::alloc::Global;
use std::marker::Model;

/// The table of the live and the dying peers and of their keys with the history of its steps: what the
/// kernel keeps of peers for the netlink family "ovpn" (Documentation/netlink/specs/ovpn.yaml), each
/// command in turn, and what packets look up and change in it.
#[derive(Drop)]
pub struct Table {
    peers: Peers,
    journal: Vec<Entry>,
    notes: NoteLog,
    taken: Vec<u32>,
}

impl Model for Table {
    ghost use Rattle.std.specs.Prelude.{◌≤◌, ◌+◌, vec_len};
    ghost use Rattle.std.specs.Vec.{vec_capacity};
    ghost use Rattle.ov_table.specs.Recorded.{Recorded, IsTold, unreleased};

    ghost Value = { Recorded };

    ghost view = { λ t. record { now = t.peers; journal = t.journal.items; notes = t.notes.notes; taken = t.taken.items } };

    ghost invariant = { λ t. IsTold (record { now = t.peers; journal = t.journal.items; notes = t.notes.notes; taken = t.taken.items }) × (vec_len t.journal + unreleased t.peers ≤ vec_capacity t.journal) };
}

impl Table {
    /// The table with no peers at moment 0. It takes no memory until the first step.
    pub fn new(alloc: Global) -> Table
        ensures { result ≡ no_steps }
    {
        Table {
            peers: Peers::new(alloc),
            journal: Vec::new(alloc),
            notes: NoteLog::new(alloc),
            taken: Vec::new(alloc),
        }
    }

    /// Makes the call at the greater of its moment and the table's, and appends its entry, with `place`,
    /// and its notes. What a command of the netlink family is refused with is its reply. `Err` is want of
    /// memory: then nothing changed. A release never answers it, since its room was reserved.
    pub fn step(&mut self, place: Place, call: &Call) -> Result<Reply, Memory>
        requires { May self.old.now call.now }
        ensures reply { IfOk result (λ r. r ≡ (step self.old.now call.now).reply) }
        ensures stepped { OnOk result (self.new ≡ stepped self.old place call.now) }
        ensures memory { OnErr result (self.new ≡ self.old) }
        ensures release { is_release call.now.act ≡ true → IsOk result }
    {
        match call.act {
            Act::Released(serial) => Ok(self.release(place, call.at, serial)),
            Act::KeyReleased(serial) => Ok(self.release_key(place, call.at, serial)),
            Act::Do(Command::Tick) => self.tick(place, call.at),
            Act::Do(Command::Down) => self.down(place, call.at),
            _ => self.act(place, call),
        }
    }

    // A step that is neither a release nor of many peers. The room for its entry, for those of all releases that may come, for its
    // note and for the keys that it takes is reserved before anything changes.
    fn act(&mut self, place: Place, call: &Call) -> Result<Reply, Memory>
        requires may { May self.old.now call.now }
        requires other { is_release call.now.act ≡ false }
        requires few { is_sweep call.now.act ≡ false }
        ensures reply { IfOk result (λ r. r ≡ (step self.old.now call.now).reply) }
        ensures stepped { OnOk result (self.new ≡ stepped self.old place call.now) }
        ensures memory { OnErr result (self.new ≡ self.old) }
    {
        let Some(room) = self.peers.room() else {
            return Err(Memory);
        };
        self.journal.reserve(room)?;
        self.notes.reserve(1)?;
        self.taken.reserve(2)?;
        let now = self.peers.moment_at(call.at);
        let outcome = self.peers.act(now, &call.act)?;
        let entry = self.journal.len() as u64;
        push_within(
            &mut self.journal,
            Entry {
                place,
                call: *call,
                reply: outcome.kept,
            },
        );
        push_note(&mut self.notes, entry, outcome.note);
        set_taken(&mut self.taken, outcome.first, outcome.second);
        Ok(outcome.reply)
    }

    // A tick: the expired peers are removed. All lists are made before anything changes.
    fn tick(&mut self, place: Place, at: u32) -> Result<Reply, Memory>
        ensures reply { IfOk result (λ r. r ≡
            (step self.old.now (record { at = at; act = act.Do command.Tick })).reply) }
        ensures stepped { OnOk result (self.new ≡
            stepped self.old place (record { at = at; act = act.Do command.Tick })) }
        ensures memory { OnErr result (self.new ≡ self.old) }
    {
        let now = self.peers.moment_at(at);
        let TickLists { expired, due } = self.peers.tick_lists(now)?;
        let kept = Reply::Ticked {
            expired: self.peers.copy_of(&expired)?,
            due: self.peers.copy_of(&due)?,
        };
        let act = Act::Do(Command::Tick);
        let call = Call { at, act };
        self.sweep(place, call, expired.as_slice(), Reason::Expired, kept)?;
        Ok(Reply::Ticked { expired, due })
    }

    // A down: all live peers are removed. All lists are made before anything changes.
    fn down(&mut self, place: Place, at: u32) -> Result<Reply, Memory>
        ensures reply { IfOk result (λ r. r ≡
            (step self.old.now (record { at = at; act = act.Do command.Down })).reply) }
        ensures stepped { OnOk result (self.new ≡
            stepped self.old place (record { at = at; act = act.Do command.Down })) }
        ensures memory { OnErr result (self.new ≡ self.old) }
    {
        let gone = self.peers.down_list()?;
        let kept = Reply::Removed(self.peers.copy_of(&gone)?);
        let act = Act::Do(Command::Down);
        let call = Call { at, act };
        self.sweep(place, call, gone.as_slice(), Reason::Teardown, kept)?;
        Ok(Reply::Removed(gone))
    }

    // The step that removes the live peers with these serials, in this order, whose reply is `kept`. The room for its
    // entry, for those of all releases that may come, for its notes and for the keys that it takes is reserved before
    // anything changes.
    fn sweep(
        &mut self,
        place: Place,
        call: Call,
        gone: &[u32],
        reason: Reason,
        kept: Reply,
    ) -> Result<(), Memory>
        requires may { May self.old.now call }
        requires step { step self.old.now call ≡
            removals self.old.now (max self.old.now.moment call.at) reason
            (picked gone.now self.old.now.live) (left gone.now self.old.now.live) kept }
        ensures stepped { OnOk result (self.new ≡ stepped self.old place call) }
        ensures memory { OnErr result (self.new ≡ self.old) }
    {
        let Ok(count) = u32::try_from(gone.len()) else {
            return Err(Memory);
        };
        let Some(room) = self.peers.room_for(count) else {
            return Err(Memory);
        };
        self.journal.reserve(room)?;
        self.notes.reserve(count)?;
        self.taken.reserve(2 * count as usize)?;
        let now = self.peers.moment_at(call.at);
        let number = self.journal.len() as u64;
        self.peers.remove_all(now, gone, reason, number, &mut self.notes, &mut self.taken)?;
        push_within(
            &mut self.journal,
            Entry {
                place,
                call,
                reply: kept,
            },
        );
        Ok(())
    }

    // The step that lets a dying peer go. The room for its entry was reserved while the peer was live.
    fn release(&mut self, place: Place, at: u32, serial: u32) -> Reply
        requires { May self.old.now (record { at = at; act = act.Released serial }) }
        ensures reply { result ≡
            (step self.old.now (record { at = at; act = act.Released serial })).reply }
        ensures stepped { self.new ≡
            stepped self.old place (record { at = at; act = act.Released serial }) }
    {
        let now = self.peers.moment_at(at);
        self.peers.release(now, serial);
        push_within(
            &mut self.journal,
            Entry {
                place,
                call: Call {
                    at,
                    act: Act::Released(serial),
                },
                reply: Reply::Released(serial),
            },
        );
        self.taken.clear();
        Reply::Released(serial)
    }

    // The step that lets a retired key go. The room for its entry was reserved by the step that retired it.
    fn release_key(&mut self, place: Place, at: u32, serial: u32) -> Reply
        requires { May self.old.now (record { at = at; act = act.KeyReleased serial }) }
        ensures reply { result ≡
            (step self.old.now (record { at = at; act = act.KeyReleased serial })).reply }
        ensures stepped { self.new ≡
            stepped self.old place (record { at = at; act = act.KeyReleased serial }) }
    {
        let now = self.peers.moment_at(at);
        self.peers.release_key(now, serial);
        push_within(
            &mut self.journal,
            Entry {
                place,
                call: Call {
                    at,
                    act: Act::KeyReleased(serial),
                },
                reply: Reply::KeyReleased(serial),
            },
        );
        self.taken.clear();
        Reply::KeyReleased(serial)
    }

    /// Whether `call` may be made. A release needs a removed peer or a retired key with its serial that
    /// isn't let go yet; what is done with a hold needs its peer, and to spend a key that key too, not let
    /// go yet; every other call needs nothing.
    pub fn may(&self, call: &Call) -> bool
        ensures { result ≡ may_act self.now.now call.now.act }
    {
        self.peers.may(&call.act)
    }

    /// What the key with a serial seals and opens with: Some exactly where it stands in a slot of a live
    /// peer or is retired and not let go yet.
    pub fn pair(&self, key: u32) -> Option<&KeyPair>
        ensures { option_copied result ≡ pair_in self.now.now key }
    {
        self.peers.pair(key)
    }

    /// The serials of the keys that the last step took out of a slot, in order: the key that a key-new
    /// replaced, the keys of each removed peer, the primary's first, or a spent key. A step that answered
    /// `Memory` isn't one.
    pub fn taken(&self) -> &[u32]
        ensures { result.now ≡ self.now.taken }
    {
        self.taken.as_slice()
    }

    /// What may be let go first once nobody holds it: the first of the retired keys, in the order in which
    /// they left their slots, or else the first of the removed peers. `None` comes exactly where every peer
    /// and key that is gone was let go.
    pub fn waiting(&self) -> Option<Owed>
        ensures { result ≡ first_waiting self.now.now }
    {
        self.peers.waiting()
    }

    /// The entries of the steps so far. They are a run that ends with the present table.
    pub fn journal(&self) -> &[Entry]
        ensures value { result.now ≡ self.now.journal }
        ensures told { IsTold self.now }
    {
        self.journal.as_slice()
    }

    /// How many peers are live. The index keeps it.
    pub fn live_count(&self) -> usize
        ensures count { result ≡ length self.now.now.live }
        ensures most { result ≤ 4096 }
    {
        self.peers.live_count()
    }

    /// The notifications of the steps so far, in order, each with its entry's number from 0.
    pub fn notes(&self) -> &[Note]
        ensures { result.now ≡ self.now.notes }
    {
        self.notes.notes()
    }

    /// Moves the journal and the notes out: a run that ends with the present table, and its notes.
    pub fn finish(self) -> (ListOf<Entry>, ListOf<Note>)
        ensures journal { result.0 ≡ self.journal }
        ensures notes { result.1 ≡ self.notes }
        ensures told { IsTold (record {
          now = self.now;
          journal = result.0;
          notes = result.1;
          taken = self.taken;
        }) }
    {
        let Table { journal, notes, .. } = self;
        (ListOf::of_vec(journal), notes.finish())
    }
}

/// Appends the note of an entry, where it has one, in the room that was reserved for it.
fn push_note(notes: &mut NoteLog, entry: u64, note: Option<NoteBody>)
    requires { 0 < notes.old.room }
    ensures { notes.new.notes ≡ notes.old.notes ++ numbered entry (note_list note) }
{
    if let Some(body) = note {
        notes.add(Note { entry, body });
    }
}

/// Puts down the serials of the keys that a step took, in the room that was reserved for them.
fn set_taken(taken: &mut Vec<u32>, first: Option<u32>, second: Option<u32>)
    requires { 2 ≤ vec_capacity taken.old }
    ensures { taken.new.items ≡ serial_list first ++ serial_list second }
{
    taken.clear();
    put_taken(taken, first);
    put_taken(taken, second);
}
