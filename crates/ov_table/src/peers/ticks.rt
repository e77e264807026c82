//! Ticks and downs: which peers they are about, and their removal.

ghost use Rattle.std.specs.Prelude.{ℕ, ◌≡◌, ◌<◌, ◌≤◌, ◌+◌, ◌*◌, ◌++◌, length, map, IfOk, OnOk, OnErr};
ghost use Rattle.std.specs.Vec.{vec_capacity};
ghost use Rattle.ov_model.specs.declared.command.Reason.TheVariants as reason;
ghost use Rattle.ov_model.specs.declared.reply.Reply.TheVariants as reply;
ghost use Rattle.ov_model.specs.Runs.{numbered};
ghost use Rattle.ov_model.specs.Step as model;
ghost use Rattle.ov_table.specs.Picked.{picked, left, removal};
ghost use Rattle.ov_table.specs.Recorded.{unreleased};

use super::Peers;
use crate::removal::remove_each;
use ov_base::{ListOf, Memory};
use ov_keepalive::{TickFacts, TickLists, lists};
use ov_model::Reason;
use ov_notes::NoteLog;
use std::alloc::Global;

impl Peers {
    /// How many peers are live. The index keeps it.
    pub fn live_count(&self) -> usize
        ensures count { result ≡ length self.now.live }
        ensures most { result ≤ 4096 }
    {
        self.live.len()
    }

    /// What a tick at `now` answers: the expired peers, and those that are due a ping, both by rising id. The peers that
    /// are neither are passed over before anything is put in order.
    pub fn tick_lists(&self, now: u32) -> Result<TickLists, Memory>
        ensures { IfOk result (λ lists. model.tick self.now now ≡
            model.removals self.now now reason.Expired (picked lists.expired self.now.live)
            (left lists.expired self.now.live) (reply.Ticked lists.expired lists.due)) }
    {
        let facts = self.live.facts(self.alloc, Some(now))?;
        let found = lists(self.alloc, &facts, now)?;
        Ok(found)
    }

    /// What a down at any moment answers: the live peers, by rising id.
    pub fn down_list(&self) -> Result<ListOf<u32>, Memory>
        ensures { IfOk result (λ gone. (now : ℕ) → model.down self.now now ≡
            model.removals self.now now reason.Teardown (picked gone self.now.live)
            (left gone self.now.live) (reply.Removed gone)) }
    {
        let facts = self.live.facts(self.alloc, None)?;
        let gone = serials(self.alloc, &facts)?;
        Ok(gone)
    }

    /// The same list once more.
    pub fn copy_of(&self, list: &ListOf<u32>) -> Result<ListOf<u32>, Memory>
        ensures { IfOk result (λ copy. copy ≡ list.now) }
    {
        let copy = Vec::from_slice(self.alloc, list.as_slice())?;
        Ok(ListOf::of_vec(copy))
    }

    /// The live peers with these serials are removed, in this order, with a reason; the notes have the entry's number,
    /// and `taken` tells the keys that left their slots. `Err` is want of memory: then nothing changed.
    pub fn remove_all(
        &mut self,
        now: u32,
        gone: &[u32],
        reason: Reason,
        entry: u64,
        notes: &mut NoteLog,
        taken: &mut Vec<u32>,
    ) -> Result<(), Memory>
        requires few { length gone.now < 4294967296 }
        requires notes_room { length gone.now ≤ notes.old.room }
        requires taken_room { 2 * length gone.now ≤ vec_capacity taken.old }
        ensures ok { OnOk result (self.new ≡ (removal self.old now reason gone.now).after) }
        ensures notes { OnOk result (notes.new.notes ≡
            notes.old.notes ++ numbered entry (removal self.old now reason gone.now).notes) }
        ensures taken { OnOk result (taken.new.items ≡
            (removal self.old now reason gone.now).taken) }
        ensures more { OnOk result (unreleased self.new ≤
            unreleased self.old + 2 * length gone.now) }
        ensures err { OnErr result (self.new ≡ self.old) }
        ensures err_notes { OnErr result (notes.new ≡ notes.old) }
        ensures err_taken { OnErr result (taken.new.items ≡ taken.old.items) }
    {
        self.dying.make_room(gone.len(), self.made)?;
        self.retired.make_room(2 * gone.len(), self.keys_made)?;
        taken.clear();
        remove_each(
            &mut self.live,
            &mut self.dying,
            &mut self.retired,
            notes,
            taken,
            gone,
            reason,
            entry,
        );
        self.moment = now;
        Ok(())
    }
}

/// The serials of the peers that some facts are of, in their order. `Err` is want of memory.
fn serials(alloc: Global, facts: &[TickFacts]) -> Result<ListOf<u32>, Memory>
    ensures { IfOk result (λ list. list ≡ map (λ f. f.serial) facts.now) }
{
    let mut list = Vec::with_capacity(alloc, facts.len())?;
    for one in facts {
        list.push(one.serial)?;
    }
    Ok(ListOf::of_vec(list))
}
