//! What commands change of a live peer where it stands, and what they show of all.

ghost use Rattle.std.specs.Prelude.{◌≡◌, false, None, length, map, filter, IfOk, OnOk, OnErr};
ghost use Rattle.std.specs.List.{list_any};
ghost use Rattle.ov_model.specs.Step as model;
ghost use Rattle.ov_model.specs.Tables as tables;
ghost use Rattle.ov_index.specs.Index.{slot_of};
ghost use Rattle.ov_index.specs.Ticks.{facts_of, is_asked};

use super::Index;
use crate::name::Name;
use crate::names::{make_room, owner_of, put_all, take_all};
use crate::places::views_of;
use crate::ticks::{facts_in, ranked_in};
use ov_base::Memory;
use ov_keepalive::TickFacts;
use ov_keys::KeyRec;
use ov_model::{Attrs, PeerId, PeerView, Slot};
use std::alloc::Global;

impl Index {
    /// peer-set at `now` of the live peer with the attributes' id: what is given replaces the old, the rest stays. No
    /// other live peer has a VPN address or the remote that is given. `Err` is want of memory: then nothing changed.
    pub fn set(&mut self, now: u32, attrs: &Attrs) -> Result<(), Memory>
        requires vpn { list_any (tables.shares_vpn attrs.now)
            (model.others attrs.now.id self.old.live) ≡ false }
        requires remote { model.takes_remote attrs.now.remote
            (model.others attrs.now.id self.old.live) ≡ false }
        ensures now { OnOk result (self.new ≡ record self.old {
          live = tables.change_first (tables.has_id attrs.now.id)
              (model.set_peer now attrs.now) self.old.live;
        }) }
        ensures long { OnOk result (length self.new.live ≡ length self.old.live) }
        ensures err { OnErr result (self.new ≡ self.old) }
    {
        make_room(&mut self.owners)?;
        let Some(serial) = owner_of(&self.owners, Name::Id(attrs.id.get())) else {
            return Ok(());
        };
        let Some(mut peer) = self.peers.take_at(serial as usize) else {
            unreachable!();
        };
        take_all(&mut self.owners, &peer);
        peer.set(now, attrs);
        put_all(&mut self.owners, &peer);
        self.peers.put_at(serial as usize, peer);
        Ok(())
    }

    /// Exchanges the keys in the two slots of the live peer with an id, where there is one.
    pub fn swap(&mut self, id: PeerId)
        ensures now { self.new ≡ record self.old {
          live = tables.change_first (tables.has_id id)
              (model.with_slots tables.swapped) self.old.live;
        } }
        ensures long { length self.new.live ≡ length self.old.live }
    {
        let Some(serial) = owner_of(&self.owners, Name::Id(id.get())) else {
            return;
        };
        let Some(mut peer) = self.peers.take_at(serial as usize) else {
            unreachable!();
        };
        peer.swap();
        self.peers.put_at(serial as usize, peer);
    }

    /// Takes what stands in a slot of the live peer with an id out of it, where there is one.
    pub fn take_key(&mut self, id: PeerId, slot: Slot) -> Option<KeyRec>
        ensures was { result ≡ slot_of slot (tables.by_id id self.old.live) }
        ensures now { self.new ≡ record self.old {
          live = tables.change_first (tables.has_id id)
              (model.with_slots (tables.with_slot slot None)) self.old.live;
        } }
        ensures long { length self.new.live ≡ length self.old.live }
    {
        let Some(serial) = owner_of(&self.owners, Name::Id(id.get())) else {
            return None;
        };
        let Some(mut peer) = self.peers.take_at(serial as usize) else {
            unreachable!();
        };
        let taken = peer.take(slot);
        self.peers.put_at(serial as usize, peer);
        taken
    }

    /// What all live peers show, by rising id. `Err` is want of memory.
    pub fn views(&self, alloc: Global) -> Result<Vec<PeerView>, Memory>
        ensures { IfOk result (λ views. views.items ≡
            map tables.view_of (tables.by_rising_id self.now.live)) }
    {
        let mut views = views_of(alloc, self.peers.as_slice())?;
        views.sort_unstable_by_key(|view| view.id.get());
        Ok(views)
    }

    /// What the keepalive rule asks of the live peers, by rising id: of those that are expired or quiet at `now`, and of
    /// each where no moment is given. The others are passed over before the sort. `Err` is want of memory.
    pub fn facts(&self, alloc: Global, now: Option<u32>) -> Result<Vec<TickFacts>, Memory>
        ensures { IfOk result (λ facts. facts.items ≡
            map facts_of (filter (is_asked now) (tables.by_rising_id self.now.live))) }
    {
        let mut ranked = ranked_in(alloc, self.peers.as_slice(), now)?;
        ranked.sort_unstable_by_key(|one| one.id);
        facts_in(alloc, &ranked)
    }

    /// How many peers are live. It is kept, and no place is looked at.
    pub fn len(&self) -> usize
        ensures { result ≡ length self.now.live }
    {
        self.peers.count()
    }
}
