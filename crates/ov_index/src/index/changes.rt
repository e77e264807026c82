//! Changing live peers where they stand, and taking them out.

ghost use Rattle.std.specs.Prelude.{◌≡◌, ◌+◌, true, false, Some, is_some, length, IfOk, OnOk, OnErr, OnSome};
ghost use Rattle.ov_model.specs.Step as model;
ghost use Rattle.ov_model.specs.Tables as tables;
ghost use Rattle.ov_index.specs.Index.{key_taken};

use super::Index;
use crate::name::Name;
use crate::names::{make_room, owner_of, put_all, take_all};
use ov_base::{Memory, Transport};
use ov_keys::KeyRec;
use ov_model::{PeerId, Settled, Slot};
use ov_peer::Peer;

impl Index {
    /// Takes the live peer with an id out. It takes no memory.
    pub fn remove(&mut self, id: PeerId) -> Option<Peer>
        ensures was { result ≡ tables.by_id id self.old.live }
        ensures now { self.new ≡
            record self.old { live = tables.without_first (tables.has_id id) self.old.live } }
        ensures fewer { OnSome result (length self.new.live + 1 ≡ length self.old.live) }
    {
        let Some(serial) = owner_of(&self.owners, Name::Id(id.get())) else {
            return None;
        };
        let Some(peer) = self.peers.take_at(serial as usize) else {
            unreachable!();
        };
        take_all(&mut self.owners, &peer);
        Some(peer)
    }

    /// Takes the live peer with a serial out. It takes no memory.
    pub fn take(&mut self, serial: u32) -> Option<Peer>
        ensures was { result ≡ tables.by_serial serial self.old.live }
        ensures now { self.new ≡ record self.old {
          live = tables.without_first (tables.has_serial serial) self.old.live;
        } }
    {
        let Some(peer) = self.peers.take_at(serial as usize) else {
            return None;
        };
        take_all(&mut self.owners, &peer);
        Some(peer)
    }

    /// Counts a sent datagram at the live peer with a serial: whether there is one.
    pub fn sent(&mut self, serial: u32, now: u32, inner: u32, outer: u32, ping: bool) -> bool
        ensures there { result ≡ model.is_there serial self.old.live }
        ensures peers { self.new ≡ record self.old {
          live = tables.change_first (tables.has_serial serial)
              (model.sent_peer now inner outer ping) self.old.live;
        } }
        ensures long { length self.new.live ≡ length self.old.live }
    {
        let Some(mut peer) = self.peers.take_at(serial as usize) else {
            return false;
        };
        peer.sent(now, inner, outer, ping);
        self.peers.put_at(serial as usize, peer);
        true
    }

    /// Settles a received datagram at the live peer with a serial: whether there is one. The peer floats to the transport
    /// that the datagram came from, unless a live peer has it already. `Err` is want of memory: then nothing changed.
    pub fn settle(
        &mut self,
        serial: u32,
        now: u32,
        from: Option<Transport>,
        settled: Settled,
        inner: u32,
        outer: u32,
    ) -> Result<bool, Memory>
        ensures there { IfOk result (λ there. there ≡ model.is_there serial self.old.live) }
        ensures peers { OnOk result (self.new ≡ record self.old {
          live = tables.change_first (tables.has_serial serial)
              (λ p. model.settled_peer settled inner
              (model.floated self.old.live from (model.received_peer now outer p)))
              self.old.live;
        }) }
        ensures long { OnOk result (length self.new.live ≡ length self.old.live) }
        ensures err { OnErr result (self.new ≡ self.old) }
    {
        self.float_if_free(serial, from)?;
        Ok(self.received(serial, now, settled, inner, outer))
    }

    /// The live peer with a serial moves to `from`, where that is given and no live peer has it.
    fn float_if_free(&mut self, serial: u32, from: Option<Transport>) -> Result<(), Memory>
        ensures peers { OnOk result (self.new ≡ record self.old {
          live = tables.change_first (tables.has_serial serial)
              (model.floated self.old.live from) self.old.live;
        }) }
        ensures err { OnErr result (self.new ≡ self.old) }
    {
        let Some(from) = from else {
            return Ok(());
        };
        if self.by_remote(from).is_some() {
            return Ok(());
        }
        self.float(serial, from)
    }

    /// Counts a received datagram at the live peer with a serial: whether there is one.
    fn received(&mut self, serial: u32, now: u32, settled: Settled, inner: u32, outer: u32) -> bool
        ensures there { result ≡ model.is_there serial self.old.live }
        ensures peers { self.new ≡ record self.old {
          live = tables.change_first (tables.has_serial serial)
              (λ p. model.settled_peer settled inner (model.received_peer now outer p))
              self.old.live;
        } }
    {
        let Some(mut peer) = self.peers.take_at(serial as usize) else {
            return false;
        };
        peer.settle(now, None, settled, inner, outer);
        self.peers.put_at(serial as usize, peer);
        true
    }

    /// The live peer with a serial moves to another remote, which no live peer has.
    fn float(&mut self, serial: u32, to: Transport) -> Result<(), Memory>
        requires { is_some (tables.by_remote to self.old.live) ≡ false }
        ensures peers { OnOk result (self.new ≡ record self.old {
          live = tables.change_first (tables.has_serial serial)
              (λ p. record p { remote = to }) self.old.live;
        }) }
        ensures err { OnErr result (self.new ≡ self.old) }
    {
        make_room(&mut self.owners)?;
        let Some(mut peer) = self.peers.take_at(serial as usize) else {
            return Ok(());
        };
        take_all(&mut self.owners, &peer);
        peer.float(to);
        put_all(&mut self.owners, &peer);
        self.peers.put_at(serial as usize, peer);
        Ok(())
    }

    /// Puts the next key that is made into a slot of the live peer with an id, and gives what stood there. `Err` is
    /// want of memory: then nothing changed.
    pub fn install(&mut self, id: PeerId, slot: Slot, key: KeyRec) -> Result<Option<KeyRec>, Memory>
        requires there { is_some (tables.by_id id self.old.live) ≡ true }
        requires key { key.serial ≡ self.old.keys_made }
        ensures was { IfOk result (λ was. (p : tables.Peer) →
            tables.by_id id self.old.live ≡ Some p → was ≡ tables.in_slot slot p.slots) }
        ensures now { OnOk result (self.new ≡ record self.old {
          live = tables.change_first (tables.has_id id) (model.with_key slot key) self.old.live;
          keys_made = self.old.keys_made + 1;
        }) }
        ensures long { OnOk result (length self.new.live ≡ length self.old.live) }
        ensures err { OnErr result (self.new ≡ self.old) }
    {
        let Some(serial) = owner_of(&self.owners, Name::Id(id.get())) else {
            unreachable!();
        };
        self.homes.push(serial)?;
        let Some(mut peer) = self.peers.take_at(serial as usize) else {
            unreachable!();
        };
        let was = peer.install(slot, key);
        self.peers.put_at(serial as usize, peer);
        Ok(was)
    }

    /// Takes the key with a serial out of its slot, where it stands in one of the live peer with a serial.
    pub fn kill(&mut self, serial: u32, key: u32) -> Option<KeyRec>
        ensures was { result ≡ key_taken key (tables.by_serial serial self.old.live) }
        ensures now { self.new ≡ record self.old {
          live = tables.change_first (tables.has_serial serial)
              (λ q. record q { slots = tables.without_key key q.slots }) self.old.live;
        } }
        ensures long { length self.new.live ≡ length self.old.live }
    {
        let Some(mut peer) = self.peers.take_at(serial as usize) else {
            return None;
        };
        let killed = peer.kill(key);
        self.peers.put_at(serial as usize, peer);
        killed
    }
}
