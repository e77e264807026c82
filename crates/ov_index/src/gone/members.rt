//! What may be gone: removed peers, which packets may still be counted at, and retired keys.

ghost use Rattle.std.specs.Prelude.{◌≡◌, false, length};
ghost use Rattle.ov_model.specs.Step as model;
ghost use Rattle.ov_model.specs.Tables.{change_first, has_serial};

use super::{Gone, Numbered, place_in};
use crate::places::{put_at, take_at};
use ov_keys::KeyRec;
use ov_model::Settled;
use ov_peer::Peer;

impl Numbered for Peer {
    ghost serial_of = { λ p. p.serial };

    fn serial(&self) -> u32 {
        self.serial
    }
}

impl Numbered for KeyRec {
    ghost serial_of = { λ k. k.serial };

    fn serial(&self) -> u32 {
        self.serial
    }
}

impl Gone<Peer> {
    /// Counts a sent datagram at the peer with a serial: whether there is one.
    pub fn sent(&mut self, serial: u32, now: u32, inner: u32, outer: u32, ping: bool) -> bool
        ensures there { result ≡ model.is_there serial self.old.items }
        ensures peers { self.new.items ≡
            change_first (has_serial serial) (model.sent_peer now inner outer ping) self.old.items }
        ensures absent { result ≡ false → self.new.items ≡ self.old.items }
        ensures long { length self.new.items ≡ length self.old.items }
    {
        let Some(place) = place_in(&self.places, &self.slots, serial) else {
            return false;
        };
        let Some(mut peer) = take_at(&mut self.slots, place) else {
            unreachable!();
        };
        peer.sent(now, inner, outer, ping);
        put_at(&mut self.slots, place, peer);
        true
    }

    /// Settles a received datagram at the peer with a serial, which floats nowhere: whether there is one.
    pub fn settle(
        &mut self,
        serial: u32,
        now: u32,
        settled: Settled,
        inner: u32,
        outer: u32,
    ) -> bool
        ensures there { result ≡ model.is_there serial self.old.items }
        ensures peers { self.new.items ≡
            change_first (has_serial serial)
            (λ p. model.settled_peer settled inner (model.received_peer now outer p))
            self.old.items }
        ensures absent { result ≡ false → self.new.items ≡ self.old.items }
        ensures long { length self.new.items ≡ length self.old.items }
    {
        let Some(place) = place_in(&self.places, &self.slots, serial) else {
            return false;
        };
        let Some(mut peer) = take_at(&mut self.slots, place) else {
            unreachable!();
        };
        peer.settle(now, None, settled, inner, outer);
        put_at(&mut self.slots, place, peer);
        true
    }
}
