//! What the table keeps of one peer.

ghost use Rattle.std.specs.Prelude.{◌≡◌, Some, None};
ghost use Rattle.ov_model.specs.Step as model;
ghost use Rattle.ov_model.specs.Tables.{view_of, in_slot, with_slot, swapped, by_key, without_key};
ghost use Rattle.ov_peer.specs.Moved.{moved};

use ov_base::Transport;
use ov_keys::{KeyRec, Slots};
use ov_model::{Attrs, Counts, Keepalive, PeerId, PeerView, Settled, Slot};
use std::marker::Model;

/// One peer. A serial is the number of peers made before it; an id is what packets and commands call
/// the peer. Moments are in whole seconds, addresses in network order.
#[derive(Drop)]
pub struct Peer {
    pub serial: u32,
    pub id: PeerId,
    pub remote: Transport,
    pub vpn4: Option<[u8; 4]>,
    pub vpn6: Option<[u8; 16]>,
    pub keepalive: Keepalive,
    pub counts: Counts,
    pub last_received: u32,
    pub last_sent: u32,
    pub slots: Slots,
}

impl Model for Peer {
    ghost use Rattle.ov_model.specs.Tables as tables;

    ghost Value = { tables.Peer };

    ghost view = { λ p. record { serial = p.serial; id = p.id; remote = p.remote; vpn4 = p.vpn4; vpn6 = p.vpn6; keepalive = p.keepalive; counts = p.counts; last_received = p.last_received; last_sent = p.last_sent; slots = p.slots } };
}

/// Nothing went over the peer yet.
const NO_COUNTS: Counts = Counts {
    vpn_rx_bytes: 0,
    vpn_rx_packets: 0,
    vpn_tx_bytes: 0,
    vpn_tx_packets: 0,
    link_rx_bytes: 0,
    link_rx_packets: 0,
    link_tx_bytes: 0,
    link_tx_packets: 0,
};

/// No pings and no expiry.
const NO_KEEPALIVE: Keepalive = Keepalive {
    interval: 0,
    timeout: 0,
};

impl Peer {
    /// The peer that peer-new makes at `now`: its counts are 0, both its moments are now, and it has no keys.
    pub fn new(serial: u32, now: u32, attrs: &Attrs, remote: Transport) -> Peer
        ensures { result ≡ model.peer_of serial now attrs.now remote }
    {
        Peer {
            serial,
            id: attrs.id,
            remote,
            vpn4: attrs.vpn4,
            vpn6: attrs.vpn6,
            keepalive: attrs.keepalive.unwrap_or(NO_KEEPALIVE),
            counts: NO_COUNTS,
            last_received: now,
            last_sent: now,
            slots: Slots::new(),
        }
    }

    /// What peer-get shows.
    pub fn view(&self) -> PeerView
        ensures { result ≡ view_of self.now }
    {
        PeerView {
            id: self.id,
            remote: self.remote,
            vpn4: self.vpn4,
            vpn6: self.vpn6,
            keepalive: self.keepalive,
            counts: self.counts,
        }
    }

    /// peer-set at `now`: what is given replaces the old, the rest stays. A keepalive that is given begins anew, so
    /// that both moments are now.
    pub fn set(&mut self, now: u32, attrs: &Attrs)
        ensures { self.new ≡ model.set_peer now attrs.now self.old }
    {
        self.remote = attrs.remote.unwrap_or(self.remote);
        self.vpn4 = attrs.vpn4.or(self.vpn4);
        self.vpn6 = attrs.vpn6.or(self.vpn6);
        if let Some(keepalive) = attrs.keepalive {
            self.keepalive = keepalive;
            self.last_received = now;
            self.last_sent = now;
        }
    }

    /// Puts a key into a slot, and gives what stood there.
    pub fn install(&mut self, slot: Slot, key: KeyRec) -> Option<KeyRec>
        ensures was { result ≡ in_slot slot self.old.slots }
        ensures now { self.new ≡
            record self.old { slots = with_slot slot (Some key) self.old.slots } }
    {
        self.slots.install(slot, key)
    }

    /// Takes the key with a serial out of its slot. `None` comes exactly where neither slot has it.
    pub fn kill(&mut self, key: u32) -> Option<KeyRec>
        ensures was { result ≡ by_key key self.old.slots }
        ensures now { self.new ≡ record self.old { slots = without_key key self.old.slots } }
    {
        self.slots.kill(key)
    }

    /// Takes what stands in a slot out of it.
    pub fn take(&mut self, slot: Slot) -> Option<KeyRec>
        ensures was { result ≡ in_slot slot self.old.slots }
        ensures now { self.new ≡ model.with_slots (with_slot slot None) self.old }
    {
        self.slots.take(slot)
    }

    /// Exchanges what stands in the two slots.
    pub fn swap(&mut self)
        ensures { self.new ≡ model.with_slots swapped self.old }
    {
        self.slots.swap();
    }

    /// A datagram was sent at `now`: the lengths of its inner packet and of itself, in bytes. A ping isn't
    /// counted inside the tunnel.
    pub fn sent(&mut self, now: u32, inner: u32, outer: u32, ping: bool)
        ensures { self.new ≡ model.sent_peer now inner outer ping self.old }
    {
        self.last_sent = now;
        up(&mut self.counts.link_tx_bytes, outer);
        up(&mut self.counts.link_tx_packets, 1);
        if !ping {
            up(&mut self.counts.vpn_tx_bytes, inner);
            up(&mut self.counts.vpn_tx_packets, 1);
        }
    }

    /// A datagram was received at `now`, with the lengths of its inner packet and of itself, in bytes: the
    /// peer's remote becomes `to`, where that is given, and a packet that is delivered counts inside the
    /// tunnel too.
    pub fn settle(
        &mut self,
        now: u32,
        to: Option<Transport>,
        settled: Settled,
        inner: u32,
        outer: u32,
    )
        ensures { self.new ≡
            model.settled_peer settled inner (moved to (model.received_peer now outer self.old)) }
    {
        self.last_received = now;
        up(&mut self.counts.link_rx_bytes, outer);
        up(&mut self.counts.link_rx_packets, 1);
        if let Some(remote) = to {
            self.remote = remote;
        }
        if settled == Settled::Deliver {
            up(&mut self.counts.vpn_rx_bytes, inner);
            up(&mut self.counts.vpn_rx_packets, 1);
        }
    }

    /// The peer moves to another remote.
    pub fn float(&mut self, to: Transport)
        ensures { self.new ≡ record self.old { remote = to } }
    {
        self.remote = to;
    }
}

/// A count goes up and stays at the greatest 64-bit number.
fn up(count: &mut u64, more: u32)
    ensures { count.new ≡ model.up count.old more }
{
    *count = count.saturating_add(u64::from(more));
}
