//! Looking live peers up.

ghost use Rattle.std.specs.Prelude.{◌≡◌, option_copied, find};
ghost use Rattle.std.specs.List.{list_any};
ghost use Rattle.ov_model.specs.Step as model;
ghost use Rattle.ov_model.specs.Tables as tables;
ghost use Rattle.ov_index.specs.Names.{has_name};

use super::Index;
use crate::name::{Name, remote_name, vpn_name};
use crate::names::owner_of;
use crate::places::home_of;
use ov_base::{Addr, Transport};
use ov_model::{Attrs, PeerId};
use ov_peer::Peer;

impl Index {
    /// The live peer with a name.
    fn named(&self, name: Name) -> Option<&Peer>
        ensures { option_copied result ≡ find (has_name name) self.now.live }
    {
        match owner_of(&self.owners, name) {
            Some(serial) => self.peers.standing(serial as usize),
            None => None,
        }
    }

    /// The live peer with an id.
    pub fn by_id(&self, id: PeerId) -> Option<&Peer>
        ensures { option_copied result ≡ tables.by_id id self.now.live }
    {
        self.named(Name::Id(id.get()))
    }

    /// The live peer with a remote transport.
    #[tactic(auto, using(crate::proofs::Held::remote_same))]
    pub fn by_remote(&self, remote: Transport) -> Option<&Peer>
        ensures { option_copied result ≡ tables.by_remote remote self.now.live }
    {
        self.named(remote_name(remote))
    }

    /// The live peer with a VPN address.
    pub fn by_vpn(&self, addr: Addr) -> Option<&Peer>
        ensures { option_copied result ≡ tables.by_vpn addr self.now.live }
    {
        self.named(vpn_name(addr))
    }

    /// The live peer with a serial.
    #[tactic(auto, using(crate::proofs::Held::by_serial_is))]
    pub fn by_serial(&self, serial: u32) -> Option<&Peer>
        ensures { option_copied result ≡ tables.by_serial serial self.now.live }
    {
        self.peers.standing(serial as usize)
    }

    /// The live peer that has the key with a serial in a slot.
    pub fn by_key(&self, key: u32) -> Option<&Peer>
        ensures { option_copied result ≡ find (model.has_key key) self.now.live }
    {
        let home = home_of(&self.homes, key)?;
        let peer = self.peers.standing(home as usize)?;
        if peer.slots.by_key(key).is_none() {
            return None;
        }
        Some(peer)
    }

    /// Whether a live peer has this serial.
    #[tactic(auto, using(crate::proofs::Held::any_is))]
    pub fn has_serial(&self, serial: u32) -> bool
        ensures { result ≡ model.is_there serial self.now.live }
    {
        self.by_serial(serial).is_some()
    }

    /// Whether a live peer has the key with this serial in a slot.
    #[tactic(auto, using(crate::proofs::Held::any_is))]
    pub fn has_key(&self, key: u32) -> bool
        ensures { result ≡ list_any (model.has_key key) self.now.live }
    {
        self.by_key(key).is_some()
    }

    /// Whether a live peer has one of the VPN addresses in `attrs`.
    #[tactic(auto, using(crate::proofs::Held::shares_is))]
    pub fn shares_vpn(&self, attrs: &Attrs) -> bool
        ensures { result ≡ list_any (tables.shares_vpn attrs.now) self.now.live }
    {
        self.has_vpn4(attrs.vpn4) || self.has_vpn6(attrs.vpn6)
    }

    /// Whether a live peer has a VPN address of version 4.
    fn has_vpn4(&self, octets: Option<[u8; 4]>) -> bool
        ensures { result ≡ list_any (λ p. tables.same_vpn p.vpn4 octets) self.now.live }
    {
        match octets {
            Some(octets) => self.by_vpn(Addr::V4(octets)).is_some(),
            None => false,
        }
    }

    /// Whether a live peer has a VPN address of version 6.
    fn has_vpn6(&self, octets: Option<[u8; 16]>) -> bool
        ensures { result ≡ list_any (λ p. tables.same_vpn p.vpn6 octets) self.now.live }
    {
        match octets {
            Some(octets) => self.by_vpn(Addr::V6(octets)).is_some(),
            None => false,
        }
    }

    /// Whether another live peer than the one with the attributes' id has one of their VPN addresses.
    #[tactic(auto, using(crate::proofs::Held::shares_is))]
    pub fn other_shares_vpn(&self, attrs: &Attrs) -> bool
        ensures { result ≡ list_any (tables.shares_vpn attrs.now)
            (model.others attrs.now.id self.now.live) }
    {
        self.other_has_vpn4(attrs.id, attrs.vpn4) || self.other_has_vpn6(attrs.id, attrs.vpn6)
    }

    /// Whether another live peer than the one with an id has a VPN address of version 4.
    fn other_has_vpn4(&self, id: PeerId, octets: Option<[u8; 4]>) -> bool
        ensures { result ≡ list_any (λ p. tables.same_vpn p.vpn4 octets)
            (model.others id self.now.live) }
    {
        match octets {
            Some(octets) => self.other_has(id, vpn_name(Addr::V4(octets))),
            None => false,
        }
    }

    /// Whether another live peer than the one with an id has a VPN address of version 6.
    fn other_has_vpn6(&self, id: PeerId, octets: Option<[u8; 16]>) -> bool
        ensures { result ≡ list_any (λ p. tables.same_vpn p.vpn6 octets)
            (model.others id self.now.live) }
    {
        match octets {
            Some(octets) => self.other_has(id, vpn_name(Addr::V6(octets))),
            None => false,
        }
    }

    /// Whether another live peer than the one with the attributes' id has their remote.
    #[tactic(auto, using(crate::proofs::Held::remote_same, crate::proofs::Held::any_is))]
    pub fn other_has_remote(&self, attrs: &Attrs) -> bool
        ensures { result ≡ model.takes_remote attrs.now.remote
            (model.others attrs.now.id self.now.live) }
    {
        match attrs.remote {
            Some(remote) => self.other_has(attrs.id, remote_name(remote)),
            None => false,
        }
    }

    /// Whether another live peer than the one with an id has a name.
    fn other_has(&self, id: PeerId, name: Name) -> bool
        ensures { result ≡ list_any (has_name name) (model.others id self.now.live) }
    {
        let Some(serial) = owner_of(&self.owners, name) else {
            return false;
        };
        match self.peers.standing(serial as usize) {
            Some(peer) => peer.id.get() != id.get(),
            None => false,
        }
    }
}
