//! The look-ups of packets: which peer, and which of its keys.

ghost use Rattle.std.specs.Prelude.{◌≡◌};
ghost use Rattle.ov_model.specs.Step as model;
ghost use Rattle.ov_table.specs.Outcomes.{outcome};
ghost use Rattle.ov_table.specs.Recorded.{unreleased};

use super::Peers;
use crate::find;
use crate::outcome::Outcome;
use ov_base::{Addr, Transport};
use ov_index::Peer;
use ov_keys::KeyRec;
use ov_model::{HoldView, KeyId, PeerId, Reply};

impl Peers {
    /// Where an inner packet goes: the live peer with the VPN address that is its next hop, and that peer's
    /// primary key.
    #[tactic(auto, unfolding(ov_model::specs::Step::tx_look))]
    pub fn tx_look(&mut self, now: u32, to: Addr) -> Outcome
        ensures value { outcome self.new result ≡ model.tx_look self.old now to }
        ensures kept { result.kept ≡ result.reply }
        ensures same { unreleased self.new ≡ unreleased self.old }
    {
        self.moment = now;
        let Some(peer) = self.live.by_vpn(to) else {
            return Outcome::plain(Reply::NoPeer, Reply::NoPeer);
        };
        let Some(key) = peer.slots.primary() else {
            return Outcome::plain(Reply::NoKey, Reply::NoKey);
        };
        let hold = hold_of(peer, key);
        Outcome::plain(Reply::Hold(hold), Reply::Hold(hold))
    }

    /// Whose a datagram is, by its head and the transport that it came from, and that peer's key with the
    /// key id.
    #[tactic(auto, unfolding(ov_model::specs::Step::rx_look))]
    pub fn rx_look(&mut self, now: u32, id: PeerId, key_id: KeyId, from: Transport) -> Outcome
        ensures value { outcome self.new result ≡ model.rx_look self.old now id key_id from }
        ensures kept { result.kept ≡ result.reply }
        ensures same { unreleased self.new ≡ unreleased self.old }
    {
        self.moment = now;
        let Some(peer) = find::of_datagram(&self.live, id, from) else {
            return Outcome::plain(Reply::NoPeer, Reply::NoPeer);
        };
        let Some(key) = peer.slots.by_key_id(key_id) else {
            return Outcome::plain(Reply::NoKey, Reply::NoKey);
        };
        let hold = hold_of(peer, key);
        Outcome::plain(Reply::Hold(hold), Reply::Hold(hold))
    }

    /// Whether a peer that was due still takes a ping: it is live, and its primary slot holds a key.
    #[tactic(auto, unfolding(ov_model::specs::Step::keep_look))]
    pub fn keep_look(&mut self, now: u32, peer: u32) -> Outcome
        ensures value { outcome self.new result ≡ model.keep_look self.old now peer }
        ensures kept { result.kept ≡ result.reply }
        ensures same { unreleased self.new ≡ unreleased self.old }
    {
        self.moment = now;
        let Some(found) = self.live.by_serial(peer) else {
            return Outcome::plain(Reply::Skip, Reply::Skip);
        };
        let Some(key) = found.slots.primary() else {
            return Outcome::plain(Reply::Skip, Reply::Skip);
        };
        let hold = hold_of(found, key);
        Outcome::plain(Reply::Hold(hold), Reply::Hold(hold))
    }
}

/// A hold on a peer and its key, with the peer's remote at this step.
fn hold_of(peer: &Peer, key: &KeyRec) -> HoldView
    ensures { result ≡ model.hold_of peer.now key.now }
{
    HoldView {
        peer: peer.serial,
        id: peer.id,
        key: key.serial,
        key_id: key.key_id,
        to: peer.remote,
    }
}
