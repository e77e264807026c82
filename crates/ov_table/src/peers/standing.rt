//! The commands on live peers that stay: what they change where a peer stands, and what they show.

ghost use Rattle.std.specs.Prelude.{◌≡◌, ◌≤◌, ◌+◌, true, is_some, Some, IfOk, OnOk, OnErr};
ghost use Rattle.ov_model.specs.Step as model;
ghost use Rattle.ov_model.specs.Tables as tables;
ghost use Rattle.ov_table.specs.Outcomes.{outcome};
ghost use Rattle.ov_table.specs.Recorded.{unreleased};

use super::Peers;
use crate::outcome::Outcome;
use crate::retired::retire;
use ov_base::{ListOf, Memory};
use ov_model::{Attrs, Cipher, Errno, KeyView, PeerId, Reply, Slot};

impl Peers {
    /// peer-set: what is given replaces what the live peer with the id has. Refused in this order: no live peer has the
    /// id; a VPN address that is given is another live peer's; the remote that is given is.
    #[tactic(auto, unfolding(ov_model::specs::Step::peer_set))]
    pub fn peer_set(&mut self, now: u32, attrs: &Attrs) -> Result<Outcome, Memory>
        ensures ok { IfOk result (λ o. outcome self.new o ≡ model.peer_set self.old now attrs.now) }
        ensures kept { IfOk result (λ o. o.kept ≡ o.reply) }
        ensures more { OnOk result (unreleased self.new ≤ unreleased self.old + 2) }
        ensures err { OnErr result (self.new ≡ self.old) }
    {
        if self.live.by_id(attrs.id).is_none() {
            return Ok(self.refuse(now, Errno::NoEntry));
        }
        if self.live.other_shares_vpn(attrs) || self.live.other_has_remote(attrs) {
            return Ok(self.refuse(now, Errno::Exists));
        }
        self.live.set(now, attrs)?;
        self.moment = now;
        Ok(Outcome::plain(Reply::Done, Reply::Done))
    }

    /// peer-get of all live peers, by rising id. It is never refused.
    #[tactic(auto, unfolding(ov_model::specs::Step::peer_dump))]
    pub fn peer_dump(&mut self, now: u32) -> Result<Outcome, Memory>
        ensures ok { IfOk result (λ o. outcome self.new o ≡ model.peer_dump self.old now) }
        ensures kept { IfOk result (λ o. o.kept ≡ o.reply) }
        ensures more { OnOk result (unreleased self.new ≤ unreleased self.old + 2) }
        ensures err { OnErr result (self.new ≡ self.old) }
    {
        let shown = self.live.views(self.alloc)?;
        let kept = Vec::from_slice(self.alloc, &shown)?;
        self.moment = now;
        let reply = Reply::Peers(ListOf::of_vec(shown));
        Ok(Outcome::plain(reply, Reply::Peers(ListOf::of_vec(kept))))
    }

    /// key-get: what the key in a slot is called. Refused where no live peer has the id, and where the slot is empty.
    #[tactic(auto, unfolding(ov_model::specs::Step::key_get))]
    pub fn key_get(&mut self, now: u32, id: PeerId, slot: Slot) -> Outcome
        ensures value { outcome self.new result ≡ model.key_get self.old now id slot }
        ensures kept { result.kept ≡ result.reply }
        ensures same { unreleased self.new ≡ unreleased self.old }
    {
        self.moment = now;
        let Some(peer) = self.live.by_id(id) else {
            return Outcome::plain(
                Reply::Refused(Errno::NoEntry),
                Reply::Refused(Errno::NoEntry),
            );
        };
        let Some(key) = peer.slots.at(slot) else {
            return Outcome::plain(
                Reply::Refused(Errno::NoEntry),
                Reply::Refused(Errno::NoEntry),
            );
        };
        let view = KeyView {
            peer: id,
            slot,
            key_id: key.key_id,
            cipher: Cipher::AesGcm,
        };
        Outcome::plain(Reply::Key(view), Reply::Key(view))
    }

    /// key-swap: the keys in the slots of the live peer with the id change places. Refused where there is none.
    #[tactic(auto, unfolding(ov_model::specs::Step::key_swap), using(crate::proofs::Outcomes::one_key))]
    pub fn key_swap(&mut self, now: u32, id: PeerId) -> Outcome
        ensures value { outcome self.new result ≡ model.key_swap self.old now id }
        ensures kept { result.kept ≡ result.reply }
        ensures same { unreleased self.new ≡ unreleased self.old }
    {
        if self.live.by_id(id).is_none() {
            return self.refuse(now, Errno::NoEntry);
        }
        self.live.swap(id);
        self.moment = now;
        Outcome::plain(Reply::Done, Reply::Done)
    }

    /// key-del: the slot of the live peer with the id becomes empty, and a key that stood there is retired. Refused
    /// where there is no such peer.
    #[tactic(auto, unfolding(ov_model::specs::Step::key_del), using(crate::proofs::Outcomes::one_taken))]
    pub fn key_del(&mut self, now: u32, id: PeerId, slot: Slot) -> Result<Outcome, Memory>
        ensures ok { IfOk result (λ o. outcome self.new o ≡ model.key_del self.old now id slot) }
        ensures kept { IfOk result (λ o. o.kept ≡ o.reply) }
        ensures more { OnOk result (unreleased self.new ≤ unreleased self.old + 2) }
        ensures err { OnErr result (self.new ≡ self.old) }
    {
        if self.live.by_id(id).is_none() {
            return Ok(self.refuse(now, Errno::NoEntry));
        }
        self.retired.make_room(1, self.keys_made)?;
        let taken = self.live.take_key(id, slot);
        let first = retire(&mut self.retired, taken);
        self.moment = now;
        Ok(Outcome {
            reply: Reply::Done,
            kept: Reply::Done,
            note: None,
            first,
            second: None,
        })
    }
}
