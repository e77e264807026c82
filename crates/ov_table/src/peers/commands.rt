//! The commands of the netlink family.

ghost use Rattle.std.specs.Prelude.{◌≡◌, ◌≤◌, ◌+◌, List, [], ◌∷◌, Some, true, false, is_some, IfOk, OnOk, OnErr};
ghost use Rattle.ov_model.specs.declared.act.Act.TheVariants as act;
ghost use Rattle.ov_model.specs.declared.reply.Reply.TheVariants as reply;
ghost use Rattle.ov_model.specs.Step as model;
ghost use Rattle.ov_model.specs.Tables.{Peer, by_id, has_id, without_first};
ghost use Rattle.ov_table.specs.Outcomes.{outcome};
ghost use Rattle.ov_table.specs.Recorded.{unreleased, is_sweep};

use super::Peers;
use crate::outcome::Outcome;
use crate::retired::{retire, retire_all};
use ov_base::{Boxed, ListOf, Memory};
use ov_keys::KeyRec;
use ov_model::limits::{MOST_KEYS, MOST_PEERS};
use ov_model::{Attrs, Command, Errno, KeyConf, NoteBody, PeerId, Reason, Reply};
use std::alloc::Global;

impl Peers {
    /// One command that isn't of many peers, at the moment `now`.
    pub fn command(&mut self, now: u32, command: &Command) -> Result<Outcome, Memory>
        requires { is_sweep (act.Do command.now) ≡ false }
        ensures ok { IfOk result (λ o. outcome self.new o ≡
            model.command_step self.old now command.now) }
        ensures kept { IfOk result (λ o. o.kept ≡ o.reply) }
        ensures more { OnOk result (unreleased self.new ≤ unreleased self.old + 2) }
        ensures err { OnErr result (self.new ≡ self.old) }
    {
        match *command {
            Command::PeerNew(attrs) => self.peer_new(now, &attrs),
            Command::PeerSet(attrs) => self.peer_set(now, &attrs),
            Command::PeerGet(id) => self.peer_get(now, id),
            Command::PeerDump => self.peer_dump(now),
            Command::Remove(id, reason) => self.remove(now, id, reason),
            Command::KeyNew(conf) => self.key_new(now, &conf),
            Command::KeyGet(id, slot) => Ok(self.key_get(now, id, slot)),
            Command::KeySwap(id) => Ok(self.key_swap(now, id)),
            Command::KeyDel(id, slot) => self.key_del(now, id, slot),
            Command::Tick | Command::Down => unreachable!(),
        }
    }

    /// peer-new. Refused in this order: without a remote or a VPN address it is invalid; the id, a VPN
    /// address or the remote of another live peer exists; and then there may be no space.
    #[tactic(auto, unfolding(ov_model::specs::Step::peer_new))]
    fn peer_new(&mut self, now: u32, attrs: &Attrs) -> Result<Outcome, Memory>
        ensures ok { IfOk result (λ o. outcome self.new o ≡ model.peer_new self.old now attrs.now) }
        ensures kept { IfOk result (λ o. o.kept ≡ o.reply) }
        ensures more { OnOk result (unreleased self.new ≤ unreleased self.old + 2) }
        ensures err { OnErr result (self.new ≡ self.old) }
    {
        let Some(remote) = attrs.remote else {
            return Ok(self.refuse(now, Errno::Invalid));
        };
        if attrs.vpn4.is_none() && attrs.vpn6.is_none() {
            return Ok(self.refuse(now, Errno::Invalid));
        }
        if self.live.by_id(attrs.id).is_some()
            || self.live.shares_vpn(attrs)
            || self.live.by_remote(remote).is_some()
        {
            return Ok(self.refuse(now, Errno::Exists));
        }
        if self.made >= MOST_PEERS {
            return Ok(self.refuse(now, Errno::NoSpace));
        }
        self.live.add(self.made, now, attrs, remote)?;
        let serial = self.made;
        self.made += 1;
        self.moment = now;
        Ok(Outcome::plain(Reply::Made(serial), Reply::Made(serial)))
    }

    /// peer-get: what the live peer with an id is, refused where there is none.
    #[tactic(auto, unfolding(ov_model::specs::Step::peer_get))]
    fn peer_get(&mut self, now: u32, id: PeerId) -> Result<Outcome, Memory>
        ensures ok { IfOk result (λ o. outcome self.new o ≡ model.peer_get self.old now id) }
        ensures kept { IfOk result (λ o. o.kept ≡ o.reply) }
        ensures more { OnOk result (unreleased self.new ≤ unreleased self.old + 2) }
        ensures err { OnErr result (self.new ≡ self.old) }
    {
        let Some(shown) = self.live.by_id(id) else {
            return Ok(self.refuse(now, Errno::NoEntry));
        };
        let view = shown.view();
        let reply = Reply::Peer(Boxed::new(self.alloc, view)?);
        let kept = Reply::Peer(Boxed::new(self.alloc, view)?);
        self.moment = now;
        Ok(Outcome::plain(reply, kept))
    }

    /// The removal of the live peer with an id, refused where there is none: it joins the dying ones, the
    /// keys of its slots join the retired ones, and the note tells its id and the reason.
    fn remove(&mut self, now: u32, id: PeerId, reason: Reason) -> Result<Outcome, Memory>
        ensures ok { IfOk result (λ o. outcome self.new o ≡
            model.remove_peer self.old now id reason) }
        ensures kept { IfOk result (λ o. o.kept ≡ o.reply) }
        ensures more { OnOk result (unreleased self.new ≤ unreleased self.old + 2) }
        ensures err { OnErr result (self.new ≡ self.old) }
    {
        if self.live.by_id(id).is_none() {
            return Ok(self.refuse(now, Errno::NoEntry));
        }
        self.remove_there(now, id, reason)
    }

    /// The same for a live peer.
    #[tactic(auto, using(crate::proofs::Outcomes::one_key))]
    fn remove_there(&mut self, now: u32, id: PeerId, reason: Reason) -> Result<Outcome, Memory>
        requires { is_some (by_id id self.old.live) ≡ true }
        ensures ok { IfOk result (λ o. (p : Peer) → by_id id self.old.live ≡ Some p →
            outcome self.new o ≡
            model.removals self.old now reason (p ∷ []) (without_first (has_id id) self.old.live)
            (reply.Removed (p.serial ∷ []))) }
        ensures kept { IfOk result (λ o. o.kept ≡ o.reply) }
        ensures more { OnOk result (unreleased self.new ≤ unreleased self.old + 2) }
        ensures err { OnErr result (self.new ≡ self.old) }
    {
        let Some(peer) = self.live.by_id(id) else {
            unreachable!();
        };
        let serial = peer.serial;
        self.dying.make_room(1, self.made)?;
        self.retired.make_room(2, self.keys_made)?;
        let (reply, kept) = removed_twice(self.alloc, serial)?;
        let Some(mut peer) = self.live.remove(id) else {
            unreachable!();
        };
        let (first, second) = retire_all(&mut self.retired, &mut peer.slots);
        let note = Some(NoteBody::PeerDel {
            id: peer.id,
            reason,
        });
        self.dying.join(peer);
        self.moment = now;
        Ok(Outcome {
            reply,
            kept,
            note,
            first,
            second,
        })
    }

    /// key-new: the key stands in its slot, and a key that stood there is retired. Refused where no live
    /// peer has the id, and then there may be no space.
    fn key_new(&mut self, now: u32, conf: &KeyConf) -> Result<Outcome, Memory>
        ensures ok { IfOk result (λ o. outcome self.new o ≡ model.key_new self.old now conf.now) }
        ensures kept { IfOk result (λ o. o.kept ≡ o.reply) }
        ensures more { OnOk result (unreleased self.new ≤ unreleased self.old + 2) }
        ensures err { OnErr result (self.new ≡ self.old) }
    {
        if self.live.by_id(conf.peer).is_none() {
            return Ok(self.refuse(now, Errno::NoEntry));
        }
        self.key_new_there(now, conf)
    }

    /// The same for a live peer.
    #[tactic(auto, using(crate::proofs::Outcomes::one_taken))]
    fn key_new_there(&mut self, now: u32, conf: &KeyConf) -> Result<Outcome, Memory>
        requires { is_some (by_id conf.now.peer self.old.live) ≡ true }
        ensures ok { IfOk result (λ o. (p : Peer) → by_id conf.now.peer self.old.live ≡ Some p →
            outcome self.new o ≡
            model.unless self.old now (model.key_new_checks self.old)
            (model.key_made self.old now conf.now p)) }
        ensures kept { IfOk result (λ o. o.kept ≡ o.reply) }
        ensures more { OnOk result (unreleased self.new ≤ unreleased self.old + 2) }
        ensures err { OnErr result (self.new ≡ self.old) }
    {
        if self.keys_made >= MOST_KEYS {
            return Ok(self.refuse(now, Errno::NoSpace));
        }
        let serial = self.keys_made;
        self.retired.make_room(1, self.keys_made)?;
        let key = KeyRec::of(self.alloc, serial, conf)?;
        let was = self.live.install(conf.peer, conf.slot, key)?;
        let first = retire(&mut self.retired, was);
        self.keys_made += 1;
        self.moment = now;
        Ok(Outcome {
            reply: Reply::Made(serial),
            kept: Reply::Made(serial),
            note: None,
            first,
            second: None,
        })
    }
}

/// What the removal of the peer with a serial is answered, twice. `Err` is want of memory.
fn removed_twice(alloc: Global, serial: u32) -> Result<(Reply, Reply), Memory>
    ensures reply { IfOk result (λ r. r.0 ≡ reply.Removed (serial ∷ [])) }
    ensures kept { IfOk result (λ r. r.1 ≡ reply.Removed (serial ∷ [])) }
{
    let answered = Vec::from_slice(alloc, &[serial])?;
    let kept = Vec::from_slice(alloc, &[serial])?;
    let answered = Reply::Removed(ListOf::of_vec(answered));
    Ok((answered, Reply::Removed(ListOf::of_vec(kept))))
}
