//! What is done with a held peer and key.

ghost use Rattle.std.specs.Prelude.{◌≡◌, ◌≤◌, ◌+◌, true, Some, IfOk, OnOk, OnErr};
ghost use Rattle.ov_model.specs.Step as model;
ghost use Rattle.ov_model.specs.Tables.{by_serial, by_key};
ghost use Rattle.ov_model.specs.declared.reply.Reply.TheVariants as reply;
ghost use Rattle.ov_model.specs.Tables as tables;
ghost use Rattle.ov_table.specs.Outcomes.{outcome};
ghost use Rattle.ov_table.specs.Recorded.{unreleased};

use super::Peers;
use crate::find;
use crate::outcome::Outcome;
use ov_base::{Memory, Transport};
use ov_model::{InnerKind, NoteBody, Reply};

impl Peers {
    /// A datagram was sealed for a held peer, live or dying: it is counted, a ping outside the tunnel alone.
    #[tactic(auto, unfolding(ov_model::specs::Step::sent))]
    pub fn sent(&mut self, now: u32, peer: u32, inner: u32, outer: u32, ping: bool) -> Outcome
        ensures value { outcome self.new result ≡ model.sent self.old now peer inner outer ping }
        ensures kept { result.kept ≡ result.reply }
        ensures same { unreleased self.new ≡ unreleased self.old }
    {
        let done = Outcome::plain(Reply::Done, Reply::Done);
        self.moment = now;
        if self.live.sent(peer, now, inner, outer, ping) {
            return done;
        }
        self.dying.sent(peer, now, inner, outer, ping);
        done
    }

    /// A fresh datagram of a held peer was opened: it is counted, a live peer may float to the transport
    /// that it came from, a dying one floats nowhere, and its packet is delivered where its source is the
    /// peer's.
    #[tactic(auto, unfolding(ov_model::specs::Step::settle))]
    pub fn settle(
        &mut self,
        now: u32,
        peer: u32,
        from: Option<Transport>,
        kind: InnerKind,
        inner: u32,
        outer: u32,
    ) -> Result<Outcome, Memory>
        ensures ok { IfOk result (λ o. outcome self.new o ≡
            model.settle self.old now peer from kind inner outer) }
        ensures kept { IfOk result (λ o. o.kept ≡ o.reply) }
        ensures more { OnOk result (unreleased self.new ≤ unreleased self.old + 2) }
        ensures err { OnErr result (self.new ≡ self.old) }
    {
        let settled = find::settled_as(&self.live, peer, kind);
        let there = self.live.settle(peer, now, from, settled, inner, outer)?;
        let done = Outcome::plain(Reply::Settled(settled), Reply::Settled(settled));
        self.moment = now;
        if there {
            return Ok(done);
        }
        self.dying.settle(peer, now, settled, inner, outer);
        Ok(done)
    }

    /// A held key gave its last packet id. Where it stands in a slot of the live peer it is retired, and
    /// the note tells so.
    pub fn spend(&mut self, now: u32, peer: u32, key: u32) -> Result<Outcome, Memory>
        ensures ok { IfOk result (λ o. outcome self.new o ≡ model.spend self.old now peer key) }
        ensures kept { IfOk result (λ o. o.kept ≡ o.reply) }
        ensures more { OnOk result (unreleased self.new ≤ unreleased self.old + 2) }
        ensures err { OnErr result (self.new ≡ self.old) }
    {
        if !self.live.has_serial(peer) {
            self.moment = now;
            return Ok(Outcome::plain(Reply::AlreadyGone, Reply::AlreadyGone));
        }
        self.spend_there(now, peer, key)
    }

    /// The same for a live peer.
    fn spend_there(&mut self, now: u32, peer: u32, key: u32) -> Result<Outcome, Memory>
        requires { model.is_there peer self.old.live ≡ true }
        ensures ok { IfOk result (λ o. (p : tables.Peer) →
            by_serial peer self.old.live ≡ Some p →
            outcome self.new o ≡
            model.where_found self.old now reply.AlreadyGone (by_key key p.slots)
            (model.spent_key self.old now peer key p)) }
        ensures kept { IfOk result (λ o. o.kept ≡ o.reply) }
        ensures more { OnOk result (unreleased self.new ≤ unreleased self.old + 2) }
        ensures err { OnErr result (self.new ≡ self.old) }
    {
        self.retired.make_room(1, self.keys_made)?;
        self.moment = now;
        let Some(held) = self.live.by_serial(peer) else {
            unreachable!();
        };
        let id = held.id;
        if held.slots.by_key(key).is_none() {
            return Ok(Outcome::plain(Reply::AlreadyGone, Reply::AlreadyGone));
        }
        let Some(killed) = self.live.kill(peer, key) else {
            unreachable!();
        };
        let note = Some(NoteBody::KeySwap {
            id,
            key_id: killed.key_id,
        });
        self.retired.join(killed);
        Ok(Outcome {
            reply: Reply::Killed,
            kept: Reply::Killed,
            note,
            first: Some(key),
            second: None,
        })
    }
}
