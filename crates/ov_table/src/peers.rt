//! The lists of the live and the dying peers and of the retired keys, and the acts on them. It is kept
//! true that at most 4,096 peers and 65,536 keys were ever made, that the lists hold no more peers than
//! were made, and that no serial of a peer or of a key stands twice.

ghost use Rattle.std.specs.Prelude.{◌≡◌, ◌≤◌, ◌+◌, ◌*◌, ◌||◌, max, false, IfOk, IfSome, OnOk, OnErr, option_copied};
ghost use Rattle.ov_model.specs.Step as model;
ghost use Rattle.ov_model.specs.Tables.{empty_table};
ghost use Rattle.ov_table.specs.Outcomes.{outcome};
ghost use Rattle.ov_table.specs.Pairs.{pair_in};
ghost use Rattle.ov_table.specs.Recorded.{unreleased, is_release, is_sweep, first_waiting};

mod commands;
mod looks;
mod releases;
mod standing;
mod ticks;
mod uses;

use crate::find;
use crate::outcome::Outcome;
use ov_base::Memory;
use ov_index::{Gone, Index, Peer};
use ov_keys::{KeyPair, KeyRec};
use ov_model::{Act, Errno, Owed, Reply};
use std::alloc::Global;
use std::marker::Model;

/// The peers and the keys that are out of their slots, how many of both were ever made, and the greatest
/// moment so far in whole seconds.
#[derive(Drop)]
pub struct Peers {
    alloc: Global,
    live: Index,
    dying: Gone<Peer>,
    retired: Gone<KeyRec>,
    made: u32,
    keys_made: u32,
    moment: u32,
}

impl Model for Peers {
    ghost use Rattle.std.specs.Prelude.{◌≡◌, ◌≤◌, ◌+◌, length};
    ghost use Rattle.ov_model.specs.Limits.{most_peers, most_keys};
    ghost use Rattle.ov_model.specs.Tables.{Table, serials_of, keys_of, key_serials};
    ghost use Rattle.ov_table.specs.Apart.{Apart};

    ghost Value = { Table };

    ghost view = { λ t. record {
      live = t.live.live;
      dying = t.dying.items;
      retired = t.retired.items;
      made = t.made;
      keys_made = t.keys_made;
      moment = t.moment;
    } };

    ghost invariant = { λ t. (t.made ≤ most_peers) ×
        (length t.live.live + length t.dying.items ≤ t.made) × (t.keys_made ≤ most_keys) ×
        (t.live.made ≡ t.made) × (t.live.keys_made ≡ t.keys_made) ×
        (Apart (serials_of t.live.live) (serials_of t.dying.items) t.made) ×
        (Apart (key_serials (keys_of t.live.live)) (key_serials t.retired.items) t.keys_made) };
}

impl Peers {
    /// No peers, at moment 0.
    pub fn new(alloc: Global) -> Peers
        ensures { result ≡ empty_table }
    {
        Peers {
            alloc,
            live: Index::new(alloc),
            dying: Gone::new(alloc),
            retired: Gone::new(alloc),
            made: 0,
            keys_made: 0,
            moment: 0,
        }
    }

    /// Room for the entry of one step with all the releases that may follow it, where it removes one peer at most: it
    /// takes at most two keys out of their slots, and no more peers are there than were made. `None` is a number past the greatest usize.
    pub fn room(&self) -> Option<usize>
        ensures { IfSome result (λ n. unreleased self.now + 3 ≤ n) }
    {
        self.retired.len().checked_add(self.made as usize + 3)
    }

    /// Room for the entry of a step that removes so many peers, with all the releases that may follow it.
    pub fn room_for(&self, removed: u32) -> Option<usize>
        ensures { IfSome result (λ n. unreleased self.now + 2 * removed + 3 ≤ n) }
    {
        self.room()?.checked_add(2 * removed as usize)
    }

    /// The greater of the table's moment and `at`.
    pub fn moment_at(&self, at: u32) -> u32
        ensures { result ≡ max self.now.moment at }
    {
        self.moment.max(at)
    }

    /// Whether an act may be made.
    pub fn may(&self, act: &Act) -> bool
        ensures { result ≡ model.may_act self.now act.now }
    {
        match *act {
            Act::Do(_) | Act::TxLook(_) | Act::RxLook { .. } | Act::KeepLook(_) => true,
            Act::Sent { peer, .. } | Act::Settle { peer, .. } => self.is_there(peer),
            Act::Spend { peer, key } => {
                self.is_there(peer) && (self.live.has_key(key) || self.retired.has(key))
            }
            Act::Released(peer) => self.dying.has(peer),
            Act::KeyReleased(key) => self.retired.has(key),
        }
    }

    /// Whether a peer with this serial isn't let go yet.
    fn is_there(&self, peer: u32) -> bool
        ensures { result ≡
            (model.is_there peer self.now.live || model.is_there peer self.now.dying) }
    {
        self.live.has_serial(peer) || self.dying.has(peer)
    }

    /// What may be let go first: a retired key, or else a dying peer.
    pub fn waiting(&self) -> Option<Owed>
        ensures { result ≡ first_waiting self.now }
    {
        match (self.retired.first(), self.dying.first()) {
            (Some(key), _) => Some(Owed::Key(key.serial)),
            (None, Some(peer)) => Some(Owed::Peer(peer.serial)),
            (None, None) => None,
        }
    }

    /// What the key with a serial seals and opens with, where it is in a slot of a live peer or retired. It
    /// is lent: a pair has 1.7 KB.
    pub fn pair(&self, key: u32) -> Option<&KeyPair>
        ensures { option_copied result ≡ pair_in self.now key }
    {
        if let Some(key) = find::key_in_slots(&self.live, key) {
            return Some(&key.pair);
        }
        let key = self.retired.find(key)?;
        Some(&key.pair)
    }

    /// One act that is neither a release nor of many peers, at the moment `now`.
    pub fn act(&mut self, now: u32, act: &Act) -> Result<Outcome, Memory>
        requires release { is_release act.now ≡ false }
        requires sweep { is_sweep act.now ≡ false }
        ensures ok { IfOk result (λ o. outcome self.new o ≡ model.act_step self.old now act.now) }
        ensures kept { IfOk result (λ o. o.kept ≡ o.reply) }
        ensures more { OnOk result (unreleased self.new ≤ unreleased self.old + 2) }
        ensures err { OnErr result (self.new ≡ self.old) }
    {
        match *act {
            Act::Do(command) => self.command(now, &command),
            Act::TxLook(to) => Ok(self.tx_look(now, to)),
            Act::RxLook { id, key_id, from } => Ok(self.rx_look(now, id, key_id, from)),
            Act::Sent {
                peer,
                inner,
                outer,
                ping,
            } => Ok(self.sent(now, peer, inner, outer, ping)),
            Act::Settle {
                peer,
                from,
                kind,
                inner,
                outer,
            } => self.settle(now, peer, from, kind, inner, outer),
            Act::Spend { peer, key } => self.spend(now, peer, key),
            Act::KeepLook(peer) => Ok(self.keep_look(now, peer)),
            Act::Released(_) | Act::KeyReleased(_) => unreachable!(),
        }
    }

    /// A refusal changes nothing but the moment.
    fn refuse(&mut self, now: u32, errno: Errno) -> Outcome
        ensures value { outcome self.new result ≡ model.refused self.old now errno }
        ensures kept { result.kept ≡ result.reply }
        ensures same { unreleased self.new ≡ unreleased self.old }
    {
        self.moment = now;
        Outcome::plain(Reply::Refused(errno), Reply::Refused(errno))
    }
}
