// A second desk, over plain lists: one peer, one key, and the events of its line as they came.

ghost use Rattle.std.specs.Prelude.{◌≡◌, ◌<◌, ◌≤◌, ◌++◌, [], true, length, IfOk, vec_len, nat_eq};
ghost use Rattle.std.specs.List.{IsDistinct};
ghost use Rattle.ov_model.specs.Path.{removed};
ghost use Rattle.std.specs.Vec.{vec_capacity};
ghost use Rattle.ov_path.specs.Desks.{NoHold, IsNew, held_after, owed_if, is_ticked, IsReplyOf, HasMaterial};
ghost use Rattle.ov_path_tests.specs.Plain.{Joined, one_key, listed, shown_of};

use super::told::{Kind, Past, Told};
use ov_base::{Addr, Boxed, ListOf, Memory};
use ov_keys::KeyPair;
use ov_model::{
    Act, Call, Command, Drawn, Given, HoldView, InnerKind, Owed, Place, Reply, Settled, Verdict,
};
use ov_path::Desk;
use std::alloc::Global;
use std::marker::Model;

/// The room that a call takes: its own event, and nine that may come before the next that can take room.
const MOST_EVENTS: usize = 10;

/// What the line holds.
#[derive(Drop)]
pub struct Hold {
    view: Option<HoldView>,
    // Whether the key was given back.
    left: bool,
}

impl Model for Hold {
    ghost use Rattle.ov_path.specs.Desks.{Holding};
    ghost use Rattle.ov_path_tests.specs.Plain.{holding_at};

    ghost Value = { Holding };

    ghost view = { λ h. holding_at h.view h.left };
}

impl Hold {
    fn none() -> Hold
        ensures { result ≡ NoHold }
    {
        Hold {
            view: None,
            left: false,
        }
    }

    /// A look-up that found a peer and its key holds them.
    fn step(&mut self, act: &Act, reply: &Reply)
        ensures { self.new ≡ held_after self.old act.now reply.now }
    {
        let (Act::TxLook(_) | Act::RxLook { .. } | Act::KeepLook(_), Reply::Hold(view)) = (
            act, reply,
        ) else {
            return;
        };
        self.view = Some(*view);
        self.left = false;
    }
}

/// The desk.
#[derive(Drop)]
pub struct Plain {
    alloc: Global,
    peer: HoldView,
    // The peer's address inside the tunnel.
    vpn: Addr,
    pair: KeyPair,
    // The next hop of every address, where one is given.
    hop: Option<Addr>,
    // Whether the give-backs are the last ones.
    last: bool,
    // What the counter gives next.
    next: u64,
    // What a tick finds: the peer that it removes, and those that are due.
    expired: Option<u32>,
    due: Vec<u32>,
    // The due peer that takes no ping.
    absent: Option<u32>,
    accepted: Vec<u32>,
    past: Past,
    hold: Hold,
    drew: bool,
    owing: Option<Owed>,
}

impl Model for Plain {
    ghost use Rattle.ov_path_tests.specs.Plain.{Kept, Sound};

    ghost Value = { Kept };

    ghost view = { λ p. record {
      events = p.past.events;
      room = p.past.room;
      hold = p.hold;
      drew = p.drew;
      owing = p.owing;
      pair = p.pair;
      hop = p.hop;
    } };

    ghost invariant = { λ p. Sound (record {
      events = p.past.events;
      room = p.past.room;
      hold = p.hold;
      drew = p.drew;
      owing = p.owing;
      pair = p.pair;
      hop = p.hop;
    }) };
}

impl Plain {
    /// A desk with one peer, which has this address inside the tunnel, and one key. `next` is what the
    /// counter gives first.
    pub fn new(alloc: Global, peer: HoldView, vpn: Addr, pair: KeyPair, next: u64) -> Plain
        ensures { IsNew (shown_of result) }
    {
        Plain {
            alloc,
            peer,
            vpn,
            pair,
            hop: None,
            last: false,
            next,
            expired: None,
            due: Vec::new(alloc),
            absent: None,
            accepted: Vec::new(alloc),
            past: Past::new(alloc),
            hold: Hold::none(),
            drew: false,
            owing: None,
        }
    }

    /// Every address has this next hop from here on.
    pub fn route(&mut self, hop: Addr) {
        self.hop = Some(hop);
    }

    /// The next ticks find these peers due.
    pub fn finds_due(&mut self, due: Vec<u32>) {
        self.due = due;
    }

    /// The next ticks remove this peer.
    pub fn expires(&mut self, peer: u32) {
        self.expired = Some(peer);
    }

    /// This due peer takes no ping.
    pub fn has_no_key(&mut self, peer: u32) {
        self.absent = Some(peer);
    }

    /// The give-backs are the last ones from here on.
    pub fn be_last(&mut self) {
        self.last = true;
    }

    /// Begins a line: nothing happened yet, and nothing is held or owed.
    pub fn begin(&mut self)
        ensures new { IsNew (shown_of self.new) }
        ensures hop { self.new.hop ≡ self.old.hop }
    {
        self.past.clear();
        self.hold = Hold::none();
        self.drew = false;
        self.owing = None;
    }

    /// The events of the line.
    pub fn events(&self) -> &[Told] {
        self.past.items()
    }

    /// Takes one step of the table, whose reply fits it. A removal has the one peer's serial, and every other
    /// command is done.
    #[tactic(auto, using(crate::proofs::Plain::few_differ, crate::proofs::Plain::has_key))]
    fn decide(&self, act: &Act) -> Result<Reply, Memory>
        ensures fits { IfOk result (λ r. IsReplyOf act.now r) }
        ensures apart { IfOk result (λ r. IsDistinct nat_eq (removed r)) }
        ensures has { IfOk result (λ r. HasMaterial (one_key self.now.pair) act.now r) }
    {
        match act {
            Act::Do(Command::Remove(_, _)) => {
                let mut serials = Vec::new(self.alloc);
                serials.push(self.peer.peer)?;
                Ok(Reply::Removed(ListOf::of_vec(serials)))
            }
            Act::Do(Command::Tick) => self.ticked(),
            Act::Do(_) => Ok(Reply::Done),
            Act::KeepLook(peer) => {
                if self.absent == Some(*peer) {
                    return Ok(Reply::Skip);
                }
                Ok(Reply::Hold(HoldView {
                    peer: *peer,
                    ..self.peer
                }))
            }
            Act::TxLook(addr) => {
                if addr.is(self.vpn) {
                    return Ok(Reply::Hold(self.peer));
                }
                Ok(Reply::NoPeer)
            }
            Act::RxLook { id, key_id, .. } => {
                if *id != self.peer.id {
                    return Ok(Reply::NoPeer);
                }
                if *key_id != self.peer.key_id {
                    return Ok(Reply::NoKey);
                }
                Ok(Reply::Hold(self.peer))
            }
            Act::Sent { .. } => Ok(Reply::Done),
            Act::Settle { kind, .. } => Ok(Reply::Settled(self.settled(*kind))),
            Act::Spend { .. } => Ok(Reply::Killed),
            Act::Released(peer) => Ok(Reply::Released(*peer)),
            Act::KeyReleased(key) => Ok(Reply::KeyReleased(*key)),
        }
    }

    /// The reply of a tick.
    fn ticked(&self) -> Result<Reply, Memory>
        ensures ticked { IfOk result (λ r. is_ticked r ≡ true) }
        ensures few { IfOk result (λ r. length (removed r) ≤ 1) }
    {
        let expired = self.removes()?;
        let due = Vec::from_slice(self.alloc, self.due.as_slice())?;
        Ok(Reply::Ticked {
            expired,
            due: ListOf::of_vec(due),
        })
    }

    /// The peer that a tick removes, if any.
    fn removes(&self) -> Result<ListOf<u32>, Memory>
        ensures few { IfOk result (λ serials. length serials ≤ 1) }
    {
        let mut serials = Vec::new(self.alloc);
        let Some(serial) = self.expired else {
            return Ok(ListOf::of_vec(serials));
        };
        serials.push(serial)?;
        Ok(ListOf::of_vec(serials))
    }

    fn settled(&self, kind: InnerKind) -> Settled {
        match kind {
            InnerKind::From(addr) => {
                if addr.is(self.vpn) {
                    return Settled::Deliver;
                }
                Settled::NotOwner
            }
            InnerKind::Ping => Settled::Ping,
            InnerKind::NotIp => Settled::NotIp,
        }
    }
}

impl Desk for Plain {
    ghost use Rattle.std.specs.Prelude.{◌≡◌};
    ghost use Rattle.ov_path_tests.specs.Plain.{shown_of};

    ghost view = { λ p. shown_of p };

    ghost does = { λ p event q. q.hop ≡ p.hop };

    ghost keeps = { λ p q. q.hop ≡ p.hop };

    ghost keeps_itself = { λ d i. d.hop };

    fn table(&mut self, place: Place, call: &Call) -> Result<Reply, Memory> {
        let reply = self.decide(&call.act)?;
        let kept = twin(self.alloc, &reply)?;
        self.past.reserve(MOST_EVENTS)?;
        self.drew = false;
        self.hold.step(&call.act, &reply);
        self.owing = joined(self.owing, &call.act, &reply);
        self.past.push(Told::stepped(place, call, kept));
        Ok(reply)
    }

    fn pair(&self, _key: u32) -> Option<&KeyPair> {
        Some(&self.pair)
    }

    fn replay(&mut self, place: Place, key: u32, id: u32, at: u32) -> Result<Verdict, Memory> {
        self.accepted.reserve(1)?;
        self.past.reserve(MOST_EVENTS)?;
        self.drew = false;
        let verdict = judge(&mut self.accepted, id);
        self.past.push(Told {
            kind: Kind::Replay {
                place,
                key,
                id,
                at,
                verdict,
            },
        });
        Ok(verdict)
    }

    fn draw(&mut self, key: u32) -> Drawn {
        let drawn = count(&mut self.next);
        self.drew = true;
        self.past.push(Told {
            kind: Kind::Draw(key, drawn),
        });
        drawn
    }

    fn give_back_key(&mut self, key: u32) -> Given {
        let given = give(&mut self.owing, self.last, Owed::Key(key));
        self.hold.left = true;
        self.drew = false;
        self.past.push(Told {
            kind: Kind::KeyBack(key, given),
        });
        given
    }

    fn give_back(&mut self, peer: u32) -> Given {
        let given = give(&mut self.owing, self.last, Owed::Peer(peer));
        self.hold = Hold::none();
        self.drew = false;
        self.past.push(Told {
            kind: Kind::PeerBack(peer, given),
        });
        given
    }

    fn owed(&self) -> Option<Owed> {
        self.owing
    }

    fn release(&mut self, place: Place, at: u32, owed: Owed) {
        self.owing = None;
        self.drew = false;
        self.past.push(Told::released(place, at, owed));
    }

    fn via(&self, addr: Addr) -> Addr {
        match self.hop {
            Some(hop) => hop,
            None => addr,
        }
    }
}

/// A copy of a list of serials.
fn serials_twin(alloc: Global, serials: &ListOf<u32>) -> Result<ListOf<u32>, Memory>
    ensures { IfOk result (λ copy. copy ≡ serials.now) }
{
    let serials = Vec::from_slice(alloc, serials.as_slice())?;
    Ok(ListOf::of_vec(serials))
}

/// A copy of a reply.
fn twin(alloc: Global, reply: &Reply) -> Result<Reply, Memory>
    ensures { IfOk result (λ copy. copy ≡ reply.now) }
{
    match reply {
        Reply::Made(serial) => Ok(Reply::Made(*serial)),
        Reply::Done => Ok(Reply::Done),
        Reply::Peer(view) => Ok(Reply::Peer(Boxed::new(alloc, *view.get())?)),
        Reply::Peers(views) => {
            let views = Vec::from_slice(alloc, views.as_slice())?;
            Ok(Reply::Peers(ListOf::of_vec(views)))
        }
        Reply::Key(view) => Ok(Reply::Key(*view)),
        Reply::Removed(serials) => Ok(Reply::Removed(serials_twin(alloc, serials)?)),
        Reply::Hold(view) => Ok(Reply::Hold(*view)),
        Reply::NoPeer => Ok(Reply::NoPeer),
        Reply::NoKey => Ok(Reply::NoKey),
        Reply::Skip => Ok(Reply::Skip),
        Reply::Ticked { expired, due } => {
            let expired = serials_twin(alloc, expired)?;
            let due = serials_twin(alloc, due)?;
            Ok(Reply::Ticked { expired, due })
        }
        Reply::Settled(settled) => Ok(Reply::Settled(*settled)),
        Reply::Killed => Ok(Reply::Killed),
        Reply::AlreadyGone => Ok(Reply::AlreadyGone),
        Reply::Released(serial) => Ok(Reply::Released(*serial)),
        Reply::KeyReleased(serial) => Ok(Reply::KeyReleased(*serial)),
        Reply::Refused(errno) => Ok(Reply::Refused(*errno)),
    }
}

/// What is owed after a step: the first peer that a command removed, where nothing was owed before.
#[tactic(auto, using(crate::proofs::Plain::nothing_joins, crate::proofs::Plain::first_joins, crate::proofs::Plain::first_expires))]
fn joined(owing: Option<Owed>, act: &Act, reply: &Reply) -> Option<Owed>
    ensures { Joined act.now reply.now owing result }
{
    if let Some(owed) = owing {
        return Some(owed);
    }
    let Act::Do(_) = act else {
        return None;
    };
    match reply {
        Reply::Removed(serials) => match serials.as_slice().split_first() {
            Some((serial, _)) => Some(Owed::Peer(*serial)),
            None => None,
        },
        Reply::Ticked { expired, .. } => match expired.as_slice().split_first() {
            Some((serial, _)) => Some(Owed::Peer(*serial)),
            None => None,
        },
        _ => None,
    }
}

/// A packet id is accepted once.
fn judge(accepted: &mut Vec<u32>, id: u32) -> Verdict
    requires { vec_len accepted.old < vec_capacity accepted.old }
{
    if id == 0 {
        return Verdict::Zero;
    }
    if accepted.contains(&id) {
        return Verdict::Again;
    }
    accepted.push_reserved(id);
    Verdict::Accept
}

/// What the counter gives: 4294967295 is its last id.
fn count(next: &mut u64) -> Drawn {
    let Ok(id) = u32::try_from(*next) else {
        return Drawn::Spent;
    };
    *next = u64::from(id) + 1;
    Drawn::Id(id)
}

/// What a give-back answers, with its release owed where it was the last: at most one is owed at a time.
fn give(owing: &mut Option<Owed>, last: bool, owed: Owed) -> Given
    ensures { listed owing.new ≡ listed owing.old ++ owed_if result owed }
{
    if owing.is_none() && last {
        *owing = Some(owed);
        return Given::Last;
    }
    Given::More
}
