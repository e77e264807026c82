//! A lane's seat: what its present line has done and holds, and what it owes. A line takes the room for what it
//! may come to owe before a command and before a look-up, so that no release wants memory.

ghost use Rattle.std.specs.Prelude.{◌≡◌, ◌<◌, ◌-◌, [], ◌∷◌, ◌++◌, OnOk, OnErr, IsSome};
ghost use Rattle.ov_past.specs.Pasts.{event_of, gave};
ghost use Rattle.ov_past.specs.Holds.{hold_without};
ghost use Rattle.ov_core.specs.Seats as spec;
ghost use Rattle.ov_path.specs.Desks.{held_after, stepped_as, first_owed, after_first};

use ov_base::Memory;
use ov_model::{Act, Call, Given, Owed, Place, Reply};
use ov_past::{Happening, Hold, Past};
use ov_table::Table;
use std::alloc::Global;
use std::collections::VecDeque;
use std::marker::Model;

/// What a lane's present line has done, holds and owes.
#[derive(Drop)]
pub struct Seat {
    past: Past,
    hold: Hold,
    owing: VecDeque<Owed>,
    spare: usize,
}

impl Model for Seat {
    ghost use Rattle.std.specs.Prelude.{◌≤◌, ◌+◌};
    ghost use Rattle.std.specs.VecDeque.{deque_len, deque_capacity};
    ghost use Rattle.ov_past.specs.Holds.{holding};
    ghost use Rattle.ov_core.specs.Seats as seats;

    ghost Value = { seats.Sitting };

    ghost view = { λ s. record {
      events = s.past;
      hold = holding s.hold;
      owing = s.owing.items;
      spare = s.spare;
    } };

    ghost invariant = { λ s. deque_len s.owing + s.spare ≤ deque_capacity s.owing };
}

impl Seat {
    /// Nothing was done, and nothing is held or owed.
    pub fn new(alloc: Global) -> Seat
        ensures { result ≡ spec.empty_seat }
    {
        Seat {
            past: Past::new(),
            hold: Hold::Nothing,
            owing: VecDeque::new(alloc),
            spare: 0,
        }
    }

    /// Whether the key with a serial is held.
    pub fn holds_key(&self, key: u32) -> bool
        ensures { result ≡ spec.has_key key self.now.hold }
    {
        match self.hold {
            Hold::Both(view) => view.key == key,
            Hold::Nothing | Hold::PeerLeft(_) => false,
        }
    }

    /// Whether the peer with a serial is held.
    pub fn holds_peer(&self, peer: u32) -> bool
        ensures { result ≡ spec.has_peer peer self.now.hold }
    {
        match self.hold {
            Hold::Both(view) | Hold::PeerLeft(view) => view.peer == peer,
            Hold::Nothing => false,
        }
    }

    /// The first release that is owed.
    pub fn owed(&self) -> Option<Owed>
        ensures { result ≡ first_owed self.now.owing }
    {
        self.owing.front().copied()
    }

    /// Takes the room for as many releases as a command or a look-up may come to owe. After Memory the line is as
    /// it was.
    pub fn begin(&mut self, act: &Act, room: usize) -> Result<(), Memory>
        ensures ok { OnOk result (self.new ≡ spec.seat_begun room act.now self.old) }
        ensures err { OnErr result (self.new ≡ self.old) }
    {
        if takes_room(act) {
            self.owing.reserve(room)?;
            self.spare = room;
        }
        Ok(())
    }

    /// Owes a release, in the room that was taken.
    pub fn owe(&mut self, owed: Owed)
        requires { 0 < self.old.spare }
        ensures { self.new ≡ record self.old {
          owing = self.old.owing ++ owed ∷ [];
          spare = self.old.spare - 1;
        } }
    {
        let Ok(()) = self.owing.push_back(owed) else {
            unreachable!();
        };
        self.spare -= 1;
    }

    /// A step of the table was made, which left it so.
    pub fn stepped(&mut self, place: Place, call: &Call, reply: &Reply, left: &Table)
        ensures { self.new ≡ record self.old {
          events = self.old.events ++
              stepped_as place call.now reply.now left.now.taken ∷ [];
          hold = held_after self.old.hold call.now.act reply.now;
        } }
    {
        self.past.push(Happening::stepped(place, call, reply, left));
        self.hold = self.hold.after(&call.act, reply);
    }

    /// An event came that is neither a step of the table nor a give-back.
    pub fn saw(&mut self, event: Happening)
        ensures { self.new ≡ record self.old {
          events = self.old.events ++ event_of event ∷ [];
        } }
    {
        self.past.push(event);
    }

    /// The key or the peer is given back: only the peer is held on, or nothing.
    pub fn let_go(&mut self, owed: Owed)
        ensures { self.new ≡ record self.old {
          hold = hold_without owed self.old.hold;
        } }
    {
        self.hold = self.hold.without(owed);
    }

    /// What giving it back answered: where that was the last hold, the release is owed.
    pub fn gave(&mut self, owed: Owed, given: Given)
        requires { 0 < self.old.spare }
        ensures { self.new ≡ spec.owing_if (record self.old {
          events = self.old.events ++ gave owed given ∷ [];
        }) given owed }
    {
        self.past.push(Happening::Gave(owed, given));
        match given {
            Given::Last => self.owe(owed),
            Given::More => (),
        }
    }

    /// The release that is owed first was made, and left the table so.
    pub fn released(&mut self, place: Place, call: &Call, reply: &Reply, left: &Table)
        requires { IsSome (first_owed self.old.owing) }
        ensures { self.new ≡ record self.old {
          events = self.old.events ++
              stepped_as place call.now reply.now left.now.taken ∷ [];
          owing = after_first self.old.owing;
        } }
    {
        self.owing.pop_front();
        self.past.push(Happening::stepped(place, call, reply, left));
    }

    /// The line is over: its events are forgotten.
    pub fn clear(&mut self)
        ensures { self.new ≡ record self.old { events = [] } }
    {
        self.past = Past::new();
    }
}

/// Whether a step is a command or a look-up: the others come while a line holds or owes.
fn takes_room(act: &Act) -> bool
    ensures { result ≡ spec.takes_room act.now }
{
    match act {
        Act::Do(_) | Act::TxLook(_) | Act::RxLook { .. } | Act::KeepLook(_) => true,
        Act::Sent { .. }
        | Act::Settle { .. }
        | Act::Spend { .. }
        | Act::Released(_)
        | Act::KeyReleased(_) => false,
    }
}
