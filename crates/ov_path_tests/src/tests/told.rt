// The events of a line as the plain desk stores them.

ghost use Rattle.std.specs.Prelude.{◌≡◌, ◌<◌, ◌+◌, ◌++◌, ◌∷◌, [], OnOk, OnErr};
ghost use Rattle.ov_model.specs.Events.{Stepped, release_of};
ghost use Rattle.ov_path.specs.Desks.{stepped_as};
ghost use Rattle.ov_path_tests.specs.Plain.{taken_by};

use ov_base::Memory;
use ov_model::{Act, Call, Drawn, Entry, Given, Owed, Place, Reply, Verdict};
use std::alloc::Global;
use std::marker::Model;

/// What happened.
#[derive(Drop)]
pub enum Kind {
    Step(Entry),
    Replay {
        place: Place,
        key: u32,
        id: u32,
        at: u32,
        verdict: Verdict,
    },
    Draw(u32, Drawn),
    KeyBack(u32, Given),
    PeerBack(u32, Given),
}

/// One event.
#[derive(Drop)]
pub struct Told {
    pub kind: Kind,
}

impl Model for Told {
    ghost use Rattle.ov_model.specs.Events.{Event, Stepped, Judged, Drew, GaveKey, GavePeer};
    ghost use Rattle.ov_path_tests.specs.Plain.{taken_by};
    ghost use Rattle.ov_path_tests.specs.declared.tests.told.Kind.TheVariants.{Step, Replay, Draw, KeyBack, PeerBack};

    ghost Value = { Event };

    ghost view = { λ t. elim t.kind as (λ k. Event) [
      | Step e ↦ Stepped (record {
        entry = e;
        taken = taken_by e.call.act e.reply;
      })
      | Replay place key id at verdict ↦ Judged (record {
        place = place;
        key = key;
        id = id;
        at = at;
        verdict = verdict;
      })
      | Draw key drawn ↦ Drew key drawn
      | KeyBack key given ↦ GaveKey key
          given
      | PeerBack peer given ↦ GavePeer peer given
    ] };
}

impl Told {
    /// A step of the table.
    pub fn stepped(place: Place, call: &Call, reply: Reply) -> Told
        ensures { result ≡ stepped_as place call.now reply (taken_by call.now.act reply) }
    {
        Told {
            kind: Kind::Step(Entry {
                place,
                call: *call,
                reply,
            }),
        }
    }

    /// A release.
    pub fn released(place: Place, at: u32, owed: Owed) -> Told
        ensures { result ≡ Stepped (release_of place at owed) }
    {
        match owed {
            Owed::Peer(peer) => {
                let act = Act::Released(peer);
                Told::stepped(place, &Call { at, act }, Reply::Released(peer))
            }
            Owed::Key(key) => {
                let act = Act::KeyReleased(key);
                Told::stepped(place, &Call { at, act }, Reply::KeyReleased(key))
            }
        }
    }
}

/// The events of a line, with room for those that may come while no memory can be had.
#[derive(Drop)]
pub struct Past {
    items: Vec<Told>,
    room: usize,
}

impl Model for Past {
    ghost use Rattle.std.specs.Prelude.{◌≤◌, ◌+◌, vec_len};
    ghost use Rattle.std.specs.Vec.{vec_capacity};
    ghost use Rattle.ov_path_tests.specs.Plain as plain;

    ghost Value = { plain.Past };

    ghost view = { λ p. record { events = p.items.items; room = p.room } };

    ghost invariant = { λ p. vec_len p.items + p.room ≤ vec_capacity p.items };
}

impl Past {
    /// No events, and no room.
    pub fn new(alloc: Global) -> Past
        ensures { result ≡ record { events = []; room = 0 } }
    {
        Past {
            items: Vec::new(alloc),
            room: 0,
        }
    }

    /// Takes room for `more` events.
    pub fn reserve(&mut self, more: usize) -> Result<(), Memory>
        ensures ok { OnOk result (self.new ≡ record { events = self.old.events; room = more }) }
        ensures err { OnErr result (self.new ≡ self.old) }
    {
        self.items.reserve(more)?;
        self.room = more;
        Ok(())
    }

    /// Appends an event in the room that was taken.
    pub fn push(&mut self, told: Told)
        requires { 0 < self.old.room }
        ensures events { self.new.events ≡ self.old.events ++ told ∷ [] }
        ensures room { self.new.room + 1 ≡ self.old.room }
    {
        self.items.push_reserved(told);
        self.room -= 1;
    }

    /// Forgets the events. The room stays.
    pub fn clear(&mut self)
        ensures { self.new ≡ record { events = []; room = self.old.room } }
    {
        self.items.clear();
    }

    /// The events in order.
    pub fn items(&self) -> &[Told] {
        self.items.as_slice()
    }
}
