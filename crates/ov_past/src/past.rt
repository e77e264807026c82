//! What a lane's present line has done, event by event. Clauses alone read it: when the program runs it has no
//! bytes.

ghost use Rattle.std.specs.Prelude.{◌≡◌, [], ◌∷◌, ◌++◌};
ghost use Rattle.ov_path.specs.Desks.{stepped_as};
ghost use Rattle.ov_past.specs.Pasts.{event_of};

use ov_model::{Call, Drawn, Given, Owed, Place, Reply, Verdict};
use ov_table::Table;
use std::marker::Model;
use std::mem;
use std::snapshot::Snapshot;

/// A step of the table. What it took out of slots stands in the table that it left.
#[derive(Drop)]
pub struct Step {
    place: Place,
    call: Snapshot<Call>,
    reply: Snapshot<Reply>,
    left: Snapshot<Table>,
}

/// A replay step: its place, the serial of the key, the packet id, the moment and the verdict.
#[derive(Drop)]
pub struct Judged {
    pub place: Place,
    pub key: u32,
    pub id: u32,
    pub at: u32,
    pub verdict: Verdict,
}

/// One event.
#[derive(Drop)]
pub enum Happening {
    Stepped(Step),
    Judged(Judged),
    /// What the counter of the key with a serial gave.
    Drew(u32, Drawn),
    /// What giving back the key or the peer answered.
    Gave(Owed, Given),
}

impl Happening {
    /// A step of the table, and the table after it.
    pub fn stepped(place: Place, call: &Call, reply: &Reply, left: &Table) -> Happening
        ensures { event_of result ≡ stepped_as place call.now reply.now left.now.taken }
    {
        Happening::Stepped(Step {
            place,
            call: Snapshot::of(call),
            reply: Snapshot::of(reply),
            left: Snapshot::of(left),
        })
    }
}

/// The last event and those before it.
#[cycle(past)]
#[derive(Drop)]
enum Last {
    Nothing,
    After(Past, Happening),
}

/// The events of a line, in their order.
#[cycle(past)]
#[derive(Drop)]
pub struct Past {
    last: Snapshot<Last>,
}

impl Model for Past {
    ghost use Rattle.std.specs.Prelude.{List, length};
    ghost use Rattle.ov_model.specs.Events.{Event};

    ghost Value = { List Event };

    ghost use Rattle.ov_past.specs.Pasts.{events_of};

    ghost view = { λ p. events_of p.last.value };

    ghost size = { length };

    ghost use Rattle.std.proofs.Common.{arith, length-append};

    ghost size_decreases = { λ a h. Prim.grind (arith, length-append) };
}

impl Past {
    /// No event.
    pub fn new() -> Past
        ensures { result ≡ [] }
    {
        Past {
            last: Snapshot::of(&Last::Nothing),
        }
    }

    /// One event more.
    pub fn push(&mut self, event: Happening)
        ensures { self.new ≡ self.old ++ event_of event ∷ [] }
    {
        let before = mem::replace(self, Past::new());
        self.last = Snapshot::of(&Last::After(before, event));
    }
}
