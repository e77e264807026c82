//! The places of the live peers. It is kept true how many of them stand there, so that nobody has to look at each place
//! to know it.

ghost use Rattle.std.specs.Prelude.{◌≡◌, ◌≤◌, ◌<◌, ◌++◌, ◌∷◌, [], Some, None, length, slice_set, option_copied, OnOk};
ghost use Rattle.ov_model.specs.Tables as tables;
ghost use Rattle.ov_index.specs.Index as specs;

use crate::places;
use ov_base::Memory;
use ov_peer::Peer;
use std::alloc::Global;
use std::marker::Model;

/// A place for each peer that was made, with a hole for each that is gone.
#[derive(Drop)]
pub struct Places {
    slots: Vec<Option<Peer>>,
    standing: usize,
}

impl Model for Places {
    ghost use Rattle.std.specs.Prelude.{◌≡◌, ◌-◌, length, vec_len};
    ghost use Rattle.std.specs.Vec.{vec_capacity};
    ghost use Rattle.ov_index.specs.Index.{Placed, present};

    ghost Value = { Placed };

    ghost view = { λ t. record { items = t.slots.items; room = vec_capacity t.slots - vec_len t.slots } };

    ghost invariant = { λ t. t.standing ≡ length (present t.slots.items) };
}

impl Places {
    /// No places. It takes no memory until room is made.
    pub fn new(alloc: Global) -> Places
        ensures { result.items ≡ [] }
    {
        Places {
            slots: Vec::new(alloc),
            standing: 0,
        }
    }

    /// Makes room for one place more. `Err` is want of memory; the places stay what they are either way.
    pub fn reserve(&mut self) -> Result<(), Memory>
        ensures items { self.new.items ≡ self.old.items }
        ensures room { OnOk result (0 < self.new.room) }
    {
        self.slots.reserve(1)?;
        Ok(())
    }

    /// A peer gets the next place, in the room that was made for it. It takes no memory.
    pub fn push(&mut self, peer: Peer)
        requires { 0 < self.old.room }
        ensures { self.new.items ≡ self.old.items ++ Some peer ∷ [] }
    {
        self.slots.push_reserved(Some(peer));
        self.standing += 1;
    }

    /// Takes who stands at a place out, and leaves a hole.
    pub fn take_at(&mut self, place: usize) -> Option<Peer>
        ensures was { result ≡ specs.standing self.old.items place }
        ensures now { self.new.items ≡ slice_set self.old.items place None }
        ensures long { length self.new.items ≡ length self.old.items }
    {
        let peer = places::take_at(&mut self.slots, place)?;
        self.standing -= 1;
        Some(peer)
    }

    /// Puts a peer at a place.
    pub fn put_at(&mut self, place: usize, peer: Peer)
        requires { place < length self.old.items }
        ensures { self.new.items ≡ slice_set self.old.items place (Some peer) }
    {
        self.standing = count_with(&self.slots, place, self.standing);
        places::put_at(&mut self.slots, place, peer);
    }

    /// Who stands at a place.
    pub fn standing(&self, place: usize) -> Option<&Peer>
        ensures { option_copied result ≡ specs.standing self.now.items place }
    {
        places::standing(&self.slots, place)
    }

    /// How many peers stand at a place.
    pub fn count(&self) -> usize
        ensures { result ≡ length (specs.present self.now.items) }
    {
        self.standing
    }

    /// The places, in the order of making.
    pub fn as_slice(&self) -> &[Option<Peer>]
        ensures { result.now ≡ self.now.items }
    {
        self.slots.as_slice()
    }
}

/// How many stand at the places once a peer is put at one, where `standing` stand there now.
fn count_with(slots: &[Option<Peer>], place: usize, standing: usize) -> usize
    requires place { place < length slots.now }
    requires standing { standing ≡ length (specs.present slots.now) }
    ensures { (peer : tables.Peer) →
        result ≡ length (specs.present (slice_set slots.now place (Some peer))) }
{
    if slots[place].is_none() {
        standing + 1
    } else {
        standing
    }
}
