//! Those that are gone but not let go yet: a list in the order of joining, found by serial without a search. It is
//! kept true that the serial of each leads to its place, and that the holes are counted: those in front, and all.

ghost use Rattle.std.specs.Prelude.{ℕ, ◌≡◌, ◌≤◌, ◌<◌, ◌+◌, ◌++◌, ◌∷◌, [], length, find, slice_get, false, OnOk, option_copied};
ghost use Rattle.std.specs.List.{list_any};
ghost use Rattle.ov_model.specs.Tables.{without_first};
ghost use Rattle.ov_index.specs.Gone as specs;
ghost use Rattle.ov_index.specs.Gone.{has_number};

mod members;

use crate::places::{count_front, standing, take_at};
use ov_base::Memory;
use std::alloc::Global;
use std::marker::Model;

/// What has a serial: the number of those that were made before it.
pub trait Numbered: Drop {
    ghost serial_of: { Self → ℕ };

    /// Its serial.
    fn serial(&self) -> u32
        ensures { result ≡ serial_of self.now };
}

/// Those that are gone, in the order in which they joined, no two with the same serial. One that is let go leaves a
/// hole, and where nobody is left the list begins again; a table leads from each serial to its place. Whom to let go
/// first is known without a look at the holes in front.
#[derive(Drop)]
pub struct Gone<T: Numbered> {
    slots: Vec<Option<T>>,
    places: Vec<usize>,
    front: usize,
    holes: usize,
}

impl<T: Numbered> Model for Gone<T> {
    ghost use Rattle.std.specs.Prelude.{◌-◌, vec_len};
    ghost use Rattle.std.specs.Vec.{vec_capacity};
    ghost use Rattle.ov_index.specs.Index.{present};
    ghost use Rattle.ov_index.specs.Gone.{Listed, IsListed};

    ghost Value = { Listed T };

    ghost view = { λ t. record { items = present t.slots.items; room = vec_capacity t.slots - vec_len t.slots; serials = vec_len t.places } };

    ghost invariant = { λ t. IsListed T.serial_of t.places.items t.slots.items t.front t.holes };
}

impl<T: Numbered> Gone<T> {
    /// Nobody. It takes no memory until room is made.
    pub fn new(alloc: Global) -> Gone<T>
        ensures { result.items ≡ [] }
    {
        Gone {
            slots: Vec::new(alloc),
            places: Vec::new(alloc),
            front: 0,
            holes: 0,
        }
    }

    /// Makes room for `more` to join, with serials below `serials`. `Err` is want of memory; the list stays what it is
    /// either way.
    pub fn make_room(&mut self, more: usize, serials: u32) -> Result<(), Memory>
        ensures same { self.new.items ≡ self.old.items }
        ensures room { OnOk result (more ≤ self.new.room) }
        ensures serials { OnOk result (serials ≤ self.new.serials) }
    {
        self.slots.reserve(more)?;
        if self.places.len() < serials as usize {
            self.places.resize(serials as usize, 0)?;
        }
        Ok(())
    }

    /// One more joins, in the room that was made for it.
    pub fn join(&mut self, item: T)
        requires room { 0 < self.old.room }
        requires serial { T.serial_of item < self.old.serials }
        requires apart { list_any (has_number T.serial_of (T.serial_of item)) self.old.items ≡ false }
        ensures items { self.new.items ≡ self.old.items ++ item ∷ [] }
        ensures room { self.old.room ≤ self.new.room + 1 }
        ensures serials { self.new.serials ≡ self.old.serials }
    {
        let place = self.slots.len();
        self.places[item.serial() as usize] = place;
        match self.slots.push(Some(item)) {
            Ok(()) => {}
            Err(_) => unreachable!(),
        }
    }

    /// Takes the one with a serial out. It takes no memory.
    pub fn take(&mut self, serial: u32) -> Option<T>
        ensures was { result ≡ find (has_number T.serial_of serial) self.old.items }
        ensures now { self.new.items ≡ without_first (has_number T.serial_of serial) self.old.items }
        ensures room { self.old.room ≤ self.new.room }
        ensures serials { self.new.serials ≡ self.old.serials }
    {
        let place = place_in(&self.places, &self.slots, serial)?;
        let item = take_at(&mut self.slots, place);
        self.front = count_front(&self.slots, self.front);
        self.holes += 1;
        if self.holes == self.slots.len() {
            self.slots.clear();
            self.front = 0;
            self.holes = 0;
        }
        item
    }

    /// The one with a serial.
    pub fn find(&self, serial: u32) -> Option<&T>
        ensures { option_copied result ≡ find (has_number T.serial_of serial) self.now.items }
    {
        let place = place_in(&self.places, &self.slots, serial)?;
        standing(&self.slots, place)
    }

    /// Whether one has this serial.
    pub fn has(&self, serial: u32) -> bool
        ensures { result ≡ list_any (has_number T.serial_of serial) self.now.items }
    {
        self.find(serial).is_some()
    }

    /// The first that joined and is still there.
    pub fn first(&self) -> Option<&T>
        ensures { option_copied result ≡ slice_get self.now.items 0 }
    {
        standing(&self.slots, self.front)
    }

    /// How many there are.
    pub fn len(&self) -> usize
        ensures { result ≡ length self.now.items }
    {
        self.slots.len() - self.holes
    }
}

/// The place that a serial leads to, where the one with this serial stands there.
fn place_in<T: Numbered>(places: &[usize], slots: &[Option<T>], serial: u32) -> Option<usize>
    ensures { result ≡ specs.place_in T.serial_of places.now slots.now serial }
{
    let place = *places.get(serial as usize)?;
    if standing(slots, place)?.serial() == serial {
        return Some(place);
    }
    None
}
