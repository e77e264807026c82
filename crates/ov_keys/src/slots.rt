// The two places for keys that a peer has.

ghost use Rattle.std.specs.Prelude.{◌≡◌, None, Some, option_copied};
ghost use Rattle.ov_model.specs.Tables.{no_keys, in_slot, with_slot, swapped, by_key, without_key};
ghost use Rattle.ov_model.specs.Tables as tables;
ghost use Rattle.ov_keys.specs.Ids.{is_id};

use crate::record::KeyRec;
use ov_model::{KeyId, Slot};
use std::marker::Model;
use std::mem;

/// The keys that a peer has: the primary seals what is sent, both open what is received.
#[derive(Drop)]
pub struct Slots {
    primary: Option<KeyRec>,
    secondary: Option<KeyRec>,
}

impl Model for Slots {
    ghost use Rattle.ov_model.specs.Tables as tables;

    ghost Value = { tables.Slots };

    ghost view = { λ s. record { primary = s.primary; secondary = s.secondary } };
}

impl Slots {
    /// No keys.
    pub fn new() -> Slots
        ensures { result ≡ no_keys }
    {
        Slots {
            primary: None,
            secondary: None,
        }
    }

    /// Puts a key into a slot, and gives what stood there.
    pub fn install(&mut self, slot: Slot, key: KeyRec) -> Option<KeyRec>
        ensures was { result ≡ in_slot slot self.old }
        ensures now { self.new ≡ with_slot slot (Some key) self.old }
    {
        match slot {
            Slot::Primary => mem::replace(&mut self.primary, Some(key)),
            Slot::Secondary => mem::replace(&mut self.secondary, Some(key)),
        }
    }

    /// Takes the key with a serial out of its slot. `None` comes exactly where neither slot has it.
    pub fn kill(&mut self, key: u32) -> Option<KeyRec>
        ensures was { result ≡ by_key key self.old }
        ensures now { self.new ≡ without_key key self.old }
    {
        if has_serial(&self.primary, key) {
            return self.primary.take();
        }
        if has_serial(&self.secondary, key) {
            return self.secondary.take();
        }
        None
    }

    /// The key with a key id: the primary slot is looked at first.
    pub fn by_key_id(&self, key_id: KeyId) -> Option<&KeyRec>
        ensures { option_copied result ≡ tables.by_key_id key_id self.now }
    {
        if has_id(&self.primary, key_id) {
            return self.primary.as_ref();
        }
        if has_id(&self.secondary, key_id) {
            return self.secondary.as_ref();
        }
        None
    }

    /// The key with a serial.
    pub fn by_key(&self, key: u32) -> Option<&KeyRec>
        ensures { option_copied result ≡ by_key key self.now }
    {
        if has_serial(&self.primary, key) {
            return self.primary.as_ref();
        }
        if has_serial(&self.secondary, key) {
            return self.secondary.as_ref();
        }
        None
    }

    /// The key that seals.
    pub fn primary(&self) -> Option<&KeyRec>
        ensures { option_copied result ≡ self.now.primary }
    {
        self.primary.as_ref()
    }

    /// What stands in a slot.
    pub fn at(&self, slot: Slot) -> Option<&KeyRec>
        ensures { option_copied result ≡ in_slot slot self.now }
    {
        match slot {
            Slot::Primary => self.primary.as_ref(),
            Slot::Secondary => self.secondary.as_ref(),
        }
    }

    /// Takes what stands in a slot out of it.
    pub fn take(&mut self, slot: Slot) -> Option<KeyRec>
        ensures was { result ≡ in_slot slot self.old }
        ensures now { self.new ≡ with_slot slot None self.old }
    {
        match slot {
            Slot::Primary => self.primary.take(),
            Slot::Secondary => self.secondary.take(),
        }
    }

    /// Exchanges what stands in the two slots.
    pub fn swap(&mut self)
        ensures { self.new ≡ swapped self.old }
    {
        mem::swap(&mut self.primary, &mut self.secondary);
    }
}

/// Whether a key stands there that has this serial.
fn has_serial(key: &Option<KeyRec>, serial: u32) -> bool
    ensures { result ≡ tables.is_key serial key.now }
{
    match key {
        Some(key) => key.serial == serial,
        None => false,
    }
}

/// Whether a key stands there that has this key id.
fn has_id(key: &Option<KeyRec>, key_id: KeyId) -> bool
    ensures { result ≡ is_id key_id key.now }
{
    match key {
        Some(key) => key.key_id.get() == key_id.get(),
        None => false,
    }
}
