//! The list of the notes. What adds notes in the middle of a step makes the room for all of them before it begins, so
//! that no want of memory can leave a step half told.

ghost use Rattle.std.specs.Prelude.{◌≡◌, ◌<◌, ◌≤◌, ◌+◌, ◌++◌, ◌∷◌, [], OnOk, OnErr};

use ov_base::{ListOf, Memory};
use ov_model::Note;
use std::alloc::Global;
use std::marker::Model;

/// The notifications so far, and the room for more. Which steps of a table notify and of what is the rule of the netlink
/// family "ovpn" (peer-del-ntf and key-swap-ntf in Documentation/netlink/specs/ovpn.yaml).
#[derive(Drop)]
pub struct NoteLog {
    notes: Vec<Note>,
}

impl Model for NoteLog {
    ghost use Rattle.std.specs.Prelude.{◌-◌, vec_len};
    ghost use Rattle.std.specs.Vec.{vec_capacity};
    ghost use Rattle.ov_notes.specs.Noted.{Noted};

    ghost Value = { Noted };

    ghost view = { λ t. record { notes = t.notes.items; room = vec_capacity t.notes - vec_len t.notes } };
}

impl NoteLog {
    /// No notes. It takes no memory until room is made.
    pub fn new(alloc: Global) -> NoteLog
        ensures { result.notes ≡ [] }
    {
        NoteLog {
            notes: Vec::new(alloc),
        }
    }

    /// Makes room for `more` notes. `Err` is want of memory: then nothing changed.
    pub fn reserve(&mut self, more: u32) -> Result<(), Memory>
        ensures same { self.new.notes ≡ self.old.notes }
        ensures room { OnOk result (more ≤ self.new.room) }
        ensures err { OnErr result (self.new ≡ self.old) }
    {
        self.notes.reserve(more as usize)?;
        Ok(())
    }

    /// Appends a note, in the room that was made for it. It takes no memory.
    pub fn add(&mut self, note: Note)
        requires { 0 < self.old.room }
        ensures notes { self.new.notes ≡ self.old.notes ++ note ∷ [] }
        ensures room { self.new.room + 1 ≡ self.old.room }
    {
        self.notes.push_reserved(note);
    }

    /// The notes so far, in the order in which they were added.
    pub fn notes(&self) -> &[Note]
        ensures { result.now ≡ self.now.notes }
    {
        self.notes.as_slice()
    }

    /// Moves the list out.
    pub fn finish(self) -> ListOf<Note>
        ensures { result ≡ self.notes }
    {
        let NoteLog { notes } = self;
        ListOf::of_vec(notes)
    }
}
