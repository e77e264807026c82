//! A history that is stored, entry by entry.
ghost use Rattle.std.specs.Prelude.{◌≡◌, [], ◌∷◌, ◌++◌, length, MatchBool};

use ov_base::ListOf;
use ov_turn::Kept;
use std::alloc::Global;
use std::marker::Model;

/// Which thread made an entry, and how many it had made before.
#[derive(Clone, Copy, Debug, PartialEq, Eq)]
pub struct Entry {
    /// The thread's number.
    pub thread: u32,
    /// The number of the thread's earlier entries.
    pub number: u32,
}

/// The entries in the order in which they were made. Contracts see it as their list.
#[derive(Drop)]
pub struct Journal {
    entries: ListOf<Entry>,
}

impl Model for Journal {
    ghost use Rattle.std.specs.Prelude.{List};
    ghost use Rattle.ov_clients.specs.declared.journal.Entry.{Entry};

    ghost Value = { List Entry };

    ghost view = { λ j. j.entries };
}

impl Journal {
    /// No entry yet.
    pub fn new(alloc: Global) -> Journal
        ensures { result ≡ [] }
    {
        Journal {
            entries: ListOf::new(alloc),
        }
    }

    /// Adds an entry at the end. Where there is no memory nothing changes, and the answer is `false`.
    pub fn add(&mut self, entry: Entry) -> bool
        ensures { MatchBool result (self.new ≡ self.old ++ entry ∷ []) (self.new ≡ self.old) }
    {
        self.entries.push(entry).is_ok()
    }

    /// The entries.
    pub fn into_entries(self) -> ListOf<Entry>
        ensures { result ≡ self }
    {
        let Journal { entries } = self;
        entries
    }
}

impl Kept for Journal {
    type Item = Entry;

    ghost use Rattle.std.specs.Prelude.{[]};

    ghost history = { λ j. j };

    ghost live = { λ _. [] };

    ghost dying = { λ _. [] };

    fn length(&self) -> u64 {
        self.entries.len() as u64
    }
}
