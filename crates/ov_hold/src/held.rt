//! The few cells that one line of work holds.
ghost use Rattle.std.specs.Prelude.{◌≡◌, ◌<◌, ◌≤◌, ◌↔◌, [], ◌∷◌, ◌++◌, length, IsTrue};
ghost use Rattle.ov_turn.specs.Lists.{has, without};

use arrayvec::ArrayVec;
use std::marker::Model;

/// How many cells a `Held` keeps at most.
pub const MOST: usize = 4;

/// The cells that were got, at most four, each once. Contracts see it as their list.
#[derive(Drop)]
pub struct Held {
    cells: ArrayVec<u32, MOST>,
}

impl Model for Held {
    ghost use Rattle.std.specs.Prelude.{ℕ, List};

    ghost Value = { List ℕ };

    ghost view = { λ h. h.cells.items };
}

impl Held {
    /// No cell.
    pub fn new() -> Held
        ensures { result ≡ [] }
    {
        Held {
            cells: ArrayVec::new(),
        }
    }

    /// Whether `cell` is among them.
    pub fn has(&self, cell: u32) -> bool
        ensures { IsTrue result ↔ (has cell self.now ≡ 1) }
    {
        self.cells.as_slice().contains(&cell)
    }

    /// Whether there is room for no more.
    pub fn is_full(&self) -> bool
        ensures full { IsTrue result ↔ (length self.now ≡ 4) }
        ensures room { length self.now ≤ 4 }
    {
        self.cells.is_full()
    }

    // One more.
    pub(crate) fn add(&mut self, cell: u32)
        requires { length self.old < 4 }
        ensures { self.new ≡ self.old ++ cell ∷ [] }
    {
        self.cells.push(cell);
    }

    // Without `cell`.
    pub(crate) fn remove(&mut self, cell: u32)
        ensures { self.new ≡ without cell self.old }
    {
        self.cells.retain(|c| *c != cell);
    }
}
