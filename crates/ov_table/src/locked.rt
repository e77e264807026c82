//! The table behind a lock: its history is its journal, and what may be held of it are its peers and keys.
ghost use Rattle.ov_table.specs.Cells.{live_cells, dying_cells};

use crate::table::Table;
use ov_model::Entry;
use ov_turn::Kept;

/// The cell of the key with the serial 0: the cells below are those of peers, by their serials.
pub const KEY_CELLS: u32 = 4096;

/// How many cells a lock round a table has: one for each peer and each key that a session may make.
pub const CELLS: u32 = 69_632;

impl Kept for Table {
    type Item = Entry;

    ghost history = { λ t. t.journal };

    ghost live = { λ t. live_cells t.now };

    ghost dying = { λ t. dying_cells t.now };

    fn length(&self) -> u64 {
        self.journal().len() as u64
    }
}
