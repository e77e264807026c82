//! `kept` has a file of its own: its clause names the row of `Inside`, which the file that declares `Inside` can't import.
ghost use Rattle.std.specs.Prelude.{◌≡◌, []};
ghost use types.Logic.{sem};
ghost use mir.Syntax.{named};
ghost use denote.Follow.{follows};
ghost use Rattle.ov_turn.specs.contracts.inside.Inside.{the_row};
ghost use Rattle.ov_turn.specs.Insides.{inside_with, kept_of};

use crate::inside::Inside;
use crate::kept::Kept;

impl<S: Kept> Inside<'_, S> {
    /// Lends the kept value. When the loan ends, the seat has what was written through it.
    pub fn kept(&mut self) -> &mut S
        ensures* writes_back { sem 𝓛 (follows (the_row (record { mir = named 1; lft = [] }) S.row S.Item.row S.Kept) S.row self.entry.ghost_name result.ghost_name (inside_with self.old)) }
        ensures value { result.now ≡ kept_of self.old }
    {
        let lock = self.lock;
        self.seat.slot_mut(&lock.table.shared, 0)
    }
}
