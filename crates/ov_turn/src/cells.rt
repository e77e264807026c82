//! Steps on a cell, for the crate of holds alone. Each keeps all that the seat has but its holds,
//! the releases that it owes, and the cells that it has still to link and to unlink.
ghost use Rattle.std.specs.Prelude.{◌≡◌, ◌<◌};
ghost use Rattle.ov_turn.specs.Cells.{stays_inside, stays_outside, MayAdd, MaySubtract, MayReturn, added, subtracted, returned};
ghost use Rattle.ov_turn.specs.Seats.{IsSeatOf, cells_of};
ghost use Rattle.ov_turn.specs.Insides.{IsSteady, cells_in};

use crate::inside::Inside;
use crate::kept::Kept;
use crate::lock::{LockSeat, TicketLock};
use crate::view::{CELLS, View};
use atomic_table::Play;
use std::marker::PhantomData;

/// A step of the seat inside.
pub(crate) struct OnInside<M> {
    step: PhantomData<M>,
}

impl<S, I, M: Play<S, View<I>>> Play<S, View<I>> for OnInside<M> {
    ghost then = { stays_inside M.then };
}

/// A step of a seat outside.
pub(crate) struct OnOutside<M> {
    step: PhantomData<M>,
}

impl<S, I, M: Play<S, View<I>>> Play<S, View<I>> for OnOutside<M> {
    ghost then = { stays_outside M.then };
}

/// Adds `k` to the cell's word, and answers what the word was.
pub fn add_inside<S: Kept, M: Play<S, View<S::Item>>>(
    inside: &mut Inside<'_, S>,
    cell: u32,
    k: u64,
) -> u64
    requires cell { cell < cells_in inside.old }
    requires step { MayAdd S.history S.live S.dying M.then inside.old cell k }
    ensures same { IsSteady inside.old inside.new }
    ensures step { added M.then inside.old cell k result inside.new }
{
    let word = CELLS + cell as usize;
    let shared = &inside.lock.table.shared;
    shared.fetch_add::<OnInside<M>>(&mut inside.seat, word, k)
}

/// Subtracts `k` from the cell's word, and answers what the word was.
pub fn sub_inside<S: Kept, M: Play<S, View<S::Item>>>(
    inside: &mut Inside<'_, S>,
    cell: u32,
    k: u64,
) -> u64
    requires cell { cell < cells_in inside.old }
    requires step { MaySubtract S.history S.live S.dying M.then inside.old cell k }
    ensures same { IsSteady inside.old inside.new }
    ensures step { subtracted M.then inside.old cell k result inside.new }
{
    let word = CELLS + cell as usize;
    let shared = &inside.lock.table.shared;
    shared.fetch_sub::<OnInside<M>>(&mut inside.seat, word, k)
}

/// Subtracts `k` from the cell's word for a seat outside, and answers what the word was.
pub fn sub_outside<S: Kept, M: Play<S, View<S::Item>>>(
    lock: &TicketLock<S>,
    seat: &mut LockSeat<S>,
    cell: u32,
    k: u64,
) -> u64
    requires seat { IsSeatOf lock.now seat.old }
    requires cell { cell < cells_of lock.now }
    requires step { MayReturn S.history S.live S.dying M.then lock.now seat.old cell k }
    ensures seat { IsSeatOf lock.entry.now seat.new }
    ensures step { returned M.then lock.entry.now seat.old cell k result seat.new }
{
    let word = CELLS + cell as usize;
    lock.table
        .shared
        .fetch_sub::<OnOutside<M>>(&mut seat.seat, word, k)
}
