//! The steps on a cell. A cell's word is twice the number of seats that hold it, plus one while it is linked.
ghost use Rattle.std.specs.Prelude.{◌≡◌, ◌<◌, true, false, [], ◌∷◌, ◌++◌, length};
ghost use Rattle.ov_base.specs.Sums.{count_of};
ghost use Rattle.ov_turn.specs.Lists.{has, without};
ghost use Rattle.ov_turn.specs.Seats.{IsSeatOf, share_of, seen_of, own_of, holds_of, owes_of};
ghost use Rattle.ov_turn.specs.Insides.{IsSteady, holds_in, owes_in, live_in, to_link_in, to_unlink_in};
ghost use Rattle.ov_hold.specs.Holds.{Owes, AreHeld};

use crate::held::Held;
use crate::steps::{Get, GiveBack, Link, Unlink};
use ov_model::Given;
use ov_turn::{Inside, Kept, LockSeat, TicketLock, cells};

/// Links a cell that is left to link: its word becomes 1 from 0.
pub fn link<S: Kept>(inside: &mut Inside<'_, S>, cell: u32)
    requires left { has cell (to_link_in inside.old) ≡ 1 }
    ensures same { IsSteady inside.old inside.new }
    ensures link { to_link_in inside.new ≡ without cell (to_link_in inside.old) }
    ensures unlink { to_unlink_in inside.new ≡ to_unlink_in inside.old }
    ensures holds { holds_in inside.new ≡ holds_in inside.old }
    ensures owes { owes_in inside.new ≡ owes_in inside.old }
{
    cells::add_inside::<S, Link>(inside, cell, 1);
}

/// Unlinks a cell that is left to unlink: its word becomes one less. `Last` where that is 0: the
/// seat owes the cell's release then, and no other seat does. Never `Last` where the seat holds it.
pub fn unlink<S: Kept>(inside: &mut Inside<'_, S>, cell: u32) -> Given
    requires left { has cell (to_unlink_in inside.old) ≡ 1 }
    ensures same { IsSteady inside.old inside.new }
    ensures link { to_link_in inside.new ≡ to_link_in inside.old }
    ensures unlink { to_unlink_in inside.new ≡ without cell (to_unlink_in inside.old) }
    ensures holds { holds_in inside.new ≡ holds_in inside.old }
    ensures owes { Owes result cell (owes_in inside.old) (owes_in inside.new) }
    ensures held { 0 < count_of cell (holds_in inside.old) → result ≡ Given.More }
{
    given(cells::sub_inside::<S, Unlink>(inside, cell, 1) == 1)
}

/// Gets a hold on a cell that is live and linked: its word becomes two more. `held` has it then,
/// and goes with the seat.
pub fn get<S: Kept>(inside: &mut Inside<'_, S>, held: &mut Held, cell: u32)
    requires live { has cell (live_in inside.old) ≡ 1 }
    requires linked { has cell (to_link_in inside.old) ≡ 0 }
    requires free { count_of cell (holds_in inside.old) ≡ 0 }
    requires room { length held.old < 4 }
    requires new { has cell held.old ≡ 0 }
    ensures same { IsSteady inside.old inside.new }
    ensures link { to_link_in inside.new ≡ to_link_in inside.old }
    ensures unlink { to_unlink_in inside.new ≡ to_unlink_in inside.old }
    ensures holds { holds_in inside.new ≡ holds_in inside.old ++ cell ∷ [] }
    ensures owes { owes_in inside.new ≡ owes_in inside.old }
    ensures held { held.new ≡ held.old ++ cell ∷ [] }
    ensures goes { AreHeld held.old (holds_in inside.old) → AreHeld held.new (holds_in inside.new) }
{
    cells::add_inside::<S, Get>(inside, cell, 2);
    held.add(cell);
}

/// Gives a hold back: the cell's word becomes two less. `Last` where that is 0: the seat owes the
/// cell's release then, and no other seat does.
pub fn give_back<S: Kept>(
    lock: &TicketLock<S>,
    seat: &mut LockSeat<S>,
    held: &mut Held,
    cell: u32,
) -> Given
    requires seat { IsSeatOf lock.now seat.old }
    requires has { has cell held.old ≡ 1 }
    requires holds { 0 < count_of cell (holds_of seat.old) }
    ensures lock { IsSeatOf lock.entry.now seat.new }
    ensures share { share_of seat.new ≡ share_of seat.old }
    ensures seen { seen_of seat.new ≡ seen_of seat.old }
    ensures own { own_of seat.new ≡ own_of seat.old }
    ensures holds { holds_of seat.new ≡ without cell (holds_of seat.old) }
    ensures owes { Owes result cell (owes_of seat.old) (owes_of seat.new) }
    ensures held { held.new ≡ without cell held.old }
    ensures goes { AreHeld held.old (holds_of seat.old) → AreHeld held.new (holds_of seat.new) }
{
    let found = cells::sub_outside::<S, GiveBack>(lock, seat, cell, 2);
    held.remove(cell);
    given(found == 2)
}

// What a step answers that brought the word to 0, or didn't.
fn given(last: bool) -> Given
    ensures last { last ≡ true → result ≡ Given.Last }
    ensures more { last ≡ false → result ≡ Given.More }
{
    if last { Given::Last } else { Given::More }
}
