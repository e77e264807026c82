//! What each step on a cell tells its seat.
ghost use Rattle.ov_hold.specs.Steps.{links, unlinks, gets, gives};

use atomic_table::Play;
use ov_turn::View;

/// Links a cell: 0 becomes 1.
pub(crate) struct Link;

impl<S, I> Play<S, View<I>> for Link {
    ghost then = { links };
}

/// Unlinks a cell: one less.
pub(crate) struct Unlink;

impl<S, I> Play<S, View<I>> for Unlink {
    ghost then = { unlinks };
}

/// Gets a hold: two more.
pub(crate) struct Get;

impl<S, I> Play<S, View<I>> for Get {
    ghost then = { gets };
}

/// Gives a hold back: two less.
pub(crate) struct GiveBack;

impl<S, I> Play<S, View<I>> for GiveBack {
    ghost then = { gives };
}
