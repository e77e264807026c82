//! The cells of what a line holds, and the releases of what it gave back.

ghost use Rattle.std.specs.Prelude.{◌≡◌, ◌<◌, ◌++◌};
ghost use Rattle.std.specs.VecDeque.{deque_len, deque_capacity};
ghost use Rattle.ov_path.specs.Desks.{owed_if};
ghost use Rattle.ov_ticket.specs.Within.{cell_of};

use ov_model::{Given, Owed};
use ov_table::KEY_CELLS;
use std::collections::VecDeque;

/// The cell of a peer, or of a key.
pub(crate) fn cell(owed: Owed) -> u32
    requires { cell_of owed < 69632 }
    ensures { result ≡ cell_of owed }
{
    match owed {
        Owed::Peer(peer) => peer,
        Owed::Key(key) => KEY_CELLS + key,
    }
}

/// Lists the release of what was given back, where that was the last hold.
pub(crate) fn owe_if(listed: &mut VecDeque<Owed>, given: Given, owed: Owed)
    requires room { deque_len listed.old < deque_capacity listed.old }
    ensures listed { listed.new.items ≡ listed.old.items ++ owed_if given owed }
    ensures capacity { deque_capacity listed.new ≡ deque_capacity listed.old }
{
    if let Given::Last = given {
        listed.push_back_reserved(owed);
    }
}
