//! Under the lock: any step of the table but a release, with the links and unlinks of what it made and took out, the holds
//! on what it found, and the releases that it leaves to the seat.
ghost use Rattle.std.specs.Prelude.{◌≡◌, ◌<◌, [], ◌∷◌, ◌++◌, IfOk, OnErr};
ghost use Rattle.std.specs.VecDeque.{deque_capacity};
ghost use Rattle.ov_base.specs.Sums.{count_of};
ghost use Rattle.ov_turn.specs.Lists.{has, without};
ghost use Rattle.ov_turn.specs.Insides.{IsSteady, kept_of, cells_in, holds_in, owes_in, to_link_in, to_unlink_in};
ghost use Rattle.ov_model.specs.declared.reply.Reply.TheVariants as replies;
ghost use Rattle.ov_past.specs.Pasts.{event_of};
ghost use Rattle.ov_table.specs.Cells.{key_cell};
ghost use Rattle.ov_ticket.specs.Within.{IsSettled, IsUntouched};
ghost use Rattle.ov_ticket.specs.Asks.{OwedFits, found_cells, found_pair, got_cells};
ghost use Rattle.ov_ticket.specs.Asked.{IsReady, spent_left, CanHold, MayHold, MayTidy, IsTidied, IsMade};

use crate::within::{count, settle};
use ov_base::Memory;
use ov_hold::{Held, get, unlink};
use ov_keys::KeyPair;
use ov_model::{Act, Call, HoldView, Owed, Place, Reply};
use ov_past::Happening;
use ov_table::{KEY_CELLS, Table};
use ov_turn::Inside;
use std::collections::VecDeque;

/// Unlinks a key that the seat itself holds: so nothing becomes owed by it.
fn unlink_held(inside: &mut Inside<'_, Table>, key: u32)
    requires left { has (key_cell key) (to_unlink_in inside.old) ≡ 1 }
    requires cells { cells_in inside.old ≡ 69632 }
    requires held { 0 < count_of (key_cell key) (holds_in inside.old) }
    ensures same { IsSteady inside.old inside.new }
    ensures link { to_link_in inside.new ≡ to_link_in inside.old }
    ensures unlink { to_unlink_in inside.new ≡ without (key_cell key) (to_unlink_in inside.old) }
    ensures holds { holds_in inside.new ≡ holds_in inside.old }
    ensures owes { owes_in inside.new ≡ owes_in inside.old }
{
    unlink(inside, KEY_CELLS + key);
}

/// Unlinks a spent key, where it was killed.
fn unlink_spent(inside: &mut Inside<'_, Table>, key: u32, reply: &Reply)
    requires left { reply.now ≡ replies.Killed → has (key_cell key) (to_unlink_in inside.old) ≡ 1 }
    requires cells { cells_in inside.old ≡ 69632 }
    requires held { 0 < count_of (key_cell key) (holds_in inside.old) }
    ensures same { IsSteady inside.old inside.new }
    ensures link { to_link_in inside.new ≡ to_link_in inside.old }
    ensures unlink { to_unlink_in inside.new ≡ spent_left reply.now key (to_unlink_in inside.old) }
    ensures holds { holds_in inside.new ≡ holds_in inside.old }
    ensures owes { owes_in inside.new ≡ owes_in inside.old }
{
    if let Reply::Killed = reply {
        unlink_held(inside, key);
    }
}

/// Takes the holds on a peer and its key.
fn hold_both(inside: &mut Inside<'_, Table>, view: &HoldView, held: &mut Held)
    requires { CanHold view.now inside.old held.old }
    ensures same { IsSteady inside.old inside.new }
    ensures link { to_link_in inside.new ≡ to_link_in inside.old }
    ensures unlink { to_unlink_in inside.new ≡ to_unlink_in inside.old }
    ensures holds { holds_in inside.new ≡ view.now.peer ∷ key_cell view.now.key ∷ [] }
    ensures owes { owes_in inside.new ≡ owes_in inside.old }
    ensures held { held.new ≡ view.now.peer ∷ key_cell view.now.key ∷ [] }
{
    get(inside, held, view.peer);
    get(inside, held, KEY_CELLS + view.key);
}

/// Takes the holds on what a reply says was found.
fn hold_found(inside: &mut Inside<'_, Table>, reply: &Reply, held: &mut Held)
    requires { MayHold reply.now inside.old held.old }
    ensures same { IsSteady inside.old inside.new }
    ensures link { to_link_in inside.new ≡ to_link_in inside.old }
    ensures unlink { to_unlink_in inside.new ≡ to_unlink_in inside.old }
    ensures holds { holds_in inside.new ≡ holds_in inside.old ++ found_cells reply.now }
    ensures owes { owes_in inside.new ≡ owes_in inside.old }
    ensures held { held.new ≡ held.old ++ found_cells reply.now }
{
    if let Reply::Hold(view) = reply {
        hold_both(inside, view, held);
    }
}

/// Links what a step made, unlinks what it took out, and holds what it found. What was taken out and is held by nobody is
/// listed.
fn tidy(
    inside: &mut Inside<'_, Table>,
    act: &Act,
    reply: &Reply,
    held: &mut Held,
    owed: &mut VecDeque<Owed>,
)
    requires { MayTidy inside.old act.now reply.now held.old owed.old }
    ensures tidied { IsTidied inside.old inside.new act.now reply.now owed.old.items owed.new.items }
    ensures held { held.new ≡ held.old ++ got_cells act.now reply.now }
    ensures capacity { deque_capacity owed.new ≡ deque_capacity owed.old }
{
    match act {
        Act::Do(command) => settle(inside, command, reply, owed),
        Act::Spend { key, .. } => unlink_spent(inside, *key, reply),
        _ => hold_found(inside, reply, held),
    }
}

/// Keeps a copy of the two directions of a key that a look-up found, so that its use needs no ticket.
fn keep_pair(inside: &mut Inside<'_, Table>, reply: &Reply, pair: &mut Option<KeyPair>)
    ensures same { IsUntouched inside.old inside.new }
    ensures kept { kept_of inside.new ≡ kept_of inside.old }
    ensures pair { pair.new ≡ found_pair (kept_of inside.old).now reply.now pair.old }
{
    if let Reply::Hold(view) = reply {
        *pair = inside.kept().pair(view.key).copied();
    }
}

/// Makes a step of the table, any but a release, and tells it as an event. `Err` is want of memory: then nothing changed.
pub(crate) fn make(
    inside: &mut Inside<'_, Table>,
    place: Place,
    call: &Call,
    held: &mut Held,
    owed: &mut VecDeque<Owed>,
    pair: &mut Option<KeyPair>,
) -> Result<(Reply, Happening), Memory>
    requires ready { IsReady inside.old call.now.act }
    requires held { held.old ≡ holds_in inside.old }
    requires owed { OwedFits owed.old (owes_in inside.old) }
    ensures ok { IfOk result (λ r.
        IsMade inside.old inside.new place call.now r.0 (event_of r.1) owed.old.items owed.new.items) }
    ensures err { OnErr result (IsUntouched inside.old inside.new) }
    ensures settled { IsSettled inside.new }
    ensures kept { OnErr result (owed.new.items ≡ owed.old.items) }
    ensures held { held.new ≡ holds_in inside.new }
    ensures owed { OwedFits owed.new (owes_in inside.new) }
    ensures pair { IfOk result (λ r. pair.new ≡ found_pair (kept_of inside.new).now r.0 pair.old) }
    ensures kept_pair { OnErr result (pair.new ≡ pair.old) }
{
    let reply = count(inside, place, call)?;
    tidy(inside, &call.act, &reply, held, owed);
    keep_pair(inside, &reply, pair);
    let event = Happening::stepped(place, call, &reply, inside.kept());
    Ok((reply, event))
}
