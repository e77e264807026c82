//! Under the lock: a step of the table as an entry of the seat's, the links of what it made, the unlinks of
//! what it took out, the keys before the peers, and the releases that the seat owes.
ghost use Rattle.std.specs.Prelude.{◌≡◌, ◌<◌, ℕ, List, [], ◌∷◌, IfOk, IsOk, OnErr, true};
ghost use Rattle.std.specs.VecDeque.{deque_len, deque_capacity};
ghost use Rattle.ov_base.specs.Sums.{count_of};
ghost use Rattle.ov_turn.specs.Lists.{has, without};
ghost use Rattle.ov_turn.specs.Insides.{IsSteady, kept_of, holds_in, owes_in, to_link_in, to_unlink_in, cells_in};
ghost use Rattle.ov_model.specs.Step.{step, May};
ghost use Rattle.ov_table.specs.Recorded.{is_release};
ghost use Rattle.ov_table.specs.Cells.{OwesFreed, made_cells};
ghost use Rattle.ov_model.specs.declared.act.Act.TheVariants as act;
ghost use Rattle.ov_model.specs.declared.hold.Owed.TheVariants as kind;
ghost use Rattle.ov_ticket.specs.Within as spec;
ghost use Rattle.ov_ticket.specs.Within.{IsSettled, IsUntouched, IsCounted, OwesOne, IsUnlinked, MayUnlink, IsReleasing, HasMade, IsAnswered, HasRoom, IsServed, cell_of, cell_list, entries_of};
ghost use Rattle.ov_model.specs.declared.hold.Owed.{Owed};
ghost use Rattle.ov_model.specs.Events.{Stepped, release_of, releases};
ghost use Rattle.ov_past.specs.Pasts.{event_of};
ghost use Rattle.ov_model.specs.Path.{SomeOwed, removed};

use ov_base::Memory;
use ov_hold::{link, unlink};
use ov_model::{Act, Call, Command, Given, Owed, Place, Reply};
use ov_past::Happening;
use ov_table::{KEY_CELLS, Table};
use ov_turn::Inside;
use std::collections::VecDeque;

/// Makes a call at the table, and its entry the seat's own.
pub(crate) fn count(
    inside: &mut Inside<'_, Table>,
    place: Place,
    call: &Call,
) -> Result<Reply, Memory>
    requires settled { IsSettled inside.old }
    requires may { May (kept_of inside.old).now call.now }
    requires owes { OwesFreed call.now.act (owes_in inside.old) }
    ensures ok { IfOk result (λ r. IsCounted inside.old inside.new place call.now) }
    ensures reply { IfOk result (λ r. r ≡ (step (kept_of inside.old).now call.now).reply) }
    ensures err { OnErr result (IsUntouched inside.old inside.new) }
    ensures release { is_release call.now.act ≡ true → IsOk result }
{
    let reply = inside.kept().step(place, call)?;
    inside.append();
    Ok(reply)
}

/// The cell of the peer or the key that a command made.
pub(crate) fn made_cell(command: &Command, reply: &Reply) -> Option<u32>
    requires { (c : ℕ) → 0 < count_of c (made_cells (act.Do command.now) reply.now) → c < 69632 }
    ensures { cell_list result ≡ made_cells (act.Do command.now) reply.now }
{
    match (command, reply) {
        (Command::PeerNew(_), Reply::Made(peer)) => Some(*peer),
        (Command::KeyNew(_), Reply::Made(key)) => Some(KEY_CELLS + *key),
        _ => None,
    }
}

/// Links what a call made.
pub(crate) fn link_made(inside: &mut Inside<'_, Table>, cell: Option<u32>)
    requires made { (c : ℕ) → has c (to_link_in inside.old) ≡ count_of c (cell_list cell) }
    ensures same { IsSteady inside.old inside.new }
    ensures link { to_link_in inside.new ≡ [] }
    ensures unlink { to_unlink_in inside.new ≡ to_unlink_in inside.old }
    ensures holds { holds_in inside.new ≡ holds_in inside.old }
    ensures owes { owes_in inside.new ≡ owes_in inside.old }
{
    if let Some(cell) = cell {
        link(inside, cell);
    }
}

/// Unlinks a key or a peer that is gone. Where nobody holds it, its release is owed, and it is listed.
pub(crate) fn unlink_one(inside: &mut Inside<'_, Table>, gone: Owed, owed: &mut VecDeque<Owed>)
    requires cells { cells_in inside.old ≡ 69632 }
    requires left { has (cell_of gone) (to_unlink_in inside.old) ≡ 1 }
    requires room { deque_len owed.old < deque_capacity owed.old }
    ensures same { IsSteady inside.old inside.new }
    ensures link { to_link_in inside.new ≡ to_link_in inside.old }
    ensures unlink { to_unlink_in inside.new ≡ without (cell_of gone) (to_unlink_in inside.old) }
    ensures holds { holds_in inside.new ≡ holds_in inside.old }
    ensures owes { OwesOne gone (owes_in inside.old) (owes_in inside.new) owed.old.items owed.new.items }
    ensures capacity { deque_capacity owed.new ≡ deque_capacity owed.old }
{
    let cell = match gone {
        Owed::Peer(peer) => peer,
        Owed::Key(key) => KEY_CELLS + key,
    };
    if let Given::Last = unlink(inside, cell) {
        owed.push_back_reserved(gone);
    }
}

/// Unlinks the keys that the last step took out of a slot, in their order.
pub(crate) fn unlink_keys(inside: &mut Inside<'_, Table>, owed: &mut VecDeque<Owed>)
    requires { MayUnlink kind.Key (kept_of inside.old).taken inside.old owed.old.items (deque_capacity owed.old) }
    ensures unlinked { IsUnlinked kind.Key (kept_of inside.old).taken inside.old inside.new owed.old.items owed.new.items }
    ensures capacity { deque_capacity owed.new ≡ deque_capacity owed.old }
{
    let count = inside.kept().taken().len();
    for index in 0..count {
        let key = inside.kept().taken()[index];
        unlink_one(inside, Owed::Key(key), owed);
    }
}

/// Unlinks removed peers, in their order.
pub(crate) fn unlink_peers(inside: &mut Inside<'_, Table>, peers: &[u32], owed: &mut VecDeque<Owed>)
    requires { MayUnlink kind.Peer peers.now inside.old owed.old.items (deque_capacity owed.old) }
    ensures unlinked { IsUnlinked kind.Peer peers.now inside.old inside.new owed.old.items owed.new.items }
    ensures capacity { deque_capacity owed.new ≡ deque_capacity owed.old }
{
    for peer in peers {
        unlink_one(inside, Owed::Peer(*peer), owed);
    }
}

/// The call that lets a peer or a key go.
fn release_call(at: u32, owed: Owed) -> Call
    ensures { result ≡ spec.release_call at owed }
{
    match owed {
        Owed::Peer(peer) => Call {
            at,
            act: Act::Released(peer),
        },
        Owed::Key(key) => Call {
            at,
            act: Act::KeyReleased(key),
        },
    }
}

/// Releases the first that the seat owes, and tells it as an event.
pub(crate) fn release_one(
    inside: &mut Inside<'_, Table>,
    place: Place,
    at: u32,
    owed: Owed,
) -> Happening
    requires { (rest : List Owed) × IsReleasing (owed ∷ rest) inside.old }
    ensures releasing { (rest : List Owed) → IsReleasing (owed ∷ rest) inside.old → IsReleasing rest inside.new }
    ensures made { HasMade ((release_of place at owed).entry ∷ []) inside.old inside.new }
    ensures settled { IsSettled inside.new }
    ensures event { event_of result ≡ Stepped (release_of place at owed) }
{
    let call = release_call(at, owed);
    let Ok(reply) = count(inside, place, &call) else {
        unreachable!()
    };
    Happening::stepped(place, &call, &reply, inside.kept())
}

/// Releases all that the seat owes, in order, and takes it off the list.
pub(crate) fn release_all(
    inside: &mut Inside<'_, Table>,
    place: Place,
    at: u32,
    owed: &mut VecDeque<Owed>,
)
    requires { IsReleasing owed.old.items inside.old }
    ensures releasing { IsReleasing [] inside.new }
    ensures made { HasMade (entries_of (releases place at owed.old.items)) inside.old inside.new }
    ensures nothing { owed.new.items ≡ [] }
    ensures capacity { deque_capacity owed.new ≡ deque_capacity owed.old }
{
    let count = owed.len();
    for _done in 0..count {
        let Some(one) = owed.pop_front() else {
            unreachable!()
        };
        let _event = release_one(inside, place, at, one);
    }
}

/// The peers that a reply says were removed.
fn removed_by(reply: &Reply) -> &[u32]
    ensures { result.now ≡ removed reply.now }
{
    match reply {
        Reply::Removed(peers) => peers.as_slice(),
        Reply::Ticked { expired, .. } => expired.as_slice(),
        _ => &[],
    }
}

/// Links what a command made, and unlinks what it took out: the keys, and then the peers. What nobody holds is
/// listed.
pub(crate) fn settle(
    inside: &mut Inside<'_, Table>,
    command: &Command,
    reply: &Reply,
    owed: &mut VecDeque<Owed>,
)
    requires counted { IsAnswered inside.old command.now reply.now }
    requires room { HasRoom owed.old }
    ensures owes { IsReleasing owed.new.items inside.new }
    ensures some { SomeOwed (kept_of inside.old).taken (removed reply.now) owed.new.items }
    ensures steady { IsSteady inside.old inside.new }
    ensures holds { holds_in inside.new ≡ holds_in inside.old }
    ensures capacity { deque_capacity owed.new ≡ deque_capacity owed.old }
{
    link_made(inside, made_cell(command, reply));
    unlink_keys(inside, owed);
    unlink_peers(inside, removed_by(reply), owed);
}

/// Makes a command's step and the releases that it leaves to the seat, all under the seat's ticket. `Err` is
/// want of memory: then nothing changed.
pub(crate) fn serve(
    inside: &mut Inside<'_, Table>,
    place: Place,
    at: u32,
    command: &Command,
    owed: &mut VecDeque<Owed>,
) -> Result<Reply, Memory>
    requires settled { IsSettled inside.old }
    requires free { owes_in inside.old ≡ [] }
    requires room { HasRoom owed.old }
    ensures ok { IfOk result (λ r. IsServed inside.old inside.new place at command.now r) }
    ensures err { OnErr result (IsUntouched inside.old inside.new) }
    ensures room { HasRoom owed.new }
{
    let call = Call {
        at,
        act: Act::Do(*command),
    };
    let reply = count(inside, place, &call)?;
    settle(inside, command, &reply, owed);
    release_all(inside, place, at, owed);
    Ok(reply)
}
