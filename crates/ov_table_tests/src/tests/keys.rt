//! Keys: made, replaced, swapped, deleted, spent, and let go.

use super::{
    answers, attrs, conf, gives, has_pair, holds, id, key_id, may, new_key, noted, refuses,
    removes, takes, two_peers,
};
use ov_base::Addr;
use ov_model::{Act, Cipher, Command, Errno, KeyView, NoteBody, PeerId, Reason, Reply, Slot};
use ov_table::Table;
use std::process::Abort;

/// Lets a key go: its material is gone.
fn lets_go(rt: &impl Abort, table: &mut Table, key: u32) {
    gives(rt, table, 1, Act::KeyReleased(key), Reply::KeyReleased(key));
    has_pair(rt, table, key, false);
}

/// Key 2 takes the place of key 0.
fn is_replaced(rt: &impl Abort, table: &mut Table) {
    new_key(rt, table, 1, conf(rt, Slot::Primary, 2, 2), 2);
    takes(rt, table, &[0]);
    has_pair(rt, table, 0, true);
    lets_go(rt, table, 0);
    takes(rt, table, &[]);
}

#[test]
fn a_replaced_key_is_retired_and_let_go(rt: HostRuntime) {
    let mut table = two_peers(&rt, rt.alloc());
    may(&rt, &table, 0, Act::KeyReleased(0), false);
    is_replaced(&rt, &mut table);
    let tail = table.pair(2).map(|pair| pair.seal_tail);
    assert_eq!(rt; tail, Some([2; 8]));
    let mut other = conf(&rt, Slot::Primary, 2, 2);
    other.peer = id(&rt, 7);
    refuses(&rt, &mut table, 1, Command::KeyNew(other), Errno::NoEntry);
}

#[test]
fn a_removal_takes_both_keys_the_primary_first(rt: HostRuntime) {
    let mut table = two_peers(&rt, rt.alloc());
    removes(&rt, &mut table, 1, id(&rt, 5), Reason::Userspace, &[0]);
    takes(&rt, &table, &[0, 1]);
    lets_go(&rt, &mut table, 1);
    lets_go(&rt, &mut table, 0);
    gives(&rt, &mut table, 1, Act::Released(0), Reply::Released(0));
}

/// Key 1 is taken out of its slot at the first time alone.
fn is_spent(rt: &impl Abort, table: &mut Table, spend: Act) {
    gives(rt, table, 1, spend, Reply::Killed);
    takes(rt, table, &[1]);
    gives(rt, table, 1, spend, Reply::AlreadyGone);
    takes(rt, table, &[]);
}

#[test]
fn a_spent_key_is_killed_once_and_noted(rt: HostRuntime) {
    let mut table = two_peers(&rt, rt.alloc());
    let spend = Act::Spend { peer: 0, key: 1 };
    is_spent(&rt, &mut table, spend);
    let note = NoteBody::KeySwap {
        id: id(&rt, 5),
        key_id: key_id(&rt, 1),
    };
    noted(&rt, &table, 4, note);
    lets_go(&rt, &mut table, 1);
    may(&rt, &table, 1, spend, false);
}

/// What stands in a slot of a peer.
fn slot_has(rt: &impl Abort, table: &mut Table, id: PeerId, slot: Slot, wanted: Reply) {
    answers(rt, table, 1, Command::KeyGet(id, slot), wanted);
}

/// The primary slot of peer 5 is empty, and key 2 stands in the other.
fn is_swapped(rt: &impl Abort, table: &mut Table, five: PeerId) {
    let none = Reply::Refused(Errno::NoEntry);
    slot_has(rt, table, five, Slot::Primary, none);
    let key = KeyView {
        peer: five,
        slot: Slot::Secondary,
        key_id: key_id(rt, 2),
        cipher: Cipher::AesGcm,
    };
    slot_has(rt, table, five, Slot::Secondary, Reply::Key(key));
}

/// Commands on keys of a peer that is not there.
fn no_peer_has_no_keys(rt: &impl Abort, table: &mut Table, six: PeerId) {
    refuses(rt, table, 1, Command::KeySwap(six), Errno::NoEntry);
    let get = Command::KeyGet(six, Slot::Primary);
    refuses(rt, table, 1, get, Errno::NoEntry);
    let delete = Command::KeyDel(six, Slot::Primary);
    refuses(rt, table, 1, delete, Errno::NoEntry);
}

/// A table with peer 5, with key 2 in its primary slot.
fn one_key(rt: &impl Abort, table: &mut Table, five: PeerId) {
    let given = attrs(five, [192, 0, 2, 1], [10, 8, 0, 5]);
    answers(rt, table, 0, Command::PeerNew(given), Reply::Made(0));
    new_key(rt, table, 0, conf(rt, Slot::Primary, 2, 0), 0);
}

#[test]
fn a_swap_empties_the_primary_slot(rt: HostRuntime) {
    let mut table = Table::new(rt.alloc());
    let five = id(&rt, 5);
    one_key(&rt, &mut table, five);
    let look = Act::TxLook(Addr::V4([10, 8, 0, 5]));
    let swap = Command::KeySwap(five);
    answers(&rt, &mut table, 1, swap, Reply::Done);
    takes(&rt, &table, &[]);
    gives(&rt, &mut table, 1, look, Reply::NoKey);
    is_swapped(&rt, &mut table, five);
    answers(&rt, &mut table, 1, swap, Reply::Done);
    holds(&rt, &mut table, 1, look);
    no_peer_has_no_keys(&rt, &mut table, id(&rt, 6));
}

/// Key 1 is taken out of its slot at the first time alone.
fn is_deleted(rt: &impl Abort, table: &mut Table, delete: Command) {
    answers(rt, table, 1, delete, Reply::Done);
    takes(rt, table, &[1]);
    has_pair(rt, table, 1, true);
    answers(rt, table, 1, delete, Reply::Done);
    takes(rt, table, &[]);
}

#[test]
fn a_deleted_key_is_retired_and_the_other_stays(rt: HostRuntime) {
    let mut table = two_peers(&rt, rt.alloc());
    let five = id(&rt, 5);
    is_deleted(&rt, &mut table, Command::KeyDel(five, Slot::Secondary));
    let none = Reply::Refused(Errno::NoEntry);
    slot_has(&rt, &mut table, five, Slot::Secondary, none);
    let key = KeyView {
        peer: five,
        slot: Slot::Primary,
        key_id: key_id(&rt, 0),
        cipher: Cipher::AesGcm,
    };
    slot_has(&rt, &mut table, five, Slot::Primary, Reply::Key(key));
    lets_go(&rt, &mut table, 1);
}
