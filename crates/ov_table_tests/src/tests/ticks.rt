//! Ticks and downs: who is removed and who is due, at which moment and in which order.

use super::{ask, attrs, conf, make, transport};
use ov_model::{
    Act, Command, InnerKind, Keepalive, NoteBody, Owed, PeerId, Reason, Reply, Settled, Slot,
};
use ov_table::Table;
use std::process::Abort;

/// A table with the peers 9, 5 and 7 by the order of making. Each is due after 10 seconds, 9 and 5 expire after 30, and
/// 5 alone has keys, which are key 0 and key 1.
fn three_peers(rt: &impl Abort, table: &mut Table) {
    for (n, timeout) in [(9, 30), (5, 30), (7, 0)] {
        let id = PeerId::new(u32::from(n)).expect(rt, "an id in range");
        let mut given = attrs(id, [192, 0, 2, n], [10, 8, 0, n]);
        given.keepalive = Some(Keepalive {
            interval: 10,
            timeout,
        });
        let made = ask(table, 0, Command::PeerNew(given));
        assert!(rt; made.is_ok());
    }
    for (slot, serial) in [(Slot::Primary, 0), (Slot::Secondary, 1)] {
        let made = ask(table, 0, Command::KeyNew(conf(rt, slot, serial, serial)));
        assert!(rt; made.is_ok());
    }
}

/// A tick at a moment finds these peers expired and due, by their serials.
fn ticks(rt: &impl Abort, table: &mut Table, at: u32, gone: &[u32], pinged: &[u32]) {
    let Ok(Reply::Ticked { expired, due }) = ask(table, at, Command::Tick) else {
        panic!(rt; "a tick is answered so");
    };
    assert!(rt; expired.as_slice() == gone);
    assert!(rt; due.as_slice() == pinged);
}

/// A down removes these peers, by their serials.
fn removes(rt: &impl Abort, table: &mut Table, gone: &[u32]) {
    let Ok(Reply::Removed(serials)) = ask(table, 1, Command::Down) else {
        panic!(rt; "a down is answered so");
    };
    assert!(rt; serials.as_slice() == gone);
}

/// An act at moment 10 is answered so.
fn gives(rt: &impl Abort, table: &mut Table, act: Act, wanted: Reply) {
    let Ok(got) = make(table, 10, act) else {
        panic!(rt; "there is memory");
    };
    assert_eq!(rt; got, wanted);
}

/// The note with a number is of the last entry and tells of the removal of this peer, with a reason.
fn tells(rt: &impl Abort, table: &Table, number: usize, id: u32, why: Reason) {
    let Some(note) = table.notes().get(number) else {
        panic!(rt; "the note is there");
    };
    let NoteBody::PeerDel { id: told, reason } = note.body else {
        panic!(rt; "the note is of a removal");
    };
    assert_eq!(rt; told.get(), id);
    assert!(rt; reason == why);
    assert_eq!(rt; note.entry, table.journal().len() as u64 - 1);
}

#[test]
fn a_peer_is_due_at_its_interval_and_expires_at_its_timeout(rt: HostRuntime) {
    let mut table = Table::new(rt.alloc());
    three_peers(&rt, &mut table);
    ticks(&rt, &mut table, 9, &[], &[]);
    ticks(&rt, &mut table, 10, &[], &[1]);
    ticks(&rt, &mut table, 29, &[], &[1]);
    assert!(rt; table.notes().is_empty());
    assert_eq!(rt; table.live_count(), 3);
    ticks(&rt, &mut table, 30, &[1, 0], &[]);
    tells(&rt, &table, 0, 5, Reason::Expired);
    tells(&rt, &table, 1, 9, Reason::Expired);
    assert_eq!(rt; table.notes().len(), 2);
    assert_eq!(rt; table.live_count(), 1);
    assert_eq!(rt; table.taken(), [0, 1].as_slice());
}

#[test]
fn the_keys_of_expired_peers_are_let_go_before_the_peers(rt: HostRuntime) {
    let mut table = Table::new(rt.alloc());
    three_peers(&rt, &mut table);
    ticks(&rt, &mut table, 30, &[1, 0], &[]);
    for owed in [Owed::Key(0), Owed::Key(1), Owed::Peer(1), Owed::Peer(0)] {
        assert!(rt; table.waiting() == Some(owed));
        match owed {
            Owed::Key(key) => gives(
                &rt,
                &mut table,
                Act::KeyReleased(key),
                Reply::KeyReleased(key),
            ),
            Owed::Peer(peer) => gives(&rt, &mut table, Act::Released(peer), Reply::Released(peer)),
        }
    }
    assert!(rt; table.waiting().is_none());
}

#[test]
fn a_peer_that_is_due_is_held_where_it_still_has_a_key(rt: HostRuntime) {
    let mut table = Table::new(rt.alloc());
    three_peers(&rt, &mut table);
    let Ok(Reply::Hold(hold)) = make(&mut table, 10, Act::KeepLook(1)) else {
        panic!(rt; "the peer is held");
    };
    assert_eq!(rt; (hold.peer, hold.key), (1, 0));
    gives(&rt, &mut table, Act::KeepLook(0), Reply::Skip);
    gives(&rt, &mut table, Act::KeepLook(3), Reply::Skip);
    removes(&rt, &mut table, &[1, 2, 0]);
    gives(&rt, &mut table, Act::KeepLook(1), Reply::Skip);
}

#[test]
fn a_down_removes_all_peers_by_rising_id(rt: HostRuntime) {
    let mut table = Table::new(rt.alloc());
    three_peers(&rt, &mut table);
    removes(&rt, &mut table, &[1, 2, 0]);
    for (number, id) in [(0, 5), (1, 7), (2, 9)] {
        tells(&rt, &table, number, id, Reason::Teardown);
    }
    assert_eq!(rt; table.live_count(), 0);
    removes(&rt, &mut table, &[]);
    assert_eq!(rt; table.notes().len(), 3);
}

#[test]
fn a_peer_floats_to_a_free_transport_alone(rt: HostRuntime) {
    let mut table = Table::new(rt.alloc());
    three_peers(&rt, &mut table);
    for (from, remote) in [(5, 5), (7, 5), (8, 8), (7, 8), (5, 5)] {
        let settle = Act::Settle {
            peer: 1,
            from: Some(transport([192, 0, 2, from])),
            kind: InnerKind::Ping,
            inner: 16,
            outer: 40,
        };
        gives(&rt, &mut table, settle, Reply::Settled(Settled::Ping));
        let Ok(Reply::Hold(hold)) = make(&mut table, 10, Act::KeepLook(1)) else {
            panic!(rt; "the peer is held");
        };
        assert!(rt; hold.to == transport([192, 0, 2, remote]));
    }
}
