//! What no clause says: which refusals the family gives where, and that the calls succeed.
//!
//! Each case is one call of a small function that asserts: a test that is a list of such calls is checked in
//! a fraction of the time that a table of rows takes.

mod keys;
mod packets;
mod peers;
mod ticks;

use ov_base::{Addr, Memory, Transport};
use ov_model::{
    Act, Attrs, Call, Command, Errno, KeyBytes, KeyConf, KeyDir, KeyId, Note, NoteBody, PeerId,
    PeerView, Place, Reason, Reply, Slot,
};
use ov_table::Table;
use std::alloc::Global;
use std::process::Abort;

/// The peer id with this number.
fn id(rt: &impl Abort, number: u32) -> PeerId {
    PeerId::new(number).expect(rt, "an id in range")
}

/// The key id with this number.
fn key_id(rt: &impl Abort, number: u8) -> KeyId {
    KeyId::new(number).expect(rt, "an id in range")
}

/// An IPv4 transport at port 1194.
fn transport(octets: [u8; 4]) -> Transport {
    Transport {
        addr: Addr::V4(octets),
        port: 1194,
    }
}

/// A peer with an IPv4 remote at port 1194 and an IPv4 address inside the tunnel.
fn attrs(id: PeerId, remote: [u8; 4], vpn: [u8; 4]) -> Attrs {
    Attrs {
        id,
        remote: Some(transport(remote)),
        vpn4: Some(vpn),
        vpn6: None,
        keepalive: None,
    }
}

/// The peer with the id `n`, the remote 192.0.2.n and the address 10.8.0.n inside the tunnel.
fn peer(rt: &impl Abort, n: u8) -> Attrs {
    attrs(id(rt, u32::from(n)), [192, 0, 2, n], [10, 8, 0, n])
}

/// A key of peer 5 with this key id, for a slot. Both its directions are made of the byte `byte`.
fn conf(rt: &impl Abort, slot: Slot, number: u8, byte: u8) -> KeyConf {
    let dir = KeyDir {
        key: KeyBytes::K16([byte; 16]),
        tail: [byte; 8],
    };
    KeyConf {
        peer: id(rt, 5),
        slot,
        key_id: key_id(rt, number),
        encrypt: dir,
        decrypt: dir,
    }
}

/// One act of lane 0 at a moment, its line numbered by the journal.
fn make(table: &mut Table, at: u32, act: Act) -> Result<Reply, Memory> {
    let place = Place {
        lane: 0,
        line: table.journal().len() as u64,
    };
    let call = Call { at, act };
    if !table.may(&call) {
        return Ok(Reply::Refused(Errno::Invalid));
    }
    table.step(place, &call)
}

/// One command.
fn ask(table: &mut Table, at: u32, command: Command) -> Result<Reply, Memory> {
    make(table, at, Act::Do(command))
}

/// Makes one act, whose reply is the wanted one.
fn gives(rt: &impl Abort, table: &mut Table, at: u32, act: Act, wanted: Reply) {
    let Ok(reply) = make(table, at, act) else {
        panic!(rt; "no memory");
    };
    assert_eq!(rt; reply, wanted);
}

/// Makes one command, whose reply is the wanted one.
fn answers(rt: &impl Abort, table: &mut Table, at: u32, command: Command, wanted: Reply) {
    gives(rt, table, at, Act::Do(command), wanted);
}

/// Makes one command, which is refused.
fn refuses(rt: &impl Abort, table: &mut Table, at: u32, command: Command, errno: Errno) {
    answers(rt, table, at, command, Reply::Refused(errno));
}

/// Makes one act, which finds a peer and its key.
fn holds(rt: &impl Abort, table: &mut Table, at: u32, act: Act) {
    let Ok(Reply::Hold(_)) = make(table, at, act) else {
        panic!(rt; "nothing is held");
    };
}

/// Removes a peer: the serials of the removed are the wanted ones.
fn removes(
    rt: &impl Abort,
    table: &mut Table,
    at: u32,
    id: PeerId,
    reason: Reason,
    wanted: &[u32],
) {
    let Ok(Reply::Removed(serials)) = ask(table, at, Command::Remove(id, reason)) else {
        panic!(rt; "peer-del removes the peer");
    };
    assert_eq!(rt; serials.as_slice(), wanted);
}

/// What peer-get shows of a peer.
fn view(rt: &impl Abort, table: &mut Table, at: u32, id: PeerId) -> PeerView {
    let Ok(Reply::Peer(view)) = ask(table, at, Command::PeerGet(id)) else {
        panic!(rt; "peer-get shows the peer");
    };
    view.into_inner()
}

/// Whether an act may be made.
fn may(rt: &impl Abort, table: &Table, at: u32, act: Act, wanted: bool) {
    assert_eq!(rt; table.may(&Call { at, act }), wanted);
}

/// The keys that the last step took out of a slot.
fn takes(rt: &impl Abort, table: &Table, wanted: &[u32]) {
    assert_eq!(rt; table.taken(), wanted);
}

/// Whether a key's material is there.
fn has_pair(rt: &impl Abort, table: &Table, key: u32, wanted: bool) {
    assert_eq!(rt; table.pair(key).is_some(), wanted);
}

/// The one note of the steps so far.
fn noted(rt: &impl Abort, table: &Table, entry: u64, body: NoteBody) {
    assert_eq!(rt; table.notes(), [Note { entry, body }].as_slice());
}

/// Makes a key of peer 5, whose serial is this one.
fn new_key(rt: &impl Abort, table: &mut Table, at: u32, key: KeyConf, serial: u32) {
    answers(rt, table, at, Command::KeyNew(key), Reply::Made(serial));
}

/// A table with the peers 5 and 6, whose serials are 0 and 1. Peer 5 has key 0 in its primary slot and key
/// 1 in its secondary slot; peer 6 has no keys.
fn two_peers(rt: &impl Abort, alloc: Global) -> Table {
    let mut table = Table::new(alloc);
    let made = &mut table;
    answers(rt, made, 0, Command::PeerNew(peer(rt, 5)), Reply::Made(0));
    answers(rt, made, 0, Command::PeerNew(peer(rt, 6)), Reply::Made(1));
    new_key(rt, made, 0, conf(rt, Slot::Primary, 0, 0), 0);
    takes(rt, made, &[]);
    new_key(rt, made, 0, conf(rt, Slot::Secondary, 1, 1), 1);
    takes(rt, made, &[]);
    table
}
