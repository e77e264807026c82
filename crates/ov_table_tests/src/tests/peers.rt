//! Peers: made, shown, changed and removed.

use super::{
    answers, ask, attrs, gives, id, may, noted, peer, refuses, removes, transport, two_peers, view,
};
use ov_base::{Addr, Memory, Transport};
use ov_model::{
    Act, Attrs, Command, Errno, HoldView, Keepalive, KeyId, NoteBody, PeerId, Reason, Reply,
};
use ov_table::Table;
use std::alloc::Global;
use std::process::Abort;

/// Peer 5, with an address of either family inside the tunnel.
fn first(rt: &impl Abort) -> Attrs {
    Attrs {
        vpn6: Some([0xfd, 0, 0, 0, 0, 0, 0, 0, 0, 0, 0, 0, 0, 0, 0, 5]),
        ..attrs(id(rt, 5), [192, 0, 2, 1], [10, 8, 0, 5])
    }
}

/// Peer 6, which has nothing in common with that one.
fn other(rt: &impl Abort) -> Attrs {
    attrs(id(rt, 6), [192, 0, 2, 2], [10, 8, 0, 6])
}

/// The same attributes without a remote.
fn without_remote(given: Attrs) -> Attrs {
    Attrs {
        remote: None,
        ..given
    }
}

/// The same attributes without an address inside the tunnel.
fn without_vpn(given: Attrs) -> Attrs {
    Attrs {
        vpn4: None,
        vpn6: None,
        ..given
    }
}

/// Makes a peer, whose serial is this one.
fn makes(rt: &impl Abort, table: &mut Table, given: Attrs, serial: u32) {
    answers(rt, table, 0, Command::PeerNew(given), Reply::Made(serial));
}

/// Peers without a remote or without an address inside the tunnel are refused, before and after peer 5.
fn all_is_wanted(rt: &impl Abort, table: &mut Table, first: Attrs) {
    let no_remote = Command::PeerNew(without_remote(first));
    refuses(rt, table, 0, no_remote, Errno::Invalid);
    makes(rt, table, first, 0);
    refuses(rt, table, 0, no_remote, Errno::Invalid);
    let no_vpn = Command::PeerNew(without_vpn(first));
    refuses(rt, table, 0, no_vpn, Errno::Invalid);
}

/// A peer is refused, since it has something in common with one that is there.
fn is_taken(rt: &impl Abort, table: &mut Table, given: Attrs) {
    refuses(rt, table, 0, Command::PeerNew(given), Errno::Exists);
}

/// Peer 6 has the id, an address inside the tunnel or the remote of peer 5.
fn all_is_taken(rt: &impl Abort, table: &mut Table, first: Attrs, other: Attrs) {
    let same_id = Attrs {
        id: first.id,
        ..other
    };
    is_taken(rt, table, same_id);
    let same_vpn4 = Attrs {
        vpn4: first.vpn4,
        ..other
    };
    is_taken(rt, table, same_vpn4);
    let same_vpn6 = Attrs {
        vpn6: first.vpn6,
        ..other
    };
    is_taken(rt, table, same_vpn6);
    let same_remote = Attrs {
        remote: first.remote,
        ..other
    };
    is_taken(rt, table, same_remote);
}

/// The remote of peer 5 at another port.
fn other_port() -> Transport {
    Transport {
        addr: Addr::V4([192, 0, 2, 1]),
        port: 1195,
    }
}

#[test]
fn a_taken_id_address_or_transport_is_refused(rt: HostRuntime) {
    let mut table = Table::new(rt.alloc());
    all_is_wanted(&rt, &mut table, first(&rt));
    all_is_taken(&rt, &mut table, first(&rt), other(&rt));
    let free = Attrs {
        remote: Some(other_port()),
        ..other(&rt)
    };
    makes(&rt, &mut table, free, 1);
    assert_eq!(rt; table.journal().len(), 9);
}

#[test]
fn as_many_peers_as_a_session_may_make_have_space(rt: HostRuntime) {
    let mut table = Table::new(rt.alloc());
    for n in 0..4097_u32 {
        let [_, _, high, low] = n.to_be_bytes();
        let given = attrs(id(&rt, n), [192, 168, high, low], [10, 8, high, low]);
        let wanted = if n < 4096 {
            Reply::Made(n)
        } else {
            Reply::Refused(Errno::NoSpace)
        };
        answers(&rt, &mut table, 0, Command::PeerNew(given), wanted);
    }
}

/// Peer 5 is shown with its id and its keepalive, which was not given.
fn is_shown(rt: &impl Abort, table: &mut Table, five: PeerId) {
    let view = view(rt, table, 1, five);
    assert_eq!(rt; view.id.get(), 5);
    assert_eq!(rt; view.keepalive.timeout, 0);
}

/// Peer 5 may be let go from its removal on, once.
fn is_let_go(rt: &impl Abort, table: &mut Table, five: PeerId) {
    let release = Act::Released(0);
    may(rt, table, 2, release, false);
    removes(rt, table, 2, five, Reason::Expired, &[0]);
    refuses(rt, table, 3, Command::PeerGet(five), Errno::NoEntry);
    may(rt, table, 2, release, true);
    gives(rt, table, 2, release, Reply::Released(0));
    may(rt, table, 2, release, false);
}

/// The journal and the notes of a table have these lengths.
fn ends_with(rt: &impl Abort, table: Table, entries: usize, notes: usize) {
    let (journal, told) = table.finish();
    assert_eq!(rt; journal.len(), entries);
    assert_eq!(rt; told.len(), notes);
}

#[test]
fn a_removed_peer_is_noted_and_let_go(rt: HostRuntime) {
    let five = id(&rt, 5);
    let mut table = Table::new(rt.alloc());
    makes(
        &rt,
        &mut table,
        attrs(five, [192, 0, 2, 1], [10, 8, 0, 5]),
        0,
    );
    is_shown(&rt, &mut table, five);
    is_let_go(&rt, &mut table, five);
    let note = NoteBody::PeerDel {
        id: five,
        reason: Reason::Expired,
    };
    noted(&rt, &table, 2, note);
    assert_eq!(rt; table.journal().len(), 5);
    ends_with(&rt, table, 5, 1);
}

/// The ids of the peers that a dump shows.
fn dumped(rt: &impl Abort, alloc: Global, table: &mut Table) -> Result<Vec<u32>, Memory> {
    let Ok(Reply::Peers(views)) = ask(table, 1, Command::PeerDump) else {
        panic!(rt; "a dump shows peers");
    };
    let mut ids = Vec::new(alloc);
    for view in views.as_slice() {
        ids.push(view.id.get())?;
    }
    Ok(ids)
}

/// A dump shows the peers with these ids.
fn dumps(rt: &impl Abort, alloc: Global, table: &mut Table, wanted: &[u32]) {
    let Ok(ids) = dumped(rt, alloc, table) else {
        panic!(rt; "no memory");
    };
    assert_eq!(rt; ids.as_slice(), wanted);
}

/// The peers 9, 5, 200 and 7, in this order.
fn four_peers(rt: &impl Abort, table: &mut Table) {
    makes(rt, table, peer(rt, 9), 0);
    makes(rt, table, peer(rt, 5), 1);
    makes(rt, table, peer(rt, 200), 2);
    makes(rt, table, peer(rt, 7), 3);
}

#[test]
fn a_dump_shows_all_live_peers_by_rising_id(rt: HostRuntime) {
    let mut table = Table::new(rt.alloc());
    dumps(&rt, rt.alloc(), &mut table, &[]);
    four_peers(&rt, &mut table);
    dumps(&rt, rt.alloc(), &mut table, &[5, 7, 9, 200]);
    removes(&rt, &mut table, 1, id(&rt, 7), Reason::Userspace, &[3]);
    dumps(&rt, rt.alloc(), &mut table, &[5, 9, 200]);
}

#[test]
fn a_peer_that_is_refused_is_not_in_the_dump(rt: HostRuntime) {
    let mut table = Table::new(rt.alloc());
    let first = attrs(id(&rt, 5), [192, 0, 2, 1], [10, 8, 0, 5]);
    let second = attrs(id(&rt, 6), [192, 0, 2, 2], [10, 8, 0, 5]);
    makes(&rt, &mut table, first, 0);
    is_taken(&rt, &mut table, second);
    dumps(&rt, rt.alloc(), &mut table, &[5]);
}

/// Changes a peer.
fn sets(rt: &impl Abort, table: &mut Table, given: Attrs, wanted: Reply) {
    answers(rt, table, 1, Command::PeerSet(given), wanted);
}

/// Peer 7, which is not there, and addresses that peer 6 has.
fn sets_are_refused(rt: &impl Abort, table: &mut Table, five: PeerId) {
    let seven = attrs(id(rt, 7), [192, 0, 2, 6], [10, 8, 0, 6]);
    sets(rt, table, seven, Reply::Refused(Errno::NoEntry));
    let six = attrs(five, [192, 0, 2, 6], [10, 8, 0, 6]);
    sets(rt, table, six, Reply::Refused(Errno::Exists));
    sets(rt, table, without_vpn(six), Reply::Refused(Errno::Exists));
}

/// Its own addresses, no address, and free ones twice.
fn sets_are_done(rt: &impl Abort, table: &mut Table, five: PeerId) {
    let own = peer(rt, 5);
    sets(rt, table, own, Reply::Done);
    let nothing = without_remote(without_vpn(own));
    sets(rt, table, nothing, Reply::Done);
    let moved = attrs(five, [192, 0, 2, 9], [10, 8, 0, 9]);
    sets(rt, table, moved, Reply::Done);
    sets(rt, table, moved, Reply::Done);
}

/// Packets find peer 5 and its key 0 at the address that it moved to, and nobody at the old one.
fn is_found_anew(rt: &impl Abort, table: &mut Table, five: PeerId) {
    let old = Act::TxLook(Addr::V4([10, 8, 0, 5]));
    gives(rt, table, 1, old, Reply::NoPeer);
    let hold = HoldView {
        peer: 0,
        id: five,
        key: 0,
        key_id: KeyId::new(0).expect(rt, "an id in range"),
        to: transport([192, 0, 2, 9]),
    };
    let new = Act::TxLook(Addr::V4([10, 8, 0, 9]));
    gives(rt, table, 1, new, Reply::Hold(hold));
}

#[test]
fn peer_set_takes_free_addresses_alone_and_frees_the_old(rt: HostRuntime) {
    let mut table = two_peers(&rt, rt.alloc());
    let five = id(&rt, 5);
    sets_are_refused(&rt, &mut table, five);
    sets_are_done(&rt, &mut table, five);
    is_found_anew(&rt, &mut table, five);
    let heir = attrs(id(&rt, 7), [192, 0, 2, 5], [10, 8, 0, 5]);
    answers(&rt, &mut table, 1, Command::PeerNew(heir), Reply::Made(2));
}

#[test]
fn peer_set_changes_the_keepalive_that_is_given(rt: HostRuntime) {
    let mut table = two_peers(&rt, rt.alloc());
    let mut given = peer(&rt, 5);
    let keepalive = Keepalive {
        interval: 10,
        timeout: 60,
    };
    given.keepalive = Some(keepalive);
    answers(&rt, &mut table, 1, Command::PeerSet(given), Reply::Done);
    given.keepalive = None;
    answers(&rt, &mut table, 2, Command::PeerSet(given), Reply::Done);
    let view = view(&rt, &mut table, 3, given.id);
    assert_eq!(rt; view.keepalive, keepalive);
}
