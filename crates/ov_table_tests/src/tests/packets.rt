//! Packets and datagrams: whom they find, and what of them is counted.

use super::{gives, id, key_id, removes, transport, two_peers, view};
use ov_base::{Addr, Transport};
use ov_model::{Act, Counts, HoldView, InnerKind, PeerId, PeerView, Reason, Reply, Settled};
use ov_table::Table;
use std::process::Abort;

/// A hold on a key of peer 5, whose serial is its key id.
fn hold(rt: &impl Abort, key: u8) -> Reply {
    Reply::Hold(HoldView {
        peer: 0,
        id: id(rt, 5),
        key: u32::from(key),
        key_id: key_id(rt, key),
        to: transport([192, 0, 2, 5]),
    })
}

/// Whom a packet finds, by the last byte of its next hop inside the tunnel.
fn packet_finds(rt: &impl Abort, table: &mut Table, last: u8, wanted: Reply) {
    gives(
        rt,
        table,
        1,
        Act::TxLook(Addr::V4([10, 8, 0, last])),
        wanted,
    );
}

/// Whom a datagram finds, by the ids of its head and the last byte of where it came from.
fn datagram_finds(
    rt: &impl Abort,
    table: &mut Table,
    id: PeerId,
    key: u8,
    last: u8,
    wanted: Reply,
) {
    let look = Act::RxLook {
        id,
        key_id: key_id(rt, key),
        from: transport([192, 0, 2, last]),
    };
    gives(rt, table, 1, look, wanted);
}

#[test]
fn a_look_up_holds_the_peer_and_its_key(rt: HostRuntime) {
    let mut table = two_peers(&rt, rt.alloc());
    let table = &mut table;
    packet_finds(&rt, table, 5, hold(&rt, 0));
    packet_finds(&rt, table, 6, Reply::NoKey);
    packet_finds(&rt, table, 7, Reply::NoPeer);
    let five = id(&rt, 5);
    datagram_finds(&rt, table, five, 0, 5, hold(&rt, 0));
    datagram_finds(&rt, table, five, 1, 9, hold(&rt, 1));
    datagram_finds(&rt, table, five, 2, 5, Reply::NoKey);
    let none = id(&rt, 16_777_215);
    datagram_finds(&rt, table, none, 1, 5, hold(&rt, 1));
    datagram_finds(&rt, table, none, 1, 9, Reply::NoPeer);
}

/// What becomes of a datagram of peer 5.
fn settles(
    rt: &impl Abort,
    table: &mut Table,
    from: Option<Transport>,
    kind: InnerKind,
    wanted: Settled,
) {
    let settle = Act::Settle {
        peer: 0,
        from,
        kind,
        inner: 20,
        outer: 44,
    };
    gives(rt, table, 1, settle, Reply::Settled(wanted));
}

/// A datagram was sealed for peer 5.
fn sends(rt: &impl Abort, table: &mut Table, ping: bool) {
    let sent = Act::Sent {
        peer: 0,
        inner: 20,
        outer: 44,
        ping,
    };
    gives(rt, table, 1, sent, Reply::Done);
}

/// A packet whose source has this next hop, by its last byte.
fn from(last: u8) -> InnerKind {
    InnerKind::From(Addr::V4([10, 8, 0, last]))
}

/// Four datagrams come and two go.
fn six_datagrams(rt: &impl Abort, table: &mut Table) {
    let taken = Some(transport([192, 0, 2, 6]));
    settles(rt, table, taken, from(5), Settled::Deliver);
    settles(rt, table, None, from(6), Settled::NotOwner);
    let free = Some(transport([192, 0, 2, 9]));
    settles(rt, table, free, InnerKind::Ping, Settled::Ping);
    settles(rt, table, None, InnerKind::NotIp, Settled::NotIp);
    sends(rt, table, false);
    sends(rt, table, true);
}

/// The counts of peer 5 and where it is after them.
fn is_counted(rt: &impl Abort, view: PeerView) {
    let counts = Counts {
        vpn_rx_bytes: 20,
        vpn_rx_packets: 1,
        vpn_tx_bytes: 20,
        vpn_tx_packets: 1,
        link_rx_bytes: 176,
        link_rx_packets: 4,
        link_tx_bytes: 88,
        link_tx_packets: 2,
    };
    assert_eq!(rt; view.counts, counts);
    assert_eq!(rt; view.remote, transport([192, 0, 2, 9]));
}

#[test]
fn what_is_sent_and_received_is_counted(rt: HostRuntime) {
    let mut table = two_peers(&rt, rt.alloc());
    let table = &mut table;
    let five = id(&rt, 5);
    six_datagrams(&rt, table);
    is_counted(&rt, view(&rt, table, 1, five));
    removes(&rt, table, 1, five, Reason::Userspace, &[0]);
    settles(&rt, table, None, from(5), Settled::NotOwner);
    sends(&rt, table, false);
}
