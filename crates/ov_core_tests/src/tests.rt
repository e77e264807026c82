//! What no clause says: that a script runs to its report, also where a key gives its last packet id.

ghost use Rattle.std.specs.Prelude.{◌≡◌, ◌<◌, IfOk};
ghost use Rattle.std.specs.List.{AllByRecursion};
ghost use Rattle.ov_model.specs.Sizes.{Fits};

mod ticks;

use ov_base::{Addr, Boxed, ListOf, Memory, Octets, Transport};
use ov_core::{run_schedule, run_serially};
use ov_model::netlink::NO_ATTRIBUTES;
use ov_model::{
    Answer, Cipher, Deed, DropCause, KeyId, Line, NlKeyConf, NlKeyDir, NlMessage, NlOp, NlPeer,
    NoteBody, PeerId, Reply, Report, Route, Script, Slot,
};
use std::alloc::Global;
use std::test::Fail;

/// The last packet id that a key gives: 4294967295, the greatest of four bytes.
const LAST_ID: u32 = u32::MAX;

/// An inner packet: an IPv4 header of 20 bytes from 10.8.0.5 to itself.
const PACKET: [u8; 20] = [
    0x45, 0, 0, 0x14, 0, 0, 0, 0, 0x40, 0x11, 0, 0, 10, 8, 0, 5, 10, 8, 0, 5,
];

/// A line at moment 0.
fn line(lane: u32, deed: Deed) -> Line
    ensures deed { result.deed ≡ deed }
    ensures lane { result.lane ≡ lane }
{
    Line { lane, at: 0, deed }
}

/// The message that makes peer 5.
fn peer_new() -> NlMessage {
    NlMessage {
        op: NlOp::PeerNew,
        ifindex: None,
        peer: Some(NlPeer {
            id: Some(5),
            remote_ipv4: Some([192, 0, 2, 1]),
            remote_port: Some(1194),
            vpn_ipv4: Some([10, 8, 0, 5]),
            ..NO_ATTRIBUTES
        }),
        keyconf: None,
    }
}

/// A direction of a key.
fn dir(alloc: Global) -> Result<Option<NlKeyDir>, Memory> {
    Ok(Some(NlKeyDir {
        cipher_key: Some(Octets::of_vec(vec![in alloc; 7u8; 16]?)),
        nonce_tail: Some(Octets::of_vec(vec![in alloc; 9u8; 8]?)),
    }))
}

/// The message that makes a key of peer 5, key id 2, in its primary slot.
fn key_new(alloc: Global) -> Result<NlMessage, Memory> {
    let keyconf = NlKeyConf {
        peer_id: Some(5),
        slot: Some(Slot::Primary),
        key_id: Some(2),
        cipher: Some(Cipher::AesGcm),
        encrypt: dir(alloc)?,
        decrypt: dir(alloc)?,
    };
    Ok(NlMessage {
        op: NlOp::KeyNew,
        ifindex: None,
        peer: None,
        keyconf: Some(keyconf),
    })
}

/// The script that makes a peer and its key and sends the packet twice.
fn two_packets(alloc: Global) -> Result<Script, Memory>
    ensures fits { IfOk result (λ script. AllByRecursion (λ line. Fits line.deed) script.lines) }
    ensures lanes { IfOk result (λ script. AllByRecursion (λ line. line.lane < 64) script.lines) }
{
    let mut lines = Vec::new(alloc);
    lines.push(line(0, Deed::Netlink(Boxed::new(alloc, peer_new())?)))?;
    lines.push(line(0, Deed::Netlink(Boxed::new(alloc, key_new(alloc)?)?)))?;
    lines.push(line(0, Deed::Tx(Octets::of(alloc, &PACKET)?)))?;
    lines.push(line(0, Deed::Tx(Octets::of(alloc, &PACKET)?)))?;
    Ok(Script {
        lines: ListOf::of_vec(lines),
        routes: ListOf::new(alloc),
    })
}

/// The message that removes peer 5.
fn peer_del() -> NlMessage {
    NlMessage {
        op: NlOp::PeerDel,
        ifindex: None,
        peer: Some(NlPeer {
            id: Some(5),
            ..NO_ATTRIBUTES
        }),
        keyconf: None,
    }
}

/// The script in which lane 0 makes a peer and its key and sends the packet, and lane 1 removes the peer.
fn removal(alloc: Global) -> Result<Script, Memory>
    ensures fits { IfOk result (λ script. AllByRecursion (λ line. Fits line.deed) script.lines) }
    ensures lanes { IfOk result (λ script. AllByRecursion (λ line. line.lane < 64) script.lines) }
{
    let mut lines = Vec::new(alloc);
    lines.push(line(0, Deed::Netlink(Boxed::new(alloc, peer_new())?)))?;
    lines.push(line(0, Deed::Netlink(Boxed::new(alloc, key_new(alloc)?)?)))?;
    lines.push(line(0, Deed::Tx(Octets::of(alloc, &PACKET)?)))?;
    lines.push(line(1, Deed::Netlink(Boxed::new(alloc, peer_del())?)))?;
    Ok(Script {
        lines: ListOf::of_vec(lines),
        routes: ListOf::new(alloc),
    })
}

/// An inner packet: an IPv4 header of 20 bytes from 10.8.0.5 to 192.168.5.9.
const ROUTED: [u8; 20] = [
    0x45, 0, 0, 0x14, 0, 0, 0, 0, 0x40, 0x11, 0, 0, 10, 8, 0, 5, 192, 168, 5, 9,
];

/// Its datagram for peer id 5, key id 2, packet id 1: the head 4a000005 00000001, and the tag and the ciphertext
/// of Python's `cryptography` 48.0.0, `AESGCM(bytes([7]) * 16).encrypt` with the nonce 00000001
/// 0909090909090909 and the head as associated data; it puts the tag last.
const SEALED: [u8; 44] = [
    0x4a, 0x00, 0x00, 0x05, 0x00, 0x00, 0x00, 0x01, 0x73, 0x7f, 0xd1, 0xfb, 0xf0, 0xff, 0x1f, 0x2d,
    0xa8, 0x14, 0x93, 0x0e, 0xac, 0x57, 0x8a, 0x4d, 0x44, 0x55, 0xc9, 0xf7, 0x6d, 0x88, 0x42, 0x9c,
    0xfa, 0xaa, 0x20, 0x18, 0x74, 0x5a, 0x42, 0x1f, 0x89, 0x1d, 0xc5, 0xbe,
];

/// The script that makes peer 5, with the address 10.8.0.5 inside the tunnel, and its key, and sends that packet.
fn routed(alloc: Global, routes: Vec<Route>) -> Result<Script, Memory>
    ensures fits { IfOk result (λ script. AllByRecursion (λ line. Fits line.deed) script.lines) }
    ensures lanes { IfOk result (λ script. AllByRecursion (λ line. line.lane < 64) script.lines) }
{
    let mut lines = Vec::new(alloc);
    lines.push(line(0, Deed::Netlink(Boxed::new(alloc, peer_new())?)))?;
    lines.push(line(0, Deed::Netlink(Boxed::new(alloc, key_new(alloc)?)?)))?;
    lines.push(line(0, Deed::Tx(Octets::of(alloc, &ROUTED)?)))?;
    Ok(Script {
        lines: ListOf::of_vec(lines),
        routes: ListOf::of_vec(routes),
    })
}

/// The answer of the packet that the script sends.
fn third(report: &Report) -> Option<&Answer> {
    let [lane, ..] = report.lanes.as_slice() else {
        return None;
    };
    lane.answers.as_slice().get(2)
}

/// The lanes of the steps of a report.
fn steps(rt: &HostRuntime, report: &Report) -> Result<Vec<u32>, Memory> {
    let mut lanes = Vec::new(rt.alloc());
    for entry in report.journal.as_slice() {
        lanes.push(entry.place.lane)?;
    }
    Ok(lanes)
}

#[test]
fn a_peer_that_is_removed_while_it_is_held_is_let_go_by_its_holder(
    rt: HostRuntime,
) -> Result<(), Fail> {
    // Lane 0 makes peer and key and looks up; lane 1 removes the peer; lane 0 runs on.
    let report = run_schedule(rt.alloc(), removal(rt.alloc())?, 1, &[0, 0, 0, 1])?;
    assert_eq!(rt;
        steps(&rt, &report)?.as_slice(),
        [0u32, 0, 0, 1, 0, 0, 0].as_slice()
    );
    let [.., sent, key, peer] = report.journal.as_slice() else {
        panic!(rt; "too few steps");
    };
    assert_eq!(rt; sent.reply, Reply::Done);
    assert_eq!(rt; key.reply, Reply::KeyReleased(0));
    assert_eq!(rt; peer.reply, Reply::Released(0));
    assert_eq!(rt; report.lanes.len(), 64);
    Ok(())
}

#[test]
fn a_peer_that_nobody_holds_is_let_go_by_the_lane_that_removed_it(
    rt: HostRuntime,
) -> Result<(), Fail> {
    // Lane 0 makes peer and key; lane 1 removes the peer and lets both go; lane 0 finds no peer.
    let report = run_schedule(rt.alloc(), removal(rt.alloc())?, 1, &[0, 0, 1, 1, 1])?;
    assert_eq!(rt;
        steps(&rt, &report)?.as_slice(),
        [0u32, 0, 1, 1, 1, 0].as_slice()
    );
    let [.., key, peer, look] = report.journal.as_slice() else {
        panic!(rt; "too few steps");
    };
    assert_eq!(rt; key.reply, Reply::KeyReleased(0));
    assert_eq!(rt; peer.reply, Reply::Released(0));
    assert_eq!(rt; look.reply, Reply::NoPeer);
    Ok(())
}

#[test]
fn a_key_seals_with_its_last_id_and_is_then_let_go(rt: HostRuntime) -> Result<(), Fail> {
    let report = run_serially(rt.alloc(), two_packets(rt.alloc())?, LAST_ID)?;
    let [lane, ..] = report.lanes.as_slice() else {
        panic!(rt; "no lane");
    };
    let [peer, key, last, after] = lane.answers.as_slice() else {
        panic!(rt; "not an answer for each line");
    };
    assert_eq!(rt; peer, &Answer::Reply(Reply::Made(0)));
    assert_eq!(rt; key, &Answer::Reply(Reply::Made(0)));
    let Answer::Sealed(out) = last else {
        panic!(rt; "not sealed");
    };
    assert_eq!(rt; (out.key, out.id), (0, LAST_ID));
    assert_eq!(rt; after, &Answer::Dropped(DropCause::Spent));
    // A look-up and the packet that was sent; a look-up, the key that was spent, and its release.
    let [_, _, _, sent, _, killed, released] = report.journal.as_slice() else {
        panic!(rt; "not seven steps of the table");
    };
    assert_eq!(rt; sent.reply, Reply::Done);
    assert_eq!(rt; killed.reply, Reply::Killed);
    assert_eq!(rt; released.reply, Reply::KeyReleased(0));
    let [note] = report.notes.as_slice() else {
        panic!(rt; "not one note");
    };
    let swap = NoteBody::KeySwap {
        id: PeerId::new(5).expect(&rt, "an id in range"),
        key_id: KeyId::new(2).expect(&rt, "an id in range"),
    };
    assert_eq!(rt; (note.entry, note.body), (5, swap));
    assert_eq!(rt; report.shards.len(), 8);
    Ok(())
}

#[test]
fn a_packet_goes_to_the_peer_that_a_route_leads_to(rt: HostRuntime) -> Result<(), Fail> {
    // 192.168.5.0/24 has the next hop 10.8.0.5, which is peer 5.
    let route = Route {
        prefix: Addr::V4([192, 168, 5, 0]),
        length: 24,
        hop: Addr::V4([10, 8, 0, 5]),
    };
    let serial = run_serially(
        rt.alloc(),
        routed(rt.alloc(), Vec::from_array(rt.alloc(), [route])?)?,
        1,
    )?;
    let Some(Answer::Sealed(out)) = third(&serial) else {
        panic!(rt; "not sealed");
    };
    let remote = Transport {
        addr: Addr::V4([192, 0, 2, 1]),
        port: 1194,
    };
    assert_eq!(rt; (out.to, out.key, out.id), (remote, 0, 1));
    assert_eq!(rt; out.datagram.as_slice(), &SEALED[..]);
    let turns = run_schedule(
        rt.alloc(),
        routed(rt.alloc(), Vec::from_array(rt.alloc(), [route])?)?,
        1,
        &[0, 0, 0],
    )?;
    assert_eq!(rt; third(&turns), third(&serial));
    Ok(())
}

#[test]
fn a_packet_goes_to_nobody_without_a_route(rt: HostRuntime) -> Result<(), Fail> {
    let none = routed(rt.alloc(), Vec::new(rt.alloc()))?;
    let report = run_serially(rt.alloc(), none, 1)?;
    assert_eq!(rt; third(&report), Some(&Answer::Dropped(DropCause::NoPeer)));
    let none = routed(rt.alloc(), Vec::new(rt.alloc()))?;
    let report = run_schedule(rt.alloc(), none, 1, &[0, 0, 0])?;
    assert_eq!(rt; third(&report), Some(&Answer::Dropped(DropCause::NoPeer)));
    Ok(())
}
