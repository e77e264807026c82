//! The lines of a script, byte for byte. The expected bytes were computed by another implementation of AES-GCM.

use crate::made;
use ov_base::{Addr, Octets, Transport};
use ov_model::netlink::NO_ATTRIBUTES;
use ov_model::{Cipher, Deed, Line, NlKeyConf, NlKeyDir, NlMessage, NlOp, NlPeer, Script, Slot};
use std::alloc::Global;
use std::process::Abort;

/// What is sent to peer 0 under the seed 1.
const OUT: [u8; 64] = [
    0x45, 0x00, 0x00, 0x00, 0x00, 0x00, 0x00, 0x00, 0x00, 0x00, 0x00, 0x00, 0x0a, 0x09, 0x00, 0x01,
    0x0a, 0x08, 0x00, 0x01, 0x01, 0x01, 0x01, 0x01, 0x01, 0x01, 0x01, 0x01, 0x01, 0x01, 0x01, 0x01,
    0x01, 0x01, 0x01, 0x01, 0x01, 0x01, 0x01, 0x01, 0x01, 0x01, 0x01, 0x01, 0x01, 0x01, 0x01, 0x01,
    0x01, 0x01, 0x01, 0x01, 0x01, 0x01, 0x01, 0x01, 0x01, 0x01, 0x01, 0x01, 0x01, 0x01, 0x01, 0x01,
];

/// What peer 0 sends first under the seed 1.
const FIRST: [u8; 88] = [
    0x48, 0x00, 0x00, 0x00, 0x00, 0x00, 0x00, 0x01, 0x79, 0x2d, 0x3c, 0x3b, 0x25, 0x59, 0x17, 0x7c,
    0x9b, 0x76, 0xd5, 0xec, 0x80, 0xd6, 0x27, 0x4b, 0x42, 0xe2, 0x85, 0xe7, 0x7c, 0x5f, 0xb6, 0xf1,
    0x6a, 0x47, 0x40, 0x65, 0x29, 0x50, 0xea, 0xc4, 0xd7, 0x2f, 0xa8, 0x60, 0xfe, 0x84, 0x86, 0xeb,
    0xc5, 0xe6, 0x64, 0xa0, 0x51, 0xc2, 0xaf, 0xa9, 0x95, 0x23, 0x55, 0xf0, 0x1c, 0xc3, 0x25, 0xf8,
    0x44, 0x3a, 0x4c, 0x11, 0xa9, 0x1f, 0xa0, 0xf1, 0xc7, 0x7b, 0xf5, 0x42, 0xc5, 0xe1, 0xe3, 0xdc,
    0x3b, 0x67, 0x02, 0xce, 0x43, 0x5a, 0xe3, 0xa8,
];

/// What peer 0 sends as its sixth datagram under the seed 0x01020304.
const SIXTH: [u8; 88] = [
    0x48, 0x00, 0x00, 0x00, 0x00, 0x00, 0x00, 0x06, 0x30, 0xc0, 0x8c, 0x4b, 0xc0, 0x20, 0xf9, 0x02,
    0x14, 0xbe, 0xcc, 0x36, 0x2d, 0x19, 0x91, 0x8b, 0xd3, 0x59, 0xce, 0x1b, 0x19, 0x91, 0x67, 0x94,
    0x44, 0x13, 0x44, 0x9f, 0xc6, 0x08, 0x41, 0x3c, 0xc5, 0x81, 0xaa, 0xae, 0xea, 0xd7, 0xc8, 0x95,
    0x3a, 0x76, 0x46, 0x48, 0xac, 0x33, 0x67, 0xa6, 0x20, 0x9f, 0x94, 0xca, 0x3c, 0x36, 0x2a, 0xae,
    0x3c, 0xfc, 0x36, 0xe2, 0x05, 0xca, 0x26, 0x5b, 0x59, 0x36, 0x30, 0x2a, 0x41, 0x98, 0x4c, 0xf5,
    0x86, 0xa6, 0x20, 0xea, 0xa1, 0x8b, 0xf2, 0xec,
];

/// What peer 5 sends first under the seed 0x01020304.
const OF_PEER_5: [u8; 88] = [
    0x4d, 0x00, 0x00, 0x05, 0x00, 0x00, 0x00, 0x01, 0xb9, 0x38, 0x7c, 0xc4, 0xe2, 0x02, 0xb5, 0x4a,
    0xd4, 0xc0, 0x4e, 0xeb, 0x0c, 0x61, 0x32, 0xe1, 0xbf, 0x51, 0xc0, 0x30, 0xdc, 0x81, 0xe2, 0x82,
    0x6f, 0x51, 0xdc, 0x45, 0x0c, 0x99, 0x4e, 0xac, 0x5f, 0xf0, 0x76, 0xc3, 0x6b, 0x03, 0x3d, 0x03,
    0xb4, 0xd5, 0x15, 0xb8, 0x1e, 0xcc, 0x27, 0x87, 0x13, 0xc3, 0x73, 0x33, 0x83, 0x66, 0x1b, 0x85,
    0x2c, 0x80, 0xf9, 0x19, 0xa4, 0x37, 0xf2, 0x2a, 0x84, 0x71, 0x8a, 0x24, 0x0a, 0xb3, 0x39, 0x82,
    0x77, 0x27, 0x0c, 0xdf, 0x1f, 0x9e, 0x23, 0x83,
];

/// A script with this seed and so many lines behind its head.
fn script(rt: &impl Abort, alloc: Global, seed: u32, count: u32) -> Script {
    let Ok(script) = made(alloc, seed, count) else {
        panic!(rt; "no memory");
    };
    script
}

/// A line of a script.
fn line<'a>(rt: &impl Abort, script: &'a Script, i: usize) -> &'a Line {
    let Some(line) = script.lines.as_slice().get(i) else {
        panic!(rt; "no line {i}");
    };
    line
}

/// A line is a message on a lane.
fn message<'a>(rt: &impl Abort, script: &'a Script, i: usize, lane: u32) -> &'a NlMessage {
    let line = line(rt, script, i);
    assert_eq!(rt; line.lane, lane);
    assert_eq!(rt; line.at, 0);
    let Deed::Netlink(message) = &line.deed else {
        panic!(rt; "no message");
    };
    message.get()
}

/// A line makes a peer whose addresses end with `last`.
fn makes_peer(rt: &impl Abort, script: &Script, i: usize, lane: u32, id: u32, last: u8) {
    let wanted = NlPeer {
        id: Some(id),
        remote_ipv4: Some([192, 0, 2, last]),
        remote_port: Some(1194),
        vpn_ipv4: Some([10, 8, 0, last]),
        ..NO_ATTRIBUTES
    };
    let message = message(rt, script, i, lane);
    assert_eq!(rt; message.op, NlOp::PeerNew);
    assert_eq!(rt; message.ifindex, None);
    assert_eq!(rt; message.peer, Some(wanted));
    assert!(rt; message.keyconf.is_none());
}

/// These are the bytes.
fn is_bytes(rt: &impl Abort, given: &Option<Octets>, wanted: &[u8]) {
    let Some(given) = given else {
        panic!(rt; "no bytes");
    };
    assert!(rt; given.as_slice() == wanted);
}

/// A direction has this key and this tail, each a number of so many bytes with the highest first.
fn is_direction(rt: &impl Abort, direction: &Option<NlKeyDir>, key: u128, tail: u64) {
    let Some(direction) = direction else {
        panic!(rt; "no direction");
    };
    is_bytes(rt, &direction.cipher_key, &key.to_be_bytes());
    is_bytes(rt, &direction.nonce_tail, &tail.to_be_bytes());
}

/// The attributes of a key that a line gives.
fn key<'a>(rt: &impl Abort, script: &'a Script, i: usize, lane: u32) -> &'a NlKeyConf {
    let message = message(rt, script, i, lane);
    assert_eq!(rt; message.op, NlOp::KeyNew);
    assert_eq!(rt; message.ifindex, None);
    assert!(rt; message.peer.is_none());
    let Some(keyconf) = &message.keyconf else {
        panic!(rt; "no key");
    };
    keyconf
}

/// A line gives a peer the primary key with an id, whose encrypt key is this number.
fn gives_key(rt: &impl Abort, script: &Script, i: usize, peer: u32, key_id: u32, encrypt: u128) {
    let keyconf = key(rt, script, i, key_id);
    assert_eq!(rt; keyconf.peer_id, Some(peer));
    assert_eq!(rt; keyconf.slot, Some(Slot::Primary));
    assert_eq!(rt; keyconf.key_id, Some(key_id));
    assert_eq!(rt; keyconf.cipher, Some(Cipher::AesGcm));
    is_direction(rt, &keyconf.encrypt, encrypt, u64::from(peer));
    is_direction(rt, &keyconf.decrypt, encrypt | 1, u64::from(peer));
}

/// A line sends a packet.
fn sends(rt: &impl Abort, script: &Script, i: usize, lane: u32, wanted: &[u8]) {
    let line = line(rt, script, i);
    assert_eq!(rt; line.lane, lane);
    assert_eq!(rt; line.at, 0);
    let Deed::Tx(packet) = &line.deed else {
        panic!(rt; "nothing is sent");
    };
    assert!(rt; packet.as_slice() == wanted);
}

/// A line takes a datagram from the peer whose outer address ends with `last`.
fn takes(rt: &impl Abort, script: &Script, i: usize, lane: u32, last: u8, wanted: &[u8]) {
    let line = line(rt, script, i);
    assert_eq!(rt; line.lane, lane);
    assert_eq!(rt; line.at, 0);
    let Deed::Rx { from, datagram } = &line.deed else {
        panic!(rt; "nothing is received");
    };
    let addr = Addr::V4([192, 0, 2, last]);
    assert_eq!(rt; *from, Transport { addr, port: 1194 });
    assert!(rt; datagram.as_slice() == wanted);
}

#[test]
fn head_lines_make_peers_and_give_them_keys(rt: HostRuntime) {
    let script = script(&rt, rt.alloc(), 0xfedcba98, 0);
    assert_eq!(rt; script.lines.len(), 256);
    assert!(rt; script.routes.is_empty());
    makes_peer(&rt, &script, 0, 0, 0, 1);
    gives_key(&rt, &script, 1, 0, 0, 0x00000000fedcba98_0000000000000000);
    makes_peer(&rt, &script, 2, 1, 1, 2);
    gives_key(&rt, &script, 3, 1, 1, 0x00000000fedcba98_0000000000000002);
    makes_peer(&rt, &script, 16, 0, 8, 9);
    makes_peer(&rt, &script, 254, 7, 127, 128);
    gives_key(
        &rt,
        &script,
        255,
        127,
        7,
        0x00000000fedcba98_00000000000000fe,
    );
}

#[test]
fn a_group_is_a_packet_and_a_datagram_twice_and_changed(rt: HostRuntime) {
    let script = script(&rt, rt.alloc(), 1, 4);
    let mut changed = FIRST;
    changed[87] = 0xa9;
    assert_eq!(rt; script.lines.len(), 260);
    sends(&rt, &script, 256, 0, &OUT);
    takes(&rt, &script, 257, 1, 1, &FIRST);
    takes(&rt, &script, 258, 2, 1, &FIRST);
    takes(&rt, &script, 259, 3, 1, &changed);
}

#[test]
fn peers_and_lanes_take_turns(rt: HostRuntime) {
    let script = script(&rt, rt.alloc(), 0x01020304, 2562);
    assert_eq!(rt; script.lines.len(), 2818);
    takes(&rt, &script, 256 + 21, 5, 6, &OF_PEER_5);
    assert_eq!(rt; line(&rt, &script, 256 + 511).lane, 7);
    assert_eq!(rt; line(&rt, &script, 256 + 512).lane, 1);
    assert_eq!(rt; line(&rt, &script, 256 + 2048).lane, 4);
    takes(&rt, &script, 256 + 2561, 6, 1, &SIXTH);
}
