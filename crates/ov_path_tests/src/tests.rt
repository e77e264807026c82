mod plain;
mod ticks;
mod told;
mod walks;

ghost use Rattle.std.specs.Prelude.{◌<◌};

use ov_base::{Addr, Memory, Octets, Transport};
use ov_keys::KeyPair;
use ov_model::{HoldView, KeyBytes, KeyConf, KeyDir, KeyId, PeerId, Slot};
use ov_packet::read_head;
use ov_path::{open, seal};
use std::alloc::Global;
use std::process::Abort;

/// An inner packet: an IPv4 header of 20 bytes from 10.8.0.5 to itself.
const PACKET: [u8; 20] = [
    0x45, 0, 0, 0x14, 0, 0, 0, 0, 0x40, 0x11, 0, 0, 10, 8, 0, 5, 10, 8, 0, 5,
];

/// Its datagram for peer id 5, key id 2, packet id 1, under the key 00..0f and the tail 00..07. The tag
/// and the ciphertext are those of Python's `cryptography` 48.0.0, `AESGCM(bytes(range(16))).encrypt`
/// with the nonce 00000001 0001020304050607 and the head 4a000005 00000001 as associated data; it puts
/// the tag last.
const DATAGRAM: [u8; 44] = [
    0x4a, 0x00, 0x00, 0x05, 0x00, 0x00, 0x00, 0x01, 0x60, 0x51, 0x0e, 0x1c, 0x04, 0xad, 0x71, 0x9a,
    0x85, 0x1c, 0x1b, 0xc1, 0x6f, 0x2d, 0x39, 0xab, 0xdf, 0x16, 0xc4, 0xd5, 0x9b, 0xf4, 0x32, 0x44,
    0x69, 0x21, 0x4f, 0x1f, 0x67, 0x46, 0x36, 0x28, 0x3b, 0xf6, 0x48, 0x96,
];

/// The datagram of the keepalive message for peer id 5, key id 2, packet id 1, under the same key and tail, by
/// the same implementation.
const FIRST_PING: [u8; 40] = [
    0x4a, 0x00, 0x00, 0x05, 0x00, 0x00, 0x00, 0x01, 0xdb, 0x6b, 0xc2, 0x3a, 0x8f, 0xa9, 0x86, 0xbe,
    0xd9, 0xed, 0x6d, 0x04, 0x31, 0xfe, 0xed, 0x7d, 0xb0, 0x0e, 0xbf, 0x32, 0xff, 0xea, 0x86, 0x8f,
    0x2e, 0xdd, 0x62, 0x15, 0xf5, 0x51, 0xf1, 0x65,
];

/// The same with packet id 2.
const SECOND_PING: [u8; 40] = [
    0x4a, 0x00, 0x00, 0x05, 0x00, 0x00, 0x00, 0x02, 0xa3, 0x5b, 0x90, 0xe1, 0x6c, 0x58, 0x33, 0x30,
    0xcc, 0x52, 0xcc, 0x73, 0x87, 0x82, 0x34, 0xac, 0x7c, 0x13, 0xaa, 0xd0, 0x12, 0x8a, 0xf9, 0xc9,
    0x37, 0xa4, 0xce, 0xf4, 0xef, 0x28, 0xfe, 0x4b,
];

/// The key 00..0f with the tail 00..07, in both directions, and a hold on it.
fn held() -> Option<(HoldView, KeyPair)> {
    let peer = PeerId::new(5)?;
    let key_id = KeyId::new(2)?;
    let dir = KeyDir {
        key: KeyBytes::K16([0, 1, 2, 3, 4, 5, 6, 7, 8, 9, 10, 11, 12, 13, 14, 15]),
        tail: [0, 1, 2, 3, 4, 5, 6, 7],
    };
    let conf = KeyConf {
        peer,
        slot: Slot::Primary,
        key_id,
        encrypt: dir,
        decrypt: dir,
    };
    let hold = HoldView {
        peer: 0,
        id: peer,
        key: 0,
        key_id,
        to: Transport {
            addr: Addr::V4([192, 0, 2, 1]),
            port: 1194,
        },
    };
    Some((hold, KeyPair::of(&conf)))
}

/// Opens a datagram where its head is that of a data packet.
fn opened(alloc: Global, pair: &KeyPair, datagram: &[u8; 44]) -> Result<Option<Octets>, Memory> {
    match read_head(datagram) {
        Ok(head) => open(alloc, pair, head.packet_id, datagram),
        Err(_) => Ok(None),
    }
}

/// Holds bytes against those that they should be.
fn are(rt: &impl Abort, bytes: &[u8], wanted: &[u8]) {
    assert_eq!(rt; bytes, wanted);
}

/// The datagram with the lowest bit of one byte changed.
fn changed(place: usize) -> [u8; 44]
    requires { place < 44 }
{
    let mut wrong = DATAGRAM;
    wrong[place] ^= 1;
    wrong
}

/// The datagram doesn't open with the lowest bit of this byte changed.
fn does_not_open(rt: &impl Abort, alloc: Global, pair: &KeyPair, place: usize)
    requires { place < 44 }
{
    let Ok(None) = opened(alloc, pair, &changed(place)) else {
        panic!(rt; "opened with byte {place} changed");
    };
}

#[test]
fn a_packet_is_sealed_as_another_implementation_seals_it(rt: HostRuntime) {
    let Some((hold, pair)) = held() else {
        panic!(rt; "an id out of range");
    };
    let Ok(datagram) = seal(rt.alloc(), &hold, &pair, 1, &PACKET) else {
        panic!(rt; "no memory");
    };
    are(&rt, datagram.as_slice(), &DATAGRAM);
}

#[test]
fn a_datagram_opens_as_its_packet(rt: HostRuntime) {
    let Some((_, pair)) = held() else {
        panic!(rt; "an id out of range");
    };
    let Ok(Some(packet)) = opened(rt.alloc(), &pair, &DATAGRAM) else {
        panic!(rt; "not opened");
    };
    are(&rt, packet.as_slice(), &PACKET);
}

#[test]
fn a_datagram_with_one_bit_changed_does_not_open(rt: HostRuntime) {
    let Some((_, pair)) = held() else {
        panic!(rt; "an id out of range");
    };
    for place in [1, 7, 8, 23, 24, 43] {
        does_not_open(&rt, rt.alloc(), &pair, place);
    }
}
