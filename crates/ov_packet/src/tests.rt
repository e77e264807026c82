use crate::{
    Head, HeadStop, InnerFacts, inner, is_keepalive, nonce, read_head, write_datagram, write_head,
};
use ov_gcm::GcmKey;
use ov_model::{KeyBytes, KeyId, PeerId};
use std::test::Fail;

/// A head, where its numbers are in range.
fn head_of(id: u32, key_id: u8, packet_id: u32) -> Option<Head> {
    let id = PeerId::new(id)?;
    let key_id = KeyId::new(key_id)?;
    Some(Head {
        id,
        key_id,
        packet_id,
    })
}

#[test]
fn a_head_is_written_and_read_back(rt: HostRuntime) -> Result<(), Fail> {
    for (id, key_id, packet_id, bytes) in [
        (5, 2, 1, [0x4a, 0, 0, 5, 0, 0, 0, 1]),
        (0, 0, 0, [0x48, 0, 0, 0, 0, 0, 0, 0]),
        (0x010203, 7, 0x04050607, [0x4f, 1, 2, 3, 4, 5, 6, 7]),
    ] {
        let head = head_of(id, key_id, packet_id);
        assert!(rt; head.is_some());
        if let Some(head) = head {
            assert_eq!(rt; write_head(&head), bytes);
            let mut datagram = [0xff; 24];
            datagram[..8].copy_from_slice(&bytes);
            assert_eq!(rt; read_head(&datagram), Ok(head));
        }
    }
    Ok(())
}

#[test]
fn short_datagrams_and_other_opcodes_are_told_apart(rt: HostRuntime) -> Result<(), Fail> {
    let mut datagram = [0; 24];
    datagram[..8].copy_from_slice(&[0x4a, 0, 0, 5, 0, 0, 0, 1]);
    for length in [0, 3, 4, 23] {
        assert_eq!(rt;
            read_head(&datagram[..length]),
            Err(HeadStop::Short),
            "{length} bytes"
        );
    }
    assert!(rt; read_head(&datagram).is_ok());
    assert_eq!(rt; read_head(&[0x30, 0, 0, 0]), Err(HeadStop::DataV1));
    assert_eq!(rt; read_head(&[0x20, 0, 0, 0]), Err(HeadStop::Control));
    assert_eq!(rt; read_head(&[0x30, 0, 0]), Err(HeadStop::Short));
    Ok(())
}

#[test]
fn a_nonce_is_the_packet_id_and_the_tail(rt: HostRuntime) -> Result<(), Fail> {
    assert_eq!(rt;
        nonce(0x01020304, [5, 6, 7, 8, 9, 10, 11, 12]),
        [1, 2, 3, 4, 5, 6, 7, 8, 9, 10, 11, 12]
    );
    Ok(())
}

/// An IPv4 packet of 20 bytes, each but the first its own place.
const V4_PACKET: [u8; 20] = [
    0x45, 1, 2, 3, 4, 5, 6, 7, 8, 9, 10, 11, 12, 13, 14, 15, 16, 17, 18, 19,
];

/// An IPv6 packet of 40 bytes, each but the first its own place.
const V6_PACKET: [u8; 40] = [
    0x60, 1, 2, 3, 4, 5, 6, 7, 8, 9, 10, 11, 12, 13, 14, 15, 16, 17, 18, 19, 20, 21, 22, 23, 24,
    25, 26, 27, 28, 29, 30, 31, 32, 33, 34, 35, 36, 37, 38, 39,
];

#[test]
fn an_inner_packet_shows_its_addresses(rt: HostRuntime) -> Result<(), Fail> {
    assert_eq!(rt;
        inner(&V4_PACKET),
        InnerFacts::V4 {
            source: [12, 13, 14, 15],
            destination: [16, 17, 18, 19],
        }
    );
    assert_eq!(rt;
        inner(&V6_PACKET),
        InnerFacts::V6 {
            source: [8, 9, 10, 11, 12, 13, 14, 15, 16, 17, 18, 19, 20, 21, 22, 23],
            destination: [
                24, 25, 26, 27, 28, 29, 30, 31, 32, 33, 34, 35, 36, 37, 38, 39
            ],
        }
    );
    Ok(())
}

#[test]
fn a_packet_shorter_than_its_header_is_not_ip(rt: HostRuntime) -> Result<(), Fail> {
    assert_eq!(rt; inner(&V4_PACKET[..19]), InnerFacts::NotIp);
    assert_eq!(rt; inner(&V6_PACKET[..39]), InnerFacts::NotIp);
    assert_eq!(rt; inner(&[]), InnerFacts::NotIp);
    Ok(())
}

#[test]
fn the_keepalive_message_is_one_packet_only(rt: HostRuntime) -> Result<(), Fail> {
    let mut packet = 0x2a187bf3641eb4cb07ed2d0a981fc748_u128.to_be_bytes();
    assert!(rt; is_keepalive(&packet));
    assert_eq!(rt; crate::keepalive_message(), packet);
    assert_eq!(rt; inner(&packet), InnerFacts::NotIp);
    assert!(rt; !is_keepalive(&packet[..15]));
    packet[15] ^= 1;
    assert!(rt; !is_keepalive(&packet));
    Ok(())
}

/// The first of these packets as a datagram of peer id 0x010203 with key id 7 and packet id 0x04050607, under the
/// key 00..1f and the tail 10..17. The tag and the ciphertext are those of Python's `cryptography`,
/// `AESGCM(bytes(range(32))).encrypt`; it puts the tag last.
const DATAGRAM: [u8; 44] = [
    0x4f, 0x01, 0x02, 0x03, 0x04, 0x05, 0x06, 0x07, 0x53, 0x63, 0xb2, 0x74, 0x71, 0xf1, 0x28, 0x0c,
    0xb1, 0x3e, 0x4e, 0x30, 0x4f, 0x1c, 0xc3, 0x27, 0xa2, 0xbc, 0xa9, 0xbe, 0xde, 0xac, 0xcb, 0x81,
    0x71, 0x77, 0x3c, 0xa4, 0xcb, 0x04, 0x7d, 0xe4, 0xdf, 0xfc, 0x69, 0x45,
];

/// The bytes 0 to 31.
fn counted() -> [u8; 32] {
    let mut bytes = [0; 32];
    for i in 0..32 {
        bytes[i] = i as u8;
    }
    bytes
}

#[test]
fn a_datagram_is_as_another_implementation_seals_it(rt: HostRuntime) {
    let Some(head) = head_of(0x010203, 7, 0x04050607) else {
        panic!(rt; "no head");
    };
    let key = GcmKey::new(&KeyBytes::K32(counted()));
    let tail = [16, 17, 18, 19, 20, 21, 22, 23];
    let Ok(datagram) = write_datagram(rt.alloc(), &head, &key, tail, &V4_PACKET) else {
        panic!(rt; "no memory");
    };
    assert!(rt; datagram.as_slice() == DATAGRAM.as_slice());
}
