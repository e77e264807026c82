// Messages of each operation: one with all attributes, and those that are refused, row by row.

use crate::call_of;
use ov_base::{Addr, Octets, Transport};
use ov_model::netlink::NO_ATTRIBUTES;
use ov_model::{
    Attrs, Cipher, Command, Errno, Keepalive, KeyBytes, KeyConf, KeyDir, KeyId, NlKeyConf,
    NlKeyDir, NlMessage, NlOp, NlPeer, PeerId, Reason, Slot,
};
use std::alloc::Global;
use std::process::Abort;

/// A peer with all attributes, the addresses outside the tunnel in IPv4.
const PEER: NlPeer = NlPeer {
    id: Some(16777215),
    remote_ipv4: Some([192, 0, 2, 1]),
    remote_ipv6: None,
    remote_ipv6_scope_id: Some(0),
    remote_port: Some(65535),
    socket: Some(3),
    socket_netnsid: Some(4),
    vpn_ipv4: Some([10, 8, 0, 5]),
    vpn_ipv6: Some([0xfd, 0, 0, 0, 0, 0, 0, 0, 0, 0, 0, 0, 0, 0, 0, 5]),
    local_ipv4: Some([192, 0, 2, 254]),
    local_ipv6: None,
    local_port: Some(1),
    keepalive_interval: Some(10),
    keepalive_timeout: Some(30),
};

/// An address of documentation (RFC 3849).
const OUTSIDE: [u8; 16] = [0x20, 1, 0x0d, 0xb8, 0, 0, 0, 0, 0, 0, 0, 0, 0, 0, 0, 1];

/// What a message with these attributes is answered.
fn answer(op: NlOp, peer: Option<NlPeer>, keyconf: Option<NlKeyConf>) -> Result<Command, Errno> {
    call_of(&NlMessage {
        op,
        ifindex: Some(7),
        peer,
        keyconf,
    })
}

/// What a message with a peer is answered.
fn of_peer(op: NlOp, peer: NlPeer) -> Result<Command, Errno> {
    answer(op, Some(peer), None)
}

/// What a message is answered is this.
fn answers(
    rt: &impl Abort,
    op: NlOp,
    peer: Option<NlPeer>,
    keyconf: Option<NlKeyConf>,
    wanted: Result<Command, Errno>,
) {
    assert_eq!(rt; answer(op, peer, keyconf), wanted);
}

/// A message with a key is refused as invalid.
fn refuses(rt: &impl Abort, op: NlOp, peer: Option<NlPeer>, keyconf: Option<NlKeyConf>) {
    answers(rt, op, peer, keyconf, Err(Errno::Invalid));
}

/// A message with a key and no peer is taken.
fn takes(rt: &impl Abort, op: NlOp, conf: NlKeyConf) {
    assert!(rt; answer(op, None, Some(conf)).is_ok());
}

/// A list of these bytes.
fn octets(rt: &impl Abort, alloc: Global, bytes: &[u8]) -> Octets {
    let Ok(octets) = Octets::of(alloc, bytes) else {
        panic!(rt; "no memory");
    };
    octets
}

/// A direction with a key of 16 bytes, each of them the same, and a tail.
fn dir(rt: &impl Abort, alloc: Global, byte: u8) -> NlKeyDir {
    NlKeyDir {
        cipher_key: Some(octets(rt, alloc, &[byte; 16])),
        nonce_tail: Some(octets(rt, alloc, &[byte; 8])),
    }
}

/// A key with all attributes.
fn key(rt: &impl Abort, alloc: Global) -> NlKeyConf {
    NlKeyConf {
        peer_id: Some(0),
        slot: Some(Slot::Secondary),
        key_id: Some(7),
        cipher: Some(Cipher::AesGcm),
        encrypt: Some(dir(rt, alloc, 1)),
        decrypt: Some(dir(rt, alloc, 2)),
    }
}

/// The direction of a key of 16 bytes and a tail, each byte the same.
fn checked_dir(byte: u8) -> KeyDir {
    KeyDir {
        key: KeyBytes::K16([byte; 16]),
        tail: [byte; 8],
    }
}

/// A peer id in range.
fn id(rt: &impl Abort, number: u32) -> PeerId {
    PeerId::new(number).expect(rt, "an id in range")
}

/// The attributes of the peer with all of them.
fn attrs(rt: &impl Abort) -> Attrs {
    Attrs {
        id: id(rt, 16777215),
        remote: Some(Transport {
            addr: Addr::V4([192, 0, 2, 1]),
            port: 65535,
        }),
        vpn4: Some([10, 8, 0, 5]),
        vpn6: PEER.vpn_ipv6,
        keepalive: Some(Keepalive {
            interval: 10,
            timeout: 30,
        }),
    }
}

/// The key with all attributes.
fn conf(rt: &impl Abort) -> KeyConf {
    KeyConf {
        peer: id(rt, 0),
        slot: Slot::Secondary,
        key_id: KeyId::new(7).expect(rt, "an id in range"),
        encrypt: checked_dir(1),
        decrypt: checked_dir(2),
    }
}

/// A message with all attributes is this command.
fn is_command(rt: &impl Abort, alloc: Global, op: NlOp, wanted: Command) {
    answers(rt, op, Some(PEER), Some(key(rt, alloc)), Ok(wanted));
}

#[test]
fn a_message_with_all_attributes_is_its_command(rt: HostRuntime) {
    let greatest = id(&rt, 16777215);
    let removal = Command::Remove(greatest, Reason::Userspace);
    is_command(&rt, rt.alloc(), NlOp::PeerNew, Command::PeerNew(attrs(&rt)));
    is_command(&rt, rt.alloc(), NlOp::PeerSet, Command::PeerSet(attrs(&rt)));
    is_command(&rt, rt.alloc(), NlOp::PeerGet, Command::PeerGet(greatest));
    is_command(&rt, rt.alloc(), NlOp::PeerDump, Command::PeerDump);
    is_command(&rt, rt.alloc(), NlOp::PeerDel, removal);
    let least = id(&rt, 0);
    let get = Command::KeyGet(least, Slot::Secondary);
    let del = Command::KeyDel(least, Slot::Secondary);
    is_command(&rt, rt.alloc(), NlOp::KeyNew, Command::KeyNew(conf(&rt)));
    is_command(&rt, rt.alloc(), NlOp::KeyGet, get);
    is_command(&rt, rt.alloc(), NlOp::KeySwap, Command::KeySwap(least));
    is_command(&rt, rt.alloc(), NlOp::KeyDel, del);
}

/// The remote of the attributes that a message with a peer gives.
fn remote_of(op: NlOp, peer: NlPeer) -> Option<Transport> {
    match of_peer(op, peer) {
        Ok(Command::PeerNew(attrs)) => attrs.remote,
        Ok(Command::PeerSet(attrs)) => attrs.remote,
        _ => None,
    }
}

/// A remote in IPv6 with a local address in IPv6 is taken.
fn takes_ipv6(rt: &impl Abort, op: NlOp) {
    let peer = NlPeer {
        remote_ipv4: None,
        remote_ipv6: Some(OUTSIDE),
        remote_port: Some(1),
        local_ipv4: None,
        local_ipv6: Some(OUTSIDE),
        local_port: Some(65535),
        ..PEER
    };
    let wanted = Transport {
        addr: Addr::V6(OUTSIDE),
        port: 1,
    };
    assert_eq!(rt; remote_of(op, peer), Some(wanted));
}

#[test]
fn a_remote_of_ipv6_is_taken(rt: HostRuntime) {
    takes_ipv6(&rt, NlOp::PeerNew);
    takes_ipv6(&rt, NlOp::PeerSet);
}

/// A peer with an id and no other attribute.
fn bare(number: u32) -> NlPeer {
    NlPeer {
        id: Some(number),
        ..NO_ATTRIBUTES
    }
}

/// The attributes of a peer that has an id alone.
fn nothing(id: PeerId) -> Attrs {
    Attrs {
        id,
        remote: None,
        vpn4: None,
        vpn6: None,
        keepalive: None,
    }
}

/// A key of a peer with no other attribute.
fn named(peer: u32) -> NlKeyConf {
    NlKeyConf {
        peer_id: Some(peer),
        slot: None,
        key_id: None,
        cipher: None,
        encrypt: None,
        decrypt: None,
    }
}

#[test]
fn what_is_not_given_is_not_asked_for(rt: HostRuntime) {
    let five = id(&rt, 5);
    let new = Command::PeerNew(nothing(five));
    let set = Command::PeerSet(nothing(five));
    let swap = Command::KeySwap(five);
    answers(&rt, NlOp::PeerNew, Some(bare(5)), None, Ok(new));
    answers(&rt, NlOp::PeerSet, Some(bare(5)), None, Ok(set));
    answers(&rt, NlOp::PeerDump, None, None, Ok(Command::PeerDump));
    answers(&rt, NlOp::KeySwap, None, Some(named(5)), Ok(swap));
}

/// An operation on a peer is refused without the peer, without its id and with an id out of range.
fn needs_an_id(rt: &impl Abort, alloc: Global, op: NlOp) {
    let none = NlPeer { id: None, ..PEER };
    let above = NlPeer {
        id: Some(16777216),
        ..PEER
    };
    refuses(rt, op, None, Some(key(rt, alloc)));
    refuses(rt, op, Some(none), None);
    refuses(rt, op, Some(above), None);
}

#[test]
fn a_peer_needs_an_id_in_range(rt: HostRuntime) {
    needs_an_id(&rt, rt.alloc(), NlOp::PeerNew);
    needs_an_id(&rt, rt.alloc(), NlOp::PeerSet);
    needs_an_id(&rt, rt.alloc(), NlOp::PeerGet);
    needs_an_id(&rt, rt.alloc(), NlOp::PeerDel);
}

/// Whether peer-new and peer-set refuse these attributes; None where they differ, or where an operation that
/// looks at the id alone refuses them, too.
fn is_refused(peer: NlPeer) -> Option<bool> {
    if of_peer(NlOp::PeerGet, peer).is_err() || of_peer(NlOp::PeerDel, peer).is_err() {
        return None;
    }
    match (of_peer(NlOp::PeerNew, peer), of_peer(NlOp::PeerSet, peer)) {
        (Err(Errno::Invalid), Err(Errno::Invalid)) => Some(true),
        (Ok(_), Ok(_)) => Some(false),
        _ => None,
    }
}

/// Whether peer-new and peer-set refuse these attributes is this.
fn is_taken(rt: &impl Abort, peer: NlPeer, taken: bool) {
    assert_eq!(rt; is_refused(peer), Some(!taken));
}

/// The peer with other remote attributes.
fn with_remote(v4: Option<[u8; 4]>, v6: Option<[u8; 16]>, port: Option<u32>) -> NlPeer {
    NlPeer {
        remote_ipv4: v4,
        remote_ipv6: v6,
        remote_port: port,
        ..PEER
    }
}

/// The peer with other local attributes.
fn with_local(v4: Option<[u8; 4]>, v6: Option<[u8; 16]>, port: Option<u32>) -> NlPeer {
    NlPeer {
        local_ipv4: v4,
        local_ipv6: v6,
        local_port: port,
        ..PEER
    }
}

/// The peer with other keepalive times.
fn with_keepalive(interval: Option<u32>, timeout: Option<u32>) -> NlPeer {
    NlPeer {
        keepalive_interval: interval,
        keepalive_timeout: timeout,
        ..PEER
    }
}

/// An IPv4 address of documentation (RFC 5737).
const NEAR: Option<[u8; 4]> = Some([192, 0, 2, 1]);

/// An IPv6 address of documentation (RFC 3849).
const FAR: Option<[u8; 16]> = Some(OUTSIDE);

/// Whether these remote attributes are taken.
fn remote(
    rt: &impl Abort,
    v4: Option<[u8; 4]>,
    v6: Option<[u8; 16]>,
    port: Option<u32>,
    taken: bool,
) {
    is_taken(rt, with_remote(v4, v6, port), taken);
}

#[test]
fn a_remote_is_one_address_with_its_port(rt: HostRuntime) {
    remote(&rt, NEAR, None, Some(1), true);
    remote(&rt, None, FAR, Some(65535), true);
    remote(&rt, None, None, None, true);
    remote(&rt, NEAR, FAR, Some(1), false);
    remote(&rt, None, None, Some(1), false);
    remote(&rt, NEAR, None, None, false);
    remote(&rt, None, FAR, None, false);
    remote(&rt, NEAR, None, Some(0), false);
    remote(&rt, NEAR, None, Some(65536), false);
    let scope = NlPeer {
        remote_ipv6_scope_id: Some(1),
        ..PEER
    };
    is_taken(&rt, scope, false);
}

/// Whether these local attributes are taken.
fn local(
    rt: &impl Abort,
    v4: Option<[u8; 4]>,
    v6: Option<[u8; 16]>,
    port: Option<u32>,
    taken: bool,
) {
    is_taken(rt, with_local(v4, v6, port), taken);
}

#[test]
fn a_local_address_is_one_and_needs_no_port(rt: HostRuntime) {
    local(&rt, NEAR, None, None, true);
    local(&rt, None, FAR, Some(65535), true);
    local(&rt, None, None, Some(1), true);
    local(&rt, NEAR, FAR, None, false);
    local(&rt, NEAR, None, Some(0), false);
    local(&rt, NEAR, None, Some(65536), false);
}

#[test]
fn a_keepalive_has_both_its_times(rt: HostRuntime) {
    is_taken(&rt, with_keepalive(Some(0), Some(0)), true);
    is_taken(&rt, with_keepalive(None, None), true);
    is_taken(&rt, with_keepalive(Some(10), None), false);
    is_taken(&rt, with_keepalive(None, Some(30)), false);
}

/// The key with another peer id.
fn with_peer_id(rt: &impl Abort, alloc: Global, peer_id: Option<u32>) -> NlKeyConf {
    NlKeyConf {
        peer_id,
        ..key(rt, alloc)
    }
}

/// An operation on a key is refused without the key, without its peer's id and with an id out of range.
fn needs_a_peer(rt: &impl Abort, alloc: Global, op: NlOp) {
    refuses(rt, op, Some(PEER), None);
    refuses(rt, op, Some(PEER), Some(with_peer_id(rt, alloc, None)));
    let above = Some(16777216);
    refuses(rt, op, Some(PEER), Some(with_peer_id(rt, alloc, above)));
}

#[test]
fn a_key_needs_a_peer_in_range(rt: HostRuntime) {
    needs_a_peer(&rt, rt.alloc(), NlOp::KeyNew);
    needs_a_peer(&rt, rt.alloc(), NlOp::KeyGet);
    needs_a_peer(&rt, rt.alloc(), NlOp::KeySwap);
    needs_a_peer(&rt, rt.alloc(), NlOp::KeyDel);
}

/// The key without a slot.
fn slotless(rt: &impl Abort, alloc: Global) -> NlKeyConf {
    NlKeyConf {
        slot: None,
        ..key(rt, alloc)
    }
}

#[test]
fn a_key_is_named_by_its_slot_but_for_a_swap(rt: HostRuntime) {
    refuses(&rt, NlOp::KeyNew, None, Some(slotless(&rt, rt.alloc())));
    refuses(&rt, NlOp::KeyGet, None, Some(slotless(&rt, rt.alloc())));
    takes(&rt, NlOp::KeySwap, slotless(&rt, rt.alloc()));
    refuses(&rt, NlOp::KeyDel, None, Some(slotless(&rt, rt.alloc())));
}

/// The key with another cipher, or with none.
fn with_cipher(rt: &impl Abort, alloc: Global, cipher: Option<Cipher>) -> NlKeyConf {
    NlKeyConf {
        cipher,
        ..key(rt, alloc)
    }
}

/// An operation takes each cipher, and none.
fn takes_any_cipher(rt: &impl Abort, alloc: Global, op: NlOp) {
    takes(rt, op, with_cipher(rt, alloc, None));
    takes(rt, op, with_cipher(rt, alloc, Some(Cipher::NoCipher)));
    let other = Some(Cipher::ChaCha20Poly1305);
    takes(rt, op, with_cipher(rt, alloc, other));
}

/// A new key with a cipher, or with none, is refused so.
fn new_key(rt: &impl Abort, alloc: Global, cipher: Option<Cipher>, errno: Errno) {
    let conf = with_cipher(rt, alloc, cipher);
    answers(rt, NlOp::KeyNew, None, Some(conf), Err(errno));
}

#[test]
fn only_a_new_key_is_asked_for_its_cipher(rt: HostRuntime) {
    let other = Some(Cipher::ChaCha20Poly1305);
    let none = Some(Cipher::NoCipher);
    new_key(&rt, rt.alloc(), None, Errno::Invalid);
    new_key(&rt, rt.alloc(), none, Errno::NotSupported);
    new_key(&rt, rt.alloc(), other, Errno::NotSupported);
    takes_any_cipher(&rt, rt.alloc(), NlOp::KeyGet);
    takes_any_cipher(&rt, rt.alloc(), NlOp::KeySwap);
    takes_any_cipher(&rt, rt.alloc(), NlOp::KeyDel);
}
