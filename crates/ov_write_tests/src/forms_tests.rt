use ov_base::{Addr, Boxed, Octets, Transport};
use ov_line::read_line;
use ov_model::netlink::NO_ATTRIBUTES;
use ov_model::{
    Cipher, Deed, Line, NlKeyConf, NlKeyDir, NlMessage, NlOp, NlPeer, PeerId, Reason, Slot,
};
use ov_write::line_bytes;
use std::alloc::Global;
use std::process::Abort;

/// The bytes from one on, 16 of them.
const SIXTEEN: [u8; 16] = [1, 2, 3, 4, 5, 6, 7, 8, 9, 10, 11, 12, 13, 14, 15, 16];

/// The attributes that peer-set has, each with a value of its own.
const SET: NlPeer = NlPeer {
    id: Some(1),
    remote_ipv4: Some([192, 0, 2, 2]),
    remote_ipv6: Some(SIXTEEN),
    remote_ipv6_scope_id: Some(3),
    remote_port: Some(4),
    vpn_ipv4: Some([10, 8, 0, 5]),
    vpn_ipv6: Some([255; 16]),
    local_ipv4: Some([0, 0, 0, 0]),
    local_ipv6: Some([0; 16]),
    local_port: Some(6),
    keepalive_interval: Some(7),
    keepalive_timeout: Some(4294967295),
    ..NO_ATTRIBUTES
};

/// A peer with nothing but this id.
fn named(id: u32) -> Option<NlPeer> {
    Some(NlPeer {
        id: Some(id),
        ..NO_ATTRIBUTES
    })
}

/// An operation on a peer, for this device.
fn on_peer(op: NlOp, ifindex: Option<u32>, peer: Option<NlPeer>) -> NlMessage {
    NlMessage {
        op,
        ifindex,
        peer,
        keyconf: None,
    }
}

/// An operation on a key, for this device.
fn on_key(op: NlOp, ifindex: Option<u32>, keyconf: Option<NlKeyConf>) -> NlMessage {
    NlMessage {
        op,
        ifindex,
        peer: None,
        keyconf,
    }
}

/// A key's attributes without its cipher, its number and its directions.
fn of_peer(peer: u32, slot: Option<Slot>) -> Option<NlKeyConf> {
    Some(NlKeyConf {
        peer_id: Some(peer),
        slot,
        key_id: None,
        cipher: None,
        encrypt: None,
        decrypt: None,
    })
}

/// These bytes.
fn octets(rt: &impl Abort, alloc: Global, bytes: &[u8]) -> Octets {
    let Ok(octets) = Octets::of(alloc, bytes) else {
        panic!(rt; "no memory");
    };
    octets
}

/// A line has this canonical text.
fn is_written(rt: &impl Abort, alloc: Global, line: &Line, text: &str) {
    let Ok(bytes) = line_bytes(alloc, line) else {
        panic!(rt; "no memory");
    };
    assert!(rt; bytes.as_slice() == text.as_bytes(), "{text}");
}

/// A text says this line, and is its canonical text.
fn says(rt: &impl Abort, alloc: Global, text: &str, line: Line) {
    is_written(rt, alloc, &line, text);
    assert!(rt; read_line(alloc, text.as_bytes(), 4) == Ok(line), "{text}");
}

/// A text says the line that does this on lane 3 at 7.
fn does(rt: &impl Abort, alloc: Global, text: &str, deed: Deed) {
    let line = Line {
        lane: 3,
        at: 7,
        deed,
    };
    says(rt, alloc, text, line);
}

/// A text says the line of this message on lane 3 at 7.
fn asks(rt: &impl Abort, alloc: Global, text: &str, message: NlMessage) {
    let Ok(message) = Boxed::new(alloc, message) else {
        panic!(rt; "no memory");
    };
    does(rt, alloc, text, Deed::Netlink(message));
}

#[test]
fn each_operation_on_peers_is_read_and_written_with_all_its_names(rt: HostRuntime) {
    let alloc = rt.alloc();
    let new = NlPeer {
        socket: Some(8),
        socket_netnsid: Some(9),
        ..SET
    };
    let text =
        r#"{"at":7,"do":"peer-new","ifindex":2,"lane":3,"peer":{"id":1,"keepalive-interval":7,"keepalive-timeout":4294967295,"local-ipv4":"0.0.0.0","local-ipv6":"00000000000000000000000000000000","local-port":6,"remote-ipv4":"192.0.2.2","remote-ipv6":"0102030405060708090a0b0c0d0e0f10","remote-ipv6-scope-id":3,"remote-port":4,"socket":8,"socket-netnsid":9,"vpn-ipv4":"10.8.0.5","vpn-ipv6":"ffffffffffffffffffffffffffffffff"}}"#;
    asks(&rt, alloc, text, on_peer(NlOp::PeerNew, Some(2), Some(new)));
    let text =
        r#"{"at":7,"do":"peer-set","ifindex":2,"lane":3,"peer":{"id":1,"keepalive-interval":7,"keepalive-timeout":4294967295,"local-ipv4":"0.0.0.0","local-ipv6":"00000000000000000000000000000000","local-port":6,"remote-ipv4":"192.0.2.2","remote-ipv6":"0102030405060708090a0b0c0d0e0f10","remote-ipv6-scope-id":3,"remote-port":4,"vpn-ipv4":"10.8.0.5","vpn-ipv6":"ffffffffffffffffffffffffffffffff"}}"#;
    asks(&rt, alloc, text, on_peer(NlOp::PeerSet, Some(2), Some(SET)));
    let text = r#"{"at":7,"do":"peer-get","ifindex":0,"lane":3,"peer":{"id":4294967295}}"#;
    asks(
        &rt,
        alloc,
        text,
        on_peer(NlOp::PeerGet, Some(0), named(4294967295)),
    );
    let text = r#"{"at":7,"do":"peer-dump","ifindex":4294967295,"lane":3}"#;
    asks(
        &rt,
        alloc,
        text,
        on_peer(NlOp::PeerDump, Some(4294967295), None),
    );
    let text = r#"{"at":7,"do":"peer-del","ifindex":2,"lane":3,"peer":{"id":0}}"#;
    asks(&rt, alloc, text, on_peer(NlOp::PeerDel, Some(2), named(0)));
}

/// The attributes of a key, each with a value of its own but for a tail.
fn whole_key(rt: &impl Abort, alloc: Global) -> NlKeyConf {
    NlKeyConf {
        peer_id: Some(5),
        slot: Some(Slot::Secondary),
        key_id: Some(7),
        cipher: Some(Cipher::ChaCha20Poly1305),
        encrypt: Some(NlKeyDir {
            cipher_key: Some(octets(rt, alloc, &SIXTEEN)),
            nonce_tail: Some(octets(rt, alloc, &[0xab])),
        }),
        decrypt: Some(NlKeyDir {
            cipher_key: Some(octets(rt, alloc, &[])),
            nonce_tail: None,
        }),
    }
}

#[test]
fn each_operation_on_keys_is_read_and_written_with_all_its_names(rt: HostRuntime) {
    let alloc = rt.alloc();
    let text =
        r#"{"at":7,"do":"key-new","ifindex":1,"keyconf":{"cipher-alg":"chacha20-poly1305","decrypt-dir":{"cipher-key":""},"encrypt-dir":{"cipher-key":"0102030405060708090a0b0c0d0e0f10","nonce-tail":"ab"},"key-id":7,"peer-id":5,"slot":"secondary"},"lane":3}"#;
    let conf = whole_key(&rt, alloc);
    asks(&rt, alloc, text, on_key(NlOp::KeyNew, Some(1), Some(conf)));
    let text =
        r#"{"at":7,"do":"key-get","ifindex":1,"keyconf":{"peer-id":5,"slot":"primary"},"lane":3}"#;
    let conf = of_peer(5, Some(Slot::Primary));
    asks(&rt, alloc, text, on_key(NlOp::KeyGet, Some(1), conf));
    let text = r#"{"at":7,"do":"key-swap","ifindex":1,"keyconf":{"peer-id":16777216},"lane":3}"#;
    let conf = of_peer(16777216, None);
    asks(&rt, alloc, text, on_key(NlOp::KeySwap, Some(1), conf));
    let text =
        r#"{"at":7,"do":"key-del","ifindex":1,"keyconf":{"peer-id":0,"slot":"secondary"},"lane":3}"#;
    let conf = of_peer(0, Some(Slot::Secondary));
    asks(&rt, alloc, text, on_key(NlOp::KeyDel, Some(1), conf));
    let text = r#"{"at":7,"do":"key-del","ifindex":1,"lane":3}"#;
    asks(&rt, alloc, text, on_key(NlOp::KeyDel, Some(1), None));
}

/// A text says that a datagram came.
fn receives(rt: &impl Abort, alloc: Global, text: &str, from: Transport, datagram: &[u8]) {
    let datagram = octets(rt, alloc, datagram);
    does(rt, alloc, text, Deed::Rx { from, datagram });
}

/// A text says that the transport of the peer of the greatest id is lost.
fn loses(rt: &impl Abort, alloc: Global, text: &str, reason: Reason) {
    let Some(id) = PeerId::new(16777215) else {
        panic!(rt; "no id");
    };
    does(rt, alloc, text, Deed::Lost { id, reason });
}

#[test]
fn packets_losses_ticks_and_the_end_of_the_device_are_read_and_written(rt: HostRuntime) {
    let alloc = rt.alloc();
    let four = Transport {
        addr: Addr::V4([192, 0, 2, 255]),
        port: 65535,
    };
    let six = Transport {
        addr: Addr::V6(SIXTEEN),
        port: 0,
    };
    let text = r#"{"at":7,"do":"tx","lane":3,"packet":"45ff"}"#;
    does(
        &rt,
        alloc,
        text,
        Deed::Tx(octets(&rt, alloc, &[0x45, 0xff])),
    );
    let text =
        r#"{"at":7,"datagram":"4800","do":"rx","from":{"addr":"192.0.2.255","port":65535},"lane":3}"#;
    receives(&rt, alloc, text, four, &[0x48, 0]);
    let text =
        r#"{"at":7,"datagram":"","do":"rx","from":{"addr":"0102030405060708090a0b0c0d0e0f10","port":0},"lane":3}"#;
    receives(&rt, alloc, text, six, &[]);
    let text =
        r#"{"at":7,"do":"lost","lane":3,"peer":{"del-reason":"transport-error","id":16777215}}"#;
    loses(&rt, alloc, text, Reason::TransportError);
    let text =
        r#"{"at":7,"do":"lost","lane":3,"peer":{"del-reason":"transport-disconnect","id":16777215}}"#;
    loses(&rt, alloc, text, Reason::TransportDisconnect);
    does(&rt, alloc, r#"{"at":7,"do":"tick","lane":3}"#, Deed::Tick);
    does(&rt, alloc, r#"{"at":7,"do":"down","lane":3}"#, Deed::Down);
}
