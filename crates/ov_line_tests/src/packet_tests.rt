use ov_base::{Addr, Boxed, Memory, Octets, Transport};
use ov_line::{LineStop, read_line};
use ov_model::{Cipher, Deed, Line, NlKeyConf, NlKeyDir, NlMessage, NlOp, Slot};
use std::alloc::Global;
use std::process::Abort;

const KEY5: &[u8] =
    br#"{"at":0,"do":"key-new","keyconf":{"cipher-alg":"aes-gcm","decrypt-dir":{"cipher-key":"000102030405060708090a0b0c0d0e0f","nonce-tail":"0001020304050607"},"encrypt-dir":{"cipher-key":"000102030405060708090a0b0c0d0e0f","nonce-tail":"0001020304050607"},"key-id":2,"peer-id":5,"slot":"primary"},"lane":0}"#;

const SEND5: &[u8] =
    br#"{"at":0,"do":"tx","lane":0,"packet":"4500001400000000401100000a0800050a080005"}"#;

/// These bytes.
fn octets(rt: &impl Abort, alloc: Global, bytes: &[u8]) -> Octets {
    let Ok(octets) = Octets::of(alloc, bytes) else {
        panic!(rt; "no memory");
    };
    octets
}

/// A direction with these bytes.
fn dir(rt: &impl Abort, alloc: Global, key: &[u8], tail: &[u8]) -> Option<NlKeyDir> {
    Some(NlKeyDir {
        cipher_key: Some(octets(rt, alloc, key)),
        nonce_tail: Some(octets(rt, alloc, tail)),
    })
}

/// The bytes say the line that does this on lane 0 at 0.
fn does(rt: &impl Abort, alloc: Global, bytes: &[u8], deed: Deed) {
    let line = Line {
        lane: 0,
        at: 0,
        deed,
    };
    assert!(rt; read_line(alloc, bytes, 1) == Ok(line));
}

/// The bytes say the line that makes this key on lane 0 at 0.
fn asks(rt: &impl Abort, alloc: Global, bytes: &[u8], keyconf: NlKeyConf) {
    let message = NlMessage {
        op: NlOp::KeyNew,
        ifindex: None,
        peer: None,
        keyconf: Some(keyconf),
    };
    let Ok(message) = Boxed::new(alloc, message) else {
        panic!(rt; "no memory");
    };
    does(rt, alloc, bytes, Deed::Netlink(message));
}

/// Whether the bytes were found outside the grammar, whatever the reason.
fn is_bad(read: &Result<Line, LineStop>) -> bool {
    matches!(read, Err(LineStop::Bad(_)))
}

/// Each line of a text is outside the grammar, on one lane.
fn are_bad(rt: &impl Abort, alloc: Global, text: &str) {
    for line in text.lines() {
        assert!(rt; is_bad(&read_line(alloc, line.as_bytes(), 1)), "{line}");
    }
}

/// Each line of a text is one of the grammar, on one lane.
fn are_lines(rt: &impl Abort, alloc: Global, text: &str) {
    for line in text.lines() {
        assert!(rt; read_line(alloc, line.as_bytes(), 1).is_ok(), "{line}");
    }
}

#[test]
fn a_key_new_line_gives_its_six_attributes(rt: HostRuntime) {
    let key: [u8; 16] = [0, 1, 2, 3, 4, 5, 6, 7, 8, 9, 10, 11, 12, 13, 14, 15];
    let conf = NlKeyConf {
        peer_id: Some(5),
        slot: Some(Slot::Primary),
        key_id: Some(2),
        cipher: Some(Cipher::AesGcm),
        encrypt: dir(&rt, rt.alloc(), &key, &key[..8]),
        decrypt: dir(&rt, rt.alloc(), &key, &key[..8]),
    };
    asks(&rt, rt.alloc(), KEY5, conf);
}

#[test]
fn keys_of_24_and_32_bytes_are_read_in_either_case(rt: HostRuntime) {
    let conf = NlKeyConf {
        peer_id: Some(16777215),
        slot: Some(Slot::Primary),
        key_id: Some(7),
        cipher: Some(Cipher::AesGcm),
        encrypt: dir(&rt, rt.alloc(), &[0xab; 24], &[0xff; 8]),
        decrypt: dir(&rt, rt.alloc(), &[0xcd; 32], &[0; 8]),
    };
    let bytes =
        br#"{"at":0,"do":"key-new","keyconf":{"cipher-alg":"aes-gcm","decrypt-dir":{"cipher-key":"cdcdcdcdcdcdcdcdcdcdcdcdcdcdcdcdcdcdcdcdcdcdcdcdcdcdcdcdcdcdcdcd","nonce-tail":"0000000000000000"},"encrypt-dir":{"cipher-key":"aBaBaBaBaBaBaBaBaBaBaBaBaBaBaBaBaBaBaBaBaBaBaBaB","nonce-tail":"ffFFfFFfffffffff"},"key-id":7,"peer-id":16777215,"slot":"primary"},"lane":0}"#;
    asks(&rt, rt.alloc(), bytes, conf);
}

/// The bytes say that this packet is sent.
fn sends(rt: &impl Abort, alloc: Global, bytes: &[u8], packet: &[u8]) {
    does(rt, alloc, bytes, Deed::Tx(octets(rt, alloc, packet)));
}

#[test]
fn a_tx_line_gives_its_packet(rt: HostRuntime) {
    let packet = [
        0x45, 0, 0, 20, 0, 0, 0, 0, 64, 17, 0, 0, 10, 8, 0, 5, 10, 8, 0, 5,
    ];
    sends(&rt, rt.alloc(), SEND5, &packet);
    let empty = br#"{"at":0,"do":"tx","lane":0,"packet":""}"#;
    sends(&rt, rt.alloc(), empty, &[]);
}

/// The bytes say that a datagram comes from here.
fn receives(rt: &impl Abort, alloc: Global, bytes: &[u8], datagram: &[u8], from: Transport) {
    let datagram = octets(rt, alloc, datagram);
    does(rt, alloc, bytes, Deed::Rx { from, datagram });
}

#[test]
fn an_rx_line_gives_its_datagram_and_where_it_comes_from(rt: HostRuntime) {
    let six = [0xfd, 0, 0, 0, 0, 0, 0, 0, 0, 0, 0, 0, 0, 0, 0, 0xab];
    let rows: [(&[u8], &[u8], Transport); 3] = [
        (
            br#"{"at":0,"datagram":"30000000","do":"rx","from":{"addr":"192.0.2.1","port":1194},"lane":0}"#,
            &[0x30, 0, 0, 0],
            Transport {
                addr: Addr::V4([192, 0, 2, 1]),
                port: 1194,
            },
        ),
        (
            br#"{"at":0,"datagram":"","do":"rx","from":{"addr":"fd0000000000000000000000000000aB","port":65535},"lane":0}"#,
            &[],
            Transport {
                addr: Addr::V6(six),
                port: 65535,
            },
        ),
        (
            br#"{"at":0,"datagram":"Ff","do":"rx","from":{"addr":"0.0.0.0","port":0},"lane":0}"#,
            &[255],
            Transport {
                addr: Addr::V4([0, 0, 0, 0]),
                port: 0,
            },
        ),
    ];
    for (bytes, datagram, from) in rows {
        receives(&rt, rt.alloc(), bytes, datagram, from);
    }
}

/// The line that begins and ends so, with the digits of `count` zero bytes between.
fn long(alloc: Global, before: &[u8], count: usize, after: &[u8]) -> Result<Vec<u8>, Memory> {
    let mut line = Vec::new(alloc);
    line.extend_from_slice(before)?;
    for _digits in 0..count {
        line.extend_from_slice(b"00")?;
    }
    line.extend_from_slice(after)?;
    Ok(line)
}

/// The line that begins so and has `count` bytes is taken or bad.
fn reads(rt: &impl Abort, alloc: Global, before: &[u8], count: usize, taken: bool) {
    let Ok(line) = long(alloc, before, count, b"\"}") else {
        panic!(rt; "no memory");
    };
    let read = read_line(alloc, line.as_slice(), 1);
    if taken {
        assert!(rt; read.is_ok(), "{count}");
    } else {
        assert!(rt; is_bad(&read), "{count}");
    }
}

#[test]
fn packets_and_datagrams_have_a_greatest_length(rt: HostRuntime) {
    let tx: &[u8] = br#"{"at":0,"do":"tx","lane":0,"packet":""#;
    let rx: &[u8] =
        br#"{"at":0,"do":"rx","from":{"addr":"192.0.2.1","port":1194},"lane":0,"datagram":""#;
    // How the line begins, how many bytes its text has, and whether that is taken.
    let rows = [
        (tx, 65483, true),
        (tx, 65484, false),
        (rx, 65507, true),
        (rx, 65508, false),
    ];
    for (before, count, taken) in rows {
        reads(&rt, rt.alloc(), before, count, taken);
    }
}

/// A part that is missing, and one that is too many.
const PARTS: &str =
    r#"{"at":0,"do":"key-new","keyconf":{"cipher-alg":"aes-gcm","decrypt-dir":{"cipher-key":"000102030405060708090a0b0c0d0e0f","nonce-tail":"0001020304050607"},"encrypt-dir":{"cipher-key":"000102030405060708090a0b0c0d0e0f","nonce-tail":"0001020304050607"},"key-id":2,"peer-id":5,"slot":"primary","ifindex":1},"lane":0}
{"at":0,"do":"key-new","keyconf":{"cipher-alg":"aes-gcm","decrypt-dir":{"cipher-key":"000102030405060708090a0b0c0d0e0f","nonce-tail":"0001020304050607"},"encrypt-dir":{"cipher-key":"000102030405060708090a0b0c0d0e0f","nonce-tail":"0001020304050607"},"key-id":2,"peer-id":5,"slot":"primary"},"lane":0,"peer":{"id":5}}
{"at":0,"do":"key-new","keyconf":[5],"lane":0}"#;

/// Numbers and words out of their ranges.
const RANGES: &str =
    r#"{"at":0,"do":"key-new","keyconf":{"cipher-alg":"aes-gcm","decrypt-dir":{"cipher-key":"000102030405060708090a0b0c0d0e0f","nonce-tail":"0001020304050607"},"encrypt-dir":{"cipher-key":"000102030405060708090a0b0c0d0e0f","nonce-tail":"0001020304050607"},"key-id":-1,"peer-id":5,"slot":"primary"},"lane":0}
{"at":0,"do":"key-new","keyconf":{"cipher-alg":"aes-gcm","decrypt-dir":{"cipher-key":"000102030405060708090a0b0c0d0e0f","nonce-tail":"0001020304050607"},"encrypt-dir":{"cipher-key":"000102030405060708090a0b0c0d0e0f","nonce-tail":"0001020304050607"},"key-id":2,"peer-id":5,"slot":1},"lane":0}"#;

/// Keys and tails: no bytes, lengths, an odd number of digits, other characters.
const KEYS_AND_TAILS: &str =
    r#"{"at":0,"do":"key-new","keyconf":{"cipher-alg":"aes-gcm","decrypt-dir":{"cipher-key":"000102030405060708090a0b0c0d0e0f","nonce-tail":"0001020304050607"},"encrypt-dir":{"cipher-key":"000102030405060708090a0b0c0d0e0","nonce-tail":"0001020304050607"},"key-id":2,"peer-id":5,"slot":"primary"},"lane":0}
{"at":0,"do":"key-new","keyconf":{"cipher-alg":"aes-gcm","decrypt-dir":{"cipher-key":"000102030405060708090a0b0c0d0e0f","nonce-tail":"0001020304050607"},"encrypt-dir":{"cipher-key":"000102030405060708090a0b0c0d0e0g","nonce-tail":"0001020304050607"},"key-id":2,"peer-id":5,"slot":"primary"},"lane":0}
{"at":0,"do":"key-new","keyconf":{"cipher-alg":"aes-gcm","decrypt-dir":{"cipher-key":"000102030405060708090a0b0c0d0e0f","nonce-tail":"0001020304050607"},"encrypt-dir":{"cipher-key":"000102030405060708090a0b0c0d0e0f","id":1,"nonce-tail":"0001020304050607"},"key-id":2,"peer-id":5,"slot":"primary"},"lane":0}
{"at":0,"do":"key-new","keyconf":{"cipher-alg":"aes-gcm","decrypt-dir":[],"encrypt-dir":{"cipher-key":"000102030405060708090a0b0c0d0e0f","nonce-tail":"0001020304050607"},"key-id":2,"peer-id":5,"slot":"primary"},"lane":0}"#;

/// Tx.
const SENT: &str = r#"{"at":0,"do":"tx","lane":0}
{"at":0,"do":"tx","lane":0,"packet":"450"}
{"at":0,"do":"tx","lane":0,"packet":"4x"}
{"at":0,"do":"tx","lane":0,"packet":[69]}
{"at":0,"do":"tx","lane":0,"packet":"45","peer":{"id":5}}
{"at":0,"do":"TX","lane":0,"packet":"45"}"#;

/// Rx.
const RECEIVED: &str = r#"{"at":0,"do":"rx","from":{"addr":"192.0.2.1","port":1194},"lane":0}
{"at":0,"datagram":"48","do":"rx","lane":0}
{"at":0,"datagram":"4","do":"rx","from":{"addr":"192.0.2.1","port":1194},"lane":0}
{"at":0,"datagram":72,"do":"rx","from":{"addr":"192.0.2.1","port":1194},"lane":0}
{"at":0,"datagram":"48","do":"rx","from":{"addr":"192.0.2.1","port":1194},"lane":0,"packet":"45"}
{"at":0,"datagram":"48","do":"rx","from":"192.0.2.1","lane":0}"#;

/// Where it comes from.
const SENDERS: &str = r#"{"at":0,"datagram":"48","do":"rx","from":{"addr":"192.0.2.1"},"lane":0}
{"at":0,"datagram":"48","do":"rx","from":{"port":1194},"lane":0}
{"at":0,"datagram":"48","do":"rx","from":{"addr":"192.0.2.1","id":5,"port":1194},"lane":0}
{"at":0,"datagram":"48","do":"rx","from":{"addr":"192.0.2.1","port":65536},"lane":0}
{"at":0,"datagram":"48","do":"rx","from":{"addr":"192.0.2","port":1194},"lane":0}
{"at":0,"datagram":"48","do":"rx","from":{"addr":"192.0.2.01","port":1194},"lane":0}
{"at":0,"datagram":"48","do":"rx","from":{"addr":"fd00::1","port":1194},"lane":0}
{"at":0,"datagram":"48","do":"rx","from":{"addr":"0000000000000000000000000000000","port":1194},"lane":0}
{"at":0,"datagram":"48","do":"rx","from":{"addr":"000000000000000000000000000000000","port":1194},"lane":0}
{"at":0,"datagram":"48","do":"rx","from":{"addr":"0000000000000000000000000000000g","port":1194},"lane":0}"#;

#[test]
fn lines_of_keys_and_packets_outside_the_grammar_are_bad(rt: HostRuntime) {
    are_bad(&rt, rt.alloc(), PARTS);
    are_bad(&rt, rt.alloc(), RANGES);
    are_bad(&rt, rt.alloc(), KEYS_AND_TAILS);
    are_bad(&rt, rt.alloc(), SENT);
    are_bad(&rt, rt.alloc(), RECEIVED);
    are_bad(&rt, rt.alloc(), SENDERS);
}

/// Lines of the grammar whose attributes the checks of a command refuse.
const REFUSED: &str =
    r#"{"at":0,"do":"key-new","keyconf":{"cipher-alg":"aes-gcm","decrypt-dir":{"cipher-key":"000102030405060708090a0b0c0d0e0f","nonce-tail":"0001020304050607"},"encrypt-dir":{"cipher-key":"000102030405060708090a0b0c0d0e0f","nonce-tail":"0001020304050607"},"peer-id":5,"slot":"primary"},"lane":0}
{"at":0,"do":"key-new","keyconf":{"cipher-alg":"aes-gcm","decrypt-dir":{"cipher-key":"000102030405060708090a0b0c0d0e0f","nonce-tail":"0001020304050607"},"encrypt-dir":{"cipher-key":"000102030405060708090a0b0c0d0e0f","nonce-tail":"0001020304050607"},"key-id":2,"slot":"primary"},"lane":0}
{"at":0,"do":"key-new","keyconf":{"cipher-alg":"aes-gcm","decrypt-dir":{"cipher-key":"000102030405060708090a0b0c0d0e0f","nonce-tail":"0001020304050607"},"encrypt-dir":{"cipher-key":"000102030405060708090a0b0c0d0e0f","nonce-tail":"0001020304050607"},"key-id":2,"peer-id":5},"lane":0}
{"at":0,"do":"key-new","keyconf":{"decrypt-dir":{"cipher-key":"000102030405060708090a0b0c0d0e0f","nonce-tail":"0001020304050607"},"encrypt-dir":{"cipher-key":"000102030405060708090a0b0c0d0e0f","nonce-tail":"0001020304050607"},"key-id":2,"peer-id":5,"slot":"primary"},"lane":0}
{"at":0,"do":"key-new","keyconf":{"cipher-alg":"aes-gcm","decrypt-dir":{"cipher-key":"000102030405060708090a0b0c0d0e0f","nonce-tail":"0001020304050607"},"key-id":2,"peer-id":5,"slot":"primary"},"lane":0}
{"at":0,"do":"key-new","keyconf":{"cipher-alg":"aes-gcm","encrypt-dir":{"cipher-key":"000102030405060708090a0b0c0d0e0f","nonce-tail":"0001020304050607"},"key-id":2,"peer-id":5,"slot":"primary"},"lane":0}
{"at":0,"do":"key-new","keyconf":{"cipher-alg":"aes-gcm","decrypt-dir":{"cipher-key":"000102030405060708090a0b0c0d0e0f","nonce-tail":"0001020304050607"},"encrypt-dir":{"cipher-key":"000102030405060708090a0b0c0d0e0f","nonce-tail":"0001020304050607"},"key-id":2,"peer-id":5,"slot":"primary"},"lane":0,"ifindex":1}
{"at":0,"do":"key-new","lane":0}
{"at":0,"do":"key-new","keyconf":{"cipher-alg":"aes-gcm","decrypt-dir":{"cipher-key":"000102030405060708090a0b0c0d0e0f","nonce-tail":"0001020304050607"},"encrypt-dir":{"cipher-key":"000102030405060708090a0b0c0d0e0f","nonce-tail":"0001020304050607"},"key-id":2,"peer-id":16777216,"slot":"primary"},"lane":0}
{"at":0,"do":"key-new","keyconf":{"cipher-alg":"aes-gcm","decrypt-dir":{"cipher-key":"000102030405060708090a0b0c0d0e0f","nonce-tail":"0001020304050607"},"encrypt-dir":{"cipher-key":"000102030405060708090a0b0c0d0e0f","nonce-tail":"0001020304050607"},"key-id":8,"peer-id":5,"slot":"primary"},"lane":0}
{"at":0,"do":"key-new","keyconf":{"cipher-alg":"aes-gcm","decrypt-dir":{"cipher-key":"000102030405060708090a0b0c0d0e0f","nonce-tail":"0001020304050607"},"encrypt-dir":{"cipher-key":"000102030405060708090a0b0c0d0e0f","nonce-tail":"0001020304050607"},"key-id":2,"peer-id":5,"slot":"secondary"},"lane":0}
{"at":0,"do":"key-new","keyconf":{"cipher-alg":"chacha20-poly1305","decrypt-dir":{"cipher-key":"000102030405060708090a0b0c0d0e0f","nonce-tail":"0001020304050607"},"encrypt-dir":{"cipher-key":"000102030405060708090a0b0c0d0e0f","nonce-tail":"0001020304050607"},"key-id":2,"peer-id":5,"slot":"primary"},"lane":0}
{"at":0,"do":"key-new","keyconf":{"cipher-alg":"none","decrypt-dir":{"cipher-key":"000102030405060708090a0b0c0d0e0f","nonce-tail":"0001020304050607"},"encrypt-dir":{"cipher-key":"000102030405060708090a0b0c0d0e0f","nonce-tail":"0001020304050607"},"key-id":2,"peer-id":5,"slot":"primary"},"lane":0}
{"at":0,"do":"key-new","keyconf":{"cipher-alg":"aes-gcm","decrypt-dir":{"cipher-key":"000102030405060708090a0b0c0d0e0f","nonce-tail":"0001020304050607"},"encrypt-dir":{"cipher-key":"","nonce-tail":"0001020304050607"},"key-id":2,"peer-id":5,"slot":"primary"},"lane":0}
{"at":0,"do":"key-new","keyconf":{"cipher-alg":"aes-gcm","decrypt-dir":{"cipher-key":"000102030405060708090a0b0c0d0e0f","nonce-tail":"0001020304050607"},"encrypt-dir":{"cipher-key":"000000000000000000000000000000","nonce-tail":"0001020304050607"},"key-id":2,"peer-id":5,"slot":"primary"},"lane":0}
{"at":0,"do":"key-new","keyconf":{"cipher-alg":"aes-gcm","decrypt-dir":{"cipher-key":"000102030405060708090a0b0c0d0e0f","nonce-tail":"0001020304050607"},"encrypt-dir":{"cipher-key":"0000000000000000000000000000000000","nonce-tail":"0001020304050607"},"key-id":2,"peer-id":5,"slot":"primary"},"lane":0}
{"at":0,"do":"key-new","keyconf":{"cipher-alg":"aes-gcm","decrypt-dir":{"cipher-key":"000000000000000000000000000000000000000000000000000000000000000000","nonce-tail":"0001020304050607"},"encrypt-dir":{"cipher-key":"000102030405060708090a0b0c0d0e0f","nonce-tail":"0001020304050607"},"key-id":2,"peer-id":5,"slot":"primary"},"lane":0}
{"at":0,"do":"key-new","keyconf":{"cipher-alg":"aes-gcm","decrypt-dir":{"cipher-key":"000102030405060708090a0b0c0d0e0f","nonce-tail":"00000000000000"},"encrypt-dir":{"cipher-key":"000102030405060708090a0b0c0d0e0f","nonce-tail":"0001020304050607"},"key-id":2,"peer-id":5,"slot":"primary"},"lane":0}
{"at":0,"do":"key-new","keyconf":{"cipher-alg":"aes-gcm","decrypt-dir":{"cipher-key":"000102030405060708090a0b0c0d0e0f","nonce-tail":"000000000000000000"},"encrypt-dir":{"cipher-key":"000102030405060708090a0b0c0d0e0f","nonce-tail":"0001020304050607"},"key-id":2,"peer-id":5,"slot":"primary"},"lane":0}
{"at":0,"do":"key-new","keyconf":{"cipher-alg":"aes-gcm","decrypt-dir":{"cipher-key":"000102030405060708090a0b0c0d0e0f","nonce-tail":"0001020304050607"},"encrypt-dir":{"nonce-tail":"0001020304050607"},"key-id":2,"peer-id":5,"slot":"primary"},"lane":0}
{"at":0,"do":"key-new","keyconf":{"cipher-alg":"aes-gcm","decrypt-dir":{"cipher-key":"000102030405060708090a0b0c0d0e0f","nonce-tail":"0001020304050607"},"encrypt-dir":{"cipher-key":"000102030405060708090a0b0c0d0e0f"},"key-id":2,"peer-id":5,"slot":"primary"},"lane":0}"#;

#[test]
fn attributes_of_keys_that_the_checks_refuse_are_no_bad_lines(rt: HostRuntime) {
    are_lines(&rt, rt.alloc(), REFUSED);
}
