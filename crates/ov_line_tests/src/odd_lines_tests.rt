use ov_line::line::read_value;
use ov_line::{LineStop, read_line};
use ov_model::Line;
use std::alloc::Global;
use std::process::Abort;

/// Whether the bytes were found outside the grammar, whatever the reason.
fn is_bad(read: &Result<Line, LineStop>) -> bool {
    matches!(read, Err(LineStop::Bad(_)))
}

/// The bytes say a line on one of four lanes, and the same one by the whole grammar alone.
fn is_line(rt: &impl Abort, alloc: Global, bytes: &[u8]) {
    let read = read_line(alloc, bytes, 4);
    assert!(rt; read.is_ok() && read == read_value(alloc, bytes, 4));
}

/// The bytes are outside the grammar, and so by the whole grammar alone.
fn is_outside(rt: &impl Abort, alloc: Global, bytes: &[u8]) {
    assert!(rt; is_bad(&read_line(alloc, bytes, 4)));
    assert!(rt; is_bad(&read_value(alloc, bytes, 4)));
}

/// Each line of a text is one on one of four lanes.
fn are_read(rt: &impl Abort, alloc: Global, text: &str) {
    for line in text.lines() {
        is_line(rt, alloc, line.as_bytes());
    }
}

/// Each line of a text is outside the grammar.
fn are_bad(rt: &impl Abort, alloc: Global, text: &str) {
    for line in text.lines() {
        is_outside(rt, alloc, line.as_bytes());
    }
}

/// The texts that are looked at first.
const LOOKED_AT_FIRST: &str = r#"{"at":1,"do":"tx","lane":2,"packet":"45aF"}
{"at":1,"datagram":"4a00","do":"rx","from":{"addr":"192.0.2.1","port":1194},"lane":2}
{"at":0,"do":"tx","lane":0,"packet":""}
{"at":4294967295,"do":"tx","lane":3,"packet":"00"}
{"at":1,"datagram":"4a00","do":"rx","from":{"addr":"192.0.2.1","port":0},"lane":2}
{"at":1,"datagram":"4a00","do":"rx","from":{"addr":"0.0.0.0","port":65535},"lane":2}
{"at":1,"datagram":"4a00","do":"rx","from":{"addr":"255.255.255.255","port":1194},"lane":2}"#;

/// Other orders of names.
const OTHER_ORDERS: &str = r#"{"do":"tx","at":1,"lane":2,"packet":"45aF"}
{"packet":"45aF","lane":2,"do":"tx","at":1}
{"at":1,"lane":2,"do":"tx","packet":"45aF"}
{"at":1,"do":"rx","datagram":"4a00","from":{"addr":"192.0.2.1","port":1194},"lane":2}
{"at":1,"datagram":"4a00","do":"rx","from":{"port":1194,"addr":"192.0.2.1"},"lane":2}"#;

/// White space.
const WHITE_SPACE: &str = r#"{"at": 1,"do":"tx","lane":2,"packet":"45aF"}
{"at":1, "do":"tx","lane":2,"packet":"45aF"}
{ "at":1,"do":"tx","lane":2,"packet":"45aF"}
{"at":1,"datagram":"4a00","do":"rx","from": {"addr":"192.0.2.1","port":1194},"lane":2}
{"at":1,"datagram":"4a00","do":"rx","from":{"addr":"192.0.2.1","port":1194 },"lane":2}
{"at":1,"datagram":"4a00","do":"rx","from":{"addr":"192.0.2.1","port":1194},"lane":2 }"#;

/// Escapes in names and values.
const ESCAPES: &str = r#"{"\u0061t":1,"do":"tx","lane":2,"packet":"45aF"}
{"at":1,"do":"t\u0078","lane":2,"packet":"45aF"}
{"at":1,"do":"tx","lane":2,"packet":"\u00345aF"}
{"at":1,"do":"tx","lane":2,"packet":"45a\u0046"}
{"at":1,"\u0064atagram":"4a00","do":"rx","from":{"addr":"192.0.2.1","port":1194},"lane":2}
{"at":1,"datagram":"4a00","do":"rx","from":{"addr":"192\u002e0.2.1","port":1194},"lane":2}
{"at":1,"datagram":"4\u0061","do":"rx","from":{"addr":"192.0.2.1","port":1194},"lane":2}"#;

/// Names that stand twice: the last value counts.
const TWICE: &str = r#"{"at":7,"at":1,"do":"tx","lane":2,"packet":"45aF"}
{"at":1,"do":"tx","lane":2,"packet":"4","packet":"45aF"}
{"at":"x","do":"rx","do":"tx","lane":2,"packet":"45aF","at":1}
{"at":1,"datagram":"4a00","do":"rx","from":5,"from":{"addr":"192.0.2.1","port":1194},"lane":2}
{"at":1,"datagram":"4a00","do":"rx","from":{"addr":"","addr":"192.0.2.1","port":1194},"lane":2}"#;

/// Digits of either case, blocks of 32 of them and what is left.
const DIGITS: &str = r#"{"at":1,"do":"tx","lane":2,"packet":"ABCDEFabcdef"}
{"at":1,"do":"tx","lane":2,"packet":"0123456789abcdefABCDEF9876543210"}
{"at":1,"do":"tx","lane":2,"packet":"0123456789abcdefABCDEF98765432"}
{"at":1,"do":"tx","lane":2,"packet":"0123456789abcdefABCDEF9876543210fF"}
{"at":1,"do":"tx","lane":2,"packet":"0123456789abcdefABCDEF98765432100123456789abcdefABCDEF9876543210"}
{"at":1,"do":"tx","lane":2,"packet":"fedcba98765432100123456789ABCDEFfedcba98765432100123456789ABCDEF8A"}
{"at":1,"datagram":"FEDCBA98765432100123456789abcdef","do":"rx","from":{"addr":"192.0.2.1","port":1194},"lane":2}"#;

/// The text of an IPv6 address.
const TEXTS_OF_IPV6: &str =
    r#"{"at":1,"datagram":"4a00","do":"rx","from":{"addr":"20010db8000000000000000000000001","port":1194},"lane":2}
{"at":1,"datagram":"4a00","do":"rx","from":{"addr":"20010DB8000000000000000000000001","port":1194},"lane":2}"#;

/// Peers and keys.
const PEERS_AND_KEYS: &str =
    r#"{"at":0,"do":"peer-new","lane":1,"peer":{"id":5,"remote-ipv4":"192.0.2.1","remote-port":1194,"vpn-ipv4":"10.8.0.5"}}
{"at":0,"do":"peer-new","lane":1,"peer":{"id":0,"remote-ipv4":"192.0.2.1","remote-port":1,"vpn-ipv4":"10.8.0.5"}}
{"at":0,"do":"peer-new","lane":1,"peer":{"id":16777215,"remote-ipv4":"192.0.2.1","remote-port":65535,"vpn-ipv4":"10.8.0.5"}}
{"at":0,"do":"peer-new","lane":1,"peer":{ "id":5,"remote-ipv4":"192.0.2.1","remote-port":1194,"vpn-ipv4":"10.8.0.5"}}
{"at":0,"do":"peer-new","lane":1,"peer":{"remote-ipv4":"192.0.2.1","remote-port":1194,"vpn-ipv4":"10.8.0.5","id":5}}
{"at":0,"do":"peer-new","lane":1,"peer":{"id":5,"remote-ipv4":"192.0.2\u002e1","remote-port":1194,"vpn-ipv4":"10.8.0.5"}}
{"at":0,"do":"key-new","keyconf":{"cipher-alg":"aes-gcm","decrypt-dir":{"cipher-key":"000102030405060708090a0b0c0d0e0f","nonce-tail":"0001020304050607"},"encrypt-dir":{"cipher-key":"ff0102030405060708090a0b0c0d0e0f","nonce-tail":"FE01020304050607"},"key-id":2,"peer-id":5,"slot":"primary"},"lane":1}
{"at":0,"do":"key-new","keyconf":{"cipher-alg":"aes-gcm","decrypt-dir":{"cipher-key":"000102030405060708090a0b0c0d0e0f0001020304050607","nonce-tail":"0001020304050607"},"encrypt-dir":{"cipher-key":"000102030405060708090a0b0c0d0e0f000102030405060708090a0b0c0d0e0f","nonce-tail":"FE01020304050607"},"key-id":2,"peer-id":5,"slot":"primary"},"lane":1}
{"at":0,"do":"key-new","keyconf":{"cipher-alg":"aes-gcm","decrypt-dir":{"cipher-key":"000102030405060708090a0b0c0d0e0f","nonce-tail":"0001020304050607"},"encrypt-dir":{"cipher-key":"ff0102030405060708090a0b0c0d0e0f","nonce-tail":"FE01020304050607"},"key-id":0,"peer-id":0,"slot":"primary"},"lane":1}
{"at":0,"do":"key-new","keyconf":{"cipher-alg":"aes-gcm","decrypt-dir":{"cipher-key":"000102030405060708090a0b0c0d0e0f","nonce-tail":"0001020304050607"},"encrypt-dir":{"cipher-key":"ff0102030405060708090a0b0c0d0e0f","nonce-tail":"FE01020304050607"},"key-id":7,"peer-id":16777215,"slot":"primary"},"lane":1}
{"at":0,"do":"key-new","keyconf":{"cipher-alg":"aes-gcm","decrypt-dir":{"cipher-key":"000102030405060708090a0b0c0d0e0f","nonce-tail":"0001020304050607"},"encrypt-dir":{"cipher-key":"ff0102030405060708090a0b0c0d0e0f","nonce-tail":"FE01020304050607"},"key-id":2,"peer-id":5,"slot":"pri\u006dary"},"lane":1}
{"at":0,"do":"key-new","keyconf":{"cipher-alg":"aes-gcm","decrypt-dir":{"cipher-key":"000102030405060708090a0b0c0d0e0f","nonce-tail":"0001020304050607"},"encrypt-dir":{"cipher-key":"ff0102030405060708090a0b0c0d0e0f","nonce-tail":"FE01020304050607"},"key-id":9,"key-id":2,"peer-id":5,"slot":"primary"},"lane":1}
{"at":0,"do":"key-new","keyconf":{"cipher-alg":"aes-gcm","decrypt-dir":{"cipher-key":"000102030405060708090a0b0c0d0e0f","nonce-tail":"0001020304050607"},"encrypt-dir":{"cipher-key":"ff0102030405060708090a0b0c0d0e0f","nonce-tail":"FE01020304050607"},"key-id":2,"peer-id":5,"slot":"primary"}, "lane":1}"#;

/// Attributes that the attribute checks refuse, which are no bad lines.
const REFUSED_BY_CHECKS: &str =
    r#"{"at":0,"do":"peer-new","lane":1,"peer":{"id":16777216,"remote-ipv4":"192.0.2.1","remote-port":1194,"vpn-ipv4":"10.8.0.5"}}
{"at":0,"do":"peer-new","lane":1,"peer":{"id":5,"remote-ipv4":"192.0.2.1","remote-port":0,"vpn-ipv4":"10.8.0.5"}}
{"at":0,"do":"peer-new","lane":1,"peer":{"id":5,"remote-ipv4":"192.0.2.1","remote-port":65536,"vpn-ipv4":"10.8.0.5"}}
{"at":0,"do":"key-new","keyconf":{"cipher-alg":"aes-gcm","decrypt-dir":{"cipher-key":"000102030405060708090a0b0c0d0e0f","nonce-tail":"0001020304050607"},"encrypt-dir":{"cipher-key":"ff0102030405060708090a0b0c0d0e0f","nonce-tail":"FE01020304050607"},"key-id":8,"peer-id":5,"slot":"primary"},"lane":1}
{"at":0,"do":"key-new","keyconf":{"cipher-alg":"aes-gcm","decrypt-dir":{"cipher-key":"000102030405060708090a0b0c0d0e0f","nonce-tail":"0001020304050607"},"encrypt-dir":{"cipher-key":"ff0102030405060708090a0b0c0d0e0f","nonce-tail":"FE01020304050607"},"key-id":2,"peer-id":16777216,"slot":"primary"},"lane":1}
{"at":0,"do":"key-new","keyconf":{"cipher-alg":"aes-gcm","decrypt-dir":{"cipher-key":"000102030405060708090a0b0c0d0e0f","nonce-tail":"0001020304050607"},"encrypt-dir":{"cipher-key":"ff0102030405060708090a0b0c0d0e0f","nonce-tail":"FE01020304050607"},"key-id":2,"peer-id":5,"slot":"secondary"},"lane":1}
{"at":0,"do":"key-new","keyconf":{"cipher-alg":"none","decrypt-dir":{"cipher-key":"000102030405060708090a0b0c0d0e0f","nonce-tail":"0001020304050607"},"encrypt-dir":{"cipher-key":"ff0102030405060708090a0b0c0d0e0f","nonce-tail":"FE01020304050607"},"key-id":2,"peer-id":5,"slot":"primary"},"lane":1}
{"at":0,"do":"key-new","keyconf":{"cipher-alg":"aes-gcm","decrypt-dir":{"cipher-key":"000102030405060708090a0b0c0d0e","nonce-tail":"0001020304050607"},"encrypt-dir":{"cipher-key":"ff0102030405060708090a0b0c0d0e0f","nonce-tail":"FE01020304050607"},"key-id":2,"peer-id":5,"slot":"primary"},"lane":1}
{"at":0,"do":"key-new","keyconf":{"cipher-alg":"aes-gcm","decrypt-dir":{"cipher-key":"000102030405060708090a0b0c0d0e0f00","nonce-tail":"0001020304050607"},"encrypt-dir":{"cipher-key":"ff0102030405060708090a0b0c0d0e0f","nonce-tail":"FE01020304050607"},"key-id":2,"peer-id":5,"slot":"primary"},"lane":1}
{"at":0,"do":"key-new","keyconf":{"cipher-alg":"aes-gcm","decrypt-dir":{"cipher-key":"000102030405060708090a0b0c0d0e0f","nonce-tail":"0001020304050607"},"encrypt-dir":{"cipher-key":"","nonce-tail":"FE01020304050607"},"key-id":2,"peer-id":5,"slot":"primary"},"lane":1}
{"at":0,"do":"key-new","keyconf":{"cipher-alg":"aes-gcm","decrypt-dir":{"cipher-key":"000102030405060708090a0b0c0d0e0f","nonce-tail":"00010203040506"},"encrypt-dir":{"cipher-key":"ff0102030405060708090a0b0c0d0e0f","nonce-tail":"FE01020304050607"},"key-id":2,"peer-id":5,"slot":"primary"},"lane":1}
{"at":0,"do":"key-new","keyconf":{"cipher-alg":"aes-gcm","decrypt-dir":{"cipher-key":"000102030405060708090a0b0c0d0e0f","nonce-tail":"0001020304050607"},"encrypt-dir":{"cipher-key":"ff0102030405060708090a0b0c0d0e0f","nonce-tail":"000102030405060700"},"key-id":2,"peer-id":5,"slot":"primary"},"lane":1}"#;

#[test]
fn an_odd_line_of_the_grammar_is_read_as_without_the_first_look(rt: HostRuntime) {
    are_read(&rt, rt.alloc(), LOOKED_AT_FIRST);
    are_read(&rt, rt.alloc(), OTHER_ORDERS);
    are_read(&rt, rt.alloc(), WHITE_SPACE);
    are_read(&rt, rt.alloc(), ESCAPES);
    are_read(&rt, rt.alloc(), TWICE);
    are_read(&rt, rt.alloc(), DIGITS);
    are_read(&rt, rt.alloc(), TEXTS_OF_IPV6);
    are_read(&rt, rt.alloc(), PEERS_AND_KEYS);
    are_read(&rt, rt.alloc(), REFUSED_BY_CHECKS);
    is_line(
        &rt,
        rt.alloc(),
        br#" {"at":1,"do":"tx","lane":2,"packet":"45aF"}"#,
    );
    is_line(
        &rt,
        rt.alloc(),
        br#"{"at":1,"do":"tx","lane":2,"packet":"45aF"} "#,
    );
    is_line(
        &rt,
        rt.alloc(),
        b"{\"at\":1,\"do\":\"tx\",\"lane\":2,\"packet\":\"45aF\"}\r",
    );
    is_line(
        &rt,
        rt.alloc(),
        b"{\"at\":1,\"do\":\"tx\",\"lane\":2,\"packet\"\t:\n\"45aF\"}",
    );
}

/// Numbers: a sign, a fraction, an exponent, leading zeros, too large, none.
const NUMBERS: &str = r#"{"at":-1,"do":"tx","lane":2,"packet":"45aF"}
{"at":-0,"do":"tx","lane":2,"packet":"45aF"}
{"at":+1,"do":"tx","lane":2,"packet":"45aF"}
{"at":1.0,"do":"tx","lane":2,"packet":"45aF"}
{"at":1e0,"do":"tx","lane":2,"packet":"45aF"}
{"at":1E2,"do":"tx","lane":2,"packet":"45aF"}
{"at":01,"do":"tx","lane":2,"packet":"45aF"}
{"at":00,"do":"tx","lane":2,"packet":"45aF"}
{"at":4294967296,"do":"tx","lane":2,"packet":"45aF"}
{"at":4294967297,"do":"tx","lane":2,"packet":"45aF"}
{"at":9999999999,"do":"tx","lane":2,"packet":"45aF"}
{"at":18446744073709551616,"do":"tx","lane":2,"packet":"45aF"}
{"at":18446744073709551617,"do":"tx","lane":2,"packet":"45aF"}
{"at":"1","do":"tx","lane":2,"packet":"45aF"}
{"at":null,"do":"tx","lane":2,"packet":"45aF"}
{"at":,"do":"tx","lane":2,"packet":"45aF"}"#;

/// Lanes: too high, too large, and the same.
const LANES: &str = r#"{"at":1,"do":"tx","lane":4,"packet":"45aF"}
{"at":1,"do":"tx","lane":4294967295,"packet":"45aF"}
{"at":1,"do":"tx","lane":4294967298,"packet":"45aF"}
{"at":1,"do":"tx","lane":02,"packet":"45aF"}
{"at":1,"do":"tx","lane":2.0,"packet":"45aF"}
{"at":1,"do":"tx","lane":-2,"packet":"45aF"}
{"at":1,"do":"tx","lane":[2],"packet":"45aF"}"#;

/// Ports.
const PORTS: &str =
    r#"{"at":1,"datagram":"4a00","do":"rx","from":{"addr":"192.0.2.1","port":65536},"lane":2}
{"at":1,"datagram":"4a00","do":"rx","from":{"addr":"192.0.2.1","port":65537},"lane":2}
{"at":1,"datagram":"4a00","do":"rx","from":{"addr":"192.0.2.1","port":4294967297},"lane":2}
{"at":1,"datagram":"4a00","do":"rx","from":{"addr":"192.0.2.1","port":01194},"lane":2}
{"at":1,"datagram":"4a00","do":"rx","from":{"addr":"192.0.2.1","port":-1},"lane":2}
{"at":1,"datagram":"4a00","do":"rx","from":{"addr":"192.0.2.1","port":1194.0},"lane":2}
{"at":1,"datagram":"4a00","do":"rx","from":{"addr":"192.0.2.1","port":"1194"},"lane":2}"#;

/// Addresses.
const ADDRESSES: &str =
    r#"{"at":1,"datagram":"4a00","do":"rx","from":{"addr":"192.0.2.01","port":1194},"lane":2}
{"at":1,"datagram":"4a00","do":"rx","from":{"addr":"192.0.2.256","port":1194},"lane":2}
{"at":1,"datagram":"4a00","do":"rx","from":{"addr":"192.0.2","port":1194},"lane":2}
{"at":1,"datagram":"4a00","do":"rx","from":{"addr":"192.0.2.1.1","port":1194},"lane":2}
{"at":1,"datagram":"4a00","do":"rx","from":{"addr":"","port":1194},"lane":2}
{"at":1,"datagram":"4a00","do":"rx","from":{"addr":"192.0.2.1 ","port":1194},"lane":2}
{"at":1,"datagram":"4a00","do":"rx","from":{"addr":"192.0.2.","port":1194},"lane":2}
{"at":1,"datagram":"4a00","do":"rx","from":{"addr":"20010db800000000000000000000001","port":1194},"lane":2}
{"at":1,"datagram":"4a00","do":"rx","from":{"addr":"20010db800000000000000000000000g","port":1194},"lane":2}
{"at":1,"datagram":"4a00","do":"rx","from":{"addr":"0xc0.0.2.1","port":1194},"lane":2}"#;

/// Odd digits, and what stands beside the digits in the order of bytes.
const ODD_DIGITS: &str = r#"{"at":1,"do":"tx","lane":2,"packet":"4"}
{"at":1,"do":"tx","lane":2,"packet":"45a"}
{"at":1,"do":"tx","lane":2,"packet":"0123456789abcdef0123456789abcdef4"}
{"at":1,"do":"tx","lane":2,"packet":"0123456789abcdef0123456789abcde"}
{"at":1,"do":"tx","lane":2,"packet":"4/"}
{"at":1,"do":"tx","lane":2,"packet":"4:"}
{"at":1,"do":"tx","lane":2,"packet":"4@"}
{"at":1,"do":"tx","lane":2,"packet":"4G"}
{"at":1,"do":"tx","lane":2,"packet":"4`"}
{"at":1,"do":"tx","lane":2,"packet":"4g"}
{"at":1,"do":"tx","lane":2,"packet":"/4"}
{"at":1,"do":"tx","lane":2,"packet":":4"}"#;

/// A strange character at each edge of a block.
const STRANGE_AT_EDGES: &str =
    r#"{"at":1,"do":"tx","lane":2,"packet":"g123456789abcdef0123456789abcdef"}
{"at":1,"do":"tx","lane":2,"packet":"0123456789abcdeg0123456789abcdef"}
{"at":1,"do":"tx","lane":2,"packet":"0123456789abcdefg123456789abcdef"}
{"at":1,"do":"tx","lane":2,"packet":"0123456789abcdef0123456789abcdeg"}
{"at":1,"do":"tx","lane":2,"packet":"0123456789abcdef0123456789abcdefg0"}
{"at":1,"do":"tx","lane":2,"packet":"0123456789abcdef0123456789abcdef0g"}
{"at":1,"do":"tx","lane":2,"packet":"0123456789abcdef0123456789abcdef0\u0067"}"#;

/// Spaces, prefixes and other bytes in digits.
const OTHERS_IN_DIGITS: &str = r#"{"at":1,"do":"tx","lane":2,"packet":" 45"}
{"at":1,"do":"tx","lane":2,"packet":"45 "}
{"at":1,"do":"tx","lane":2,"packet":"4 5"}
{"at":1,"do":"tx","lane":2,"packet":"0x45"}"#;

/// A text that ends too early, or goes on.
const ENDS: &str = r#"{"at":1,"do":"tx","lane":2,"packet":"45aF"
{"at":1,"do":"tx","lane":2,"packet":"45aF
{"at":1,"do":"tx","lane":2,"packet":"45aF"}}
{"at":1,"do":"tx","lane":2,"packet":"45aF"} 0
{"at":1,"do":"tx","lane":2,"packet":"45aF"}{"at":1,"do":"tx","lane":2,"packet":"45aF"}
{"at":1,"do":"tx","lane":2,"packet":"45aF",}
{"at":1,"do":"tx","lane":2,"packet":"45aF","x":1}
{"at":1,"datagram":"4a00","do":"rx","from":{"addr":"192.0.2.1","port":1194},"lane":2
{"at":1,"datagram":"4a00","do":"rx","from":{"addr":"192.0.2.1","port":1194},"lane":2}}
{"at":1,"datagram":"4a00","do":"rx","from":{"addr":"192.0.2.1","port":1194"lane":2}"#;

/// Words, names and kinds.
const WORDS_AND_KINDS: &str = r#"{"at":1,"do":"TX","lane":2,"packet":"45aF"}
{"at":1,"do":"tx ","lane":2,"packet":"45aF"}
{"at":1,"do":"rx","lane":2,"packet":"45aF"}
{"At":1,"do":"tx","lane":2,"packet":"45aF"}
{"at":1,"do":"tx","lane":2,"datagram":"45aF"}
{'at':1,'do':'tx','lane':2,'packet':'45aF'}
{"at":1,"datagram":"4a00","do":"rx","from":null,"lane":2}
{"at":1,"datagram":"4a00","do":"rx","from":{"addr":"192.0.2.1","port":1194,"id":1},"lane":2}
{"at":1,"packet":"4a00","do":"rx","from":{"addr":"192.0.2.1","port":1194},"lane":2}"#;

/// Peers.
const PEERS: &str =
    r#"{"at":0,"do":"peer-new","lane":1,"peer":{"id":05,"remote-ipv4":"192.0.2.1","remote-port":1194,"vpn-ipv4":"10.8.0.5"}}
{"at":0,"do":"peer-new","lane":1,"peer":{"id":-1,"remote-ipv4":"192.0.2.1","remote-port":1194,"vpn-ipv4":"10.8.0.5"}}
{"at":0,"do":"peer-new","lane":1,"peer":{"id":5,"remote-ipv4":"192.0.2.1","remote-port":4294968490,"vpn-ipv4":"10.8.0.5"}}
{"at":0,"do":"peer-new","lane":1,"peer":{"id":5,"remote-ipv4":"192.0.2.01","remote-port":1194,"vpn-ipv4":"10.8.0.5"}}
{"at":0,"do":"peer-new","lane":1,"peer":{"id":5,"remote-ipv4":"192.0.2.1","remote-port":1194,"vpn-ipv4":"10.8.0"}}
{"at":0,"do":"peer-new","lane":1,"peer":{"id":5,"remote-ipv4":"192.0.2.1","remote-port":1194,"vpn-ipv4":"10.8.0.5."}}
{"at":0,"do":"peer-new","lane":4,"peer":{"id":5,"remote-ipv4":"192.0.2.1","remote-port":1194,"vpn-ipv4":"10.8.0.5"}}
{"at":0,"do":"peer-new","lane":1,"peer":{"id":5,"remote-ipv4":"192.0.2.1","remote-port":1194,"vpn-ipv4":"10.8.0.5"}
{"at":0,"do":"peer-new","lane":1,"peer":{"id":5,"remote-ipv4":"192.0.2.1","remote-port":1194,"vpn-ipv4":"10.8.0.5"}}}"#;

/// Keys.
const KEYS: &str =
    r#"{"at":0,"do":"key-new","keyconf":{"cipher-alg":"aes-gcm","decrypt-dir":{"cipher-key":"000102030405060708090a0b0c0d0e0f","nonce-tail":"0001020304050607"},"encrypt-dir":{"cipher-key":"ff0102030405060708090a0b0c0d0e0f","nonce-tail":"FE01020304050607"},"key-id":02,"peer-id":5,"slot":"primary"},"lane":1}
{"at":0,"do":"key-new","keyconf":{"cipher-alg":"aes-gcm","decrypt-dir":{"cipher-key":"000102030405060708090a0b0c0d0e0","nonce-tail":"0001020304050607"},"encrypt-dir":{"cipher-key":"ff0102030405060708090a0b0c0d0e0f","nonce-tail":"FE01020304050607"},"key-id":2,"peer-id":5,"slot":"primary"},"lane":1}
{"at":0,"do":"key-new","keyconf":{"cipher-alg":"aes-gcm","decrypt-dir":{"cipher-key":"000102030405060708090a0b0c0d0e0f","nonce-tail":"0001020304050607"},"encrypt-dir":{"cipher-key":"g00102030405060708090a0b0c0d0e0f","nonce-tail":"FE01020304050607"},"key-id":2,"peer-id":5,"slot":"primary"},"lane":1}
{"at":0,"do":"key-new","keyconf":{"cipher-alg":"aes-gcm","decrypt-dir":{"cipher-key":"000102030405060708090a0b0c0d0e0f","nonce-tail":"0001020304050607"},"encrypt-dir":{"cipher-key":"ff0102030405060708090a0b0c0d0e0f","nonce-tail":"000102030405060g"},"key-id":2,"peer-id":5,"slot":"primary"},"lane":1}
{"at":0,"do":"key-new","keyconf":{"cipher-alg":"aes-gcm","decrypt-dir":{"cipher-key":"000102030405060708090a0b0c0d0e0f","nonce-tail":"0001020304050607"},"encrypt-dir":{"cipher-key":"ff0102030405060708090a0b0c0d0e0f","nonce-tail":"FE01020304050607"},"key-id":2,"peer-id":5,"slot":"primary"},"lane":4}
{"at":4294967296,"do":"key-new","keyconf":{"cipher-alg":"aes-gcm","decrypt-dir":{"cipher-key":"000102030405060708090a0b0c0d0e0f","nonce-tail":"0001020304050607"},"encrypt-dir":{"cipher-key":"ff0102030405060708090a0b0c0d0e0f","nonce-tail":"FE01020304050607"},"key-id":2,"peer-id":5,"slot":"primary"},"lane":1}
{"at":0,"do":"key-new","keyconf":{"cipher-alg":"aes-gcm","decrypt-dir":{"cipher-key":"000102030405060708090a0b0c0d0e0f","nonce-tail":"0001020304050607"},"encrypt-dir":{"cipher-key":"ff0102030405060708090a0b0c0d0e0f","nonce-tail":"FE01020304050607"},"key-id":2,"peer-id":5,"slot":"primary"},"lane":1
{"at":0,"do":"key-new","keyconf":{"cipher-alg":"aes-gcm","decrypt-dir":{"cipher-key":"000102030405060708090a0b0c0d0e0f","nonce-tail":"0001020304050607"},"encrypt-dir":{"cipher-key":"ff0102030405060708090a0b0c0d0e0f","nonce-tail":"FE01020304050607"},"key-id":2,"peer-id":5,"slot":"primary"},"lane":1}0"#;

#[test]
fn an_odd_line_outside_the_grammar_is_bad_as_without_the_first_look(rt: HostRuntime) {
    are_bad(&rt, rt.alloc(), NUMBERS);
    are_bad(&rt, rt.alloc(), LANES);
    are_bad(&rt, rt.alloc(), PORTS);
    are_bad(&rt, rt.alloc(), ADDRESSES);
    are_bad(&rt, rt.alloc(), ODD_DIGITS);
    are_bad(&rt, rt.alloc(), STRANGE_AT_EDGES);
    are_bad(&rt, rt.alloc(), OTHERS_IN_DIGITS);
    are_bad(&rt, rt.alloc(), ENDS);
    are_bad(&rt, rt.alloc(), WORDS_AND_KINDS);
    are_bad(&rt, rt.alloc(), PEERS);
    are_bad(&rt, rt.alloc(), KEYS);
    is_outside(
        &rt,
        rt.alloc(),
        b"{\"at\":1,\"do\":\"tx\",\"lane\":2,\"packet\":\"\x01\x02\"}",
    );
    is_outside(
        &rt,
        rt.alloc(),
        b"{\"at\":1,\"do\":\"tx\",\"lane\":2,\"packet\":\"\xc3\xa9\xc3\xa9\"}",
    );
    is_outside(
        &rt,
        rt.alloc(),
        b"{\"at\":1,\"do\":\"tx\",\"lane\":2,\"packet\":\"\xff\xff\"}",
    );
    is_outside(
        &rt,
        rt.alloc(),
        b"{\"at\":1,\"do\":\"tx\",\"lane\":2,\"packet\":\"45\n6\"}",
    );
    is_outside(
        &rt,
        rt.alloc(),
        b"{\"at\":1,\"do\":\"tx\",\"lane\":2,\"packet\":\"45\x00\x00\"}",
    );
}
