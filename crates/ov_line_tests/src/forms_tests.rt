use ov_base::{Boxed, Memory};
use ov_line::{LineStop, read_line};
use ov_model::netlink::NO_ATTRIBUTES;
use ov_model::{Deed, Line, NlMessage, NlOp, NlPeer};
use std::alloc::Global;
use std::fmt::InlineText;
use std::process::Abort;

/// The bytes say this line on one of four lanes.
fn says(rt: &impl Abort, alloc: Global, bytes: &[u8], line: Line) {
    assert!(rt; read_line(alloc, bytes, 4) == Ok(line));
}

/// The bytes say the line of this operation on a peer, on lane 3 at 7.
fn asks(rt: &impl Abort, alloc: Global, bytes: &[u8], op: NlOp, peer: Option<NlPeer>) {
    let message = NlMessage {
        op,
        ifindex: None,
        peer,
        keyconf: None,
    };
    let Ok(message) = Boxed::new(alloc, message) else {
        panic!(rt; "no memory");
    };
    let line = Line {
        lane: 3,
        at: 7,
        deed: Deed::Netlink(message),
    };
    says(rt, alloc, bytes, line);
}

/// Each line of a text is bad, on one of four lanes.
fn are_bad(rt: &impl Abort, alloc: Global, text: &str) {
    for line in text.lines() {
        let read = read_line(alloc, line.as_bytes(), 4);
        assert!(rt; matches!(read, Err(LineStop::Bad(_))), "{line}");
    }
}

/// Names of other operations.
const OTHER_NAMES: &str = r#"{"at":7,"do":"peer-set","lane":3,"peer":{"id":1,"socket":2}}
{"at":7,"do":"peer-set","lane":3,"peer":{"id":1,"socket-netnsid":2}}
{"at":7,"do":"peer-get","lane":3,"peer":{"id":1,"remote-port":2}}
{"at":7,"do":"peer-del","lane":3,"peer":{"id":1,"del-reason":"teardown"}}
{"at":7,"do":"peer-dump","lane":3,"peer":{"id":1}}
{"at":7,"do":"peer-new","keyconf":{"peer-id":1},"lane":3}
{"at":7,"do":"key-get","keyconf":{"key-id":1,"peer-id":1,"slot":"primary"},"lane":3}
{"at":7,"do":"key-swap","keyconf":{"peer-id":1,"slot":"primary"},"lane":3}
{"at":7,"do":"key-del","keyconf":{"cipher-alg":"aes-gcm","peer-id":1,"slot":"primary"},"lane":3}
{"at":7,"do":"key-del","lane":3,"peer":{"id":1}}"#;

/// Values of other kinds.
const OTHER_KINDS: &str = r#"{"at":7,"do":"peer-dump","ifindex":-1,"lane":3}
{"at":7,"do":"peer-dump","ifindex":4294967296,"lane":3}
{"at":7,"do":"peer-set","lane":3,"peer":{"id":"1"}}
{"at":7,"do":"peer-set","lane":3,"peer":{"id":1,"vpn-ipv6":"fd00::1"}}
{"at":7,"do":"peer-set","lane":3,"peer":{"id":1,"vpn-ipv6":"0102030405060708090a0b0c0d0e0f1"}}
{"at":7,"do":"peer-set","lane":3,"peer":{"id":1,"local-ipv4":16909060}}
{"at":7,"do":"peer-set","lane":3,"peer":{"id":1,"keepalive-timeout":1.5}}
{"at":7,"do":"peer-get","lane":3,"peer":null}
{"at":7,"do":"key-swap","keyconf":5,"lane":3}
{"at":7,"do":"key-get","keyconf":{"peer-id":1,"slot":"third"},"lane":3}
{"at":7,"do":"key-new","keyconf":{"cipher-alg":"aes-cbc"},"lane":3}
{"at":7,"do":"key-new","keyconf":{"encrypt-dir":"00"},"lane":3}
{"at":7,"do":"key-new","keyconf":{"encrypt-dir":{"cipher-key":"0"}},"lane":3}
{"at":7,"do":"key-new","keyconf":{"encrypt-dir":{"key":"00"}},"lane":3}"#;

/// A lost transport.
const LOSSES: &str = r#"{"at":7,"do":"lost","lane":3,"peer":{"del-reason":"userspace","id":1}}
{"at":7,"do":"lost","lane":3,"peer":{"del-reason":"transport-error","id":16777216}}
{"at":7,"do":"lost","lane":3,"peer":{"del-reason":"transport-error"}}
{"at":7,"do":"lost","lane":3,"peer":{"id":1}}
{"at":7,"do":"lost","lane":3,"peer":{"del-reason":"transport-error","id":1,"socket":2}}
{"at":7,"do":"lost","ifindex":1,"lane":3,"peer":{"del-reason":"transport-error","id":1}}
{"at":7,"do":"lost","lane":3}"#;

/// A tick and the end of the device: names that they don't have, names that are missing, other kinds.
const TICKS_AND_ENDS: &str = r#"{"at":7,"do":"tick","lane":3,"peer":{"id":1}}
{"at":7,"do":"tick","ifindex":1,"lane":3}
{"at":7,"do":"tick"}
{"do":"tick","lane":3}
{"at":"7","do":"tick","lane":3}
{"at":7,"do":"tick","lane":null}
{"at":7,"do":"tick","lane":4}
{"at":7,"do":"down","lane":3,"peer":{"del-reason":"teardown","id":1}}
{"at":7,"do":"down","keyconf":{"peer-id":1},"lane":3}
{"at":7,"do":"down"}
{"do":"down","lane":3}
{"at":-7,"do":"down","lane":3}
{"at":7,"do":"down","lane":"3"}
{"at":7,"do":"down","lane":4}"#;

/// Words that name no form.
const OTHER_WORDS: &str = r#"{"at":7,"do":"peer-add","lane":3}
{"at":7,"do":"","lane":3}
{"at":7,"do":7,"lane":3}"#;

#[test]
fn a_name_that_is_not_listed_or_a_value_of_another_kind_makes_a_bad_line(rt: HostRuntime) {
    are_bad(&rt, rt.alloc(), OTHER_NAMES);
    are_bad(&rt, rt.alloc(), OTHER_KINDS);
    are_bad(&rt, rt.alloc(), LOSSES);
    are_bad(&rt, rt.alloc(), TICKS_AND_ENDS);
    are_bad(&rt, rt.alloc(), OTHER_WORDS);
}

/// The bytes say the line that does this.
fn does(rt: &impl Abort, alloc: Global, bytes: &[u8], lane: u32, at: u32, deed: Deed) {
    says(rt, alloc, bytes, Line { lane, at, deed });
}

#[test]
fn a_tick_and_the_end_of_the_device_have_a_moment_and_a_lane(rt: HostRuntime) {
    let alloc = rt.alloc();
    let tick = br#"{"at":5,"do":"tick","lane":0}"#;
    does(&rt, alloc, tick, 0, 5, Deed::Tick);
    let down = br#"{"at":4294967295,"do":"down","lane":3}"#;
    does(&rt, alloc, down, 3, 4294967295, Deed::Down);
    // The order of names and white space don't matter, and of a name that stands twice the last value counts.
    let twice = br#"{ "lane":1, "do":"down", "at":0, "do":"tick" }"#;
    does(&rt, alloc, twice, 1, 0, Deed::Tick);
    let escaped = br#"{"do":"d\u006fwn","at":0,"lane":1}"#;
    does(&rt, alloc, escaped, 1, 0, Deed::Down);
}

#[test]
fn digits_of_either_case_and_names_left_out_are_read(rt: HostRuntime) {
    let alloc = rt.alloc();
    let seven = NlPeer {
        remote_ipv6: Some([0xab; 16]),
        ..NO_ATTRIBUTES
    };
    let either =
        br#"{"at":7,"do":"peer-new","lane":3,"peer":{"remote-ipv6":"ABABABABABABABABabababababababAb"}}"#;
    asks(&rt, alloc, either, NlOp::PeerNew, Some(seven));
    let none = br#"{"at":7,"do":"peer-new","lane":3}"#;
    asks(&rt, alloc, none, NlOp::PeerNew, None);
    let empty = br#"{"at":7,"do":"peer-get","lane":3,"peer":{}}"#;
    asks(&rt, alloc, empty, NlOp::PeerGet, Some(NO_ATTRIBUTES));
}

/// A line that gives a tail of `count` bytes.
fn with_tail(alloc: Global, count: u32) -> Result<Vec<u8>, Memory> {
    let mut line = Vec::new(alloc);
    line.extend_from_slice(br#"{"at":7,"do":"key-new","keyconf":{"encrypt-dir":{"nonce-tail":""#)?;
    for _byte in 0..count {
        line.extend_from_slice(b"00")?;
    }
    line.extend_from_slice(br#""}},"lane":3}"#)?;
    Ok(line)
}

/// Whether a tail of `count` bytes is taken.
fn takes(rt: &impl Abort, alloc: Global, count: u32) -> bool {
    let Ok(line) = with_tail(alloc, count) else {
        panic!(rt; "no memory");
    };
    read_line(alloc, line.as_slice(), 4).is_ok()
}

#[test]
fn keys_and_tails_have_at_most_256_bytes(rt: HostRuntime) {
    assert!(rt; takes(&rt, rt.alloc(), 256));
    assert!(rt; !takes(&rt, rt.alloc(), 257));
}

#[test]
fn a_bad_line_says_why(rt: HostRuntime) {
    // The line, and what is said of it.
    let rows: [(&[u8], &str); 18] = [
        // 0: an unknown name
        (
            br#"{"at":0,"do":"peer-get","lane":0,"peer":{"idd":5}}"#,
            "unknown name idd",
        ),
        (
            b"{\"at\":0,\"do\":\"peer-dump\",\"lane\":0,\"a\\nb \\u00e9\":1}",
            "unknown name a?b???",
        ),
        (
            br#"{"at":0,"do":"peer-dump","lane":0,"abcdefghijklmnopqrstuvwxyz0123456789":1}"#,
            "unknown name abcdefghijklmnopqrstuvwxyz012345",
        ),
        (
            br#"{"at":0,"do":"tick","ifindex":1,"lane":0}"#,
            "unknown name ifindex",
        ),
        (
            br#"{"at":0,"do":"down","lane":0,"peer":{"id":5}}"#,
            "unknown name peer",
        ),
        // 5: a missing name
        (br#"{"do":"peer-dump","lane":0}"#, "missing name at"),
        (br#"{"at":0,"lane":0}"#, "missing name do"),
        (br#"{"at":0,"do":"tx","lane":0}"#, "missing name packet"),
        (br#"{"at":0,"do":"tick"}"#, "missing name lane"),
        // 9: a value of the wrong kind
        (
            br#"{"at":"0","do":"peer-dump","lane":0}"#,
            "value of the wrong kind under at",
        ),
        (
            br#"{"at":0,"do":"peer-get","lane":0,"peer":[5]}"#,
            "value of the wrong kind under peer",
        ),
        (
            br#"{"at":0,"do":"down","lane":[]}"#,
            "value of the wrong kind under lane",
        ),
        // 12: a value out of its range
        (
            br#"{"at":0,"do":"peer-dump","lane":1}"#,
            "value out of its range under lane",
        ),
        (
            br#"{"at":0,"do":"lost","lane":0,"peer":{"del-reason":"expired","id":5}}"#,
            "value out of its range under del-reason",
        ),
        (
            br#"{"at":0,"do":"peer-ad","lane":0}"#,
            "value out of its range under do",
        ),
        // 15: no value in JSON, and no object
        (br#"{"at":0,}"#, "no JSON value, from column 9 on"),
        (br#"{"at":0"#, "no JSON value, from column 7 on"),
        (b"[]", "no object"),
    ];
    for (number, (bytes, text)) in rows.iter().enumerate() {
        let Err(stop) = read_line(rt.alloc(), bytes, 1) else {
            panic!(rt; "row {number}");
        };
        let said = InlineText::<96>::of(stop);
        assert!(rt; said.as_str() == *text, "row {number}: {}", said.as_str());
        assert!(rt; text.len() <= 70, "row {number}");
    }
}
