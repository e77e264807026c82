use ov_base::Boxed;
use ov_line::{LineStop, read_line};
use ov_model::netlink::NO_ATTRIBUTES;
use ov_model::{Deed, Line, NlMessage, NlOp, NlPeer};
use std::alloc::Global;
use std::process::Abort;

const NEW: &[u8] =
    br#"{"at":0,"do":"peer-new","lane":0,"peer":{"id":5,"remote-ipv4":"192.0.2.1","remote-port":1194,"vpn-ipv4":"10.8.0.5"}}"#;

const GET: &[u8] = br#"{"at":1,"do":"peer-get","lane":0,"peer":{"id":5}}"#;

/// The line of this operation on a peer.
fn asks(rt: &impl Abort, alloc: Global, lane: u32, at: u32, op: NlOp, peer: NlPeer) -> Line {
    let message = NlMessage {
        op,
        ifindex: None,
        peer: Some(peer),
        keyconf: None,
    };
    let Ok(message) = Boxed::new(alloc, message) else {
        panic!(rt; "no memory");
    };
    Line {
        lane,
        at,
        deed: Deed::Netlink(message),
    }
}

/// The same, where the peer is named by the id alone.
fn named(rt: &impl Abort, alloc: Global, lane: u32, at: u32, op: NlOp, id: u32) -> Line {
    let peer = NlPeer {
        id: Some(id),
        ..NO_ATTRIBUTES
    };
    asks(rt, alloc, lane, at, op, peer)
}

/// The bytes say this line on one of `lanes` lanes.
fn says(rt: &impl Abort, alloc: Global, bytes: &[u8], lanes: u32, line: Line) {
    assert!(rt; read_line(alloc, bytes, lanes) == Ok(line));
}

/// Whether the bytes were found outside the grammar, whatever the reason.
fn is_bad(read: &Result<Line, LineStop>) -> bool {
    matches!(read, Err(LineStop::Bad(_)))
}

/// Each line of a text is outside the grammar, on one lane.
fn are_bad(rt: &impl Abort, alloc: Global, text: &str) {
    for line in text.lines() {
        assert!(rt; is_bad(&read_line(alloc, line.as_bytes(), 1)), "{line}");
    }
}

/// Each line of a text is one of the grammar, on one lane.
fn are_lines(rt: &impl Abort, alloc: Global, text: &str) {
    for line in text.lines() {
        assert!(rt; read_line(alloc, line.as_bytes(), 1).is_ok(), "{line}");
    }
}

/// The bytes are outside the grammar, on one lane.
fn is_outside(rt: &impl Abort, alloc: Global, bytes: &[u8]) {
    assert!(rt; is_bad(&read_line(alloc, bytes, 1)));
}

#[test]
fn a_peer_new_line_gives_its_four_attributes(rt: HostRuntime) {
    let peer = NlPeer {
        id: Some(5),
        remote_ipv4: Some([192, 0, 2, 1]),
        remote_port: Some(1194),
        vpn_ipv4: Some([10, 8, 0, 5]),
        ..NO_ATTRIBUTES
    };
    let line = asks(&rt, rt.alloc(), 0, 0, NlOp::PeerNew, peer);
    says(&rt, rt.alloc(), NEW, 1, line);
}

#[test]
fn lines_of_the_grammar_are_read(rt: HostRuntime) {
    let alloc = rt.alloc();
    let line = named(&rt, alloc, 0, 1, NlOp::PeerGet, 5);
    says(&rt, alloc, GET, 1, line);
    let text = br#"{"at":4294967295,"do":"peer-del","lane":63,"peer":{"id":16777215}}"#;
    let line = named(&rt, alloc, 63, 4294967295, NlOp::PeerDel, 16777215);
    says(&rt, alloc, text, 64, line);
    // The order of names and white space don't matter.
    let text = b" { \"peer\" : { \"id\" : 0 } ,\t\"lane\":1, \"do\":\"peer-get\", \"at\":2 }\r";
    let line = named(&rt, alloc, 1, 2, NlOp::PeerGet, 0);
    says(&rt, alloc, text, 2, line);
    // Of a name that stands twice the last value counts, in the line and in its peer.
    let text = br#"{"at":"x","do":"peer-get","lane":0,"peer":{"id":-1,"id":8},"at":7}"#;
    let line = named(&rt, alloc, 0, 7, NlOp::PeerGet, 8);
    says(&rt, alloc, text, 1, line);
    // An escaped name or word is what it stands for.
    let text = br#"{"\u0061t":1,"do":"peer\u002dget","lane":0,"peer":{"id":5}}"#;
    let line = named(&rt, alloc, 0, 1, NlOp::PeerGet, 5);
    says(&rt, alloc, text, 1, line);
    let text = br#"{"at":0,"do":"peer-get","lane":0,"peer":{"id":5},"peer":{"id":6}}"#;
    let line = named(&rt, alloc, 0, 0, NlOp::PeerGet, 6);
    says(&rt, alloc, text, 1, line);
}

/// No value, not UTF-8, not JSON, more than one value, no object.
const NO_VALUES: &str = r#"{
{"at":0,"do":"peer-get","lane":0,"peer":{"id":5}} {}
[]
5
{}"#;

/// A name too many, and one too few.
const OTHER_NAMES: &str = r#"{"do":"peer-get","lane":0,"peer":{"id":5}}
{"at":0,"lane":0,"peer":{"id":5}}
{"at":0,"do":"peer-get","peer":{"id":5}}
{"at":0,"do":"peer-get","lane":0,"peer":{"id":5,"vpn-ipv4":"10.8.0.5"}}"#;

/// `at`: a sign, a fraction, an exponent, too large, a text.
const MOMENTS: &str = r#"{"at":-1,"do":"peer-get","lane":0,"peer":{"id":5}}
{"at":-0,"do":"peer-get","lane":0,"peer":{"id":5}}
{"at":1.0,"do":"peer-get","lane":0,"peer":{"id":5}}
{"at":1e0,"do":"peer-get","lane":0,"peer":{"id":5}}
{"at":4294967296,"do":"peer-get","lane":0,"peer":{"id":5}}
{"at":"0","do":"peer-get","lane":0,"peer":{"id":5}}"#;

/// The lane, the word, the id.
const LANES_WORDS_AND_IDS: &str = r#"{"at":0,"do":"peer-get","lane":1,"peer":{"id":5}}
{"at":0,"do":"Peer-get","lane":0,"peer":{"id":5}}
{"at":0,"do":"peer-get","lane":0,"peer":[5]}"#;

/// Peer-new: the port, the addresses, an attribute that is missing.
const ATTRIBUTES: &str =
    r#"{"at":0,"do":"peer-new","lane":0,"peer":{"id":5,"remote-ipv4":"192.0.2.01","remote-port":1194,"vpn-ipv4":"10.8.0.5"}}
{"at":0,"do":"peer-new","lane":0,"peer":{"id":5,"remote-ipv4":"192.0.2.1.1","remote-port":1194,"vpn-ipv4":"10.8.0.5"}}
{"at":0,"do":"peer-new","lane":0,"peer":{"id":5,"remote-ipv4":"192.0.2.256","remote-port":1194,"vpn-ipv4":"10.8.0.5"}}
{"at":0,"do":"peer-new","lane":0,"peer":{"id":5,"remote-ipv4":"192.0.2","remote-port":1194,"vpn-ipv4":"10.8.0.5"}}
{"at":0,"do":"peer-new","lane":0,"peer":{"id":5,"remote-ipv4":"192.0.2.1","remote-port":1194,"vpn-ipv4":""}}"#;

#[test]
fn lines_outside_the_grammar_are_bad(rt: HostRuntime) {
    are_bad(&rt, rt.alloc(), NO_VALUES);
    are_bad(&rt, rt.alloc(), OTHER_NAMES);
    are_bad(&rt, rt.alloc(), MOMENTS);
    are_bad(&rt, rt.alloc(), LANES_WORDS_AND_IDS);
    are_bad(&rt, rt.alloc(), ATTRIBUTES);
    is_outside(&rt, rt.alloc(), b"");
    is_outside(&rt, rt.alloc(), b" ");
    is_outside(&rt, rt.alloc(), b"\xff");
    is_outside(
        &rt,
        rt.alloc(),
        b"{\"at\":0,\"do\":\"peer-get\",\"lane\":0,\"peer\":{\"id\":5,\"x\xff\":1}}",
    );
    assert!(rt; is_bad(&read_line(rt.alloc(), GET, 0)));
}

/// Lines of the grammar whose attributes the checks of a command refuse.
const REFUSED: &str = r#"{"at":0,"do":"peer-get","ifindex":1,"lane":0,"peer":{"id":5}}
{"at":0,"do":"peer-get","lane":0}
{"at":0,"do":"peer-get","lane":0,"peer":{}}
{"at":0,"do":"peer-set","lane":0,"peer":{"id":5}}
{"at":0,"do":"peer-get","lane":0,"peer":{"id":16777216}}
{"at":0,"do":"peer-new","lane":0,"peer":{"id":5,"remote-ipv4":"192.0.2.1","remote-port":0,"vpn-ipv4":"10.8.0.5"}}
{"at":0,"do":"peer-new","lane":0,"peer":{"id":5,"remote-ipv4":"192.0.2.1","remote-port":65536,"vpn-ipv4":"10.8.0.5"}}
{"at":0,"do":"peer-new","lane":0,"peer":{"id":5,"remote-port":1194,"vpn-ipv4":"10.8.0.5"}}
{"at":0,"do":"peer-new","lane":0,"peer":{"id":5,"remote-ipv4":"192.0.2.1","vpn-ipv4":"10.8.0.5"}}
{"at":0,"do":"peer-new","lane":0,"peer":{"id":5,"remote-ipv4":"192.0.2.1","remote-port":1194}}
{"at":0,"do":"peer-new","lane":0,"peer":{"id":5}}"#;

#[test]
fn attributes_of_peers_that_the_checks_refuse_are_no_bad_lines(rt: HostRuntime) {
    are_lines(&rt, rt.alloc(), REFUSED);
}
