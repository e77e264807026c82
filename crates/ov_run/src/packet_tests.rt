//! Whole runs in which keys are made, packets sealed and datagrams received.
//!
//! The digits of each datagram are those of AES-GCM in the Python package `cryptography`: key
//! 000102030405060708090a0b0c0d0e0f; nonce the packet id in four bytes and the tail 0001020304050607;
//! associated data the head, which is 4a000005 and the packet id; text the inner packet. The datagram is the
//! head, the tag and the ciphertext. The expected lines are written by hand.

use crate::ended::Cause;
use crate::tests::{ends_by, run, writes};
use std::alloc::Global;
use std::process::Abort;
use std::sync::Wait;
use std::thread::Threads;

/// A peer with id 5.
pub const PEER5: &str =
    r#"{"at":0,"do":"peer-new","lane":0,"peer":{"id":5,"remote-ipv4":"192.0.2.1","remote-port":1194,"vpn-ipv4":"10.8.0.5"}}"#;

/// A key of the peer in its primary slot, whose two directions are alike, so that the peer can receive what it
/// sent.
pub const KEY5: &str =
    r#"{"at":0,"do":"key-new","keyconf":{"cipher-alg":"aes-gcm","decrypt-dir":{"cipher-key":"000102030405060708090a0b0c0d0e0f","nonce-tail":"0001020304050607"},"encrypt-dir":{"cipher-key":"000102030405060708090a0b0c0d0e0f","nonce-tail":"0001020304050607"},"key-id":2,"peer-id":5,"slot":"primary"},"lane":0}"#;

/// An inner packet for the peer.
pub const SEND5: &str =
    r#"{"at":0,"do":"tx","lane":0,"packet":"4500001400000000401100000a0800050a080005"}"#;

/// The datagram that the packet becomes first under the key, received.
pub const RECEIVE5: &str =
    r#"{"at":0,"datagram":"4a0000050000000160510e1c04ad719a851c1bc16f2d39abdf16c4d59bf4324469214f1f674636283bf64896","do":"rx","from":{"addr":"192.0.2.1","port":1194},"lane":0}"#;

/// The peer is asked for.
pub const GET5: &str = r#"{"at":0,"do":"peer-get","lane":0,"peer":{"id":5}}"#;

/// The peer is removed.
const DELETE5: &str = r#"{"at":0,"do":"peer-del","lane":0,"peer":{"id":5}}"#;

/// The key under another key id.
const OTHER_KEY5: &str =
    r#"{"at":0,"do":"key-new","keyconf":{"cipher-alg":"aes-gcm","decrypt-dir":{"cipher-key":"000102030405060708090a0b0c0d0e0f","nonce-tail":"0001020304050607"},"encrypt-dir":{"cipher-key":"000102030405060708090a0b0c0d0e0f","nonce-tail":"0001020304050607"},"key-id":3,"peer-id":5,"slot":"primary"},"lane":0}"#;

/// The same with the last bit of its tag changed.
const WRONG5: &str =
    r#"{"at":0,"datagram":"4a0000050000000160510e1c04ad719a851c1bc16f2d39aadf16c4d59bf4324469214f1f674636283bf64896","do":"rx","from":{"addr":"192.0.2.1","port":1194},"lane":0}"#;

/// The entries and the answers of the first two lines of most scripts.
pub const PEER_MADE: &str =
    r#"{"at":0,"call":"peer-new","journal":0,"lane":0,"line":0,"reply":{"serial":0}}"#;

pub const KEY_MADE: &str =
    r#"{"at":0,"call":"key-new","journal":1,"lane":0,"line":1,"reply":{"serial":0}}"#;

pub const PEER_ANSWER: &str = r#"{"answer":{"serial":0},"lane":0,"line":0}"#;

pub const KEY_ANSWER: &str = r#"{"answer":{"serial":0},"lane":0,"line":1}"#;

/// Appends this line and its end.
pub fn push_line(rt: &impl Abort, bytes: &mut Vec<u8>, line: &str) {
    assert!(rt; bytes.extend_from_slice(line.as_bytes()).is_ok());
    assert!(rt; bytes.push(b'\n').is_ok());
}

/// These lines, each with its end.
pub fn text(rt: &impl Abort, alloc: Global, lines: &[&str]) -> Vec<u8> {
    let mut bytes = Vec::new(alloc);
    for line in lines {
        push_line(rt, &mut bytes, *line);
    }
    bytes
}

/// The status is 0, and the text ends with this one.
fn is_end(rt: &impl Abort, status: u8, text: &[u8], end: &[u8]) {
    assert_eq!(rt; status, 0);
    assert!(rt; text.ends_with(end));
}

/// A run of each line of a script to its end has the status 0, and its text ends with these lines.
pub fn ends_in(
    rt: &(impl Abort + Threads + Wait + Sync),
    alloc: Global,
    script: &[u8],
    lines: &[&str],
) {
    let end = text(rt, alloc, lines);
    let (status, written) = run(rt, alloc, &["trace"], script, &[], &[]);
    is_end(rt, status, written.as_slice(), end.as_slice());
}

/// Runs a script of these lines with these words; the whole text that is written must be these lines of a report.
pub fn written(
    rt: &(impl Abort + Threads + Wait + Sync),
    alloc: Global,
    words: &[&str],
    script: &[&str],
    report: &[&str],
) {
    let script = text(rt, alloc, script);
    let report = text(rt, alloc, report);
    writes(rt, alloc, words, script.as_slice(), 0, report.as_slice());
}

/// Runs each line of a script to its end; the whole text that is written must be these lines of a report.
fn gives(
    rt: &(impl Abort + Threads + Wait + Sync),
    alloc: Global,
    script: &[&str],
    report: &[&str],
) {
    written(rt, alloc, &["trace"], script, report);
}

#[test]
fn the_first_packet_is_sealed_with_id_1_and_counted(rt: HostRuntime) {
    gives(
        &rt,
        rt.alloc(),
        &[PEER5, KEY5, SEND5, GET5],
        &[
            PEER_MADE,
            KEY_MADE,
            r#"{"at":0,"call":"tx-look","journal":2,"lane":0,"line":2,"reply":{"hold":{"key":0,"peer":0}}}"#,
            r#"{"at":0,"call":"sent","journal":3,"lane":0,"line":2,"reply":{"ok":true}}"#,
            r#"{"at":0,"call":"peer-get","journal":4,"lane":0,"line":3,"reply":{"peer":{"id":5,"keepalive-interval":0,"keepalive-timeout":0,"link-rx-bytes":0,"link-rx-packets":0,"link-tx-bytes":44,"link-tx-packets":1,"remote-ipv4":"192.0.2.1","remote-port":1194,"vpn-ipv4":"10.8.0.5","vpn-rx-bytes":0,"vpn-rx-packets":0,"vpn-tx-bytes":20,"vpn-tx-packets":1}}}"#,
            PEER_ANSWER,
            KEY_ANSWER,
            r#"{"answer":{"sealed":{"datagram":"4a0000050000000160510e1c04ad719a851c1bc16f2d39abdf16c4d59bf4324469214f1f674636283bf64896","id":1,"key":0,"to":{"addr":"192.0.2.1","port":1194}}},"lane":0,"line":2}"#,
            r#"{"answer":{"peer":{"id":5,"keepalive-interval":0,"keepalive-timeout":0,"link-rx-bytes":0,"link-rx-packets":0,"link-tx-bytes":44,"link-tx-packets":1,"remote-ipv4":"192.0.2.1","remote-port":1194,"vpn-ipv4":"10.8.0.5","vpn-rx-bytes":0,"vpn-rx-packets":0,"vpn-tx-bytes":20,"vpn-tx-packets":1}},"lane":0,"line":3}"#,
            r#"{"summary":{"accepted":0,"answers":4,"bad-tag":0,"delivered":0,"journal":5,"keys":1,"keys-differ":true,"notes":0,"peers":1,"refused":0,"released":0,"sealed":1}}"#,
        ],
    );
}

#[test]
fn a_replaced_key_is_released(rt: HostRuntime) {
    gives(
        &rt,
        rt.alloc(),
        &[PEER5, KEY5, OTHER_KEY5],
        &[
            PEER_MADE,
            KEY_MADE,
            r#"{"at":0,"call":"key-new","journal":2,"lane":0,"line":2,"reply":{"serial":1}}"#,
            r#"{"at":0,"call":"key-released","journal":3,"lane":0,"line":2,"reply":{"key-released":0}}"#,
            PEER_ANSWER,
            KEY_ANSWER,
            r#"{"answer":{"serial":1},"lane":0,"line":2}"#,
            r#"{"summary":{"accepted":0,"answers":3,"bad-tag":0,"delivered":0,"journal":4,"keys":2,"keys-differ":false,"notes":0,"peers":1,"refused":0,"released":0,"sealed":0}}"#,
        ],
    );
}

#[test]
fn a_datagram_is_delivered_once(rt: HostRuntime) {
    gives(
        &rt,
        rt.alloc(),
        &[PEER5, KEY5, RECEIVE5, RECEIVE5],
        &[
            PEER_MADE,
            KEY_MADE,
            r#"{"at":0,"call":"rx-look","journal":2,"lane":0,"line":2,"reply":{"hold":{"key":0,"peer":0}}}"#,
            r#"{"at":0,"call":"settle","journal":3,"lane":0,"line":2,"reply":{"settled":"deliver"}}"#,
            r#"{"at":0,"call":"rx-look","journal":4,"lane":0,"line":3,"reply":{"hold":{"key":0,"peer":0}}}"#,
            r#"{"at":0,"id":1,"key":0,"lane":0,"line":2,"moment":0,"shard":0,"verdict":"accept"}"#,
            r#"{"at":0,"id":1,"key":0,"lane":0,"line":3,"moment":0,"shard":0,"verdict":"again"}"#,
            PEER_ANSWER,
            KEY_ANSWER,
            r#"{"answer":{"delivered":{"packet":"4500001400000000401100000a0800050a080005","peer":5}},"lane":0,"line":2}"#,
            r#"{"answer":{"dropped":"again"},"lane":0,"line":3}"#,
            r#"{"summary":{"accepted":1,"answers":4,"bad-tag":0,"delivered":1,"journal":5,"keys":1,"keys-differ":true,"notes":0,"peers":1,"refused":1,"released":0,"sealed":0}}"#,
        ],
    );
}

#[test]
fn a_wrong_tag_leaves_the_packet_id_fresh(rt: HostRuntime) {
    gives(
        &rt,
        rt.alloc(),
        &[PEER5, KEY5, WRONG5, RECEIVE5],
        &[
            PEER_MADE,
            KEY_MADE,
            r#"{"at":0,"call":"rx-look","journal":2,"lane":0,"line":2,"reply":{"hold":{"key":0,"peer":0}}}"#,
            r#"{"at":0,"call":"rx-look","journal":3,"lane":0,"line":3,"reply":{"hold":{"key":0,"peer":0}}}"#,
            r#"{"at":0,"call":"settle","journal":4,"lane":0,"line":3,"reply":{"settled":"deliver"}}"#,
            r#"{"at":0,"id":1,"key":0,"lane":0,"line":3,"moment":0,"shard":0,"verdict":"accept"}"#,
            PEER_ANSWER,
            KEY_ANSWER,
            r#"{"answer":{"dropped":"bad-tag"},"lane":0,"line":2}"#,
            r#"{"answer":{"delivered":{"packet":"4500001400000000401100000a0800050a080005","peer":5}},"lane":0,"line":3}"#,
            r#"{"summary":{"accepted":1,"answers":4,"bad-tag":1,"delivered":1,"journal":5,"keys":1,"keys-differ":true,"notes":0,"peers":1,"refused":0,"released":0,"sealed":0}}"#,
        ],
    );
}

#[test]
fn short_and_other_datagrams_are_refused_or_passed_on(rt: HostRuntime) {
    gives(
        &rt,
        rt.alloc(),
        &[
            PEER5,
            KEY5,
            r#"{"at":0,"datagram":"","do":"rx","from":{"addr":"192.0.2.1","port":1194},"lane":0}"#,
            r#"{"at":0,"datagram":"4a0000","do":"rx","from":{"addr":"192.0.2.1","port":1194},"lane":0}"#,
            r#"{"at":0,"datagram":"4a000005","do":"rx","from":{"addr":"192.0.2.1","port":1194},"lane":0}"#,
            r#"{"at":0,"datagram":"4a0000050000000160510e1c04ad719a851c1bc16f2d39","do":"rx","from":{"addr":"192.0.2.1","port":1194},"lane":0}"#,
            r#"{"at":0,"datagram":"4a0000050000000160510e1c04ad719a851c1bc16f2d39aa","do":"rx","from":{"addr":"192.0.2.1","port":1194},"lane":0}"#,
            r#"{"at":0,"datagram":"30000000","do":"rx","from":{"addr":"192.0.2.1","port":1194},"lane":0}"#,
            r#"{"at":0,"datagram":"20000000","do":"rx","from":{"addr":"192.0.2.1","port":1194},"lane":0}"#,
        ],
        &[
            PEER_MADE,
            KEY_MADE,
            r#"{"at":0,"call":"rx-look","journal":2,"lane":0,"line":6,"reply":{"hold":{"key":0,"peer":0}}}"#,
            PEER_ANSWER,
            KEY_ANSWER,
            r#"{"answer":{"dropped":"short"},"lane":0,"line":2}"#,
            r#"{"answer":{"dropped":"short"},"lane":0,"line":3}"#,
            r#"{"answer":{"dropped":"short"},"lane":0,"line":4}"#,
            r#"{"answer":{"dropped":"short"},"lane":0,"line":5}"#,
            r#"{"answer":{"dropped":"bad-tag"},"lane":0,"line":6}"#,
            r#"{"answer":{"dropped":"data-v1"},"lane":0,"line":7}"#,
            r#"{"answer":{"passed":"control"},"lane":0,"line":8}"#,
            r#"{"summary":{"accepted":0,"answers":9,"bad-tag":1,"delivered":0,"journal":3,"keys":1,"keys-differ":true,"notes":0,"peers":1,"refused":0,"released":0,"sealed":0}}"#,
        ],
    );
}

/// The inner packet has the source 10.8.0.6, and is sealed with the key of peer 5.
#[test]
fn an_inner_source_of_another_peer_is_not_delivered(rt: HostRuntime) {
    gives(
        &rt,
        rt.alloc(),
        &[
            PEER5,
            KEY5,
            r#"{"at":0,"do":"peer-new","lane":0,"peer":{"id":6,"remote-ipv4":"192.0.2.6","remote-port":1194,"vpn-ipv4":"10.8.0.6"}}"#,
            r#"{"at":0,"datagram":"4a000005000000012c167e77b0ab95767a3bf1adb5137201df16c4d59bf4324469214f1f6746362b3bf64896","do":"rx","from":{"addr":"192.0.2.1","port":1194},"lane":0}"#,
            GET5,
        ],
        &[
            PEER_MADE,
            KEY_MADE,
            r#"{"at":0,"call":"peer-new","journal":2,"lane":0,"line":2,"reply":{"serial":1}}"#,
            r#"{"at":0,"call":"rx-look","journal":3,"lane":0,"line":3,"reply":{"hold":{"key":0,"peer":0}}}"#,
            r#"{"at":0,"call":"settle","journal":4,"lane":0,"line":3,"reply":{"settled":"not-owner"}}"#,
            r#"{"at":0,"call":"peer-get","journal":5,"lane":0,"line":4,"reply":{"peer":{"id":5,"keepalive-interval":0,"keepalive-timeout":0,"link-rx-bytes":44,"link-rx-packets":1,"link-tx-bytes":0,"link-tx-packets":0,"remote-ipv4":"192.0.2.1","remote-port":1194,"vpn-ipv4":"10.8.0.5","vpn-rx-bytes":0,"vpn-rx-packets":0,"vpn-tx-bytes":0,"vpn-tx-packets":0}}}"#,
            r#"{"at":0,"id":1,"key":0,"lane":0,"line":3,"moment":0,"shard":0,"verdict":"accept"}"#,
            PEER_ANSWER,
            KEY_ANSWER,
            r#"{"answer":{"serial":1},"lane":0,"line":2}"#,
            r#"{"answer":{"dropped":"not-owner"},"lane":0,"line":3}"#,
            r#"{"answer":{"peer":{"id":5,"keepalive-interval":0,"keepalive-timeout":0,"link-rx-bytes":44,"link-rx-packets":1,"link-tx-bytes":0,"link-tx-packets":0,"remote-ipv4":"192.0.2.1","remote-port":1194,"vpn-ipv4":"10.8.0.5","vpn-rx-bytes":0,"vpn-rx-packets":0,"vpn-tx-bytes":0,"vpn-tx-packets":0}},"lane":0,"line":4}"#,
            r#"{"summary":{"accepted":1,"answers":5,"bad-tag":0,"delivered":0,"journal":6,"keys":1,"keys-differ":true,"notes":0,"peers":2,"refused":0,"released":0,"sealed":0}}"#,
        ],
    );
}

#[test]
fn a_removed_peer_has_its_keys_released_before_it(rt: HostRuntime) {
    gives(
        &rt,
        rt.alloc(),
        &[PEER5, KEY5, OTHER_KEY5, DELETE5, SEND5, RECEIVE5],
        &[
            PEER_MADE,
            KEY_MADE,
            r#"{"at":0,"call":"key-new","journal":2,"lane":0,"line":2,"reply":{"serial":1}}"#,
            r#"{"at":0,"call":"key-released","journal":3,"lane":0,"line":2,"reply":{"key-released":0}}"#,
            r#"{"at":0,"call":"remove","journal":4,"lane":0,"line":3,"reply":{"removed":[0]}}"#,
            r#"{"at":0,"call":"key-released","journal":5,"lane":0,"line":3,"reply":{"key-released":1}}"#,
            r#"{"at":0,"call":"released","journal":6,"lane":0,"line":3,"reply":{"released":0}}"#,
            r#"{"at":0,"call":"tx-look","journal":7,"lane":0,"line":4,"reply":{"none":"no-peer"}}"#,
            r#"{"at":0,"call":"rx-look","journal":8,"lane":0,"line":5,"reply":{"none":"no-peer"}}"#,
            PEER_ANSWER,
            KEY_ANSWER,
            r#"{"answer":{"serial":1},"lane":0,"line":2}"#,
            r#"{"answer":{"removed":[0]},"lane":0,"line":3}"#,
            r#"{"answer":{"dropped":"no-peer"},"lane":0,"line":4}"#,
            r#"{"answer":{"dropped":"no-peer"},"lane":0,"line":5}"#,
            r#"{"journal":4,"notify":"peer-del-ntf","peer":{"del-reason":"userspace","id":5}}"#,
            r#"{"summary":{"accepted":0,"answers":6,"bad-tag":0,"delivered":0,"journal":9,"keys":2,"keys-differ":false,"notes":1,"peers":1,"refused":0,"released":1,"sealed":0}}"#,
        ],
    );
}

#[test]
fn without_a_key_nothing_is_sealed_or_opened(rt: HostRuntime) {
    gives(
        &rt,
        rt.alloc(),
        &[PEER5, SEND5, RECEIVE5],
        &[
            PEER_MADE,
            r#"{"at":0,"call":"tx-look","journal":1,"lane":0,"line":1,"reply":{"none":"no-key"}}"#,
            r#"{"at":0,"call":"rx-look","journal":2,"lane":0,"line":2,"reply":{"none":"no-key"}}"#,
            PEER_ANSWER,
            r#"{"answer":{"dropped":"no-key"},"lane":0,"line":1}"#,
            r#"{"answer":{"dropped":"no-key"},"lane":0,"line":2}"#,
            r#"{"summary":{"accepted":0,"answers":3,"bad-tag":0,"delivered":0,"journal":3,"keys":0,"keys-differ":true,"notes":0,"peers":1,"refused":0,"released":0,"sealed":0}}"#,
        ],
    );
}

#[test]
fn sixty_packets_are_sealed_with_ids_from_1_to_60(rt: HostRuntime) {
    let mut script = text(&rt, rt.alloc(), &[PEER5, KEY5]);
    for _number in 0..60_u32 {
        push_line(&rt, &mut script, SEND5);
    }
    ends_in(
        &rt,
        rt.alloc(),
        script.as_slice(),
        &[
            r#"{"answer":{"sealed":{"datagram":"4a0000050000003c28bdc30f074c147792b92e16920a688642775eedc39566903c56e1022ffe3542d7d4dfaa","id":60,"key":0,"to":{"addr":"192.0.2.1","port":1194}}},"lane":0,"line":61}"#,
            r#"{"summary":{"accepted":0,"answers":62,"bad-tag":0,"delivered":0,"journal":122,"keys":1,"keys-differ":true,"notes":0,"peers":1,"refused":0,"released":0,"sealed":60}}"#,
        ],
    );
}

/// A script whose third line is this one is told by that line's number, and nothing is written.
fn is_bad(rt: &(impl Abort + Threads + Wait + Sync), alloc: Global, line: &str) {
    let script = text(rt, alloc, &[PEER5, KEY5, line, SEND5]);
    ends_by(rt, alloc, script.as_slice(), Cause::BadLine(3));
    writes(rt, alloc, &["trace"], script.as_slice(), 2, b"");
}

#[test]
fn a_bad_line_is_told_by_its_number_and_runs_nothing(rt: HostRuntime) {
    for bad in [
        "{",
        r#"{"at":0,"do":"key-new","keyconf":{"key-id":"2"},"lane":0}"#,
        r#"{"at":0,"do":"key-new","keyconf":{"slot":"third"},"lane":0}"#,
        r#"{"at":0,"do":"key-new","lane":0,"peer":{"id":5}}"#,
        r#"{"at":0,"do":"tx","lane":0}"#,
        r#"{"at":0,"do":"tx","lane":0,"packet":"450"}"#,
        r#"{"at":0,"do":"tx","lane":0,"packet":"4g"}"#,
        r#"{"at":0,"do":"tx","lane":64,"packet":"45"}"#,
        r#"{"at":0,"datagram":"4a","do":"rx","lane":0}"#,
        r#"{"at":0,"datagram":"4a","do":"rx","from":{"addr":"192.0.2.1"},"lane":0}"#,
        r#"{"at":0,"datagram":"4a","do":"rx","from":{"addr":"192.0.2.1","port":65536},"lane":0}"#,
        r#"{"at":0,"do":"rx","from":{"addr":"192.0.2.1","port":1194},"lane":0}"#,
    ] {
        is_bad(&rt, rt.alloc(), bad);
    }
}

#[test]
fn an_id_2048_below_the_greatest_is_old(rt: HostRuntime) {
    gives(
        &rt,
        rt.alloc(),
        &[
            PEER5,
            KEY5,
            r#"{"at":0,"datagram":"4a00000500000bb8660a952bdbf773f72aa57b6969b9ef8262fbe881ef90c67deecd6a5f06c6bd24a7d07c43","do":"rx","from":{"addr":"192.0.2.1","port":1194},"lane":0}"#,
            r#"{"at":0,"datagram":"4a000005000003b98d1cd491d49c9ddfb89d898f69e4a5832acdcac9229577e37779b641da445ad809099c59","do":"rx","from":{"addr":"192.0.2.1","port":1194},"lane":0}"#,
            r#"{"at":0,"datagram":"4a000005000003b861ab604718c1fcaa16e97c21375f46234237022cb00fc604ef28100e681ca6e0af540ab9","do":"rx","from":{"addr":"192.0.2.1","port":1194},"lane":0}"#,
            r#"{"at":0,"datagram":"4a00000500000000d79f68756c8320fecea3fa36f1e327dc715bb018af39ac2f81f4b5aa4e071cfe1ad7b263","do":"rx","from":{"addr":"192.0.2.1","port":1194},"lane":0}"#,
        ],
        &[
            PEER_MADE,
            KEY_MADE,
            r#"{"at":0,"call":"rx-look","journal":2,"lane":0,"line":2,"reply":{"hold":{"key":0,"peer":0}}}"#,
            r#"{"at":0,"call":"settle","journal":3,"lane":0,"line":2,"reply":{"settled":"deliver"}}"#,
            r#"{"at":0,"call":"rx-look","journal":4,"lane":0,"line":3,"reply":{"hold":{"key":0,"peer":0}}}"#,
            r#"{"at":0,"call":"settle","journal":5,"lane":0,"line":3,"reply":{"settled":"deliver"}}"#,
            r#"{"at":0,"call":"rx-look","journal":6,"lane":0,"line":4,"reply":{"hold":{"key":0,"peer":0}}}"#,
            r#"{"at":0,"call":"rx-look","journal":7,"lane":0,"line":5,"reply":{"hold":{"key":0,"peer":0}}}"#,
            r#"{"at":0,"id":3000,"key":0,"lane":0,"line":2,"moment":0,"shard":0,"verdict":"accept"}"#,
            r#"{"at":0,"id":953,"key":0,"lane":0,"line":3,"moment":0,"shard":0,"verdict":"accept"}"#,
            r#"{"at":0,"id":952,"key":0,"lane":0,"line":4,"moment":0,"shard":0,"verdict":"old"}"#,
            r#"{"at":0,"id":0,"key":0,"lane":0,"line":5,"moment":0,"shard":0,"verdict":"zero"}"#,
            PEER_ANSWER,
            KEY_ANSWER,
            r#"{"answer":{"delivered":{"packet":"4500001400000000401100000a0800050a080005","peer":5}},"lane":0,"line":2}"#,
            r#"{"answer":{"delivered":{"packet":"4500001400000000401100000a0800050a080005","peer":5}},"lane":0,"line":3}"#,
            r#"{"answer":{"dropped":"old"},"lane":0,"line":4}"#,
            r#"{"answer":{"dropped":"zero"},"lane":0,"line":5}"#,
            r#"{"summary":{"accepted":2,"answers":6,"bad-tag":0,"delivered":2,"journal":8,"keys":1,"keys-differ":true,"notes":0,"peers":1,"refused":2,"released":0,"sealed":0}}"#,
        ],
    );
}

#[test]
fn what_came_before_a_silence_of_thirty_seconds_is_over(rt: HostRuntime) {
    gives(
        &rt,
        rt.alloc(),
        &[
            PEER5,
            KEY5,
            r#"{"at":0,"datagram":"4a0000050000000a83ace701b7176ff4438fac7d5b582f45101b5c97059c9bc3177a1124c550df74f188be29","do":"rx","from":{"addr":"192.0.2.1","port":1194},"lane":0}"#,
            r#"{"at":29,"datagram":"4a00000500000009f9b19d7f17a2b1e8cb78ff1592535fcd88768cc913ca954934db38cbbcec9906f53c6aea","do":"rx","from":{"addr":"192.0.2.1","port":1194},"lane":0}"#,
            r#"{"at":59,"datagram":"4a0000050000000812e980a2cb95414c7daddb82e3f4f9e3cf48dab30a4d410ef7738d026280d97926c80878","do":"rx","from":{"addr":"192.0.2.1","port":1194},"lane":0}"#,
        ],
        &[
            PEER_MADE,
            KEY_MADE,
            r#"{"at":0,"call":"rx-look","journal":2,"lane":0,"line":2,"reply":{"hold":{"key":0,"peer":0}}}"#,
            r#"{"at":0,"call":"settle","journal":3,"lane":0,"line":2,"reply":{"settled":"deliver"}}"#,
            r#"{"at":29,"call":"rx-look","journal":4,"lane":0,"line":3,"reply":{"hold":{"key":0,"peer":0}}}"#,
            r#"{"at":29,"call":"settle","journal":5,"lane":0,"line":3,"reply":{"settled":"deliver"}}"#,
            r#"{"at":59,"call":"rx-look","journal":6,"lane":0,"line":4,"reply":{"hold":{"key":0,"peer":0}}}"#,
            r#"{"at":0,"id":10,"key":0,"lane":0,"line":2,"moment":0,"shard":0,"verdict":"accept"}"#,
            r#"{"at":29,"id":9,"key":0,"lane":0,"line":3,"moment":29,"shard":0,"verdict":"accept"}"#,
            r#"{"at":59,"id":8,"key":0,"lane":0,"line":4,"moment":59,"shard":0,"verdict":"below"}"#,
            PEER_ANSWER,
            KEY_ANSWER,
            r#"{"answer":{"delivered":{"packet":"4500001400000000401100000a0800050a080005","peer":5}},"lane":0,"line":2}"#,
            r#"{"answer":{"delivered":{"packet":"4500001400000000401100000a0800050a080005","peer":5}},"lane":0,"line":3}"#,
            r#"{"answer":{"dropped":"below"},"lane":0,"line":4}"#,
            r#"{"summary":{"accepted":2,"answers":5,"bad-tag":0,"delivered":2,"journal":7,"keys":1,"keys-differ":true,"notes":0,"peers":1,"refused":1,"released":0,"sealed":0}}"#,
        ],
    );
}

#[test]
fn a_key_at_its_last_id_sends_once_more_and_is_spent(rt: HostRuntime) {
    written(
        &rt,
        rt.alloc(),
        &["trace", "--first-id", "4294967295"],
        &[PEER5, KEY5, SEND5, SEND5, SEND5],
        &[
            PEER_MADE,
            KEY_MADE,
            r#"{"at":0,"call":"tx-look","journal":2,"lane":0,"line":2,"reply":{"hold":{"key":0,"peer":0}}}"#,
            r#"{"at":0,"call":"sent","journal":3,"lane":0,"line":2,"reply":{"ok":true}}"#,
            r#"{"at":0,"call":"tx-look","journal":4,"lane":0,"line":3,"reply":{"hold":{"key":0,"peer":0}}}"#,
            r#"{"at":0,"call":"spend","journal":5,"lane":0,"line":3,"reply":{"spend":"killed"}}"#,
            r#"{"at":0,"call":"key-released","journal":6,"lane":0,"line":3,"reply":{"key-released":0}}"#,
            r#"{"at":0,"call":"tx-look","journal":7,"lane":0,"line":4,"reply":{"none":"no-key"}}"#,
            PEER_ANSWER,
            KEY_ANSWER,
            r#"{"answer":{"sealed":{"datagram":"4a000005ffffffff12a605661f524bc8b2c541ce712859fd0db94b3ff95392059eed5bbaab25167008b92bc0","id":4294967295,"key":0,"to":{"addr":"192.0.2.1","port":1194}}},"lane":0,"line":2}"#,
            r#"{"answer":{"dropped":"spent"},"lane":0,"line":3}"#,
            r#"{"answer":{"dropped":"no-key"},"lane":0,"line":4}"#,
            r#"{"journal":5,"keyconf":{"key-id":2,"peer-id":5},"notify":"key-swap-ntf"}"#,
            r#"{"summary":{"accepted":0,"answers":5,"bad-tag":0,"delivered":0,"journal":8,"keys":1,"keys-differ":true,"notes":1,"peers":1,"refused":0,"released":0,"sealed":1}}"#,
        ],
    );
}
