//! Whole runs of the commands of the family, of lost transports and of what is refused.
//!
//! The expected lines are written by hand. Datagrams are those of AES-GCM in the Python package `cryptography`.

use crate::ended::Cause;
use crate::packet_tests::{
    KEY_ANSWER, KEY_MADE, KEY5, PEER_ANSWER, PEER_MADE, PEER5, RECEIVE5, SEND5, ends_in, text,
    written,
};
use crate::tests::{ends_by, spaced};
use itoa::Buffer;
use ov_script::Limit;
use std::process::Abort;

/// All peers are asked for.
const DUMP: &str = r#"{"at":0,"do":"peer-dump","lane":0}"#;

#[test]
fn a_taken_vpn_address_is_refused_and_a_dump_shows_the_one_peer(rt: HostRuntime) {
    written(
        &rt,
        rt.alloc(),
        &["trace"],
        &[
            PEER5,
            r#"{"at":0,"do":"peer-new","lane":0,"peer":{"id":6,"remote-ipv4":"192.0.2.2","remote-port":1194,"vpn-ipv4":"10.8.0.5"}}"#,
            DUMP,
        ],
        &[
            PEER_MADE,
            r#"{"at":0,"call":"peer-new","journal":1,"lane":0,"line":1,"reply":{"error":17}}"#,
            r#"{"at":0,"call":"peer-dump","journal":2,"lane":0,"line":2,"reply":{"peers":[{"id":5,"keepalive-interval":0,"keepalive-timeout":0,"link-rx-bytes":0,"link-rx-packets":0,"link-tx-bytes":0,"link-tx-packets":0,"remote-ipv4":"192.0.2.1","remote-port":1194,"vpn-ipv4":"10.8.0.5","vpn-rx-bytes":0,"vpn-rx-packets":0,"vpn-tx-bytes":0,"vpn-tx-packets":0}]}}"#,
            PEER_ANSWER,
            r#"{"answer":{"error":17},"lane":0,"line":1}"#,
            r#"{"answer":{"peers":[{"id":5,"keepalive-interval":0,"keepalive-timeout":0,"link-rx-bytes":0,"link-rx-packets":0,"link-tx-bytes":0,"link-tx-packets":0,"remote-ipv4":"192.0.2.1","remote-port":1194,"vpn-ipv4":"10.8.0.5","vpn-rx-bytes":0,"vpn-rx-packets":0,"vpn-tx-bytes":0,"vpn-tx-packets":0}]},"lane":0,"line":2}"#,
            r#"{"summary":{"accepted":0,"answers":3,"bad-tag":0,"delivered":0,"journal":3,"keys":0,"keys-differ":true,"notes":0,"peers":1,"refused":0,"released":0,"sealed":0}}"#,
        ],
    );
}

#[test]
fn a_dump_shows_the_peers_by_rising_id_as_they_were_set(rt: HostRuntime) {
    written(
        &rt,
        rt.alloc(),
        &["trace"],
        &[
            r#"{"at":0,"do":"peer-new","lane":0,"peer":{"id":9,"remote-ipv6":"FD0000000000000000000000000000AB","remote-ipv6-scope-id":0,"remote-port":65535,"socket":3,"socket-netnsid":1,"vpn-ipv6":"fd000000000000000000000000000009"}}"#,
            r#"{"at":0,"do":"peer-new","ifindex":7,"lane":0,"peer":{"id":5,"local-ipv4":"192.0.2.100","local-port":1194,"remote-ipv4":"192.0.2.1","remote-port":1194,"vpn-ipv4":"10.8.0.5"}}"#,
            r#"{"at":3,"do":"peer-set","lane":0,"peer":{"id":5,"keepalive-interval":10,"keepalive-timeout":60,"remote-ipv4":"192.0.2.7","remote-port":1195,"vpn-ipv6":"fd000000000000000000000000000005"}}"#,
            r#"{"at":3,"do":"peer-set","lane":0,"peer":{"id":9,"vpn-ipv4":"10.8.0.5"}}"#,
            r#"{"at":3,"do":"peer-set","lane":0,"peer":{"id":8}}"#,
            DUMP,
        ],
        &[
            r#"{"at":0,"call":"peer-new","journal":0,"lane":0,"line":0,"reply":{"serial":0}}"#,
            r#"{"at":0,"call":"peer-new","journal":1,"lane":0,"line":1,"reply":{"serial":1}}"#,
            r#"{"at":3,"call":"peer-set","journal":2,"lane":0,"line":2,"reply":{"ok":true}}"#,
            r#"{"at":3,"call":"peer-set","journal":3,"lane":0,"line":3,"reply":{"error":17}}"#,
            r#"{"at":3,"call":"peer-set","journal":4,"lane":0,"line":4,"reply":{"error":2}}"#,
            r#"{"at":0,"call":"peer-dump","journal":5,"lane":0,"line":5,"reply":{"peers":[{"id":5,"keepalive-interval":10,"keepalive-timeout":60,"link-rx-bytes":0,"link-rx-packets":0,"link-tx-bytes":0,"link-tx-packets":0,"remote-ipv4":"192.0.2.7","remote-port":1195,"vpn-ipv4":"10.8.0.5","vpn-ipv6":"fd000000000000000000000000000005","vpn-rx-bytes":0,"vpn-rx-packets":0,"vpn-tx-bytes":0,"vpn-tx-packets":0},{"id":9,"keepalive-interval":0,"keepalive-timeout":0,"link-rx-bytes":0,"link-rx-packets":0,"link-tx-bytes":0,"link-tx-packets":0,"remote-ipv6":"fd0000000000000000000000000000ab","remote-port":65535,"vpn-ipv6":"fd000000000000000000000000000009","vpn-rx-bytes":0,"vpn-rx-packets":0,"vpn-tx-bytes":0,"vpn-tx-packets":0}]}}"#,
            r#"{"answer":{"serial":0},"lane":0,"line":0}"#,
            r#"{"answer":{"serial":1},"lane":0,"line":1}"#,
            r#"{"answer":{"ok":true},"lane":0,"line":2}"#,
            r#"{"answer":{"error":17},"lane":0,"line":3}"#,
            r#"{"answer":{"error":2},"lane":0,"line":4}"#,
            r#"{"answer":{"peers":[{"id":5,"keepalive-interval":10,"keepalive-timeout":60,"link-rx-bytes":0,"link-rx-packets":0,"link-tx-bytes":0,"link-tx-packets":0,"remote-ipv4":"192.0.2.7","remote-port":1195,"vpn-ipv4":"10.8.0.5","vpn-ipv6":"fd000000000000000000000000000005","vpn-rx-bytes":0,"vpn-rx-packets":0,"vpn-tx-bytes":0,"vpn-tx-packets":0},{"id":9,"keepalive-interval":0,"keepalive-timeout":0,"link-rx-bytes":0,"link-rx-packets":0,"link-tx-bytes":0,"link-tx-packets":0,"remote-ipv6":"fd0000000000000000000000000000ab","remote-port":65535,"vpn-ipv6":"fd000000000000000000000000000009","vpn-rx-bytes":0,"vpn-rx-packets":0,"vpn-tx-bytes":0,"vpn-tx-packets":0}]},"lane":0,"line":5}"#,
            r#"{"summary":{"accepted":0,"answers":6,"bad-tag":0,"delivered":0,"journal":6,"keys":0,"keys-differ":true,"notes":0,"peers":2,"refused":0,"released":0,"sealed":0}}"#,
        ],
    );
}

#[test]
fn the_greatest_peer_id_has_24_bits(rt: HostRuntime) {
    written(
        &rt,
        rt.alloc(),
        &["trace"],
        &[
            r#"{"at":0,"do":"peer-new","lane":0,"peer":{"id":16777215,"remote-ipv4":"192.0.2.1","remote-port":1194,"vpn-ipv4":"10.8.0.5"}}"#,
            r#"{"at":0,"do":"peer-new","lane":0,"peer":{"id":16777216,"remote-ipv4":"192.0.2.2","remote-port":1194,"vpn-ipv4":"10.8.0.6"}}"#,
        ],
        &[
            PEER_MADE,
            PEER_ANSWER,
            r#"{"answer":{"error":22},"lane":0,"line":1}"#,
            r#"{"summary":{"accepted":0,"answers":2,"bad-tag":0,"delivered":0,"journal":1,"keys":0,"keys-differ":true,"notes":0,"peers":1,"refused":0,"released":0,"sealed":0}}"#,
        ],
    );
}

#[test]
fn a_refused_new_key_makes_no_entry(rt: HostRuntime) {
    written(
        &rt,
        rt.alloc(),
        &["trace"],
        &[
            PEER5,
            r#"{"at":0,"do":"key-new","keyconf":{"cipher-alg":"chacha20-poly1305","decrypt-dir":{"cipher-key":"000102030405060708090a0b0c0d0e0f","nonce-tail":"0001020304050607"},"encrypt-dir":{"cipher-key":"000102030405060708090a0b0c0d0e0f","nonce-tail":"0001020304050607"},"key-id":2,"peer-id":5,"slot":"primary"},"lane":0}"#,
            r#"{"at":0,"do":"key-new","keyconf":{"cipher-alg":"aes-gcm","decrypt-dir":{"cipher-key":"000102030405060708090a0b0c0d0e0f","nonce-tail":"0001020304050607"},"encrypt-dir":{"cipher-key":"000102030405060708090a0b0c0d0e0f10","nonce-tail":"0001020304050607"},"key-id":2,"peer-id":5,"slot":"primary"},"lane":0}"#,
            r#"{"at":0,"do":"key-new","keyconf":{"cipher-alg":"none","decrypt-dir":{"cipher-key":"000102030405060708090a0b0c0d0e0f","nonce-tail":"0001020304050607"},"encrypt-dir":{"cipher-key":"000102030405060708090a0b0c0d0e0f","nonce-tail":"0001020304050607"},"key-id":2,"peer-id":5,"slot":"primary"},"lane":0}"#,
            r#"{"at":0,"do":"key-get","keyconf":{"peer-id":5,"slot":"primary"},"lane":0}"#,
        ],
        &[
            PEER_MADE,
            r#"{"at":0,"call":"key-get","journal":1,"lane":0,"line":4,"reply":{"error":2}}"#,
            PEER_ANSWER,
            r#"{"answer":{"error":95},"lane":0,"line":1}"#,
            r#"{"answer":{"error":22},"lane":0,"line":2}"#,
            r#"{"answer":{"error":95},"lane":0,"line":3}"#,
            r#"{"answer":{"error":2},"lane":0,"line":4}"#,
            r#"{"summary":{"accepted":0,"answers":5,"bad-tag":0,"delivered":0,"journal":2,"keys":0,"keys-differ":true,"notes":0,"peers":1,"refused":0,"released":0,"sealed":0}}"#,
        ],
    );
}

#[test]
fn a_swap_empties_the_primary_slot(rt: HostRuntime) {
    written(
        &rt,
        rt.alloc(),
        &["trace"],
        &[
            PEER5,
            KEY5,
            r#"{"at":0,"do":"key-swap","keyconf":{"peer-id":5},"lane":0}"#,
            SEND5,
            r#"{"at":0,"do":"key-get","keyconf":{"peer-id":5,"slot":"secondary"},"lane":0}"#,
        ],
        &[
            PEER_MADE,
            KEY_MADE,
            r#"{"at":0,"call":"key-swap","journal":2,"lane":0,"line":2,"reply":{"ok":true}}"#,
            r#"{"at":0,"call":"tx-look","journal":3,"lane":0,"line":3,"reply":{"none":"no-key"}}"#,
            r#"{"at":0,"call":"key-get","journal":4,"lane":0,"line":4,"reply":{"key":{"cipher-alg":"aes-gcm","key-id":2,"peer-id":5,"slot":"secondary"}}}"#,
            PEER_ANSWER,
            KEY_ANSWER,
            r#"{"answer":{"ok":true},"lane":0,"line":2}"#,
            r#"{"answer":{"dropped":"no-key"},"lane":0,"line":3}"#,
            r#"{"answer":{"key":{"cipher-alg":"aes-gcm","key-id":2,"peer-id":5,"slot":"secondary"}},"lane":0,"line":4}"#,
            r#"{"summary":{"accepted":0,"answers":5,"bad-tag":0,"delivered":0,"journal":5,"keys":1,"keys-differ":true,"notes":0,"peers":1,"refused":0,"released":0,"sealed":0}}"#,
        ],
    );
}

#[test]
fn a_lost_transport_removes_its_peer_with_the_reason(rt: HostRuntime) {
    written(
        &rt,
        rt.alloc(),
        &["trace"],
        &[
            PEER5,
            r#"{"at":1,"do":"lost","lane":0,"peer":{"del-reason":"transport-error","id":5}}"#,
            r#"{"at":2,"do":"lost","lane":0,"peer":{"del-reason":"transport-disconnect","id":5}}"#,
        ],
        &[
            PEER_MADE,
            r#"{"at":1,"call":"remove","journal":1,"lane":0,"line":1,"reply":{"removed":[0]}}"#,
            r#"{"at":1,"call":"released","journal":2,"lane":0,"line":1,"reply":{"released":0}}"#,
            r#"{"at":2,"call":"remove","journal":3,"lane":0,"line":2,"reply":{"error":2}}"#,
            PEER_ANSWER,
            r#"{"answer":{"removed":[0]},"lane":0,"line":1}"#,
            r#"{"answer":{"error":2},"lane":0,"line":2}"#,
            r#"{"journal":1,"notify":"peer-del-ntf","peer":{"del-reason":"transport-error","id":5}}"#,
            r#"{"summary":{"accepted":0,"answers":3,"bad-tag":0,"delivered":0,"journal":4,"keys":0,"keys-differ":true,"notes":1,"peers":1,"refused":0,"released":1,"sealed":0}}"#,
        ],
    );
}

#[test]
fn a_deleted_key_that_is_still_held_is_released_by_the_receipt(rt: HostRuntime) {
    written(
        &rt,
        rt.alloc(),
        &["steps", "--schedule", "0,0,0,1"],
        &[
            PEER5,
            KEY5,
            RECEIVE5,
            r#"{"at":0,"do":"key-del","keyconf":{"peer-id":5,"slot":"primary"},"lane":1}"#,
        ],
        &[
            PEER_MADE,
            KEY_MADE,
            r#"{"at":0,"call":"rx-look","journal":2,"lane":0,"line":2,"reply":{"hold":{"key":0,"peer":0}}}"#,
            r#"{"at":0,"call":"key-del","journal":3,"lane":1,"line":0,"reply":{"ok":true}}"#,
            r#"{"at":0,"call":"settle","journal":4,"lane":0,"line":2,"reply":{"settled":"deliver"}}"#,
            r#"{"at":0,"call":"key-released","journal":5,"lane":0,"line":2,"reply":{"key-released":0}}"#,
            r#"{"at":0,"id":1,"key":0,"lane":0,"line":2,"moment":0,"shard":0,"verdict":"accept"}"#,
            PEER_ANSWER,
            KEY_ANSWER,
            r#"{"answer":{"delivered":{"packet":"4500001400000000401100000a0800050a080005","peer":5}},"lane":0,"line":2}"#,
            r#"{"answer":{"ok":true},"lane":1,"line":0}"#,
            r#"{"summary":{"accepted":1,"answers":4,"bad-tag":0,"delivered":1,"journal":6,"keys":1,"keys-differ":true,"notes":0,"peers":1,"refused":0,"released":0,"sealed":0}}"#,
        ],
    );
}

/// Appends this text.
fn push_text(rt: &impl Abort, script: &mut Vec<u8>, text: &str) {
    assert!(rt; script.extend_from_slice(text.as_bytes()).is_ok());
}

/// Appends this number in decimal digits.
fn push_number(rt: &impl Abort, script: &mut Vec<u8>, number: u32) {
    let mut digits = Buffer::new();
    push_text(rt, script, digits.format(number));
}

/// Appends the line of a peer whose id, VPN address and remote are its number's.
fn push_peer(rt: &impl Abort, script: &mut Vec<u8>, number: u32) {
    let (high, low) = (number / 256, number % 256);
    push_text(
        rt,
        script,
        r#"{"at":0,"do":"peer-new","lane":0,"peer":{"id":"#,
    );
    push_number(rt, script, number);
    push_text(rt, script, r#","remote-ipv4":"192.168."#);
    push_number(rt, script, high);
    push_text(rt, script, ".");
    push_number(rt, script, low);
    push_text(rt, script, r#"","remote-port":1194,"vpn-ipv4":"10.8."#);
    push_number(rt, script, high);
    push_text(rt, script, ".");
    push_number(rt, script, low);
    push_text(rt, script, "\"}}\n");
}

#[test]
fn no_peer_past_the_limit_is_made(rt: HostRuntime) {
    let mut script = Vec::new(rt.alloc());
    for number in 0..4097_u32 {
        push_peer(&rt, &mut script, number);
    }
    ends_in(
        &rt,
        rt.alloc(),
        script.as_slice(),
        &[
            r#"{"answer":{"serial":4095},"lane":0,"line":4095}"#,
            r#"{"answer":{"error":28},"lane":0,"line":4096}"#,
            r#"{"summary":{"accepted":0,"answers":4097,"bad-tag":0,"delivered":0,"journal":4097,"keys":0,"keys-differ":true,"notes":0,"peers":4096,"refused":0,"released":0,"sealed":0}}"#,
        ],
    );
}

#[test]
fn a_bad_third_line_and_an_overlong_line_run_nothing(rt: HostRuntime) {
    let alloc = rt.alloc();
    let script = text(&rt, alloc, &[PEER5, KEY5, "{"]);
    ends_by(&rt, alloc, script.as_slice(), Cause::BadLine(3));
    let long = spaced(&rt, alloc, b"", 262_145);
    ends_by(&rt, alloc, long.as_slice(), Cause::Limit(Limit::LineBytes));
}
