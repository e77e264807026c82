//! Whole runs of ticks, of downs, and of peers that float.
//!
//! The digits of each datagram are those of AES-GCM in the Python package `cryptography`. The expected lines are
//! those of a model of the peer table in Python, written from the documents alone.

use crate::packet_tests::{
    GET5, KEY_ANSWER, KEY_MADE, KEY5, PEER_ANSWER, PEER_MADE, PEER5, ends_in, push_line, written,
};
use std::alloc::Global;
use std::process::Abort;

/// A second peer.
const PEER6: &str =
    r#"{"at":0,"do":"peer-new","lane":0,"peer":{"id":6,"remote-ipv4":"192.0.2.6","remote-port":1194,"vpn-ipv4":"10.8.0.6"}}"#;

/// The peer with id 5, which is sent a ping after 10 seconds and is removed after 30.
const ALIVE5: &str =
    r#"{"at":0,"do":"peer-new","lane":0,"peer":{"id":5,"keepalive-interval":10,"keepalive-timeout":30,"remote-ipv4":"192.0.2.1","remote-port":1194,"vpn-ipv4":"10.8.0.5"}}"#;

#[test]
fn a_packet_with_a_foreign_source_is_not_delivered_but_the_peer_floats(rt: HostRuntime) {
    written(
        &rt,
        rt.alloc(),
        &["trace"],
        &[
            PEER5,
            KEY5,
            PEER6,
            r#"{"at":0,"datagram":"4a000005000000012c167e77b0ab95767a3bf1adb5137201df16c4d59bf4324469214f1f6746362b3bf64896","do":"rx","from":{"addr":"192.0.2.9","port":1194},"lane":0}"#,
            GET5,
        ],
        &[
            PEER_MADE,
            KEY_MADE,
            r#"{"at":0,"call":"peer-new","journal":2,"lane":0,"line":2,"reply":{"serial":1}}"#,
            r#"{"at":0,"call":"rx-look","journal":3,"lane":0,"line":3,"reply":{"hold":{"key":0,"peer":0}}}"#,
            r#"{"at":0,"call":"settle","journal":4,"lane":0,"line":3,"reply":{"settled":"not-owner"}}"#,
            r#"{"at":0,"call":"peer-get","journal":5,"lane":0,"line":4,"reply":{"peer":{"id":5,"keepalive-interval":0,"keepalive-timeout":0,"link-rx-bytes":44,"link-rx-packets":1,"link-tx-bytes":0,"link-tx-packets":0,"remote-ipv4":"192.0.2.9","remote-port":1194,"vpn-ipv4":"10.8.0.5","vpn-rx-bytes":0,"vpn-rx-packets":0,"vpn-tx-bytes":0,"vpn-tx-packets":0}}}"#,
            r#"{"at":0,"id":1,"key":0,"lane":0,"line":3,"moment":0,"shard":0,"verdict":"accept"}"#,
            PEER_ANSWER,
            KEY_ANSWER,
            r#"{"answer":{"serial":1},"lane":0,"line":2}"#,
            r#"{"answer":{"dropped":"not-owner"},"lane":0,"line":3}"#,
            r#"{"answer":{"peer":{"id":5,"keepalive-interval":0,"keepalive-timeout":0,"link-rx-bytes":44,"link-rx-packets":1,"link-tx-bytes":0,"link-tx-packets":0,"remote-ipv4":"192.0.2.9","remote-port":1194,"vpn-ipv4":"10.8.0.5","vpn-rx-bytes":0,"vpn-rx-packets":0,"vpn-tx-bytes":0,"vpn-tx-packets":0}},"lane":0,"line":4}"#,
            r#"{"summary":{"accepted":1,"answers":5,"bad-tag":0,"delivered":0,"journal":6,"keys":1,"keys-differ":true,"notes":0,"peers":2,"refused":0,"released":0,"sealed":0}}"#,
        ],
    );
}

#[test]
fn a_peer_floats_to_a_free_transport_and_not_to_a_taken_one(rt: HostRuntime) {
    written(
        &rt,
        rt.alloc(),
        &["trace"],
        &[
            PEER5,
            KEY5,
            PEER6,
            r#"{"at":0,"datagram":"4a000005000000017e9fc3072f742aee04298af86db9f793df16c4d59bf4324469214f1f674636283bf64895","do":"rx","from":{"addr":"192.0.2.9","port":1194},"lane":0}"#,
            GET5,
            r#"{"at":0,"datagram":"4a00000500000002203711d9bb9ad5b13abb06b096629b7a130bd13776944d027058e3fe7d3f3906c25e521c","do":"rx","from":{"addr":"192.0.2.6","port":1194},"lane":0}"#,
            GET5,
        ],
        &[
            PEER_MADE,
            KEY_MADE,
            r#"{"at":0,"call":"peer-new","journal":2,"lane":0,"line":2,"reply":{"serial":1}}"#,
            r#"{"at":0,"call":"rx-look","journal":3,"lane":0,"line":3,"reply":{"hold":{"key":0,"peer":0}}}"#,
            r#"{"at":0,"call":"settle","journal":4,"lane":0,"line":3,"reply":{"settled":"deliver"}}"#,
            r#"{"at":0,"call":"peer-get","journal":5,"lane":0,"line":4,"reply":{"peer":{"id":5,"keepalive-interval":0,"keepalive-timeout":0,"link-rx-bytes":44,"link-rx-packets":1,"link-tx-bytes":0,"link-tx-packets":0,"remote-ipv4":"192.0.2.9","remote-port":1194,"vpn-ipv4":"10.8.0.5","vpn-rx-bytes":20,"vpn-rx-packets":1,"vpn-tx-bytes":0,"vpn-tx-packets":0}}}"#,
            r#"{"at":0,"call":"rx-look","journal":6,"lane":0,"line":5,"reply":{"hold":{"key":0,"peer":0}}}"#,
            r#"{"at":0,"call":"settle","journal":7,"lane":0,"line":5,"reply":{"settled":"deliver"}}"#,
            r#"{"at":0,"call":"peer-get","journal":8,"lane":0,"line":6,"reply":{"peer":{"id":5,"keepalive-interval":0,"keepalive-timeout":0,"link-rx-bytes":88,"link-rx-packets":2,"link-tx-bytes":0,"link-tx-packets":0,"remote-ipv4":"192.0.2.9","remote-port":1194,"vpn-ipv4":"10.8.0.5","vpn-rx-bytes":40,"vpn-rx-packets":2,"vpn-tx-bytes":0,"vpn-tx-packets":0}}}"#,
            r#"{"at":0,"id":1,"key":0,"lane":0,"line":3,"moment":0,"shard":0,"verdict":"accept"}"#,
            r#"{"at":0,"id":2,"key":0,"lane":0,"line":5,"moment":0,"shard":0,"verdict":"accept"}"#,
            PEER_ANSWER,
            KEY_ANSWER,
            r#"{"answer":{"serial":1},"lane":0,"line":2}"#,
            r#"{"answer":{"delivered":{"packet":"4500001400000000401100000a0800050a080006","peer":5}},"lane":0,"line":3}"#,
            r#"{"answer":{"peer":{"id":5,"keepalive-interval":0,"keepalive-timeout":0,"link-rx-bytes":44,"link-rx-packets":1,"link-tx-bytes":0,"link-tx-packets":0,"remote-ipv4":"192.0.2.9","remote-port":1194,"vpn-ipv4":"10.8.0.5","vpn-rx-bytes":20,"vpn-rx-packets":1,"vpn-tx-bytes":0,"vpn-tx-packets":0}},"lane":0,"line":4}"#,
            r#"{"answer":{"delivered":{"packet":"4500001400000000401100000a0800050a080006","peer":5}},"lane":0,"line":5}"#,
            r#"{"answer":{"peer":{"id":5,"keepalive-interval":0,"keepalive-timeout":0,"link-rx-bytes":88,"link-rx-packets":2,"link-tx-bytes":0,"link-tx-packets":0,"remote-ipv4":"192.0.2.9","remote-port":1194,"vpn-ipv4":"10.8.0.5","vpn-rx-bytes":40,"vpn-rx-packets":2,"vpn-tx-bytes":0,"vpn-tx-packets":0}},"lane":0,"line":6}"#,
            r#"{"summary":{"accepted":2,"answers":7,"bad-tag":0,"delivered":2,"journal":9,"keys":1,"keys-differ":true,"notes":0,"peers":2,"refused":0,"released":0,"sealed":0}}"#,
        ],
    );
}

#[test]
fn pings_are_sent_after_ten_seconds_and_the_silent_peer_expires(rt: HostRuntime) {
    written(
        &rt,
        rt.alloc(),
        &["trace"],
        &[
            ALIVE5,
            KEY5,
            r#"{"at":9,"do":"tick","lane":0}"#,
            r#"{"at":10,"do":"tick","lane":0}"#,
            r#"{"at":29,"do":"tick","lane":0}"#,
            r#"{"at":30,"do":"tick","lane":0}"#,
        ],
        &[
            PEER_MADE,
            KEY_MADE,
            r#"{"at":9,"call":"tick","journal":2,"lane":0,"line":2,"reply":{"due":[],"expired":[]}}"#,
            r#"{"at":10,"call":"tick","journal":3,"lane":0,"line":3,"reply":{"due":[0],"expired":[]}}"#,
            r#"{"at":10,"call":"keep-look","journal":4,"lane":0,"line":3,"reply":{"hold":{"key":0,"peer":0}}}"#,
            r#"{"at":10,"call":"sent","journal":5,"lane":0,"line":3,"reply":{"ok":true}}"#,
            r#"{"at":29,"call":"tick","journal":6,"lane":0,"line":4,"reply":{"due":[0],"expired":[]}}"#,
            r#"{"at":29,"call":"keep-look","journal":7,"lane":0,"line":4,"reply":{"hold":{"key":0,"peer":0}}}"#,
            r#"{"at":29,"call":"sent","journal":8,"lane":0,"line":4,"reply":{"ok":true}}"#,
            r#"{"at":30,"call":"tick","journal":9,"lane":0,"line":5,"reply":{"due":[],"expired":[0]}}"#,
            r#"{"at":30,"call":"key-released","journal":10,"lane":0,"line":5,"reply":{"key-released":0}}"#,
            r#"{"at":30,"call":"released","journal":11,"lane":0,"line":5,"reply":{"released":0}}"#,
            PEER_ANSWER,
            KEY_ANSWER,
            r#"{"answer":{"expired":[],"pings":[]},"lane":0,"line":2}"#,
            r#"{"answer":{"expired":[],"pings":[{"outcome":{"sealed":{"datagram":"4a00000500000001db6bc23a8fa986bed9ed6d0431feed7db00ebf32ffea868f2edd6215f551f165","id":1,"key":0,"to":{"addr":"192.0.2.1","port":1194}}},"peer":0}]},"lane":0,"line":3}"#,
            r#"{"answer":{"expired":[],"pings":[{"outcome":{"sealed":{"datagram":"4a00000500000002a35b90e16c583330cc52cc73878234ac7c13aad0128af9c937a4cef4ef28fe4b","id":2,"key":0,"to":{"addr":"192.0.2.1","port":1194}}},"peer":0}]},"lane":0,"line":4}"#,
            r#"{"answer":{"expired":[0],"pings":[]},"lane":0,"line":5}"#,
            r#"{"journal":9,"notify":"peer-del-ntf","peer":{"del-reason":"expired","id":5}}"#,
            r#"{"summary":{"accepted":0,"answers":6,"bad-tag":0,"delivered":0,"journal":12,"keys":1,"keys-differ":true,"notes":1,"peers":1,"refused":0,"released":1,"sealed":2}}"#,
        ],
    );
}

#[test]
fn due_peers_are_sent_pings_by_rising_id_and_a_peer_without_a_key_none(rt: HostRuntime) {
    written(
        &rt,
        rt.alloc(),
        &["trace"],
        &[
            r#"{"at":0,"do":"peer-new","lane":0,"peer":{"id":9,"keepalive-interval":10,"keepalive-timeout":0,"remote-ipv4":"192.0.2.9","remote-port":1194,"vpn-ipv4":"10.8.0.9"}}"#,
            r#"{"at":0,"do":"peer-new","lane":0,"peer":{"id":5,"keepalive-interval":10,"keepalive-timeout":60,"remote-ipv4":"192.0.2.5","remote-port":1194,"vpn-ipv4":"10.8.0.5"}}"#,
            r#"{"at":0,"do":"peer-new","lane":0,"peer":{"id":7,"keepalive-interval":10,"keepalive-timeout":10,"remote-ipv4":"192.0.2.7","remote-port":1194,"vpn-ipv4":"10.8.0.7"}}"#,
            r#"{"at":0,"do":"peer-new","lane":0,"peer":{"id":6,"keepalive-interval":10,"keepalive-timeout":0,"remote-ipv4":"192.0.2.6","remote-port":1194,"vpn-ipv4":"10.8.0.6"}}"#,
            r#"{"at":0,"do":"key-new","keyconf":{"cipher-alg":"aes-gcm","decrypt-dir":{"cipher-key":"000102030405060708090a0b0c0d0e0f","nonce-tail":"0001020304050607"},"encrypt-dir":{"cipher-key":"000102030405060708090a0b0c0d0e0f","nonce-tail":"0001020304050607"},"key-id":2,"peer-id":9,"slot":"primary"},"lane":0}"#,
            r#"{"at":0,"do":"key-new","keyconf":{"cipher-alg":"aes-gcm","decrypt-dir":{"cipher-key":"000102030405060708090a0b0c0d0e0f","nonce-tail":"0001020304050607"},"encrypt-dir":{"cipher-key":"000102030405060708090a0b0c0d0e0f","nonce-tail":"0001020304050607"},"key-id":3,"peer-id":5,"slot":"primary"},"lane":0}"#,
            r#"{"at":0,"do":"key-new","keyconf":{"cipher-alg":"aes-gcm","decrypt-dir":{"cipher-key":"000102030405060708090a0b0c0d0e0f","nonce-tail":"0001020304050607"},"encrypt-dir":{"cipher-key":"000102030405060708090a0b0c0d0e0f","nonce-tail":"0001020304050607"},"key-id":4,"peer-id":7,"slot":"primary"},"lane":0}"#,
            r#"{"at":10,"do":"tick","lane":0}"#,
            r#"{"at":10,"do":"tick","lane":0}"#,
        ],
        &[
            PEER_MADE,
            r#"{"at":0,"call":"peer-new","journal":1,"lane":0,"line":1,"reply":{"serial":1}}"#,
            r#"{"at":0,"call":"peer-new","journal":2,"lane":0,"line":2,"reply":{"serial":2}}"#,
            r#"{"at":0,"call":"peer-new","journal":3,"lane":0,"line":3,"reply":{"serial":3}}"#,
            r#"{"at":0,"call":"key-new","journal":4,"lane":0,"line":4,"reply":{"serial":0}}"#,
            r#"{"at":0,"call":"key-new","journal":5,"lane":0,"line":5,"reply":{"serial":1}}"#,
            r#"{"at":0,"call":"key-new","journal":6,"lane":0,"line":6,"reply":{"serial":2}}"#,
            r#"{"at":10,"call":"tick","journal":7,"lane":0,"line":7,"reply":{"due":[1,0],"expired":[2]}}"#,
            r#"{"at":10,"call":"key-released","journal":8,"lane":0,"line":7,"reply":{"key-released":2}}"#,
            r#"{"at":10,"call":"released","journal":9,"lane":0,"line":7,"reply":{"released":2}}"#,
            r#"{"at":10,"call":"keep-look","journal":10,"lane":0,"line":7,"reply":{"hold":{"key":1,"peer":1}}}"#,
            r#"{"at":10,"call":"sent","journal":11,"lane":0,"line":7,"reply":{"ok":true}}"#,
            r#"{"at":10,"call":"keep-look","journal":12,"lane":0,"line":7,"reply":{"hold":{"key":0,"peer":0}}}"#,
            r#"{"at":10,"call":"sent","journal":13,"lane":0,"line":7,"reply":{"ok":true}}"#,
            r#"{"at":10,"call":"tick","journal":14,"lane":0,"line":8,"reply":{"due":[],"expired":[]}}"#,
            PEER_ANSWER,
            r#"{"answer":{"serial":1},"lane":0,"line":1}"#,
            r#"{"answer":{"serial":2},"lane":0,"line":2}"#,
            r#"{"answer":{"serial":3},"lane":0,"line":3}"#,
            r#"{"answer":{"serial":0},"lane":0,"line":4}"#,
            r#"{"answer":{"serial":1},"lane":0,"line":5}"#,
            r#"{"answer":{"serial":2},"lane":0,"line":6}"#,
            r#"{"answer":{"expired":[2],"pings":[{"outcome":{"sealed":{"datagram":"4b00000500000001cab638d0ccd82384afcca5bfba7f45b9b00ebf32ffea868f2edd6215f551f165","id":1,"key":1,"to":{"addr":"192.0.2.5","port":1194}}},"peer":1},{"outcome":{"sealed":{"datagram":"4a00000900000001d792ec9317957da89250576db899df0fb00ebf32ffea868f2edd6215f551f165","id":1,"key":0,"to":{"addr":"192.0.2.9","port":1194}}},"peer":0}]},"lane":0,"line":7}"#,
            r#"{"answer":{"expired":[],"pings":[]},"lane":0,"line":8}"#,
            r#"{"journal":7,"notify":"peer-del-ntf","peer":{"del-reason":"expired","id":7}}"#,
            r#"{"summary":{"accepted":0,"answers":9,"bad-tag":0,"delivered":0,"journal":15,"keys":3,"keys-differ":false,"notes":1,"peers":4,"refused":0,"released":1,"sealed":2}}"#,
        ],
    );
}

#[test]
fn a_ping_with_no_packet_id_left_kills_its_key(rt: HostRuntime) {
    written(
        &rt,
        rt.alloc(),
        &["trace", "--first-id", "4294967295"],
        &[
            ALIVE5,
            KEY5,
            r#"{"at":10,"do":"tick","lane":0}"#,
            r#"{"at":20,"do":"tick","lane":0}"#,
        ],
        &[
            PEER_MADE,
            KEY_MADE,
            r#"{"at":10,"call":"tick","journal":2,"lane":0,"line":2,"reply":{"due":[0],"expired":[]}}"#,
            r#"{"at":10,"call":"keep-look","journal":3,"lane":0,"line":2,"reply":{"hold":{"key":0,"peer":0}}}"#,
            r#"{"at":10,"call":"sent","journal":4,"lane":0,"line":2,"reply":{"ok":true}}"#,
            r#"{"at":20,"call":"tick","journal":5,"lane":0,"line":3,"reply":{"due":[0],"expired":[]}}"#,
            r#"{"at":20,"call":"keep-look","journal":6,"lane":0,"line":3,"reply":{"hold":{"key":0,"peer":0}}}"#,
            r#"{"at":20,"call":"spend","journal":7,"lane":0,"line":3,"reply":{"spend":"killed"}}"#,
            r#"{"at":20,"call":"key-released","journal":8,"lane":0,"line":3,"reply":{"key-released":0}}"#,
            PEER_ANSWER,
            KEY_ANSWER,
            r#"{"answer":{"expired":[],"pings":[{"outcome":{"sealed":{"datagram":"4a000005ffffffffee8f6f725bc916edc48df10ce153279b62a130d89d4d26ced91176b03932d13d","id":4294967295,"key":0,"to":{"addr":"192.0.2.1","port":1194}}},"peer":0}]},"lane":0,"line":2}"#,
            r#"{"answer":{"expired":[],"pings":[{"outcome":{"dropped":"spent"},"peer":0}]},"lane":0,"line":3}"#,
            r#"{"journal":7,"keyconf":{"key-id":2,"peer-id":5},"notify":"key-swap-ntf"}"#,
            r#"{"summary":{"accepted":0,"answers":4,"bad-tag":0,"delivered":0,"journal":9,"keys":1,"keys-differ":true,"notes":1,"peers":1,"refused":0,"released":0,"sealed":1}}"#,
        ],
    );
}

#[test]
fn a_down_removes_all_peers_by_rising_id(rt: HostRuntime) {
    written(
        &rt,
        rt.alloc(),
        &["trace"],
        &[
            r#"{"at":0,"do":"peer-new","lane":0,"peer":{"id":9,"remote-ipv4":"192.0.2.9","remote-port":1194,"vpn-ipv4":"10.8.0.9"}}"#,
            r#"{"at":0,"do":"peer-new","lane":0,"peer":{"id":5,"remote-ipv4":"192.0.2.5","remote-port":1194,"vpn-ipv4":"10.8.0.5"}}"#,
            r#"{"at":0,"do":"peer-new","lane":0,"peer":{"id":7,"remote-ipv4":"192.0.2.7","remote-port":1194,"vpn-ipv4":"10.8.0.7"}}"#,
            r#"{"at":0,"do":"key-new","keyconf":{"cipher-alg":"aes-gcm","decrypt-dir":{"cipher-key":"000102030405060708090a0b0c0d0e0f","nonce-tail":"0001020304050607"},"encrypt-dir":{"cipher-key":"000102030405060708090a0b0c0d0e0f","nonce-tail":"0001020304050607"},"key-id":2,"peer-id":9,"slot":"primary"},"lane":0}"#,
            r#"{"at":0,"do":"key-new","keyconf":{"cipher-alg":"aes-gcm","decrypt-dir":{"cipher-key":"000102030405060708090a0b0c0d0e0f","nonce-tail":"0001020304050607"},"encrypt-dir":{"cipher-key":"000102030405060708090a0b0c0d0e0f","nonce-tail":"0001020304050607"},"key-id":3,"peer-id":5,"slot":"primary"},"lane":0}"#,
            r#"{"at":0,"do":"key-new","keyconf":{"cipher-alg":"aes-gcm","decrypt-dir":{"cipher-key":"000102030405060708090a0b0c0d0e0f","nonce-tail":"0001020304050607"},"encrypt-dir":{"cipher-key":"000102030405060708090a0b0c0d0e0f","nonce-tail":"0001020304050607"},"key-id":4,"peer-id":5,"slot":"secondary"},"lane":0}"#,
            r#"{"at":4,"do":"down","lane":0}"#,
            r#"{"at":5,"do":"down","lane":0}"#,
            r#"{"at":0,"do":"peer-new","lane":0,"peer":{"id":5,"remote-ipv4":"192.0.2.5","remote-port":1194,"vpn-ipv4":"10.8.0.5"}}"#,
            GET5,
        ],
        &[
            PEER_MADE,
            r#"{"at":0,"call":"peer-new","journal":1,"lane":0,"line":1,"reply":{"serial":1}}"#,
            r#"{"at":0,"call":"peer-new","journal":2,"lane":0,"line":2,"reply":{"serial":2}}"#,
            r#"{"at":0,"call":"key-new","journal":3,"lane":0,"line":3,"reply":{"serial":0}}"#,
            r#"{"at":0,"call":"key-new","journal":4,"lane":0,"line":4,"reply":{"serial":1}}"#,
            r#"{"at":0,"call":"key-new","journal":5,"lane":0,"line":5,"reply":{"serial":2}}"#,
            r#"{"at":4,"call":"down","journal":6,"lane":0,"line":6,"reply":{"removed":[1,2,0]}}"#,
            r#"{"at":4,"call":"key-released","journal":7,"lane":0,"line":6,"reply":{"key-released":1}}"#,
            r#"{"at":4,"call":"key-released","journal":8,"lane":0,"line":6,"reply":{"key-released":2}}"#,
            r#"{"at":4,"call":"key-released","journal":9,"lane":0,"line":6,"reply":{"key-released":0}}"#,
            r#"{"at":4,"call":"released","journal":10,"lane":0,"line":6,"reply":{"released":1}}"#,
            r#"{"at":4,"call":"released","journal":11,"lane":0,"line":6,"reply":{"released":2}}"#,
            r#"{"at":4,"call":"released","journal":12,"lane":0,"line":6,"reply":{"released":0}}"#,
            r#"{"at":5,"call":"down","journal":13,"lane":0,"line":7,"reply":{"removed":[]}}"#,
            r#"{"at":0,"call":"peer-new","journal":14,"lane":0,"line":8,"reply":{"serial":3}}"#,
            r#"{"at":0,"call":"peer-get","journal":15,"lane":0,"line":9,"reply":{"peer":{"id":5,"keepalive-interval":0,"keepalive-timeout":0,"link-rx-bytes":0,"link-rx-packets":0,"link-tx-bytes":0,"link-tx-packets":0,"remote-ipv4":"192.0.2.5","remote-port":1194,"vpn-ipv4":"10.8.0.5","vpn-rx-bytes":0,"vpn-rx-packets":0,"vpn-tx-bytes":0,"vpn-tx-packets":0}}}"#,
            PEER_ANSWER,
            r#"{"answer":{"serial":1},"lane":0,"line":1}"#,
            r#"{"answer":{"serial":2},"lane":0,"line":2}"#,
            r#"{"answer":{"serial":0},"lane":0,"line":3}"#,
            r#"{"answer":{"serial":1},"lane":0,"line":4}"#,
            r#"{"answer":{"serial":2},"lane":0,"line":5}"#,
            r#"{"answer":{"removed":[1,2,0]},"lane":0,"line":6}"#,
            r#"{"answer":{"removed":[]},"lane":0,"line":7}"#,
            r#"{"answer":{"serial":3},"lane":0,"line":8}"#,
            r#"{"answer":{"peer":{"id":5,"keepalive-interval":0,"keepalive-timeout":0,"link-rx-bytes":0,"link-rx-packets":0,"link-tx-bytes":0,"link-tx-packets":0,"remote-ipv4":"192.0.2.5","remote-port":1194,"vpn-ipv4":"10.8.0.5","vpn-rx-bytes":0,"vpn-rx-packets":0,"vpn-tx-bytes":0,"vpn-tx-packets":0}},"lane":0,"line":9}"#,
            r#"{"journal":6,"notify":"peer-del-ntf","peer":{"del-reason":"teardown","id":5}}"#,
            r#"{"journal":6,"notify":"peer-del-ntf","peer":{"del-reason":"teardown","id":7}}"#,
            r#"{"journal":6,"notify":"peer-del-ntf","peer":{"del-reason":"teardown","id":9}}"#,
            r#"{"summary":{"accepted":0,"answers":10,"bad-tag":0,"delivered":0,"journal":16,"keys":3,"keys-differ":false,"notes":3,"peers":4,"refused":0,"released":3,"sealed":0}}"#,
        ],
    );
}

/// A client joins.
const NEW: &str =
    r##"{"at":0,"do":"peer-new","lane":@,"peer":{"id":#,"remote-ipv4":"192.0.2.#","remote-port":1194,"vpn-ipv4":"10.8.0.#","vpn-ipv6":"fd00000000000000000000000000000#"}}"##;

/// Its first key.
const PRIMARY: &str =
    r##"{"at":0,"do":"key-new","keyconf":{"cipher-alg":"aes-gcm","decrypt-dir":{"cipher-key":"00000000000000000000000000000#00","nonce-tail":"0000000000000000"},"encrypt-dir":{"cipher-key":"00000000000000000000000000000#00","nonce-tail":"0000000000000000"},"key-id":0,"peer-id":#,"slot":"primary"},"lane":@}"##;

/// Its second key.
const SECONDARY: &str =
    r##"{"at":0,"do":"key-new","keyconf":{"cipher-alg":"aes-gcm","decrypt-dir":{"cipher-key":"00000000000000000000000000000#01","nonce-tail":"0000000000000000"},"encrypt-dir":{"cipher-key":"00000000000000000000000000000#01","nonce-tail":"0000000000000000"},"key-id":1,"peer-id":#,"slot":"secondary"},"lane":@}"##;

/// A packet of 20 bytes from and to the client's IPv4 address.
const SEND4: &str =
    r##"{"at":0,"do":"tx","lane":@,"packet":"4500001400000000401100000a08000#0a08000#"}"##;

/// The second key seals from now on.
const SWAP: &str = r##"{"at":0,"do":"key-swap","keyconf":{"peer-id":#},"lane":@}"##;

/// A packet of 40 bytes from and to its IPv6 address.
const SEND6: &str =
    r##"{"at":0,"do":"tx","lane":@,"packet":"6000000000001140fd00000000000000000000000000000#fd00000000000000000000000000000#"}"##;

/// The first key goes.
const DELETE: &str =
    r##"{"at":0,"do":"key-del","keyconf":{"peer-id":#,"slot":"secondary"},"lane":@}"##;

/// The first datagram of each client, received from its remote address. Its key is in the secondary slot by then.
const RECEIVED: [&str; 8] = [
    r#"{"at":0,"datagram":"480000010000000170e276abf1aa3671ab4672e7ae7e33ef22af3aa7e1b92842ff429675d7ba4810f873c229","do":"rx","from":{"addr":"192.0.2.1","port":1194},"lane":1}"#,
    r#"{"at":0,"datagram":"4800000200000001a8be9b2f6fdc0a670c963da4e319762bf2be1ffbfb0d5aa7f9799ac9e9f0896ad3c8d38a","do":"rx","from":{"addr":"192.0.2.2","port":1194},"lane":2}"#,
    r#"{"at":0,"datagram":"4800000300000001fabe0cc9fbee07a33a534464727260256ef37f36d61c36ee2511ac2f48dd51200d6f6687","do":"rx","from":{"addr":"192.0.2.3","port":1194},"lane":3}"#,
    r#"{"at":0,"datagram":"4800000400000001c3481c6b28e5f9150bf681e5d3e66e7d600eeb2c0fbcc6eccc304703ebd35813232d49a1","do":"rx","from":{"addr":"192.0.2.4","port":1194},"lane":0}"#,
    r#"{"at":0,"datagram":"48000005000000012f5eef380955854485ad99b7c6d85c1d4ff2256b3afefccf28b4a2edfef57c33c004834a","do":"rx","from":{"addr":"192.0.2.5","port":1194},"lane":1}"#,
    r#"{"at":0,"datagram":"4800000600000001b0c8178a37de64d418410359119065d7773d2fd575c665b572906f79fc9bca55387dc2e9","do":"rx","from":{"addr":"192.0.2.6","port":1194},"lane":2}"#,
    r#"{"at":0,"datagram":"4800000700000001f5e1a14123b63e5741572756035c228598b9a7e8d57045d5a24d9555de73830a650529f2","do":"rx","from":{"addr":"192.0.2.7","port":1194},"lane":3}"#,
    r#"{"at":0,"datagram":"48000008000000013dc19948b773e0fbd4ee97bb06d7b27a065e1940ec7a30054d161df204f56eacc59d2fc5","do":"rx","from":{"addr":"192.0.2.8","port":1194},"lane":0}"#,
];

/// Appends the line for the client of this id: `#` stands for the id, and `@` for its lane, which is the remainder by 4.
fn push_for(rt: &impl Abort, script: &mut Vec<u8>, line: &[u8], id: u8) {
    for byte in line {
        let put = match *byte {
            b'#' => b'0' + id % 10,
            b'@' => b'0' + id % 4,
            other => other,
        };
        assert!(rt; script.push(put).is_ok());
    }
    assert!(rt; script.push(b'\n').is_ok());
}

/// Appends the line for each client from 1 to 8.
fn push_for_all(rt: &impl Abort, script: &mut Vec<u8>, line: &str) {
    for id in 1..=8_u8 {
        push_for(rt, script, line.as_bytes(), id);
    }
}

/// The script of the session: each phase for all clients in turn, and at last all of them are removed.
fn session(rt: &impl Abort, alloc: Global) -> Vec<u8> {
    let mut script = Vec::new(alloc);
    for line in [NEW, PRIMARY, SECONDARY, SEND4, SWAP, SEND6] {
        push_for_all(rt, &mut script, line);
    }
    for line in RECEIVED {
        push_line(rt, &mut script, line);
    }
    push_for_all(rt, &mut script, DELETE);
    push_line(rt, &mut script, DOWN);
    script
}

/// The device goes down.
const DOWN: &str = r#"{"at":0,"do":"down","lane":0}"#;

#[test]
fn a_server_session_of_eight_peers_on_four_lanes(rt: HostRuntime) {
    let script = session(&rt, rt.alloc());
    ends_in(
        &rt,
        rt.alloc(),
        script.as_slice(),
        &[
            r#"{"journal":96,"notify":"peer-del-ntf","peer":{"del-reason":"teardown","id":1}}"#,
            r#"{"journal":96,"notify":"peer-del-ntf","peer":{"del-reason":"teardown","id":2}}"#,
            r#"{"journal":96,"notify":"peer-del-ntf","peer":{"del-reason":"teardown","id":3}}"#,
            r#"{"journal":96,"notify":"peer-del-ntf","peer":{"del-reason":"teardown","id":4}}"#,
            r#"{"journal":96,"notify":"peer-del-ntf","peer":{"del-reason":"teardown","id":5}}"#,
            r#"{"journal":96,"notify":"peer-del-ntf","peer":{"del-reason":"teardown","id":6}}"#,
            r#"{"journal":96,"notify":"peer-del-ntf","peer":{"del-reason":"teardown","id":7}}"#,
            r#"{"journal":96,"notify":"peer-del-ntf","peer":{"del-reason":"teardown","id":8}}"#,
            r#"{"summary":{"accepted":8,"answers":65,"bad-tag":0,"delivered":8,"journal":113,"keys":16,"keys-differ":true,"notes":8,"peers":8,"refused":0,"released":8,"sealed":16}}"#,
        ],
    );
}
