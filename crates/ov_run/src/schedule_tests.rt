//! Whole runs by a schedule, on two and three lanes.
//!
//! The journals were worked by hand. A lane's turn makes its next event: the look-up; then the draw of a packet id
//! or the replay step; then the entry that counts; then it gives back the key, and the peer. Behind a give-back that
//! was the last of a key or peer on its way out the release has a turn of its own. A line is over with its last
//! event. Draws, replay steps and give-backs make no entry. Behind the schedule the lanes run to their end by number.
//! Datagrams are those of AES-GCM in the Python package `cryptography`.

ghost use Rattle.std.specs.Prelude.{◌<◌};
ghost use Rattle.std.specs.List.{AllByRecursion};
ghost use Rattle.ov_model.specs.Sizes.{Fits};

use crate::packet_tests::{
    GET5, KEY_ANSWER, KEY_MADE, KEY5, PEER_ANSWER, PEER_MADE, PEER5, RECEIVE5, SEND5, text, written,
};
use ov_base::{ListOf, MemorySink, MemorySource, Octets};
use ov_core::run_schedule;
use ov_model::{Report, Script};
use ov_report::print_report;
use ov_script::read_script;
use std::alloc::Global;
use std::process::Abort;
use std::sync::Wait;
use std::thread::Threads;

/// The peer, made by lane 1.
const PEER5_ON_1: &str =
    r#"{"at":0,"do":"peer-new","lane":1,"peer":{"id":5,"remote-ipv4":"192.0.2.1","remote-port":1194,"vpn-ipv4":"10.8.0.5"}}"#;

/// Its key, made by lane 1.
const KEY5_ON_1: &str =
    r#"{"at":0,"do":"key-new","keyconf":{"cipher-alg":"aes-gcm","decrypt-dir":{"cipher-key":"000102030405060708090a0b0c0d0e0f","nonce-tail":"0001020304050607"},"encrypt-dir":{"cipher-key":"000102030405060708090a0b0c0d0e0f","nonce-tail":"0001020304050607"},"key-id":2,"peer-id":5,"slot":"primary"},"lane":1}"#;

/// Another key in its primary slot, made by lane 2.
const OTHER_KEY5_ON_2: &str =
    r#"{"at":0,"do":"key-new","keyconf":{"cipher-alg":"aes-gcm","decrypt-dir":{"cipher-key":"000102030405060708090a0b0c0d0e0f","nonce-tail":"0001020304050607"},"encrypt-dir":{"cipher-key":"000102030405060708090a0b0c0d0e0f","nonce-tail":"0001020304050607"},"key-id":3,"peer-id":5,"slot":"primary"},"lane":2}"#;

/// The inner packet on lane 1.
const SEND5_ON_1: &str =
    r#"{"at":0,"do":"tx","lane":1,"packet":"4500001400000000401100000a0800050a080005"}"#;

/// The inner packet on lane 2.
const SEND5_ON_2: &str =
    r#"{"at":0,"do":"tx","lane":2,"packet":"4500001400000000401100000a0800050a080005"}"#;

/// The first datagram on lane 1.
const RECEIVE5_ON_1: &str =
    r#"{"at":0,"datagram":"4a0000050000000160510e1c04ad719a851c1bc16f2d39abdf16c4d59bf4324469214f1f674636283bf64896","do":"rx","from":{"addr":"192.0.2.1","port":1194},"lane":1}"#;

/// The first datagram with a bit of its tag changed, on lane 1.
const WRONG5_ON_1: &str =
    r#"{"at":0,"datagram":"4a0000050000000160510e1c04ad719a851c1bc16f2d39aadf16c4d59bf4324469214f1f674636283bf64896","do":"rx","from":{"addr":"192.0.2.1","port":1194},"lane":1}"#;

/// The peer is removed by lane 1.
const DELETE5_ON_1: &str = r#"{"at":0,"do":"peer-del","lane":1,"peer":{"id":5}}"#;

/// The peer is removed by lane 2.
const DELETE5_ON_2: &str = r#"{"at":0,"do":"peer-del","lane":2,"peer":{"id":5}}"#;

/// Runs a script of these lines by this schedule; the whole text that is written must be these lines of a report.
fn steps(
    rt: &(impl Abort + Threads + Wait + Sync),
    alloc: Global,
    schedule: &str,
    script: &[&str],
    report: &[&str],
) {
    let words = ["steps", "--schedule", schedule];
    written(rt, alloc, &words, script, report);
}

/// A peer with the same addresses is made meanwhile, and the packet is not its.
#[test]
fn a_peer_removed_during_a_receipt_is_released_by_the_receipt(rt: HostRuntime) {
    steps(
        &rt,
        rt.alloc(),
        "0,0,0,1,1",
        &[PEER5, KEY5, RECEIVE5, DELETE5_ON_1, PEER5_ON_1],
        &[
            PEER_MADE,
            KEY_MADE,
            r#"{"at":0,"call":"rx-look","journal":2,"lane":0,"line":2,"reply":{"hold":{"key":0,"peer":0}}}"#,
            r#"{"at":0,"call":"remove","journal":3,"lane":1,"line":0,"reply":{"removed":[0]}}"#,
            r#"{"at":0,"call":"peer-new","journal":4,"lane":1,"line":1,"reply":{"serial":1}}"#,
            r#"{"at":0,"call":"settle","journal":5,"lane":0,"line":2,"reply":{"settled":"not-owner"}}"#,
            r#"{"at":0,"call":"key-released","journal":6,"lane":0,"line":2,"reply":{"key-released":0}}"#,
            r#"{"at":0,"call":"released","journal":7,"lane":0,"line":2,"reply":{"released":0}}"#,
            r#"{"at":0,"id":1,"key":0,"lane":0,"line":2,"moment":0,"shard":0,"verdict":"accept"}"#,
            PEER_ANSWER,
            KEY_ANSWER,
            r#"{"answer":{"dropped":"not-owner"},"lane":0,"line":2}"#,
            r#"{"answer":{"removed":[0]},"lane":1,"line":0}"#,
            r#"{"answer":{"serial":1},"lane":1,"line":1}"#,
            r#"{"journal":3,"notify":"peer-del-ntf","peer":{"del-reason":"userspace","id":5}}"#,
            r#"{"summary":{"accepted":1,"answers":5,"bad-tag":0,"delivered":0,"journal":8,"keys":1,"keys-differ":true,"notes":1,"peers":2,"refused":0,"released":1,"sealed":0}}"#,
        ],
    );
}

/// Lane 0 has looked up the peer and drawn no packet id when lane 1 removes it.
#[test]
fn a_peer_removed_between_look_up_and_draw_still_sends(rt: HostRuntime) {
    steps(
        &rt,
        rt.alloc(),
        "0,0,0,1",
        &[PEER5, KEY5, SEND5, DELETE5_ON_1],
        &[
            PEER_MADE,
            KEY_MADE,
            r#"{"at":0,"call":"tx-look","journal":2,"lane":0,"line":2,"reply":{"hold":{"key":0,"peer":0}}}"#,
            r#"{"at":0,"call":"remove","journal":3,"lane":1,"line":0,"reply":{"removed":[0]}}"#,
            r#"{"at":0,"call":"sent","journal":4,"lane":0,"line":2,"reply":{"ok":true}}"#,
            r#"{"at":0,"call":"key-released","journal":5,"lane":0,"line":2,"reply":{"key-released":0}}"#,
            r#"{"at":0,"call":"released","journal":6,"lane":0,"line":2,"reply":{"released":0}}"#,
            PEER_ANSWER,
            KEY_ANSWER,
            r#"{"answer":{"sealed":{"datagram":"4a0000050000000160510e1c04ad719a851c1bc16f2d39abdf16c4d59bf4324469214f1f674636283bf64896","id":1,"key":0,"to":{"addr":"192.0.2.1","port":1194}}},"lane":0,"line":2}"#,
            r#"{"answer":{"removed":[0]},"lane":1,"line":0}"#,
            r#"{"journal":3,"notify":"peer-del-ntf","peer":{"del-reason":"userspace","id":5}}"#,
            r#"{"summary":{"accepted":0,"answers":4,"bad-tag":0,"delivered":0,"journal":7,"keys":1,"keys-differ":true,"notes":1,"peers":1,"refused":0,"released":1,"sealed":1}}"#,
        ],
    );
}

/// Both lanes look up, lane 1 draws before lane 0, and lane 2 removes the peer before either counts its datagram.
#[test]
fn packet_ids_go_by_the_order_of_draws_and_the_last_lane_releases(rt: HostRuntime) {
    steps(
        &rt,
        rt.alloc(),
        "0,0,0,1,1,0,2",
        &[PEER5, KEY5, SEND5, SEND5_ON_1, DELETE5_ON_2],
        &[
            PEER_MADE,
            KEY_MADE,
            r#"{"at":0,"call":"tx-look","journal":2,"lane":0,"line":2,"reply":{"hold":{"key":0,"peer":0}}}"#,
            r#"{"at":0,"call":"tx-look","journal":3,"lane":1,"line":0,"reply":{"hold":{"key":0,"peer":0}}}"#,
            r#"{"at":0,"call":"remove","journal":4,"lane":2,"line":0,"reply":{"removed":[0]}}"#,
            r#"{"at":0,"call":"sent","journal":5,"lane":0,"line":2,"reply":{"ok":true}}"#,
            r#"{"at":0,"call":"sent","journal":6,"lane":1,"line":0,"reply":{"ok":true}}"#,
            r#"{"at":0,"call":"key-released","journal":7,"lane":1,"line":0,"reply":{"key-released":0}}"#,
            r#"{"at":0,"call":"released","journal":8,"lane":1,"line":0,"reply":{"released":0}}"#,
            PEER_ANSWER,
            KEY_ANSWER,
            r#"{"answer":{"sealed":{"datagram":"4a000005000000023ef9dcc290438ec5bb8e978994f65542130bd13776944d027058e3fe7d3f3906c25e521f","id":2,"key":0,"to":{"addr":"192.0.2.1","port":1194}}},"lane":0,"line":2}"#,
            r#"{"answer":{"sealed":{"datagram":"4a0000050000000160510e1c04ad719a851c1bc16f2d39abdf16c4d59bf4324469214f1f674636283bf64896","id":1,"key":0,"to":{"addr":"192.0.2.1","port":1194}}},"lane":1,"line":0}"#,
            r#"{"answer":{"removed":[0]},"lane":2,"line":0}"#,
            r#"{"journal":4,"notify":"peer-del-ntf","peer":{"del-reason":"userspace","id":5}}"#,
            r#"{"summary":{"accepted":0,"answers":5,"bad-tag":0,"delivered":0,"journal":9,"keys":1,"keys-differ":true,"notes":1,"peers":1,"refused":0,"released":1,"sealed":2}}"#,
        ],
    );
}

/// The packet id is accepted, and no live peer has the inner source any more.
#[test]
fn a_peer_removed_between_replay_and_settle_gets_nothing(rt: HostRuntime) {
    steps(
        &rt,
        rt.alloc(),
        "0,0,0,0,1",
        &[PEER5, KEY5, RECEIVE5, DELETE5_ON_1],
        &[
            PEER_MADE,
            KEY_MADE,
            r#"{"at":0,"call":"rx-look","journal":2,"lane":0,"line":2,"reply":{"hold":{"key":0,"peer":0}}}"#,
            r#"{"at":0,"call":"remove","journal":3,"lane":1,"line":0,"reply":{"removed":[0]}}"#,
            r#"{"at":0,"call":"settle","journal":4,"lane":0,"line":2,"reply":{"settled":"not-owner"}}"#,
            r#"{"at":0,"call":"key-released","journal":5,"lane":0,"line":2,"reply":{"key-released":0}}"#,
            r#"{"at":0,"call":"released","journal":6,"lane":0,"line":2,"reply":{"released":0}}"#,
            r#"{"at":0,"id":1,"key":0,"lane":0,"line":2,"moment":0,"shard":0,"verdict":"accept"}"#,
            PEER_ANSWER,
            KEY_ANSWER,
            r#"{"answer":{"dropped":"not-owner"},"lane":0,"line":2}"#,
            r#"{"answer":{"removed":[0]},"lane":1,"line":0}"#,
            r#"{"journal":3,"notify":"peer-del-ntf","peer":{"del-reason":"userspace","id":5}}"#,
            r#"{"summary":{"accepted":1,"answers":4,"bad-tag":0,"delivered":0,"journal":7,"keys":1,"keys-differ":true,"notes":1,"peers":1,"refused":0,"released":1,"sealed":0}}"#,
        ],
    );
}

/// Lane 0 sends and lane 1 receives under the key when lane 2 replaces it. Lane 0 ends first.
#[test]
fn a_key_replaced_under_two_lanes_is_released_by_the_receipt_that_ends_last(rt: HostRuntime) {
    steps(
        &rt,
        rt.alloc(),
        "0,0,0,1,2",
        &[PEER5, KEY5, SEND5, RECEIVE5_ON_1, OTHER_KEY5_ON_2],
        &[
            PEER_MADE,
            KEY_MADE,
            r#"{"at":0,"call":"tx-look","journal":2,"lane":0,"line":2,"reply":{"hold":{"key":0,"peer":0}}}"#,
            r#"{"at":0,"call":"rx-look","journal":3,"lane":1,"line":0,"reply":{"hold":{"key":0,"peer":0}}}"#,
            r#"{"at":0,"call":"key-new","journal":4,"lane":2,"line":0,"reply":{"serial":1}}"#,
            r#"{"at":0,"call":"sent","journal":5,"lane":0,"line":2,"reply":{"ok":true}}"#,
            r#"{"at":0,"call":"settle","journal":6,"lane":1,"line":0,"reply":{"settled":"deliver"}}"#,
            r#"{"at":0,"call":"key-released","journal":7,"lane":1,"line":0,"reply":{"key-released":0}}"#,
            r#"{"at":0,"id":1,"key":0,"lane":1,"line":0,"moment":0,"shard":0,"verdict":"accept"}"#,
            PEER_ANSWER,
            KEY_ANSWER,
            r#"{"answer":{"sealed":{"datagram":"4a0000050000000160510e1c04ad719a851c1bc16f2d39abdf16c4d59bf4324469214f1f674636283bf64896","id":1,"key":0,"to":{"addr":"192.0.2.1","port":1194}}},"lane":0,"line":2}"#,
            r#"{"answer":{"delivered":{"packet":"4500001400000000401100000a0800050a080005","peer":5}},"lane":1,"line":0}"#,
            r#"{"answer":{"serial":1},"lane":2,"line":0}"#,
            r#"{"summary":{"accepted":1,"answers":5,"bad-tag":0,"delivered":1,"journal":8,"keys":2,"keys-differ":false,"notes":0,"peers":1,"refused":0,"released":0,"sealed":1}}"#,
        ],
    );
}

/// As before, and lane 1 ends first: it settles, gives back the key and gives back the peer.
#[test]
fn a_key_replaced_under_two_lanes_is_released_by_the_sending_that_ends_last(rt: HostRuntime) {
    steps(
        &rt,
        rt.alloc(),
        "0,0,0,1,2,1,1,1,1",
        &[PEER5, KEY5, SEND5, RECEIVE5_ON_1, OTHER_KEY5_ON_2],
        &[
            PEER_MADE,
            KEY_MADE,
            r#"{"at":0,"call":"tx-look","journal":2,"lane":0,"line":2,"reply":{"hold":{"key":0,"peer":0}}}"#,
            r#"{"at":0,"call":"rx-look","journal":3,"lane":1,"line":0,"reply":{"hold":{"key":0,"peer":0}}}"#,
            r#"{"at":0,"call":"key-new","journal":4,"lane":2,"line":0,"reply":{"serial":1}}"#,
            r#"{"at":0,"call":"settle","journal":5,"lane":1,"line":0,"reply":{"settled":"deliver"}}"#,
            r#"{"at":0,"call":"sent","journal":6,"lane":0,"line":2,"reply":{"ok":true}}"#,
            r#"{"at":0,"call":"key-released","journal":7,"lane":0,"line":2,"reply":{"key-released":0}}"#,
            r#"{"at":0,"id":1,"key":0,"lane":1,"line":0,"moment":0,"shard":0,"verdict":"accept"}"#,
            PEER_ANSWER,
            KEY_ANSWER,
            r#"{"answer":{"sealed":{"datagram":"4a0000050000000160510e1c04ad719a851c1bc16f2d39abdf16c4d59bf4324469214f1f674636283bf64896","id":1,"key":0,"to":{"addr":"192.0.2.1","port":1194}}},"lane":0,"line":2}"#,
            r#"{"answer":{"delivered":{"packet":"4500001400000000401100000a0800050a080005","peer":5}},"lane":1,"line":0}"#,
            r#"{"answer":{"serial":1},"lane":2,"line":0}"#,
            r#"{"summary":{"accepted":1,"answers":5,"bad-tag":0,"delivered":1,"journal":8,"keys":2,"keys-differ":false,"notes":0,"peers":1,"refused":0,"released":0,"sealed":1}}"#,
        ],
    );
}

/// Lane 0 gives back the key before lane 1 does, and the peer after it.
#[test]
fn one_lane_is_the_last_at_the_key_and_the_other_at_the_peer(rt: HostRuntime) {
    steps(
        &rt,
        rt.alloc(),
        "0,0,0,1,2,0,0,0,1,1,1",
        &[PEER5, KEY5, RECEIVE5, WRONG5_ON_1, DELETE5_ON_2],
        &[
            PEER_MADE,
            KEY_MADE,
            r#"{"at":0,"call":"rx-look","journal":2,"lane":0,"line":2,"reply":{"hold":{"key":0,"peer":0}}}"#,
            r#"{"at":0,"call":"rx-look","journal":3,"lane":1,"line":0,"reply":{"hold":{"key":0,"peer":0}}}"#,
            r#"{"at":0,"call":"remove","journal":4,"lane":2,"line":0,"reply":{"removed":[0]}}"#,
            r#"{"at":0,"call":"settle","journal":5,"lane":0,"line":2,"reply":{"settled":"not-owner"}}"#,
            r#"{"at":0,"call":"key-released","journal":6,"lane":1,"line":0,"reply":{"key-released":0}}"#,
            r#"{"at":0,"call":"released","journal":7,"lane":0,"line":2,"reply":{"released":0}}"#,
            r#"{"at":0,"id":1,"key":0,"lane":0,"line":2,"moment":0,"shard":0,"verdict":"accept"}"#,
            PEER_ANSWER,
            KEY_ANSWER,
            r#"{"answer":{"dropped":"not-owner"},"lane":0,"line":2}"#,
            r#"{"answer":{"dropped":"bad-tag"},"lane":1,"line":0}"#,
            r#"{"answer":{"removed":[0]},"lane":2,"line":0}"#,
            r#"{"journal":4,"notify":"peer-del-ntf","peer":{"del-reason":"userspace","id":5}}"#,
            r#"{"summary":{"accepted":1,"answers":5,"bad-tag":1,"delivered":0,"journal":8,"keys":1,"keys-differ":true,"notes":1,"peers":1,"refused":0,"released":1,"sealed":0}}"#,
        ],
    );
}

/// The packet id that the removed peer's key has accepted is fresh under the new peer's key.
#[test]
fn a_peer_made_anew_has_its_own_key_and_window(rt: HostRuntime) {
    steps(
        &rt,
        rt.alloc(),
        "0,0,0,1,1,1",
        &[
            PEER5,
            KEY5,
            RECEIVE5,
            DELETE5_ON_1,
            PEER5_ON_1,
            KEY5_ON_1,
            RECEIVE5_ON_1,
        ],
        &[
            PEER_MADE,
            KEY_MADE,
            r#"{"at":0,"call":"rx-look","journal":2,"lane":0,"line":2,"reply":{"hold":{"key":0,"peer":0}}}"#,
            r#"{"at":0,"call":"remove","journal":3,"lane":1,"line":0,"reply":{"removed":[0]}}"#,
            r#"{"at":0,"call":"peer-new","journal":4,"lane":1,"line":1,"reply":{"serial":1}}"#,
            r#"{"at":0,"call":"key-new","journal":5,"lane":1,"line":2,"reply":{"serial":1}}"#,
            r#"{"at":0,"call":"settle","journal":6,"lane":0,"line":2,"reply":{"settled":"not-owner"}}"#,
            r#"{"at":0,"call":"key-released","journal":7,"lane":0,"line":2,"reply":{"key-released":0}}"#,
            r#"{"at":0,"call":"released","journal":8,"lane":0,"line":2,"reply":{"released":0}}"#,
            r#"{"at":0,"call":"rx-look","journal":9,"lane":1,"line":3,"reply":{"hold":{"key":1,"peer":1}}}"#,
            r#"{"at":0,"call":"settle","journal":10,"lane":1,"line":3,"reply":{"settled":"deliver"}}"#,
            r#"{"at":0,"id":1,"key":0,"lane":0,"line":2,"moment":0,"shard":0,"verdict":"accept"}"#,
            r#"{"at":0,"id":1,"key":1,"lane":1,"line":3,"moment":0,"shard":1,"verdict":"accept"}"#,
            PEER_ANSWER,
            KEY_ANSWER,
            r#"{"answer":{"dropped":"not-owner"},"lane":0,"line":2}"#,
            r#"{"answer":{"removed":[0]},"lane":1,"line":0}"#,
            r#"{"answer":{"serial":1},"lane":1,"line":1}"#,
            r#"{"answer":{"serial":1},"lane":1,"line":2}"#,
            r#"{"answer":{"delivered":{"packet":"4500001400000000401100000a0800050a080005","peer":5}},"lane":1,"line":3}"#,
            r#"{"journal":3,"notify":"peer-del-ntf","peer":{"del-reason":"userspace","id":5}}"#,
            r#"{"summary":{"accepted":2,"answers":7,"bad-tag":0,"delivered":1,"journal":11,"keys":2,"keys-differ":false,"notes":1,"peers":2,"refused":0,"released":1,"sealed":0}}"#,
        ],
    );
}

/// Lane 0 looks up first, and lane 1 makes the first replay step.
#[test]
fn a_datagram_on_two_lanes_is_delivered_by_the_first_replay_step(rt: HostRuntime) {
    steps(
        &rt,
        rt.alloc(),
        "0,0,0,1,1,0",
        &[PEER5, KEY5, RECEIVE5, RECEIVE5_ON_1],
        &[
            PEER_MADE,
            KEY_MADE,
            r#"{"at":0,"call":"rx-look","journal":2,"lane":0,"line":2,"reply":{"hold":{"key":0,"peer":0}}}"#,
            r#"{"at":0,"call":"rx-look","journal":3,"lane":1,"line":0,"reply":{"hold":{"key":0,"peer":0}}}"#,
            r#"{"at":0,"call":"settle","journal":4,"lane":1,"line":0,"reply":{"settled":"deliver"}}"#,
            r#"{"at":0,"id":1,"key":0,"lane":1,"line":0,"moment":0,"shard":0,"verdict":"accept"}"#,
            r#"{"at":0,"id":1,"key":0,"lane":0,"line":2,"moment":0,"shard":0,"verdict":"again"}"#,
            PEER_ANSWER,
            KEY_ANSWER,
            r#"{"answer":{"dropped":"again"},"lane":0,"line":2}"#,
            r#"{"answer":{"delivered":{"packet":"4500001400000000401100000a0800050a080005","peer":5}},"lane":1,"line":0}"#,
            r#"{"summary":{"accepted":1,"answers":4,"bad-tag":0,"delivered":1,"journal":5,"keys":1,"keys-differ":true,"notes":0,"peers":1,"refused":1,"released":0,"sealed":0}}"#,
        ],
    );
}

/// Lane 0 sends between the removal and the releases, which stand at lane 1's next turns.
#[test]
fn a_removal_owes_its_releases_while_other_lanes_go_on(rt: HostRuntime) {
    steps(
        &rt,
        rt.alloc(),
        "0,0,1,0",
        &[PEER5, KEY5, SEND5, DELETE5_ON_1],
        &[
            PEER_MADE,
            KEY_MADE,
            r#"{"at":0,"call":"remove","journal":2,"lane":1,"line":0,"reply":{"removed":[0]}}"#,
            r#"{"at":0,"call":"tx-look","journal":3,"lane":0,"line":2,"reply":{"none":"no-peer"}}"#,
            r#"{"at":0,"call":"key-released","journal":4,"lane":1,"line":0,"reply":{"key-released":0}}"#,
            r#"{"at":0,"call":"released","journal":5,"lane":1,"line":0,"reply":{"released":0}}"#,
            PEER_ANSWER,
            KEY_ANSWER,
            r#"{"answer":{"dropped":"no-peer"},"lane":0,"line":2}"#,
            r#"{"answer":{"removed":[0]},"lane":1,"line":0}"#,
            r#"{"journal":2,"notify":"peer-del-ntf","peer":{"del-reason":"userspace","id":5}}"#,
            r#"{"summary":{"accepted":0,"answers":4,"bad-tag":0,"delivered":0,"journal":6,"keys":1,"keys-differ":true,"notes":1,"peers":1,"refused":0,"released":1,"sealed":0}}"#,
        ],
    );
}

/// Lane 7 has no lines, and lane 1 has one.
#[test]
fn a_lane_without_a_line_is_passed_over(rt: HostRuntime) {
    steps(
        &rt,
        rt.alloc(),
        "7,1,1,0",
        &[PEER5, GET5, DELETE5_ON_1],
        &[
            r#"{"at":0,"call":"remove","journal":0,"lane":1,"line":0,"reply":{"error":2}}"#,
            r#"{"at":0,"call":"peer-new","journal":1,"lane":0,"line":0,"reply":{"serial":0}}"#,
            r#"{"at":0,"call":"peer-get","journal":2,"lane":0,"line":1,"reply":{"peer":{"id":5,"keepalive-interval":0,"keepalive-timeout":0,"link-rx-bytes":0,"link-rx-packets":0,"link-tx-bytes":0,"link-tx-packets":0,"remote-ipv4":"192.0.2.1","remote-port":1194,"vpn-ipv4":"10.8.0.5","vpn-rx-bytes":0,"vpn-rx-packets":0,"vpn-tx-bytes":0,"vpn-tx-packets":0}}}"#,
            PEER_ANSWER,
            r#"{"answer":{"peer":{"id":5,"keepalive-interval":0,"keepalive-timeout":0,"link-rx-bytes":0,"link-rx-packets":0,"link-tx-bytes":0,"link-tx-packets":0,"remote-ipv4":"192.0.2.1","remote-port":1194,"vpn-ipv4":"10.8.0.5","vpn-rx-bytes":0,"vpn-rx-packets":0,"vpn-tx-bytes":0,"vpn-tx-packets":0}},"lane":0,"line":1}"#,
            r#"{"answer":{"error":2},"lane":1,"line":0}"#,
            r#"{"summary":{"accepted":0,"answers":3,"bad-tag":0,"delivered":0,"journal":3,"keys":0,"keys-differ":true,"notes":0,"peers":1,"refused":0,"released":0,"sealed":0}}"#,
        ],
    );
}

/// The second line is no inner packet: it is dropped at its one turn, before any look-up.
#[test]
fn a_line_without_an_entry_takes_one_turn(rt: HostRuntime) {
    steps(
        &rt,
        rt.alloc(),
        "0,0,1",
        &[
            PEER5,
            r#"{"at":0,"do":"tx","lane":0,"packet":"45"}"#,
            GET5,
            DELETE5_ON_1,
        ],
        &[
            PEER_MADE,
            r#"{"at":0,"call":"remove","journal":1,"lane":1,"line":0,"reply":{"removed":[0]}}"#,
            r#"{"at":0,"call":"peer-get","journal":2,"lane":0,"line":2,"reply":{"error":2}}"#,
            r#"{"at":0,"call":"released","journal":3,"lane":1,"line":0,"reply":{"released":0}}"#,
            PEER_ANSWER,
            r#"{"answer":{"dropped":"not-ip"},"lane":0,"line":1}"#,
            r#"{"answer":{"error":2},"lane":0,"line":2}"#,
            r#"{"answer":{"removed":[0]},"lane":1,"line":0}"#,
            r#"{"journal":1,"notify":"peer-del-ntf","peer":{"del-reason":"userspace","id":5}}"#,
            r#"{"summary":{"accepted":0,"answers":4,"bad-tag":0,"delivered":0,"journal":4,"keys":0,"keys-differ":true,"notes":1,"peers":1,"refused":0,"released":1,"sealed":0}}"#,
        ],
    );
}

/// The script that these bytes say.
fn script_of(rt: &impl Abort, alloc: Global, text: &[u8]) -> Script
    ensures fits { AllByRecursion (λ line. Fits line.deed) result.lines }
    ensures lanes { AllByRecursion (λ line. line.lane < 64) result.lines }
{
    let Ok(bytes) = Octets::of(alloc, text) else {
        panic!(rt; "no memory");
    };
    let mut source = MemorySource::new(bytes, 16, ListOf::new(alloc));
    let Ok(script) = read_script(alloc, &mut source, 64).outcome else {
        panic!(rt; "no script");
    };
    script
}

/// The text of this report is these bytes.
fn is_printed(rt: &impl Abort, alloc: Global, report: &Report, text: &[u8]) {
    let mut sink = MemorySink::new(alloc, 4_096, ListOf::new(alloc));
    assert!(rt; print_report(alloc, report, &mut sink).is_ok());
    assert_eq!(rt; sink.written(), text);
}

/// A run by a schedule whose keys begin at another packet id, which no word gives, writes these bytes.
fn steps_from(
    rt: &impl Abort,
    alloc: Global,
    first: u32,
    schedule: &[u32],
    script: &[u8],
    text: &[u8],
)
    requires lanes { AllByRecursion (λ lane. lane < 64) schedule.now }
{
    let script = script_of(rt, alloc, script);
    let Ok(report) = run_schedule(alloc, script, first, schedule) else {
        panic!(rt; "no memory");
    };
    is_printed(rt, alloc, &report, text);
}

/// Three lanes look up the key. Lane 1 draws the last packet id there is, and the other two find the key spent:
/// lane 2 takes it out of its slot, and lane 0 comes too late for that.
#[test]
fn a_key_spent_by_two_lanes_is_taken_out_once(rt: HostRuntime) {
    let alloc = rt.alloc();
    let script = text(&rt, alloc, &[PEER5, KEY5, SEND5, SEND5_ON_1, SEND5_ON_2]);
    let report = text(
        &rt,
        alloc,
        &[
            PEER_MADE,
            KEY_MADE,
            r#"{"at":0,"call":"tx-look","journal":2,"lane":0,"line":2,"reply":{"hold":{"key":0,"peer":0}}}"#,
            r#"{"at":0,"call":"tx-look","journal":3,"lane":1,"line":0,"reply":{"hold":{"key":0,"peer":0}}}"#,
            r#"{"at":0,"call":"tx-look","journal":4,"lane":2,"line":0,"reply":{"hold":{"key":0,"peer":0}}}"#,
            r#"{"at":0,"call":"spend","journal":5,"lane":2,"line":0,"reply":{"spend":"killed"}}"#,
            r#"{"at":0,"call":"spend","journal":6,"lane":0,"line":2,"reply":{"spend":"already-gone"}}"#,
            r#"{"at":0,"call":"sent","journal":7,"lane":1,"line":0,"reply":{"ok":true}}"#,
            r#"{"at":0,"call":"key-released","journal":8,"lane":2,"line":0,"reply":{"key-released":0}}"#,
            PEER_ANSWER,
            KEY_ANSWER,
            r#"{"answer":{"dropped":"spent"},"lane":0,"line":2}"#,
            r#"{"answer":{"sealed":{"datagram":"4a000005ffffffff12a605661f524bc8b2c541ce712859fd0db94b3ff95392059eed5bbaab25167008b92bc0","id":4294967295,"key":0,"to":{"addr":"192.0.2.1","port":1194}}},"lane":1,"line":0}"#,
            r#"{"answer":{"dropped":"spent"},"lane":2,"line":0}"#,
            r#"{"journal":5,"keyconf":{"key-id":2,"peer-id":5},"notify":"key-swap-ntf"}"#,
            r#"{"summary":{"accepted":0,"answers":5,"bad-tag":0,"delivered":0,"journal":9,"keys":1,"keys-differ":true,"notes":1,"peers":1,"refused":0,"released":0,"sealed":1}}"#,
        ],
    );
    steps_from(
        &rt,
        alloc,
        4_294_967_295,
        &[0, 0, 0, 1, 2, 1, 0, 2, 2],
        script.as_slice(),
        report.as_slice(),
    );
}
