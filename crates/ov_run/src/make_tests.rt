//! Whole runs of made scripts, each over a source that fails at its first read. A script has 256 head lines, an entry
//! each, and then groups of four lines: one sealed, one delivered, one again and one with a bad tag, six entries and two
//! replay steps in all.

use crate::tests::{are, run};
use std::alloc::Global;
use std::process::Abort;
use std::sync::Wait;
use std::thread::Threads;

/// A run with these words ends with this status and writes this text.
fn ends(
    rt: &(impl Abort + Threads + Wait + Sync),
    alloc: Global,
    words: &[&str],
    writes: &[u64],
    status: u8,
    wanted: &str,
) {
    let (ended, written) = run(rt, alloc, words, b"x\n", &[0], writes);
    are(rt, ended, written.as_slice(), status, wanted.as_bytes());
}

/// A run with these words writes this text alone.
fn tells(rt: &(impl Abort + Threads + Wait + Sync), alloc: Global, words: &[&str], wanted: &str) {
    ends(rt, alloc, words, &[], 0, wanted);
}

const FOUR: &str =
    r#"{"summary":{"accepted":1,"answers":260,"bad-tag":1,"delivered":1,"journal":262,"keys":128,"keys-differ":true,"notes":0,"peers":128,"refused":1,"released":0,"sealed":1}}
"#;

/// One line behind the head sends a packet.
const ONE: &str =
    r#"{"summary":{"accepted":0,"answers":257,"bad-tag":0,"delivered":0,"journal":258,"keys":128,"keys-differ":true,"notes":0,"peers":128,"refused":0,"released":0,"sealed":1}}
"#;

/// A group of each of the 128 peers, a second one of the first peer, and a packet to the second peer again.
const SECOND_ROUND: &str =
    r#"{"summary":{"accepted":129,"answers":773,"bad-tag":129,"delivered":129,"journal":1032,"keys":128,"keys-differ":true,"notes":0,"peers":128,"refused":129,"released":0,"sealed":130}}
"#;

#[test]
fn a_made_script_is_told_by_its_summary_alone(rt: HostRuntime) {
    tells(&rt, rt.alloc(), &["make", "--count", "4"], FOUR);
    tells(&rt, rt.alloc(), &["make", "--count=4", "--seed=0"], FOUR);
    tells(&rt, rt.alloc(), &["make", "--count", "1"], ONE);
}

#[test]
fn a_made_script_has_packet_ids_from_one_on(rt: HostRuntime) {
    let last = "4294967295";
    tells(
        &rt,
        rt.alloc(),
        &["make", "--count", "517", "--first-id", last],
        SECOND_ROUND,
    );
}

#[test]
fn a_summary_that_is_not_written_whole_is_a_write_fault(rt: HostRuntime) {
    let words = ["make", "--count", "4"];
    ends(&rt, rt.alloc(), &words, &[0], 5, "");
    ends(&rt, rt.alloc(), &words, &[1], 5, r#"{"summary":{"acc"#);
}
