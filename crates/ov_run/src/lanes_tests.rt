//! Whole runs of lanes on threads. Where the threads decide who comes first, a row runs twenty times, and each time one of
//! its ways must come out. The expected lines are written by hand.

use crate::ended::Cause;
use crate::packet_tests::{
    KEY_ANSWER, KEY_MADE, KEY5, PEER_ANSWER, PEER_MADE, PEER5, RECEIVE5, SEND5, text, written,
};
use crate::tests::{ran, ran_by, run, writes};
use ov_course::Gate;
use ov_model::{Answer, DropCause, Place, Report};
use std::alloc::Global;
use std::process::Abort;
use std::sync::Wait;
use std::sync::atomic::{AtomicBool, Ordering};
use std::thread::Threads;

/// How often such a row runs.
const TIMES: usize = 20;

/// For how many turns a line is held at most.
const TURNS: u32 = 100_000_000;

/// The datagram of `RECEIVE5` on lane 1.
const RECEIVE5_ON_1: &str =
    r#"{"at":0,"datagram":"4a0000050000000160510e1c04ad719a851c1bc16f2d39abdf16c4d59bf4324469214f1f674636283bf64896","do":"rx","from":{"addr":"192.0.2.1","port":1194},"lane":1}"#;

/// The packet of `SEND5` on lane 1.
const SEND5_ON_1: &str =
    r#"{"at":0,"do":"tx","lane":1,"packet":"4500001400000000401100000a0800050a080005"}"#;

const ONE_DELIVERED: &str =
    r#"{"summary":{"accepted":1,"answers":4,"bad-tag":0,"delivered":1,"journal":5,"keys":1,"keys-differ":true,"notes":0,"peers":1,"refused":1,"released":0,"sealed":0}}"#;

const ONE_SEALED: &str =
    r#"{"summary":{"accepted":0,"answers":4,"bad-tag":0,"delivered":0,"journal":7,"keys":1,"keys-differ":true,"notes":1,"peers":1,"refused":0,"released":0,"sealed":1}}"#;

/// The status is 0, and the text ends in one of two ways.
fn ends_one_way(rt: &impl Abort, status: u8, text: &[u8], one: &[u8], other: &[u8]) {
    assert_eq!(rt; status, 0);
    assert!(rt; text.ends_with(one) || text.ends_with(other));
}

#[test]
fn of_two_lanes_that_receive_one_datagram_one_delivers_it(rt: HostRuntime) {
    let alloc = rt.alloc();
    let script = text(&rt, alloc, &[PEER5, KEY5, RECEIVE5, RECEIVE5_ON_1]);
    let lane_0 = text(
        &rt,
        alloc,
        &[
            r#"{"answer":{"delivered":{"packet":"4500001400000000401100000a0800050a080005","peer":5}},"lane":0,"line":2}"#,
            r#"{"answer":{"dropped":"again"},"lane":1,"line":0}"#,
            ONE_DELIVERED,
        ],
    );
    let lane_1 = text(
        &rt,
        alloc,
        &[
            r#"{"answer":{"dropped":"again"},"lane":0,"line":2}"#,
            r#"{"answer":{"delivered":{"packet":"4500001400000000401100000a0800050a080005","peer":5}},"lane":1,"line":0}"#,
            ONE_DELIVERED,
        ],
    );
    let words = ["lanes", "--lanes", "2", "--head", "2"];
    for _time in 0..TIMES {
        let (status, report) = run(&rt, alloc, &words, script.as_slice(), &[], &[]);
        ends_one_way(
            &rt,
            status,
            report.as_slice(),
            lane_0.as_slice(),
            lane_1.as_slice(),
        );
    }
}

/// How many answers say that a packet was sealed, and how many that a key has given its last packet id.
fn sealed_and_spent(report: &Report) -> (u32, u32) {
    let mut sealed: u32 = 0;
    let mut spent: u32 = 0;
    for log in report.lanes.as_slice() {
        for answer in log.answers.as_slice() {
            match answer {
                Answer::Sealed(_) => sealed = sealed.saturating_add(1),
                Answer::Dropped(DropCause::Spent) => spent = spent.saturating_add(1),
                _ => {}
            }
        }
    }
    (sealed, spent)
}

/// Of two lanes that send under a key that has one packet id left, one seals, and for the other the key is spent.
fn one_seals(rt: &(impl Abort + Threads + Wait + Sync), alloc: Global, script: &[u8], end: &[u8]) {
    let words = [
        "lanes",
        "--lanes",
        "2",
        "--head",
        "2",
        "--first-id",
        "4294967295",
    ];
    let (ended, report) = ran(rt, alloc, &words, script, &[], &[]);
    assert_eq!(rt; ended.cause, Cause::Fine);
    assert!(rt; report.as_slice().ends_with(end));
    let Some(report) = ended.report else {
        panic!(rt; "no report");
    };
    assert_eq!(rt; sealed_and_spent(&report), (1, 1));
}

#[test]
fn of_two_lanes_one_draws_the_last_packet_id(rt: HostRuntime) {
    let alloc = rt.alloc();
    let script = text(&rt, alloc, &[PEER5, KEY5, SEND5, SEND5_ON_1]);
    let end = text(&rt, alloc, &[ONE_SEALED]);
    for _time in 0..TIMES {
        one_seals(&rt, alloc, script.as_slice(), end.as_slice());
    }
}

/// A lane that is held: whether its line came, and whether the other one's came while it was held.
#[derive(Drop)]
struct Held {
    came: AtomicBool,
    met: AtomicBool,
}

impl Held {
    fn new() -> Held {
        Held {
            came: AtomicBool::new(false),
            met: AtomicBool::new(false),
        }
    }

    /// Says that its line came, and waits for the other one's.
    fn wait_for(&self, other: &Held) {
        self.came.store(true, Ordering::SeqCst);
        for _turn in 0..TURNS {
            if other.came.load(Ordering::SeqCst) {
                self.met.store(true, Ordering::SeqCst);
                return;
            }
        }
    }
}

/// A gate that holds the lines of one number of lanes 0 and 1 until both came.
#[derive(Drop)]
struct Meeting {
    line: u64,
    zero: Held,
    one: Held,
}

impl Meeting {
    fn at(line: u64) -> Meeting {
        Meeting {
            line,
            zero: Held::new(),
            one: Held::new(),
        }
    }

    /// Each of the two lines came while the other one was held: they ran side by side.
    fn both_met(&self) -> bool {
        self.zero.met.load(Ordering::SeqCst) && self.one.met.load(Ordering::SeqCst)
    }
}

impl Gate for Meeting {
    fn before(&self, place: Place) {
        if place.line == self.line {
            match place.lane {
                0 => self.zero.wait_for(&self.one),
                1 => self.one.wait_for(&self.zero),
                _ => {}
            }
        }
    }

    fn after(&self, _place: Place) {}
}

/// With these words lines of this number of lanes 0 and 1 run side by side, and what is written ends so.
fn meet(
    rt: &(impl Abort + Threads + Wait + Sync),
    alloc: Global,
    words: &[&str],
    script: &[u8],
    line: u64,
    end: &[u8],
) {
    let gate = Meeting::at(line);
    let (ended, report) = ran_by(rt, alloc, words, script, &gate);
    assert_eq!(rt; ended.cause, Cause::Fine);
    assert!(rt; report.as_slice().ends_with(end));
    assert!(rt; gate.both_met());
}

#[test]
fn lanes_run_side_by_side(rt: HostRuntime) {
    let alloc = rt.alloc();
    let script =
        b"{\"at\":0,\"do\":\"peer-dump\",\"lane\":0}\n{\"at\":0,\"do\":\"peer-dump\",\"lane\":1}\n";
    let end = text(
        &rt,
        alloc,
        &[
            r#"{"answer":{"peers":[]},"lane":0,"line":0}"#,
            r#"{"answer":{"peers":[]},"lane":1,"line":0}"#,
            r#"{"summary":{"accepted":0,"answers":2,"bad-tag":0,"delivered":0,"journal":2,"keys":0,"keys-differ":true,"notes":0,"peers":0,"refused":0,"released":0,"sealed":0}}"#,
        ],
    );
    for _time in 0..TIMES {
        meet(
            &rt,
            alloc,
            &["lanes", "--lanes", "2"],
            script,
            0,
            end.as_slice(),
        );
    }
}

#[test]
fn made_lanes_run_side_by_side(rt: HostRuntime) {
    let alloc = rt.alloc();
    let end = text(
        &rt,
        alloc,
        &[
            r#"{"summary":{"accepted":1,"answers":258,"bad-tag":0,"delivered":1,"journal":260,"keys":128,"keys-differ":true,"notes":0,"peers":128,"refused":0,"released":0,"sealed":1}}"#,
        ],
    );
    for _time in 0..TIMES {
        meet(
            &rt,
            alloc,
            &["load", "--count", "2"],
            b"",
            32,
            end.as_slice(),
        );
    }
}

#[test]
fn made_lanes_have_the_summary_of_their_script(rt: HostRuntime) {
    let four = text(
        &rt,
        rt.alloc(),
        &[
            r#"{"summary":{"accepted":1,"answers":260,"bad-tag":1,"delivered":1,"journal":262,"keys":128,"keys-differ":true,"notes":0,"peers":128,"refused":1,"released":0,"sealed":1}}"#,
        ],
    );
    writes(
        &rt,
        rt.alloc(),
        &["load", "--count", "4"],
        b"x\n",
        0,
        four.as_slice(),
    );
}

#[test]
fn a_line_on_a_lane_that_is_not_there_is_a_bad_line(rt: HostRuntime) {
    let script = text(&rt, rt.alloc(), &[PEER5, SEND5_ON_1]);
    let (ended, report) = ran(
        &rt,
        rt.alloc(),
        &["lanes", "--lanes", "1"],
        script.as_slice(),
        &[],
        &[],
    );
    assert_eq!(rt; ended.cause, Cause::BadLine(2));
    assert!(rt; report.as_slice().is_empty());
}

/// All lines are the head, so they run in the script's order.
#[test]
fn with_more_heads_than_lines_all_lines_run_in_order(rt: HostRuntime) {
    written(
        &rt,
        rt.alloc(),
        &["lanes", "--lanes", "2", "--head", "262144"],
        &[PEER5, KEY5, RECEIVE5_ON_1, RECEIVE5],
        &[
            PEER_MADE,
            KEY_MADE,
            r#"{"at":0,"call":"rx-look","journal":2,"lane":1,"line":0,"reply":{"hold":{"key":0,"peer":0}}}"#,
            r#"{"at":0,"call":"settle","journal":3,"lane":1,"line":0,"reply":{"settled":"deliver"}}"#,
            r#"{"at":0,"call":"rx-look","journal":4,"lane":0,"line":2,"reply":{"hold":{"key":0,"peer":0}}}"#,
            r#"{"at":0,"id":1,"key":0,"lane":1,"line":0,"moment":0,"shard":0,"verdict":"accept"}"#,
            r#"{"at":0,"id":1,"key":0,"lane":0,"line":2,"moment":0,"shard":0,"verdict":"again"}"#,
            PEER_ANSWER,
            KEY_ANSWER,
            r#"{"answer":{"dropped":"again"},"lane":0,"line":2}"#,
            r#"{"answer":{"delivered":{"packet":"4500001400000000401100000a0800050a080005","peer":5}},"lane":1,"line":0}"#,
            ONE_DELIVERED,
        ],
    );
}

#[test]
fn values_of_lanes_outside_their_ranges_are_usage(rt: HostRuntime) {
    let alloc = rt.alloc();
    let script = PEER5.as_bytes();
    writes(&rt, alloc, &["lanes", "--lanes", "0"], script, 1, b"");
    writes(&rt, alloc, &["lanes", "--lanes", "65"], script, 1, b"");
    writes(&rt, alloc, &["lanes", "--head", "262145"], script, 1, b"");
    writes(&rt, alloc, &["load", "--count", "0"], script, 1, b"");
}
