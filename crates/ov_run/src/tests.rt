//! Whole runs over sources and sinks in memory, in pieces of 16 bytes.

ghost use Rattle.std.specs.Prelude.{◌≡◌, IfSome, false, map, string_bytes};
ghost use Rattle.ov_model.specs.declared.line.Script.{Script};
ghost use Rattle.ov_model.specs.Legal.{Legal};
ghost use Rattle.ov_plan.specs.declared.words.RunPlan.{RunPlan};
ghost use Rattle.ov_plan.specs.Plan.{IsPlan};
ghost use Rattle.ov_run.specs.Clauses.{Read, first_id, lanes_of, makes};

use crate::ended::{Cause, Ended};
use crate::threads;
use crate::told::{say, tell, tell_why};
use ov_base::{ListOf, MemorySink, MemorySource, Octets, Sink};
use ov_course::{Gate, OpenGate};
use ov_plan::About;
use ov_script::Limit;
use std::alloc::Global;
use std::process::Abort;
use std::sync::Wait;
use std::thread::Threads;

const PEER5: &str =
    r#"{"at":0,"do":"peer-new","lane":0,"peer":{"id":5,"remote-ipv4":"192.0.2.1","remote-port":1194,"vpn-ipv4":"10.8.0.5"}}
"#;

/// The calls of these numbers, from 0.
fn calls(rt: &impl Abort, alloc: Global, numbers: &[u64]) -> ListOf<u64> {
    let Ok(numbers) = Vec::from_slice(alloc, numbers) else {
        panic!(rt; "no memory");
    };
    ListOf::of_vec(numbers)
}

/// A copy of these bytes.
fn octets(rt: &impl Abort, alloc: Global, bytes: &[u8]) -> Octets {
    let Ok(copy) = Octets::of(alloc, bytes) else {
        panic!(rt; "no memory");
    };
    copy
}

/// This word, as the program gets it.
fn word(rt: &impl Abort, alloc: Global, text: &str) -> String {
    let Ok(word) = String::from_str(alloc, text) else {
        panic!(rt; "no memory");
    };
    word
}

/// These words, as the program gets them.
fn words_of(rt: &impl Abort, alloc: Global, texts: &[&str]) -> Vec<String> {
    let mut words = Vec::new(alloc);
    for text in texts {
        assert!(rt; words.push(word(rt, alloc, *text)).is_ok());
    }
    words
}

/// How a run on `text` ended and what it wrote, with these words and where these calls fail.
pub fn ran(
    rt: &(impl Abort + Threads + Wait + Sync),
    alloc: Global,
    texts: &[&str],
    text: &[u8],
    reads: &[u64],
    writes: &[u64],
) -> (Ended, Octets) {
    let words = words_of(rt, alloc, texts);
    let bytes = octets(rt, alloc, text);
    let mut source = MemorySource::new(bytes, 16, calls(rt, alloc, reads));
    let mut sink = MemorySink::new(alloc, 16, calls(rt, alloc, writes));
    let ended = threads::run(
        rt,
        alloc,
        words.as_slice(),
        &mut source,
        &mut sink,
        &OpenGate,
    );
    (ended, octets(rt, alloc, sink.written()))
}

/// How a run on `text` ended and what it wrote, with these words, where this gate is told of each line on a thread.
pub fn ran_by<G: Gate + Sync>(
    rt: &(impl Abort + Threads + Wait + Sync),
    alloc: Global,
    texts: &[&str],
    text: &[u8],
    gate: &G,
) -> (Ended, Octets) {
    let words = words_of(rt, alloc, texts);
    let mut source = MemorySource::new(octets(rt, alloc, text), 16, ListOf::new(alloc));
    let mut sink = MemorySink::new(alloc, 16, ListOf::new(alloc));
    let ended = threads::run(rt, alloc, words.as_slice(), &mut source, &mut sink, gate);
    (ended, octets(rt, alloc, sink.written()))
}

/// The status and the written text of a run on `text`, with these words and where these calls fail.
pub fn run(
    rt: &(impl Abort + Threads + Wait + Sync),
    alloc: Global,
    words: &[&str],
    text: &[u8],
    reads: &[u64],
    writes: &[u64],
) -> (u8, Octets) {
    let (ended, written) = ran(rt, alloc, words, text, reads, writes);
    (ended.status(), written)
}

/// A run on `text` ends by this cause.
pub fn ends_by(
    rt: &(impl Abort + Threads + Wait + Sync),
    alloc: Global,
    text: &[u8],
    wanted: Cause,
) {
    let (ended, _) = ran(rt, alloc, &["trace"], text, &[], &[]);
    let cause = ended.cause;
    assert_eq!(rt; cause, wanted);
}

/// This status and this text are the wanted ones.
pub fn are(rt: &impl Abort, status: u8, text: &[u8], wanted: u8, wanted_text: &[u8]) {
    assert_eq!(rt; status, wanted);
    assert_eq!(rt; text, wanted_text);
}

/// A run on `text` with these words ends with this status and writes this text.
pub fn writes(
    rt: &(impl Abort + Threads + Wait + Sync),
    alloc: Global,
    words: &[&str],
    text: &[u8],
    wanted: u8,
    wanted_text: &[u8],
) {
    let (status, written) = run(rt, alloc, words, text, &[], &[]);
    are(rt, status, written.as_slice(), wanted, wanted_text);
}

/// Nothing was run or written: the run ended by this cause and with this status, with this many good lines.
fn is_unrun(
    rt: &impl Abort,
    ended: &Ended,
    written: &[u8],
    cause: Cause,
    status: u8,
    read_lines: u64,
) {
    assert_eq!(rt; ended.cause, cause);
    are(rt, ended.status(), written, status, b"");
    assert_eq!(rt; ended.read_lines, read_lines);
    assert!(rt; ended.report.is_none());
}

/// An end by this cause is told in this text.
fn is_told(rt: &impl Abort, alloc: Global, cause: Cause, text: &str) {
    let mut sink = MemorySink::new(alloc, 16, ListOf::new(alloc));
    assert_eq!(rt; tell(cause, &mut sink), Ok(()));
    assert_eq!(rt; sink.written(), text.as_bytes());
}

#[test]
fn an_empty_script_has_a_summary_alone(rt: HostRuntime) {
    let summary =
        br#"{"summary":{"accepted":0,"answers":0,"bad-tag":0,"delivered":0,"journal":0,"keys":0,"keys-differ":true,"notes":0,"peers":0,"refused":0,"released":0,"sealed":0}}
"#;
    writes(&rt, rt.alloc(), &["trace"], b"", 0, summary);
}

#[test]
fn a_taken_vpn_address_is_refused(rt: HostRuntime) {
    let script =
        br#"{"at":0,"do":"peer-new","lane":0,"peer":{"id":5,"remote-ipv4":"192.0.2.1","remote-port":1194,"vpn-ipv4":"10.8.0.5"}}
{"at":0,"do":"peer-new","lane":0,"peer":{"id":6,"remote-ipv4":"192.0.2.2","remote-port":1194,"vpn-ipv4":"10.8.0.5"}}
{"at":0,"do":"peer-get","lane":0,"peer":{"id":6}}
"#;
    let report = br#"{"at":0,"call":"peer-new","journal":0,"lane":0,"line":0,"reply":{"serial":0}}
{"at":0,"call":"peer-new","journal":1,"lane":0,"line":1,"reply":{"error":17}}
{"at":0,"call":"peer-get","journal":2,"lane":0,"line":2,"reply":{"error":2}}
{"answer":{"serial":0},"lane":0,"line":0}
{"answer":{"error":17},"lane":0,"line":1}
{"answer":{"error":2},"lane":0,"line":2}
{"summary":{"accepted":0,"answers":3,"bad-tag":0,"delivered":0,"journal":3,"keys":0,"keys-differ":true,"notes":0,"peers":1,"refused":0,"released":0,"sealed":0}}
"#;
    writes(&rt, rt.alloc(), &["trace"], script, 0, report);
}

#[test]
fn a_bad_line_or_another_word_runs_nothing(rt: HostRuntime) {
    writes(&rt, rt.alloc(), &["trace"], b"{\n", 2, b"");
    writes(&rt, rt.alloc(), &["trace"], b"\n", 2, b"");
    writes(&rt, rt.alloc(), &["run"], PEER5.as_bytes(), 1, b"");
    writes(&rt, rt.alloc(), &[""], PEER5.as_bytes(), 1, b"");
}

/// A run with these words, which are no plan's, reads and writes nothing; its status is 1, and it tells the usage.
fn tells_usage(rt: &(impl Abort + Threads + Wait + Sync), alloc: Global, words: &[&str]) {
    let (ended, written) = ran(rt, alloc, words, PEER5.as_bytes(), &[], &[]);
    is_unrun(rt, &ended, written.as_slice(), Cause::Usage, 1, 0);
    is_told(rt, alloc, ended.cause, "ovpn: usage: ovpn MODE [options]\n");
}

#[test]
fn words_without_a_plan_run_nothing_and_tell_the_usage(rt: HostRuntime) {
    tells_usage(&rt, rt.alloc(), &[]);
    tells_usage(&rt, rt.alloc(), &["trace", "--lanes", "0"]);
    tells_usage(&rt, rt.alloc(), &["steps", "--schedule", "0,,1"]);
    tells_usage(&rt, rt.alloc(), &["--help"]);
}

/// What the program says where these writes fail ends with this cause, and this is written.
fn says(rt: &impl Abort, alloc: Global, text: &str, writes: &[u64], cause: Cause, written: &[u8]) {
    let mut sink = MemorySink::new(alloc, 16, calls(rt, alloc, writes));
    assert_eq!(rt; say(text, &mut sink), cause);
    assert_eq!(rt; sink.written(), written);
}

#[test]
fn what_the_program_says_is_written_whole_or_a_write_failed(rt: HostRuntime) {
    let (version, help) = (About::Version.text(), About::Help.text());
    says(&rt, rt.alloc(), version, &[], Cause::Fine, b"ovpn 0.1.0\n");
    says(
        &rt,
        rt.alloc(),
        help,
        &[1],
        Cause::WriteFault,
        b"ovpn: the data p",
    );
}

/// The text is the whole one where the status is 0; else the status is 4, and there is no text.
fn is_none_or_whole(rt: &impl Abort, status: u8, text: &[u8], whole: &[u8]) {
    if status == 4 {
        assert!(rt; text.is_empty());
    } else {
        are(rt, status, text, 0, whole);
    }
}

/// A read that fails at this call is told, and nothing is written; or the run never came to it.
fn tells_a_read_fault(
    rt: &(impl Abort + Threads + Wait + Sync),
    alloc: Global,
    number: u64,
    whole: &[u8],
) {
    let (status, written) = run(rt, alloc, &["trace"], PEER5.as_bytes(), &[number], &[]);
    is_none_or_whole(rt, status, written.as_slice(), whole);
}

/// The text is the whole one where the status is 0; else the status is 5, and it is a part from the front.
fn is_part(rt: &impl Abort, status: u8, text: &[u8], whole: &[u8]) {
    assert!(rt; status == 5 || status == 0);
    assert_eq!(rt; status == 0, text.len() == whole.len());
    assert!(rt; whole.starts_with(text));
}

/// A write that fails at this call is told, and a part from the front is written; or the run never came to it.
fn tells_a_write_fault(
    rt: &(impl Abort + Threads + Wait + Sync),
    alloc: Global,
    number: u64,
    whole: &[u8],
) {
    let (status, written) = run(rt, alloc, &["trace"], PEER5.as_bytes(), &[], &[number]);
    is_part(rt, status, written.as_slice(), whole);
}

/// A fault at any of the first calls is told; without one the status is this one, which is 0, and this is written.
fn tells_each_fault(
    rt: &(impl Abort + Threads + Wait + Sync),
    alloc: Global,
    status: u8,
    whole: &[u8],
) {
    assert_eq!(rt; status, 0);
    for number in 0..24_u64 {
        tells_a_read_fault(rt, alloc, number, whole);
        tells_a_write_fault(rt, alloc, number, whole);
    }
}

/// The status of a run where these calls fail.
fn status_of(
    rt: &(impl Abort + Threads + Wait + Sync),
    alloc: Global,
    reads: &[u64],
    writes: &[u64],
) -> u8 {
    let (status, _) = run(rt, alloc, &["trace"], PEER5.as_bytes(), reads, writes);
    status
}

#[test]
fn a_fault_at_any_call_is_told_and_changes_no_report(rt: HostRuntime) {
    let (status, whole) = run(&rt, rt.alloc(), &["trace"], PEER5.as_bytes(), &[], &[]);
    tells_each_fault(&rt, rt.alloc(), status, whole.as_slice());
    assert_eq!(rt; status_of(&rt, rt.alloc(), &[0], &[]), 4);
    assert_eq!(rt; status_of(&rt, rt.alloc(), &[], &[0]), 5);
}

/// A run on a text in memory, in pieces of 16 bytes. Its report is legal for the text's script, where the words ask
/// for no other: what the source gave is known from what it held, and is no premise.
fn traced<K: Sink>(
    rt: &(impl Abort + Threads + Wait + Sync),
    alloc: Global,
    words: &[String],
    text: Octets,
    sink: &mut K,
) -> Ended
    ensures { IfSome result.report (λ report.
        (plan : RunPlan) × IsPlan (map string_bytes words.now) plan ×
        ((script : Script) × (makes plan.mode ≡ false → Read (lanes_of plan) text script) ×
        Legal script (first_id plan) report)) }
{
    let mut source = MemorySource::new(text, 16, ListOf::new(alloc));
    threads::run(rt, alloc, words, &mut source, sink, &OpenGate)
}

/// A run ended well and has a report.
fn has_report(rt: &impl Abort, ended: &Ended) {
    assert_eq!(rt; ended.cause, Cause::Fine);
    assert!(rt; ended.report.is_some());
}

#[test]
fn a_text_in_memory_has_a_report_of_its_script(rt: HostRuntime) {
    let alloc = rt.alloc();
    let words = words_of(&rt, alloc, &["trace"]);
    let text = octets(&rt, alloc, PEER5.as_bytes());
    let mut sink = MemorySink::new(alloc, 16, ListOf::new(alloc));
    let ended = traced(&rt, alloc, words.as_slice(), text, &mut sink);
    has_report(&rt, &ended);
}

#[test]
fn each_cause_is_told_in_its_words(rt: HostRuntime) {
    let table: [(Cause, &str); 11] = [
        (Cause::Fine, ""),
        (Cause::Usage, "ovpn: usage: ovpn MODE [options]\n"),
        (Cause::BadLine(1), "ovpn: line 1 is not in the grammar\n"),
        (
            Cause::BadLine(18_446_744_073_709_551_615),
            "ovpn: line 18446744073709551615 is not in the grammar\n",
        ),
        (Cause::Limit(Limit::LineBytes), "ovpn: limit line-bytes\n"),
        (Cause::Limit(Limit::Lines), "ovpn: limit lines\n"),
        (Cause::Limit(Limit::Bytes), "ovpn: limit bytes\n"),
        (Cause::Limit(Limit::Wide), "ovpn: limit wide\n"),
        (Cause::ReadFault, "ovpn: read fault\n"),
        (Cause::WriteFault, "ovpn: write fault\n"),
        (Cause::Memory, "ovpn: want of memory\n"),
    ];
    for (cause, text) in table {
        is_told(&rt, rt.alloc(), cause, text);
    }
}

/// The second line that tells why a run ended has this text.
fn is_explained(rt: &impl Abort, alloc: Global, ended: &Ended, text: &str) {
    let mut sink = MemorySink::new(alloc, 16, ListOf::new(alloc));
    assert_eq!(rt; tell_why(alloc, ended, &mut sink), Ok(()));
    assert_eq!(rt; sink.written(), text.as_bytes());
}

/// Why a run ended isn't told where the first write fails, and the status is the same.
fn is_not_explained(rt: &impl Abort, alloc: Global, ended: &Ended) {
    let mut broken = MemorySink::new(alloc, 16, calls(rt, alloc, &[0]));
    let status = ended.status();
    assert!(rt; tell_why(alloc, ended, &mut broken).is_err());
    assert_eq!(rt; ended.status(), status);
}

#[test]
fn a_bad_line_is_told_with_why_it_is(rt: HostRuntime) {
    let alloc = rt.alloc();
    let text = br#"{"at":0,"do":"peer-get","lane":0,"peer":{"id":5},"ports":1}"#;
    let (ended, written) = ran(&rt, alloc, &["trace"], text, &[], &[]);
    is_unrun(&rt, &ended, written.as_slice(), Cause::BadLine(1), 2, 0);
    is_told(
        &rt,
        alloc,
        ended.cause,
        "ovpn: line 1 is not in the grammar\n",
    );
    is_explained(
        &rt,
        alloc,
        &ended,
        "ovpn: line 1 is bad: unknown name ports\n",
    );
    is_not_explained(&rt, alloc, &ended);
}

/// This text, and behind it this many spaces.
pub fn spaced(rt: &impl Abort, alloc: Global, text: &[u8], spaces: usize) -> Vec<u8> {
    let Ok(mut bytes) = Vec::from_slice(alloc, text) else {
        panic!(rt; "no memory");
    };
    let length = text.len().saturating_add(spaces);
    assert!(rt; bytes.resize(length, b' ').is_ok());
    bytes
}

#[test]
fn a_script_past_a_limit_runs_nothing(rt: HostRuntime) {
    let alloc = rt.alloc();
    // A line of 262,145 bytes, behind a good one.
    let text = spaced(&rt, alloc, PEER5.as_bytes(), 262_145);
    let (ended, written) = ran(&rt, alloc, &["trace"], text.as_slice(), &[], &[]);
    let limit = Cause::Limit(Limit::LineBytes);
    is_unrun(&rt, &ended, written.as_slice(), limit, 3, 1);
    is_explained(&rt, alloc, &ended, "");
}
