use ov_base::{Addr, ListOf, MemorySink, Octets, Transport};
use ov_model::{
    Act, Answer, Attrs, Call, Command, DropCause, Entry, Errno, HoldView, KeyBytes, KeyConf,
    KeyDir, KeyId, LaneLog, Note, NoteBody, PeerId, PingOut, PingOutcome, Place, Reason,
    ReplayEntry, Reply, Report, SealedOut, Slot, Verdict,
};
use ov_report::{PrintStop, keys_differ, print_report, summary_line};
use std::alloc::Global;
use std::process::Abort;

/// The log of a lane with these answers.
fn log_of(alloc: Global, answers: Vec<Answer>) -> LaneLog {
    LaneLog {
        lines: ListOf::new(alloc),
        answers: ListOf::of_vec(answers),
        recorded: 0,
        unsent: ListOf::new(alloc),
    }
}

/// The report of one lane with these histories; all lines of its lane are answered.
fn report(
    rt: &impl Abort,
    alloc: Global,
    journal: Vec<Entry>,
    shards: ListOf<ListOf<ReplayEntry>>,
    answers: Vec<Answer>,
    notes: Vec<Note>,
) -> Report {
    let mut lanes = ListOf::new(alloc);
    push_log(rt, &mut lanes, log_of(alloc, answers));
    Report {
        lanes,
        journal: ListOf::of_vec(journal),
        notes: ListOf::of_vec(notes),
        shards,
    }
}

fn push_log(rt: &impl Abort, lanes: &mut ListOf<LaneLog>, log: LaneLog) {
    assert!(rt; lanes.push(log).is_ok());
}

fn push_entry(rt: &impl Abort, journal: &mut Vec<Entry>, entry: Entry) {
    assert!(rt; journal.push(entry).is_ok());
}

fn push_answer(rt: &impl Abort, answers: &mut Vec<Answer>, answer: Answer) {
    assert!(rt; answers.push(answer).is_ok());
}

fn push_ping(rt: &impl Abort, pings: &mut ListOf<PingOut>, ping: PingOut) {
    assert!(rt; pings.push(ping).is_ok());
}

fn push_shard(
    rt: &impl Abort,
    shards: &mut ListOf<ListOf<ReplayEntry>>,
    alloc: Global,
    steps: &[ReplayEntry],
) {
    let Ok(shard) = Vec::from_slice(alloc, steps) else {
        panic!(rt; "no memory");
    };
    assert!(rt; shards.push(ListOf::of_vec(shard)).is_ok());
}

/// Eight shards, the first and the last with these steps.
fn shards(
    rt: &impl Abort,
    alloc: Global,
    first: &[ReplayEntry],
    last: &[ReplayEntry],
) -> ListOf<ListOf<ReplayEntry>> {
    let mut all = ListOf::new(alloc);
    push_shard(rt, &mut all, alloc, first);
    for _shard in 1..7 {
        push_shard(rt, &mut all, alloc, &[]);
    }
    push_shard(rt, &mut all, alloc, last);
    all
}

/// A report's text is this one where these writes fail, or ends so early. A write takes all that it is given.
fn is_printed(
    rt: &impl Abort,
    alloc: Global,
    report: &Report,
    failing: &[u64],
    wanted: Result<(), PrintStop>,
    text: &[u8],
) {
    let Ok(failing) = Vec::from_slice(alloc, failing) else {
        panic!(rt; "no memory");
    };
    let mut sink = MemorySink::new(alloc, usize::MAX, ListOf::of_vec(failing));
    let ended = print_report(alloc, report, &mut sink);
    assert!(rt; ended == wanted);
    assert!(rt; sink.written() == text);
}

/// The whole text of a report is this one.
fn has_text(rt: &impl Abort, alloc: Global, report: &Report, text: &str) {
    is_printed(rt, alloc, report, &[], Ok(()), text.as_bytes());
}

/// The bytes of an octet string.
fn octets(rt: &impl Abort, alloc: Global, bytes: &[u8]) -> Octets {
    let Ok(made) = Octets::of(alloc, bytes) else {
        panic!(rt; "no memory");
    };
    made
}

/// An entry of lane 0.
fn entry(line: u64, at: u32, act: Act, reply: Reply) -> Entry {
    Entry {
        place: Place { lane: 0, line },
        call: Call { at, act },
        reply,
    }
}

/// The list of this serial.
fn serial(rt: &impl Abort, alloc: Global, number: u32) -> ListOf<u32> {
    let mut list = ListOf::new(alloc);
    assert!(rt; list.push(number).is_ok());
    list
}

/// The remote 192.0.2.1 with port 1194.
fn remote() -> Transport {
    Transport {
        addr: Addr::V4([192, 0, 2, 1]),
        port: 1194,
    }
}

/// The summary of a report is this line.
fn has_summary(rt: &impl Abort, alloc: Global, report: &Report, text: &str) {
    let Ok(line) = summary_line(alloc, report) else {
        panic!(rt; "no memory");
    };
    assert!(rt; line.as_slice() == text.as_bytes());
}

#[test]
fn an_empty_report_is_its_summary(rt: HostRuntime) {
    let alloc = rt.alloc();
    let none = shards(&rt, alloc, &[], &[]);
    let empty = report(
        &rt,
        alloc,
        Vec::new(alloc),
        none,
        Vec::new(alloc),
        Vec::new(alloc),
    );
    let line =
        r#"{"summary":{"accepted":0,"answers":0,"bad-tag":0,"delivered":0,"journal":0,"keys":0,"keys-differ":true,"notes":0,"peers":0,"refused":0,"released":0,"sealed":0}}
"#;
    has_text(&rt, alloc, &empty, line);
    has_summary(&rt, alloc, &empty, line);
}

/// The peer 5 is made, removed, released, and asked for in vain.
fn journal_of(rt: &impl Abort, alloc: Global, id: PeerId) -> Vec<Entry> {
    let attrs = Attrs {
        id,
        remote: Some(remote()),
        vpn4: Some([10, 8, 0, 5]),
        vpn6: None,
        keepalive: None,
    };
    let made = Act::Do(Command::PeerNew(attrs));
    let remove = Act::Do(Command::Remove(id, Reason::Userspace));
    let get = Act::Do(Command::PeerGet(id));
    let removed = Reply::Removed(serial(rt, alloc, 0));
    let mut journal = Vec::new(alloc);
    push_entry(rt, &mut journal, entry(0, 0, made, Reply::Made(0)));
    push_entry(rt, &mut journal, entry(1, 2, remove, removed));
    push_entry(
        rt,
        &mut journal,
        entry(1, 2, Act::Released(0), Reply::Released(0)),
    );
    push_entry(
        rt,
        &mut journal,
        entry(2, 3, get, Reply::Refused(Errno::NoEntry)),
    );
    journal
}

/// The answers to its three lines.
fn answers_of(rt: &impl Abort, alloc: Global) -> Vec<Answer> {
    let mut answers = Vec::new(alloc);
    push_answer(rt, &mut answers, Answer::Reply(Reply::Made(0)));
    let removed = Reply::Removed(serial(rt, alloc, 0));
    push_answer(rt, &mut answers, Answer::Reply(removed));
    let refused = Reply::Refused(Errno::NoEntry);
    push_answer(rt, &mut answers, Answer::Reply(refused));
    answers
}

/// The note of its removal.
fn notes_of(rt: &impl Abort, alloc: Global, id: PeerId) -> Vec<Note> {
    let body = NoteBody::PeerDel {
        id,
        reason: Reason::Userspace,
    };
    let mut notes = Vec::new(alloc);
    assert!(rt; notes.push(Note { entry: 1, body }).is_ok());
    notes
}

#[test]
fn a_session_of_one_peer_has_its_nine_lines(rt: HostRuntime) {
    let alloc = rt.alloc();
    let Some(id) = PeerId::new(5) else {
        panic!(rt; "an id in range");
    };
    let none = shards(&rt, alloc, &[], &[]);
    let session = report(
        &rt,
        alloc,
        journal_of(&rt, alloc, id),
        none,
        answers_of(&rt, alloc),
        notes_of(&rt, alloc, id),
    );
    has_text(
        &rt,
        alloc,
        &session,
        r#"{"at":0,"call":"peer-new","journal":0,"lane":0,"line":0,"reply":{"serial":0}}
{"at":2,"call":"remove","journal":1,"lane":0,"line":1,"reply":{"removed":[0]}}
{"at":2,"call":"released","journal":2,"lane":0,"line":1,"reply":{"released":0}}
{"at":3,"call":"peer-get","journal":3,"lane":0,"line":2,"reply":{"error":2}}
{"answer":{"serial":0},"lane":0,"line":0}
{"answer":{"removed":[0]},"lane":0,"line":1}
{"answer":{"error":2},"lane":0,"line":2}
{"journal":1,"notify":"peer-del-ntf","peer":{"del-reason":"userspace","id":5}}
{"summary":{"accepted":0,"answers":3,"bad-tag":0,"delivered":0,"journal":4,"keys":0,"keys-differ":true,"notes":1,"peers":1,"refused":0,"released":1,"sealed":0}}
"#,
    );
}

/// A datagram of one byte to the remote, sealed with the key of serial 0.
fn sealed(rt: &impl Abort, alloc: Global, id: u32, byte: u8) -> SealedOut {
    SealedOut {
        to: remote(),
        key: 0,
        id,
        datagram: octets(rt, alloc, &[byte]),
    }
}

/// The answer of a tick that removed the peer 1, sealed a ping to the peer 0 and passed the peer 2 over.
fn ticked(rt: &impl Abort, alloc: Global) -> Answer {
    let mut pings = ListOf::new(alloc);
    let first = PingOut {
        peer: 0,
        outcome: PingOutcome::Sealed(sealed(rt, alloc, 2, 0x4b)),
    };
    push_ping(rt, &mut pings, first);
    let second = PingOut {
        peer: 2,
        outcome: PingOutcome::Skip,
    };
    push_ping(rt, &mut pings, second);
    Answer::Ticked {
        expired: serial(rt, alloc, 1),
        pings,
    }
}

#[test]
fn sealed_pings_count_as_sealed(rt: HostRuntime) {
    let alloc = rt.alloc();
    let mut answers = Vec::new(alloc);
    let first = Answer::Sealed(sealed(&rt, alloc, 1, 0x4a));
    push_answer(&rt, &mut answers, first);
    push_answer(&rt, &mut answers, ticked(&rt, alloc));
    let none = shards(&rt, alloc, &[], &[]);
    let session = report(&rt, alloc, Vec::new(alloc), none, answers, Vec::new(alloc));
    has_text(
        &rt,
        alloc,
        &session,
        r#"{"answer":{"sealed":{"datagram":"4a","id":1,"key":0,"to":{"addr":"192.0.2.1","port":1194}}},"lane":0,"line":0}
{"answer":{"expired":[1],"pings":[{"outcome":{"sealed":{"datagram":"4b","id":2,"key":0,"to":{"addr":"192.0.2.1","port":1194}}},"peer":0},{"outcome":{"none":"skip"},"peer":2}]},"lane":0,"line":1}
{"summary":{"accepted":0,"answers":2,"bad-tag":0,"delivered":0,"journal":0,"keys":0,"keys-differ":true,"notes":0,"peers":0,"refused":0,"released":0,"sealed":2}}
"#,
    );
}

/// A replay step of the id 1 at 0.
fn judged(line: u64, key: u32, verdict: Verdict) -> ReplayEntry {
    ReplayEntry {
        place: Place { lane: 0, line },
        key,
        id: 1,
        at: 0,
        moment: 0,
        verdict,
    }
}

/// A key-new with these directions.
fn key_new(encrypt: KeyDir, decrypt: KeyDir) -> Option<Act> {
    let peer = PeerId::new(5)?;
    let key_id = KeyId::new(2)?;
    Some(Act::Do(Command::KeyNew(KeyConf {
        peer,
        slot: Slot::Primary,
        key_id,
        encrypt,
        decrypt,
    })))
}

/// The journal of a key that is made.
fn journal_of_a_key(rt: &impl Abort, alloc: Global) -> Vec<Entry> {
    let dir = KeyDir {
        key: KeyBytes::K16([0; 16]),
        tail: [0; 8],
    };
    let Some(made) = key_new(dir, dir) else {
        panic!(rt; "ids in range");
    };
    let mut journal = Vec::new(alloc);
    push_entry(rt, &mut journal, entry(1, 0, made, Reply::Made(0)));
    journal
}

/// A packet of one byte from the peer 5.
fn delivered(rt: &impl Abort, alloc: Global) -> Answer {
    let Some(peer) = PeerId::new(5) else {
        panic!(rt; "an id in range");
    };
    Answer::Delivered {
        peer,
        packet: octets(rt, alloc, &[0x45]),
    }
}

/// What became of a packet and of four datagrams.
fn answers_to_packets(rt: &impl Abort, alloc: Global) -> Vec<Answer> {
    let mut answers = Vec::new(alloc);
    let first = Answer::Sealed(sealed(rt, alloc, 1, 0x4a));
    push_answer(rt, &mut answers, first);
    push_answer(rt, &mut answers, delivered(rt, alloc));
    push_answer(rt, &mut answers, Answer::Dropped(DropCause::Again));
    push_answer(rt, &mut answers, Answer::Dropped(DropCause::BadTag));
    push_answer(rt, &mut answers, Answer::Dropped(DropCause::BadTag));
    answers
}

#[test]
fn replay_steps_stand_between_entries_and_answers(rt: HostRuntime) {
    let alloc = rt.alloc();
    let steps = shards(
        &rt,
        alloc,
        &[judged(2, 0, Verdict::Accept), judged(3, 0, Verdict::Again)],
        &[judged(4, 7, Verdict::Accept)],
    );
    let session = report(
        &rt,
        alloc,
        journal_of_a_key(&rt, alloc),
        steps,
        answers_to_packets(&rt, alloc),
        Vec::new(alloc),
    );
    has_text(
        &rt,
        alloc,
        &session,
        r#"{"at":0,"call":"key-new","journal":0,"lane":0,"line":1,"reply":{"serial":0}}
{"at":0,"id":1,"key":0,"lane":0,"line":2,"moment":0,"shard":0,"verdict":"accept"}
{"at":0,"id":1,"key":0,"lane":0,"line":3,"moment":0,"shard":0,"verdict":"again"}
{"at":0,"id":1,"key":7,"lane":0,"line":4,"moment":0,"shard":7,"verdict":"accept"}
{"answer":{"sealed":{"datagram":"4a","id":1,"key":0,"to":{"addr":"192.0.2.1","port":1194}}},"lane":0,"line":0}
{"answer":{"delivered":{"packet":"45","peer":5}},"lane":0,"line":1}
{"answer":{"dropped":"again"},"lane":0,"line":2}
{"answer":{"dropped":"bad-tag"},"lane":0,"line":3}
{"answer":{"dropped":"bad-tag"},"lane":0,"line":4}
{"summary":{"accepted":2,"answers":5,"bad-tag":2,"delivered":1,"journal":1,"keys":1,"keys-differ":true,"notes":0,"peers":0,"refused":1,"released":0,"sealed":1}}
"#,
    );
}

/// The answers of a lane: those of the lanes 0, 2 and 63, and none of the others.
fn answers_of_lane(rt: &impl Abort, alloc: Global, lane: u32) -> Vec<Answer> {
    let mut answers = Vec::new(alloc);
    match lane {
        0 => {
            push_answer(rt, &mut answers, Answer::Reply(Reply::Made(0)));
            push_answer(rt, &mut answers, Answer::Dropped(DropCause::BadTag));
        }
        2 => push_answer(rt, &mut answers, delivered(rt, alloc)),
        63 => {
            push_answer(rt, &mut answers, Answer::Dropped(DropCause::BadTag));
            push_answer(rt, &mut answers, Answer::Control);
        }
        _ => (),
    }
    answers
}

/// The logs of all lanes.
fn logs(rt: &impl Abort, alloc: Global) -> ListOf<LaneLog> {
    let mut lanes = ListOf::new(alloc);
    for lane in 0..64_u32 {
        let answers = answers_of_lane(rt, alloc, lane);
        push_log(rt, &mut lanes, log_of(alloc, answers));
    }
    lanes
}

#[test]
fn the_answers_of_the_lanes_stand_in_the_lanes_order(rt: HostRuntime) {
    let alloc = rt.alloc();
    let report = Report {
        lanes: logs(&rt, alloc),
        journal: ListOf::new(alloc),
        notes: ListOf::new(alloc),
        shards: shards(&rt, alloc, &[], &[]),
    };
    has_text(
        &rt,
        alloc,
        &report,
        r#"{"answer":{"serial":0},"lane":0,"line":0}
{"answer":{"dropped":"bad-tag"},"lane":0,"line":1}
{"answer":{"delivered":{"packet":"45","peer":5}},"lane":2,"line":0}
{"answer":{"dropped":"bad-tag"},"lane":63,"line":0}
{"answer":{"passed":"control"},"lane":63,"line":1}
{"summary":{"accepted":0,"answers":5,"bad-tag":2,"delivered":1,"journal":0,"keys":0,"keys-differ":true,"notes":0,"peers":0,"refused":0,"released":0,"sealed":0}}
"#,
    );
}

/// Whether the keys of two lines differ, where the second has this reply.
fn differ(
    rt: &impl Abort,
    alloc: Global,
    first: (KeyDir, KeyDir),
    second: (KeyDir, KeyDir),
    reply: Reply,
) -> bool {
    let (Some(one), Some(two)) = (key_new(first.0, first.1), key_new(second.0, second.1)) else {
        panic!(rt; "ids in range");
    };
    let journal = [entry(0, 0, one, Reply::Made(0)), entry(1, 0, two, reply)];
    let Ok(told) = keys_differ(alloc, &journal) else {
        panic!(rt; "no memory");
    };
    told
}

/// Whether two keys differ is as wanted. One key differs from no other, and neither does one that was refused.
fn differ_so(
    rt: &impl Abort,
    alloc: Global,
    first: (KeyDir, KeyDir),
    second: (KeyDir, KeyDir),
    wanted: bool,
) {
    assert_eq!(rt; differ(rt, alloc, first, second, Reply::Made(1)), wanted);
    assert!(rt; differ(rt, alloc, first, second, Reply::Refused(Errno::NoSpace)));
}

#[test]
fn keys_differ_by_their_sealing_key_and_tail(rt: HostRuntime) {
    let alloc = rt.alloc();
    let zero = KeyDir {
        key: KeyBytes::K16([0; 16]),
        tail: [0; 8],
    };
    let longer = KeyDir {
        key: KeyBytes::K24([0; 24]),
        ..zero
    };
    let other_tail = KeyDir {
        tail: [1; 8],
        ..zero
    };
    let other_key = KeyDir {
        key: KeyBytes::K16([1; 16]),
        ..zero
    };
    // What two keys seal and open with, and whether they differ.
    differ_so(&rt, alloc, (zero, zero), (zero, zero), false);
    differ_so(&rt, alloc, (zero, zero), (zero, other_key), false);
    differ_so(&rt, alloc, (zero, zero), (longer, zero), true);
    differ_so(&rt, alloc, (zero, zero), (other_tail, zero), true);
    differ_so(&rt, alloc, (zero, other_key), (other_key, zero), true);
    differ_so(&rt, alloc, (longer, zero), (longer, zero), false);
    assert_eq!(rt; keys_differ(alloc, &[]), Ok(true));
}

/// The answer of a delivered packet of 1,000 zeros.
fn long_answer(rt: &impl Abort, alloc: Global) -> Answer {
    let Some(peer) = PeerId::new(5) else {
        panic!(rt; "an id in range");
    };
    Answer::Delivered {
        peer,
        packet: octets(rt, alloc, &[0; 1_000]),
    }
}

fn push_text(rt: &impl Abort, text: &mut Vec<u8>, piece: &[u8]) {
    assert!(rt; text.extend_from_slice(piece).is_ok());
}

/// Puts the line of that answer.
fn push_long_line(rt: &impl Abort, text: &mut Vec<u8>, number: u64, alloc: Global) {
    let Ok(digits) = format!(in alloc; "{number}") else {
        panic!(rt; "no memory");
    };
    push_text(rt, text, br#"{"answer":{"delivered":{"packet":""#);
    push_text(rt, text, &[b'0'; 2_000]);
    push_text(rt, text, br#"","peer":5}},"lane":0,"line":"#);
    push_text(rt, text, digits.as_bytes());
    push_text(rt, text, b"}\n");
}

/// Puts the lines of forty such answers, and the summary. Gives the length of the first piece that is written, whose
/// last line is the first with which the text so far has at least 65,536 bytes.
fn push_long_text(rt: &impl Abort, text: &mut Vec<u8>, alloc: Global) -> usize {
    let mut first_piece = 0;
    for number in 0..40_u64 {
        push_long_line(rt, text, number, alloc);
        if first_piece == 0 && text.len() >= 65_536 {
            first_piece = text.len();
        }
    }
    push_text(
        rt,
        text,
        br#"{"summary":{"accepted":0,"answers":40,"bad-tag":0,"delivered":40,"journal":0,"keys":0,"keys-differ":true,"notes":0,"peers":0,"refused":0,"released":0,"sealed":0}}
"#,
    );
    first_piece
}

/// What is written of a long text where a write fails.
fn is_written_in_pieces(rt: &impl Abort, alloc: Global, long: &Report, text: &[u8], first: usize) {
    let failed = Err(PrintStop::Write);
    let Some(piece) = text.get(..first) else {
        panic!(rt; "no piece");
    };
    is_printed(rt, alloc, long, &[0], failed, b"");
    is_printed(rt, alloc, long, &[1], failed, piece);
    is_printed(rt, alloc, long, &[2], Ok(()), text);
    is_printed(rt, alloc, long, &[], Ok(()), text);
}

#[test]
fn a_long_text_is_written_in_pieces(rt: HostRuntime) {
    let alloc = rt.alloc();
    let mut text = Vec::new(alloc);
    let first = push_long_text(&rt, &mut text, alloc);
    let mut answers = Vec::new(alloc);
    for _number in 0..40_u64 {
        push_answer(&rt, &mut answers, long_answer(&rt, alloc));
    }
    let none = shards(&rt, alloc, &[], &[]);
    let long = report(&rt, alloc, Vec::new(alloc), none, answers, Vec::new(alloc));
    is_written_in_pieces(&rt, alloc, &long, text.as_slice(), first);
}
