//! Ticks and a down, with other lanes between. Each history is worked by hand from the rules of the steps.

ghost use Rattle.std.specs.Prelude.{◌≡◌, ◌<◌};
ghost use Rattle.std.specs.List.{AllByRecursion};
ghost use Rattle.ov_model.specs.Sizes.{Fits};

use super::{PACKET, dir, line, peer_del};
use ov_base::{Boxed, ListOf, Octets};
use ov_core::{run_schedule, run_serially};
use ov_model::netlink::NO_ATTRIBUTES;
use ov_model::{
    Answer, Cipher, Deed, Entry, Line, NlKeyConf, NlKeyDir, NlMessage, NlOp, NlPeer, Note,
    NoteBody, PingOut, PingOutcome, Reason, Reply, Report, Script, Slot,
};
use std::alloc::Global;
use std::process::Abort;
use std::test::Fail;

/// The packet to 10.8.0.6.
const TO_SIX: [u8; 20] = [
    0x45, 0, 0, 0x14, 0, 0, 0, 0, 0x40, 0x11, 0, 0, 10, 8, 0, 5, 10, 8, 0, 6,
];

/// A line at a moment.
fn line_at(lane: u32, at: u32, deed: Deed) -> Line
    ensures deed { result.deed ≡ deed }
    ensures lane { result.lane ≡ lane }
{
    Line { lane, at, deed }
}

/// The lines of a script without routes.
fn script<const N: usize>(rt: &impl Abort, alloc: Global, lines: [Line; N]) -> Script
    ensures { result.lines ≡ lines.entry }
{
    let Ok(lines) = Vec::from_array(alloc, lines) else {
        panic!(rt; "no memory");
    };
    Script {
        lines: ListOf::of_vec(lines),
        routes: ListOf::new(alloc),
    }
}

/// A message comes.
fn netlink(rt: &impl Abort, alloc: Global, message: NlMessage) -> Deed
    ensures { Fits result }
{
    let Ok(message) = Boxed::new(alloc, message) else {
        panic!(rt; "no memory");
    };
    Deed::Netlink(message)
}

/// A peer is made, which is pinged after 10 seconds and expires after 60. The last number of its addresses is its
/// id.
fn makes_peer(rt: &impl Abort, alloc: Global, id: u8) -> Deed
    ensures { Fits result }
{
    let peer = NlPeer {
        id: Some(u32::from(id)),
        remote_ipv4: Some([192, 0, 2, id]),
        remote_port: Some(1194),
        vpn_ipv4: Some([10, 8, 0, id]),
        keepalive_interval: Some(10),
        keepalive_timeout: Some(60),
        ..NO_ATTRIBUTES
    };
    let message = NlMessage {
        op: NlOp::PeerNew,
        ifindex: None,
        peer: Some(peer),
        keyconf: None,
    };
    netlink(rt, alloc, message)
}

/// A direction of a key.
fn direction(rt: &impl Abort, alloc: Global) -> Option<NlKeyDir> {
    let Ok(direction) = dir(alloc) else {
        panic!(rt; "no memory");
    };
    direction
}

/// A key of a peer is made, key id 2, in its primary slot.
fn makes_key(rt: &impl Abort, alloc: Global, id: u8) -> Deed
    ensures { Fits result }
{
    let keyconf = NlKeyConf {
        peer_id: Some(u32::from(id)),
        slot: Some(Slot::Primary),
        key_id: Some(2),
        cipher: Some(Cipher::AesGcm),
        encrypt: direction(rt, alloc),
        decrypt: direction(rt, alloc),
    };
    let message = NlMessage {
        op: NlOp::KeyNew,
        ifindex: None,
        peer: None,
        keyconf: Some(keyconf),
    };
    netlink(rt, alloc, message)
}

/// A packet is sent.
fn sends(rt: &impl Abort, alloc: Global, packet: &[u8; 20]) -> Deed
    ensures { Fits result }
{
    let Ok(packet) = Octets::of(alloc, packet) else {
        panic!(rt; "no memory");
    };
    Deed::Tx(packet)
}

/// The script in which lane 0 makes peer 5 and its key and ticks at moment 10, and lane 1 removes the peer.
fn due(rt: &impl Abort, alloc: Global) -> Script
    ensures fits { AllByRecursion (λ line. Fits line.deed) result.lines }
    ensures lanes { AllByRecursion (λ line. line.lane < 64) result.lines }
{
    let lines = [
        line(0, makes_peer(rt, alloc, 5)),
        line(0, makes_key(rt, alloc, 5)),
        line_at(0, 10, Deed::Tick),
        line_at(1, 10, netlink(rt, alloc, peer_del())),
    ];
    script(rt, alloc, lines)
}

/// The script in which lane 0 makes peer 5 and its key and ticks at moment 60, and lane 1 sends the packet.
fn expiring(rt: &impl Abort, alloc: Global) -> Script
    ensures fits { AllByRecursion (λ line. Fits line.deed) result.lines }
    ensures lanes { AllByRecursion (λ line. line.lane < 64) result.lines }
{
    let lines = [
        line(0, makes_peer(rt, alloc, 5)),
        line(0, makes_key(rt, alloc, 5)),
        line(1, sends(rt, alloc, &PACKET)),
        line_at(0, 60, Deed::Tick),
    ];
    script(rt, alloc, lines)
}

/// The script in which lane 0 makes peers 6 and 5, each with a key, and ticks at moment 60.
fn two_expiring(rt: &impl Abort, alloc: Global) -> Script
    ensures fits { AllByRecursion (λ line. Fits line.deed) result.lines }
    ensures lanes { AllByRecursion (λ line. line.lane < 64) result.lines }
{
    let lines = [
        line(0, makes_peer(rt, alloc, 6)),
        line(0, makes_key(rt, alloc, 6)),
        line(0, makes_peer(rt, alloc, 5)),
        line(0, makes_key(rt, alloc, 5)),
        line_at(0, 60, Deed::Tick),
    ];
    script(rt, alloc, lines)
}

/// The script in which lane 0 makes peers 5 and 6, each with a key, and peer 7, lanes 1 and 2 send a packet each,
/// and in lane 3 the device goes down.
fn going_down(rt: &impl Abort, alloc: Global) -> Script
    ensures fits { AllByRecursion (λ line. Fits line.deed) result.lines }
    ensures lanes { AllByRecursion (λ line. line.lane < 64) result.lines }
{
    let lines = [
        line(0, makes_peer(rt, alloc, 5)),
        line(0, makes_key(rt, alloc, 5)),
        line(0, makes_peer(rt, alloc, 6)),
        line(0, makes_key(rt, alloc, 6)),
        line(0, makes_peer(rt, alloc, 7)),
        line(1, sends(rt, alloc, &PACKET)),
        line(2, sends(rt, alloc, &TO_SIX)),
        line(3, Deed::Down),
    ];
    script(rt, alloc, lines)
}

/// The serials that a reply says were removed.
fn removed(reply: &Reply) -> &[u32] {
    match reply {
        Reply::Removed(peers) => peers.as_slice(),
        Reply::Ticked { expired, .. } => expired.as_slice(),
        _ => &[],
    }
}

/// The serials that a reply says are due.
fn due_by(reply: &Reply) -> &[u32] {
    match reply {
        Reply::Ticked { due, .. } => due.as_slice(),
        _ => &[],
    }
}

/// The lanes of a report's steps.
fn lanes_are(rt: &impl Abort, report: &Report, lanes: &[u32]) {
    let journal = report.journal.as_slice();
    assert_eq!(rt; journal.len(), lanes.len());
    for (entry, lane) in journal.iter().zip(lanes.iter()) {
        assert_eq!(rt; entry.place.lane, *lane);
    }
}

/// A step lets a key go.
fn lets_key_go(rt: &impl Abort, entry: &Entry, key: u32) {
    assert_eq!(rt; entry.reply, Reply::KeyReleased(key));
}

/// A step lets a peer go.
fn lets_go(rt: &impl Abort, entry: &Entry, peer: u32) {
    assert_eq!(rt; entry.reply, Reply::Released(peer));
}

/// A note says that a step removed a peer.
fn tells(rt: &impl Abort, note: &Note, entry: u64, peer: u32, why: Reason) {
    assert_eq!(rt; note.entry, entry);
    let NoteBody::PeerDel { id, reason } = note.body else {
        panic!(rt; "another note");
    };
    assert_eq!(rt; (id.get(), reason), (peer, why));
}

/// The one ping of a lane's last answer.
fn ping(report: &Report, lane: usize) -> Option<&PingOut> {
    let log = report.lanes.as_slice().get(lane)?;
    let Answer::Ticked { pings, .. } = log.answers.as_slice().last()? else {
        return None;
    };
    let [ping] = pings.as_slice() else {
        return None;
    };
    Some(ping)
}

#[test]
fn a_due_peer_that_another_lane_removed_gets_no_ping(rt: HostRuntime) -> Result<(), Fail> {
    // Lane 0 makes peer and key and ticks; lane 1 removes the peer and lets both go; lane 0 looks it up.
    let report = run_schedule(rt.alloc(), due(&rt, rt.alloc()), 1, &[0, 0, 0, 1, 1, 1])?;
    lanes_are(&rt, &report, &[0, 0, 0, 1, 1, 1, 0]);
    let [_, _, tick, del, key, peer, look] = report.journal.as_slice() else {
        panic!(rt; "not seven steps");
    };
    assert_eq!(rt; removed(&tick.reply), [0u32; 0].as_slice());
    assert_eq!(rt; due_by(&tick.reply), [0u32].as_slice());
    assert_eq!(rt; removed(&del.reply), [0u32].as_slice());
    lets_key_go(&rt, key, 0);
    lets_go(&rt, peer, 0);
    assert_eq!(rt; look.reply, Reply::Skip);
    let Some(ping) = ping(&report, 0) else {
        panic!(rt; "not one ping");
    };
    assert_eq!(rt; ping.peer, 0);
    assert_eq!(rt; ping.outcome, PingOutcome::Skip);
    Ok(())
}

#[test]
fn a_due_peer_gets_a_ping(rt: HostRuntime) -> Result<(), Fail> {
    // Lane 0 makes peer and key, ticks, looks the peer up and sends; then lane 1 removes the peer.
    let report = run_serially(rt.alloc(), due(&rt, rt.alloc()), 1)?;
    lanes_are(&rt, &report, &[0, 0, 0, 0, 0, 1, 1, 1]);
    let [_, _, tick, _, sent, del, key, peer] = report.journal.as_slice() else {
        panic!(rt; "not eight steps");
    };
    assert_eq!(rt; due_by(&tick.reply), [0u32].as_slice());
    assert_eq!(rt; sent.reply, Reply::Done);
    assert_eq!(rt; removed(&del.reply), [0u32].as_slice());
    lets_key_go(&rt, key, 0);
    lets_go(&rt, peer, 0);
    let Some(ping) = ping(&report, 0) else {
        panic!(rt; "not one ping");
    };
    let PingOutcome::Sealed(out) = &ping.outcome else {
        panic!(rt; "not sealed");
    };
    // The head, the tag and the 16 bytes of the keepalive message.
    assert_eq!(rt;
        (out.key, out.id, out.datagram.as_slice().len()),
        (0, 1, 40)
    );
    Ok(())
}

#[test]
fn an_expired_peer_that_is_held_is_let_go_by_its_holder(rt: HostRuntime) -> Result<(), Fail> {
    // Lane 0 makes peer and key; lane 1 looks up; lane 0 ticks; lane 1 sends and lets key and peer go.
    let report = run_schedule(rt.alloc(), expiring(&rt, rt.alloc()), 1, &[0, 0, 1, 0])?;
    lanes_are(&rt, &report, &[0, 0, 1, 0, 1, 1, 1]);
    let [_, _, _, tick, sent, key, peer] = report.journal.as_slice() else {
        panic!(rt; "not seven steps");
    };
    assert_eq!(rt; removed(&tick.reply), [0u32].as_slice());
    assert_eq!(rt; due_by(&tick.reply), [0u32; 0].as_slice());
    assert_eq!(rt; sent.reply, Reply::Done);
    lets_key_go(&rt, key, 0);
    lets_go(&rt, peer, 0);
    let [note] = report.notes.as_slice() else {
        panic!(rt; "not one note");
    };
    tells(&rt, note, 3, 5, Reason::Expired);
    Ok(())
}

#[test]
fn all_expired_peers_are_let_go_by_rising_id(rt: HostRuntime) -> Result<(), Fail> {
    // Peer 6 has serial 0, peer 5 has serial 1, each with the key of its number: the keys go first, then the peers.
    let report = run_serially(rt.alloc(), two_expiring(&rt, rt.alloc()), 1)?;
    let [_, _, _, _, tick, first_key, second_key, first, second] = report.journal.as_slice() else {
        panic!(rt; "not nine steps");
    };
    assert_eq!(rt; removed(&tick.reply), [1u32, 0].as_slice());
    lets_key_go(&rt, first_key, 1);
    lets_key_go(&rt, second_key, 0);
    lets_go(&rt, first, 1);
    lets_go(&rt, second, 0);
    let [five, six] = report.notes.as_slice() else {
        panic!(rt; "not two notes");
    };
    tells(&rt, five, 4, 5, Reason::Expired);
    tells(&rt, six, 4, 6, Reason::Expired);
    Ok(())
}

#[test]
fn a_down_leaves_what_is_held_to_its_holders(rt: HostRuntime) -> Result<(), Fail> {
    // Lanes 1 and 2 look up, then lane 3 removes all three peers. Lane 1 lets peer 5 go, lane 2 peer 6, and lane 3
    // the one that nobody holds.
    let turns = [0, 0, 0, 0, 0, 1, 2, 3];
    let report = run_schedule(rt.alloc(), going_down(&rt, rt.alloc()), 1, &turns)?;
    lanes_are(&rt, &report, &[0, 0, 0, 0, 0, 1, 2, 3, 1, 1, 1, 2, 2, 2, 3]);
    let [.., down, sent, key, peer, later, next_key, next, last] = report.journal.as_slice() else {
        panic!(rt; "too few steps");
    };
    assert_eq!(rt; removed(&down.reply), [0u32, 1, 2].as_slice());
    assert_eq!(rt; sent.reply, Reply::Done);
    lets_key_go(&rt, key, 0);
    lets_go(&rt, peer, 0);
    assert_eq!(rt; later.reply, Reply::Done);
    lets_key_go(&rt, next_key, 1);
    lets_go(&rt, next, 1);
    lets_go(&rt, last, 2);
    let [five, six, seven] = report.notes.as_slice() else {
        panic!(rt; "not three notes");
    };
    tells(&rt, five, 7, 5, Reason::Teardown);
    tells(&rt, six, 7, 6, Reason::Teardown);
    tells(&rt, seven, 7, 7, Reason::Teardown);
    Ok(())
}
