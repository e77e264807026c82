// Ticks and a down at the plain desk: the pings of the due peers, in order, and what they are answered.

ghost use Rattle.ov_model.specs.Sizes.{Fits};

use super::plain::Plain;
use super::walks::{REMOTE, Seen, answers_as, desk_at, has_seen, run};
use super::{FIRST_PING, SECOND_PING};
use ov_model::{Answer, Command, Deed, Drawn, Given, Line, PingOut, PingOutcome, Reply};
use std::alloc::Global;
use std::process::Abort;

/// What a ping should have become.
#[derive(Clone, Copy, Debug, PartialEq, Eq)]
enum Wanted {
    /// Sealed with the key's first packet id, or with the second.
    First,
    Second,
    Spent,
    Skip,
}

/// A line at moment 9.
fn line_of(tick: bool) -> Line
    ensures { Fits result.deed }
{
    let deed = if tick { Deed::Tick } else { Deed::Down };
    Line {
        lane: 0,
        at: 9,
        deed,
    }
}

/// A ping that was sealed with this packet id as this datagram, for the peer's remote.
fn is_sealed(rt: &impl Abort, outcome: &PingOutcome, id: u32, datagram: &[u8]) {
    let PingOutcome::Sealed(sealed) = outcome else {
        panic!(rt; "not sealed");
    };
    assert_eq!(rt; sealed.to, REMOTE);
    assert_eq!(rt; sealed.key, 0);
    assert_eq!(rt; sealed.id, id);
    assert_eq!(rt; sealed.datagram.as_slice(), datagram);
}

/// A ping is of this peer, and became what it should.
fn is_out(rt: &impl Abort, out: &PingOut, peer: u32, wanted: Wanted) {
    assert_eq!(rt; out.peer, peer);
    match wanted {
        Wanted::First => is_sealed(rt, &out.outcome, 1, &FIRST_PING),
        Wanted::Second => is_sealed(rt, &out.outcome, 2, &SECOND_PING),
        Wanted::Spent => assert!(rt; matches!(out.outcome, PingOutcome::Spent)),
        Wanted::Skip => assert!(rt; matches!(out.outcome, PingOutcome::Skip)),
    }
}

/// Runs a tick that finds these peers due, and holds the outcomes and the events against those that it should
/// have.
fn ticks_as(
    rt: &impl Abort,
    alloc: Global,
    desk: &mut Plain,
    due: &[u32],
    outs: &[(u32, Wanted)],
    events: &[Seen],
) {
    let Ok(due) = Vec::from_slice(alloc, due) else {
        panic!(rt; "no memory");
    };
    desk.finds_due(due);
    let line = line_of(true);
    let Ok(Some(answer)) = run(alloc, desk, &line) else {
        panic!(rt; "no answer");
    };
    let Answer::Ticked { pings, .. } = &answer else {
        panic!(rt; "not ticked");
    };
    assert_eq!(rt; pings.len(), outs.len());
    for (out, (peer, wanted)) in pings.as_slice().iter().zip(outs) {
        is_out(rt, out, *peer, *wanted);
    }
    drop(answer);
    drop(line);
    has_seen(rt, alloc, desk, events);
}

#[test]
fn each_due_peer_is_sent_a_ping_in_order(rt: HostRuntime) {
    let mut desk = desk_at(&rt, rt.alloc(), 1);
    let one = [
        Seen::Do(Command::Tick),
        Seen::KeepLook(3),
        Seen::Draw(Drawn::Id(1)),
        Seen::Ping,
        Seen::Key(Given::More),
        Seen::Peer(Given::More),
    ];
    ticks_as(
        &rt,
        rt.alloc(),
        &mut desk,
        &[3],
        &[(3, Wanted::First)],
        &one,
    );
    drop(desk);
    let mut desk = desk_at(&rt, rt.alloc(), 1);
    let two = [
        Seen::Do(Command::Tick),
        Seen::KeepLook(3),
        Seen::Draw(Drawn::Id(1)),
        Seen::Ping,
        Seen::Key(Given::More),
        Seen::Peer(Given::More),
        Seen::KeepLook(1),
        Seen::Draw(Drawn::Id(2)),
        Seen::Ping,
        Seen::Key(Given::More),
        Seen::Peer(Given::More),
    ];
    let outs = [(3, Wanted::First), (1, Wanted::Second)];
    ticks_as(&rt, rt.alloc(), &mut desk, &[3, 1], &outs, &two);
    drop(desk);
}

#[test]
fn a_due_peer_that_takes_no_ping_is_skipped(rt: HostRuntime) {
    let mut desk = desk_at(&rt, rt.alloc(), 1);
    desk.has_no_key(3);
    let events = [
        Seen::Do(Command::Tick),
        Seen::KeepLook(3),
        Seen::KeepLook(1),
        Seen::Draw(Drawn::Id(1)),
        Seen::Ping,
        Seen::Key(Given::More),
        Seen::Peer(Given::More),
    ];
    let outs = [(3, Wanted::Skip), (1, Wanted::First)];
    ticks_as(&rt, rt.alloc(), &mut desk, &[3, 1], &outs, &events);
    drop(desk);
}

#[test]
fn a_ping_under_a_spent_key_takes_it_out(rt: HostRuntime) {
    let mut desk = desk_at(&rt, rt.alloc(), 4_294_967_296);
    desk.be_last();
    let events = [
        Seen::Do(Command::Tick),
        Seen::KeepLook(0),
        Seen::Draw(Drawn::Spent),
        Seen::Spend,
        Seen::Key(Given::Last),
        Seen::KeyReleased(0),
        Seen::Peer(Given::Last),
        Seen::Released(0),
    ];
    ticks_as(
        &rt,
        rt.alloc(),
        &mut desk,
        &[0],
        &[(0, Wanted::Spent)],
        &events,
    );
    drop(desk);
}

#[test]
fn an_expired_peer_is_released_before_the_first_ping(rt: HostRuntime) {
    let mut desk = desk_at(&rt, rt.alloc(), 1);
    desk.expires(7);
    let alone = [Seen::Do(Command::Tick), Seen::Released(7)];
    ticks_as(&rt, rt.alloc(), &mut desk, &[], &[], &alone);
    desk.has_no_key(0);
    let events = [
        Seen::Do(Command::Tick),
        Seen::Released(7),
        Seen::KeepLook(0),
    ];
    ticks_as(
        &rt,
        rt.alloc(),
        &mut desk,
        &[0],
        &[(0, Wanted::Skip)],
        &events,
    );
    drop(desk);
}

#[test]
fn a_down_is_answered_with_its_reply(rt: HostRuntime) {
    let mut desk = desk_at(&rt, rt.alloc(), 1);
    let line = line_of(false);
    let done = Answer::Reply(Reply::Done);
    answers_as(&rt, rt.alloc(), &mut desk, &line, done);
    drop(line);
    drop(desk);
}
