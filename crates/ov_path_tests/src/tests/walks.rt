// Lines that run at the plain desk: what they are answered, and their events in order.

ghost use Rattle.std.specs.Prelude.{◌≡◌, ◌≤◌, length, IfOk};
ghost use Rattle.ov_model.specs.Sizes.{Fits};
ghost use Rattle.ov_path_tests.specs.Plain.{shown_of, hop_or};
ghost use Rattle.ov_path.specs.Walks.{Stands, IsOpen, Turned};

use super::plain::Plain;
use super::told::{Kind, Told};
use super::{DATAGRAM, PACKET, held};
use ov_base::{Addr, Boxed, ListOf, Memory, Octets, Transport};
use ov_model::netlink::NO_ATTRIBUTES;
use ov_model::{
    Act, Answer, Command, Deed, Drawn, DropCause, Errno, Given, Line, NlMessage, NlOp, NlPeer,
    PeerId, Place, Reason, Reply, SealedOut, Verdict,
};
use ov_path::{Progress, Walk};
use std::alloc::Global;
use std::process::Abort;

/// An event by its kind, and what tells one of a kind from another.
#[derive(Debug, Drop, PartialEq, Eq)]
pub enum Seen {
    Do(Command),
    TxLook(Addr),
    RxLook,
    KeepLook(u32),
    Sent,
    Ping,
    // With the transport that the datagram came from.
    Settle(Option<Transport>),
    Spend,
    Released(u32),
    KeyReleased(u32),
    Replay(u32, Verdict),
    Draw(Drawn),
    Key(Given),
    Peer(Given),
}

fn as_seen(told: &Told) -> Seen {
    match &told.kind {
        Kind::Step(entry) => match &entry.call.act {
            Act::Do(command) => Seen::Do(*command),
            Act::TxLook(addr) => Seen::TxLook(*addr),
            Act::RxLook { .. } => Seen::RxLook,
            Act::KeepLook(peer) => Seen::KeepLook(*peer),
            Act::Sent { ping: false, .. } => Seen::Sent,
            Act::Sent { ping: true, .. } => Seen::Ping,
            Act::Settle { from, .. } => Seen::Settle(*from),
            Act::Spend { .. } => Seen::Spend,
            Act::Released(peer) => Seen::Released(*peer),
            Act::KeyReleased(key) => Seen::KeyReleased(*key),
        },
        Kind::Replay { id, verdict, .. } => Seen::Replay(*id, *verdict),
        Kind::Draw(_, drawn) => Seen::Draw(*drawn),
        Kind::KeyBack(_, given) => Seen::Key(*given),
        Kind::PeerBack(_, given) => Seen::Peer(*given),
    }
}

/// The events of the line in order.
pub fn all_seen(alloc: Global, desk: &Plain) -> Result<Vec<Seen>, Memory> {
    let mut all = Vec::new(alloc);
    for told in desk.events() {
        all.push(as_seen(told))?;
    }
    Ok(all)
}

/// The VPN address of the peer.
const VPN: Addr = Addr::V4([10, 8, 0, 5]);

/// The peer's remote.
pub const REMOTE: Transport = Transport {
    addr: Addr::V4([192, 0, 2, 1]),
    port: 1194,
};

/// An inner packet: an IPv4 header of 20 bytes from 10.8.0.5 to 10.9.9.9.
const ASTRAY: [u8; 20] = [
    0x45, 0, 0, 0x14, 0, 0, 0, 0, 0x40, 0x11, 0, 0, 10, 8, 0, 5, 10, 9, 9, 9,
];

/// A desk whose counter gives `next` first.
pub fn desk_at(rt: &impl Abort, alloc: Global, next: u64) -> Plain {
    let (hold, pair) = held().expect(rt, "ids in range");
    Plain::new(alloc, hold, VPN, pair, next)
}

/// These bytes.
fn octets(rt: &impl Abort, alloc: Global, bytes: &[u8]) -> Octets
    ensures { result ≡ bytes.now }
{
    let Ok(octets) = Octets::of(alloc, bytes) else {
        panic!(rt; "no memory");
    };
    octets
}

/// A line that sends a packet.
fn tx(rt: &impl Abort, alloc: Global, packet: &[u8]) -> Line
    requires { length packet.now ≤ 65483 }
    ensures { Fits result.deed }
{
    Line {
        lane: 0,
        at: 7,
        deed: Deed::Tx(octets(rt, alloc, packet)),
    }
}

/// A line that receives a datagram from the peer's remote.
fn rx(rt: &impl Abort, alloc: Global, bytes: &[u8]) -> Line
    requires { length bytes.now ≤ 65507 }
    ensures { Fits result.deed }
{
    Line {
        lane: 0,
        at: 7,
        deed: Deed::Rx {
            from: REMOTE,
            datagram: octets(rt, alloc, bytes),
        },
    }
}

/// A line with a netlink message that names peer 5, or no peer.
fn netlink(rt: &impl Abort, alloc: Global, op: NlOp, peer: Option<NlPeer>) -> Line
    ensures { Fits result.deed }
{
    let message = NlMessage {
        op,
        ifindex: None,
        peer,
        keyconf: None,
    };
    let Ok(message) = Boxed::new(alloc, message) else {
        panic!(rt; "no memory");
    };
    Line {
        lane: 0,
        at: 7,
        deed: Deed::Netlink(message),
    }
}

/// A line that loses the transport of peer 5.
fn lost(id: PeerId, reason: Reason) -> Line
    ensures { Fits result.deed }
{
    Line {
        lane: 0,
        at: 1,
        deed: Deed::Lost { id, reason },
    }
}

/// Makes one turn of a line. The desk's next hops stay.
fn turn(alloc: Global, desk: &mut Plain, walk: &mut Walk, line: &Line) -> Result<Progress, Memory>
    requires at { Stands (hop_or desk.old.hop) line.now (shown_of desk.old) walk.old }
    requires open { IsOpen walk.old.stage (shown_of desk.old).owing }
    requires fits { Fits line.now.deed }
    ensures then { IfOk result (λ r.
        Turned (hop_or desk.new.hop) line.now (shown_of desk.new) walk.new r) }
{
    let progress = walk.turn(alloc, desk, line)?;
    Ok(progress)
}

/// Runs a line to its answer; None where twenty turns didn't reach it.
pub fn run(alloc: Global, desk: &mut Plain, line: &Line) -> Result<Option<Answer>, Memory>
    requires { Fits line.now.deed }
{
    desk.begin();
    let mut walk = Walk::new(Place { lane: 0, line: 0 });
    let answer = run_on(alloc, desk, &mut walk, line);
    drop(walk);
    answer
}

/// Makes the turns of a line that has one to come. The walk is lent, so that no turn has it to drop.
fn run_on(
    alloc: Global,
    desk: &mut Plain,
    walk: &mut Walk,
    line: &Line,
) -> Result<Option<Answer>, Memory>
    requires at { Stands (hop_or desk.old.hop) line.now (shown_of desk.old) walk.old }
    requires open { IsOpen walk.old.stage (shown_of desk.old).owing }
    requires fits { Fits line.now.deed }
{
    for _turn in 0..20 {
        match turn(alloc, desk, walk, line)? {
            Progress::More => {}
            Progress::Answered(answer) => return Ok(Some(answer)),
        }
    }
    Ok(None)
}

/// Runs a line, and holds its answer and its events against those that it should have.
fn runs_as(
    rt: &impl Abort,
    alloc: Global,
    desk: &mut Plain,
    line: &Line,
    answer: Answer,
    events: &[Seen],
)
    requires { Fits line.now.deed }
{
    answers_as(rt, alloc, desk, line, answer);
    has_seen(rt, alloc, desk, events);
}

/// The same of a line that is run once.
fn runs_once(
    rt: &impl Abort,
    alloc: Global,
    desk: &mut Plain,
    line: Line,
    answer: Answer,
    events: &[Seen],
)
    requires { Fits line.deed }
{
    runs_as(rt, alloc, desk, &line, answer, events);
    drop(line);
}

/// Runs a line, and holds its answer against the one that it should have. What owns memory in many forms is let go
/// by `drop`, here and below: its proof is made once.
pub fn answers_as(rt: &impl Abort, alloc: Global, desk: &mut Plain, line: &Line, answer: Answer)
    requires { Fits line.now.deed }
{
    let Ok(Some(got)) = run(alloc, desk, line) else {
        panic!(rt; "no answer");
    };
    assert_eq!(rt; got, answer);
    drop(got);
    drop(answer);
}

/// Holds the events of the line against those that it should have.
pub fn has_seen(rt: &impl Abort, alloc: Global, desk: &Plain, events: &[Seen]) {
    let Ok(seen) = all_seen(alloc, desk) else {
        panic!(rt; "no memory");
    };
    assert_eq!(rt; seen.as_slice(), events);
}

/// Runs a line that removes peer 5, of serial 0, with this reason.
fn removes(rt: &impl Abort, alloc: Global, desk: &mut Plain, line: Line, reason: Reason)
    requires { Fits line.deed }
{
    let id = PeerId::new(5).expect(rt, "an id in range");
    let events = [Seen::Do(Command::Remove(id, reason)), Seen::Released(0)];
    let Ok(serials) = Vec::from_array(alloc, [0]) else {
        panic!(rt; "no memory");
    };
    let answer = Answer::Reply(Reply::Removed(ListOf::of_vec(serials)));
    runs_once(rt, alloc, desk, line, answer, &events);
}

#[test]
fn a_packet_is_sealed_with_the_first_id_for_the_remote(rt: HostRuntime) {
    let mut desk = desk_at(&rt, rt.alloc(), 1);
    let answer = Answer::Sealed(SealedOut {
        to: REMOTE,
        key: 0,
        id: 1,
        datagram: octets(&rt, rt.alloc(), &DATAGRAM),
    });
    let line = tx(&rt, rt.alloc(), &PACKET);
    let events = [
        Seen::TxLook(VPN),
        Seen::Draw(Drawn::Id(1)),
        Seen::Sent,
        Seen::Key(Given::More),
        Seen::Peer(Given::More),
    ];
    runs_once(&rt, rt.alloc(), &mut desk, line, answer, &events);
    drop(desk);
}

#[test]
fn a_datagram_is_delivered_once(rt: HostRuntime) {
    let mut desk = desk_at(&rt, rt.alloc(), 1);
    let line = rx(&rt, rt.alloc(), &DATAGRAM);
    let answer = Answer::Delivered {
        peer: PeerId::new(5).expect(&rt, "an id in range"),
        packet: octets(&rt, rt.alloc(), &PACKET),
    };
    let events = [
        Seen::RxLook,
        Seen::Replay(1, Verdict::Accept),
        Seen::Settle(Some(REMOTE)),
        Seen::Key(Given::More),
        Seen::Peer(Given::More),
    ];
    runs_as(&rt, rt.alloc(), &mut desk, &line, answer, &events);
    let again = [
        Seen::RxLook,
        Seen::Replay(1, Verdict::Again),
        Seen::Key(Given::More),
        Seen::Peer(Given::More),
    ];
    runs_as(
        &rt,
        rt.alloc(),
        &mut desk,
        &line,
        Answer::Dropped(DropCause::Again),
        &again,
    );
    drop(line);
    drop(desk);
}

#[test]
fn a_wrong_tag_is_not_judged(rt: HostRuntime) {
    let mut desk = desk_at(&rt, rt.alloc(), 1);
    let mut wrong = DATAGRAM;
    wrong[8] ^= 1;
    let line = rx(&rt, rt.alloc(), &wrong);
    let events = [
        Seen::RxLook,
        Seen::Key(Given::More),
        Seen::Peer(Given::More),
    ];
    runs_once(
        &rt,
        rt.alloc(),
        &mut desk,
        line,
        Answer::Dropped(DropCause::BadTag),
        &events,
    );
    drop(desk);
}

/// Runs a line whose packet is sealed for this transport.
fn goes_to(rt: &impl Abort, alloc: Global, desk: &mut Plain, line: &Line, to: Transport)
    requires { Fits line.now.deed }
{
    let Ok(Some(answer)) = run(alloc, desk, line) else {
        panic!(rt; "no answer");
    };
    let Answer::Sealed(sealed) = &answer else {
        panic!(rt; "not sealed");
    };
    assert_eq!(rt; sealed.to, to);
    drop(answer);
}

#[test]
fn a_packet_goes_to_the_peer_of_its_next_hop(rt: HostRuntime) {
    let mut desk = desk_at(&rt, rt.alloc(), 1);
    let line = tx(&rt, rt.alloc(), &ASTRAY);
    let looked = [Seen::TxLook(Addr::V4([10, 9, 9, 9]))];
    runs_as(
        &rt,
        rt.alloc(),
        &mut desk,
        &line,
        Answer::Dropped(DropCause::NoPeer),
        &looked,
    );
    desk.route(VPN);
    goes_to(&rt, rt.alloc(), &mut desk, &line, REMOTE);
    let events = [
        Seen::TxLook(VPN),
        Seen::Draw(Drawn::Id(1)),
        Seen::Sent,
        Seen::Key(Given::More),
        Seen::Peer(Given::More),
    ];
    has_seen(&rt, rt.alloc(), &desk, &events);
    drop(line);
    drop(desk);
}

#[test]
fn a_source_is_settled_by_its_next_hop(rt: HostRuntime) {
    let mut desk = desk_at(&rt, rt.alloc(), 1);
    desk.route(Addr::V4([10, 8, 0, 6]));
    let line = rx(&rt, rt.alloc(), &DATAGRAM);
    let events = [
        Seen::RxLook,
        Seen::Replay(1, Verdict::Accept),
        Seen::Settle(Some(REMOTE)),
        Seen::Key(Given::More),
        Seen::Peer(Given::More),
    ];
    runs_once(
        &rt,
        rt.alloc(),
        &mut desk,
        line,
        Answer::Dropped(DropCause::NotOwner),
        &events,
    );
    drop(desk);
}

#[test]
fn a_line_that_is_answered_at_once_makes_no_event(rt: HostRuntime) {
    let mut desk = desk_at(&rt, rt.alloc(), 1);
    let line = netlink(&rt, rt.alloc(), NlOp::PeerGet, None);
    let answer = Answer::Reply(Reply::Refused(Errno::Invalid));
    runs_once(&rt, rt.alloc(), &mut desk, line, answer, &[]);
    let line = tx(&rt, rt.alloc(), &[0x20]);
    let answer = Answer::Dropped(DropCause::NotIp);
    runs_once(&rt, rt.alloc(), &mut desk, line, answer, &[]);
    let line = rx(&rt, rt.alloc(), &[0x4a, 0, 0, 5, 0, 0, 0, 1]);
    let answer = Answer::Dropped(DropCause::Short);
    runs_once(&rt, rt.alloc(), &mut desk, line, answer, &[]);
    let line = rx(&rt, rt.alloc(), &[0x32, 0, 0, 5]);
    let answer = Answer::Dropped(DropCause::DataV1);
    runs_once(&rt, rt.alloc(), &mut desk, line, answer, &[]);
    let line = rx(&rt, rt.alloc(), &[0x22, 0, 0, 5]);
    runs_once(&rt, rt.alloc(), &mut desk, line, Answer::Control, &[]);
    drop(desk);
}

#[test]
fn a_datagram_of_nobody_is_looked_up_and_dropped(rt: HostRuntime) {
    let mut desk = desk_at(&rt, rt.alloc(), 1);
    let mut other_peer = DATAGRAM;
    other_peer[3] = 6;
    let line = rx(&rt, rt.alloc(), &other_peer);
    let answer = Answer::Dropped(DropCause::NoPeer);
    runs_once(&rt, rt.alloc(), &mut desk, line, answer, &[Seen::RxLook]);
    let mut other_key = DATAGRAM;
    other_key[0] = 0x4b;
    let line = rx(&rt, rt.alloc(), &other_key);
    let answer = Answer::Dropped(DropCause::NoKey);
    runs_once(&rt, rt.alloc(), &mut desk, line, answer, &[Seen::RxLook]);
    drop(desk);
}

#[test]
fn a_removed_peer_is_released_by_the_line_that_owes_it(rt: HostRuntime) {
    let mut desk = desk_at(&rt, rt.alloc(), 1);
    let peer = NlPeer {
        id: Some(5),
        ..NO_ATTRIBUTES
    };
    let line = netlink(&rt, rt.alloc(), NlOp::PeerDel, Some(peer));
    removes(&rt, rt.alloc(), &mut desk, line, Reason::Userspace);
    drop(desk);
}

#[test]
fn a_lost_transport_removes_its_peer_with_its_reason(rt: HostRuntime) {
    let mut desk = desk_at(&rt, rt.alloc(), 1);
    let five = PeerId::new(5).expect(&rt, "an id in range");
    for reason in [Reason::TransportError, Reason::TransportDisconnect] {
        removes(&rt, rt.alloc(), &mut desk, lost(five, reason), reason);
    }
    drop(desk);
}

#[test]
fn a_spent_key_is_taken_out_and_released(rt: HostRuntime) {
    let mut desk = desk_at(&rt, rt.alloc(), 4_294_967_296);
    desk.be_last();
    let line = tx(&rt, rt.alloc(), &PACKET);
    let events = [
        Seen::TxLook(VPN),
        Seen::Draw(Drawn::Spent),
        Seen::Spend,
        Seen::Key(Given::Last),
        Seen::KeyReleased(0),
        Seen::Peer(Given::Last),
        Seen::Released(0),
    ];
    runs_once(
        &rt,
        rt.alloc(),
        &mut desk,
        line,
        Answer::Dropped(DropCause::Spent),
        &events,
    );
    drop(desk);
}
