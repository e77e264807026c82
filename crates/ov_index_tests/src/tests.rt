//! That each call does what its contract says, once on its happy path.

ghost use Rattle.std.specs.Prelude.{◌≡◌, ◌≤◌, ◌<◌, ◌+◌, IfOk};

use ov_base::{Addr, Memory, Transport};
use ov_index::{Gone, Index, Peer};
use ov_keys::KeyRec;
use ov_model::{Attrs, KeyBytes, KeyConf, KeyDir, KeyId, PeerId, Settled, Slot};
use std::alloc::Global;
use std::process::Abort;

/// A peer id.
fn id(rt: &impl Abort, number: u8) -> PeerId {
    PeerId::new(u32::from(number)).expect(rt, "an id in range")
}

/// An IPv4 transport at port 1194 whose last octet is this.
fn transport(last: u8) -> Transport {
    Transport {
        addr: Addr::V4([192, 0, 2, last]),
        port: 1194,
    }
}

/// The attributes of the peer with an id, whose addresses end as its id does.
fn attrs(rt: &impl Abort, number: u8) -> Attrs {
    Attrs {
        id: id(rt, number),
        remote: Some(transport(number)),
        vpn4: Some([10, 8, 0, number]),
        vpn6: None,
        keepalive: None,
    }
}

/// Makes the peer with an id, at moment 1. Nobody has its names yet.
fn join(rt: &impl Abort, index: &mut Index, serial: u32, number: u8)
    requires { serial ≡ index.old.made }
    ensures made { index.new.made ≡ index.old.made + 1 }
    ensures keys { index.new.keys_made ≡ index.old.keys_made }
{
    let given = attrs(rt, number);
    let remote = transport(number);
    assert!(rt; index.by_id(given.id).is_none());
    assert!(rt; !index.shares_vpn(&given));
    assert!(rt; index.by_remote(remote).is_none());
    let Ok(()) = index.add(serial, 1, &given, remote) else {
        panic!(rt; "no memory");
    };
}

/// A key of a peer under a serial.
fn key(alloc: Global, peer: PeerId, key_id: KeyId, serial: u32) -> Result<KeyRec, Memory>
    ensures { IfOk result (λ k. k.serial ≡ serial) }
{
    let dir = KeyDir {
        key: KeyBytes::K16([5; 16]),
        tail: [5; 8],
    };
    let conf = KeyConf {
        peer,
        slot: Slot::Primary,
        key_id,
        encrypt: dir,
        decrypt: dir,
    };
    Ok(KeyRec::of(alloc, serial, &conf)?)
}

/// The key 3 of peer 5 under a serial.
fn key_of_five(rt: &impl Abort, alloc: Global, serial: u32) -> KeyRec
    ensures { result.serial ≡ serial }
{
    let third = KeyId::new(3).expect(rt, "an id in range");
    let Ok(key) = key(alloc, id(rt, 5), third, serial) else {
        panic!(rt; "no memory");
    };
    key
}

/// The serial of a key that left its slot is this one.
fn left(rt: &impl Abort, key: Option<KeyRec>, wanted: Option<u32>) {
    assert_eq!(rt; key.map(|key| key.serial), wanted);
}

/// Gives peer 5 a key: the key that stood there has this serial.
fn give(
    rt: &impl Abort,
    alloc: Global,
    index: &mut Index,
    slot: Slot,
    serial: u32,
    wanted: Option<u32>,
)
    requires { serial ≡ index.old.keys_made }
    ensures made { index.new.made ≡ index.old.made }
    ensures keys { index.new.keys_made ≡ index.old.keys_made + 1 }
{
    let five = id(rt, 5);
    assert!(rt; index.by_id(five).is_some());
    let Ok(was) = index.install(five, slot, key_of_five(rt, alloc, serial)) else {
        panic!(rt; "no memory");
    };
    left(rt, was, wanted);
}

/// The serial of the peer that was found is this one.
fn found(rt: &impl Abort, peer: Option<&Peer>, wanted: Option<u32>) {
    assert_eq!(rt; peer.map(|peer| peer.serial), wanted);
}

/// The peers 5 and 6, whose serials are 0 and 1, are found by each of their names.
fn is_found(rt: &impl Abort, index: &Index) {
    found(rt, index.by_id(id(rt, 5)), Some(0));
    found(rt, index.by_vpn(Addr::V4([10, 8, 0, 6])), Some(1));
    found(rt, index.by_remote(transport(6)), Some(1));
    let peer = index.by_serial(1).map(|peer| peer.id.get());
    assert_eq!(rt; peer, Some(6));
    assert!(rt; index.has_serial(1));
    assert!(rt; !index.has_serial(2));
}

/// Peer 6 has its own names, and no other has them.
fn has_its_own_names(rt: &impl Abort, index: &Index) {
    let six = attrs(rt, 6);
    assert!(rt; index.shares_vpn(&six));
    assert!(rt; !index.other_shares_vpn(&six));
    assert!(rt; !index.other_has_remote(&six));
}

/// So many peers are shown.
fn shows(rt: &impl Abort, alloc: Global, index: &Index, wanted: usize) {
    let Ok(views) = index.views(alloc) else {
        panic!(rt; "no memory");
    };
    assert_eq!(rt; views.len(), wanted);
}

#[test]
fn a_live_peer_is_found_by_each_of_its_names(rt: HostRuntime) {
    let mut index = Index::new(rt.alloc());
    join(&rt, &mut index, 0, 5);
    join(&rt, &mut index, 1, 6);
    is_found(&rt, &index);
    has_its_own_names(&rt, &index);
    let gone = index.remove(id(&rt, 6)).map(|peer| peer.serial);
    assert_eq!(rt; gone, Some(1));
    found(&rt, index.by_vpn(Addr::V4([10, 8, 0, 6])), None);
    shows(&rt, rt.alloc(), &index, 1);
}

/// A packet that was opened is counted for the peer 0, which floats to a transport.
fn settles(rt: &impl Abort, index: &mut Index, to: Transport) {
    let settled = index.settle(0, 8, Some(to), Settled::Deliver, 60, 100);
    assert_eq!(rt; settled, Ok(true));
}

/// What was counted for a peer, and when.
fn is_counted(rt: &impl Abort, peer: Option<&Peer>) {
    let Some(peer) = peer else {
        panic!(rt; "no peer");
    };
    assert_eq!(rt; peer.counts.link_tx_bytes, 140);
    assert_eq!(rt; peer.counts.vpn_rx_bytes, 60);
    assert_eq!(rt; (peer.last_sent, peer.last_received), (7, 8));
}

#[test]
fn packets_are_counted_where_a_peer_stands(rt: HostRuntime) {
    let mut index = Index::new(rt.alloc());
    join(&rt, &mut index, 0, 5);
    assert!(rt; index.sent(0, 7, 100, 140, false));
    settles(&rt, &mut index, transport(9));
    assert!(rt; !index.sent(1, 9, 100, 140, false));
    found(&rt, index.by_remote(transport(5)), None);
    is_counted(&rt, index.by_remote(transport(9)));
}

/// Key 1 stands in the secondary slot and key 2 in the primary one.
fn has_two_keys(rt: &impl Abort, index: &Index) {
    assert!(rt; !index.has_key(0));
    assert!(rt; index.has_key(1));
    found(rt, index.by_key(2), Some(0));
}

/// The two keys change their slots and leave them.
fn keys_leave(rt: &impl Abort, index: &mut Index) {
    let five = id(rt, 5);
    index.swap(five);
    left(rt, index.take_key(five, Slot::Primary), Some(1));
    left(rt, index.kill(0, 2), Some(2));
    assert!(rt; !index.has_key(2));
}

#[test]
fn keys_change_their_slots_where_a_peer_stands(rt: HostRuntime) {
    let mut index = Index::new(rt.alloc());
    join(&rt, &mut index, 0, 5);
    give(&rt, rt.alloc(), &mut index, Slot::Primary, 0, None);
    give(&rt, rt.alloc(), &mut index, Slot::Secondary, 1, None);
    give(&rt, rt.alloc(), &mut index, Slot::Primary, 2, Some(0));
    has_two_keys(&rt, &index);
    keys_leave(&rt, &mut index);
}

/// Changes a peer's addresses, which no other peer has.
fn sets(rt: &impl Abort, index: &mut Index, given: &Attrs) {
    assert!(rt; !index.other_shares_vpn(given));
    assert!(rt; !index.other_has_remote(given));
    let Ok(()) = index.set(2, given) else {
        panic!(rt; "no memory");
    };
}

#[test]
fn an_address_that_is_set_takes_the_old_one_s_place(rt: HostRuntime) {
    let mut index = Index::new(rt.alloc());
    join(&rt, &mut index, 0, 5);
    let given = Attrs {
        remote: None,
        vpn4: Some([10, 8, 0, 7]),
        ..attrs(&rt, 5)
    };
    sets(&rt, &mut index, &given);
    found(&rt, index.by_vpn(Addr::V4([10, 8, 0, 5])), None);
    found(&rt, index.by_vpn(Addr::V4([10, 8, 0, 7])), Some(0));
    found(&rt, index.by_remote(transport(5)), Some(0));
}

/// A key that left its slot joins those that are gone. None of them has its serial.
fn retire(rt: &impl Abort, alloc: Global, gone: &mut Gone<KeyRec>, serial: u32)
    requires room { 0 < gone.old.room }
    requires serial { serial < gone.old.serials }
    ensures room { gone.old.room ≤ gone.new.room + 1 }
    ensures serials { gone.new.serials ≡ gone.old.serials }
{
    let key = key_of_five(rt, alloc, serial);
    assert!(rt; !gone.has(key.serial));
    gone.join(key);
}

/// The keys 2, 0 and 3 join in this order.
fn retire_three(rt: &impl Abort, alloc: Global, gone: &mut Gone<KeyRec>)
    requires room { 3 ≤ gone.old.room }
    requires serials { 4 ≤ gone.old.serials }
{
    retire(rt, alloc, gone, 2);
    retire(rt, alloc, gone, 0);
    retire(rt, alloc, gone, 3);
}

/// Room for four keys.
fn room_for_four(rt: &impl Abort, gone: &mut Gone<KeyRec>)
    ensures room { 4 ≤ gone.new.room }
    ensures serials { 4 ≤ gone.new.serials }
{
    let Ok(()) = gone.make_room(4, 4) else {
        panic!(rt; "no memory");
    };
}

/// The first of those that are gone has this serial.
fn waits(rt: &impl Abort, gone: &Gone<KeyRec>, wanted: Option<u32>) {
    assert_eq!(rt; gone.first().map(|key| key.serial), wanted);
}

#[test]
fn those_that_are_gone_wait_in_the_order_of_joining(rt: HostRuntime) {
    let mut gone = Gone::new(rt.alloc());
    room_for_four(&rt, &mut gone);
    retire_three(&rt, rt.alloc(), &mut gone);
    assert_eq!(rt; gone.len(), 3);
    waits(&rt, &gone, Some(2));
    all_go(&rt, &mut gone);
    waits(&rt, &gone, None);
    assert_eq!(rt; gone.len(), 0);
}

/// The keys 2, 0 and 3 leave, the middle one first.
fn all_go(rt: &impl Abort, gone: &mut Gone<KeyRec>) {
    assert_eq!(rt; gone.find(3).map(|key| key.serial), Some(3));
    left(rt, gone.take(0), Some(0));
    waits(rt, gone, Some(2));
    left(rt, gone.take(2), Some(2));
    waits(rt, gone, Some(3));
    left(rt, gone.take(2), None);
    assert!(rt; !gone.has(1));
    left(rt, gone.take(3), Some(3));
}
