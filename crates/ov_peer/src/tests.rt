//! That each call does what its contract says, once on each of its ways.

use crate::Peer;
use ov_base::{Addr, Transport};
use ov_keys::KeyRec;
use ov_model::{Attrs, Keepalive, KeyBytes, KeyConf, KeyDir, KeyId, PeerId, Settled, Slot};
use std::process::Abort;
use std::test::Fail;

/// An IPv4 transport at port 1194.
fn transport(octets: [u8; 4]) -> Transport {
    Transport {
        addr: Addr::V4(octets),
        port: 1194,
    }
}

/// Peer 5 without a keepalive.
fn attrs(rt: &impl Abort) -> Attrs {
    Attrs {
        id: PeerId::new(5).expect(rt, "an id in range"),
        remote: Some(transport([192, 0, 2, 5])),
        vpn4: Some([10, 8, 0, 5]),
        vpn6: None,
        keepalive: None,
    }
}

/// The peer of these attributes, made at moment 1 under the serial 0.
fn peer(rt: &impl Abort) -> Peer {
    Peer::new(0, 1, &attrs(rt), transport([192, 0, 2, 5]))
}

/// A key of peer 5.
fn conf(rt: &impl Abort) -> KeyConf {
    let dir = KeyDir {
        key: KeyBytes::K16([1; 16]),
        tail: [1; 8],
    };
    KeyConf {
        peer: PeerId::new(5).expect(rt, "an id in range"),
        slot: Slot::Primary,
        key_id: KeyId::new(3).expect(rt, "an id in range"),
        encrypt: dir,
        decrypt: dir,
    }
}

/// The serial of a key that stands there.
fn serial(key: Option<&KeyRec>) -> Option<u32> {
    key.map(|key| key.serial)
}

#[test]
fn what_is_given_replaces_the_old_and_the_rest_stays(rt: HostRuntime) -> Result<(), Fail> {
    let mut peer = peer(&rt);
    let mut given = attrs(&rt);
    given.remote = None;
    given.vpn4 = None;
    peer.set(7, &given);
    let view = peer.view();
    assert_eq!(rt; view.remote, transport([192, 0, 2, 5]));
    assert_eq!(rt; view.vpn4, Some([10, 8, 0, 5]));
    assert_eq!(rt; [peer.last_received, peer.last_sent], [1, 1]);
    given.remote = Some(transport([192, 0, 2, 6]));
    given.vpn6 = Some([0xfd; 16]);
    given.keepalive = Some(Keepalive {
        interval: 10,
        timeout: 60,
    });
    peer.set(7, &given);
    let view = peer.view();
    assert_eq!(rt; view.remote, transport([192, 0, 2, 6]));
    assert_eq!(rt; view.vpn4, Some([10, 8, 0, 5]));
    assert_eq!(rt; view.vpn6, Some([0xfd; 16]));
    assert_eq!(rt; [view.keepalive.interval, view.keepalive.timeout], [10, 60]);
    assert_eq!(rt; [peer.last_received, peer.last_sent], [7, 7]);
    Ok(())
}

#[test]
fn a_key_is_installed_exchanged_taken_and_killed(rt: HostRuntime) -> Result<(), Fail> {
    let mut peer = peer(&rt);
    let was = peer.install(Slot::Primary, KeyRec::of(rt.alloc(), 8, &conf(&rt))?);
    assert_eq!(rt; serial(was.as_ref()), None);
    peer.swap();
    assert_eq!(rt; serial(peer.slots.at(Slot::Primary)), None);
    assert_eq!(rt; serial(peer.slots.at(Slot::Secondary)), Some(8));
    let none = peer.take(Slot::Primary);
    assert_eq!(rt; serial(none.as_ref()), None);
    let taken = peer.take(Slot::Secondary);
    assert_eq!(rt; serial(taken.as_ref()), Some(8));
    peer.install(Slot::Primary, KeyRec::of(rt.alloc(), 9, &conf(&rt))?);
    let killed = peer.kill(9);
    assert_eq!(rt; serial(killed.as_ref()), Some(9));
    assert_eq!(rt; serial(peer.slots.primary()), None);
    Ok(())
}

#[test]
fn what_is_sent_and_received_is_counted(rt: HostRuntime) -> Result<(), Fail> {
    let mut peer = peer(&rt);
    peer.sent(2, 20, 44, false);
    peer.sent(3, 16, 40, true);
    let to = Some(transport([192, 0, 2, 9]));
    peer.settle(4, to, Settled::Deliver, 20, 44);
    peer.settle(5, None, Settled::NotOwner, 20, 44);
    let counts = peer.view().counts;
    assert_eq!(rt; [counts.link_tx_packets, counts.link_tx_bytes], [2, 84]);
    assert_eq!(rt; [counts.vpn_tx_packets, counts.vpn_tx_bytes], [1, 20]);
    assert_eq!(rt; [counts.link_rx_packets, counts.link_rx_bytes], [2, 88]);
    assert_eq!(rt; [counts.vpn_rx_packets, counts.vpn_rx_bytes], [1, 20]);
    assert_eq!(rt; [peer.last_received, peer.last_sent], [5, 3]);
    assert_eq!(rt; peer.remote, transport([192, 0, 2, 9]));
    peer.float(transport([192, 0, 2, 7]));
    assert_eq!(rt; peer.remote, transport([192, 0, 2, 7]));
    Ok(())
}
