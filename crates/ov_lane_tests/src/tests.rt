//! What no clause says: that calls succeed, and what they leave in the history.

use ov_base::{Addr, ListOf, Transport};
use ov_lane::{Ovpn, Pass};
use ov_model::{
    Attrs, Command, Errno, KeyBytes, KeyConf, KeyDir, KeyId, PeerId, Reason, Reply, Slot,
};
use std::process::Abort;
use std::test::Fail;

/// Peer 5.
fn peer(rt: &impl Abort) -> PeerId {
    PeerId::new(5).expect(rt, "an id in range")
}

/// Peer 5 with its attributes.
fn attrs(rt: &impl Abort) -> Attrs {
    Attrs {
        id: peer(rt),
        remote: Some(Transport {
            addr: Addr::V4([192, 0, 2, 5]),
            port: 1194,
        }),
        vpn4: Some([10, 8, 0, 5]),
        vpn6: None,
        keepalive: None,
    }
}

/// A primary key of peer 5.
fn conf(rt: &impl Abort) -> KeyConf {
    let dir = KeyDir {
        key: KeyBytes::K16([7; 16]),
        tail: [7; 8],
    };
    KeyConf {
        peer: peer(rt),
        slot: Slot::Primary,
        key_id: KeyId::new(0).expect(rt, "an id in range"),
        encrypt: dir,
        decrypt: dir,
    }
}

#[test]
fn a_removal_lets_its_key_go_and_then_the_peer(rt: HostRuntime) -> Result<(), Fail> {
    let (ovpn, passes) = Ovpn::new(rt.alloc(), 1, 1, ListOf::new(rt.alloc()))?;
    let mut passes = passes.into_vec();
    let Some(mut pass) = passes.pop() else {
        unreachable!()
    };
    let made = ovpn.call(&rt, &mut pass, 0, &Command::PeerNew(attrs(&rt)));
    let key = ovpn.call(&rt, &mut pass, 0, &Command::KeyNew(conf(&rt)));
    let again = ovpn.call(&rt, &mut pass, 0, &Command::KeyNew(conf(&rt)));
    let removed = ovpn.call(
        &rt,
        &mut pass,
        0,
        &Command::Remove(peer(&rt), Reason::Userspace),
    );
    let gone = ovpn.call(&rt, &mut pass, 0, &Command::PeerGet(peer(&rt)));
    let lines = pass.lines();
    let number = pass.number();
    passes.push_reserved(pass);
    let closed = ovpn.close(ListOf::of_vec(passes));
    assert!(rt; made == Ok(Reply::Made(0)));
    assert!(rt; key == Ok(Reply::Made(0)));
    assert!(rt; again == Ok(Reply::Made(1)));
    assert!(rt; gone == Ok(Reply::Refused(Errno::NoEntry)));
    assert!(rt; removed.is_ok());
    assert_eq!(rt; lines, 5);
    assert_eq!(rt; number, 0);
    let journal = closed.journal.as_slice();
    assert_eq!(rt; journal.len(), 8);
    assert!(rt; journal[3].reply == Reply::KeyReleased(0));
    assert!(rt; journal[5].reply == Reply::KeyReleased(1));
    assert!(rt; journal[6].reply == Reply::Released(0));
    assert_eq!(rt; closed.notes.len(), 1);
    Ok(())
}
