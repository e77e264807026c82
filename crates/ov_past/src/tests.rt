//! What no clause shows by an example: a hold on its way.

use crate::{Happening, Hold, Past};
use ov_base::{Addr, Transport};
use ov_model::{Act, Drawn, HoldView, KeyId, Owed, PeerId, Reply};
use std::process::Abort;

/// A hold on the peer with serial 3 and its key with serial 7.
fn view(rt: &impl Abort) -> HoldView {
    HoldView {
        peer: 3,
        id: PeerId::new(5).expect(rt, "an id in range"),
        key: 7,
        key_id: KeyId::new(2).expect(rt, "an id in range"),
        to: Transport {
            addr: Addr::V4([192, 0, 2, 1]),
            port: 1194,
        },
    }
}

#[test]
fn a_look_up_holds_peer_and_key_until_they_are_given_back(rt: HostRuntime) {
    let view = view(&rt);
    let look = Act::TxLook(Addr::V4([10, 8, 0, 5]));
    let found = Hold::Nothing.after(&look, &Reply::Hold(view));
    assert!(rt; found == Hold::Both(view));
    let left = found.without(Owed::Key(7));
    assert!(rt; left == Hold::PeerLeft(view));
    assert!(rt; left.without(Owed::Peer(3)) == Hold::Nothing);
}

#[test]
fn a_look_up_that_finds_nobody_holds_nothing(rt: HostRuntime) {
    let look = Act::KeepLook(3);
    assert!(rt; Hold::Nothing.after(&look, &Reply::Skip) == Hold::Nothing);
}

#[test]
fn a_past_has_no_bytes(rt: HostRuntime) {
    let mut past = Past::new();
    past.push(Happening::Drew(7, Drawn::Id(1)));
    assert_eq!(rt; std::mem::size_of_val(&past), 0);
}
