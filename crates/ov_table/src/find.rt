//! Looking live peers and their keys up.

ghost use Rattle.std.specs.Prelude.{◌≡◌, option_copied};
ghost use Rattle.ov_model.specs.Step as model;
ghost use Rattle.ov_table.specs.Pairs.{live_key};

use ov_base::Transport;
use ov_index::{Index, Peer};
use ov_keys::KeyRec;
use ov_model::{InnerKind, PeerId, Settled};

/// Whose a datagram is: the peer with the id of its head or, where that is 16777215, with the transport
/// that it came from.
pub fn of_datagram(live: &Index, id: PeerId, from: Transport) -> Option<&Peer>
    ensures { option_copied result ≡ model.rx_peer id from live.now.live }
{
    if id.get() == NO_PEER_ID {
        return live.by_remote(from);
    }
    live.by_id(id)
}

/// The id that stands for none in the head of a data packet.
const NO_PEER_ID: u32 = 16_777_215;

/// What becomes of a fresh inner packet of the peer with a serial: it is delivered exactly where the live
/// peer with the VPN address that is the next hop of its source is this very peer.
pub fn settled_as(live: &Index, serial: u32, kind: InnerKind) -> Settled
    ensures { result ≡ model.settled_as serial kind live.now.live }
{
    match kind {
        InnerKind::Ping => Settled::Ping,
        InnerKind::NotIp => Settled::NotIp,
        InnerKind::From(addr) => match live.by_vpn(addr) {
            Some(peer) if peer.serial == serial => Settled::Deliver,
            _ => Settled::NotOwner,
        },
    }
}

/// The key with this serial in a slot of a peer.
pub fn key_in_slots(live: &Index, key: u32) -> Option<&KeyRec>
    ensures { option_copied result ≡ live_key key live.now.live }
{
    let Some(peer) = live.by_key(key) else {
        return None;
    };
    peer.slots.by_key(key)
}
