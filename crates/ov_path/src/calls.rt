// What the peer table is told of a packet that was sealed, and of one that was opened and is fresh.

ghost use Rattle.std.specs.Prelude.{◌≡◌, ◌≤◌, length, IsSome, option_copied};
ghost use Rattle.ov_model.specs.Packets.{kind_of};
ghost use Rattle.ov_model.specs.Path.{kind_via, sent_act, settle_act};
ghost use Rattle.ov_model.specs.Next.{is_killed, stand_of};
ghost use Rattle.ov_path.specs.Desks.{HoldsKey, IsUnused};

use crate::desk::Desk;
use ov_base::{Addr, Transport};
use ov_keys::KeyPair;
use ov_model::limits::OVERHEAD;
use ov_model::{Act, HoldView, InnerKind, Reply};
use ov_packet::{InnerFacts, inner, is_keepalive};

/// The step that counts a packet as sent by a held peer, as a ping or not.
pub fn sent_of(hold: &HoldView, ping: bool, packet: &[u8]) -> Act
    requires packet { length packet.now ≤ 65536 }
    ensures { result ≡ sent_act hold.now ping packet.now }
{
    let inner = packet.len() as u32;
    Act::Sent {
        peer: hold.peer,
        inner,
        outer: inner + OVERHEAD as u32,
        ping,
    }
}

/// The step that settles a packet for a held peer: the transport that it came from, what kind it is, with
/// the next hop of its source, and the lengths of packet and datagram.
pub fn settle_of<D: Desk>(
    desk: &D,
    hold: &HoldView,
    from: Transport,
    packet: &[u8],
    datagram: &[u8],
) -> Act
    requires packet { length packet.now ≤ 65536 }
    requires datagram { length datagram.now ≤ 65536 }
    ensures { result ≡ settle_act (D.view desk.now).via hold.now from packet.now datagram.now }
{
    Act::Settle {
        peer: hold.peer,
        from: Some(from),
        kind: kind_at(desk, packet),
        inner: packet.len() as u32,
        outer: datagram.len() as u32,
    }
}

/// What kind a packet is to the table.
fn kind_at<D: Desk>(desk: &D, packet: &[u8]) -> InnerKind
    ensures { result ≡ kind_via (D.view desk.now).via (kind_of packet.now) }
{
    if is_keepalive(packet) {
        return InnerKind::Ping;
    }
    match inner(packet) {
        InnerFacts::V4 { source, .. } => InnerKind::From(desk.via(Addr::V4(source))),
        InnerFacts::V6 { source, .. } => InnerKind::From(desk.via(Addr::V6(source))),
        InnerFacts::NotIp => InnerKind::NotIp,
    }
}

/// The two directions of a key that is held.
pub fn pair_of<D: Desk>(desk: &D, key: u32) -> &KeyPair
    requires held { HoldsKey (D.view desk.now).hold key }
    requires unused { IsUnused (stand_of (D.view desk.now).events) }
    ensures has { (D.view desk.now).material key ≡ Some result.now }
{
    match desk.pair(key) {
        Some(pair) => pair,
        None => unreachable!(),
    }
}

/// Whether a spent key was taken out of its slot.
pub fn was_killed(reply: &Reply) -> bool
    ensures { result ≡ is_killed reply.now }
{
    match reply {
        Reply::Killed => true,
        _ => false,
    }
}
