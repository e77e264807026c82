//! From the attributes as they were given to a command (the operations of the netlink family `ovpn`).

ghost use Rattle.std.specs.Prelude.{◌≡◌, false, true, Some, IfOk, OnOk, IfErr, OnErr};
ghost use Rattle.ov_model.specs.declared.reply.Errno.TheVariants.{Invalid};
ghost use Rattle.ov_model.specs.Checked as spec;

use crate::keys::key_command;
use ov_base::{Addr, Transport};
use ov_model::{Attrs, Command, Errno, Keepalive, NlMessage, NlOp, NlPeer, PeerId, Reason};

/// Whether a port is given that isn't one: 0, or above 65535.
fn is_bad_port(port: Option<u32>) -> bool
    ensures { result ≡ spec.bad_port port }
{
    match port {
        None => false,
        Some(number) => number == 0 || 65535 < number,
    }
}

/// Whether a scope id other than 0 is given: scopes aren't supported.
fn is_bad_scope(scope: Option<u32>) -> bool
    ensures { result ≡ spec.bad_scope scope }
{
    match scope {
        None => false,
        Some(number) => 0 < number,
    }
}

/// Whether one is there without the other.
fn is_only_one(first: bool, second: bool) -> bool
    ensures { result ≡ spec.only_one first second }
{
    (first && !second) || (!first && second)
}

/// The remote address, of either family.
fn remote_addr(peer: &NlPeer) -> Option<Addr>
    ensures { result ≡ spec.remote_addr peer.now }
{
    match (peer.remote_ipv4, peer.remote_ipv6) {
        (Some(octets), _) => Some(Addr::V4(octets)),
        (None, Some(octets)) => Some(Addr::V6(octets)),
        (None, None) => None,
    }
}

/// Whether an attribute is out of its range or stands without another that it needs.
fn is_invalid(peer: &NlPeer) -> bool
    ensures { result ≡ spec.is_invalid peer.now }
{
    let two_remotes = peer.remote_ipv4.is_some() && peer.remote_ipv6.is_some();
    let half_a_remote = is_only_one(remote_addr(peer).is_some(), peer.remote_port.is_some());
    let two_locals = peer.local_ipv4.is_some() && peer.local_ipv6.is_some();
    let half_a_keepalive = is_only_one(
        peer.keepalive_interval.is_some(),
        peer.keepalive_timeout.is_some(),
    );
    two_remotes
        || (is_bad_scope(peer.remote_ipv6_scope_id)
            || (half_a_remote
                || (is_bad_port(peer.remote_port)
                    || (two_locals || (is_bad_port(peer.local_port) || half_a_keepalive)))))
}

/// The remote transport, where both its parts are given.
fn remote_of(addr: Option<Addr>, port: Option<u32>) -> Option<Transport>
    requires port { spec.bad_port port ≡ false }
    ensures { result ≡ spec.transport_of addr port }
{
    match (addr, port) {
        (Some(addr), Some(number)) => Some(Transport {
            addr,
            port: number as u16,
        }),
        _ => None,
    }
}

/// The keepalive times, where both are given.
fn keepalive_of(interval: Option<u32>, timeout: Option<u32>) -> Option<Keepalive>
    ensures { result ≡ spec.keepalive_of interval timeout }
{
    match (interval, timeout) {
        (Some(interval), Some(timeout)) => Some(Keepalive { interval, timeout }),
        _ => None,
    }
}

/// The attributes of a peer whose checks passed.
fn attrs_of(id: PeerId, peer: &NlPeer) -> Attrs
    requires valid { spec.is_invalid peer.now ≡ false }
    ensures { result ≡ spec.attrs_of id peer.now }
{
    Attrs {
        id,
        remote: remote_of(remote_addr(peer), peer.remote_port),
        vpn4: peer.vpn_ipv4,
        vpn6: peer.vpn_ipv6,
        keepalive: keepalive_of(peer.keepalive_interval, peer.keepalive_timeout),
    }
}

/// The attributes of a peer whose id is in range, where they pass the checks.
fn checked_attrs(id: PeerId, peer: &NlPeer) -> Result<Attrs, Errno>
    ensures valid { OnOk result (spec.is_invalid peer.now ≡ false) }
    ensures attrs { IfOk result (λ attrs. attrs ≡ spec.attrs_of id peer.now) }
    ensures err { OnErr result (spec.is_invalid peer.now ≡ true) }
    ensures cause { IfErr result (λ e. e ≡ Invalid) }
{
    if is_invalid(peer) {
        return Err(Errno::Invalid);
    }
    Ok(attrs_of(id, peer))
}

/// The command of an operation on one peer whose id is in range.
fn command_of(op: NlOp, peer: &NlPeer, id: PeerId) -> Result<Command, Errno>
    ensures { result ≡ spec.checked_peer op peer.now (Some id) }
{
    match op {
        NlOp::PeerNew => Ok(Command::PeerNew(checked_attrs(id, peer)?)),
        NlOp::PeerSet => Ok(Command::PeerSet(checked_attrs(id, peer)?)),
        NlOp::PeerGet => Ok(Command::PeerGet(id)),
        NlOp::PeerDel => Ok(Command::Remove(id, Reason::Userspace)),
        _ => Err(Errno::Invalid),
    }
}

/// The command of an operation on one peer.
fn peer_command(op: NlOp, peer: &Option<NlPeer>) -> Result<Command, Errno>
    ensures { result ≡ spec.checked_with op peer.now }
{
    let peer = peer.as_ref().ok_or(Errno::Invalid)?;
    let id = peer.id.and_then(PeerId::new).ok_or(Errno::Invalid)?;
    command_of(op, peer, id)
}

/// The command of a message. `Errno::Invalid` comes exactly where, of an operation on one peer, the peer or
/// its id is missing, the id is above 16777215, or an attribute of peer-new or peer-set is out of range,
/// stands without another that it needs, or is a second remote or a second local address, of the other
/// family; and where, of an operation on keys, an attribute that it needs is missing or out of its range:
/// all of them of key-new, the peer's id and the slot of key-get and key-del, the peer's id of key-swap.
/// `Errno::NotSupported` comes exactly where key-new is right but for its cipher. Attributes that an
/// operation doesn't need are not looked at. A message that is refused makes no step of the peer table.
#[tactic(auto, unfolding(ov_model::specs::Checked::checked))]
pub fn call_of(message: &NlMessage) -> Result<Command, Errno>
    ensures { result ≡ spec.checked message.now }
{
    match message.op {
        NlOp::PeerNew | NlOp::PeerSet | NlOp::PeerGet | NlOp::PeerDel => {
            peer_command(message.op, &message.peer)
        }
        NlOp::PeerDump => Ok(Command::PeerDump),
        NlOp::KeyNew | NlOp::KeyGet | NlOp::KeySwap | NlOp::KeyDel => {
            key_command(message.op, &message.keyconf)
        }
    }
}
