//! The object `peer` of the operations on peers.

ghost use Rattle.std.specs.Prelude.{◌≡◌, map, codes};
ghost use Rattle.serde_json.specs.View.{view};
ghost use Rattle.ov_line.specs.Values.{Has};
ghost use Rattle.ov_line.specs.Grammar as spec;
ghost use Rattle.ov_line.specs.Outcome.{Finds};

use crate::member::{ipv4_at, ipv6_at, number_at, only};
use crate::why::Why;
use ov_model::{NlOp, NlPeer};
use serde_json::Value;

/// The names of the attributes of a peer: those of its socket, which peer-new alone may give, then the others.
const NAMES: [&str; 14] = [
    "socket",
    "socket-netnsid",
    "id",
    "keepalive-interval",
    "keepalive-timeout",
    "local-ipv4",
    "local-ipv6",
    "local-port",
    "remote-ipv4",
    "remote-ipv6",
    "remote-ipv6-scope-id",
    "remote-port",
    "vpn-ipv4",
    "vpn-ipv6",
];

/// The names that an operation has for a peer.
fn names_of(op: NlOp) -> &'static [&'static str]
    ensures { map (λ n. n.now) result.now ≡ spec.peer_names op }
{
    match op {
        NlOp::PeerNew => &NAMES,
        NlOp::PeerSet => &NAMES[2..],
        NlOp::PeerGet | NlOp::PeerDel => &["id"],
        _ => &[],
    }
}

/// The attributes of a peer, where no names but these stand there.
fn attributes(value: &Value, names: &[&str]) -> Result<NlPeer, Why>
    ensures { Finds (spec.IsPeer (map (λ n. n.now) names.now) (view value.now)) result }
{
    only(value, "peer", names)?;
    Ok(NlPeer {
        id: number_at(value, "id", u32::MAX)?,
        remote_ipv4: ipv4_at(value, "remote-ipv4")?,
        remote_ipv6: ipv6_at(value, "remote-ipv6")?,
        remote_ipv6_scope_id: number_at(value, "remote-ipv6-scope-id", u32::MAX)?,
        remote_port: number_at(value, "remote-port", u32::MAX)?,
        socket: number_at(value, "socket", u32::MAX)?,
        socket_netnsid: number_at(value, "socket-netnsid", u32::MAX)?,
        vpn_ipv4: ipv4_at(value, "vpn-ipv4")?,
        vpn_ipv6: ipv6_at(value, "vpn-ipv6")?,
        local_ipv4: ipv4_at(value, "local-ipv4")?,
        local_ipv6: ipv6_at(value, "local-ipv6")?,
        local_port: number_at(value, "local-port", u32::MAX)?,
        keepalive_interval: number_at(value, "keepalive-interval", u32::MAX)?,
        keepalive_timeout: number_at(value, "keepalive-timeout", u32::MAX)?,
    })
}

/// The attributes of a peer, by the names that an operation has for it.
fn peer_of(op: NlOp, value: &Value) -> Result<NlPeer, Why>
    ensures { Finds (spec.IsPeer (spec.peer_names op) (view value.now)) result }
{
    attributes(value, names_of(op))
}

/// The peer that a line asks an operation of, where it gives one.
pub fn peer_at(op: NlOp, value: &Value) -> Result<Option<NlPeer>, Why>
    ensures { Finds (Has (spec.IsPeer (spec.peer_names op)) (codes "peer") (view value.now)) result }
{
    match value.get("peer") {
        Some(found) => Ok(Some(peer_of(op, found)?)),
        None => Ok(None),
    }
}
