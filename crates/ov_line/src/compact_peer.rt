//! Lines that make a peer, by their compact text.

ghost use Rattle.std.specs.Prelude.{◌≡◌, IfOk, IfSome};
ghost use Rattle.ov_model.specs.declared.line.Line.{Line};
ghost use Rattle.ov_line.specs.Compact as spec;
ghost use Rattle.ov_line.specs.Grammar.{Says};

use crate::parts::{after, before, number, octets_of, until_quote};
use ov_base::{Boxed, Memory};
use ov_model::netlink::NO_ATTRIBUTES;
use ov_model::{Deed, Line, NlMessage, NlOp, NlPeer};
use std::alloc::Global;

/// What the text of such a line has in its places: the addresses as text.
#[derive(Clone, Copy)]
struct Parts<'a> {
    at: u32,
    lane: u32,
    id: u32,
    remote: &'a [u8],
    port: u32,
    vpn: &'a [u8],
}

/// The parts of such a line.
fn new_parts(line: &[u8]) -> Option<Parts>
    ensures { IfSome result (λ p. line.now
        ≡ spec.new_text p.at p.lane p.id p.remote.now p.port p.vpn.now) }
{
    let (at, rest) = number(after(line, b"{\"at\":")?)?;
    let (lane, rest) = number(after(rest, b",\"do\":\"peer-new\",\"lane\":")?)?;
    let (id, rest) = number(after(rest, b",\"peer\":{\"id\":")?)?;
    let (remote, rest) = until_quote(after(rest, b",\"remote-ipv4\":\"")?)?;
    let (port, rest) = number(after(rest, b"\",\"remote-port\":")?)?;
    let vpn = before(after(rest, b",\"vpn-ipv4\":\"")?, b"\"}}")?;
    Some(Parts {
        at,
        lane,
        id,
        remote,
        port,
        vpn,
    })
}

/// The line that makes a peer, where the bytes are its compact text.
pub fn new_line(alloc: Global, line: &[u8], lanes: u32) -> Result<Option<Line>, Memory>
    ensures { IfOk result (λ found. IfSome found (λ read. Says line.now lanes read)) }
{
    let Some(parts) = new_parts(line) else {
        return Ok(None);
    };
    let (Some(remote), Some(vpn)) = (octets_of(parts.remote), octets_of(parts.vpn)) else {
        return Ok(None);
    };
    if parts.lane >= lanes {
        return Ok(None);
    }
    let peer = NlPeer {
        id: Some(parts.id),
        remote_ipv4: Some(remote),
        remote_port: Some(parts.port),
        vpn_ipv4: Some(vpn),
        ..NO_ATTRIBUTES
    };
    let message = NlMessage {
        op: NlOp::PeerNew,
        ifindex: None,
        peer: Some(peer),
        keyconf: None,
    };
    Ok(Some(Line {
        lane: parts.lane,
        at: parts.at,
        deed: Deed::Netlink(Boxed::new(alloc, message)?),
    }))
}
