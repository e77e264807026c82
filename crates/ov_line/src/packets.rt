//! The lines of packets and of a lost transport: an inner packet that is sent, a datagram that is received,
//! a peer whose transport is lost.

ghost use Rattle.std.specs.Prelude.{Some, codes};
ghost use Rattle.serde_json.specs.View.{view};
ghost use Rattle.ov_line.specs.Values.{Has};
ghost use Rattle.ov_line.specs.Grammar as spec;
ghost use Rattle.ov_line.specs.Outcome.{Finds, Reads};

use crate::line::LineStop;
use crate::member::{addr_at, hex_at, needed, number_at, number_of, only, text_of};
use crate::why::{Name, Why};
use ov_base::{Octets, Transport};
use ov_model::ident::MOST_PEER_ID;
use ov_model::{PeerId, Reason};
use serde_json::Value;
use std::alloc::Global;

/// The most bytes of an inner packet: with a head of 8 and a tag of 16 it fits into a datagram.
pub const MOST_PACKET: usize = 65_483;

/// The most bytes of a UDP datagram over IPv4.
pub const MOST_DATAGRAM: usize = 65_507;

/// The transport that the value is.
fn transport_of(value: &Value) -> Result<Transport, Why>
    ensures { Finds (spec.IsTransport (view value.now)) result }
{
    only(value, "from", &["addr", "port"])?;
    let addr = needed(addr_at(value, "addr")?, "addr")?;
    let port = needed(number_at(value, "port", 65535)?, "port")?;
    Ok(Transport {
        addr,
        port: port as u16,
    })
}

/// The transport under `from`.
fn sender(value: &Value) -> Result<Transport, Why>
    ensures { Finds (λ from. Has spec.IsTransport (codes "from") (view value.now) (Some from)) result }
{
    match value.get("from") {
        Some(found) => transport_of(found),
        None => Err(Why::Missing(Name::of("from"))),
    }
}

/// The inner packet of a line that sends one.
pub fn packet_of(alloc: Global, value: &Value) -> Result<Octets, LineStop>
    ensures { Reads (spec.IsTx (view value.now)) result }
{
    only(value, "line", &["at", "do", "lane", "packet"])?;
    let packet = needed(hex_at(alloc, value, "packet", MOST_PACKET)?, "packet")?;
    Ok(packet)
}

/// Where from a datagram comes, and the datagram, of a line by which one comes.
pub fn receipt_of(alloc: Global, value: &Value) -> Result<(Transport, Octets), LineStop>
    ensures { Reads (λ receipt. spec.IsRx (view value.now) receipt.0 receipt.1) result }
{
    only(value, "line", &["at", "datagram", "do", "from", "lane"])?;
    let from = sender(value)?;
    let datagram = needed(hex_at(alloc, value, "datagram", MOST_DATAGRAM)?, "datagram")?;
    Ok((from, datagram))
}

/// The id that the value is.
fn id_of(value: &Value) -> Result<PeerId, Why>
    ensures { Finds (spec.IsId (view value.now)) result }
{
    let number = number_of(value, "id", MOST_PEER_ID)?;
    match PeerId::new(number) {
        Some(id) => Ok(id),
        None => Err(Why::Range(Name::of("id"))),
    }
}

/// The id under `id`.
fn id_in(value: &Value) -> Result<PeerId, Why>
    ensures { Finds (λ id. Has spec.IsId (codes "id") (view value.now) (Some id)) result }
{
    match value.get("id") {
        Some(found) => id_of(found),
        None => Err(Why::Missing(Name::of("id"))),
    }
}

/// The reason of a loss that the value is the word for.
fn reason_of(value: &Value) -> Result<Reason, Why>
    ensures { Finds (spec.IsLoss (view value.now)) result }
{
    match text_of(value, "del-reason")? {
        "transport-error" => Ok(Reason::TransportError),
        "transport-disconnect" => Ok(Reason::TransportDisconnect),
        _ => Err(Why::Range(Name::of("del-reason"))),
    }
}

/// The reason under `del-reason`.
fn reason_in(value: &Value) -> Result<Reason, Why>
    ensures { Finds (λ reason. Has spec.IsLoss (codes "del-reason") (view value.now) (Some reason)) result }
{
    match value.get("del-reason") {
        Some(found) => reason_of(found),
        None => Err(Why::Missing(Name::of("del-reason"))),
    }
}

/// The peer whose transport is lost, and why, that the value is.
fn lost_of(value: &Value) -> Result<(PeerId, Reason), Why>
    ensures { Finds (spec.IsLost (view value.now)) result }
{
    only(value, "peer", &["del-reason", "id"])?;
    let id = id_in(value)?;
    let reason = reason_in(value)?;
    Ok((id, reason))
}

/// The peer whose transport is lost, and why, of a line by which it is.
pub fn loss_of(value: &Value) -> Result<(PeerId, Reason), Why>
    ensures { Finds (λ lost. spec.IsLoser (view value.now) lost.0 lost.1) result }
{
    only(value, "line", &["at", "do", "lane", "peer"])?;
    match value.get("peer") {
        Some(found) => lost_of(found),
        None => Err(Why::Missing(Name::of("peer"))),
    }
}
