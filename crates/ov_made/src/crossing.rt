// The lines behind the head: packets to the peers, and datagrams from them.

ghost use Rattle.std.specs.Prelude.{◌≡◌, ◌≢◌, ◌<◌, ◌≤◌, ◌%◌, ◌^◌, length, IfOk};
ghost use Rattle.ov_model.specs.Limits.{longest_datagram};
ghost use Rattle.ov_model.specs.Sizes.{Fits};
ghost use Rattle.ov_made.specs.Made as spec;

use crate::head::{PORT, inner_address, outer_address};
use crate::keys::{PEERS, tail_bytes};
use ov_base::{Addr, ListOf, Memory, Octets, Transport};
use ov_gcm::GcmKey;
use ov_model::{Deed, KeyId, Line, PeerId};
use ov_packet::{Head, write_datagram};
use std::alloc::Global;

/// The lines of a group, which all are of one peer.
const GROUP: u32 = 4;

/// The lanes that take turns at the lines.
const LANES: u32 = 8;

/// The address to which the packets of all peers go, and from which they come.
const FAR_ADDRESS: [u8; 4] = [10, 9, 0, 1];

/// The bytes of an inner packet in front of its addresses: version 4, a header of 20 bytes, and zeros.
const PACKET_FRONT: [u8; 12] = [0x45, 0, 0, 0, 0, 0, 0, 0, 0, 0, 0, 0];

/// The bytes of an inner packet.
const PACKET_BYTES: usize = 64;

/// An inner packet with these addresses.
fn packet(alloc: Global, seed: u32, source: [u8; 4], destination: [u8; 4]) -> Result<Octets, Memory>
    ensures exactly { IfOk result (λ bytes. bytes ≡ spec.packet seed source destination) }
    ensures size { IfOk result (λ bytes. length bytes ≡ 64) }
{
    let mut bytes = Vec::with_capacity(alloc, PACKET_BYTES)?;
    bytes.extend_from_slice(&PACKET_FRONT)?;
    bytes.extend_from_slice(&source)?;
    bytes.extend_from_slice(&destination)?;
    bytes.extend_from_slice(&[(seed % 256) as u8; 44])?;
    Ok(ListOf::of_vec(bytes))
}

/// Whose the datagram of a group is, under which key and with which packet id.
fn datagram_head(q: u32) -> Head
    ensures id { result.id.number ≡ spec.peer_of q }
    ensures key_id { result.key_id.number ≡ spec.peer_of q % 8 }
    ensures packet_id { result.packet_id ≡ spec.packet_id_of q }
{
    let p = q % PEERS;
    let (Some(id), Some(key_id)) = (PeerId::new(p), KeyId::new((p % 8) as u8)) else {
        unreachable!()
    };
    Head {
        id,
        key_id,
        packet_id: q / PEERS + 1,
    }
}

/// The datagram of group `q`, under the peers' keys.
fn sealed_of(alloc: Global, seed: u32, keys: &[GcmKey], q: u32) -> Result<Octets, Memory>
    requires keys { keys.now ≡ spec.peer_keys seed spec.peer_count }
    requires few { q < 2 ^ 30 }
    ensures exactly { IfOk result (λ bytes. bytes ≡ spec.sealed_of seed q) }
    ensures size { IfOk result (λ bytes. length bytes ≤ longest_datagram) }
{
    let p = (q % PEERS) as u8;
    let head = datagram_head(q);
    let back = packet(alloc, seed, inner_address(p), FAR_ADDRESS)?;
    let key = &keys[usize::from(p)];
    write_datagram(alloc, &head, key, tail_bytes(p), back.as_slice())
}

/// A copy of a datagram with the lowest bit of its last byte changed.
fn changed(alloc: Global, datagram: &[u8]) -> Result<Octets, Memory>
    requires { 0 < length datagram.now }
    ensures exactly { IfOk result (λ bytes. bytes ≡ spec.changed datagram.now) }
    ensures size { IfOk result (λ bytes. length bytes ≡ length datagram.now) }
{
    let mut bytes = Vec::from_slice(alloc, datagram)?;
    let last = bytes.len() - 1;
    bytes[last] ^= 1;
    Ok(ListOf::of_vec(bytes))
}

/// Where the datagrams of peer `p` come from.
fn remote(p: u8) -> Transport
    requires { p < 128 }
    ensures { result ≡ spec.remote p }
{
    Transport {
        addr: Addr::V4(outer_address(p)),
        port: PORT,
    }
}

/// What line `k` of group `q` asks for, with the group's datagram.
fn deed_of(alloc: Global, seed: u32, q: u32, k: u32, sealed: &[u8]) -> Result<Deed, Memory>
    requires sealed { sealed.now ≡ spec.sealed_of seed q }
    requires size { length sealed.now ≤ longest_datagram }
    ensures exactly { IfOk result (λ deed. deed ≡ spec.deed_of seed q k) }
    ensures fits { IfOk result Fits }
{
    let p = (q % PEERS) as u8;
    let datagram = match k {
        0 => {
            let out = packet(alloc, seed, FAR_ADDRESS, inner_address(p))?;
            return Ok(Deed::Tx(out));
        }
        1 | 2 => Octets::of(alloc, sealed)?,
        _ => changed(alloc, sealed)?,
    };
    Ok(Deed::Rx {
        from: remote(p),
        datagram,
    })
}

/// Line `j` behind the head, with the datagram of its group.
pub fn made_line(alloc: Global, seed: u32, j: u32, sealed: &[u8]) -> Result<Line, Memory>
    requires sealed { sealed.now ≡ spec.sealed_of seed (spec.group_of j) }
    requires size { length sealed.now ≤ longest_datagram }
    ensures exactly { IfOk result (λ line. line ≡ spec.made_line seed j) }
    ensures fits { IfOk result (λ line. Fits line.deed) }
    ensures lane { IfOk result (λ line. line.lane < 8) }
{
    let q = j / GROUP;
    let turns = q / PEERS;
    let lane = (u64::from(j) + u64::from(turns)) % u64::from(LANES);
    Ok(Line {
        lane: lane as u32,
        at: 0,
        deed: deed_of(alloc, seed, q, j % GROUP, sealed)?,
    })
}

/// The datagram of the group of line `j`: it is sealed at the group's first line, and kept for the others.
pub fn sealed_at(
    alloc: Global,
    seed: u32,
    keys: &[GcmKey],
    j: u32,
    kept: Octets,
) -> Result<Octets, Memory>
    requires keys { keys.now ≡ spec.peer_keys seed spec.peer_count }
    requires kept { j % 4 ≢ 0 → kept ≡ spec.sealed_of seed (spec.group_of j) }
    requires size { length kept ≤ longest_datagram }
    ensures exactly { IfOk result (λ bytes. bytes ≡ spec.sealed_of seed (spec.group_of j)) }
    ensures size { IfOk result (λ bytes. length bytes ≤ longest_datagram) }
{
    if j % GROUP == 0 {
        return sealed_of(alloc, seed, keys, j / GROUP);
    }
    Ok(kept)
}
