// The head lines: each peer is made, and given its key.

ghost use Rattle.std.specs.Prelude.{◌≡◌, ◌<◌, length, IfOk};
ghost use Rattle.std.specs.List.{AllByRecursion};
ghost use Rattle.ov_model.specs.Sizes.{Fits};
ghost use Rattle.ov_made.specs.Made as spec;

use crate::keys::{PEERS, decrypt_key, encrypt_key, tail_bytes};
use ov_base::{Boxed, Memory, Octets};
use ov_model::netlink::NO_ATTRIBUTES;
use ov_model::{Cipher, Deed, Line, NlKeyConf, NlKeyDir, NlMessage, NlOp, NlPeer, Slot};
use std::alloc::Global;

/// The port of all peers.
pub const PORT: u16 = 1_194;

/// How many head lines there are: two for each peer.
pub const HEAD_LINES: u32 = 2 * PEERS;

/// The address of peer `p` on the outer path.
pub fn outer_address(p: u8) -> [u8; 4]
    requires { p < 128 }
    ensures { result ≡ spec.outer_address p }
{
    [192, 0, 2, p + 1]
}

/// The address of peer `p` inside the tunnel.
pub fn inner_address(p: u8) -> [u8; 4]
    requires { p < 128 }
    ensures { result ≡ spec.inner_address p }
{
    [10, 8, 0, p + 1]
}

/// The message that makes peer `p`.
fn peer_new(p: u8) -> NlMessage
    requires { p < 128 }
    ensures { result ≡ spec.peer_new p }
{
    let peer = NlPeer {
        id: Some(u32::from(p)),
        remote_ipv4: Some(outer_address(p)),
        remote_port: Some(u32::from(PORT)),
        vpn_ipv4: Some(inner_address(p)),
        ..NO_ATTRIBUTES
    };
    NlMessage {
        op: NlOp::PeerNew,
        ifindex: None,
        peer: Some(peer),
        keyconf: None,
    }
}

/// One direction of a key as a message gives it.
fn direction(alloc: Global, key: [u8; 16], tail: [u8; 8]) -> Result<NlKeyDir, Memory>
    ensures { IfOk result (λ made. made ≡ spec.direction key tail) }
{
    Ok(NlKeyDir {
        cipher_key: Some(Octets::of(alloc, &key)?),
        nonce_tail: Some(Octets::of(alloc, &tail)?),
    })
}

/// The message that gives peer `p` its key.
fn key_new(alloc: Global, seed: u32, p: u8) -> Result<NlMessage, Memory>
    ensures { IfOk result (λ message. message ≡ spec.key_new seed p) }
{
    let encrypt = direction(alloc, encrypt_key(seed, p), tail_bytes(p))?;
    let decrypt = direction(alloc, decrypt_key(seed, p), tail_bytes(p))?;
    let keyconf = NlKeyConf {
        peer_id: Some(u32::from(p)),
        slot: Some(Slot::Primary),
        key_id: Some(u32::from(p % 8)),
        cipher: Some(Cipher::AesGcm),
        encrypt: Some(encrypt),
        decrypt: Some(decrypt),
    };
    Ok(NlMessage {
        op: NlOp::KeyNew,
        ifindex: None,
        peer: None,
        keyconf: Some(keyconf),
    })
}

/// Head line `i`.
fn head_line(alloc: Global, seed: u32, i: u32) -> Result<Line, Memory>
    requires { i < 256 }
    ensures exactly { IfOk result (λ line. line ≡ spec.head_line seed i) }
    ensures fits { IfOk result (λ line. Fits line.deed) }
    ensures lane { IfOk result (λ line. line.lane < 8) }
{
    let p = (i / 2) as u8;
    let message = match i % 2 {
        0 => peer_new(p),
        _ => key_new(alloc, seed, p)?,
    };
    Ok(Line {
        lane: u32::from(p % 8),
        at: 0,
        deed: Deed::Netlink(Boxed::new(alloc, message)?),
    })
}

/// The head lines, in a list that has room for so many lines.
pub fn head_lines(alloc: Global, seed: u32, room: usize) -> Result<Vec<Line>, Memory>
    ensures exactly { IfOk result (λ lines. lines.items ≡ spec.head_lines seed) }
    ensures fits { IfOk result (λ lines.
        AllByRecursion (λ line. Fits line.deed) lines.items) }
    ensures lanes { IfOk result (λ lines.
        AllByRecursion (λ line. line.lane < 8) lines.items) }
    ensures length { IfOk result (λ lines. length lines.items ≡ 256) }
{
    let mut lines = Vec::with_capacity(alloc, room)?;
    for i in 0..HEAD_LINES {
        lines.push(head_line(alloc, seed, i)?)?;
    }
    Ok(lines)
}
