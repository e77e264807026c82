//! What the lines of a script are answered.

use crate::ident::PeerId;
use crate::reply::Reply;
use ov_base::{ListOf, Octets, Transport};

/// Why a packet or a datagram was dropped.
#[derive(Clone, Copy, Debug, PartialEq, Eq)]
pub enum DropCause {
    /// The datagram is too short for its head and tag.
    Short,
    /// The datagram is data of the first version, which isn't taken.
    DataV1,
    /// No live peer has the VPN address, the peer id or the transport.
    NoPeer,
    /// The peer's primary slot is empty, or neither slot has the key id.
    NoKey,
    /// The tag isn't the one that key, nonce, head and ciphertext give.
    BadTag,
    /// The packet id is 0.
    Zero,
    /// The packet id is too far below the greatest accepted one.
    Old,
    /// The packet id is at or below the floor of the replay window.
    Below,
    /// The packet id was accepted before.
    Again,
    /// The inner packet is neither an IPv4 nor an IPv6 packet.
    NotIp,
    /// The source of the inner packet isn't the peer's.
    NotOwner,
    /// The key has given its last packet id.
    Spent,
}

/// A sealed datagram: where it goes, the serial of the key, the packet id, and its bytes.
#[derive(Debug, Drop, PartialEq, Eq)]
pub struct SealedOut {
    pub to: Transport,
    pub key: u32,
    pub id: u32,
    pub datagram: Octets,
}

/// What became of a ping.
#[derive(Debug, Drop, PartialEq, Eq)]
pub enum PingOutcome {
    /// The keepalive message was sealed.
    Sealed(SealedOut),
    /// The key has given its last packet id.
    Spent,
    /// The peer is live no more, or has no primary key.
    Skip,
}

/// The serial of a peer that a tick found due, and what became of its ping.
#[derive(Debug, Drop, PartialEq, Eq)]
pub struct PingOut {
    pub peer: u32,
    pub outcome: PingOutcome,
}

/// The answer of one line.
#[derive(Debug, Drop, PartialEq, Eq)]
pub enum Answer {
    /// A command's reply.
    Reply(Reply),
    /// An inner packet was sealed.
    Sealed(SealedOut),
    /// A datagram's inner packet is delivered, as the peer's with this id.
    Delivered {
        peer: PeerId,
        packet: Octets,
    },
    /// A datagram was the keepalive message of the peer with this id.
    Keepalive(PeerId),
    /// A datagram isn't a data packet: it is passed to the control program.
    Control,
    Dropped(DropCause),
    /// A tick: the serials of the removed peers and an outcome for each peer that was due, both by rising peer
    /// id.
    Ticked {
        expired: ListOf<u32>,
        pings: ListOf<PingOut>,
    },
}
