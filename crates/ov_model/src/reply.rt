//! What the steps of the peer table answer.

use crate::command::{Keepalive, Slot};
use crate::ident::{KeyId, PeerId};
use crate::netlink::Cipher;
use ov_base::{Boxed, ListOf, Transport};

/// Why a command was refused, by the names of Linux's error numbers.
#[derive(Clone, Copy, Debug, PartialEq, Eq)]
pub enum Errno {
    /// ENOENT, 2: no live peer has the id, or its slot is empty.
    NoEntry,
    /// EEXIST, 17: an id or an address is taken by another live peer.
    Exists,
    /// EINVAL, 22: an attribute is missing or out of range.
    Invalid,
    /// ENOSPC, 28: as many peers or keys were made as a session may make.
    NoSpace,
    /// EOPNOTSUPP, 95: the cipher isn't taken.
    NotSupported,
}

/// What went over a peer: bytes and packets, inside the tunnel (vpn) and outside (link), received
/// (rx) and sent (tx). Each count stays at the greatest u64 once it is there.
#[derive(Clone, Copy, Debug, PartialEq, Eq)]
pub struct Counts {
    pub vpn_rx_bytes: u64,
    pub vpn_rx_packets: u64,
    pub vpn_tx_bytes: u64,
    pub vpn_tx_packets: u64,
    pub link_rx_bytes: u64,
    pub link_rx_packets: u64,
    pub link_tx_bytes: u64,
    pub link_tx_packets: u64,
}

/// What key-get shows of a key: where it stands and what it is called, and no byte of it.
#[derive(Clone, Copy, Debug, PartialEq, Eq)]
pub struct KeyView {
    pub peer: PeerId,
    pub slot: Slot,
    pub key_id: KeyId,
    pub cipher: Cipher,
}

/// What peer-get shows of a peer.
#[derive(Clone, Copy, Debug, PartialEq, Eq)]
pub struct PeerView {
    pub id: PeerId,
    pub remote: Transport,
    pub vpn4: Option<[u8; 4]>,
    pub vpn6: Option<[u8; 16]>,
    pub keepalive: Keepalive,
    pub counts: Counts,
}

/// What a look-up found and holds until it is given back: the serials and ids of the peer and of its
/// key, and the peer's remote at that step.
#[derive(Clone, Copy, Debug, PartialEq, Eq)]
pub struct HoldView {
    pub peer: u32,
    pub id: PeerId,
    pub key: u32,
    pub key_id: KeyId,
    pub to: Transport,
}

/// What becomes of a fresh inner packet.
#[derive(Clone, Copy, Debug, PartialEq, Eq)]
pub enum Settled {
    /// Its source is the peer's: it is delivered.
    Deliver,
    /// It is the keepalive message.
    Ping,
    /// It isn't an IP packet.
    NotIp,
    /// Its source isn't the peer's, or the peer is no longer live.
    NotOwner,
}

/// The reply of one step. Peers are named by their serials, the number of peers made before them, and
/// keys by theirs, the number of keys made before them.
#[derive(Debug, Drop, PartialEq, Eq)]
pub enum Reply {
    /// The serial of the new peer, or of the new key.
    Made(u32),
    Done,
    /// What a peer is, behind a pointer, since it is many times as big as the other replies.
    Peer(Boxed<PeerView>),
    /// What all live peers are, by rising id.
    Peers(ListOf<PeerView>),
    Key(KeyView),
    /// The serials of the removed peers.
    Removed(ListOf<u32>),
    Hold(HoldView),
    /// No live peer was found.
    NoPeer,
    /// The peer has no such key.
    NoKey,
    /// The peer that is due is live no more, or its primary slot is empty: it gets no ping.
    Skip,
    Settled(Settled),
    /// The spent key was taken out of its slot.
    Killed,
    /// The spent key stood in no slot of the peer any more.
    AlreadyGone,
    /// The serials of the peers that were silent for too long and are removed, and of those that are due a
    /// ping, both by rising peer id.
    Ticked {
        expired: ListOf<u32>,
        due: ListOf<u32>,
    },
    /// The serial of the peer that was let go.
    Released(u32),
    /// The serial of the key that was let go.
    KeyReleased(u32),
    Refused(Errno),
}
