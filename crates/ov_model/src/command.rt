//! The commands of the netlink family, with their attributes checked.

use crate::ident::{KeyId, PeerId};
use ov_aes::KeyBytes;
use ov_base::Transport;
use std::fmt;

/// Why a peer was removed (the netlink attribute del-reason).
#[derive(Clone, Copy, Debug, PartialEq, Eq)]
pub enum Reason {
    /// The device goes down.
    Teardown,
    /// A command asked for it.
    Userspace,
    /// Nothing was heard of the peer for longer than its keepalive timeout.
    Expired,
    /// The transport reported an error.
    TransportError,
    /// The other end closed the transport.
    TransportDisconnect,
}

/// The two keepalive times of a peer, in seconds; 0 means never.
#[derive(Clone, Copy, Debug, PartialEq, Eq)]
pub struct Keepalive {
    /// After so long without a packet sent, a ping is sent.
    pub interval: u32,
    /// After so long without a packet received, the peer is removed.
    pub timeout: u32,
}

/// The attributes of a peer that a command gives.
#[derive(Clone, Copy, Debug, PartialEq, Eq)]
pub struct Attrs {
    pub id: PeerId,
    /// Where the peer's datagrams go to and come from.
    pub remote: Option<Transport>,
    /// The peer's address inside the tunnel, in network order.
    pub vpn4: Option<[u8; 4]>,
    pub vpn6: Option<[u8; 16]>,
    pub keepalive: Option<Keepalive>,
}

/// The places for keys that a peer has.
#[derive(Clone, Copy, Debug, PartialEq, Eq)]
pub enum Slot {
    /// The key that seals what is sent.
    Primary,
    /// A key that opens what is received, and nothing else.
    Secondary,
}

/// One direction of a key: the bytes of the AES key, and the 8 bytes that stand behind the packet id in
/// each nonce.
#[derive(Clone, Copy, PartialEq, Eq)]
pub struct KeyDir {
    pub key: KeyBytes,
    pub tail: [u8; 8],
}

/// A direction prints as its kind and its lengths, with no byte of its key or its tail.
impl fmt::Debug for KeyDir {
    fn fmt<W: fmt::Write>(&self, f: &mut fmt::Formatter<W>) -> fmt::Result {
        let bytes = self.key.bytes().len();
        write!(f, "KeyDir(a key of {bytes} bytes, a tail of 8)")
    }
}

/// The attributes of a key that a command gives. The two directions may have keys of different lengths.
#[derive(Clone, Copy, Debug, PartialEq, Eq)]
pub struct KeyConf {
    pub peer: PeerId,
    pub slot: Slot,
    pub key_id: KeyId,
    /// What is sealed, and sent.
    pub encrypt: KeyDir,
    /// What is received, and opened.
    pub decrypt: KeyDir,
}

/// A command that passed the attribute checks.
#[derive(Clone, Copy, Debug, PartialEq, Eq)]
pub enum Command {
    PeerNew(Attrs),
    /// What is given replaces what the peer has; the rest stays.
    PeerSet(Attrs),
    PeerGet(PeerId),
    /// The operation peer-get without a peer: all live peers are shown.
    PeerDump,
    /// The operation peer-del, with the reason that its note will give.
    Remove(PeerId, Reason),
    /// The operation key-new: the key replaces what stands in its slot.
    KeyNew(KeyConf),
    /// What the key in a slot is called. Its bytes are never shown.
    KeyGet(PeerId, Slot),
    /// The keys of the two slots change places.
    KeySwap(PeerId),
    /// The key in a slot is taken out.
    KeyDel(PeerId, Slot),
    /// The clock moved: peers that were silent for too long are removed, and those are told that are due a ping.
    Tick,
    /// The device goes down: all peers are removed.
    Down,
}
