//! Messages of the netlink family as a control program sends them: every attribute as it was given.

use crate::command::Slot;
use ov_base::Octets;
use std::fmt;

/// The operations of the family that are taken.
#[derive(Clone, Copy, Debug, PartialEq, Eq)]
pub enum NlOp {
    PeerNew,
    PeerSet,
    PeerGet,
    PeerDump,
    PeerDel,
    KeyNew,
    KeyGet,
    KeySwap,
    KeyDel,
}

/// The ciphers of the family.
#[derive(Clone, Copy, Debug, PartialEq, Eq)]
pub enum Cipher {
    NoCipher,
    AesGcm,
    ChaCha20Poly1305,
}

/// The attributes of a peer as they were given, in no range yet. Addresses are in network order.
#[derive(Clone, Copy, Debug, PartialEq, Eq)]
pub struct NlPeer {
    pub id: Option<u32>,
    pub remote_ipv4: Option<[u8; 4]>,
    pub remote_ipv6: Option<[u8; 16]>,
    pub remote_ipv6_scope_id: Option<u32>,
    pub remote_port: Option<u32>,
    pub socket: Option<u32>,
    pub socket_netnsid: Option<u32>,
    pub vpn_ipv4: Option<[u8; 4]>,
    pub vpn_ipv6: Option<[u8; 16]>,
    pub local_ipv4: Option<[u8; 4]>,
    pub local_ipv6: Option<[u8; 16]>,
    pub local_port: Option<u32>,
    pub keepalive_interval: Option<u32>,
    pub keepalive_timeout: Option<u32>,
}

/// A peer with no attribute given.
pub const NO_ATTRIBUTES: NlPeer = NlPeer {
    id: None,
    remote_ipv4: None,
    remote_ipv6: None,
    remote_ipv6_scope_id: None,
    remote_port: None,
    socket: None,
    socket_netnsid: None,
    vpn_ipv4: None,
    vpn_ipv6: None,
    local_ipv4: None,
    local_ipv6: None,
    local_port: None,
    keepalive_interval: None,
    keepalive_timeout: None,
};

/// One direction of a key as it was given: bytes in no range yet.
#[derive(Drop, PartialEq, Eq)]
pub struct NlKeyDir {
    pub cipher_key: Option<Octets>,
    pub nonce_tail: Option<Octets>,
}

/// A direction prints as its kind and the lengths that were given, with no byte of its key or its tail.
impl fmt::Debug for NlKeyDir {
    fn fmt<W: fmt::Write>(&self, f: &mut fmt::Formatter<W>) -> fmt::Result {
        let key = self.cipher_key.as_ref().map(|bytes| bytes.len());
        let tail = self.nonce_tail.as_ref().map(|bytes| bytes.len());
        write!(
            f,
            "NlKeyDir(bytes of the key: {key:?}, of the tail: {tail:?})"
        )
    }
}

/// The attributes of a key as they were given, in no range yet.
#[derive(Debug, Drop, PartialEq, Eq)]
pub struct NlKeyConf {
    pub peer_id: Option<u32>,
    pub slot: Option<Slot>,
    pub key_id: Option<u32>,
    pub cipher: Option<Cipher>,
    pub encrypt: Option<NlKeyDir>,
    pub decrypt: Option<NlKeyDir>,
}

/// One message: its operation and the attributes that came with it.
#[derive(Debug, Drop, PartialEq, Eq)]
pub struct NlMessage {
    pub op: NlOp,
    /// The device. It is accepted and not used.
    pub ifindex: Option<u32>,
    pub peer: Option<NlPeer>,
    pub keyconf: Option<NlKeyConf>,
}
