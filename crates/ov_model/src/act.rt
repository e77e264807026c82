//! The steps of the peer table.

use crate::command::Command;
use crate::ident::{KeyId, PeerId};
use ov_base::{Addr, Transport};

/// What a received inner packet is to the table.
#[derive(Clone, Copy, Debug, PartialEq, Eq)]
pub enum InnerKind {
    /// An IP packet. The address is the next hop of its source: the VPN address of the peer that may send it.
    From(Addr),
    /// The keepalive message.
    Ping,
    /// Neither.
    NotIp,
}

/// One step of the peer table. Peers and keys that are held are named by their serials.
#[derive(Clone, Copy, Debug, PartialEq, Eq)]
pub enum Act {
    /// A command.
    Do(Command),
    /// Which peer and key an inner packet goes to, by the VPN address that is its next hop.
    TxLook(Addr),
    /// Which peer and key a datagram belongs to, by its head and the transport that it came from.
    RxLook {
        id: PeerId,
        key_id: KeyId,
        from: Transport,
    },
    /// A datagram was sealed for a held peer: the lengths of the inner packet and of the datagram, in bytes.
    Sent {
        peer: u32,
        inner: u32,
        outer: u32,
        ping: bool,
    },
    /// A datagram of a held peer was opened and is fresh. Where `from` is given the peer's remote may
    /// become it. The lengths are those of the inner packet and of the datagram, in bytes.
    Settle {
        peer: u32,
        from: Option<Transport>,
        kind: InnerKind,
        inner: u32,
        outer: u32,
    },
    /// A held key of a held peer has given its last packet id.
    Spend {
        peer: u32,
        key: u32,
    },
    /// Whether a peer that a tick found due still takes a ping: it is held with its primary key.
    KeepLook(u32),
    /// A removed peer is let go: nobody holds it any more.
    Released(u32),
    /// A key that was taken out of its slot is let go: nobody holds it any more.
    KeyReleased(u32),
}

/// A step and its moment, in whole seconds.
#[derive(Clone, Copy, Debug, PartialEq, Eq)]
pub struct Call {
    pub at: u32,
    pub act: Act,
}
