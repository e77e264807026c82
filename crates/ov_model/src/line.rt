//! The lines of a script.

use crate::command::Reason;
use crate::ident::PeerId;
use crate::netlink::NlMessage;
use ov_base::{Addr, Boxed, ListOf, Octets, Transport};

/// What a line asks for.
#[derive(Debug, Drop, PartialEq, Eq)]
pub enum Deed {
    /// A netlink message, behind a pointer, since it is many times as big as the rest of a line.
    Netlink(Boxed<NlMessage>),
    /// An inner packet comes from the device and is to be sent, at most 65,483 bytes.
    Tx(Octets),
    /// A datagram comes from a transport, at most 65,507 bytes.
    Rx { from: Transport, datagram: Octets },
    /// The clock moved: peers expire, and those that nothing was sent to for long get a ping.
    Tick,
    /// The device goes down: all peers are removed.
    Down,
    /// The transport of a peer is lost: it is removed with this reason.
    Lost { id: PeerId, reason: Reason },
}

/// One line of a script.
#[derive(Debug, Drop, PartialEq, Eq)]
pub struct Line {
    /// The lane that runs the line.
    pub lane: u32,
    /// The moment, in whole seconds.
    pub at: u32,
    pub deed: Deed,
}

/// A route: where packets go whose address has the first `length` bits of `prefix`.
#[derive(Clone, Copy, Debug, PartialEq, Eq)]
pub struct Route {
    pub prefix: Addr,
    /// How many bits of the prefix count: at most 32 of an IPv4 address, 128 of an IPv6 address.
    pub length: u32,
    /// The next hop, an address inside the tunnel. It isn't looked up again.
    pub hop: Addr,
}

/// A script: its lines in order, of all lanes, and the routes that hold for all of them.
#[derive(Debug, Drop, PartialEq, Eq)]
pub struct Script {
    pub lines: ListOf<Line>,
    pub routes: ListOf<Route>,
}
