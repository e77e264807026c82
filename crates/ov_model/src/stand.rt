//! Where a line stands while it runs: all that its events so far say of what comes next.

use crate::draw::Drawn;
use crate::replay::Refusal;
use crate::reply::{HoldView, Settled};

/// What a line made of what it holds.
#[derive(Clone, Copy, Debug, PartialEq, Eq)]
pub enum Use {
    /// It sealed a datagram with this packet id.
    Sealed(u32),
    /// The key has no packet id left; whether this line took it out of its slot.
    Spent(bool),
    /// The datagram's tag doesn't verify.
    BadTag,
    /// The packet id isn't fresh.
    Refused(Refusal),
    /// The inner packet was settled.
    Settled(Settled),
}

/// Where a line stands.
#[derive(Clone, Copy, Debug, PartialEq, Eq)]
pub enum Stand {
    /// Nothing happened yet.
    Fresh,
    /// A command was made.
    Replied,
    /// A look-up found nothing.
    Missed,
    /// A look-up holds a peer and its key.
    Looked(HoldView),
    /// The key's counter was asked for a packet id.
    Drew(HoldView, Drawn),
    /// The key's replay window accepted the packet id.
    Judged(HoldView),
    /// What is held was used, and is to be given back.
    Used(HoldView, Use),
    /// The key was given back.
    KeyGiven(HoldView, Use),
    /// The peer was given back too.
    PeerGiven(HoldView, Use),
}
