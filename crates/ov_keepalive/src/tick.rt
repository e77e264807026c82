//! The lists of a tick, by the keepalive attributes of the netlink family "ovpn" (keepalive-interval and
//! keepalive-timeout in Documentation/netlink/specs/ovpn.yaml).

ghost use Rattle.std.specs.Prelude.{◌≡◌, IfOk};
ghost use Rattle.ov_keepalive.specs.Rule as rule;

use ov_base::{ListOf, Memory};
use std::alloc::Global;

/// What a tick has to know of one live peer. All times are in whole seconds.
#[derive(Clone, Copy, Debug, PartialEq, Eq)]
pub struct TickFacts {
    /// The number of peers made before it.
    pub serial: u32,
    /// After so long without a datagram sent, a ping is due; 0 means never.
    pub interval: u32,
    /// After so long without a datagram received, the peer is expired; 0 means never.
    pub timeout: u32,
    /// The moment of the last datagram that was received.
    pub last_recv: u32,
    /// The moment of the last datagram that was sent.
    pub last_sent: u32,
    /// Whether it has a primary key, which seals what is sent.
    pub keyed: bool,
}

impl TickFacts {
    /// Whether a tick at `now` finds the peer expired: its timeout isn't 0, and nothing was received for that long.
    pub fn is_expired(&self, now: u32) -> bool
        ensures { result ≡ rule.is_expired now self.now }
    {
        self.timeout > 0 && now.saturating_sub(self.last_recv) >= self.timeout
    }

    /// Whether the interval isn't 0, the peer has a key to seal with, and nothing was sent for that long at `now`.
    /// A ping is due then, unless the peer is expired.
    pub fn is_quiet(&self, now: u32) -> bool
        ensures { result ≡ rule.is_quiet now self.now }
    {
        self.interval > 0 && self.keyed && now.saturating_sub(self.last_sent) >= self.interval
    }
}

/// What a tick finds: peers by their serials.
#[derive(Debug, Drop, PartialEq, Eq)]
pub struct TickLists {
    /// The peers to be removed.
    pub expired: ListOf<u32>,
    /// The others that are to be sent a ping.
    pub due: ListOf<u32>,
}

/// The expired peers and the due ones among those that the facts are of, at the moment `now`, both in the order of
/// the facts. A moment later than `now` counts as `now`. `Err` is want of memory.
pub fn lists(alloc: Global, facts: &[TickFacts], now: u32) -> Result<TickLists, Memory>
    ensures expired { IfOk result (λ lists. lists.expired ≡ rule.expired now facts.now) }
    ensures due { IfOk result (λ lists. lists.due ≡ rule.due now facts.now) }
{
    let mut expired = Vec::new(alloc);
    let mut due = Vec::new(alloc);
    for peer in facts {
        if peer.is_expired(now) {
            expired.push(peer.serial)?;
        } else if peer.is_quiet(now) {
            due.push(peer.serial)?;
        }
    }
    Ok(TickLists {
        expired: ListOf::of_vec(expired),
        due: ListOf::of_vec(due),
    })
}
