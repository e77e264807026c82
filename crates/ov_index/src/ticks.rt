//! What a tick, and a down, ask of the live peers: those that they are about, by rising id. The others are passed over
//! by their times alone, before their facts are made or anything is put in order, so that a tick that finds nothing to do
//! takes no memory and reads few words of each.

ghost use Rattle.std.specs.Prelude.{◌≡◌, IfOk, map, filter};
ghost use Rattle.ov_index.specs.Index.{present};
ghost use Rattle.ov_index.specs.Ticks as specs;

use ov_base::Memory;
use ov_keepalive::TickFacts;
use ov_peer::Peer;
use std::alloc::Global;

/// A peer's facts, and its id, by which they are put in order.
#[derive(Clone, Copy)]
pub struct Ranked {
    pub id: u32,
    pub facts: TickFacts,
}

/// What the keepalive rule asks of a peer.
fn facts_of(peer: &Peer) -> TickFacts
    ensures { result ≡ specs.facts_of peer.now }
{
    TickFacts {
        serial: peer.serial,
        interval: peer.keepalive.interval,
        timeout: peer.keepalive.timeout,
        last_recv: peer.last_received,
        last_sent: peer.last_sent,
        keyed: peer.slots.primary().is_some(),
    }
}

/// Whether a peer is expired or quiet at `now`; where no moment is given, each peer is asked for. It reads the peer's
/// times alone, and its key only where the interval has gone by.
#[tactic(auto, using(crate::proofs::Asked::quiet_is))]
fn is_asked(peer: &Peer, now: Option<u32>) -> bool
    ensures { result ≡ specs.is_asked now peer.now }
{
    let Some(now) = now else {
        return true;
    };
    has_gone_by(peer.keepalive.timeout, peer.last_received, now)
        || has_gone_by(peer.keepalive.interval, peer.last_sent, now)
            && peer.slots.primary().is_some()
}

/// Whether a keepalive time is set and has gone by at `now`, from the moment `since` on. A moment later than `now`
/// counts as `now`. The sum has 64 bits, where it can't wrap: it takes fewer instructions than the time gone by.
#[tactic(auto, using(crate::proofs::Asked::gone_by_is))]
fn has_gone_by(time: u32, since: u32, now: u32) -> bool
    ensures { result ≡ specs.has_gone_by time since now }
{
    time > 0 && u64::from(since) + u64::from(time) <= u64::from(now)
}

/// The facts of those who stand at the places and are asked for, in the order of the places. `Err` is want of memory.
pub fn ranked_in(
    alloc: Global,
    peers: &[Option<Peer>],
    now: Option<u32>,
) -> Result<Vec<Ranked>, Memory>
    ensures { IfOk result (λ ranked. ranked.items ≡
        map specs.ranked_of (filter (specs.is_asked now) (present peers.now))) }
{
    let mut ranked = Vec::new(alloc);
    for slot in peers {
        if let Some(peer) = slot {
            if is_asked(peer, now) {
                ranked.push(Ranked {
                    id: peer.id.get(),
                    facts: facts_of(peer),
                })?;
            }
        }
    }
    Ok(ranked)
}

/// The facts alone, in their order. `Err` is want of memory.
pub fn facts_in(alloc: Global, ranked: &[Ranked]) -> Result<Vec<TickFacts>, Memory>
    ensures { IfOk result (λ facts. facts.items ≡ map (λ r. r.facts) ranked.now) }
{
    let mut facts = Vec::with_capacity(alloc, ranked.len())?;
    for one in ranked {
        facts.push(one.facts)?;
    }
    Ok(facts)
}
