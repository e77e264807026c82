//! The edges of the rule, and the order of the lists.

use crate::{TickFacts, lists};
use std::alloc::Global;
use std::process::Abort;
use std::test::Fail;

/// A peer that was last heard of and last sent to at 100, with a key.
fn facts(serial: u32, interval: u32, timeout: u32) -> TickFacts {
    TickFacts {
        serial,
        interval,
        timeout,
        last_recv: 100,
        last_sent: 100,
        keyed: true,
    }
}

/// What a tick over some peers finds: the serials of the expired ones, and of those to which a ping is due.
fn found(
    rt: &impl Abort,
    alloc: Global,
    peers: &[TickFacts],
    now: u32,
    expired: &[u32],
    due: &[u32],
) -> Result<(), Fail> {
    let lists = lists(alloc, peers, now)?;
    assert!(rt; lists.expired.as_slice() == expired);
    assert!(rt; lists.due.as_slice() == due);
    Ok(())
}

#[test]
fn a_peer_expires_at_its_timeout_and_no_second_before(rt: HostRuntime) -> Result<(), Fail> {
    let peer = facts(7, 0, 30);
    found(&rt, rt.alloc(), &[peer], 129, &[], &[])?;
    found(&rt, rt.alloc(), &[peer], 130, &[7], &[])?;
    found(&rt, rt.alloc(), &[facts(7, 0, 0)], u32::MAX, &[], &[])
}

#[test]
fn a_ping_is_due_at_the_interval_and_no_second_before(rt: HostRuntime) -> Result<(), Fail> {
    let peer = facts(7, 10, 0);
    found(&rt, rt.alloc(), &[peer], 109, &[], &[])?;
    found(&rt, rt.alloc(), &[peer], 110, &[], &[7])?;
    found(&rt, rt.alloc(), &[facts(7, 0, 0)], u32::MAX, &[], &[])
}

#[test]
fn an_expired_peer_is_sent_no_ping(rt: HostRuntime) -> Result<(), Fail> {
    found(&rt, rt.alloc(), &[facts(7, 10, 30)], 130, &[7], &[])
}

#[test]
fn a_peer_without_a_key_is_sent_no_ping(rt: HostRuntime) -> Result<(), Fail> {
    let mut peer = facts(7, 10, 0);
    peer.keyed = false;
    found(&rt, rt.alloc(), &[peer], 200, &[], &[])
}

#[test]
fn a_moment_that_is_yet_to_come_counts_as_now(rt: HostRuntime) -> Result<(), Fail> {
    found(&rt, rt.alloc(), &[facts(7, 1, 1)], 99, &[], &[])
}

#[test]
fn both_lists_keep_the_order_of_the_facts(rt: HostRuntime) -> Result<(), Fail> {
    let peers = [
        facts(9, 0, 30),
        facts(4, 30, 0),
        facts(6, 0, 0),
        facts(2, 0, 30),
        facts(3, 30, 60),
    ];
    found(&rt, rt.alloc(), &peers, 130, &[9, 2], &[4, 3])
}
