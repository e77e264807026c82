use crate::appending::append_on_two_threads;
use crate::calling::call_on_two_threads;
use crate::drawing::draw_on_two_threads;
use crate::holding::hold_on_two_threads;
use ov_base::{Addr, Transport};
use ov_model::{Attrs, Command, Errno, PeerId, Reply};
use std::test::Fail;

// Threads meet differently in each run, so each test makes its run this many times.
const RUNS: u32 = 20;

#[test]
fn two_threads_draw_the_ids_1_to_2000_once_each(rt: HostRuntime) -> Result<(), Fail> {
    for _run in 0..RUNS {
        let (ids, others) = draw_on_two_threads(&rt, rt.alloc(), 1_000)?;
        assert_eq!(rt; ids.len(), 1_000);
        assert_eq!(rt; others.len(), 1_000);
        let mut all = ids.into_vec();
        all.extend_from_slice(others.as_slice())?;
        all.sort()?;
        let mut want = 1;
        for id in &all {
            assert_eq!(rt; *id, want);
            want = id.wrapping_add(1);
        }
        assert_eq!(rt; want, 2_001);
    }
    Ok(())
}

#[test]
fn two_threads_append_2000_entries_each_thread_s_in_order(rt: HostRuntime) -> Result<(), Fail> {
    for _run in 0..RUNS {
        let (entries, first, second) = append_on_two_threads(&rt, rt.alloc(), 1_000)?;
        assert_eq!(rt; first, 1_000);
        assert_eq!(rt; second, 1_000);
        assert_eq!(rt; entries.len(), 2_000);
        let mut one = 0;
        let mut two = 0;
        for entry in entries.as_slice() {
            if entry.thread == 1 {
                assert_eq!(rt; entry.number, one);
                one = entry.number.wrapping_add(1);
            } else {
                assert_eq!(rt; entry.number, two);
                two = entry.number.wrapping_add(1);
            }
        }
        assert_eq!(rt; one, 1_000);
        assert_eq!(rt; two, 1_000);
    }
    Ok(())
}

#[test]
fn exactly_one_of_two_threads_is_told_that_it_was_the_last(rt: HostRuntime) -> Result<(), Fail> {
    for _run in 0..RUNS {
        let told = hold_on_two_threads(&rt, rt.alloc())?;
        let (one, two) = told.ok_or("the thing came to its end")?;
        assert!(rt; one != two);
    }
    Ok(())
}

// Peer 5, at one transport and one address inside the tunnel.
fn peer_5() -> Option<Command> {
    Some(Command::PeerNew(Attrs {
        id: PeerId::new(5)?,
        remote: Some(Transport {
            addr: Addr::V4([192, 0, 2, 5]),
            port: 1194,
        }),
        vpn4: Some([10, 8, 0, 5]),
        vpn6: None,
        keepalive: None,
    }))
}

#[test]
fn one_of_two_threads_makes_the_peer_and_the_other_finds_it_there(
    rt: HostRuntime,
) -> Result<(), Fail> {
    for _run in 0..RUNS {
        let command = peer_5().ok_or("an id in range")?;
        let (closed, one, two) = call_on_two_threads(&rt, rt.alloc(), &command, &command)?;
        let made = Reply::Made(0);
        let refused = Reply::Refused(Errno::Exists);
        assert!(rt; (one == made && two == refused) || (one == refused && two == made));
        assert_eq!(rt; closed.journal.len(), 2);
        assert_eq!(rt; closed.notes.len(), 0);
    }
    Ok(())
}
