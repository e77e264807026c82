//! A list that is told in its order.

use crate::NoteLog;
use ov_model::{KeyId, Note, NoteBody, PeerId, Reason};
use std::process::Abort;
use std::test::Fail;

/// The note of an entry that a peer was removed.
fn removed(rt: &impl Abort, entry: u64, number: u32) -> Note {
    Note {
        entry,
        body: NoteBody::PeerDel {
            id: PeerId::new(number).expect(rt, "an id in range"),
            reason: Reason::Expired,
        },
    }
}

/// The note of an entry that a key was killed.
fn killed(rt: &impl Abort, entry: u64, number: u32) -> Note {
    Note {
        entry,
        body: NoteBody::KeySwap {
            id: PeerId::new(number).expect(rt, "an id in range"),
            key_id: KeyId::new(2).expect(rt, "a key id in range"),
        },
    }
}

#[test]
fn notes_are_told_in_the_order_in_which_they_were_added(rt: HostRuntime) -> Result<(), Fail> {
    let mut log = NoteLog::new(rt.alloc());
    assert!(rt; log.notes().is_empty());
    log.reserve(2)?;
    log.add(removed(&rt, 3, 6));
    log.add(removed(&rt, 3, 5));
    log.reserve(1)?;
    log.add(killed(&rt, 4, 7));
    let told = [removed(&rt, 3, 6), removed(&rt, 3, 5), killed(&rt, 4, 7)];
    assert!(rt; log.notes() == told.as_slice());
    assert!(rt; log.finish().as_slice() == told.as_slice());
    Ok(())
}

#[test]
fn room_for_none_takes_no_memory(rt: HostRuntime) -> Result<(), Fail> {
    let mut log = NoteLog::new(rt.alloc());
    assert!(rt; log.reserve(0).is_ok());
    assert!(rt; log.finish().as_slice().is_empty());
    Ok(())
}
