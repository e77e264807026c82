//! That each call does what its contract says, once on each of its ways.

use crate::{KeyPair, KeyRec, Slots};
use ov_model::{KeyBytes, KeyConf, KeyDir, KeyId, PeerId, Slot};
use std::process::Abort;
use std::test::Fail;

/// A direction whose key and tail have one byte throughout.
fn dir(byte: u8) -> KeyDir {
    KeyDir {
        key: KeyBytes::K16([byte; 16]),
        tail: [byte; 8],
    }
}

/// A key of peer 5 whose two directions differ.
fn conf(rt: &impl Abort, key_id: u8) -> KeyConf {
    KeyConf {
        peer: PeerId::new(5).expect(rt, "an id in range"),
        slot: Slot::Primary,
        key_id: KeyId::new(key_id).expect(rt, "an id in range"),
        encrypt: dir(1),
        decrypt: dir(2),
    }
}

/// The serial of a key that stands there.
fn serial(key: Option<&KeyRec>) -> Option<u32> {
    key.map(|key| key.serial)
}

#[test]
fn each_direction_has_its_own_key_and_tail(rt: HostRuntime) -> Result<(), Fail> {
    let pair = KeyPair::of(&conf(&rt, 0));
    assert_eq!(rt; pair.seal_tail, [1; 8]);
    assert_eq!(rt; pair.unseal_tail, [2; 8]);
    let mut text = [7; 5];
    let tag = pair.seal.seal([0; 12], &[], &mut text);
    assert!(rt; pair.unseal.unseal([0; 12], &[], &mut text, tag).is_err());
    assert!(rt; pair.seal.unseal([0; 12], &[], &mut text, tag).is_ok());
    assert_eq!(rt; text, [7; 5]);
    Ok(())
}

#[test]
fn a_key_replaces_what_stands_in_its_slot(rt: HostRuntime) -> Result<(), Fail> {
    let alloc = rt.alloc();
    let mut slots = Slots::new();
    assert_eq!(rt; serial(slots.primary()), None);
    for (slot, number, wanted) in [
        (Slot::Primary, 0, None),
        (Slot::Secondary, 1, None),
        (Slot::Primary, 2, Some(0)),
        (Slot::Secondary, 3, Some(1)),
    ] {
        let key = KeyRec::of(alloc, number, &conf(&rt, 0))?;
        let was = slots.install(slot, key);
        assert_eq!(rt; serial(was.as_ref()), wanted);
        assert_eq!(rt; serial(slots.at(slot)), Some(number));
    }
    assert_eq!(rt; serial(slots.primary()), Some(2));
    let first = slots.take(Slot::Primary);
    assert_eq!(rt; serial(first.as_ref()), Some(2));
    let second = slots.take(Slot::Secondary);
    assert_eq!(rt; serial(second.as_ref()), Some(3));
    assert_eq!(rt; serial(slots.at(Slot::Secondary)), None);
    Ok(())
}

#[test]
fn a_key_is_found_by_its_id_in_the_primary_slot_first(rt: HostRuntime) -> Result<(), Fail> {
    let alloc = rt.alloc();
    let three = KeyId::new(3).expect(&rt, "an id in range");
    let four = KeyId::new(4).expect(&rt, "an id in range");
    let mut slots = Slots::new();
    assert_eq!(rt; serial(slots.by_key_id(three)), None);
    slots.install(Slot::Secondary, KeyRec::of(alloc, 0, &conf(&rt, 3))?);
    assert_eq!(rt; serial(slots.by_key_id(three)), Some(0));
    slots.install(Slot::Primary, KeyRec::of(alloc, 1, &conf(&rt, 3))?);
    assert_eq!(rt; serial(slots.by_key_id(three)), Some(1));
    assert_eq!(rt; serial(slots.by_key_id(four)), None);
    assert_eq!(rt; serial(slots.by_key(0)), Some(0));
    assert_eq!(rt; serial(slots.by_key(2)), None);
    Ok(())
}

#[test]
fn a_key_is_killed_in_either_slot(rt: HostRuntime) -> Result<(), Fail> {
    let alloc = rt.alloc();
    let mut slots = Slots::new();
    slots.install(Slot::Primary, KeyRec::of(alloc, 6, &conf(&rt, 0))?);
    slots.install(Slot::Secondary, KeyRec::of(alloc, 7, &conf(&rt, 1))?);
    for (key, wanted) in [(8, None), (7, Some(7)), (7, None), (6, Some(6)), (6, None)] {
        let killed = slots.kill(key);
        assert_eq!(rt; serial(killed.as_ref()), wanted);
    }
    assert_eq!(rt; serial(slots.primary()), None);
    Ok(())
}

#[test]
fn a_swap_exchanges_what_stands_in_the_slots(rt: HostRuntime) -> Result<(), Fail> {
    let alloc = rt.alloc();
    let mut slots = Slots::new();
    slots.install(Slot::Primary, KeyRec::of(alloc, 6, &conf(&rt, 0))?);
    for (primary, secondary) in [(None, Some(6)), (Some(6), None)] {
        slots.swap();
        assert_eq!(rt; serial(slots.at(Slot::Primary)), primary);
        assert_eq!(rt; serial(slots.at(Slot::Secondary)), secondary);
    }
    slots.install(Slot::Secondary, KeyRec::of(alloc, 7, &conf(&rt, 1))?);
    slots.swap();
    assert_eq!(rt; serial(slots.primary()), Some(7));
    assert_eq!(rt; serial(slots.at(Slot::Secondary)), Some(6));
    Ok(())
}

#[test]
fn no_byte_of_a_direction_is_printed(rt: HostRuntime) -> Result<(), Fail> {
    let text = format!(in rt.alloc(); "{:?}", dir(171))?;
    assert!(rt; text.as_str() == "KeyDir(a key of 16 bytes, a tail of 8)");
    Ok(())
}
