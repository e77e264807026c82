//! Removing live peers by their serials, in a given order. The room for all of it was made before.

ghost use Rattle.std.specs.Prelude.{ℕ, ◌≡◌, ◌<◌, ◌≤◌, ◌+◌, ◌*◌, ◌++◌, length, map, option_to_list, vec_len};
ghost use Rattle.std.specs.Vec.{vec_capacity};
ghost use Rattle.ov_model.specs.Runs.{numbered};
ghost use Rattle.ov_model.specs.Tables.{without_first, has_serial, by_serial, bare, keys_of, key_serials, serials_of};
ghost use Rattle.ov_table.specs.Apart.{Apart};
ghost use Rattle.ov_table.specs.Outcomes.{serial_list};
ghost use Rattle.ov_table.specs.Picked.{picked, left, del_notes};

use crate::retired::retire_all;
use crate::room::push_within;
use ov_index::{Gone, Index, Peer};
use ov_keys::KeyRec;
use ov_model::{Note, NoteBody, Reason};
use ov_notes::NoteLog;

/// The live peers with these serials die, in this order: the keys of their slots are retired, the primary's first, and
/// `taken` tells their serials; a note each, with the entry's number, tells their ids and the reason.
pub fn remove_each(
    live: &mut Index,
    dying: &mut Gone<Peer>,
    retired: &mut Gone<KeyRec>,
    notes: &mut NoteLog,
    taken: &mut Vec<u32>,
    gone: &[u32],
    reason: Reason,
    entry: u64,
)
    requires dying_room { length gone.now ≤ dying.old.room }
    requires retired_room { 2 * length gone.now ≤ retired.old.room }
    requires notes_room { length gone.now ≤ notes.old.room }
    requires taken_room { vec_len taken.old + 2 * length gone.now ≤ vec_capacity taken.old }
    requires apart { Apart (serials_of live.old.live) (serials_of dying.old.items)
        dying.old.serials }
    requires keys { Apart (key_serials (keys_of live.old.live)) (key_serials retired.old.items)
        retired.old.serials }
    ensures live { live.new ≡ record live.old { live = left gone.now live.old.live } }
    ensures dying { dying.new.items ≡ dying.old.items ++ map bare (picked gone.now live.old.live) }
    ensures retired { retired.new.items ≡
        retired.old.items ++ keys_of (picked gone.now live.old.live) }
    ensures notes { notes.new.notes ≡ notes.old.notes ++
        numbered entry (del_notes reason (picked gone.now live.old.live)) }
    ensures taken { taken.new.items ≡ taken.old.items ++
        key_serials (keys_of (picked gone.now live.old.live)) }
    ensures apart { (made : ℕ) →
        Apart (serials_of live.old.live) (serials_of dying.old.items) made →
        Apart (serials_of live.new.live) (serials_of dying.new.items) made }
    ensures keys { (made : ℕ) →
        Apart (key_serials (keys_of live.old.live)) (key_serials retired.old.items) made →
        Apart (key_serials (keys_of live.new.live)) (key_serials retired.new.items) made }
    ensures same { length live.new.live + length dying.new.items ≡
        length live.old.live + length dying.old.items }
    ensures most { length retired.new.items ≤ length retired.old.items + 2 * length gone.now }
{
    for serial in gone {
        remove_one(live, dying, retired, notes, taken, *serial, reason, entry);
    }
}

/// The live peer with a serial dies, where there is one.
fn remove_one(
    live: &mut Index,
    dying: &mut Gone<Peer>,
    retired: &mut Gone<KeyRec>,
    notes: &mut NoteLog,
    taken: &mut Vec<u32>,
    serial: u32,
    reason: Reason,
    entry: u64,
)
    requires dying_room { 1 ≤ dying.old.room }
    requires retired_room { 2 ≤ retired.old.room }
    requires notes_room { 1 ≤ notes.old.room }
    requires taken_room { vec_len taken.old + 2 ≤ vec_capacity taken.old }
    requires apart { Apart (serials_of live.old.live) (serials_of dying.old.items)
        dying.old.serials }
    requires keys { Apart (key_serials (keys_of live.old.live)) (key_serials retired.old.items)
        retired.old.serials }
    ensures live { live.new ≡
        record live.old { live = without_first (has_serial serial) live.old.live } }
    ensures dying { dying.new.items ≡
        dying.old.items ++ map bare (option_to_list (by_serial serial live.old.live)) }
    ensures retired { retired.new.items ≡
        retired.old.items ++ keys_of (option_to_list (by_serial serial live.old.live)) }
    ensures notes { notes.new.notes ≡ notes.old.notes ++
        numbered entry (del_notes reason (option_to_list (by_serial serial live.old.live))) }
    ensures taken { taken.new.items ≡ taken.old.items ++
        key_serials (keys_of (option_to_list (by_serial serial live.old.live))) }
    ensures dying_room { dying.old.room ≤ dying.new.room + 1 }
    ensures retired_room { retired.old.room ≤ retired.new.room + 2 }
    ensures notes_room { notes.old.room ≤ notes.new.room + 1 }
    ensures taken_len { vec_len taken.new ≤ vec_len taken.old + 2 }
    ensures taken_room { vec_capacity taken.old ≤ vec_capacity taken.new }
    ensures dying_serials { dying.new.serials ≡ dying.old.serials }
    ensures retired_serials { retired.new.serials ≡ retired.old.serials }
{
    let Some(mut peer) = live.take(serial) else {
        return;
    };
    let (first, second) = retire_all(retired, &mut peer.slots);
    put_taken(taken, first);
    put_taken(taken, second);
    let body = NoteBody::PeerDel {
        id: peer.id,
        reason,
    };
    notes.add(Note { entry, body });
    dying.join(peer);
}

/// Puts down the serial of a key that was taken, where there is one, in the room that was reserved for it.
pub fn put_taken(taken: &mut Vec<u32>, key: Option<u32>)
    requires { vec_len taken.old < vec_capacity taken.old }
    ensures items { taken.new.items ≡ taken.old.items ++ serial_list key }
    ensures len { vec_len taken.new ≤ vec_len taken.old + 1 }
    ensures capacity { vec_capacity taken.old ≤ vec_capacity taken.new }
{
    if let Some(key) = key {
        push_within(taken, key);
    }
}
