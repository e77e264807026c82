//! The places of a list with holes.

ghost use Rattle.std.specs.Prelude.{◌≡◌, ◌<◌, ◌≤◌, Some, None, length, slice_get, slice_set, option_copied, map, IfOk};
ghost use Rattle.std.specs.Vec.{vec_capacity};
ghost use Rattle.ov_model.specs.Tables.{view_of};
ghost use Rattle.ov_index.specs.Index as specs;
ghost use Rattle.ov_index.specs.Gone.{holes_in_front};

use ov_base::Memory;
use ov_model::PeerView;
use ov_peer::Peer;
use std::alloc::Global;

/// Who stands at a place.
pub fn standing<T>(slots: &[Option<T>], place: usize) -> Option<&T>
    ensures { option_copied result ≡ specs.standing slots.now place }
{
    slots.get(place)?.as_ref()
}

/// Takes who stands at a place out, and leaves a hole.
pub fn take_at<T: Drop>(slots: &mut Vec<Option<T>>, place: usize) -> Option<T>
    ensures was { result ≡ specs.standing slots.old.items place }
    ensures now { slots.new.items ≡ slice_set slots.old.items place None }
    ensures long { length slots.new.items ≡ length slots.old.items }
    ensures capacity { vec_capacity slots.old ≤ vec_capacity slots.new }
{
    if place >= slots.len() {
        return None;
    }
    slots[place].take()
}

/// Puts one at a place.
pub fn put_at<T: Drop>(slots: &mut Vec<Option<T>>, place: usize, item: T)
    requires { place < length slots.old.items }
    ensures { slots.new.items ≡ slice_set slots.old.items place (Some item) }
{
    slots[place] = Some(item);
}

/// The number of holes in front, where at least `from` of them are known.
pub fn count_front<T>(slots: &[Option<T>], from: usize) -> usize
    requires { from ≤ holes_in_front slots.now }
    ensures { result ≡ holes_in_front slots.now }
{
    let mut place = from;
    while place < slots.len() && slots[place].is_none() {
        place += 1;
    }
    place
}

/// Whose a key is: the serial of the peer that it was made for.
pub fn home_of(homes: &[u32], key: u32) -> Option<u32>
    ensures { result ≡ slice_get homes.now key }
{
    homes.get(key as usize).copied()
}

/// What those show who stand at the places, in their order. `Err` is want of memory.
pub fn views_of(alloc: Global, peers: &[Option<Peer>]) -> Result<Vec<PeerView>, Memory>
    ensures { IfOk result (λ views. views.items ≡ map view_of (specs.present peers.now)) }
{
    let mut views = Vec::new(alloc);
    for slot in peers {
        if let Some(peer) = slot {
            views.push(peer.view())?;
        }
    }
    Ok(views)
}
