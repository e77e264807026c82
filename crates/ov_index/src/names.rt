//! Whose a name is: the map from the names of the live peers to their serials.

ghost use Rattle.std.specs.Prelude.{◌≡◌, ◌≤◌, ◌<◌, ◌+◌, Some, None, OnOk, cond};
ghost use Rattle.std.specs.HashMap.{get, spare};
ghost use Rattle.ov_index.specs.Names.{same_name, is_name, has_name};

use crate::name::{Name, remote_name, vpn4_name, vpn6_name};
use ov_base::Memory;
use ov_peer::Peer;
use std::collections::HashMap;

/// From a name to the serial of the live peer that has it. The hasher's seed is fixed.
pub type Owners = HashMap<Name, u32>;

/// The serial of the peer that has a name.
pub fn owner_of(owners: &Owners, name: Name) -> Option<u32>
    ensures { result ≡ get same_name owners.now name }
{
    owners.get(&name).copied()
}

/// Makes room for four names more. `Err` is want of memory; the names stay what they are either way.
pub fn make_room(owners: &mut Owners) -> Result<(), Memory>
    ensures same { (q : Name) → get same_name owners.new q ≡ get same_name owners.old q }
    ensures room { OnOk result (4 ≤ spare owners.new) }
{
    owners.reserve(4)?;
    Ok(())
}

/// Gives a name to a peer, in the room that was made for it.
fn put(owners: &mut Owners, name: Name, serial: u32)
    requires { 0 < spare owners.old }
    ensures names { (q : Name) → get same_name owners.new q ≡
        cond (same_name name q) (Some serial) (get same_name owners.old q) }
    ensures room { spare owners.old ≤ spare owners.new + 1 }
{
    match owners.insert(name, serial) {
        Ok(_) => {}
        Err(_) => unreachable!(),
    }
}

/// Takes a name from the peer that has it.
fn take(owners: &mut Owners, name: Name)
    ensures names { (q : Name) → get same_name owners.new q ≡
        cond (same_name name q) None (get same_name owners.old q) }
    ensures room { spare owners.old ≤ spare owners.new }
{
    owners.remove(&name);
}

/// Gives a name to a peer, where there is one.
fn put_if_any(owners: &mut Owners, name: Option<Name>, serial: u32)
    requires { 0 < spare owners.old }
    ensures names { (q : Name) → get same_name owners.new q ≡
        cond (is_name name q) (Some serial) (get same_name owners.old q) }
    ensures room { spare owners.old ≤ spare owners.new + 1 }
{
    if let Some(name) = name {
        put(owners, name, serial);
    }
}

/// Takes a name from the peer that has it, where there is one.
fn take_if_any(owners: &mut Owners, name: Option<Name>)
    ensures names { (q : Name) → get same_name owners.new q ≡
        cond (is_name name q) None (get same_name owners.old q) }
    ensures room { spare owners.old ≤ spare owners.new }
{
    if let Some(name) = name {
        take(owners, name);
    }
}

/// All names of a peer lead to it.
pub fn put_all(owners: &mut Owners, peer: &Peer)
    requires { 4 ≤ spare owners.old }
    ensures { (q : Name) → get same_name owners.new q ≡
        cond (has_name q peer.now) (Some peer.now.serial) (get same_name owners.old q) }
{
    put(owners, Name::Id(peer.id.get()), peer.serial);
    put(owners, remote_name(peer.remote), peer.serial);
    put_if_any(owners, vpn4_name(peer.vpn4), peer.serial);
    put_if_any(owners, vpn6_name(peer.vpn6), peer.serial);
}

/// The names of a peer lead nowhere.
pub fn take_all(owners: &mut Owners, peer: &Peer)
    ensures names { (q : Name) → get same_name owners.new q ≡
        cond (has_name q peer.now) None (get same_name owners.old q) }
    ensures room { spare owners.old ≤ spare owners.new }
{
    take(owners, Name::Id(peer.id.get()));
    take(owners, remote_name(peer.remote));
    take_if_any(owners, vpn4_name(peer.vpn4));
    take_if_any(owners, vpn6_name(peer.vpn6));
}
