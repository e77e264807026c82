//! The live peers and the maps to them. It is kept true that each peer stands at the place of its serial, that the
//! names of each lead to it and nowhere else, and that each key of a slot is known to be its peer's.

ghost use Rattle.std.specs.Prelude.{◌≡◌, ◌+◌, ◌++◌, ◌∷◌, [], true, false, None, Some, is_some, OnOk, OnErr, option_copied, find};
ghost use Rattle.std.specs.List.{list_any};
ghost use Rattle.ov_model.specs.Step as model;
ghost use Rattle.ov_model.specs.Tables as tables;
ghost use Rattle.ov_index.specs.Index.{no_peers};

mod changes;
mod commands;
mod looks;

use crate::name::Name;
use crate::names::{Owners, make_room, put_all};
use crate::peers::Places;
use ov_base::{Memory, Transport};
use ov_model::{Attrs, PeerId};
use ov_peer::Peer;
use std::alloc::Global;
use std::collections::HashMap;
use std::marker::Model;

/// The live peers in the order of making. A serial is the number of peers made before it, so it is the peer's place
/// in a list that keeps a hole for each peer that is gone: a removal from the middle moves nobody.
#[derive(Drop)]
pub struct Index {
    peers: Places,
    owners: Owners,
    homes: Vec<u32>,
}

impl Model for Index {
    ghost use Rattle.std.specs.Prelude.{length, vec_len};
    ghost use Rattle.std.specs.HashMap.{get};
    ghost use Rattle.ov_index.specs.Names.{same_name};
    ghost use Rattle.ov_index.specs.Index.{Indexed, IsIndex, present};

    ghost Value = { Indexed };

    ghost view = { λ t. record { live = present t.peers.items; made = length t.peers.items; keys_made = vec_len t.homes } };

    ghost invariant = { λ t. IsIndex (get same_name t.owners) t.homes.items t.peers.items };
}

impl Index {
    /// No peers. It takes no memory until the first is added.
    pub fn new(alloc: Global) -> Index
        ensures { result ≡ no_peers }
    {
        Index {
            peers: Places::new(alloc),
            owners: HashMap::new(alloc),
            homes: Vec::new(alloc),
        }
    }

    /// The peer that peer-new makes at `now` becomes the last one. Its id, its VPN addresses and its remote are free.
    /// `Err` is want of memory: then nothing changed.
    pub fn add(
        &mut self,
        serial: u32,
        now: u32,
        attrs: &Attrs,
        remote: Transport,
    ) -> Result<(), Memory>
        requires serial { serial ≡ self.old.made }
        requires id { is_some (tables.by_id attrs.now.id self.old.live) ≡ false }
        requires vpn { list_any (tables.shares_vpn attrs.now) self.old.live ≡ false }
        requires remote { is_some (tables.by_remote remote self.old.live) ≡ false }
        ensures ok { OnOk result (self.new ≡ record self.old {
          live = self.old.live ++ model.peer_of serial now attrs.now remote ∷ [];
          made = self.old.made + 1;
        }) }
        ensures err { OnErr result (self.new ≡ self.old) }
    {
        make_room(&mut self.owners)?;
        self.peers.reserve()?;
        let peer = Peer::new(serial, now, attrs, remote);
        put_all(&mut self.owners, &peer);
        self.peers.push(peer);
        Ok(())
    }
}
