// What a line's steps are made at.

ghost use Rattle.std.specs.Prelude.{◌≡◌, Some, OnErr, IfOk, IsSome, option_copied};
ghost use Rattle.ov_model.specs.Tables.{Material};
ghost use Rattle.ov_model.specs.Events.{Event, Stepped, Drew, GaveKey, GavePeer, release_of};
ghost use Rattle.ov_model.specs.Next.{stand_of};
ghost use Rattle.ov_path.specs.Desks.{View, SameLine, Did, Called, MayCall, HoldsKey, LeftPeer, IsLooked, IsUnused, judged_at, first_owed};

use ov_base::{Addr, Memory};
use ov_keys::KeyPair;
use ov_model::{Call, Drawn, Given, Owed, Place, Reply, Verdict};

/// The peer table, the replay windows, the counters and the holds, as one line sees them.
///
/// `view` is what the desk shows to the present line: its events so far, the hold that is out, the releases
/// that are owed, what is had of the keys by their serials, which only grows, and the next hop of an address,
/// which becomes another only where a step of the table is made. `does` is what an event makes of the desk
/// itself: each kind of desk says here what its callers are to know of it, and a line passes it on. `keeps` is what
/// stays of the desk itself where there was no memory: a shared desk may have seen more meanwhile.
pub trait Desk {
    ghost view: { Self → View };

    ghost does: { Self → Event → Self → Type 0 };

    ghost keeps: { Self → Self → Type 0 };

    ghost keeps_itself: { (d : Self) → keeps d d };

    /// Makes one step of the peer table, any but a release. A look-up that answers Hold takes the hold.
    /// After a command some of the keys and peers that it removed are owed their release. At `Memory` no
    /// step was made.
    fn table(&mut self, place: Place, call: &Call) -> Result<Reply, Memory>
        requires may { MayCall (view self.old) call.now.act }
        ensures ok { IfOk result (λ r. Called view does self.old place call.now r self.new) }
        ensures err { OnErr result (SameLine (view self.old) (view self.new)) }
        ensures keeps { OnErr result (keeps self.old self.new) };

    /// The two directions of a key: None, or what the desk has of it, and Some where the key is held and not
    /// used yet. It is lent, not copied.
    fn pair(&self, key: u32) -> Option<&KeyPair>
        ensures is { (m : Material) → option_copied result ≡ Some m →
            (view self.now).material key ≡ Some m }
        ensures some { HoldsKey (view self.now).hold key →
            IsUnused (stand_of (view self.now).events) → IsSome result };

    /// Asks the replay window of a held key about a packet id. At `Memory` it wasn't judged.
    fn replay(&mut self, place: Place, key: u32, id: u32, at: u32) -> Result<Verdict, Memory>
        requires held { HoldsKey (view self.old).hold key }
        requires looked { IsLooked (stand_of (view self.old).events) }
        ensures ok { IfOk result (λ v.
            Did view does self.old (judged_at place key id at v) self.new) }
        ensures err { OnErr result (SameLine (view self.old) (view self.new)) }
        ensures keeps { OnErr result (keeps self.old self.new) };

    /// Asks the counter of a held key for a packet id.
    fn draw(&mut self, key: u32) -> Drawn
        requires held { HoldsKey (view self.old).hold key }
        requires looked { IsLooked (stand_of (view self.old).events) }
        ensures drew { Did view does self.old (Drew key result) self.new };

    /// Gives back the hold on the key. At Last the key's release is owed.
    fn give_back_key(&mut self, key: u32) -> Given
        requires held { HoldsKey (view self.old).hold key }
        ensures gave { Did view does self.old (GaveKey key result) self.new };

    /// Gives back the hold on the peer, after that on its key. At Last the peer's release is owed.
    fn give_back(&mut self, peer: u32) -> Given
        requires held { LeftPeer (view self.old).hold peer }
        ensures gave { Did view does self.old (GavePeer peer result) self.new };

    /// The first release that is owed; `None` exactly where none is.
    fn owed(&self) -> Option<Owed>
        ensures first { result ≡ first_owed (view self.now).owing };

    /// Makes the release that is owed first.
    fn release(&mut self, place: Place, at: u32, owed: Owed)
        requires first { first_owed (view self.old).owing ≡ Some owed }
        ensures released { Did view does self.old (Stepped (release_of place at owed)) self.new };

    /// The next hop of an address.
    fn via(&self, addr: Addr) -> Addr
        ensures next_hop { result ≡ (view self.now).via addr };
}
