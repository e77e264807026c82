//! What the line of a lane holds.

ghost use Rattle.std.specs.Prelude.{◌≡◌};
ghost use Rattle.ov_path.specs.Desks.{held_after, look_holds};
ghost use Rattle.ov_past.specs.Holds.{holding, hold_without};

use ov_model::{Act, HoldView, Owed, Reply};

/// Nothing, a peer and its key, or a peer whose key was given back.
#[derive(Clone, Copy, Debug, PartialEq, Eq)]
pub enum Hold {
    Nothing,
    Both(HoldView),
    PeerLeft(HoldView),
}

impl Hold {
    /// After a step of the table: a look-up that found its peer and key holds them.
    pub fn after(self, act: &Act, reply: &Reply) -> Hold
        ensures { holding result ≡ held_after (holding self) act.now reply.now }
    {
        match act {
            Act::TxLook(_) | Act::RxLook { .. } | Act::KeepLook(_) => self.looked(reply),
            Act::Do(_)
            | Act::Sent { .. }
            | Act::Settle { .. }
            | Act::Spend { .. }
            | Act::Released(_)
            | Act::KeyReleased(_) => self,
        }
    }

    /// After a look-up.
    fn looked(self, reply: &Reply) -> Hold
        ensures { holding result ≡ look_holds (holding self) reply.now }
    {
        match reply {
            Reply::Hold(view) => Hold::Both(*view),
            _ => self,
        }
    }

    /// After the key or the peer was given back: only the peer is held on, or nothing.
    pub fn without(self, owed: Owed) -> Hold
        ensures { holding result ≡ hold_without owed (holding self) }
    {
        match (owed, self) {
            (Owed::Key(_), Hold::Both(view)) => Hold::PeerLeft(view),
            (Owed::Key(_), other) => other,
            (Owed::Peer(_), _) => Hold::Nothing,
        }
    }
}
