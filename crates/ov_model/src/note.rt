//! The notifications of the netlink family.

use crate::command::Reason;
use crate::ident::{KeyId, PeerId};

/// What a notification tells.
#[derive(Clone, Copy, Debug, PartialEq, Eq)]
pub enum NoteBody {
    /// A peer was removed (peer-del-ntf).
    PeerDel { id: PeerId, reason: Reason },
    /// A key gave its last packet id and was killed (key-swap-ntf).
    KeySwap { id: PeerId, key_id: KeyId },
}

/// A notification and the number of the entry of the history that made it, from 0.
#[derive(Clone, Copy, Debug, PartialEq, Eq)]
pub struct Note {
    pub entry: u64,
    pub body: NoteBody,
}
