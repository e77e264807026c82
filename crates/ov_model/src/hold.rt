//! What giving back a hold answers, and what whoever was last owes.

/// Whether a hold that was given back was the last one on a peer or key that is on its way out.
#[derive(Clone, Copy, Debug, PartialEq, Eq)]
pub enum Given {
    /// Others hold it still, or it is still in use.
    More,
    /// Nobody holds it any more and nobody can: whoever is told so owes its release.
    Last,
}

/// A release that is owed: the serial of the peer or of the key.
#[derive(Clone, Copy, Debug, PartialEq, Eq)]
pub enum Owed {
    Peer(u32),
    Key(u32),
}
