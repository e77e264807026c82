//! What a send counter answers.

/// A drawn packet id, or the news that the key has none left.
#[derive(Clone, Copy, Debug, PartialEq, Eq)]
pub enum Drawn {
    /// An id that no other draw of this key has.
    Id(u32),
    /// The key has given its last id, 4294967295: it must not seal any more.
    Spent,
}
