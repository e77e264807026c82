//! What a lock keeps: a value with a history that only grows, and with cells that it lists.
ghost use Rattle.std.specs.Prelude.{◌≡◌, ℕ, List, length};

/// A value that lies behind a `TicketLock`.
pub trait Kept: Send {
    /// An entry of the history.
    type Item;

    // What was done under the lock, in order. The value needn't store it.
    ghost history: { Self → List Self.Item };

    // The cells that may be held anew.
    ghost live: { Self → List ℕ };

    // The cells that may still be held, but not anew.
    ghost dying: { Self → List ℕ };

    /// The number of entries of the history.
    fn length(&self) -> u64
        ensures { result ≡ length (history self.now) };
}
