//! Where bytes go to: the one call by which a program writes, and what it may answer.

ghost use Rattle.std.specs.Prelude.{ℕ, List, ◌<◌, length};
ghost use Rattle.std.specs.declared.option.Option.{Option};
ghost use Rattle.ov_base.specs.Outside.{TookFits, WriteAdds, TookCause};

/// What one write took.
#[derive(Clone, Copy, Debug, PartialEq, Eq)]
pub enum Took {
    /// So many bytes, at least one, from the front of the piece.
    Bytes(usize),
    /// The write failed, nothing was taken, and the sink's count of faults rose.
    Failed,
}

/// A stream of bytes to write, as a file, a pipe or a list in memory.
///
/// `written` is what the sink has taken so far, where it is told: a sink in memory tells it, one
/// over the system doesn't. `faults` counts its failed writes and nothing else: it rises where a write
/// fails, stops at the greatest `u64`, and stands where a write didn't fail.
pub trait Sink {
    ghost written: { Self → Option (List ℕ) };

    ghost faults: { Self → ℕ };

    /// Writes from the front of `piece`, which isn't empty, and may take less than all of it.
    fn write(&mut self, piece: &[u8]) -> Took
        requires { 0 < length piece.now }
        ensures fits { TookFits result piece.now }
        ensures bytes { WriteAdds (written self.old) (written self.new) result piece.now }
        ensures cause { TookCause (faults self.old) (faults self.new) result };
}
