//! Where bytes come from: the one call by which a program reads, and what it may answer.

ghost use Rattle.std.specs.Prelude.{ℕ, List, ◌<◌, length};
ghost use Rattle.std.specs.declared.option.Option.{Option};
ghost use Rattle.ov_base.specs.Outside.{GotFits, ReadTakes, GotCause};

/// What one read gave.
#[derive(Clone, Copy, Debug, PartialEq, Eq)]
pub enum Got {
    /// So many bytes, at least one, at the front of the buffer.
    Bytes(usize),
    /// There is nothing more to read.
    End,
    /// The read failed, and the source's count of faults rose. No byte is lost: the next read
    /// goes on where the last one stopped.
    Failed,
}

/// A stream of bytes to read, as a file, a pipe or a list in memory.
///
/// `left` is what the source will still give, where it is told: a source in memory tells it, one
/// over the system doesn't. `faults` counts its failed reads and nothing else: it rises where a read
/// fails, stops at the greatest `u64`, and stands where a read didn't fail.
pub trait Source {
    ghost left: { Self → Option (List ℕ) };

    ghost faults: { Self → ℕ };

    /// Reads into the front of `buf`, which isn't empty. What `buf` holds behind the bytes given
    /// is not said.
    fn read(&mut self, buf: &mut [u8]) -> Got
        requires { 0 < length buf.old }
        ensures fits { GotFits result buf.new }
        ensures bytes { ReadTakes (left self.old) (left self.new) result buf.new }
        ensures cause { GotCause (faults self.old) (faults self.new) result };
}
