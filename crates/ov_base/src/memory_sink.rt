//! A sink in memory that keeps what it takes, and whose calls fail where planned.

ghost use Rattle.std.specs.Prelude.{◌≡◌, ◌<◌, [], Some, IsTrue, length};
ghost use Rattle.ov_base.specs.Outside.{TookFits, WriteAdds, TookCause};
ghost use Rattle.ov_base.specs.InMemory.{is_planned, TakesMost, sink_after};

use crate::failures::Failures;
use crate::list::ListOf;
use crate::sink::{Sink, Took};
use std::alloc::Global;
use std::marker::Model;

/// Takes bytes in pieces and keeps them. It fails at the calls whose numbers it was made with. Any other
/// call may fail too, for want of memory for what it is to keep, which no clause ties to a cause: it
/// then takes nothing, and its fault is counted like a planned one.
#[derive(Debug, Drop)]
pub struct MemorySink {
    written: Vec<u8>,
    piece: usize,
    failures: Failures,
}

impl Model for MemorySink {
    ghost use Rattle.std.specs.Prelude.{◌<◌};
    ghost use Rattle.ov_base.specs.InMemory.{SinkState};

    ghost Value = { SinkState };

    ghost view = { λ s. record { written = s.written.items; piece = s.piece; failures = s.failures } };

    ghost invariant = { λ s. 0 < s.piece };
}

impl MemorySink {
    /// An empty sink that takes at most `piece` bytes a call, and fails at each call whose number
    /// is in `failing`. The first call has the number 0. `piece` is at least 1.
    pub fn new(alloc: Global, piece: usize, failing: ListOf<u64>) -> MemorySink
        requires { 0 < piece }
        ensures written { result.written ≡ [] }
        ensures piece { result.piece ≡ piece }
        ensures failures { result.failures ≡ record { planned = failing; calls = 0; faults = 0 } }
    {
        MemorySink {
            written: Vec::new(alloc),
            piece,
            failures: Failures::new(failing),
        }
    }

    /// What it has taken.
    pub fn written(&self) -> &[u8]
        ensures { result.now ≡ self.now.written }
    {
        self.written.as_slice()
    }
}

impl Sink for MemorySink {
    ghost use Rattle.std.specs.Prelude.{Some};

    ghost written = { λ s. Some s.written };

    ghost faults = { λ s. s.failures.faults };

    fn write(&mut self, piece: &[u8]) -> Took
        requires { 0 < length piece.now }
        ensures fits { TookFits result piece.now }
        ensures bytes { WriteAdds (Some self.old.written) (Some self.new.written) result piece.now }
        ensures cause { TookCause self.old.failures.faults self.new.failures.faults result }
        ensures planned { IsTrue (is_planned self.old.failures) → result ≡ Took.Failed }
        ensures count { TakesMost self.old.piece piece.now result }
        ensures after { self.new ≡ sink_after self.old piece.now result }
    {
        if self.failures.count_call() {
            return Took::Failed;
        }
        let count = self.piece.min(piece.len());
        match self.written.extend_from_slice(&piece[..count]) {
            Ok(()) => Took::Bytes(count),
            Err(_) => {
                self.failures.count_fault();
                Took::Failed
            }
        }
    }
}
