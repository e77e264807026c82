//! A source in memory whose calls fail where planned.

ghost use Rattle.std.specs.Prelude.{◌≡◌, ◌<◌, Some, length};
ghost use Rattle.ov_base.specs.Outside.{GotFits, ReadTakes, GotCause};
ghost use Rattle.ov_base.specs.InMemory.{got_of, source_after};

use crate::failures::Failures;
use crate::list::{ListOf, Octets};
use crate::source::{Got, Source};
use crate::steady_source::SteadySource;
use std::marker::Model;

/// Gives its bytes in pieces, and fails at the calls whose numbers it was made with.
#[derive(Debug, Drop)]
pub struct MemorySource {
    steady: SteadySource,
    failures: Failures,
}

impl Model for MemorySource {
    ghost use Rattle.ov_base.specs.InMemory.{SourceState};

    ghost Value = { SourceState };

    ghost view = { λ s. record { steady = s.steady; failures = s.failures } };
}

impl MemorySource {
    /// A source that gives `bytes`, at most `piece` of them a call, and fails at each call whose
    /// number is in `failing`. The first call has the number 0. `piece` is at least 1.
    pub fn new(bytes: Octets, piece: usize, failing: ListOf<u64>) -> MemorySource
        requires { 0 < piece }
        ensures left { result.steady ≡ record { left = bytes; piece = piece } }
        ensures failures { result.failures ≡ record { planned = failing; calls = 0; faults = 0 } }
    {
        MemorySource {
            steady: SteadySource::new(bytes, piece),
            failures: Failures::new(failing),
        }
    }

    /// What it will still give.
    pub fn left(&self) -> &[u8]
        ensures { result.now ≡ self.now.steady.left }
    {
        self.steady.left()
    }
}

impl Source for MemorySource {
    ghost use Rattle.std.specs.Prelude.{Some};

    ghost left = { λ s. Some s.steady.left };

    ghost faults = { λ s. s.failures.faults };

    fn read(&mut self, buf: &mut [u8]) -> Got
        requires { 0 < length buf.old }
        ensures fits { GotFits result buf.new }
        ensures bytes { ReadTakes (Some self.old.steady.left) (Some self.new.steady.left) result
            buf.new }
        ensures cause { GotCause self.old.failures.faults self.new.failures.faults result }
        ensures answer { result ≡ got_of self.old (length buf.old) }
        ensures after { self.new ≡ source_after self.old result }
    {
        if self.failures.count_call() {
            return Got::Failed;
        }
        self.steady.read(buf)
    }
}
