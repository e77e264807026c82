//! A source in memory that never fails.

ghost use Rattle.std.specs.Prelude.{◌≡◌, ◌<◌, ◌≤◌, Some, length};
ghost use Rattle.ov_base.specs.Outside.{GotFits, ReadTakes, GotCause};
ghost use Rattle.ov_base.specs.InMemory.{gives, after_read};

use crate::front::copy_front;
use crate::list::Octets;
use crate::source::{Got, Source};
use std::marker::Model;

/// Gives its bytes in pieces, and never fails: its count of faults is 0.
#[derive(Debug, Drop)]
pub struct SteadySource {
    bytes: Octets,
    at: usize,
    piece: usize,
}

impl Model for SteadySource {
    ghost use Rattle.std.specs.Prelude.{◌<◌, ◌≤◌, drop, length};
    ghost use Rattle.ov_base.specs.InMemory.{SteadyState};

    ghost Value = { SteadyState };

    ghost view = { λ s. record { left = drop s.at s.bytes; piece = s.piece } };

    ghost invariant = { λ s. (0 < s.piece) × (s.at ≤ length s.bytes) };
}

impl SteadySource {
    /// A source that gives `bytes`, at most `piece` of them a call. `piece` is at least 1.
    pub fn new(bytes: Octets, piece: usize) -> SteadySource
        requires { 0 < piece }
        ensures { result ≡ record { left = bytes; piece = piece } }
    {
        SteadySource {
            bytes,
            at: 0,
            piece,
        }
    }

    /// What it will still give.
    pub fn left(&self) -> &[u8]
        ensures { result.now ≡ self.now.left }
    {
        &self.bytes.as_slice()[self.at..]
    }
}

impl Source for SteadySource {
    ghost use Rattle.std.specs.Prelude.{Some};

    ghost left = { λ s. Some s.left };

    ghost faults = { λ _. 0 };

    fn read(&mut self, buf: &mut [u8]) -> Got
        requires { 0 < length buf.old }
        ensures fits { GotFits result buf.new }
        ensures bytes { ReadTakes (Some self.old.left) (Some self.new.left) result buf.new }
        ensures cause { GotCause 0 0 result }
        ensures answer { result ≡ gives self.old (length buf.old) }
        ensures after { self.new ≡ after_read self.old result }
    {
        let count = copy_front(&self.bytes.as_slice()[self.at..], self.piece, buf);
        if count == 0 {
            return Got::End;
        }
        self.at += count;
        Got::Bytes(count)
    }
}
