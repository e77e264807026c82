//! A sink over a writer of std, as standard output or a file.

ghost use Rattle.std.specs.Prelude.{◌≡◌, ◌<◌, length};
ghost use Rattle.ov_base.specs.Outside.{TookFits, WriteAdds, TookCause, faults_after_write, took_of_write};

use crate::sink::{Sink, Took};
use std::io;
use std::io::Write;
use std::marker::Model;

/// Writes to `W` and counts its errors. It tells what is written where the writer does. It never
/// flushes: give it a writer that holds nothing back.
#[derive(Drop)]
pub struct WriteSink<W: Write> {
    writer: W,
    faults: u64,
}

impl<W: Write> Model for WriteSink<W> {
    ghost use Rattle.ov_base.specs.Outside.{Adapter};

    ghost Value = { Adapter };

    ghost view = { λ s. record { bytes = W.contents s.writer; faults = s.faults } };
}

impl<W: Write> WriteSink<W> {
    /// A sink over `writer`, with no fault so far.
    pub fn new(writer: W) -> WriteSink<W>
        ensures { result ≡ record { bytes = W.contents writer; faults = 0 } }
    {
        WriteSink { writer, faults: 0 }
    }
}

impl<W: Write> Sink for WriteSink<W> {
    ghost written = { λ s. s.bytes };

    ghost faults = { λ s. s.faults };

    /// Each error of the writer is a fault, an interruption too, and so is a write that takes
    /// nothing.
    fn write(&mut self, piece: &[u8]) -> Took
        requires { 0 < length piece.now }
        ensures fits { TookFits result piece.now }
        ensures bytes { WriteAdds self.old.bytes self.new.bytes result piece.now }
        ensures cause { TookCause self.old.faults self.new.faults result }
        ensures count { self.new.faults ≡ faults_after_write self.old.faults result }
    {
        match took_of(self.writer.write(piece)) {
            Took::Failed => {
                self.faults = self.faults.saturating_add(1);
                Took::Failed
            }
            took => took,
        }
    }
}

/// What a writer's answer says: one that takes nothing is a failed write, and so is each error.
fn took_of(answer: io::Result<usize>) -> Took
    ensures { result ≡ took_of_write answer }
{
    match answer {
        Ok(0) => Took::Failed,
        Ok(count) => Took::Bytes(count),
        Err(_) => Took::Failed,
    }
}
