//! A source over a reader of std, as standard input or a file.

ghost use Rattle.std.specs.Prelude.{◌≡◌, ◌<◌, length};
ghost use Rattle.ov_base.specs.Outside.{GotFits, ReadTakes, GotCause, faults_after_read, got_of_read};

use crate::source::{Got, Source};
use std::io;
use std::io::Read;
use std::marker::Model;

/// Reads from `R` and counts its errors. It tells what is left where the reader does.
#[derive(Drop)]
pub struct ReadSource<R: Read> {
    reader: R,
    faults: u64,
}

impl<R: Read> Model for ReadSource<R> {
    ghost use Rattle.ov_base.specs.Outside.{Adapter};

    ghost Value = { Adapter };

    ghost view = { λ s. record { bytes = R.remaining s.reader; faults = s.faults } };
}

impl<R: Read> ReadSource<R> {
    /// A source over `reader`, with no fault so far.
    pub fn new(reader: R) -> ReadSource<R>
        ensures { result ≡ record { bytes = R.remaining reader; faults = 0 } }
    {
        ReadSource { reader, faults: 0 }
    }
}

impl<R: Read> Source for ReadSource<R> {
    ghost left = { λ s. s.bytes };

    ghost faults = { λ s. s.faults };

    /// A reader that gives 0 bytes is at its end. Each error of the reader is a fault, an
    /// interruption too.
    fn read(&mut self, buf: &mut [u8]) -> Got
        requires { 0 < length buf.old }
        ensures fits { GotFits result buf.new }
        ensures bytes { ReadTakes self.old.bytes self.new.bytes result buf.new }
        ensures cause { GotCause self.old.faults self.new.faults result }
        ensures count { self.new.faults ≡ faults_after_read self.old.faults result }
    {
        match got_of(self.reader.read(buf)) {
            Got::Failed => {
                self.faults = self.faults.saturating_add(1);
                Got::Failed
            }
            got => got,
        }
    }
}

/// What a reader's answer says: one of no byte is the end, and each error is a failed read.
fn got_of(answer: io::Result<usize>) -> Got
    ensures { result ≡ got_of_read answer }
{
    match answer {
        Ok(0) => Got::End,
        Ok(count) => Got::Bytes(count),
        Err(_) => Got::Failed,
    }
}
