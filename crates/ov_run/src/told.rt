//! What is told on standard error of how a run ended, and what the program says of itself.

ghost use Rattle.std.specs.Prelude.{◌≡◌, ◌≢◌, ◌++◌, OnOk, OnErr, codes, decimal};
ghost use Rattle.std.specs.Io.KnownBytes.{Appends};
ghost use Rattle.ov_base.specs.Loops.{AppendsPart};
ghost use Rattle.ov_base.specs.Outside.{Rose};
ghost use Rattle.ov_run.specs.declared.ended.Cause.TheVariants as cause;
ghost use Rattle.ov_run.specs.Told.{limit_name, text_of, told_line};

use crate::ended::{Cause, Ended};
use itoa::Buffer;
use ov_base::{Sink, WriteFault, write_all};
use ov_script::Limit;
use std::alloc::Global;

/// Writes the line that tells how a run ended, and nothing where it ended well. A line outside the grammar is
/// told by its number, from 1. Where a write fails a part of the line is written.
pub fn tell<K: Sink>(cause: Cause, sink: &mut K) -> Result<(), WriteFault>
    ensures whole { OnOk result
        (Appends (K.written sink.old) (K.written sink.new) (text_of cause)) }
    ensures part { OnErr result
        (AppendsPart (K.written sink.old) (K.written sink.new) (text_of cause)) }
{
    match cause {
        Cause::Fine => Ok(()),
        Cause::Usage => write_all(sink, b"ovpn: usage: ovpn MODE [options]\n"),
        Cause::BadLine(number) => tell_bad_line(number, sink),
        Cause::Limit(limit) => write_all(sink, limit_line(limit)),
        Cause::ReadFault => write_all(sink, b"ovpn: read fault\n"),
        Cause::WriteFault => write_all(sink, b"ovpn: write fault\n"),
        Cause::Memory => write_all(sink, b"ovpn: want of memory\n"),
    }
}

/// The line that tells a limit.
fn limit_line(limit: Limit) -> &'static [u8]
    ensures { result.now ≡ told_line (codes "limit " ++ limit_name limit) }
{
    match limit {
        Limit::LineBytes => b"ovpn: limit line-bytes\n",
        Limit::Lines => b"ovpn: limit lines\n",
        Limit::Bytes => b"ovpn: limit bytes\n",
        Limit::Wide => b"ovpn: limit wide\n",
    }
}

/// Writes a second line where a line is outside the grammar: why it is, from the reading that found it so. For
/// want of memory nothing is written.
pub fn tell_why<K: Sink>(alloc: Global, ended: &Ended, sink: &mut K) -> Result<(), WriteFault> {
    let (Cause::BadLine(number), Some(why)) = (ended.cause, ended.why) else {
        return Ok(());
    };
    match format!(in alloc; "ovpn: line {number} is bad: {why}\n") {
        Ok(text) => write_all(sink, text.as_bytes()),
        Err(_) => Ok(()),
    }
}

/// Writes that the line of this number is outside the grammar. It takes no memory.
fn tell_bad_line<K: Sink>(number: u64, sink: &mut K) -> Result<(), WriteFault>
    ensures whole { OnOk result (Appends (K.written sink.old) (K.written sink.new)
        (told_line (codes "line " ++ decimal number ++ codes " is not in the grammar"))) }
    ensures part { OnErr result (AppendsPart (K.written sink.old) (K.written sink.new)
        (told_line (codes "line " ++ decimal number ++ codes " is not in the grammar"))) }
{
    let mut digits = Buffer::new();
    write_all(sink, b"ovpn: line ")?;
    write_all(sink, digits.format(number).as_bytes())?;
    write_all(sink, b" is not in the grammar\n")?;
    Ok(())
}

/// Writes what the program says of itself, and gives the cause that this ends with: `Fine`, or `WriteFault`
/// where a part was written.
pub fn say<K: Sink>(text: &str, sink: &mut K) -> Cause
    ensures whole { result ≡ cause.Fine →
        Appends (K.written sink.old) (K.written sink.new) text.now }
    ensures fault { result ≢ cause.Fine → (result ≡ cause.WriteFault) ×
        Rose (K.faults sink.old) (K.faults sink.new) ×
        AppendsPart (K.written sink.old) (K.written sink.new) text.now }
{
    match write_all(sink, text.as_bytes()) {
        Ok(()) => Cause::Fine,
        Err(_) => Cause::WriteFault,
    }
}
