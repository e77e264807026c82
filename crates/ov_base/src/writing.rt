//! Writing a whole text to a sink.

ghost use Rattle.std.specs.Prelude.{◌≡◌, ◌≤◌, OnOk, OnErr};
ghost use Rattle.std.specs.Io.KnownBytes.{Appends};
ghost use Rattle.ov_base.specs.Outside.{Rose};
ghost use Rattle.ov_base.specs.Loops.{AppendsPart};

use crate::sink::{Sink, Took};
use thiserror::Error;

/// A write failed: the sink has taken a part of the text, from its front, and not all of it.
#[derive(Clone, Copy, Debug, PartialEq, Eq, Error)]
#[error("a write failed")]
pub struct WriteFault;

/// Writes all of `text` to `sink`, in as many calls as the sink takes. The first failed write ends
/// the writing, and nothing else does: the count of faults stands where all was written.
pub fn write_all<K: Sink>(sink: &mut K, text: &[u8]) -> Result<(), WriteFault>
    ensures whole { OnOk result (Appends (K.written sink.old) (K.written sink.new) text.now) }
    ensures part { OnErr result (AppendsPart (K.written sink.old) (K.written sink.new) text.now) }
    ensures later { K.faults sink.old ≤ K.faults sink.new }
    ensures kept { OnOk result (K.faults sink.new ≡ K.faults sink.old) }
    ensures failed { OnErr result (Rose (K.faults sink.old) (K.faults sink.new)) }
{
    let mut at = 0;
    while at < text.len() {
        match sink.write(&text[at..]) {
            Took::Bytes(count) => at += count,
            Took::Failed => return Err(WriteFault),
        }
    }
    Ok(())
}
