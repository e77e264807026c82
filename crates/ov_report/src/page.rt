//! The page before a sink: what is printed waits here until there is enough of it for one write.

ghost use Rattle.std.specs.Prelude.{◌≡◌, ◌<◌, ◌≤◌, [], length, IfErr, OnOk, OnErr};
ghost use Rattle.std.specs.Io.KnownBytes.{Appends};
ghost use Rattle.ov_base.specs.Outside.{Rose};
ghost use Rattle.ov_base.specs.Loops.{AppendsPart};
ghost use Rattle.ov_report.specs.Printing.{Passed, Stopped, full_page};

use ov_base::{Memory, Sink, WriteFault, write_all};
use std::alloc::AllocError;
use thiserror::Error;

/// Why a report's text wasn't written whole. The sink has then taken a part of it, from its front.
#[derive(Clone, Copy, Debug, PartialEq, Eq, Error)]
pub enum PrintStop {
    /// A write failed: the sink's count of faults rose.
    #[error("a write failed")]
    Write,
    /// There was no memory for a line.
    #[error("want of memory")]
    Memory,
}

impl From<WriteFault> for PrintStop {
    ghost use Rattle.ov_report.specs.declared.page.PrintStop.TheVariants as cause;

    ghost from_gives = { λ _ stop. stop ≡ cause.Write };

    fn from(_fault: WriteFault) -> PrintStop {
        PrintStop::Write
    }
}

impl From<Memory> for PrintStop {
    ghost use Rattle.ov_report.specs.declared.page.PrintStop.TheVariants as cause;

    ghost from_gives = { λ _ stop. stop ≡ cause.Memory };

    fn from(_refused: Memory) -> PrintStop {
        PrintStop::Memory
    }
}

impl From<AllocError> for PrintStop {
    ghost use Rattle.ov_report.specs.declared.page.PrintStop.TheVariants as cause;

    ghost from_gives = { λ _ stop. stop ≡ cause.Memory };

    fn from(_refused: AllocError) -> PrintStop {
        PrintStop::Memory
    }
}

/// The bytes at which a page is full: it is then written and begun anew.
const FULL: usize = 65_536;

/// Writes all that the page holds. It then holds nothing, and keeps its memory.
pub(crate) fn flush<K: Sink>(page: &mut Vec<u8>, sink: &mut K) -> Result<(), WriteFault>
    ensures empty { OnOk result (page.new.items ≡ []) }
    ensures whole { OnOk result (Appends (K.written sink.old) (K.written sink.new) page.old.items) }
    ensures part { OnErr result (AppendsPart (K.written sink.old) (K.written sink.new) page.old.items) }
    ensures later { K.faults sink.old ≤ K.faults sink.new }
    ensures kept { OnOk result (K.faults sink.new ≡ K.faults sink.old) }
    ensures failed { OnErr result (Rose (K.faults sink.old) (K.faults sink.new)) }
{
    write_all(sink, page.as_slice())?;
    page.clear();
    Ok(())
}

/// Writes the page where it is full. It then holds less than a full one.
pub(crate) fn pass<K: Sink>(page: &mut Vec<u8>, sink: &mut K) -> Result<(), PrintStop>
    ensures passed { OnOk result (Passed (K.written sink.old) (K.written sink.new) [] page.old.items page.new.items) }
    ensures stopped { IfErr result (λ stop. Stopped stop (K.written sink.old) (K.written sink.new) (K.faults sink.old) (K.faults sink.new) [] page.old.items) }
    ensures bound { OnOk result (length page.new.items < full_page) }
    ensures later { K.faults sink.old ≤ K.faults sink.new }
    ensures kept { OnOk result (K.faults sink.new ≡ K.faults sink.old) }
{
    if page.len() >= FULL {
        flush(page, sink)?;
    }
    Ok(())
}
