//! One line of a script, from its bytes.

ghost use Rattle.std.specs.Prelude.{◌≡◌, IfErr, IfOk};
ghost use Rattle.ov_model.specs.declared.line.Line.{Line};
ghost use Rattle.ov_line.specs.Grammar.{Says};
ghost use Rattle.ov_line.specs.Outcome.{IsBad};

use crate::compact::compact_line;
use crate::grammar::line_of;
use crate::why::Why;
use ov_base::Memory;
use ov_model::Line;
use serde_json::Value;
use std::alloc::{AllocError, Global};
use thiserror::Error;

/// Why a line wasn't read.
#[derive(Clone, Copy, Debug, PartialEq, Eq, Error)]
pub enum LineStop {
    /// The bytes are outside the grammar.
    #[error("{0}")]
    Bad(Why),
    /// Want of memory.
    #[error("want of memory")]
    Memory,
}

impl From<Why> for LineStop {
    ghost use Rattle.ov_line.specs.declared.line.LineStop.TheVariants as cause;

    ghost from_gives = { λ why stop. stop ≡ cause.Bad why };

    fn from(why: Why) -> LineStop {
        LineStop::Bad(why)
    }
}

impl From<Memory> for LineStop {
    ghost use Rattle.ov_line.specs.declared.line.LineStop.TheVariants as cause;

    ghost from_gives = { λ _ stop. stop ≡ cause.Memory };

    fn from(_refused: Memory) -> LineStop {
        LineStop::Memory
    }
}

impl From<AllocError> for LineStop {
    ghost use Rattle.ov_line.specs.declared.line.LineStop.TheVariants as cause;

    ghost from_gives = { λ _ stop. stop ≡ cause.Memory };

    fn from(_refused: AllocError) -> LineStop {
        LineStop::Memory
    }
}

/// The line that the bytes say, its line end left out, on one of `lanes` lanes. `Bad` comes exactly where
/// they say none (RFC 8259 and the grammar of lines), with one of the reasons; want of memory alone is free.
pub fn read_line(alloc: Global, line: &[u8], lanes: u32) -> Result<Line, LineStop>
    ensures ok { IfOk result (λ read. Says line.now lanes read) }
    ensures bad { IfErr result (λ stop. IsBad stop → (read : Line)
        → ¬ (Says line.now lanes read)) }
{
    match compact_line(alloc, line, lanes) {
        Ok(Some(found)) => Ok(found),
        Ok(None) => read_value(alloc, line, lanes),
        Err(_) => Err(LineStop::Memory),
    }
}

/// The same by the whole grammar alone, whichever text the line has.
pub fn read_value(alloc: Global, line: &[u8], lanes: u32) -> Result<Line, LineStop>
    ensures ok { IfOk result (λ read. Says line.now lanes read) }
    ensures bad { IfErr result (λ stop. IsBad stop → (read : Line)
        → ¬ (Says line.now lanes read)) }
{
    let value = match Value::from_slice(alloc, line) {
        Ok(value) => value,
        Err(failed) if failed.is_memory() => return Err(LineStop::Memory),
        Err(failed) => return Err(LineStop::Bad(Why::Json(failed.column()))),
    };
    let read = line_of(alloc, &value, lanes)?;
    Ok(read)
}
