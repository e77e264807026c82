//! The lines of a stream that were found good, up to the first that wasn't.

ghost use Rattle.std.specs.Prelude.{◌≡◌, [], IfErr, OnOk, OnErr};
ghost use Rattle.ov_script.specs.Reading as reading;
ghost use Rattle.ov_script.specs.Steps as spec;

use crate::script::{Limit, ReadStop};
use ov_line::{LineStop, Why, read_line};
use ov_model::{Deed, Line, NlOp};
use std::alloc::Global;

/// The most lines of `peer-dump`, `tick` and `down` of a script together. All peers answer them: each answer may be
/// long, and is held in memory.
pub const MOST_WIDE: usize = 1_024;

/// The lines that were found good, in order.
#[derive(Drop)]
pub struct GoodLines {
    pub lines: Vec<Line>,
    /// How many of them are wide.
    pub wide: usize,
    /// Why the line behind them is outside the grammar, where it is.
    pub why: Option<Why>,
}

impl GoodLines {
    /// None.
    pub fn new(alloc: Global) -> GoodLines
        ensures lines { result.lines.items ≡ [] }
        ensures wide { result.wide ≡ 0 }
    {
        GoodLines {
            lines: Vec::new(alloc),
            wide: 0,
            why: None,
        }
    }

    /// Appends the line that the bytes say. `Bad` comes exactly where they say none, by the number that the
    /// line would have; `Wide` where the line is wide and there are `MOST_WIDE` such; want of memory is free.
    pub fn add(&mut self, alloc: Global, bytes: &[u8], lanes: u32) -> Result<(), ReadStop>
        ensures ok { OnOk result (spec.Added lanes bytes.now self.old.lines.items
            self.new.lines.items self.old.wide self.new.wide) }
        ensures refused { IfErr result (spec.Refuses lanes bytes.now self.old.lines.items
            self.old.wide) }
        ensures err { OnErr result (self.new.lines.items ≡ self.old.lines.items) }
    {
        match read_line(alloc, bytes, lanes) {
            Ok(line) => self.push(line),
            Err(LineStop::Bad(why)) => {
                self.why = Some(why);
                Err(ReadStop::Bad(self.lines.len() as u64 + 1))
            }
            Err(LineStop::Memory) => Err(ReadStop::Memory),
        }
    }

    /// Appends a line.
    fn push(&mut self, line: Line) -> Result<(), ReadStop>
        ensures ok { OnOk result (spec.Appended line self.old.lines.items self.new.lines.items
            self.old.wide self.new.wide) }
        ensures refused { IfErr result (spec.IsTooMuch line self.old.wide) }
        ensures err { OnErr result (self.new.lines.items ≡ self.old.lines.items) }
    {
        let wide = is_wide(&line);
        if wide && self.wide >= MOST_WIDE {
            return Err(ReadStop::Limit(Limit::Wide));
        }
        if self.lines.push(line).is_err() {
            return Err(ReadStop::Memory);
        }
        if wide {
            self.wide += 1;
        }
        Ok(())
    }
}

/// Whether all peers answer a line.
fn is_wide(line: &Line) -> bool
    ensures { result ≡ reading.is_wide line.now }
{
    match &line.deed {
        Deed::Netlink(message) => matches!(message.get().op, NlOp::PeerDump),
        Deed::Tick | Deed::Down => true,
        _ => false,
    }
}
