//! The lines of a stream's pieces, cut at each line end and read in order.

ghost use Rattle.std.specs.Prelude.{◌≡◌, ◌≤◌, ◌⊎◌, ◌<◌, ◌++◌, [], ℕ, List, length, IfErr, IfSome, OnOk, OnErr, MatchOption, ◌∷◌};
ghost use Rattle.ov_script.specs.Reading as reading;
ghost use Rattle.ov_script.specs.Steps as spec;

use crate::good::GoodLines;
use crate::script::{Limit, ReadStop};
use memchr::memchr;
use std::alloc::Global;

/// The byte that ends a line.
const LINE_END: u8 = b'\n';

/// The most lines of a script.
pub const MOST_LINES: usize = 262_144;

/// The most bytes of a line, its end not counted.
pub const MOST_LINE_BYTES: usize = 262_144;

/// What was read of a stream's pieces so far.
#[derive(Drop)]
pub struct Pieces {
    /// The lines that were ended.
    pub good: GoodLines,
    /// The front of the line that isn't ended yet.
    rest: Vec<u8>,
}

impl Pieces {
    /// Nothing was read yet.
    pub fn new(alloc: Global) -> Pieces
        ensures lines { result.good.lines.items ≡ [] }
        ensures wide { result.good.wide ≡ 0 }
        ensures rest { result.rest.items ≡ [] }
    {
        Pieces {
            good: GoodLines::new(alloc),
            rest: Vec::new(alloc),
        }
    }

    /// Reads the bytes of the stream's next piece in order, and the lines that it ends. With the first byte
    /// that gives an event it stops, and the lines are those that were ended before.
    pub fn take(&mut self, alloc: Global, piece: &[u8], lanes: u32) -> Result<(), ReadStop>
        ensures ok { OnOk result ((before : List ℕ) → spec.Reads lanes before
            self.old.good.lines.items self.old.good.wide self.old.rest.items
            → length (before ++ piece.now) ≤ reading.most_bytes
            → spec.Reads lanes (before ++ piece.now)
            self.new.good.lines.items self.new.good.wide self.new.rest.items) }
        ensures halted { IfErr result (λ stop. (before : List ℕ) → spec.Reads lanes before
            self.old.good.lines.items self.old.good.wide self.old.rest.items
            → length (before ++ piece.now) ≤ reading.most_bytes
            → spec.Halted lanes (before ++ piece.now) self.new.good.lines.items stop) }
    {
        let mut left = piece;
        'ends: while let Some((part, behind)) = first_piece(left) {
            self.allow(part)?;
            self.end_line(alloc, part, lanes)?;
            left = behind;
        }
        self.hold(left)
    }

    /// Whether these bytes may follow on the rest: they begin no line past the limit, and make none too long.
    fn allow(&self, part: &[u8]) -> Result<(), ReadStop>
        ensures ok { OnOk result (spec.Allows self.now.good.lines.items self.now.rest.items
            part.now) }
        ensures err { IfErr result (spec.Forbids self.now.good.lines.items self.now.rest.items
            part.now) }
    {
        if self.rest.is_empty() && self.good.lines.len() >= MOST_LINES {
            return Err(ReadStop::Limit(Limit::Lines));
        }
        if self.rest.len() + part.len() > MOST_LINE_BYTES {
            return Err(ReadStop::Limit(Limit::LineBytes));
        }
        Ok(())
    }

    /// Reads the line that is the rest and these bytes, and begins the next.
    fn end_line(&mut self, alloc: Global, part: &[u8], lanes: u32) -> Result<(), ReadStop>
        ensures ok { OnOk result (spec.Added lanes (self.old.rest.items ++ part.now)
            self.old.good.lines.items self.new.good.lines.items
            self.old.good.wide self.new.good.wide) }
        ensures next { OnOk result (self.new.rest.items ≡ []) }
        ensures refused { IfErr result (spec.Refuses lanes (self.old.rest.items ++ part.now)
            self.old.good.lines.items self.old.good.wide) }
        ensures err { OnErr result (self.new.good.lines.items ≡ self.old.good.lines.items) }
    {
        if self.rest.is_empty() {
            return self.good.add(alloc, part, lanes);
        }
        if self.rest.extend_from_slice(part).is_err() {
            return Err(ReadStop::Memory);
        }
        self.good.add(alloc, self.rest.as_slice(), lanes)?;
        self.rest.clear();
        Ok(())
    }

    /// Keeps bytes that end no line.
    fn hold(&mut self, part: &[u8]) -> Result<(), ReadStop>
        ensures same { self.new.good ≡ self.old.good }
        ensures ok { OnOk result (self.new.rest.items ≡ self.old.rest.items ++ part.now) }
        ensures allowed { OnOk result (0 < length part.now → spec.Allows
            self.old.good.lines.items self.old.rest.items part.now) }
        ensures err { IfErr result (λ stop. (stop ≡ ReadStop.Memory)
            ⊎ ((0 < length part.now) × spec.Forbids self.old.good.lines.items
            self.old.rest.items part.now stop)) }
    {
        if part.is_empty() {
            return Ok(());
        }
        self.allow(part)?;
        if self.rest.extend_from_slice(part).is_err() {
            return Err(ReadStop::Memory);
        }
        Ok(())
    }

    /// Reads what follows the last line end, which is a line where it isn't empty.
    pub fn finish(&mut self, alloc: Global, lanes: u32) -> Result<(), ReadStop>
        ensures ok { OnOk result (spec.IsLast lanes self.old.good.lines.items
            self.new.good.lines.items self.old.good.wide self.new.good.wide
            self.old.rest.items) }
        ensures err { OnErr result (self.new.good.lines.items ≡ self.old.good.lines.items) }
        ensures refused { IfErr result (λ stop. (0 < length self.old.rest.items)
            × spec.Refuses lanes self.old.rest.items
            self.old.good.lines.items self.old.good.wide stop) }
    {
        if self.rest.is_empty() {
            return Ok(());
        }
        self.good.add(alloc, self.rest.as_slice(), lanes)
    }
}

/// The bytes up to their first line end, and those behind it; `None` where there is no line end.
fn first_piece(bytes: &[u8]) -> Option<(&[u8], &[u8])>
    ensures cut { MatchOption result (spec.NoEnd bytes.now) (λ p. spec.NoEnd p.0.now
        × (bytes.now ≡ p.0.now ++ 10 ∷ p.1.now)) }
{
    let end = memchr(LINE_END, bytes)?;
    Some((&bytes[..end], &bytes[end + 1..]))
}
