//! The script of a source: its bytes, read piece by piece, cut into lines, each read once.

ghost use Rattle.std.specs.Prelude.{◌≡◌, ◌≢◌, ◌+◌, ◌<◌, ◌≤◌, ◌⊎◌, ℕ, List, [], Some, length, IfOk, IfErr, OnOk};
ghost use Rattle.std.specs.List.{AllByRecursion};
ghost use Rattle.std.specs.Io.KnownBytes.{IsAtEnd};
ghost use Rattle.ov_base.specs.Outside.{Rose};
ghost use Rattle.ov_model.specs.Sizes.{Fits};
ghost use Rattle.ov_script.specs.Reading as spec;
ghost use Rattle.ov_script.specs.Steps as steps;

use crate::good::GoodLines;
use crate::pieces::Pieces;
use ov_base::{Got, ListOf, Source};
use ov_line::Why;
use ov_model::{Line, Script};
use std::alloc::{AllocError, Global};
use thiserror::Error;

/// The most bytes that a script has.
pub const MOST_BYTES: usize = 67_108_864;

/// The most bytes that one read takes.
const PIECE: usize = 65_536;

/// A limit that a script passed.
#[derive(Clone, Copy, Debug, PartialEq, Eq)]
pub enum Limit {
    /// A line has more than `MOST_LINE_BYTES` bytes.
    LineBytes,
    /// The script has more than `MOST_LINES` lines.
    Lines,
    /// It has more than `MOST_BYTES` bytes.
    Bytes,
    /// It has more than `MOST_WIDE` lines that are answered by all peers: dumps, ticks and ends of the device.
    Wide,
}

/// Why a source gave no script.
#[derive(Clone, Copy, Debug, PartialEq, Eq, Error)]
pub enum ReadStop {
    /// A read failed.
    #[error("a read failed")]
    Read,
    /// The line of this number, from 1, is outside the grammar.
    #[error("a line outside the grammar")]
    Bad(u64),
    /// The script passed a limit.
    #[error("a script past a limit")]
    Limit(Limit),
    /// Want of memory.
    #[error("want of memory")]
    Memory,
}

/// What reading a source gave.
#[derive(Drop)]
pub struct Reading {
    /// How many whole lines were taken and found good.
    pub good: u64,
    /// Why the line that stopped it is outside the grammar, where one did.
    pub why: Option<Why>,
    /// The script, or why there is none.
    pub outcome: Result<Script, ReadStop>,
}

/// Reads `source` piece by piece, to its end or to the piece in which the first event comes that stops it from
/// being a script, and its lines in order, each once, on `lanes` lanes, before the next piece. The bytes are
/// taken in order. One byte gives `Bytes` where there are more than `MOST_BYTES`, else `Lines` where it begins
/// a line past `MOST_LINES`, else `LineBytes` where its line has more than `MOST_LINE_BYTES`; the end of a line
/// gives `Bad` where it is outside the grammar, else `Wide` where it is one past `MOST_WIDE`. `Read` comes only
/// where a read failed, and with every other answer none did. Want of memory alone is free. A source that tells
/// what it has left tells what it gave, and a script comes only from its end.
pub fn read_script<S: Source>(alloc: Global, source: &mut S, lanes: u32) -> Reading
    ensures script { IfOk result.outcome (λ script. (taken : List ℕ)
        → spec.Gave (S.left source.old) (S.left source.new) taken
        → (S.left source.new ≡ Some []) × spec.IsScript taken lanes script) }
    ensures no_stop { OnOk result.outcome ((taken : List ℕ)
        → spec.Gave (S.left source.old) (S.left source.new) taken
        → spec.HasNoStop taken lanes) }
    ensures stops { IfErr result.outcome (λ stop. (event : spec.Event) → stop ≡ spec.stop_of event
        → (taken : List ℕ) → spec.Gave (S.left source.old) (S.left source.new) taken
        → spec.Early taken lanes event
        ⊎ ((S.left source.new ≡ Some []) × spec.Stop taken lanes event)) }
    ensures fault { IfErr result.outcome (λ stop. stop ≡ ReadStop.Read
        → Rose (S.faults source.old) (S.faults source.new)) }
    ensures not_early { IfErr result.outcome (λ stop. stop ≡ ReadStop.Read → (taken : List ℕ)
        → spec.Gave (S.left source.old) (S.left source.new) taken → (event : spec.Event)
        → ¬ (spec.Early taken lanes event)) }
    ensures told_early { (event : spec.Event) → (taken : List ℕ)
        → spec.Gave (S.left source.old) (S.left source.new) taken
        → spec.Early taken lanes event → spec.IsTold event result.outcome }
    ensures told_stop { ¬ (Rose (S.faults source.old) (S.faults source.new)) → (event : spec.Event)
        → (taken : List ℕ) → spec.Gave (S.left source.old) (S.left source.new) taken
        → spec.Stop taken lanes event → spec.IsTold event result.outcome }
    ensures counted { (taken : List ℕ) → spec.Gave (S.left source.old) (S.left source.new) taken
        → spec.Counts lanes taken result.outcome result.good }
    ensures good { (taken : List ℕ) → spec.Gave (S.left source.old) (S.left source.new) taken
        → spec.AreGood lanes (spec.counted_lines taken) result.good }
    ensures most { (taken : List ℕ) → spec.Gave (S.left source.old) (S.left source.new) taken
        → length taken ≤ spec.most_bytes + spec.most_piece }
    ensures taken { spec.GaveSome (S.left source.old) (S.left source.new) }
    ensures ended { OnOk result.outcome (IsAtEnd (S.left source.new)) }
    ensures later { S.faults source.old ≤ S.faults source.new }
    ensures kept { OnOk result.outcome (S.faults source.new ≡ S.faults source.old) }
    ensures calm { IfErr result.outcome (λ stop. stop ≢ ReadStop.Read
        → S.faults source.new ≡ S.faults source.old) }
    ensures fits { IfOk result.outcome (λ script.
        AllByRecursion (λ line. Fits line.deed) script.lines) }
    ensures lanes { IfOk result.outcome (λ script.
        AllByRecursion (λ line. line.lane < lanes) script.lines) }
{
    let mut pieces = Pieces::new(alloc);
    let end = read_source(alloc, source, lanes, &mut pieces);
    let GoodLines { lines, why, .. } = pieces.good;
    let good = lines.len() as u64;
    match end {
        Ok(()) => Reading {
            good,
            why,
            outcome: Ok(Script {
                lines: ListOf::of_vec(lines),
                routes: ListOf::new(alloc),
            }),
        },
        Err(stop) => Reading {
            good,
            why,
            outcome: Err(stop),
        },
    }
}

/// Reads the lines of a source, by way of a buffer for its pieces, up to the event at which reading stops.
fn read_source<S: Source>(
    alloc: Global,
    source: &mut S,
    lanes: u32,
    pieces: &mut Pieces,
) -> Result<(), ReadStop>
    requires none { steps.Reads lanes [] pieces.old.good.lines.items pieces.old.good.wide
        pieces.old.rest.items }
    ensures read { steps.HasRead lanes (S.left source.old) (S.left source.new)
        (S.faults source.old) (S.faults source.new) pieces.new.good.lines.items result }
    ensures later { S.faults source.old ≤ S.faults source.new }
    ensures kept { OnOk result (S.faults source.new ≡ S.faults source.old) }
    ensures calm { IfErr result (λ stop. stop ≢ ReadStop.Read
        → S.faults source.new ≡ S.faults source.old) }
{
    match piece_room(alloc) {
        Ok(mut buffer) => read_pieces(alloc, source, lanes, buffer.as_mut_slice(), pieces),
        Err(_) => Err(ReadStop::Memory),
    }
}

/// Room for one piece, whose length its clause names by the definition.
#[tactic(auto, unfolding(crate::specs::Reading::most_piece))]
fn piece_room(alloc: Global) -> Result<Vec<u8>, AllocError>
    ensures piece { IfOk result (λ room. length room.items ≡ spec.most_piece) }
    ensures some { IfOk result (λ room. 0 < length room.items) }
{
    Vec::from_elem(alloc, 0, PIECE)
}

/// Reads a source piece by piece, and the lines that each piece ends before the next. Besides the lines,
/// one piece and one line are in memory at a time.
fn read_pieces<S: Source>(
    alloc: Global,
    source: &mut S,
    lanes: u32,
    buffer: &mut [u8],
    pieces: &mut Pieces,
) -> Result<(), ReadStop>
    requires room { 0 < length buffer.old }
    requires piece { length buffer.old ≤ spec.most_piece }
    requires none { steps.Reads lanes [] pieces.old.good.lines.items pieces.old.good.wide
        pieces.old.rest.items }
    ensures read { steps.HasRead lanes (S.left source.old) (S.left source.new)
        (S.faults source.old) (S.faults source.new) pieces.new.good.lines.items result }
    ensures later { S.faults source.old ≤ S.faults source.new }
    ensures kept { OnOk result (S.faults source.new ≡ S.faults source.old) }
    ensures calm { IfErr result (λ stop. stop ≢ ReadStop.Read
        → S.faults source.new ≡ S.faults source.old) }
{
    // How many bytes may still come.
    let mut room = most_bytes();
    'pieces: loop {
        match source.read(buffer) {
            Got::Bytes(count) => {
                pieces.take(alloc, &buffer[..count.min(room)], lanes)?;
                if count > room {
                    return Err(ReadStop::Limit(Limit::Bytes));
                }
                room -= count;
            }
            Got::End => return pieces.finish(alloc, lanes),
            Got::Failed => return Err(ReadStop::Read),
        }
    }
}

/// `MOST_BYTES`, whose clause names it by the definition: a `take` of the bare number is dear to compute with.
#[tactic(auto, unfolding(crate::specs::Reading::most_bytes))]
fn most_bytes() -> usize
    ensures { result ≡ spec.most_bytes }
{
    MOST_BYTES
}
