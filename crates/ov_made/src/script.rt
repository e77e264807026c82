// The script of a seed and a count.

ghost use Rattle.std.specs.Prelude.{◌≡◌, ◌<◌, ◌+◌, ◌++◌, map, length, IfOk, ◌≢◌, ◌%◌};
ghost use Rattle.std.specs.List.{AllByRecursion, range_with_len};
ghost use Rattle.ov_model.specs.Sizes.{Fits};
ghost use Rattle.ov_made.specs.Made as spec;

use crate::crossing::{made_line, sealed_at};
use crate::head::{HEAD_LINES, head_lines};
use crate::keys::peer_keys;
use ov_base::{ListOf, Memory};
use ov_model::Script;
use std::alloc::Global;

/// The script that a seed and a count stand for: 256 head lines, which make 128 peers and give each a key, and
/// then `count` lines in groups of four, each of one peer: a packet to it, a datagram from it, the same again,
/// and the same with its last bit changed. All are at the moment 0, on the lanes 0 to 7, and there are no routes.
/// `Memory` is free.
pub fn made(alloc: Global, seed: u32, count: u32) -> Result<Script, Memory>
    ensures exactly { IfOk result (λ script. script ≡ spec.made seed count) }
    ensures fits { IfOk result (λ script.
        AllByRecursion (λ line. Fits line.deed) script.lines) }
    ensures lanes { IfOk result (λ script.
        AllByRecursion (λ line. line.lane < 8) script.lines) }
    ensures length { IfOk result (λ script. length script.lines ≡ 256 + count) }
{
    let keys = peer_keys(alloc, seed)?;
    let mut lines = head_lines(alloc, seed, HEAD_LINES as usize + count as usize)?;
    let mut sealed = ListOf::new(alloc);
    for j in 0..count {
        sealed = sealed_at(alloc, seed, keys.as_slice(), j, sealed)?;
        lines.push(made_line(alloc, seed, j, sealed.as_slice())?)?;
    }
    Ok(Script {
        lines: ListOf::of_vec(lines),
        routes: ListOf::new(alloc),
    })
}
