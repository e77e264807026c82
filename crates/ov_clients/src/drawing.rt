//! Two threads draw ids of one key.
ghost use Rattle.std.specs.Prelude.{◌≡◌, ℕ, ◌+◌, ◌*◌, ◌<◌, [], ◌++◌, IfOk};
ghost use Rattle.ov_base.specs.Sums.{between, count_of};
ghost use Rattle.ov_clients.specs.Ids.{HasDrawn, IsFresh};

use ov_base::{ListOf, Memory};
use ov_draw::laws::ended;
use ov_draw::{DrawSeat, Draws};
use ov_model::Drawn;
use std::alloc::Global;
use std::thread::{Threads, join};

/// The key that both threads draw of.
const KEY: u32 = 0;

/// Draws `count` times, and lists the ids in the order in which they came.
fn draw_many(
    alloc: Global,
    draws: &Draws,
    mut seat: DrawSeat,
    count: u32,
) -> Result<(DrawSeat, ListOf<u32>), Memory>
    requires { IsFresh draws.now seat }
    ensures { IfOk result (λ r. HasDrawn draws.entry.now seat.share count r.0 r.1) }
{
    let mut ids = ListOf::new(alloc);
    for _turn in 0..count {
        if let Drawn::Id(id) = draws.draw(&mut seat, KEY) {
            if ids.push(id).is_err() {
                return Err(Memory);
            }
        }
    }
    Ok((seat, ids))
}

/// Two threads draw `count` times each. Together they have the ids from 1 to twice `count`, each once.
///
/// `Memory` says that memory ran out; no clause ties it to that.
pub fn draw_on_two_threads<R: Threads + Sync>(
    rt: &R,
    alloc: Global,
    count: u32,
) -> Result<(ListOf<u32>, ListOf<u32>), Memory>
    requires { 2 * count < 4294967295 }
    ensures { IfOk result (λ r. (n : ℕ) → count_of n (r.0 ++ r.1) ≡ between 1 (2 * count + 1) n) }
{
    let (counters, seat) = Draws::new(alloc, 1)?;
    let (one, two) = counters.split(seat);
    let draws = &counters;
    let (one, two) = join(
        rt,
        move || -> Result<(DrawSeat, ListOf<u32>), Memory>
            requires { IsFresh draws.now one }
            ensures { IfOk result (λ r. HasDrawn draws.entry.now one.share count r.0 r.1) }
        { draw_many(alloc, draws, one, count) },
        move || -> Result<(DrawSeat, ListOf<u32>), Memory>
            requires { IsFresh draws.now two }
            ensures { IfOk result (λ r. HasDrawn draws.entry.now two.share count r.0 r.1) }
        { draw_many(alloc, draws, two, count) },
    );
    let (one, ids) = one?;
    let (two, others) = two?;
    let seat = counters.join(one, two);
    let _seat = ended(counters, seat);
    Ok((ids, others))
}
