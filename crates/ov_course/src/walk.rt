//! A line at a desk of any kind, from its first turn to its answer.

ghost use Rattle.std.specs.Prelude.{◌≡◌, [], IfOk, OnErr};
ghost use Rattle.ov_base.specs.declared.address.Addr.{Addr};
ghost use Rattle.ov_model.specs.Events.{Event};
ghost use Rattle.ov_model.specs.Sizes.{Fits};
ghost use Rattle.ov_path.specs.Desks.{IsNew};
ghost use Rattle.ov_path.specs.Walks.{GoesOn};
ghost use Rattle.ov_course.specs.Runs.{LineDone, LineStopped};

use ov_base::Memory;
use ov_model::{Answer, Line, Place};
use ov_path::{Desk, Progress, Walk};
use std::alloc::Global;
use std::sync::Wait;

/// Runs a line at a desk to its end. `Err` is want of memory within the line: what the desk holds and owes for the line, it holds
/// and owes still. `via` is the next hop of an address, which no event of the desk makes another.
pub fn walk_out<R: Wait, D: Desk>(
    rt: &R,
    alloc: Global,
    desk: &mut D,
    place: Place,
    line: &Line,
) -> Result<Answer, Memory>
    ghost via: { Addr → Addr }
    requires new { IsNew (D.view desk.old) }
    requires via { (D.view desk.old).via ≡ via }
    requires hops { (a b : D) (e : Event) → D.does a e b → (D.view b).via ≡ (D.view a).via }
    requires fits { Fits line.now.deed }
    ensures ok { IfOk result (LineDone D.view D.does via place line.now desk.old desk.new) }
    ensures err { OnErr result (LineStopped D.view D.does D.keeps place line.now desk.old desk.new) }
{
    let mut walk = Walk::new(place);
    turn_out(rt, alloc, desk, &mut walk, line)
}

/// Makes the turns of a line that has not begun, to its end.
fn turn_out<R: Wait, D: Desk>(
    rt: &R,
    alloc: Global,
    desk: &mut D,
    walk: &mut Walk,
    line: &Line,
) -> Result<Answer, Memory>
    ghost via: { Addr → Addr }
    requires none { (D.view desk.old).events ≡ [] }
    requires goes { GoesOn via walk.old.place line.now (D.view desk.old) walk.old.stage }
    requires via { (D.view desk.old).via ≡ via }
    requires hops { (a b : D) (e : Event) → D.does a e b → (D.view b).via ≡ (D.view a).via }
    requires fits { Fits line.now.deed }
    ensures ok { IfOk result
        (LineDone D.view D.does via walk.old.place line.now desk.old desk.new) }
    ensures err { OnErr result
        (LineStopped D.view D.does D.keeps walk.old.place line.now desk.old desk.new) }
{
    for _ in rt.forever() {
        match walk.turn(alloc, desk, line)? {
            Progress::More => {}
            Progress::Answered(answer) => return Ok(answer),
        }
    }
    unreachable!()
}
