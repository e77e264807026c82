//! Running a whole script: one line after the other, or by a schedule of turns.

ghost use Rattle.std.specs.Prelude.{◌≡◌, ◌<◌, length, map, OnOk, IfOk};
ghost use Rattle.std.specs.List.{AllByRecursion};
ghost use Rattle.ov_model.specs.Legal.{Legal};
ghost use Rattle.ov_model.specs.Sizes.{Fits};
ghost use Rattle.ov_model.specs.Via.{via_of};
ghost use Rattle.ov_core.specs.Sessions.{Scheduled, Serial, report_of};
ghost use Rattle.ov_core.specs.Scripts.{AreCourses, RanOut, TookTurns, dealt, script_at};

use crate::course::{Course, logs_of, new_courses};
use crate::world::{LANES, World};
use ov_base::Memory;
use ov_model::{Line, Report, Script};
use std::alloc::Global;

/// Runs a script's lines in its order, each to its end on its lane, and gives the report. The next hop of an
/// address is that of the script's routes. Send counters begin at `first`. `Err` is want of memory.
pub fn run_serially(alloc: Global, script: Script, first: u32) -> Result<Report, Memory>
    requires lanes { AllByRecursion (λ line. line.lane < 64) script.lines }
    requires fits { AllByRecursion (λ line. Fits line.deed) script.lines }
    ensures serial { IfOk result (Serial (via_of script.routes) script first) }
    ensures lanes { IfOk result (λ report. length report.lanes ≡ 64) }
    ensures legal { IfOk result (Legal script first) }
{
    let Script { lines, routes } = script;
    let order = order_of(alloc, lines.as_slice())?;
    let mut world = World::new(alloc, first, routes)?;
    let mut courses = deal(alloc, lines.into_vec())?;
    for lane in order.as_slice() {
        courses[*lane as usize].run_line(alloc, &mut world)?;
    }
    report(alloc, world, courses)
}

/// Runs a script by a schedule, and gives the report: for each number of the schedule that lane makes its
/// next turn, or nothing where it has no line left; then the lanes run to their end, in the order of their
/// numbers. The next hop of an address is that of the script's routes. Send counters begin at `first`. `Err` is
/// want of memory.
pub fn run_schedule(
    alloc: Global,
    script: Script,
    first: u32,
    schedule: &[u32],
) -> Result<Report, Memory>
    requires lanes { AllByRecursion (λ line. line.lane < 64) script.lines }
    requires fits { AllByRecursion (λ line. Fits line.deed) script.lines }
    requires known { AllByRecursion (λ lane. lane < 64) schedule.now }
    ensures scheduled { IfOk result
        (Scheduled (via_of script.routes) script first schedule.now) }
    ensures lanes { IfOk result (λ report. length report.lanes ≡ 64) }
    ensures legal { IfOk result (Legal script first) }
{
    let Script { lines, routes } = script;
    let mut world = World::new(alloc, first, routes)?;
    let mut courses = deal(alloc, lines.into_vec())?;
    take_turns(alloc, &mut courses, &mut world, schedule)?;
    run_all(alloc, &mut courses, &mut world)?;
    report(alloc, world, courses)
}

/// The lanes of some lines, in their order.
fn order_of(alloc: Global, lines: &[Line]) -> Result<Vec<u32>, Memory>
    ensures { IfOk result (λ order. order.items ≡ map (λ line. line.lane) lines.now) }
{
    let mut order = Vec::new(alloc);
    for line in lines {
        order.push(line.lane)?;
    }
    Ok(order)
}

/// Moves each line to its lane.
fn deal(alloc: Global, lines: Vec<Line>) -> Result<Vec<Course>, Memory>
    requires lanes { AllByRecursion (λ line. line.lane < 64) lines.items }
    requires fits { AllByRecursion (λ line. Fits line.deed) lines.items }
    ensures { IfOk result (λ courses. courses.items ≡ dealt lines.items) }
{
    let mut courses = new_courses(alloc)?;
    for line in lines {
        let lane = line.lane as usize;
        courses[lane].push(line)?;
    }
    Ok(courses)
}

/// Lets the lanes of a schedule take a turn each, in its order. A lane without a line left is passed over.
fn take_turns(
    alloc: Global,
    courses: &mut Vec<Course>,
    world: &mut World,
    schedule: &[u32],
) -> Result<(), Memory>
    requires are { AreCourses world.old courses.old.items }
    requires known { AllByRecursion (λ lane. lane < 64) schedule.now }
    ensures { OnOk result
        (TookTurns world.old world.new courses.old.items courses.new.items schedule.now) }
{
    for lane in schedule {
        courses[*lane as usize].turn(alloc, world)?;
    }
    Ok(())
}

/// Runs all lanes to their end, in the order of their numbers.
fn run_all(alloc: Global, courses: &mut Vec<Course>, world: &mut World) -> Result<(), Memory>
    requires are { AreCourses world.old courses.old.items }
    ensures { OnOk result (RanOut world.old world.new courses.old.items courses.new.items 64) }
{
    for lane in 0..LANES {
        courses[lane as usize].run_out(alloc, world)?;
    }
    Ok(())
}

/// The report of a world in which all lanes are done.
fn report(alloc: Global, world: World, courses: Vec<Course>) -> Result<Report, Memory>
    ensures { IfOk result (λ report. report ≡ report_of (script_at world courses.items)) }
{
    let (journal, notes, shards) = world.finish(alloc)?;
    let lanes = logs_of(alloc, courses)?;
    Ok(Report {
        lanes,
        journal,
        notes,
        shards,
    })
}
