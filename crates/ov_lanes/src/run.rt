//! A script's lines, each lane's on a thread of its own.

ghost use Rattle.std.specs.Prelude.{◌≡◌, ◌<◌, ◌≤◌, List, [], None, true, length, map, take, IfOk, IfSome};
ghost use Rattle.std.specs.List.{AllByRecursion};
ghost use Rattle.std.specs.Vec.{vec_capacity};
ghost use Rattle.ov_model.specs.Legal.{Legal};
ghost use Rattle.ov_model.specs.declared.line.Line.{Line};
ghost use Rattle.ov_model.specs.Sizes.{Fits};
ghost use Rattle.ov_lane.specs.Passes.{Shared, AreFresh, AreAllPasses};
ghost use Rattle.ov_lanes.specs.Dealt.{AreDealt, HaveRoom, AreSeated};
ghost use Rattle.ov_lanes.specs.Jobs.{Beginning, Setting, AreAtWork, AreAtHead, AreBehindHead, AllRanOut, AllSaw, HaveMet, HaveRunAll, LaneSaw, RanOut, are_on, passes_of, log_of};
ghost use Rattle.ov_lanes.specs.Threads.{HeadFirst};
ghost use Rattle.ov_lanes.specs.Rans.{ArePlain, report_of};

use crate::job::Job;
use crate::pairs::with_both;
use ov_base::{ListOf, Memory};
use ov_course::Gate;
use ov_lane::{Closed, Ovpn, Pass};
use ov_model::{Answer, LaneLog, Line, Report, Script};
use std::alloc::Global;
use std::sync::Wait;
use std::thread::{self, Threads};

/// What a run of lanes ends with: what the shared table ends with, and each lane's log.
#[derive(Debug, Drop)]
pub struct Ran {
    pub closed: Closed,
    pub logs: ListOf<LaneLog>,
}

/// The report of a run: nothing is copied.
pub fn gather(ran: Ran) -> Report
    ensures { result ≡ report_of ran }
{
    let Ran { closed, logs } = ran;
    let Closed {
        journal,
        notes,
        shards,
    } = closed;
    Report {
        lanes: logs,
        journal,
        notes,
        shards,
    }
}

/// Runs a script's lines, each lane's on a thread of its own: the first `head` lines before, in the script's order, and then all
/// others. The gate sees the place of each line before it begins and after it is over. The next hop of an address is that of
/// the script's routes. Send counters begin at `first`. `Err` is want of memory.
pub fn run_lanes<R: Threads + Wait + Sync, G: Gate + Sync>(
    rt: &R,
    alloc: Global,
    script: Script,
    first: u32,
    lanes: u32,
    head: u64,
    gate: &G,
) -> Result<Ran, Memory>
    requires first { 1 ≤ first }
    requires few { (1 ≤ lanes) × (lanes ≤ 64) }
    requires named { AllByRecursion (λ line. line.lane < lanes) script.lines }
    requires fits { AllByRecursion (λ line. Fits line.deed) script.lines }
    ensures legal { IfOk result (λ r. Legal script first (report_of r)) }
    ensures head { IfOk result (λ r. HeadFirst script head (report_of r)) }
    ensures lanes { IfOk result (λ r. length r.logs ≡ lanes) }
    ensures plain { IfOk result (λ r. ArePlain r.logs) }
{
    run_script(rt, alloc, script, first, lanes, head, gate)
}

/// The same of a script whose lines and head have names in the proof.
fn run_script<R: Threads + Wait + Sync, G: Gate + Sync>(
    rt: &R,
    alloc: Global,
    script: Script,
    first: u32,
    lanes: u32,
    head: u64,
    gate: &G,
) -> Result<Ran, Memory>
    ghost it: { Beginning }
    requires lines { it.lines ≡ script.lines }
    requires head { it.head ≡ head }
    requires first { 1 ≤ first }
    requires few { (1 ≤ lanes) × (lanes ≤ 64) }
    requires named { AllByRecursion (λ line. line.lane < lanes) it.lines }
    requires fits { AllByRecursion (λ line. Fits line.deed) it.lines }
    ensures legal { IfOk result (λ r. Legal script first (report_of r)) }
    ensures head { IfOk result (λ r. HeadFirst script head (report_of r)) }
    ensures lanes { IfOk result (λ r. length r.logs ≡ lanes) }
    ensures plain { IfOk result (λ r. ArePlain r.logs) }
{
    let Script { lines, routes } = script;
    let order = order_of(alloc, lines.as_slice(), head)?;
    let dealt = deal(alloc, lines.into_vec(), lanes)?;
    let rooms = rooms(alloc, dealt.as_slice())?;
    let mut passes = Vec::new(alloc);
    passes.reserve(lanes as usize)?;
    let mut logs = Vec::new(alloc);
    logs.reserve(lanes as usize)?;
    let (ovpn, fresh) = Ovpn::new(alloc, first, lanes, routes)?;
    let mut jobs = Vec::new(alloc);
    if jobs.reserve(lanes as usize).is_err() {
        // A table has to be closed.
        drop(ovpn.close(fresh));
        return Err(Memory);
    }
    let fresh = fresh.into_vec();
    run_seated(
        rt,
        alloc,
        &ovpn,
        fresh,
        dealt,
        rooms,
        &mut jobs,
        order.as_slice(),
        gate,
    );
    let all = take_in(alloc, jobs, &mut passes, &mut logs);
    let closed = ovpn.close(ListOf::of_vec(passes));
    if all {
        Ok(Ran {
            closed,
            logs: ListOf::of_vec(logs),
        })
    } else {
        Err(Memory)
    }
}

/// The lanes of the first lines, so many, in the order of the lines.
fn order_of(alloc: Global, lines: &[Line], head: u64) -> Result<Vec<u32>, Memory>
    ensures { IfOk result (λ order. order.items ≡ map (λ line. line.lane) (take head lines.now)) }
{
    let mut order = Vec::new(alloc);
    for line in lines {
        if order.as_slice().len() as u64 == head {
            return Ok(order);
        }
        order.push(line.lane)?;
    }
    Ok(order)
}

/// Moves each line to its lane.
fn deal(alloc: Global, lines: Vec<Line>, lanes: u32) -> Result<Vec<Vec<Line>>, Memory>
    requires named { AllByRecursion (λ line. line.lane < lanes) lines.items }
    ensures { IfOk result (λ dealt. AreDealt lines.items lanes dealt.items) }
{
    let mut dealt = Vec::new(alloc);
    for _lane in 0..lanes {
        dealt.push(Vec::new(alloc))?;
    }
    for line in lines {
        let lane = line.lane as usize;
        dealt[lane].push(line)?;
    }
    Ok(dealt)
}

/// Room for an answer to each line of each lane.
fn rooms(alloc: Global, dealt: &[Vec<Line>]) -> Result<Vec<Vec<Answer>>, Memory>
    ensures { IfOk result (λ rooms. HaveRoom dealt.now rooms.items) }
{
    let mut rooms = Vec::new(alloc);
    for lines in dealt {
        let mut answers = Vec::new(alloc);
        answers.reserve(lines.as_slice().len())?;
        rooms.push(answers)?;
    }
    Ok(rooms)
}

/// Puts the lanes together: each has its pass, its lines, and room for their answers.
fn seat<'a>(
    ovpn: &'a Ovpn,
    mut passes: Vec<Pass>,
    mut dealt: Vec<Vec<Line>>,
    mut rooms: Vec<Vec<Answer>>,
    jobs: &mut Vec<Job<'a>>,
)
    ghost lines: { List Line }
    requires fresh { AreFresh ovpn.now (length dealt.items) passes.items }
    requires all { AreAllPasses ovpn.now passes.items }
    requires dealt { AreDealt lines (length dealt.items) dealt.items }
    requires rooms { HaveRoom dealt.items rooms.items }
    requires fits { AllByRecursion (λ line. Fits line.deed) lines }
    requires none { jobs.old.items ≡ [] }
    requires room { length dealt.items ≤ vec_capacity jobs.old }
    ensures { AreSeated ovpn.now lines (length dealt.items) jobs.new.items }
{
    let count = dealt.as_slice().len();
    for _lane in 0..count {
        let (Some(pass), Some(lines), Some(answers)) = (passes.pop(), dealt.pop(), rooms.pop())
        else {
            unreachable!()
        };
        jobs.push_reserved(Job::new(ovpn, pass, lines, answers));
    }
    jobs.as_mut_slice().reverse();
}

/// Puts the lanes together and runs all lines. A lane is stopped by want of memory.
fn run_seated<'a, R: Threads + Wait + Sync, G: Gate + Sync>(
    rt: &R,
    alloc: Global,
    ovpn: &'a Ovpn,
    passes: Vec<Pass>,
    dealt: Vec<Vec<Line>>,
    rooms: Vec<Vec<Answer>>,
    jobs: &mut Vec<Job<'a>>,
    order: &[u32],
    gate: &G,
)
    ghost it: { Setting }
    requires table { it.table ≡ ovpn.now }
    requires fresh { AreFresh ovpn.now (length dealt.items) passes.items }
    requires all { AreAllPasses ovpn.now passes.items }
    requires dealt { AreDealt it.lines (length dealt.items) dealt.items }
    requires rooms { HaveRoom dealt.items rooms.items }
    requires fits { AllByRecursion (λ line. Fits line.deed) it.lines }
    requires named { AllByRecursion (λ line. line.lane < length dealt.items) it.lines }
    requires order { order.now ≡ map (λ line. line.lane) (take it.head it.lines) }
    requires none { jobs.old.items ≡ [] }
    requires room { length dealt.items ≤ vec_capacity jobs.old }
    requires some { 1 ≤ length dealt.items }
    requires few { length dealt.items ≤ 64 }
    ensures { HaveRunAll it.table it.lines (length order.now) (length dealt.items) jobs.new.items }
{
    seat(ovpn, passes, dealt, rooms, jobs);
    run_all(rt, alloc, jobs, order, gate);
}

/// Runs all lines: those of the head first, and then each lane's on a thread of its own. A lane is stopped by want of memory.
fn run_all<'a, R: Threads + Wait + Sync, G: Gate + Sync>(
    rt: &R,
    alloc: Global,
    jobs: &mut Vec<Job<'a>>,
    order: &[u32],
    gate: &G,
)
    ghost it: { Setting }
    requires head { AreAtHead it.table it.lines 0 0 jobs.old.items }
    requires order { order.now ≡ map (λ line. line.lane) (take it.head it.lines) }
    requires named { AllByRecursion (λ line. line.lane < length jobs.old.items) it.lines }
    requires some { 1 ≤ length jobs.old.items }
    requires few { length jobs.old.items ≤ 64 }
    ensures { HaveRunAll it.table it.lines (length order.now) (length jobs.old.items) jobs.new.items }
{
    if let Some(last) = run_head(rt, alloc, jobs, order, gate) {
        meet_all(jobs, last);
        run_side_by_side(rt, alloc, jobs.as_mut_slice(), gate);
    }
}

/// Runs the head's lines, one after the other, and gives the last one's lane. A lane has met that of the line before, so that it
/// has seen all of the head. `None` where a line was stopped by want of memory.
fn run_head<'a, R: Wait, G: Gate>(
    rt: &R,
    alloc: Global,
    jobs: &mut Vec<Job<'a>>,
    order: &[u32],
    gate: &G,
) -> Option<usize>
    ghost it: { Setting }
    requires head { AreAtHead it.table it.lines 0 0 jobs.old.items }
    requires order { order.now ≡ map (λ line. line.lane) (take it.head it.lines) }
    requires named { AllByRecursion (λ line. line.lane < length jobs.old.items) it.lines }
    requires some { 1 ≤ length jobs.old.items }
    ensures some { IfSome result (λ last.
        AreAtHead it.table it.lines (length order.now) last jobs.new.items) }
    ensures last { IfSome result (λ last. last < length jobs.new.items) }
    ensures work { AreAtWork it.table it.lines jobs.new.items }
    ensures stopped { result ≡ None → are_on jobs.new.items → ⊥ }
    ensures count { length jobs.new.items ≡ length jobs.old.items }
{
    let mut last = 0;
    for lane in order {
        let lane = *lane as usize;
        meet(jobs.as_mut_slice(), last, lane);
        jobs[lane].run_next(rt, alloc, gate);
        if jobs[lane].stopped() {
            return None;
        }
        last = lane;
    }
    Some(last)
}

/// Two lanes meet. A lane has seen what itself has.
fn meet<'a>(jobs: &mut [Job<'a>], one: usize, other: usize)
    requires one { one < length jobs.old }
    requires other { other < length jobs.old }
    requires tables { (t : Shared) × AllByRecursion (λ lane. lane.table ≡ t) jobs.old }
    ensures saw { AllSaw jobs.old jobs.new }
    ensures met { HaveMet one other jobs.new }
{
    if one == other {
        return;
    }
    let (low, high) = if one < other {
        (one, other)
    } else {
        (other, one)
    };
    with_both(
        jobs,
        low,
        high,
        |first: &mut Job, second: &mut Job|
            requires { first.old.table ≡ second.old.table }
            ensures first { LaneSaw first.old first.new }
            ensures second { LaneSaw second.old second.new }
            ensures same { first.new.pass.share.sight.seen ≡ second.new.pass.share.sight.seen }
        {
            first.meet(second);
        },
    );
}

/// Each lane meets one, so that it has seen what that has.
fn meet_all<'a>(jobs: &mut Vec<Job<'a>>, one: usize)
    ghost it: { Setting }
    requires head { AreAtHead it.table it.lines it.head one jobs.old.items }
    requires one { one < length jobs.old.items }
    ensures head { AreBehindHead it.table it.lines it.head jobs.new.items }
    ensures count { length jobs.new.items ≡ length jobs.old.items }
{
    let count = jobs.as_slice().len();
    for other in 0..count {
        meet(jobs.as_mut_slice(), one, other);
    }
}

/// Runs out all lanes, each on a thread of its own.
fn run_side_by_side<'a, R: Threads + Wait + Sync, G: Gate + Sync>(
    rt: &R,
    alloc: Global,
    jobs: &mut [Job<'a>],
    gate: &G,
)
    ensures { AllRanOut jobs.old jobs.new }
{
    thread::for_each_mut(
        rt,
        jobs,
        64,
        &|_lane: usize, job: &mut Job|
            ensures { RanOut job.old job.new }
        {
            job.run_out(rt, alloc, gate);
        },
    );
}

/// Takes the lanes apart again, in their order: their passes and their logs, and whether no line was stopped.
fn take_in<'a>(
    alloc: Global,
    jobs: Vec<Job<'a>>,
    passes: &mut Vec<Pass>,
    logs: &mut Vec<LaneLog>,
) -> bool
    requires no_pass { passes.old.items ≡ [] }
    requires no_log { logs.old.items ≡ [] }
    requires passes { length jobs.items ≤ vec_capacity passes.old }
    requires logs { length jobs.items ≤ vec_capacity logs.old }
    ensures passes { passes.new.items ≡ passes_of jobs.entry.items }
    ensures logs { logs.new.items ≡ map log_of jobs.entry.items }
    ensures on { result ≡ true → are_on jobs.entry.items }
{
    let mut all = true;
    for job in jobs {
        all = all && !job.stopped();
        let (pass, log) = job.finish(alloc);
        passes.push_reserved(pass);
        logs.push_reserved(log);
    }
    all
}
