//! The top call of all modes: those that run on one thread, and lanes on threads of their own.

ghost use Rattle.std.specs.Prelude.{◌≡◌, ◌≢◌, ◌<◌, ◌≤◌, ◌⊎◌, ℕ, List, None, length, map, string_bytes, true, false, IfOk, IfSome};
ghost use Rattle.std.specs.Io.KnownBytes.{IsAtEnd};
ghost use Rattle.std.specs.List.{AllByRecursion};
ghost use Rattle.ov_base.specs.Outside.{Rose};
ghost use Rattle.ov_model.specs.Legal.{Legal};
ghost use Rattle.ov_model.specs.Sizes.{Fits};
ghost use Rattle.ov_lanes.specs.Rans.{ArePlain};
ghost use Rattle.ov_lanes.specs.Threads.{HeadFirst};
ghost use Rattle.ov_made.specs.Made as script_made;
ghost use Rattle.ov_script.specs.Reading as reading;
ghost use Rattle.ov_run.specs.declared.ended.Cause.TheVariants as cause;
ghost use Rattle.ov_run.specs.Clauses as spec;
ghost use Rattle.ov_plan.specs.declared.words.Mode.TheVariants as mode;
ghost use Rattle.ov_plan.specs.Plan.{HasPlan, IsInRange};

use crate::ended::{Cause, Ended};
use crate::run::{MADE_FIRST_ID, cause_of, ended_by, run_serial};
use ov_base::{Memory, Sink, Source};
use ov_course::Gate;
use ov_lanes::{gather, run_lanes};
use ov_made::made;
use ov_model::{Report, Script};
use ov_plan::{Mode, PlanStop, RunPlan, plan};
use ov_script::{Reading, read_script};
use std::alloc::Global;
use std::sync::Wait;
use std::thread::Threads;

/// On how many lanes a made script runs on threads.
const LOAD_LANES: u32 = 8;

/// How many lines of a made script run before the others: those that make the peers and their keys.
const LOAD_HEAD: u64 = 256;

/// The report of a script whose lanes run on threads of their own, behind its head.
fn report_on_threads<R: Threads + Wait + Sync, G: Gate + Sync>(
    rt: &R,
    alloc: Global,
    script: Script,
    first: u32,
    lanes: u32,
    head: u64,
    gate: &G,
) -> Result<Report, Memory>
    requires first { 1 ≤ first }
    requires few { (1 ≤ lanes) × (lanes ≤ 64) }
    requires named { AllByRecursion (λ line. line.lane < lanes) script.lines }
    requires fits { AllByRecursion (λ line. Fits line.deed) script.lines }
    ensures legal { IfOk result (Legal script first) }
    ensures head { IfOk result (HeadFirst script head) }
    ensures lanes { IfOk result (λ report. length report.lanes ≡ lanes) }
    ensures plain { IfOk result (λ report. ArePlain report.lanes) }
{
    let ran = run_lanes(rt, alloc, script, first, lanes, head, gate)?;
    Ok(gather(ran))
}

/// Runs a script that was read whole, each of its lanes on a thread of its own, and writes the report.
fn lanes_ran<R: Threads + Wait + Sync, K: Sink, G: Gate + Sync>(
    rt: &R,
    alloc: Global,
    plan: RunPlan,
    script: Script,
    read_lines: u64,
    sink: &mut K,
    gate: &G,
) -> Ended
    requires mode { plan.mode ≡ mode.Lanes }
    requires range { IsInRange plan }
    requires fits { AllByRecursion (λ line. Fits line.deed) script.lines }
    requires lanes { AllByRecursion (λ line. line.lane < plan.lanes) script.lines }
    ensures lines { result.read_lines ≡ read_lines }
    ensures cause { spec.Ran false (K.written sink.old) (K.written sink.new)
        (K.faults sink.old) (K.faults sink.new) result }
    ensures kept { result.cause ≡ cause.Fine → K.faults sink.new ≡ K.faults sink.old }
    ensures threaded { IfSome result.report
        (spec.Threaded script plan.first_id plan.lanes plan.head) }
{
    let (first, lanes, head) = (plan.first_id, plan.lanes, u64::from(plan.head));
    let report = report_on_threads(rt, alloc, script, first, lanes, head, gate);
    ended_by(alloc, Mode::Lanes, read_lines, report, sink)
}

/// Makes the script of a plan's seed and count, runs each of its lanes on a thread of its own, and writes the summary.
/// Nothing is read.
fn load_ran<R: Threads + Wait + Sync, K: Sink, G: Gate + Sync>(
    rt: &R,
    alloc: Global,
    plan: RunPlan,
    sink: &mut K,
    gate: &G,
) -> Ended
    requires range { IsInRange plan }
    ensures lines { result.read_lines ≡ 0 }
    ensures cause { spec.Ran true (K.written sink.old) (K.written sink.new)
        (K.faults sink.old) (K.faults sink.new) result }
    ensures kept { result.cause ≡ cause.Fine → K.faults sink.new ≡ K.faults sink.old }
    ensures threaded { IfSome result.report
        (spec.Threaded (script_made.made plan.seed plan.count) 1 spec.load_lanes spec.load_head) }
{
    let Ok(script) = made(alloc, plan.seed, plan.count) else {
        return Ended::unrun(Cause::Memory);
    };
    let report = report_on_threads(
        rt,
        alloc,
        script,
        MADE_FIRST_ID,
        LOAD_LANES,
        LOAD_HEAD,
        gate,
    );
    ended_by(alloc, Mode::Load, 0, report, sink)
}

/// One run of the program: reads the words, then the whole script or makes it, runs it, and writes the report. Nothing is
/// written before the script was read to its end and found good.
///
/// `words` are the words after the program's name. `trace`, `steps` and `make` run as `run_serial` says. `lanes` runs each
/// lane of the script on a thread of its own, behind the first lines of the plan's head, which run in the script's order; a
/// line on a lane at or above the plan's number is a bad line. `load` makes the script of the seed and the count, runs it on 8
/// lanes with a head of 256 lines and packet ids from 1 on, and writes the summary alone. `gate` is told of each line of a
/// lane on a thread before and after it runs.
pub fn run<R: Threads + Wait + Sync, S: Source, K: Sink, G: Gate + Sync>(
    rt: &R,
    alloc: Global,
    words: &[String],
    source: &mut S,
    sink: &mut K,
    gate: &G,
) -> Ended
    // Usage: only where the words aren't a plan. Where they aren't, it is answered, or want of memory, and
    // nothing is read, run or written.
    ensures usage { result.cause ≡ cause.Usage → ¬ (HasPlan (map string_bytes words.now)) }
    ensures no_plan { ¬ (HasPlan (map string_bytes words.now)) →
        (result.cause ≡ cause.Usage) ⊎ (result.cause ≡ cause.Memory) }
    ensures unread { ¬ (HasPlan (map string_bytes words.now)) →
        (result.report ≡ None) × (source.new ≡ source.old) × (sink.new ≡ sink.old) }

    // Made: where the words ask for a script that is made, nothing is read.
    ensures generated { spec.is_made (map string_bytes words.now) ≡ true →
        (source.new ≡ source.old) × (result.read_lines ≡ 0) }

    // Bytes: a source that tells what it has left tells which bytes were taken, and after a run that ended
    // well it has none left, but where the script was made. A fault is exactly what was counted.
    ensures taken { reading.GaveSome (S.left source.old) (S.left source.new) }
    ensures ended { spec.is_made (map string_bytes words.now) ≡ false →
        result.cause ≡ cause.Fine → IsAtEnd (S.left source.new) }
    ensures kept { result.cause ≢ cause.ReadFault → S.faults source.new ≡ S.faults source.old }
    ensures sink_kept { result.cause ≡ cause.Fine → K.faults sink.new ≡ K.faults sink.old }

    // Stops: a bad line or a limit comes from the bytes, a read fault from the source, and then nothing
    // is run or written. Conversely, what the bytes stop at is told, or want of memory: always where they
    // show it while the source may go on, and else where no read failed.
    ensures stops { (event : reading.Event) → result.cause ≡ spec.cause_of event →
        spec.ComesFrom (spec.lanes_asked (map string_bytes words.now)) (S.left source.old) (S.left source.new) event }
    ensures read_fault { result.cause ≡ cause.ReadFault →
        Rose (S.faults source.old) (S.faults source.new) }
    ensures early { (event : reading.Event) → (taken : List ℕ) →
        reading.Gave (S.left source.old) (S.left source.new) taken →
        reading.Early taken (spec.lanes_asked (map string_bytes words.now)) event → spec.IsTold event result.cause }
    ensures told { ¬ (Rose (S.faults source.old) (S.faults source.new)) →
        (event : reading.Event) → (taken : List ℕ) →
        reading.Gave (S.left source.old) (S.left source.new) taken →
        reading.Stop taken (spec.lanes_asked (map string_bytes words.now)) event → spec.IsTold event result.cause }
    ensures not_early { result.cause ≡ cause.ReadFault → (taken : List ℕ) →
        reading.Gave (S.left source.old) (S.left source.new) taken →
        (event : reading.Event) → ¬ (reading.Early taken (spec.lanes_asked (map string_bytes words.now)) event) }
    ensures unrun { spec.IsStop result.cause → (result.report ≡ None) × (sink.new ≡ sink.old) }

    // The report, and what is written of it: of its text, or of the summary's line where the script was made.
    ensures outcome { IfSome result.report (spec.Reported (map string_bytes words.now)
        (S.left source.old) (S.left source.new)) }
    ensures fine { result.cause ≡ cause.Fine →
        spec.Wrote (spec.is_made (map string_bytes words.now)) (K.written sink.old)
        (K.written sink.new) result.report }
    ensures write_fault { result.cause ≡ cause.WriteFault →
        Rose (K.faults sink.old) (K.faults sink.new) ×
        spec.WrotePart (spec.is_made (map string_bytes words.now)) (K.written sink.old)
        (K.written sink.new) result.report }
    ensures memory { result.cause ≡ cause.Memory →
        spec.WroteNoMore (spec.is_made (map string_bytes words.now)) (K.written sink.old)
        (K.written sink.new) result.report }

    // Lines counted: the whole lines that were taken and found good.
    ensures read_lines { (taken : List ℕ) →
        reading.Gave (S.left source.old) (S.left source.new) taken → result.cause ≢ cause.Usage →
        reading.AreGood (spec.lanes_asked (map string_bytes words.now)) (reading.counted_lines taken) result.read_lines }
    ensures counted { (taken : List ℕ) →
        reading.Gave (S.left source.old) (S.left source.new) taken →
        spec.Counted (spec.lanes_asked (map string_bytes words.now)) taken result.read_lines result.report result.cause }
{
    let plan = match plan(alloc, words) {
        Ok(plan) => plan,
        Err(PlanStop::Usage) => return Ended::unrun(Cause::Usage),
        Err(PlanStop::Memory) => return Ended::unrun(Cause::Memory),
    };
    match plan.mode {
        Mode::Trace | Mode::Steps | Mode::Make => run_serial(alloc, words, source, sink),
        Mode::Load => load_ran(rt, alloc, plan, sink, gate),
        Mode::Lanes => {
            let Reading { good, why, outcome } = read_script(alloc, source, plan.lanes);
            match outcome {
                Err(stop) => Ended {
                    cause: cause_of(stop),
                    read_lines: good,
                    report: None,
                    why,
                },
                Ok(script) => lanes_ran(rt, alloc, plan, script, good, sink, gate),
            }
        }
    }
}
