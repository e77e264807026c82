//! The top call: words, script, run, report. The script is read, or made from the words' seed and count.

ghost use Rattle.std.specs.Prelude.{◌≡◌, ◌≢◌, ◌<◌, ◌⊎◌, ℕ, List, None, Ok, length, map, string_bytes, true, false, IfOk, IfSome};
ghost use Rattle.std.specs.Io.KnownBytes.{IsAtEnd};
ghost use Rattle.std.specs.List.{AllByRecursion};
ghost use Rattle.ov_base.specs.Outside.{Rose};
ghost use Rattle.ov_model.specs.Legal.{Legal};
ghost use Rattle.ov_model.specs.Sizes.{Fits};
ghost use Rattle.ov_made.specs.Made as script_made;
ghost use Rattle.ov_script.specs.Reading as reading;
ghost use Rattle.ov_run.specs.declared.ended.Cause.TheVariants as cause;
ghost use Rattle.ov_run.specs.Clauses as spec;
ghost use Rattle.ov_plan.specs.declared.words.RunPlan.{RunPlan};
ghost use Rattle.ov_plan.specs.Plan.{HasPlan, IsPlan};

use crate::ended::{Cause, Ended};
use crate::written::write_report;
use ov_base::{Memory, Sink, Source};
use ov_core::{run_schedule, run_serially};
use ov_made::made;
use ov_model::{Report, Script};
use ov_plan::{Mode, PlanStop, RunPlan, plan};
use ov_report::PrintStop;
use ov_script::{ReadStop, Reading, read_script};
use std::alloc::Global;

/// The number of lanes on one thread: a line's lane is below it, and a report has a log for each.
const LANES: u32 = 64;

/// The first packet id of each key of a script that is made.
pub(crate) const MADE_FIRST_ID: u32 = 1;

/// The cause of a stop.
pub(crate) fn cause_of(stop: ReadStop) -> Cause
    ensures { result ≡ spec.cause_of_stop stop }
{
    match stop {
        ReadStop::Read => Cause::ReadFault,
        ReadStop::Bad(line) => Cause::BadLine(line),
        ReadStop::Limit(limit) => Cause::Limit(limit),
        ReadStop::Memory => Cause::Memory,
    }
}

/// The report of a script by a plan whose lines run on one thread.
fn report_of(alloc: Global, plan: RunPlan, script: Script) -> Result<Report, Memory>
    requires fits { AllByRecursion (λ line. Fits line.deed) script.lines }
    requires lanes { AllByRecursion (λ line. line.lane < spec.lanes_read) script.lines }
    requires schedule { AllByRecursion (λ lane. lane < spec.lanes_read) plan.schedule }
    requires serial { spec.is_serial plan.mode ≡ true }
    ensures ran { IfOk result (spec.Runs plan script) }
    ensures legal { IfOk result (Legal script (spec.first_id plan)) }
    ensures lanes { IfOk result (λ report. length report.lanes ≡ spec.lanes_of plan) }
{
    match plan.mode {
        Mode::Trace => run_serially(alloc, script, plan.first_id),
        Mode::Steps => run_schedule(alloc, script, plan.first_id, plan.schedule.as_slice()),
        Mode::Make => run_serially(alloc, script, MADE_FIRST_ID),
        Mode::Lanes | Mode::Load => unreachable!(),
    }
}

/// How a run ends that has its script: what its mode tells of the report is written, if there is one.
pub(crate) fn ended_by<K: Sink>(
    alloc: Global,
    mode: Mode,
    read_lines: u64,
    report: Result<Report, Memory>,
    sink: &mut K,
) -> Ended
    ensures lines { result.read_lines ≡ read_lines }
    ensures cause { spec.Ran (spec.makes mode) (K.written sink.old) (K.written sink.new)
        (K.faults sink.old) (K.faults sink.new) result }
    ensures kept { result.cause ≡ cause.Fine → K.faults sink.new ≡ K.faults sink.old }
    ensures report { IfSome result.report (λ r. report ≡ Ok r) }
{
    let Ok(report) = report else {
        return Ended {
            cause: Cause::Memory,
            read_lines,
            report: None,
            why: None,
        };
    };
    let cause = match write_report(alloc, mode, &report, sink) {
        Ok(()) => Cause::Fine,
        Err(PrintStop::Write) => Cause::WriteFault,
        Err(PrintStop::Memory) => Cause::Memory,
    };
    Ended {
        cause,
        read_lines,
        report: Some(report),
        why: None,
    }
}

/// Runs a script that was read whole or made on one thread, and writes what its mode tells of the report.
fn ran<K: Sink>(
    alloc: Global,
    plan: RunPlan,
    script: Script,
    read_lines: u64,
    sink: &mut K,
) -> Ended
    requires fits { AllByRecursion (λ line. Fits line.deed) script.lines }
    requires lanes { AllByRecursion (λ line. line.lane < spec.lanes_read) script.lines }
    requires schedule { AllByRecursion (λ lane. lane < spec.lanes_read) plan.schedule }
    requires serial { spec.is_serial plan.mode ≡ true }
    ensures lines { result.read_lines ≡ read_lines }
    ensures cause { spec.Ran (spec.makes plan.mode) (K.written sink.old) (K.written sink.new)
        (K.faults sink.old) (K.faults sink.new) result }
    ensures kept { result.cause ≡ cause.Fine → K.faults sink.new ≡ K.faults sink.old }
    ensures ran { IfSome result.report (spec.Runs plan script) }
    ensures legal { IfSome result.report (Legal script (spec.first_id plan)) }
    ensures lanes { IfSome result.report (λ report. length report.lanes ≡ spec.lanes_of plan) }
{
    let mode = plan.mode;
    let report = report_of(alloc, plan, script);
    ended_by(alloc, mode, read_lines, report, sink)
}

/// Makes the script of a plan's seed and count, runs it, and writes what its mode tells. Nothing is read.
fn made_ran<K: Sink>(alloc: Global, plan: RunPlan, sink: &mut K) -> Ended
    requires schedule { AllByRecursion (λ lane. lane < spec.lanes_read) plan.schedule }
    requires serial { spec.is_serial plan.mode ≡ true }
    ensures lines { result.read_lines ≡ 0 }
    ensures cause { spec.Ran (spec.makes plan.mode) (K.written sink.old) (K.written sink.new)
        (K.faults sink.old) (K.faults sink.new) result }
    ensures kept { result.cause ≡ cause.Fine → K.faults sink.new ≡ K.faults sink.old }
    ensures ran { IfSome result.report (spec.Runs plan (script_made.made plan.seed plan.count)) }
    ensures legal { IfSome result.report
        (Legal (script_made.made plan.seed plan.count) (spec.first_id plan)) }
    ensures lanes { IfSome result.report (λ report. length report.lanes ≡ spec.lanes_of plan) }
{
    match made(alloc, plan.seed, plan.count) {
        Ok(script) => ran(alloc, plan, script, 0, sink),
        Err(_) => Ended::unrun(Cause::Memory),
    }
}

/// One run of the program on one thread: reads the words, then the whole script, runs it, and writes the report.
/// Nothing is written before the script was read to its end and found good. It waits for nobody.
///
/// `words` are the words after the program's name. The answer's cause is `Usage` exactly where they are those of
/// no plan (see `plan`), or `Memory`: `trace` runs each line to its end, and `steps` lets the lanes take turns by
/// its schedule. The counter of each key begins at the plan's first id. `make` reads nothing: it makes its script
/// from the seed and the count, runs each line to its end with packet ids from 1 on, and writes the summary alone.
pub fn run_serial<S: Source, K: Sink>(
    alloc: Global,
    words: &[String],
    source: &mut S,
    sink: &mut K,
) -> Ended
    // The words have no plan, or one whose mode runs its lines on one thread.
    requires serial { (plan : RunPlan) → IsPlan (map string_bytes words.now) plan →
        spec.is_serial plan.mode ≡ true }

    // Usage: only where the words aren't a plan. Where they aren't, it is answered, or want of memory, and
    // nothing is read, run or written.
    ensures usage { result.cause ≡ cause.Usage → ¬ (HasPlan (map string_bytes words.now)) }
    ensures no_plan { ¬ (HasPlan (map string_bytes words.now)) →
        (result.cause ≡ cause.Usage) ⊎ (result.cause ≡ cause.Memory) }
    ensures unread { ¬ (HasPlan (map string_bytes words.now)) →
        (result.report ≡ None) × (source.new ≡ source.old) × (sink.new ≡ sink.old) }

    // Made: where the words ask for a script that is made, nothing is read.
    ensures generated { spec.is_made (map string_bytes words.now) ≡ true →
        (source.new ≡ source.old) × (result.read_lines ≡ 0) }

    // Bytes: a source that tells what it has left tells which bytes were taken, and after a run that ended
    // well it has none left, but where the script was made. A fault is exactly what was counted.
    ensures taken { reading.GaveSome (S.left source.old) (S.left source.new) }
    ensures ended { spec.is_made (map string_bytes words.now) ≡ false →
        result.cause ≡ cause.Fine → IsAtEnd (S.left source.new) }
    ensures kept { result.cause ≢ cause.ReadFault → S.faults source.new ≡ S.faults source.old }
    ensures sink_kept { result.cause ≡ cause.Fine → K.faults sink.new ≡ K.faults sink.old }

    // Stops: a bad line or a limit comes from the bytes, a read fault from the source, and then nothing
    // is run or written. Conversely, what the bytes stop at is told, or want of memory: always where they
    // show it while the source may go on, and else where no read failed.
    ensures stops { (event : reading.Event) → result.cause ≡ spec.cause_of event →
        spec.ComesFrom spec.lanes_read (S.left source.old) (S.left source.new) event }
    ensures read_fault { result.cause ≡ cause.ReadFault →
        Rose (S.faults source.old) (S.faults source.new) }
    ensures early { (event : reading.Event) → (taken : List ℕ) →
        reading.Gave (S.left source.old) (S.left source.new) taken →
        reading.Early taken spec.lanes_read event → spec.IsTold event result.cause }
    ensures told { ¬ (Rose (S.faults source.old) (S.faults source.new)) →
        (event : reading.Event) → (taken : List ℕ) →
        reading.Gave (S.left source.old) (S.left source.new) taken →
        reading.Stop taken spec.lanes_read event → spec.IsTold event result.cause }
    ensures not_early { result.cause ≡ cause.ReadFault → (taken : List ℕ) →
        reading.Gave (S.left source.old) (S.left source.new) taken →
        (event : reading.Event) → ¬ (reading.Early taken spec.lanes_read event) }
    ensures unrun { spec.IsStop result.cause → (result.report ≡ None) × (sink.new ≡ sink.old) }

    // The report, and what is written of it: of its text, or of the summary's line where the script was made.
    ensures outcome { IfSome result.report (spec.Reported (map string_bytes words.now)
        (S.left source.old) (S.left source.new)) }
    ensures fine { result.cause ≡ cause.Fine →
        spec.Wrote (spec.is_made (map string_bytes words.now)) (K.written sink.old)
        (K.written sink.new) result.report }
    ensures write_fault { result.cause ≡ cause.WriteFault →
        Rose (K.faults sink.old) (K.faults sink.new) ×
        spec.WrotePart (spec.is_made (map string_bytes words.now)) (K.written sink.old)
        (K.written sink.new) result.report }
    ensures memory { result.cause ≡ cause.Memory →
        spec.WroteNoMore (spec.is_made (map string_bytes words.now)) (K.written sink.old)
        (K.written sink.new) result.report }

    // Lines counted: the whole lines that were taken and found good.
    ensures read_lines { (taken : List ℕ) →
        reading.Gave (S.left source.old) (S.left source.new) taken → result.cause ≢ cause.Usage →
        reading.AreGood spec.lanes_read (reading.counted_lines taken) result.read_lines }
    ensures counted { (taken : List ℕ) →
        reading.Gave (S.left source.old) (S.left source.new) taken →
        spec.Counted spec.lanes_read taken result.read_lines result.report result.cause }
{
    let plan = match plan(alloc, words) {
        Ok(plan) => plan,
        Err(PlanStop::Usage) => return Ended::unrun(Cause::Usage),
        Err(PlanStop::Memory) => return Ended::unrun(Cause::Memory),
    };
    if let Mode::Make = plan.mode {
        return made_ran(alloc, plan, sink);
    }
    let Reading { good, why, outcome } = read_script(alloc, source, LANES);
    match outcome {
        Err(stop) => Ended {
            cause: cause_of(stop),
            read_lines: good,
            report: None,
            why,
        },
        Ok(script) => ran(alloc, plan, script, good, sink),
    }
}
