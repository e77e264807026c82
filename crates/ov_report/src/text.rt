//! The lines of a report in their order.

ghost use Rattle.std.specs.Prelude.{◌≡◌, ◌<◌, ◌≤◌, length, Err, IfErr, OnOk, OnErr};
ghost use Rattle.std.specs.Io.KnownBytes.{Appends, Keeps};
ghost use Rattle.ov_base.specs.Outside.{Rose};
ghost use Rattle.ov_base.specs.Loops.{AppendsPart};
ghost use Rattle.ov_report.specs.Summary as spec;
ghost use Rattle.ov_report.specs.Printing.{Passed, Stopped, full_page};

use crate::listed::print_list;
use crate::page::{PrintStop, flush, pass};
use crate::summary::append_summary;
use ov_base::{ListOf, Sink};
use ov_model::{LaneLog, ReplayEntry, Report};
use std::alloc::Global;

/// Prints the replay steps of the shards in turn.
fn print_shards<K: Sink>(
    alloc: Global,
    shards: &[ListOf<ReplayEntry>],
    page: &mut Vec<u8>,
    sink: &mut K,
) -> Result<(), PrintStop>
    ensures passed { OnOk result (Passed (K.written sink.old) (K.written sink.new)
        page.old.items (spec.shards_text 0 shards.now) page.new.items) }
    ensures stopped { IfErr result (λ stop. Stopped stop (K.written sink.old) (K.written sink.new)
        (K.faults sink.old) (K.faults sink.new) page.old.items (spec.shards_text 0 shards.now)) }
    ensures bound { length page.old.items < full_page →
        OnOk result (length page.new.items < full_page) }
    ensures later { K.faults sink.old ≤ K.faults sink.new }
    ensures kept { OnOk result (K.faults sink.new ≡ K.faults sink.old) }
{
    let mut number: u64 = 0;
    for shard in shards {
        print_list(alloc, number, shard.as_slice(), page, sink)?;
        number += 1;
    }
    Ok(())
}

/// Prints the answers of the lanes in turn.
fn print_lanes<K: Sink>(
    alloc: Global,
    lanes: &[LaneLog],
    page: &mut Vec<u8>,
    sink: &mut K,
) -> Result<(), PrintStop>
    ensures passed { OnOk result (Passed (K.written sink.old) (K.written sink.new)
        page.old.items (spec.lanes_text 0 lanes.now) page.new.items) }
    ensures stopped { IfErr result (λ stop. Stopped stop (K.written sink.old) (K.written sink.new)
        (K.faults sink.old) (K.faults sink.new) page.old.items (spec.lanes_text 0 lanes.now)) }
    ensures bound { length page.old.items < full_page →
        OnOk result (length page.new.items < full_page) }
    ensures later { K.faults sink.old ≤ K.faults sink.new }
    ensures kept { OnOk result (K.faults sink.new ≡ K.faults sink.old) }
{
    let mut number: u64 = 0;
    for log in lanes {
        print_list(alloc, number, log.answers.as_slice(), page, sink)?;
        number += 1;
    }
    Ok(())
}

/// Prints the summary.
fn print_summary<K: Sink>(
    alloc: Global,
    report: &Report,
    page: &mut Vec<u8>,
    sink: &mut K,
) -> Result<(), PrintStop>
    ensures passed { OnOk result (Passed (K.written sink.old) (K.written sink.new)
        page.old.items (spec.summary_text report.now) page.new.items) }
    ensures stopped { IfErr result (λ stop. Stopped stop (K.written sink.old) (K.written sink.new)
        (K.faults sink.old) (K.faults sink.new) page.old.items (spec.summary_text report.now)) }
    ensures bound { OnOk result (length page.new.items < full_page) }
    ensures later { K.faults sink.old ≤ K.faults sink.new }
    ensures kept { OnOk result (K.faults sink.new ≡ K.faults sink.old) }
{
    append_summary(alloc, page, report)?;
    pass(page, sink)
}

/// Prints all lines of a report.
fn print_lines<K: Sink>(
    alloc: Global,
    report: &Report,
    page: &mut Vec<u8>,
    sink: &mut K,
) -> Result<(), PrintStop>
    ensures passed { OnOk result (Passed (K.written sink.old) (K.written sink.new)
        page.old.items (spec.report_text report.now) page.new.items) }
    ensures stopped { IfErr result (λ stop. Stopped stop (K.written sink.old) (K.written sink.new)
        (K.faults sink.old) (K.faults sink.new) page.old.items (spec.report_text report.now)) }
    ensures bound { length page.old.items < full_page →
        OnOk result (length page.new.items < full_page) }
    ensures later { K.faults sink.old ≤ K.faults sink.new }
    ensures kept { OnOk result (K.faults sink.new ≡ K.faults sink.old) }
{
    print_list(alloc, 0, report.journal.as_slice(), page, sink)?;
    print_shards(alloc, report.shards.as_slice(), page, sink)?;
    print_lanes(alloc, report.lanes.as_slice(), page, sink)?;
    print_list(alloc, 0, report.notes.as_slice(), page, sink)?;
    print_summary(alloc, report, page, sink)
}

/// Writes the text of a report, in pieces of some 65,536 bytes: so much of it is in memory at a time, and one
/// line more.
///
/// `Write` comes where a write failed, and `Memory` where a line, the page or the summary found no memory.
/// With either, the text is written in part, from its front, and not to its end; and at `Memory` nothing is
/// written of a text that fills no page.
pub fn print_report<K: Sink>(alloc: Global, report: &Report, sink: &mut K) -> Result<(), PrintStop>
    ensures whole { OnOk result
        (Appends (K.written sink.old) (K.written sink.new) (spec.report_text report.now)) }
    ensures part { OnErr result
        (AppendsPart (K.written sink.old) (K.written sink.new) (spec.report_text report.now)) }
    ensures failed { result ≡ Err PrintStop.Write → Rose (K.faults sink.old) (K.faults sink.new) }
    ensures short { IfErr result (λ why. why ≡ PrintStop.Memory →
        length (spec.report_text report.now) < full_page →
        Keeps (K.written sink.old) (K.written sink.new)) }
    ensures later { K.faults sink.old ≤ K.faults sink.new }
    ensures kept { OnOk result (K.faults sink.new ≡ K.faults sink.old) }
{
    let mut page = Vec::new(alloc);
    print_lines(alloc, report, &mut page, sink)?;
    flush(&mut page, sink)?;
    Ok(())
}
