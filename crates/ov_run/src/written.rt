//! What is written of a report: its text, or where the script was made the summary's line alone.

ghost use Rattle.std.specs.Prelude.{◌≡◌, ◌<◌, length, Err, IfErr, OnOk, OnErr};
ghost use Rattle.std.specs.Io.KnownBytes.{Appends, Keeps};
ghost use Rattle.ov_base.specs.Outside.{Rose};
ghost use Rattle.ov_base.specs.Loops.{AppendsPart};
ghost use Rattle.ov_report.specs.Printing.{full_page};
ghost use Rattle.ov_report.specs.Summary.{summary_text};
ghost use Rattle.ov_report.specs.declared.page.PrintStop.TheVariants as stop;
ghost use Rattle.ov_run.specs.Clauses as spec;

use ov_base::{Sink, write_all};
use ov_model::Report;
use ov_plan::Mode;
use ov_report::{PrintStop, print_report, summary_line};
use std::alloc::Global;

/// Writes the summary of a report. At `Write` a part of it is written, and at `Memory` nothing.
fn write_summary<K: Sink>(alloc: Global, report: &Report, sink: &mut K) -> Result<(), PrintStop>
    ensures whole { OnOk result
        (Appends (K.written sink.old) (K.written sink.new) (summary_text report.now)) }
    ensures part { OnErr result
        (AppendsPart (K.written sink.old) (K.written sink.new) (summary_text report.now)) }
    ensures failed { result ≡ Err stop.Write → Rose (K.faults sink.old) (K.faults sink.new) }
    ensures memory { IfErr result (λ why. why ≡ stop.Memory →
        Keeps (K.written sink.old) (K.written sink.new)) }
    ensures kept { OnOk result (K.faults sink.new ≡ K.faults sink.old) }
{
    let line = summary_line(alloc, report)?;
    write_all(sink, line.as_slice())?;
    Ok(())
}

/// Writes what a mode tells of a report: the whole text, or where its script was made the summary alone. A part
/// of it is written, from the front, where a write failed or memory was wanting.
pub fn write_report<K: Sink>(
    alloc: Global,
    mode: Mode,
    report: &Report,
    sink: &mut K,
) -> Result<(), PrintStop>
    ensures whole { OnOk result (Appends (K.written sink.old) (K.written sink.new)
        (spec.text_if (spec.makes mode) report.now)) }
    ensures part { OnErr result (AppendsPart (K.written sink.old) (K.written sink.new)
        (spec.text_if (spec.makes mode) report.now)) }
    ensures failed { result ≡ Err stop.Write → Rose (K.faults sink.old) (K.faults sink.new) }
    ensures short { IfErr result (λ why. why ≡ stop.Memory →
        length (spec.text_if (spec.makes mode) report.now) < full_page →
        Keeps (K.written sink.old) (K.written sink.new)) }
    ensures kept { OnOk result (K.faults sink.new ≡ K.faults sink.old) }
{
    match mode {
        Mode::Trace | Mode::Steps | Mode::Lanes => print_report(alloc, report, sink),
        Mode::Make | Mode::Load => write_summary(alloc, report, sink),
    }
}
