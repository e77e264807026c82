//! The summary of a report.

ghost use Rattle.std.specs.Prelude.{◌≡◌, ◌++◌, IfOk, OnOk};
ghost use Rattle.serde_json.specs.View.{view};
ghost use Rattle.ov_report.specs.Summary as spec;

use crate::counts::{
    accepted, answers, bad_tags, delivered, keys, peers, refused, released, sealed,
};
use crate::differ::keys_differ;
use ov_base::{Memory, Octets};
use ov_model::Report;
use ov_text::{append, append_value, object_of, one, put_number, put_value};
use serde_json::{Map, Value};
use std::alloc::Global;

/// The counts of a report, and whether its keys differ.
#[tactic(auto, unfolding(crate::specs::Summary::summary_data))]
pub fn summary(alloc: Global, report: &Report) -> Result<Value, Memory>
    ensures { IfOk result (λ v. view v ≡ spec.summary_data report.now) }
{
    let entries = report.journal.as_slice();
    let lanes = report.lanes.as_slice();
    let shards = report.shards.as_slice();
    let mut counts = Map::new(alloc);
    put_number(&mut counts, alloc, "accepted", accepted(shards)?)?;
    put_number(&mut counts, alloc, "answers", answers(lanes)?)?;
    put_number(&mut counts, alloc, "bad-tag", bad_tags(lanes)?)?;
    put_number(&mut counts, alloc, "delivered", delivered(lanes)?)?;
    put_number(&mut counts, alloc, "journal", entries.len() as u64)?;
    put_number(&mut counts, alloc, "keys", keys(entries) as u64)?;
    let differ = Value::Bool(keys_differ(alloc, entries)?);
    put_value(&mut counts, alloc, "keys-differ", differ)?;
    put_number(&mut counts, alloc, "notes", report.notes.len() as u64)?;
    put_number(&mut counts, alloc, "peers", peers(entries) as u64)?;
    put_number(&mut counts, alloc, "refused", refused(shards)?)?;
    put_number(&mut counts, alloc, "released", released(entries) as u64)?;
    put_number(&mut counts, alloc, "sealed", sealed(lanes)?)?;
    one(alloc, "summary", object_of(counts))
}

/// Puts the line of the summary.
#[tactic(auto, using(crate::proofs::Texts::summary_no_float))]
pub(crate) fn append_summary(
    alloc: Global,
    page: &mut Vec<u8>,
    report: &Report,
) -> Result<(), Memory>
    ensures { OnOk result (page.new.items ≡ page.old.items ++ spec.summary_text report.now) }
{
    let counts = summary(alloc, report)?;
    append_value(alloc, page, &counts)?;
    append(page, b"\n")?;
    Ok(())
}

/// The line of the summary of a report: the last line of the report's text. `Memory` is free.
pub fn summary_line(alloc: Global, report: &Report) -> Result<Octets, Memory>
    ensures text { IfOk result (λ line. line ≡ spec.summary_text report.now) }
{
    let mut page = Vec::new(alloc);
    append_summary(alloc, &mut page, report)?;
    Ok(Octets::of_vec(page))
}
