//! The lists of a report, each member of which is a line of the report's text.

ghost use Rattle.std.specs.Prelude.{◌≡◌, ◌<◌, ◌≤◌, ◌++◌, List, ℕ, length, IfErr, OnOk};
ghost use Rattle.ov_report.specs.Print as spec;
ghost use Rattle.ov_report.specs.Printing.{Passed, Stopped, full_page, texts};

use crate::answer::append_answer;
use crate::page::{PrintStop, pass};
use crate::print::{append_entry, append_note, append_replay};
use ov_base::{Memory, Sink};
use ov_model::{Answer, Entry, Note, ReplayEntry};
use std::alloc::Global;

/// A member of one of a report's lists.
///
/// `text` is its line, by its owner and its number: the owner of a replay step is its shard, that of an
/// answer its lane, and entries and notes have none; the number is its place in its list, from 0.
pub(crate) trait Listed {
    ghost text: { ℕ → ℕ → Self → List ℕ };

    /// Puts the line, with its end, at the end of a page.
    fn append(
        &self,
        alloc: Global,
        owner: u64,
        number: u64,
        page: &mut Vec<u8>,
    ) -> Result<(), Memory>
        ensures text { OnOk result (page.new.items ≡ page.old.items ++ text owner number self.now) }
        ensures some { 0 < length (text owner number self.now) };
}

impl Listed for Entry {
    ghost text = { λ owner number entry. spec.entry_text number entry };

    fn append(
        &self,
        _alloc: Global,
        _owner: u64,
        number: u64,
        page: &mut Vec<u8>,
    ) -> Result<(), Memory> {
        append_entry(page, number, self)
    }
}

impl Listed for ReplayEntry {
    ghost text = { λ owner number step. spec.replay_text owner step };

    fn append(
        &self,
        _alloc: Global,
        owner: u64,
        _number: u64,
        page: &mut Vec<u8>,
    ) -> Result<(), Memory> {
        append_replay(page, owner, self)
    }
}

impl Listed for Answer {
    ghost text = { λ owner number answer. spec.answer_text owner number answer };

    fn append(
        &self,
        _alloc: Global,
        owner: u64,
        number: u64,
        page: &mut Vec<u8>,
    ) -> Result<(), Memory> {
        append_answer(page, owner, number, self)
    }
}

impl Listed for Note {
    ghost text = { λ owner number note. spec.note_text note };

    fn append(
        &self,
        alloc: Global,
        _owner: u64,
        _number: u64,
        page: &mut Vec<u8>,
    ) -> Result<(), Memory> {
        append_note(alloc, page, self)
    }
}

/// Prints the lines of a list in their order.
pub(crate) fn print_list<T: Listed, K: Sink>(
    alloc: Global,
    owner: u64,
    list: &[T],
    page: &mut Vec<u8>,
    sink: &mut K,
) -> Result<(), PrintStop>
    ensures passed { OnOk result (Passed (K.written sink.old) (K.written sink.new)
        page.old.items (texts (T.text owner) 0 list.now) page.new.items) }
    ensures stopped { IfErr result (λ stop. Stopped stop (K.written sink.old) (K.written sink.new)
        (K.faults sink.old) (K.faults sink.new) page.old.items (texts (T.text owner) 0 list.now)) }
    ensures bound { length page.old.items < full_page →
        OnOk result (length page.new.items < full_page) }
    ensures later { K.faults sink.old ≤ K.faults sink.new }
    ensures kept { OnOk result (K.faults sink.new ≡ K.faults sink.old) }
{
    let mut number: u64 = 0;
    for member in list {
        member.append(alloc, owner, number, page)?;
        pass(page, sink)?;
        number += 1;
    }
    Ok(())
}
