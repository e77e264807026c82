//! The lines of a report's histories, each a compact JSON object and a line end.

ghost use Rattle.std.specs.Prelude.{◌≡◌, ◌++◌, OnOk, IfOk};
ghost use Rattle.serde_json.specs.Data.{no_members};
ghost use Rattle.serde_json.specs.View.{view, members_view};
ghost use Rattle.ov_report.specs.Print as spec;

use ov_base::{Memory, Octets};
use ov_model::{Act, Command, Entry, Note, NoteBody, Reason, ReplayEntry, Verdict};
use ov_text::{
    Members, append, append_number, append_reply, append_value, append_word, object_of, put_number,
    put_text, put_value,
};
use serde_json::{Map, Value};
use std::alloc::Global;

/// The name of an operation, or of a step that the table makes by itself.
fn call_name(act: &Act) -> &'static str
    ensures { result.now ≡ spec.call_name act.now }
{
    match act {
        Act::Do(Command::PeerNew(_)) => "peer-new",
        Act::Do(Command::PeerSet(_)) => "peer-set",
        Act::Do(Command::PeerGet(_)) => "peer-get",
        Act::Do(Command::PeerDump) => "peer-dump",
        Act::Do(Command::Remove(_, _)) => "remove",
        Act::Do(Command::KeyNew(_)) => "key-new",
        Act::Do(Command::KeyGet(_, _)) => "key-get",
        Act::Do(Command::KeySwap(_)) => "key-swap",
        Act::Do(Command::KeyDel(_, _)) => "key-del",
        Act::Do(Command::Tick) => "tick",
        Act::Do(Command::Down) => "down",
        Act::TxLook(_) => "tx-look",
        Act::RxLook { .. } => "rx-look",
        Act::Sent { .. } => "sent",
        Act::Settle { .. } => "settle",
        Act::Spend { .. } => "spend",
        Act::KeepLook(_) => "keep-look",
        Act::Released(_) => "released",
        Act::KeyReleased(_) => "key-released",
    }
}

/// The text of del-reason.
fn reason_name(reason: Reason) -> &'static str
    ensures { result.now ≡ spec.reason_name reason }
{
    match reason {
        Reason::Teardown => "teardown",
        Reason::Userspace => "userspace",
        Reason::Expired => "expired",
        Reason::TransportError => "transport-error",
        Reason::TransportDisconnect => "transport-disconnect",
    }
}

/// Puts the line of an entry of the journal, which has a number from 0.
pub(crate) fn append_entry(page: &mut Vec<u8>, number: u64, entry: &Entry) -> Result<(), Memory>
    ensures { OnOk result (page.new.items ≡ page.old.items ++ spec.entry_text number entry.now) }
{
    append_number(page, b"{\"at\":", entry.call.at as u64)?;
    append_word(page, b",\"call\":\"", call_name(&entry.call.act))?;
    append_number(page, b"\",\"journal\":", number)?;
    append_number(page, b",\"lane\":", entry.place.lane as u64)?;
    append_number(page, b",\"line\":", entry.place.line)?;
    append(page, b",\"reply\":")?;
    append_reply(page, &entry.reply)?;
    append(page, b"}\n")?;
    Ok(())
}

/// The line of an entry of the journal with its number, from 0.
pub fn entry_line(alloc: Global, number: u64, entry: &Entry) -> Result<Octets, Memory>
    ensures text { IfOk result (λ line. line ≡ spec.entry_text number entry.now) }
{
    let mut page = Vec::new(alloc);
    append_entry(&mut page, number, entry)?;
    Ok(Octets::of_vec(page))
}

/// Puts what a notification tells.
fn put_note(members: &mut Members, alloc: Global, body: &NoteBody) -> Result<(), Memory>
    ensures { OnOk result (members_view members.old.entries ≡ no_members →
        members_view members.new.entries ≡ spec.note_members body.now) }
{
    let mut inner = Map::new(alloc);
    match body {
        NoteBody::PeerDel { id, reason } => {
            put_text(members, alloc, "notify", "peer-del-ntf")?;
            put_text(&mut inner, alloc, "del-reason", reason_name(*reason))?;
            put_number(&mut inner, alloc, "id", id.get() as u64)?;
            put_value(members, alloc, "peer", object_of(inner))
        }
        NoteBody::KeySwap { id, key_id } => {
            put_text(members, alloc, "notify", "key-swap-ntf")?;
            put_number(&mut inner, alloc, "key-id", key_id.get() as u64)?;
            put_number(&mut inner, alloc, "peer-id", id.get() as u64)?;
            put_value(members, alloc, "keyconf", object_of(inner))
        }
    }
}

/// A notification as JSON.
#[tactic(auto, unfolding(crate::specs::Print::note_data))]
fn note_value(alloc: Global, note: &Note) -> Result<Value, Memory>
    ensures { IfOk result (λ v. view v ≡ spec.note_data note.now) }
{
    let mut members = Map::new(alloc);
    put_note(&mut members, alloc, &note.body)?;
    put_number(&mut members, alloc, "journal", note.entry)?;
    Ok(object_of(members))
}

/// Puts the line of a notification.
#[tactic(auto, using(crate::proofs::NoFloat::note_no_float))]
pub(crate) fn append_note(alloc: Global, page: &mut Vec<u8>, note: &Note) -> Result<(), Memory>
    ensures { OnOk result (page.new.items ≡ page.old.items ++ spec.note_text note.now) }
{
    let value = note_value(alloc, note)?;
    append_value(alloc, page, &value)?;
    append(page, b"\n")?;
    Ok(())
}

/// The line of a notification.
pub fn note_line(alloc: Global, note: &Note) -> Result<Octets, Memory>
    ensures text { IfOk result (λ line. line ≡ spec.note_text note.now) }
{
    let mut page = Vec::new(alloc);
    append_note(alloc, &mut page, note)?;
    Ok(Octets::of_vec(page))
}

/// The word of a verdict of the replay rule.
fn verdict_name(verdict: Verdict) -> &'static str
    ensures { result.now ≡ spec.verdict_name verdict }
{
    match verdict {
        Verdict::Accept => "accept",
        Verdict::Zero => "zero",
        Verdict::Old => "old",
        Verdict::Below => "below",
        Verdict::Again => "again",
    }
}

/// Puts the line of a replay step of a shard, which is numbered from 0.
pub(crate) fn append_replay(
    page: &mut Vec<u8>,
    shard: u64,
    entry: &ReplayEntry,
) -> Result<(), Memory>
    ensures { OnOk result (page.new.items ≡ page.old.items ++ spec.replay_text shard entry.now) }
{
    append_number(page, b"{\"at\":", entry.at as u64)?;
    append_number(page, b",\"id\":", entry.id as u64)?;
    append_number(page, b",\"key\":", entry.key as u64)?;
    append_number(page, b",\"lane\":", entry.place.lane as u64)?;
    append_number(page, b",\"line\":", entry.place.line)?;
    append_number(page, b",\"moment\":", entry.moment as u64)?;
    append_number(page, b",\"shard\":", shard)?;
    append_word(page, b",\"verdict\":\"", verdict_name(entry.verdict))?;
    append(page, b"\"}\n")?;
    Ok(())
}

/// The line of a replay step of a shard, which is numbered from 0.
pub fn replay_line(alloc: Global, shard: u32, entry: &ReplayEntry) -> Result<Octets, Memory>
    ensures text { IfOk result (λ line. line ≡ spec.replay_text shard entry.now) }
{
    let mut page = Vec::new(alloc);
    append_replay(&mut page, shard as u64, entry)?;
    Ok(Octets::of_vec(page))
}
