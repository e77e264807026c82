//! The answers of a report's lines, each a compact JSON object and a line end.

ghost use Rattle.std.specs.Prelude.{◌≡◌, ◌++◌, OnOk, IfOk};
ghost use Rattle.ov_model.specs.declared.answer.Answer.TheVariants as answer;
ghost use Rattle.ov_report.specs.Print as spec;

use ov_base::{Memory, Octets};
use ov_model::{Answer, DropCause, PeerId, PingOut};
use ov_text::{
    append, append_closed, append_digits, append_items, append_number, append_reply, append_sealed,
    append_word,
};
use std::alloc::Global;

/// Puts a delivered packet, with the id of its peer.
fn append_delivered(page: &mut Vec<u8>, peer: PeerId, packet: &[u8]) -> Result<(), Memory>
    ensures { OnOk result (page.new.items
        ≡ page.old.items ++ spec.given_text (answer.Delivered peer packet.now)) }
{
    append(page, b"{\"delivered\":{\"packet\":\"")?;
    append_digits(page, packet)?;
    append_closed(page, b"\",\"peer\":", peer.get() as u64, b"}}")?;
    Ok(())
}

/// The word of a cause.
fn cause_name(cause: DropCause) -> &'static str
    ensures { result.now ≡ spec.cause_name cause }
{
    match cause {
        DropCause::Short => "short",
        DropCause::DataV1 => "data-v1",
        DropCause::NoPeer => "no-peer",
        DropCause::NoKey => "no-key",
        DropCause::BadTag => "bad-tag",
        DropCause::Zero => "zero",
        DropCause::Old => "old",
        DropCause::Below => "below",
        DropCause::Again => "again",
        DropCause::NotIp => "not-ip",
        DropCause::NotOwner => "not-owner",
        DropCause::Spent => "spent",
    }
}

/// Puts the cause why something was dropped.
fn append_dropped(page: &mut Vec<u8>, cause: DropCause) -> Result<(), Memory>
    ensures { OnOk result
        (page.new.items ≡ page.old.items ++ spec.given_text (answer.Dropped cause)) }
{
    append_word(page, b"{\"dropped\":\"", cause_name(cause))?;
    append(page, b"\"}")?;
    Ok(())
}

/// Puts what became of a tick: the serials of the removed peers, and each ping with its outcome.
fn append_ticked(page: &mut Vec<u8>, expired: &[u32], pings: &[PingOut]) -> Result<(), Memory>
    ensures { OnOk result (page.new.items
        ≡ page.old.items ++ spec.given_text (answer.Ticked expired.now pings.now)) }
{
    append(page, b"{\"expired\":[")?;
    append_items(page, expired)?;
    append(page, b",\"pings\":[")?;
    append_items(page, pings)?;
    append(page, b"}")?;
    Ok(())
}

/// Puts an answer.
fn append_given(page: &mut Vec<u8>, answer: &Answer) -> Result<(), Memory>
    ensures { OnOk result (page.new.items ≡ page.old.items ++ spec.given_text answer.now) }
{
    match answer {
        Answer::Reply(reply) => append_reply(page, reply),
        Answer::Sealed(sealed) => append_sealed(page, sealed),
        Answer::Delivered { peer, packet } => append_delivered(page, *peer, packet.as_slice()),
        Answer::Keepalive(peer) => append_closed(page, b"{\"keepalive\":", peer.get() as u64, b"}"),
        Answer::Control => append(page, b"{\"passed\":\"control\"}"),
        Answer::Dropped(cause) => append_dropped(page, *cause),
        Answer::Ticked { expired, pings } => append_ticked(
            page,
            expired.as_slice(),
            pings.as_slice(),
        ),
    }
}

/// Puts the line of the answer of a lane's line; both are numbered from 0.
pub(crate) fn append_answer(
    page: &mut Vec<u8>,
    lane: u64,
    line: u64,
    answer: &Answer,
) -> Result<(), Memory>
    ensures { OnOk result
        (page.new.items ≡ page.old.items ++ spec.answer_text lane line answer.now) }
{
    append(page, b"{\"answer\":")?;
    append_given(page, answer)?;
    append_number(page, b",\"lane\":", lane)?;
    append_closed(page, b",\"line\":", line, b"}\n")?;
    Ok(())
}

/// The line of the answer of a lane's line; both are numbered from 0.
pub fn answer_line(alloc: Global, lane: u32, line: u64, answer: &Answer) -> Result<Octets, Memory>
    ensures text { IfOk result (λ text. text ≡ spec.answer_text lane line answer.now) }
{
    let mut page = Vec::new(alloc);
    append_answer(&mut page, lane as u64, line, answer)?;
    Ok(Octets::of_vec(page))
}
