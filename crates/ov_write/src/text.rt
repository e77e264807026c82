//! The canonical text of a line.

ghost use Rattle.std.specs.Prelude.{◌≡◌, ◌++◌, ◌∷◌, ℕ, false, true, Some, IfOk, OnOk, codes};
ghost use Rattle.serde_json.specs.Data.{string};
ghost use Rattle.serde_json.specs.Written.{members_text};
ghost use Rattle.json.specs.Print.{escape};
ghost use Rattle.ov_line.specs.Grammar.{Says, op_word};
ghost use Rattle.ov_write.specs.Listed.{IsListed};
ghost use Rattle.ov_write.specs.Text as spec;

use crate::member::{put_hex, put_number, put_some_number, put_text};
use crate::object::{put_conf, put_from, put_lost, put_peer};
use ov_base::{Memory, Octets, Transport};
use ov_model::{Deed, Line, NlMessage, NlOp, PeerId, Reason};
use std::alloc::Global;

/// An operation's word.
fn op_text(op: NlOp) -> &'static str
    ensures { result.now ≡ op_word op }
{
    match op {
        NlOp::PeerNew => "peer-new",
        NlOp::PeerSet => "peer-set",
        NlOp::PeerGet => "peer-get",
        NlOp::PeerDump => "peer-dump",
        NlOp::PeerDel => "peer-del",
        NlOp::KeyNew => "key-new",
        NlOp::KeyGet => "key-get",
        NlOp::KeySwap => "key-swap",
        NlOp::KeyDel => "key-del",
    }
}

/// A line that asks for an operation, from behind its brace on.
fn put_message(
    alloc: Global,
    page: &mut Vec<u8>,
    at: u32,
    lane: u32,
    message: &NlMessage,
) -> Result<(), Memory>
    ensures { OnOk result (page.new.items ≡ page.old.items
        ++ members_text false (spec.line_members at lane (Deed.Netlink message.now))) }
{
    put_some_number(page, false, "at", at)?;
    put_text(page, true, "do", op_text(message.op))?;
    let later = put_number(page, true, "ifindex", message.ifindex)?;
    let later = put_conf(alloc, page, later, &message.keyconf)?;
    put_some_number(page, later, "lane", lane)?;
    let _later = put_peer(alloc, page, true, &message.peer)?;
    page.extend_from_slice(b"}")?;
    Ok(())
}

/// A line that sends an inner packet, from behind its brace on.
fn put_tx(
    alloc: Global,
    page: &mut Vec<u8>,
    at: u32,
    lane: u32,
    packet: &Octets,
) -> Result<(), Memory>
    ensures { OnOk result (page.new.items ≡ page.old.items
        ++ members_text false (spec.line_members at lane (Deed.Tx packet.now))) }
{
    put_some_number(page, false, "at", at)?;
    put_text(page, true, "do", "tx")?;
    put_some_number(page, true, "lane", lane)?;
    put_hex(alloc, page, true, "packet", packet.as_slice())?;
    page.extend_from_slice(b"}")?;
    Ok(())
}

/// A line by which a datagram comes, from behind its brace on.
fn put_rx(
    alloc: Global,
    page: &mut Vec<u8>,
    at: u32,
    lane: u32,
    from: &Transport,
    datagram: &Octets,
) -> Result<(), Memory>
    ensures { OnOk result (page.new.items ≡ page.old.items
        ++ members_text false (spec.line_members at lane (Deed.Rx from.now datagram.now))) }
{
    put_some_number(page, false, "at", at)?;
    put_hex(alloc, page, true, "datagram", datagram.as_slice())?;
    put_text(page, true, "do", "rx")?;
    put_from(alloc, page, from)?;
    put_some_number(page, true, "lane", lane)?;
    page.extend_from_slice(b"}")?;
    Ok(())
}

/// A line by which a peer's transport is lost, from behind its brace on.
fn put_loss(
    page: &mut Vec<u8>,
    at: u32,
    lane: u32,
    id: PeerId,
    reason: Reason,
) -> Result<(), Memory>
    ensures { OnOk result (page.new.items ≡ page.old.items
        ++ members_text false (spec.line_members at lane (Deed.Lost id reason))) }
{
    put_some_number(page, false, "at", at)?;
    put_text(page, true, "do", "lost")?;
    put_some_number(page, true, "lane", lane)?;
    put_lost(page, id, reason)?;
    page.extend_from_slice(b"}")?;
    Ok(())
}

/// A line of a word to which no further names belong, from behind its brace on.
fn put_bare(page: &mut Vec<u8>, at: u32, lane: u32, word: &str) -> Result<(), Memory>
    ensures { OnOk result (escape word.now ≡ word.now → page.new.items ≡ page.old.items
        ++ members_text false (spec.given (spec.bare_fields at lane word.now))) }
{
    put_some_number(page, false, "at", at)?;
    put_text(page, true, "do", word)?;
    put_some_number(page, true, "lane", lane)?;
    page.extend_from_slice(b"}")?;
    Ok(())
}

/// What a line asks for with its moment and its lane, from behind the brace on.
fn put_deed(alloc: Global, page: &mut Vec<u8>, line: &Line) -> Result<(), Memory>
    ensures { OnOk result (page.new.items ≡ page.old.items
        ++ members_text false (spec.line_members line.now.at line.now.lane line.now.deed)) }
{
    match &line.deed {
        Deed::Netlink(message) => put_message(alloc, page, line.at, line.lane, message.get())?,
        Deed::Tx(packet) => put_tx(alloc, page, line.at, line.lane, packet)?,
        Deed::Rx { from, datagram } => put_rx(alloc, page, line.at, line.lane, from, datagram)?,
        Deed::Lost { id, reason } => put_loss(page, line.at, line.lane, *id, *reason)?,
        Deed::Tick => put_bare(page, line.at, line.lane, "tick")?,
        Deed::Down => put_bare(page, line.at, line.lane, "down")?,
    }
    Ok(())
}

/// How many bytes a page has from the start, which most lines fit into.
const ROOM: usize = 256;

/// The canonical text of a line. Where each name that has a value is one that the grammar lists for the
/// line's word, and the values are in its ranges, the text says the line.
#[tactic(auto, unfolding(crate::specs::Text::line_text))]
pub fn line_bytes(alloc: Global, line: &Line) -> Result<Octets, Memory>
    ensures text { IfOk result (λ bytes. bytes ≡ spec.line_text line.now) }
    ensures reads { IfOk result (λ bytes. (lanes : ℕ) → IsListed lanes line.now
        → Says bytes lanes line.now) }
{
    let mut page = Vec::with_capacity(alloc, ROOM)?;
    page.extend_from_slice(b"{")?;
    put_deed(alloc, &mut page, line)?;
    Ok(Octets::of_vec(page))
}
