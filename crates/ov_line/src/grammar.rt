//! Which line a JSON value is: each rule of the grammar is a function that gives its part, or why there is
//! none.

ghost use Rattle.std.specs.Prelude.{◌≡◌, Some, IsTrue, codes};
ghost use Rattle.serde_json.specs.View.{view};
ghost use Rattle.ov_line.specs.Values.{Has, IsWord, has_only};
ghost use Rattle.ov_line.specs.Grammar as spec;
ghost use Rattle.ov_line.specs.Forms as forms;
ghost use Rattle.ov_line.specs.Forms.{form_word, deed_form};
ghost use Rattle.ov_line.specs.Outcome.{Finds, Passes, Reads};

use crate::keyconf::conf_at;
use crate::line::LineStop;
use crate::member::{needed, number_at, only, text_of};
use crate::packets::{loss_of, packet_of, receipt_of};
use crate::peer::peer_at;
use crate::why::{Name, Why};
use ov_base::Boxed;
use ov_model::{Deed, Line, NlMessage, NlOp};
use serde_json::Value;
use std::alloc::Global;

/// The forms of lines, which the word under `do` tells apart.
#[derive(Clone, Copy, Debug, PartialEq, Eq)]
pub enum Form {
    /// A message of the netlink family.
    Netlink(NlOp),
    /// An inner packet is sent.
    Tx,
    /// A datagram is received.
    Rx,
    /// A peer's transport is lost.
    Lost,
    /// The clock is looked at.
    Tick,
    /// The device goes down.
    Down,
}

/// Nothing, where the line has no names but those of its operation.
fn only_names(op: NlOp, value: &Value) -> Result<(), Why>
    ensures { Passes (IsTrue (has_only (spec.message_names op) (view value.now))) result }
{
    match op {
        NlOp::PeerNew | NlOp::PeerSet | NlOp::PeerGet | NlOp::PeerDel => {
            only(value, "line", &["at", "do", "ifindex", "lane", "peer"])
        }
        NlOp::PeerDump => only(value, "line", &["at", "do", "ifindex", "lane"]),
        NlOp::KeyNew | NlOp::KeyGet | NlOp::KeySwap | NlOp::KeyDel => {
            only(value, "line", &["at", "do", "ifindex", "keyconf", "lane"])
        }
    }
}

/// The message of a line that asks for an operation.
fn message_of(alloc: Global, op: NlOp, value: &Value) -> Result<NlMessage, LineStop>
    ensures { Reads (λ m. (m.op ≡ op) × spec.IsMessage (view value.now) m) result }
{
    only_names(op, value)?;
    let ifindex = number_at(value, "ifindex", u32::MAX)?;
    let peer = peer_at(op, value)?;
    let keyconf = conf_at(alloc, op, value)?;
    Ok(NlMessage {
        op,
        ifindex,
        peer,
        keyconf,
    })
}

/// The form that a word names.
fn form_of(word: &str) -> Option<Form>
    ensures { result ≡ forms.form_of word.now }
{
    match word {
        "peer-new" => Some(Form::Netlink(NlOp::PeerNew)),
        "peer-set" => Some(Form::Netlink(NlOp::PeerSet)),
        "peer-get" => Some(Form::Netlink(NlOp::PeerGet)),
        "peer-dump" => Some(Form::Netlink(NlOp::PeerDump)),
        "peer-del" => Some(Form::Netlink(NlOp::PeerDel)),
        "key-new" => Some(Form::Netlink(NlOp::KeyNew)),
        "key-get" => Some(Form::Netlink(NlOp::KeyGet)),
        "key-swap" => Some(Form::Netlink(NlOp::KeySwap)),
        "key-del" => Some(Form::Netlink(NlOp::KeyDel)),
        "tx" => Some(Form::Tx),
        "rx" => Some(Form::Rx),
        "lost" => Some(Form::Lost),
        "tick" => Some(Form::Tick),
        "down" => Some(Form::Down),
        _ => None,
    }
}

/// Nothing, where the line has no names but the three that every line has.
fn bare(value: &Value) -> Result<(), Why>
    ensures { Passes (spec.IsBare (view value.now)) result }
{
    only(value, "line", &["at", "do", "lane"])
}

/// The form of a line.
fn form_at(value: &Value) -> Result<Form, Why>
    ensures { Finds (λ form. Has (IsWord form_word) (codes "do") (view value.now) (Some form)) result }
{
    let Some(found) = value.get("do") else {
        return Err(Why::Missing(Name::of("do")));
    };
    let word = text_of(found, "do")?;
    match form_of(word) {
        Some(form) => Ok(form),
        None => Err(Why::Range(Name::of("do"))),
    }
}

/// What a line of a form asks for.
fn deed_with(alloc: Global, form: Form, value: &Value) -> Result<Deed, LineStop>
    ensures { Reads (λ deed. (deed_form deed ≡ form) × spec.IsDeed (view value.now) deed) result }
{
    match form {
        Form::Netlink(op) => {
            let message = message_of(alloc, op, value)?;
            Ok(Deed::Netlink(Boxed::new(alloc, message)?))
        }
        Form::Tx => Ok(Deed::Tx(packet_of(alloc, value)?)),
        Form::Rx => {
            let (from, datagram) = receipt_of(alloc, value)?;
            Ok(Deed::Rx { from, datagram })
        }
        Form::Lost => {
            let (id, reason) = loss_of(value)?;
            Ok(Deed::Lost { id, reason })
        }
        Form::Tick => {
            bare(value)?;
            Ok(Deed::Tick)
        }
        Form::Down => {
            bare(value)?;
            Ok(Deed::Down)
        }
    }
}

/// What a line asks for, by its word and its other names.
fn deed_of(alloc: Global, value: &Value) -> Result<Deed, LineStop>
    ensures { Reads (λ deed. Has (IsWord spec.deed_word) (codes "do") (view value.now) (Some deed)
        × spec.IsDeed (view value.now) deed) result }
{
    let form = form_at(value)?;
    let deed = deed_with(alloc, form, value)?;
    Ok(deed)
}

/// The line that the value is, on one of `lanes` lanes. `Bad` comes exactly where it is outside the grammar.
pub fn line_of(alloc: Global, value: &Value, lanes: u32) -> Result<Line, LineStop>
    ensures { Reads (spec.IsLine lanes (view value.now)) result }
{
    if !value.is_object() {
        return Err(LineStop::Bad(Why::Object));
    }
    let at = needed(number_at(value, "at", u32::MAX)?, "at")?;
    let lane = needed(number_at(value, "lane", u32::MAX)?, "lane")?;
    if lane >= lanes {
        return Err(LineStop::Bad(Why::Range(Name::of("lane"))));
    }
    let deed = deed_of(alloc, value)?;
    Ok(Line { lane, at, deed })
}
