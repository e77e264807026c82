//! Lines that make a key, by their compact text.

ghost use Rattle.std.specs.Prelude.{◌≡◌, ◌++◌, IfOk, IfSome};
ghost use Rattle.hex.specs.Hex.{decode_of};
ghost use Rattle.ov_model.specs.declared.line.Line.{Line};
ghost use Rattle.ov_line.specs.Compact as spec;
ghost use Rattle.ov_line.specs.Grammar.{Says};

use crate::digits::bytes_of;
use crate::keyconf::MOST_KEY_BYTES;
use crate::parts::{after, before, number, until_quote};
use ov_base::{Boxed, Memory};
use ov_model::{Cipher, Deed, Line, NlKeyConf, NlKeyDir, NlMessage, NlOp, Slot};
use std::alloc::Global;

/// One direction of a key, as digits.
#[derive(Clone, Copy)]
struct Digits<'a> {
    key: &'a [u8],
    tail: &'a [u8],
}

/// What the text of such a line has in its places: the direction that decrypts and the one that encrypts.
#[derive(Clone, Copy)]
struct Parts<'a> {
    at: u32,
    opening: Digits<'a>,
    sealing: Digits<'a>,
    key_id: u32,
    peer: u32,
    lane: u32,
}

/// The direction that a text begins with, and what follows it.
fn direction(text: &[u8]) -> Option<(Digits, &[u8])>
    ensures { IfSome result (λ p. text.now ≡ spec.dir_text p.0.key.now p.0.tail.now ++ p.1.now) }
{
    let (key, rest) = until_quote(after(text, b"{\"cipher-key\":\"")?)?;
    let (tail, rest) = until_quote(after(rest, b"\",\"nonce-tail\":\"")?)?;
    Some((Digits { key, tail }, after(rest, b"\"}")?))
}

/// The parts of such a line.
fn key_parts(line: &[u8]) -> Option<Parts>
    ensures { IfSome result (λ p. line.now ≡ spec.key_text p.at p.opening.key.now p.opening.tail.now
        p.sealing.key.now p.sealing.tail.now p.key_id p.peer p.lane) }
{
    let (at, rest) = number(after(line, b"{\"at\":")?)?;
    let front = b",\"do\":\"key-new\",\"keyconf\":{\"cipher-alg\":\"aes-gcm\",\"decrypt-dir\":";
    let (opening, rest) = direction(after(rest, front)?)?;
    let (sealing, rest) = direction(after(rest, b",\"encrypt-dir\":")?)?;
    let (key_id, rest) = number(after(rest, b",\"key-id\":")?)?;
    let (peer, rest) = number(after(rest, b",\"peer-id\":")?)?;
    let (lane, rest) = number(after(rest, b",\"slot\":\"primary\"},\"lane\":")?)?;
    if rest != b"}".as_slice() {
        return None;
    }
    Some(Parts {
        at,
        opening,
        sealing,
        key_id,
        peer,
        lane,
    })
}

/// The bytes of a direction; `None` where its digits are of none, or of more than a line may give.
fn dir_of(alloc: Global, key: &[u8], tail: &[u8]) -> Result<Option<NlKeyDir>, Memory>
    ensures { IfOk result (λ found. IfSome found (λ dir. spec.IsDirText key.now tail.now dir)) }
{
    let Some(key) = bytes_of(alloc, key)? else {
        return Ok(None);
    };
    let Some(tail) = bytes_of(alloc, tail)? else {
        return Ok(None);
    };
    if key.len() > MOST_KEY_BYTES || tail.len() > MOST_KEY_BYTES {
        return Ok(None);
    }
    Ok(Some(NlKeyDir {
        cipher_key: Some(key),
        nonce_tail: Some(tail),
    }))
}

/// The line that makes a key, where the bytes are its compact text.
pub fn key_line(alloc: Global, line: &[u8], lanes: u32) -> Result<Option<Line>, Memory>
    ensures { IfOk result (λ found. IfSome found (λ read. Says line.now lanes read)) }
{
    let Some(parts) = key_parts(line) else {
        return Ok(None);
    };
    if parts.lane >= lanes {
        return Ok(None);
    }
    let Some(encrypt) = dir_of(alloc, parts.sealing.key, parts.sealing.tail)? else {
        return Ok(None);
    };
    let Some(decrypt) = dir_of(alloc, parts.opening.key, parts.opening.tail)? else {
        return Ok(None);
    };
    let conf = NlKeyConf {
        peer_id: Some(parts.peer),
        slot: Some(Slot::Primary),
        key_id: Some(parts.key_id),
        cipher: Some(Cipher::AesGcm),
        encrypt: Some(encrypt),
        decrypt: Some(decrypt),
    };
    let message = NlMessage {
        op: NlOp::KeyNew,
        ifindex: None,
        peer: None,
        keyconf: Some(conf),
    };
    Ok(Some(Line {
        lane: parts.lane,
        at: parts.at,
        deed: Deed::Netlink(Boxed::new(alloc, message)?),
    }))
}
