//! The object `keyconf` of the operations on keys.

ghost use Rattle.std.specs.Prelude.{codes, map};
ghost use Rattle.serde_json.specs.View.{view};
ghost use Rattle.ov_line.specs.Values.{Has, IsWord};
ghost use Rattle.ov_line.specs.Grammar as spec;
ghost use Rattle.ov_line.specs.Outcome.{Finds, Reads};

use crate::line::LineStop;
use crate::member::{hex_at, number_at, only, text_of};
use crate::why::{Name, Why};
use ov_model::{Cipher, NlKeyConf, NlKeyDir, NlOp, Slot};
use serde_json::Value;
use std::alloc::Global;

/// The most bytes of a key or of a nonce's tail that a line may give.
pub const MOST_KEY_BYTES: usize = 256;

/// One direction of a key.
fn dir_of(alloc: Global, value: &Value, name: &str) -> Result<NlKeyDir, LineStop>
    ensures { Reads (spec.IsDir (view value.now)) result }
{
    only(value, name, &["cipher-key", "nonce-tail"])?;
    let cipher_key = hex_at(alloc, value, "cipher-key", MOST_KEY_BYTES)?;
    let nonce_tail = hex_at(alloc, value, "nonce-tail", MOST_KEY_BYTES)?;
    Ok(NlKeyDir {
        cipher_key,
        nonce_tail,
    })
}

/// The direction under a name, where there is one.
fn dir_at(alloc: Global, value: &Value, name: &str) -> Result<Option<NlKeyDir>, LineStop>
    ensures { Reads (Has spec.IsDir name.now (view value.now)) result }
{
    match value.get(name) {
        Some(found) => Ok(Some(dir_of(alloc, found, name)?)),
        None => Ok(None),
    }
}

/// The slot that the value is the word for.
fn slot_of(value: &Value) -> Result<Slot, Why>
    ensures { Finds (IsWord spec.slot_word (view value.now)) result }
{
    match text_of(value, "slot")? {
        "primary" => Ok(Slot::Primary),
        "secondary" => Ok(Slot::Secondary),
        _ => Err(Why::Range(Name::of("slot"))),
    }
}

/// The slot, where there is one.
fn slot_at(value: &Value) -> Result<Option<Slot>, Why>
    ensures { Finds (Has (IsWord spec.slot_word) (codes "slot") (view value.now)) result }
{
    match value.get("slot") {
        Some(found) => Ok(Some(slot_of(found)?)),
        None => Ok(None),
    }
}

/// The cipher that the value is the word for.
fn cipher_of(value: &Value) -> Result<Cipher, Why>
    ensures { Finds (IsWord spec.cipher_word (view value.now)) result }
{
    match text_of(value, "cipher-alg")? {
        "none" => Ok(Cipher::NoCipher),
        "aes-gcm" => Ok(Cipher::AesGcm),
        "chacha20-poly1305" => Ok(Cipher::ChaCha20Poly1305),
        _ => Err(Why::Range(Name::of("cipher-alg"))),
    }
}

/// The cipher, where there is one.
fn cipher_at(value: &Value) -> Result<Option<Cipher>, Why>
    ensures { Finds (Has (IsWord spec.cipher_word) (codes "cipher-alg") (view value.now)) result }
{
    match value.get("cipher-alg") {
        Some(found) => Ok(Some(cipher_of(found)?)),
        None => Ok(None),
    }
}

/// The attributes of a key, where no names but these stand there.
fn attributes(alloc: Global, value: &Value, names: &[&str]) -> Result<NlKeyConf, LineStop>
    ensures { Reads (spec.IsConf (map (λ n. n.now) names.now) (view value.now)) result }
{
    only(value, "keyconf", names)?;
    let peer_id = number_at(value, "peer-id", u32::MAX)?;
    let slot = slot_at(value)?;
    let key_id = number_at(value, "key-id", u32::MAX)?;
    let cipher = cipher_at(value)?;
    let encrypt = dir_at(alloc, value, "encrypt-dir")?;
    let decrypt = dir_at(alloc, value, "decrypt-dir")?;
    Ok(NlKeyConf {
        peer_id,
        slot,
        key_id,
        cipher,
        encrypt,
        decrypt,
    })
}

/// The attributes of a key, by the names that an operation has for it.
fn conf_of(alloc: Global, op: NlOp, value: &Value) -> Result<NlKeyConf, LineStop>
    ensures { Reads (spec.IsConf (spec.conf_names op) (view value.now)) result }
{
    match op {
        NlOp::KeyNew => attributes(
            alloc,
            value,
            &[
                "cipher-alg",
                "decrypt-dir",
                "encrypt-dir",
                "key-id",
                "peer-id",
                "slot",
            ],
        ),
        NlOp::KeyGet | NlOp::KeyDel => attributes(alloc, value, &["peer-id", "slot"]),
        NlOp::KeySwap => attributes(alloc, value, &["peer-id"]),
        _ => attributes(alloc, value, &[]),
    }
}

/// The key that a line asks an operation of, where it gives one.
pub fn conf_at(alloc: Global, op: NlOp, value: &Value) -> Result<Option<NlKeyConf>, LineStop>
    ensures { Reads (Has (spec.IsConf (spec.conf_names op)) (codes "keyconf") (view value.now)) result }
{
    match value.get("keyconf") {
        Some(found) => Ok(Some(conf_of(alloc, op, found)?)),
        None => Ok(None),
    }
}
