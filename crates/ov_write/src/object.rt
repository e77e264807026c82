//! The objects of a line's text: the attributes of a peer and of a key, a transport, a loss.

ghost use Rattle.std.specs.Prelude.{◌≡◌, ◌++◌, false, true, Some, IfOk, OnOk, codes, option_map};
ghost use Rattle.serde_json.specs.Data.{string};
ghost use Rattle.serde_json.specs.Written.{members_text};
ghost use Rattle.json.specs.Print.{escape};
ghost use Rattle.ov_line.specs.Grammar.{cipher_word, slot_word};
ghost use Rattle.ov_write.specs.Text as spec;

use crate::member::{
    put_dotted, put_hex, put_ipv4, put_ipv6, put_name, put_number, put_octets, put_some_number,
    put_text,
};
use ov_base::{Addr, Memory, Transport};
use ov_model::{Cipher, NlKeyConf, NlKeyDir, NlPeer, PeerId, Reason, Slot};
use std::alloc::Global;

/// The attributes of a peer, with the brace behind them.
fn put_attributes(alloc: Global, page: &mut Vec<u8>, peer: &NlPeer) -> Result<(), Memory>
    ensures { OnOk result (page.new.items ≡ page.old.items ++ members_text false (spec.peer_members peer.now)) }
{
    let later = put_number(page, false, "id", peer.id)?;
    let later = put_number(page, later, "keepalive-interval", peer.keepalive_interval)?;
    let later = put_number(page, later, "keepalive-timeout", peer.keepalive_timeout)?;
    let later = put_ipv4(alloc, page, later, "local-ipv4", peer.local_ipv4)?;
    let later = put_ipv6(alloc, page, later, "local-ipv6", peer.local_ipv6)?;
    let later = put_number(page, later, "local-port", peer.local_port)?;
    let later = put_ipv4(alloc, page, later, "remote-ipv4", peer.remote_ipv4)?;
    let later = put_ipv6(alloc, page, later, "remote-ipv6", peer.remote_ipv6)?;
    let later = put_number(
        page,
        later,
        "remote-ipv6-scope-id",
        peer.remote_ipv6_scope_id,
    )?;
    let later = put_number(page, later, "remote-port", peer.remote_port)?;
    let later = put_number(page, later, "socket", peer.socket)?;
    let later = put_number(page, later, "socket-netnsid", peer.socket_netnsid)?;
    let later = put_ipv4(alloc, page, later, "vpn-ipv4", peer.vpn_ipv4)?;
    let _later = put_ipv6(alloc, page, later, "vpn-ipv6", peer.vpn_ipv6)?;
    page.extend_from_slice(b"}")?;
    Ok(())
}

/// Puts the attributes of a peer, where a line gives them.
pub(crate) fn put_peer(
    alloc: Global,
    page: &mut Vec<u8>,
    later: bool,
    peer: &Option<NlPeer>,
) -> Result<bool, Memory>
    ensures { IfOk result (λ now. spec.Puts page.old.items page.new.items later now (codes "peer") (option_map spec.peer_data peer.now)) }
{
    let Some(peer) = peer else {
        return Ok(later);
    };
    put_name(page, later, "peer")?;
    page.extend_from_slice(b"{")?;
    put_attributes(alloc, page, peer)?;
    Ok(true)
}

/// One direction of a key, with the brace behind it.
fn put_parts(alloc: Global, page: &mut Vec<u8>, dir: &NlKeyDir) -> Result<(), Memory>
    ensures { OnOk result (page.new.items ≡ page.old.items ++ members_text false (spec.dir_members dir.now)) }
{
    let later = put_octets(alloc, page, false, "cipher-key", &dir.cipher_key)?;
    let _later = put_octets(alloc, page, later, "nonce-tail", &dir.nonce_tail)?;
    page.extend_from_slice(b"}")?;
    Ok(())
}

/// Puts one direction of a key, where a line gives it.
fn put_dir(
    alloc: Global,
    page: &mut Vec<u8>,
    later: bool,
    name: &str,
    dir: &Option<NlKeyDir>,
) -> Result<bool, Memory>
    ensures { IfOk result (λ now. escape name.now ≡ name.now → spec.Puts page.old.items page.new.items later now name.now (option_map spec.dir_data dir.now)) }
{
    let Some(dir) = dir else {
        return Ok(later);
    };
    put_name(page, later, name)?;
    page.extend_from_slice(b"{")?;
    put_parts(alloc, page, dir)?;
    Ok(true)
}

/// Puts the cipher's word, where a line gives it.
fn put_cipher(page: &mut Vec<u8>, later: bool, cipher: Option<Cipher>) -> Result<bool, Memory>
    ensures { IfOk result (λ now. spec.Puts page.old.items page.new.items later now
        (codes "cipher-alg") (option_map (λ c. string (cipher_word c)) cipher)) }
{
    let Some(cipher) = cipher else {
        return Ok(later);
    };
    put_text(page, later, "cipher-alg", cipher_text(cipher))?;
    Ok(true)
}

/// A cipher's word.
fn cipher_text(cipher: Cipher) -> &'static str
    ensures { result.now ≡ cipher_word cipher }
{
    match cipher {
        Cipher::NoCipher => "none",
        Cipher::AesGcm => "aes-gcm",
        Cipher::ChaCha20Poly1305 => "chacha20-poly1305",
    }
}

/// Puts the slot's word, where a line gives it.
fn put_slot(page: &mut Vec<u8>, later: bool, slot: Option<Slot>) -> Result<bool, Memory>
    ensures { IfOk result (λ now. spec.Puts page.old.items page.new.items later now
        (codes "slot") (option_map (λ s. string (slot_word s)) slot)) }
{
    let Some(slot) = slot else {
        return Ok(later);
    };
    put_text(page, later, "slot", slot_text(slot))?;
    Ok(true)
}

/// A slot's word.
fn slot_text(slot: Slot) -> &'static str
    ensures { result.now ≡ slot_word slot }
{
    match slot {
        Slot::Primary => "primary",
        Slot::Secondary => "secondary",
    }
}

/// The attributes of a key, with the brace behind them.
fn put_settings(alloc: Global, page: &mut Vec<u8>, conf: &NlKeyConf) -> Result<(), Memory>
    ensures { OnOk result (page.new.items ≡ page.old.items ++ members_text false (spec.conf_members conf.now)) }
{
    let later = put_cipher(page, false, conf.cipher)?;
    let later = put_dir(alloc, page, later, "decrypt-dir", &conf.decrypt)?;
    let later = put_dir(alloc, page, later, "encrypt-dir", &conf.encrypt)?;
    let later = put_number(page, later, "key-id", conf.key_id)?;
    let later = put_number(page, later, "peer-id", conf.peer_id)?;
    let _later = put_slot(page, later, conf.slot)?;
    page.extend_from_slice(b"}")?;
    Ok(())
}

/// Puts the attributes of a key, where a line gives them.
pub(crate) fn put_conf(
    alloc: Global,
    page: &mut Vec<u8>,
    later: bool,
    conf: &Option<NlKeyConf>,
) -> Result<bool, Memory>
    ensures { IfOk result (λ now. spec.Puts page.old.items page.new.items later now (codes "keyconf") (option_map spec.conf_data conf.now)) }
{
    let Some(conf) = conf else {
        return Ok(later);
    };
    put_name(page, later, "keyconf")?;
    page.extend_from_slice(b"{")?;
    put_settings(alloc, page, conf)?;
    Ok(true)
}

/// Puts an address under `addr`.
fn put_addr(alloc: Global, page: &mut Vec<u8>, addr: &Addr) -> Result<(), Memory>
    ensures { OnOk result (spec.Puts page.old.items page.new.items false true (codes "addr") (Some (string (spec.addr_text addr.now)))) }
{
    match addr {
        Addr::V4(octets) => put_dotted(alloc, page, false, "addr", octets)?,
        Addr::V6(octets) => put_hex(alloc, page, false, "addr", octets)?,
    }
    Ok(())
}

/// Puts a transport under `from`.
pub(crate) fn put_from(alloc: Global, page: &mut Vec<u8>, from: &Transport) -> Result<(), Memory>
    ensures { OnOk result (spec.Puts page.old.items page.new.items true true (codes "from") (Some (spec.from_data from.now))) }
{
    put_name(page, true, "from")?;
    page.extend_from_slice(b"{")?;
    put_addr(alloc, page, &from.addr)?;
    put_some_number(page, true, "port", u32::from(from.port))?;
    page.extend_from_slice(b"}")?;
    Ok(())
}

/// A reason's word.
fn reason_text(reason: Reason) -> &'static str
    ensures { result.now ≡ spec.reason_word reason }
{
    match reason {
        Reason::Teardown => "teardown",
        Reason::Userspace => "userspace",
        Reason::Expired => "expired",
        Reason::TransportError => "transport-error",
        Reason::TransportDisconnect => "transport-disconnect",
    }
}

/// Puts a lost peer under `peer`.
pub(crate) fn put_lost(page: &mut Vec<u8>, id: PeerId, reason: Reason) -> Result<(), Memory>
    ensures { OnOk result (spec.Puts page.old.items page.new.items true true (codes "peer") (Some (spec.lost_data id reason))) }
{
    put_name(page, true, "peer")?;
    page.extend_from_slice(b"{")?;
    put_text(page, false, "del-reason", reason_text(reason))?;
    put_some_number(page, true, "id", id.get())?;
    page.extend_from_slice(b"}")?;
    Ok(())
}
