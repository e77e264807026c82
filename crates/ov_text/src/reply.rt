//! The text of a reply: what an entry of the journal says of a call, and what a netlink line is answered.

ghost use Rattle.std.specs.Prelude.{◌≡◌, ◌++◌, OnOk};
ghost use Rattle.ov_model.specs.declared.reply.Reply.TheVariants as reply;
ghost use Rattle.ov_text.specs.Replies as spec;

use crate::items::append_items;
use crate::pieces::{append, append_closed, append_number, append_word};
use crate::view::append_view;
use ov_base::Memory;
use ov_model::{Cipher, Errno, HoldView, KeyView, PeerView, Reply, Settled, Slot};

/// Linux's number of an error.
fn errno_number(errno: Errno) -> u64
    ensures { result ≡ spec.errno_number errno }
{
    match errno {
        Errno::NoEntry => 2,
        Errno::Exists => 17,
        Errno::Invalid => 22,
        Errno::NoSpace => 28,
        Errno::NotSupported => 95,
    }
}

/// Puts what peer-get shows of a peer.
fn append_peer(page: &mut Vec<u8>, peer: &PeerView) -> Result<(), Memory>
    ensures { OnOk result
        (page.new.items ≡ page.old.items ++ spec.reply_text (reply.Peer peer.now)) }
{
    append(page, b"{\"peer\":")?;
    append_view(page, peer)?;
    append(page, b"}")?;
    Ok(())
}

/// Puts what peer-get shows of each of some peers.
fn append_peers(page: &mut Vec<u8>, peers: &[PeerView]) -> Result<(), Memory>
    ensures { OnOk result
        (page.new.items ≡ page.old.items ++ spec.reply_text (reply.Peers peers.now)) }
{
    append(page, b"{\"peers\":[")?;
    append_items(page, peers)?;
    append(page, b"}")?;
    Ok(())
}

/// The word of a slot.
fn slot_name(slot: Slot) -> &'static str
    ensures { result.now ≡ spec.slot_name slot }
{
    match slot {
        Slot::Primary => "primary",
        Slot::Secondary => "secondary",
    }
}

/// The word of a cipher.
fn cipher_name(cipher: Cipher) -> &'static str
    ensures { result.now ≡ spec.cipher_name cipher }
{
    match cipher {
        Cipher::NoCipher => "none",
        Cipher::AesGcm => "aes-gcm",
        Cipher::ChaCha20Poly1305 => "chacha20-poly1305",
    }
}

/// Puts what key-get shows of a key.
fn append_key(page: &mut Vec<u8>, key: &KeyView) -> Result<(), Memory>
    ensures { OnOk result
        (page.new.items ≡ page.old.items ++ spec.reply_text (reply.Key key.now)) }
{
    append_word(
        page,
        b"{\"key\":{\"cipher-alg\":\"",
        cipher_name(key.cipher),
    )?;
    append_number(page, b"\",\"key-id\":", key.key_id.get() as u64)?;
    append_number(page, b",\"peer-id\":", key.peer.get() as u64)?;
    append_word(page, b",\"slot\":\"", slot_name(key.slot))?;
    append(page, b"\"}}")?;
    Ok(())
}

/// Puts the serials of removed peers.
fn append_removed(page: &mut Vec<u8>, serials: &[u32]) -> Result<(), Memory>
    ensures { OnOk result
        (page.new.items ≡ page.old.items ++ spec.reply_text (reply.Removed serials.now)) }
{
    append(page, b"{\"removed\":[")?;
    append_items(page, serials)?;
    append(page, b"}")?;
    Ok(())
}

/// Puts what a tick found: the serials of the peers that are due a ping, and of those that it removed.
fn append_ticked(page: &mut Vec<u8>, expired: &[u32], due: &[u32]) -> Result<(), Memory>
    ensures { OnOk result
        (page.new.items ≡ page.old.items ++ spec.reply_text (reply.Ticked expired.now due.now)) }
{
    append(page, b"{\"due\":[")?;
    append_items(page, due)?;
    append(page, b",\"expired\":[")?;
    append_items(page, expired)?;
    append(page, b"}")?;
    Ok(())
}

/// Puts what a look-up holds.
fn append_hold(page: &mut Vec<u8>, hold: &HoldView) -> Result<(), Memory>
    ensures { OnOk result (page.new.items ≡ page.old.items ++ spec.reply_text (reply.Hold hold.now)) }
{
    append_number(page, b"{\"hold\":{\"key\":", hold.key as u64)?;
    append_closed(page, b",\"peer\":", hold.peer as u64, b"}}")?;
    Ok(())
}

/// What became of an inner packet.
fn settled_name(settled: Settled) -> &'static str
    ensures { result.now ≡ spec.settled_name settled }
{
    match settled {
        Settled::Deliver => "deliver",
        Settled::Ping => "ping",
        Settled::NotIp => "not-ip",
        Settled::NotOwner => "not-owner",
    }
}

/// Puts what became of an inner packet.
fn append_settled(page: &mut Vec<u8>, settled: Settled) -> Result<(), Memory>
    ensures { OnOk result (page.new.items ≡ page.old.items ++ spec.reply_text (reply.Settled settled)) }
{
    append_word(page, b"{\"settled\":\"", settled_name(settled))?;
    append(page, b"\"}")?;
    Ok(())
}

/// Puts a reply.
pub fn append_reply(page: &mut Vec<u8>, reply: &Reply) -> Result<(), Memory>
    ensures { OnOk result (page.new.items ≡ page.old.items ++ spec.reply_text reply.now) }
{
    match reply {
        Reply::Made(serial) => append_closed(page, b"{\"serial\":", *serial as u64, b"}"),
        Reply::Done => append(page, b"{\"ok\":true}"),
        Reply::Peer(peer) => append_peer(page, peer.get()),
        Reply::Peers(peers) => append_peers(page, peers.as_slice()),
        Reply::Key(key) => append_key(page, key),
        Reply::Removed(serials) => append_removed(page, serials.as_slice()),
        Reply::Hold(hold) => append_hold(page, hold),
        Reply::NoPeer => append(page, b"{\"none\":\"no-peer\"}"),
        Reply::NoKey => append(page, b"{\"none\":\"no-key\"}"),
        Reply::Skip => append(page, b"{\"none\":\"skip\"}"),
        Reply::Settled(settled) => append_settled(page, *settled),
        Reply::Killed => append(page, b"{\"spend\":\"killed\"}"),
        Reply::AlreadyGone => append(page, b"{\"spend\":\"already-gone\"}"),
        Reply::Ticked { expired, due } => append_ticked(page, expired.as_slice(), due.as_slice()),
        Reply::Released(serial) => append_closed(page, b"{\"released\":", *serial as u64, b"}"),
        Reply::KeyReleased(serial) => {
            append_closed(page, b"{\"key-released\":", *serial as u64, b"}")
        }
        Reply::Refused(errno) => append_closed(page, b"{\"error\":", errno_number(*errno), b"}"),
    }
}
