// The datagram that carries an inner packet.

ghost use Rattle.std.specs.Prelude.{◌≡◌, ◌≤◌, ◌+◌, length, IfOk};
ghost use Rattle.ov_aes.specs.Aes.{key_list};
ghost use Rattle.ov_model.specs.Limits.{overhead};
ghost use Rattle.ov_model.specs.Packets.{datagram};

use crate::head::{Head, write_head};
use crate::nonces::nonce;
use ov_base::{ListOf, Memory, Octets};
use ov_gcm::GcmKey;
use ov_model::limits::{HEAD_BYTES, OVERHEAD, TAG_BYTES};
use std::alloc::Global;

/// The datagram with a head, of an inner packet of at most 65,536 bytes that is sealed under a key and the
/// nonce tail of its direction: head, tag, ciphertext, made in the one buffer that is answered. `Memory` is free.
#[tactic(auto, unfolding(ov_model::specs::Packets::datagram))]
pub fn write_datagram(
    alloc: Global,
    head: &Head,
    key: &GcmKey,
    tail: [u8; 8],
    packet: &[u8],
) -> Result<Octets, Memory>
    requires most { length packet.now ≤ 65536 }
    ensures ok { IfOk result (λ bytes. bytes ≡ datagram head.now.id.number
        head.now.key_id.number head.now.packet_id (key_list key.now) tail packet.now) }
    ensures size { IfOk result (λ bytes. length bytes ≡ overhead + length packet.now) }
{
    let first = write_head(head);
    let mut bytes = Vec::with_capacity(alloc, OVERHEAD + packet.len())?;
    bytes.extend_from_slice(&first)?;
    bytes.extend_from_slice(&[0; TAG_BYTES])?;
    bytes.extend_from_slice(packet)?;
    let (front, text) = bytes.as_mut_slice().split_at_mut(OVERHEAD);
    let tag = key.seal(nonce(head.packet_id, tail), &first, text);
    front[HEAD_BYTES..].copy_from_slice(&tag);
    Ok(ListOf::of_vec(bytes))
}
