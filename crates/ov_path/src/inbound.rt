// From a received datagram to the inner packet in it.

ghost use Rattle.std.specs.Prelude.{◌≡◌, ◌≤◌, length, IfOk, IfSome};
ghost use Rattle.ov_model.specs.Limits.{overhead};
ghost use Rattle.ov_model.specs.Packets.{opened, packet_id_of, sealed_part};
ghost use Rattle.ov_path.specs.Parts.{text_if};

use ov_base::{ListOf, Memory, Octets};
use ov_keys::KeyPair;
use ov_model::limits::{HEAD_BYTES, OVERHEAD, TAG_BYTES};
use ov_packet::nonce;
use std::alloc::Global;

/// The inner packet of a data packet of at most 65,560 bytes, whose head has the packet id `id`, opened in
/// the one copy that is answered; `None` exactly where the tag isn't that of key, nonce, head and
/// ciphertext. `Memory` is free.
pub fn open(
    alloc: Global,
    pair: &KeyPair,
    id: u32,
    datagram: &[u8],
) -> Result<Option<Octets>, Memory>
    requires id { id ≡ packet_id_of datagram.now }
    requires long { overhead ≤ length datagram.now }
    requires most { length datagram.now ≤ 65560 }
    ensures ok { IfOk result (λ packet. packet ≡ opened pair.now.decrypt datagram.now) }
    ensures short { IfOk result (λ packet. IfSome packet (λ text.
        length text ≤ length datagram.now)) }
{
    let (_, sealed) = datagram.split_at(OVERHEAD);
    let mut text = Vec::from_slice(alloc, sealed)?;
    if !unseal(pair, id, datagram, text.as_mut_slice()) {
        return Ok(None);
    }
    Ok(Some(ListOf::of_vec(text)))
}

/// Opens the ciphertext of a data packet in place; whether the tag verifies.
#[tactic(auto, unfolding(ov_model::specs::Packets::opened), using(crate::proofs::Opening::opened_is))]
fn unseal(pair: &KeyPair, id: u32, datagram: &[u8], text: &mut [u8]) -> bool
    requires id { id ≡ packet_id_of datagram.now }
    requires long { overhead ≤ length datagram.now }
    requires most { length datagram.now ≤ 65560 }
    requires text { text.old ≡ sealed_part datagram.now }
    ensures opened { text_if result text.new ≡ opened pair.now.decrypt datagram.now }
{
    let nonce = nonce(id, pair.unseal_tail);
    let (head, rest) = datagram.split_at(HEAD_BYTES);
    let (tag, _) = rest.split_at(TAG_BYTES);
    let Some(tag) = tag.as_array::<TAG_BYTES>() else {
        unreachable!();
    };
    pair.unseal.unseal(nonce, head, text, *tag).is_ok()
}
