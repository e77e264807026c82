// From an inner packet to the datagram that carries it.

ghost use Rattle.std.specs.Prelude.{◌≡◌, ◌≤◌, length, IfOk};
ghost use Rattle.ov_model.specs.Path.{sealed_datagram};

use ov_base::{Memory, Octets};
use ov_keys::KeyPair;
use ov_model::HoldView;
use ov_packet::{Head, write_datagram};
use std::alloc::Global;

/// The datagram of an inner packet of at most 65,536 bytes, under the key of a hold and a packet id: head,
/// tag, ciphertext, made in the one buffer that is answered. `Memory` is free.
pub fn seal(
    alloc: Global,
    hold: &HoldView,
    pair: &KeyPair,
    id: u32,
    packet: &[u8],
) -> Result<Octets, Memory>
    requires most { length packet.now ≤ 65536 }
    ensures ok { IfOk result (λ datagram. datagram ≡
        sealed_datagram hold.now pair.now id packet.now) }
{
    let head = Head {
        id: hold.id,
        key_id: hold.key_id,
        packet_id: id,
    };
    write_datagram(alloc, &head, &pair.seal, pair.seal_tail, packet)
}
