// The nonce of a datagram.

ghost use Rattle.std.specs.Prelude.{◌≡◌};
ghost use Rattle.ov_model.specs.Packets.{nonce_of};

use byteorder::{BigEndian, ByteOrder};

/// The bytes of a packet id in a nonce.
const PACKET_ID_BYTES: usize = 4;

/// The IV of 96 bits of a datagram: its packet id, the highest byte first, then the nonce tail of the
/// key's direction (the encrypt tail when sealing, the decrypt tail when opening).
pub fn nonce(packet_id: u32, tail: [u8; 8]) -> [u8; 12]
    ensures bytes { result ≡ nonce_of packet_id tail }
{
    let mut bytes = [0; 12];
    BigEndian::write_u32(&mut bytes, packet_id);
    bytes[PACKET_ID_BYTES..].copy_from_slice(&tail);
    bytes
}
