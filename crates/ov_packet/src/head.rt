// The head of a data packet: opcode and key id, peer id, packet id (OpenVPN's P_DATA_V2).

ghost use Rattle.std.specs.Prelude.{◌≡◌, ◌≤◌, ◌%◌, length};
ghost use Rattle.ov_model.specs.Limits.{head_length, key_id_count};
ghost use Rattle.ov_model.specs.Packets.{head_bytes, head_of, number_from};
ghost use Rattle.ov_packet.specs.Packet.{kind_told};

use byteorder::{BigEndian, ByteOrder};
use ov_model::limits::{DATA_V1, DATA_V2, HEAD_BYTES, KEY_IDS, OVERHEAD, SHORTEST_DATAGRAM};
use ov_model::{KeyId, PeerId};
use thiserror::Error;

/// Where the peer id stands: 3 bytes, the highest first.
const PEER_ID_AT: usize = 1;

/// Where the packet id stands: 4 bytes, the highest first.
const PACKET_ID_AT: usize = 4;

/// The head of a data packet: whose it is, under which of the peer's keys, and its number under that key.
#[derive(Clone, Copy, Debug, PartialEq, Eq)]
pub struct Head {
    pub id: PeerId,
    pub key_id: KeyId,
    pub packet_id: u32,
}

/// Why a datagram isn't a data packet of the second version.
#[derive(Clone, Copy, Debug, PartialEq, Eq, Error)]
pub enum HeadStop {
    /// It has fewer than 4 bytes, or it has the opcode 9 and fewer than 24.
    #[error("the datagram is too short")]
    Short,
    /// It has the opcode 6.
    #[error("the datagram is data of the first version")]
    DataV1,
    /// It has an opcode other than 6 and 9.
    #[error("the datagram is of the control channel")]
    Control,
}

/// The head of a datagram. The length is looked at first: `Short` comes exactly where there are fewer
/// than 4 bytes, or the opcode is 9 and there are fewer than 24. Of the others `DataV1` comes exactly
/// where the opcode is 6, and `Control` exactly where it is neither 6 nor 9.
pub fn read_head(bytes: &[u8]) -> Result<Head, HeadStop>
    ensures kind { kind_told result ≡ head_of bytes.now }
{
    if bytes.len() < SHORTEST_DATAGRAM {
        return Err(HeadStop::Short);
    }
    match bytes[0] / KEY_IDS {
        DATA_V1 => Err(HeadStop::DataV1),
        DATA_V2 if bytes.len() < OVERHEAD => Err(HeadStop::Short),
        DATA_V2 => Ok(Head {
            id: peer_id(bytes),
            key_id: key_id(bytes[0]),
            packet_id: BigEndian::read_u32(&bytes[PACKET_ID_AT..]),
        }),
        _ => Err(HeadStop::Control),
    }
}

/// The peer id of a head.
fn peer_id(bytes: &[u8]) -> PeerId
    requires { head_length ≤ length bytes.now }
    ensures { result.number ≡ number_from 1 3 bytes.now }
{
    match PeerId::new(BigEndian::read_u24(&bytes[PEER_ID_AT..])) {
        Some(id) => id,
        None => unreachable!(),
    }
}

/// The key id of a head's first byte.
fn key_id(first: u8) -> KeyId
    ensures { result.number ≡ first % key_id_count }
{
    match KeyId::new(first % KEY_IDS) {
        Some(id) => id,
        None => unreachable!(),
    }
}

/// The 8 bytes of a head, which are the associated data of the datagram's seal. With any 16 or more bytes
/// behind them they read as that head (`laws::head_reads_back`).
pub fn write_head(head: &Head) -> [u8; HEAD_BYTES]
    ensures bytes { result ≡
        head_bytes head.now.id.number head.now.key_id.number head.now.packet_id }
{
    let mut bytes = [0; HEAD_BYTES];
    bytes[0] = DATA_V2 * KEY_IDS + head.key_id.get();
    BigEndian::write_u24(&mut bytes[PEER_ID_AT..], head.id.get());
    BigEndian::write_u32(&mut bytes[PACKET_ID_AT..], head.packet_id);
    bytes
}
