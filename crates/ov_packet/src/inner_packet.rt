// Inner packets: their addresses, and the keepalive message.

ghost use Rattle.std.specs.Prelude.{◌≡◌, ◌≤◌, ◌+◌, length, take, drop};
ghost use Rattle.ov_model.specs.Packets.{inner_of, is_ping, keepalive};
ghost use Rattle.ov_packet.specs.Packet.{inner_told};

/// The first byte of an IP packet is the version times this and four other bits.
const VERSIONS: u8 = 16;

/// The least bytes of an IPv4 header (RFC 791 section 3.1).
const V4_HEADER: usize = 20;

/// The bytes of an IPv6 header (RFC 8200 section 3).
const V6_HEADER: usize = 40;

/// The keepalive message (OpenVPN's ping).
const KEEPALIVE: [u8; 16] = [
    0x2a, 0x18, 0x7b, 0xf3, 0x64, 0x1e, 0xb4, 0xcb, 0x07, 0xed, 0x2d, 0x0a, 0x98, 0x1f, 0xc7, 0x48,
];

/// The addresses of an inner packet, their bytes in network order.
#[derive(Clone, Copy, Debug, PartialEq, Eq)]
pub enum InnerFacts {
    V4 {
        source: [u8; 4],
        destination: [u8; 4],
    },
    V6 {
        source: [u8; 16],
        destination: [u8; 16],
    },
    /// Neither an IPv4 packet of at least 20 bytes nor an IPv6 packet of at least 40.
    NotIp,
}

/// The addresses of an inner packet. Only the length, the version in the high four bits of the first byte
/// and the addresses are looked at; `NotIp` comes exactly where the packet is shorter than its version's
/// header, or of neither version.
pub fn inner(packet: &[u8]) -> InnerFacts
    ensures facts { inner_told result ≡ inner_of packet.now }
{
    if packet.len() >= V4_HEADER && packet[0] / VERSIONS == 4 {
        return InnerFacts::V4 {
            source: bytes_at(packet, 12),
            destination: bytes_at(packet, 16),
        };
    }
    if packet.len() >= V6_HEADER && packet[0] / VERSIONS == 6 {
        return InnerFacts::V6 {
            source: bytes_at(packet, 8),
            destination: bytes_at(packet, 24),
        };
    }
    InnerFacts::NotIp
}

/// The `N` bytes from place `at` on.
fn bytes_at<const N: usize>(packet: &[u8], at: usize) -> [u8; N]
    requires { at + N ≤ length packet.now }
    ensures { result ≡ take N (drop at packet.now) }
{
    let mut bytes = [0; N];
    bytes.copy_from_slice(&packet[at..at + N]);
    bytes
}

/// The keepalive message, 16 bytes.
pub fn keepalive_message() -> [u8; 16]
    ensures exactly { result ≡ keepalive }
{
    KEEPALIVE
}

/// Whether a packet is the keepalive message.
pub fn is_keepalive(packet: &[u8]) -> bool
    ensures exactly { result ≡ is_ping packet.now }
{
    packet == KEEPALIVE.as_slice()
}
