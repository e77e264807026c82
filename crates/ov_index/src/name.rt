//! What a live peer is found by.

ghost use Rattle.std.specs.Prelude.{◌≡◌};
ghost use Rattle.ov_index.specs.Names as names;

use ov_base::{Addr, Transport};

/// An address, as the key of a map.
#[derive(Clone, Copy, PartialEq, Eq, Hash)]
pub enum Host {
    V4([u8; 4]),
    V6([u8; 16]),
}

/// One of the things that a live peer is found by, and that no other live peer has: its id, a VPN address, or the
/// address and port of its remote end.
#[derive(Clone, Copy, PartialEq, Eq, Hash)]
pub enum Name {
    Id(u32),
    Vpn(Host),
    Remote(Host, u16),
}

/// An address as the key of a map.
fn to_host(addr: Addr) -> Host
    ensures { result ≡ names.host_of addr }
{
    match addr {
        Addr::V4(octets) => Host::V4(octets),
        Addr::V6(octets) => Host::V6(octets),
    }
}

/// A transport as the key of a map.
pub fn remote_name(remote: Transport) -> Name
    ensures { result ≡ names.remote_name remote }
{
    Name::Remote(to_host(remote.addr), remote.port)
}

/// A VPN address as the key of a map.
pub fn vpn_name(addr: Addr) -> Name
    ensures { result ≡ names.vpn_name addr }
{
    Name::Vpn(to_host(addr))
}

/// A VPN address of version 4 as the key of a map, where there is one.
pub fn vpn4_name(octets: Option<[u8; 4]>) -> Option<Name>
    ensures { result ≡ names.vpn4_name octets }
{
    Some(Name::Vpn(Host::V4(octets?)))
}

/// A VPN address of version 6 as the key of a map, where there is one.
pub fn vpn6_name(octets: Option<[u8; 16]>) -> Option<Name>
    ensures { result ≡ names.vpn6_name octets }
{
    Some(Name::Vpn(Host::V6(octets?)))
}
