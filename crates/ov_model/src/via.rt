//! The next hop of an address by routes.

ghost use Rattle.std.specs.Prelude.{◌≡◌};
ghost use Rattle.ov_model.specs.Via as via;

use crate::line::Route;
use ov_base::Addr;

/// The next hop of `addr` by `routes`: the hop of the longest prefix that matches (RFC 1812, section 5.2.4.3), the
/// last in the list among equals, and `addr` itself where none matches. The hop isn't looked up again. A route with
/// more bits than an address of its family has never matches.
pub fn via_of(routes: &[Route], addr: Addr) -> Addr
    ensures hop { result ≡ via.via_of routes.now addr }
{
    let mut best: Option<Route> = None;
    for route in routes {
        if matches(addr, route) && is_longer(best, route) {
            best = Some(*route);
        }
    }
    match best {
        None => addr,
        Some(route) => route.hop,
    }
}

/// Whether the address has the route's prefix.
fn matches(addr: Addr, route: &Route) -> bool
    ensures { result ≡ via.matches addr route.now }
{
    match (route.prefix, addr) {
        (Addr::V4(prefix), Addr::V4(address)) => same_bits_v4(route.length, prefix, address),
        (Addr::V6(prefix), Addr::V6(address)) => same_bits_v6(route.length, prefix, address),
        _ => false,
    }
}

/// Whether a route is at least as long as the best one so far.
fn is_longer(best: Option<Route>, route: &Route) -> bool
    ensures { result ≡ via.is_longer best route.now }
{
    match best {
        None => true,
        Some(best) => best.length <= route.length,
    }
}

/// Whether two IPv4 addresses have the same first bits.
fn same_bits_v4(length: u32, prefix: [u8; 4], address: [u8; 4]) -> bool
    ensures { result ≡ via.same_bits 4 length prefix address }
{
    if length > 32 {
        return false;
    }
    let past = 32 - length;
    u64::from(u32::from_be_bytes(prefix)) >> past == u64::from(u32::from_be_bytes(address)) >> past
}

/// Whether two IPv6 addresses have the same first bits. None are the same of any two.
fn same_bits_v6(length: u32, prefix: [u8; 16], address: [u8; 16]) -> bool
    ensures { result ≡ via.same_bits 16 length prefix address }
{
    if length > 128 {
        return false;
    }
    let prefix = u128::from_be_bytes(prefix);
    let address = u128::from_be_bytes(address);
    if length == 0 {
        return true;
    }
    let past = 128 - length;
    prefix >> past == address >> past
}
