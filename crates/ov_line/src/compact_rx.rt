//! Lines by which a datagram comes, by their compact text.

ghost use Rattle.std.specs.Prelude.{◌≡◌, IfOk, IfSome};
ghost use Rattle.ov_model.specs.declared.line.Line.{Line};
ghost use Rattle.ov_line.specs.Compact as spec;
ghost use Rattle.ov_line.specs.Grammar.{Says};

use crate::digits::bytes_of;
use crate::packets::MOST_DATAGRAM;
use crate::parts::{after, number, octets_of, until_quote};
use ov_base::{Addr, Memory, Transport};
use ov_model::{Deed, Line};
use std::alloc::Global;

/// What the text of such a line has in its places: the datagram as digits, the address as text.
#[derive(Clone, Copy)]
struct Parts<'a> {
    at: u32,
    digits: &'a [u8],
    addr: &'a [u8],
    port: u32,
    lane: u32,
}

/// The parts of such a line.
fn rx_parts(line: &[u8]) -> Option<Parts>
    ensures { IfSome result (λ p. line.now
        ≡ spec.rx_text p.at p.digits.now p.addr.now p.port p.lane) }
{
    let (at, rest) = number(after(line, b"{\"at\":")?)?;
    let (digits, rest) = until_quote(after(rest, b",\"datagram\":\"")?)?;
    let (addr, rest) = until_quote(after(rest, b"\",\"do\":\"rx\",\"from\":{\"addr\":\"")?)?;
    let (port, rest) = number(after(rest, b"\",\"port\":")?)?;
    let (lane, rest) = number(after(rest, b"},\"lane\":")?)?;
    if rest != b"}".as_slice() {
        return None;
    }
    Some(Parts {
        at,
        digits,
        addr,
        port,
        lane,
    })
}

/// The line by which a datagram comes from an IPv4 address, where the bytes are its compact text.
pub fn rx_line(alloc: Global, line: &[u8], lanes: u32) -> Result<Option<Line>, Memory>
    ensures { IfOk result (λ found. IfSome found (λ read. Says line.now lanes read)) }
{
    let Some(parts) = rx_parts(line) else {
        return Ok(None);
    };
    let Some(octets) = octets_of(parts.addr) else {
        return Ok(None);
    };
    let Some(datagram) = bytes_of(alloc, parts.digits)? else {
        return Ok(None);
    };
    if parts.lane >= lanes || parts.port > 65_535 || datagram.len() > MOST_DATAGRAM {
        return Ok(None);
    }
    let from = Transport {
        addr: Addr::V4(octets),
        port: parts.port as u16,
    };
    Ok(Some(Line {
        lane: parts.lane,
        at: parts.at,
        deed: Deed::Rx { from, datagram },
    }))
}
