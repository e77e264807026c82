//! Lines that send a packet, by their compact text.

ghost use Rattle.std.specs.Prelude.{◌≡◌, IfOk, IfSome};
ghost use Rattle.ov_model.specs.declared.line.Line.{Line};
ghost use Rattle.ov_line.specs.Compact as spec;
ghost use Rattle.ov_line.specs.Grammar.{Says};

use crate::digits::bytes_of;
use crate::packets::MOST_PACKET;
use crate::parts::{after, before, number};
use ov_base::Memory;
use ov_model::{Deed, Line};
use std::alloc::Global;

/// The moment, the lane and the packet's digits of a line that sends a packet.
fn tx_parts(line: &[u8]) -> Option<(u32, u32, &[u8])>
    ensures { IfSome result (λ p. line.now ≡ spec.tx_text p.0 p.1 p.2.now) }
{
    let (at, rest) = number(after(line, b"{\"at\":")?)?;
    let (lane, rest) = number(after(rest, b",\"do\":\"tx\",\"lane\":")?)?;
    let digits = before(after(rest, b",\"packet\":\"")?, b"\"}")?;
    Some((at, lane, digits))
}

/// The line that sends a packet, where the bytes are its compact text.
pub fn tx_line(alloc: Global, line: &[u8], lanes: u32) -> Result<Option<Line>, Memory>
    ensures { IfOk result (λ found. IfSome found (λ read. Says line.now lanes read)) }
{
    let Some((at, lane, digits)) = tx_parts(line) else {
        return Ok(None);
    };
    let Some(packet) = bytes_of(alloc, digits)? else {
        return Ok(None);
    };
    if lane >= lanes || packet.len() > MOST_PACKET {
        return Ok(None);
    }
    Ok(Some(Line {
        lane,
        at,
        deed: Deed::Tx(packet),
    }))
}
