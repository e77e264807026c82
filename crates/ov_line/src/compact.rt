//! A first look at a line: the forms that come most, in the text that programs mostly write, without spaces
//! and with the names in ascending order. What it reads, the bytes say. Of what it does not read it says
//! nothing: the whole grammar decides.

ghost use Rattle.std.specs.Prelude.{IfOk, IfSome};
ghost use Rattle.ov_model.specs.declared.line.Line.{Line};
ghost use Rattle.ov_line.specs.Grammar.{Says};

use crate::compact_key::key_line;
use crate::compact_peer::new_line;
use crate::compact_rx::rx_line;
use crate::compact_tx::tx_line;
use ov_base::Memory;
use ov_model::Line;
use std::alloc::Global;

/// The line, where the bytes are the compact text of one that sends a packet, by which a datagram comes, or
/// that makes a peer or a key.
pub fn compact_line(alloc: Global, line: &[u8], lanes: u32) -> Result<Option<Line>, Memory>
    ensures { IfOk result (λ found. IfSome found (λ read. Says line.now lanes read)) }
{
    if let Some(sent) = tx_line(alloc, line, lanes)? {
        return Ok(Some(sent));
    }
    if let Some(received) = rx_line(alloc, line, lanes)? {
        return Ok(Some(received));
    }
    if let Some(made) = new_line(alloc, line, lanes)? {
        return Ok(Some(made));
    }
    key_line(alloc, line, lanes)
}
