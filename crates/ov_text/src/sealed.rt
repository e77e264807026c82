//! What was sealed, as text: a datagram, and what became of a tick's pings.

ghost use Rattle.std.specs.Prelude.{◌≡◌, ◌++◌, OnOk};
ghost use Rattle.serde_json.specs.Written.{compact_text};
ghost use Rattle.ov_text.specs.Sealed as spec;

use crate::digits::{append_address, append_digits};
use crate::items::Item;
use crate::pieces::{append, append_closed, append_number};
use ov_base::Memory;
use ov_model::{PingOut, PingOutcome, SealedOut};

/// Puts a sealed datagram at the end of a page. `Err` is want of memory.
pub fn append_sealed(page: &mut Vec<u8>, sealed: &SealedOut) -> Result<(), Memory>
    ensures { OnOk result
        (page.new.items ≡ page.old.items ++ compact_text (spec.sealed_data sealed.now)) }
{
    append(page, b"{\"sealed\":{\"datagram\":\"")?;
    append_digits(page, sealed.datagram.as_slice())?;
    append_number(page, b"\",\"id\":", sealed.id as u64)?;
    append_number(page, b",\"key\":", sealed.key as u64)?;
    append(page, b",\"to\":{\"addr\":\"")?;
    append_address(page, sealed.to.addr)?;
    append_number(page, b"\",\"port\":", sealed.to.port as u64)?;
    append(page, b"}}}")?;
    Ok(())
}

/// Puts what became of a ping.
fn append_outcome(page: &mut Vec<u8>, outcome: &PingOutcome) -> Result<(), Memory>
    ensures { OnOk result
        (page.new.items ≡ page.old.items ++ compact_text (spec.outcome_data outcome.now)) }
{
    match outcome {
        PingOutcome::Sealed(sealed) => append_sealed(page, sealed),
        PingOutcome::Spent => append(page, b"{\"dropped\":\"spent\"}"),
        PingOutcome::Skip => append(page, b"{\"none\":\"skip\"}"),
    }
}

impl Item for PingOut {
    ghost json = { spec.ping_data };

    fn append_item(&self, page: &mut Vec<u8>) -> Result<(), Memory> {
        append(page, b"{\"outcome\":")?;
        append_outcome(page, &self.outcome)?;
        append_closed(page, b",\"peer\":", self.peer as u64, b"}")?;
        Ok(())
    }
}
