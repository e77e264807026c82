//! Bytes and addresses in a report's lines, put at the end of a page.

ghost use Rattle.std.specs.Prelude.{◌≡◌, ◌++◌, OnOk, decimal};
ghost use Rattle.std.specs.Net.Text.{ipv4_text};
ghost use Rattle.hex.specs.Hex.{encode_lower};
ghost use Rattle.json.specs.Print.{escape};
ghost use Rattle.ov_text.specs.Pieces as spec;

use crate::lanes::{append_blocks, append_rest};
use crate::pieces::append_number;
use ov_base::{Addr, Memory};

/// Puts bytes as hexadecimal digits in lower case, two for each.
///
/// No digit is escaped in a JSON text: `plain`.
pub fn append_digits(page: &mut Vec<u8>, bytes: &[u8]) -> Result<(), Memory>
    ensures text { OnOk result (page.new.items ≡ page.old.items ++ encode_lower bytes.now) }
    ensures plain { OnOk result (escape (encode_lower bytes.now) ≡ encode_lower bytes.now) }
{
    let blocks = append_blocks(page, bytes)?;
    append_rest(page, &bytes[blocks..])?;
    Ok(())
}

/// Puts a fixed text and an octet in decimal, in which no JSON text escapes a character: `plain`.
fn append_octet(page: &mut Vec<u8>, front: &[u8], octet: u8) -> Result<(), Memory>
    ensures text { OnOk result (page.new.items ≡ page.old.items ++ (front.now ++ decimal octet)) }
    ensures plain { OnOk result (escape (decimal octet) ≡ decimal octet) }
{
    append_number(page, front, octet as u64)?;
    Ok(())
}

/// Puts an IPv4 address in dotted decimal (RFC 791 names the octets; the text is the usual one).
pub(crate) fn append_ipv4(page: &mut Vec<u8>, octets: [u8; 4]) -> Result<(), Memory>
    ensures text { OnOk result (page.new.items ≡ page.old.items ++ ipv4_text octets) }
    ensures plain { OnOk result (escape (ipv4_text octets) ≡ ipv4_text octets) }
{
    append_octet(page, b"", octets[0])?;
    append_octet(page, b".", octets[1])?;
    append_octet(page, b".", octets[2])?;
    append_octet(page, b".", octets[3])?;
    Ok(())
}

/// Puts an address: IPv4 in dotted decimal, IPv6 as its 32 hexadecimal digits.
pub fn append_address(page: &mut Vec<u8>, addr: Addr) -> Result<(), Memory>
    ensures text { OnOk result (page.new.items ≡ page.old.items ++ spec.addr_text addr) }
    ensures plain { OnOk result (escape (spec.addr_text addr) ≡ spec.addr_text addr) }
{
    match addr {
        Addr::V4(octets) => append_ipv4(page, octets),
        Addr::V6(octets) => append_digits(page, &octets),
    }
}
