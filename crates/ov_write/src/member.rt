//! The members of a line's text, each put at the end of a page. `later` says whether a member of the same
//! object stands before, and each function answers whether one does then.

ghost use Rattle.std.specs.Prelude.{◌≡◌, ◌++◌, ◌∷◌, true, Some, IfOk, OnOk, codes, option_map};
ghost use Rattle.std.specs.Net.Text.{ipv4_text};
ghost use Rattle.serde_json.specs.Data.{string};
ghost use Rattle.serde_json.specs.Written.{comma_if};
ghost use Rattle.json.specs.Print.{escape};
ghost use Rattle.ov_write.specs.Text as spec;

use itoa::Buffer;
use ov_base::{Memory, Octets};
use std::alloc::Global;
use std::net::Ipv4Addr;

/// Puts a name, with the comma in front where one is due and the colon behind.
pub(crate) fn put_name(page: &mut Vec<u8>, later: bool, name: &str) -> Result<(), Memory>
    ensures { OnOk result (page.new.items ≡ page.old.items
        ++ (comma_if later ++ (34 ∷ (name.now ++ codes "\":")))) }
{
    let front: &[u8] = if later { b",\"" } else { b"\"" };
    page.extend_from_slice(front)?;
    page.extend_from_slice(name.as_bytes())?;
    page.extend_from_slice(b"\":")?;
    Ok(())
}

/// Puts a number that there is.
pub(crate) fn put_some_number(
    page: &mut Vec<u8>,
    later: bool,
    name: &str,
    number: u32,
) -> Result<(), Memory>
    ensures { OnOk result (escape name.now ≡ name.now
        → spec.Puts page.old.items page.new.items later true name.now (Some (spec.num number))) }
{
    let mut buffer = Buffer::new();
    put_name(page, later, name)?;
    page.extend_from_slice(buffer.format(number).as_bytes())?;
    Ok(())
}

/// Puts a number, where there is one.
pub(crate) fn put_number(
    page: &mut Vec<u8>,
    later: bool,
    name: &str,
    number: Option<u32>,
) -> Result<bool, Memory>
    ensures { IfOk result (λ now. escape name.now ≡ name.now
        → spec.Puts page.old.items page.new.items later now name.now (option_map spec.num number)) }
{
    let Some(number) = number else {
        return Ok(later);
    };
    put_some_number(page, later, name, number)?;
    Ok(true)
}

/// Puts a text of which no character is escaped in JSON.
pub(crate) fn put_text(
    page: &mut Vec<u8>,
    later: bool,
    name: &str,
    text: &str,
) -> Result<(), Memory>
    ensures { OnOk result (escape name.now ≡ name.now → escape text.now ≡ text.now
        → spec.Puts page.old.items page.new.items later true name.now (Some (string text.now))) }
{
    put_name(page, later, name)?;
    page.extend_from_slice(b"\"")?;
    page.extend_from_slice(text.as_bytes())?;
    page.extend_from_slice(b"\"")?;
    Ok(())
}

/// Puts bytes as hexadecimal digits.
pub(crate) fn put_hex(
    alloc: Global,
    page: &mut Vec<u8>,
    later: bool,
    name: &str,
    bytes: &[u8],
) -> Result<(), Memory>
    ensures { OnOk result (escape name.now ≡ name.now
        → spec.Puts page.old.items page.new.items later true name.now (Some (spec.hex bytes.now))) }
{
    let digits = hex::encode(alloc, bytes)?;
    put_text(page, later, name, digits.as_str())?;
    Ok(())
}

/// Puts an IPv4 address in dotted decimal.
pub(crate) fn put_dotted(
    alloc: Global,
    page: &mut Vec<u8>,
    later: bool,
    name: &str,
    octets: &[u8; 4],
) -> Result<(), Memory>
    ensures { OnOk result (escape name.now ≡ name.now
        → spec.Puts page.old.items page.new.items later true name.now (Some (spec.ipv4 octets.now))) }
{
    let text = Ipv4Addr::from_octets(*octets).to_string(alloc)?;
    put_text(page, later, name, text.as_str())?;
    Ok(())
}

/// Puts bytes, where there are any.
pub(crate) fn put_octets(
    alloc: Global,
    page: &mut Vec<u8>,
    later: bool,
    name: &str,
    bytes: &Option<Octets>,
) -> Result<bool, Memory>
    ensures { IfOk result (λ now. escape name.now ≡ name.now
        → spec.Puts page.old.items page.new.items later now name.now (option_map spec.hex bytes.now)) }
{
    let Some(bytes) = bytes else {
        return Ok(later);
    };
    put_hex(alloc, page, later, name, bytes.as_slice())?;
    Ok(true)
}

/// Puts an IPv4 address, where there is one.
pub(crate) fn put_ipv4(
    alloc: Global,
    page: &mut Vec<u8>,
    later: bool,
    name: &str,
    octets: Option<[u8; 4]>,
) -> Result<bool, Memory>
    ensures { IfOk result (λ now. escape name.now ≡ name.now
        → spec.Puts page.old.items page.new.items later now name.now (option_map spec.ipv4 octets)) }
{
    let Some(octets) = octets else {
        return Ok(later);
    };
    put_dotted(alloc, page, later, name, &octets)?;
    Ok(true)
}

/// Puts an IPv6 address as its 32 hexadecimal digits, where there is one.
pub(crate) fn put_ipv6(
    alloc: Global,
    page: &mut Vec<u8>,
    later: bool,
    name: &str,
    octets: Option<[u8; 16]>,
) -> Result<bool, Memory>
    ensures { IfOk result (λ now. escape name.now ≡ name.now
        → spec.Puts page.old.items page.new.items later now name.now (option_map spec.hex octets)) }
{
    let Some(octets) = octets else {
        return Ok(later);
    };
    put_hex(alloc, page, later, name, &octets)?;
    Ok(true)
}
