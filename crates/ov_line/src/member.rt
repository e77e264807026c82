//! What a JSON object has under a name, in the kinds that lines use.

ghost use Rattle.std.specs.Prelude.{◌≡◌, ◌≢◌, List, ℕ, Some, None, MatchResult, IsTrue, length, map, string_bytes};
ghost use Rattle.std.specs.List.{list_all};
ghost use Rattle.std.specs.BTreeMap.{keys};
ghost use Rattle.serde_json.specs.Data.{string};
ghost use Rattle.serde_json.specs.View.{view};
ghost use Rattle.ov_line.specs.Values as spec;
ghost use Rattle.ov_line.specs.Outcome.{Finds, Passes, Reads};

use crate::line::LineStop;
use crate::why::{Name, Why};
use hex::{FromHex, FromHexError};
use ov_base::{Addr, Octets};
use serde_json::{Map, Value};
use std::alloc::Global;
use std::net::Ipv4Addr;

/// What was found under a name that has to be there.
pub fn needed<T: Drop>(found: Option<T>, name: &str) -> Result<T, Why>
    ensures { Finds (λ needed. found ≡ Some needed) result }
{
    match found {
        Some(needed) => Ok(needed),
        None => Err(Why::Missing(Name::of(name))),
    }
}

/// The whole number of at most `most` that the value under a name is.
pub fn number_of(value: &Value, name: &str, most: u32) -> Result<u32, Why>
    ensures { Finds (spec.IsNumber most (view value.now)) result }
{
    match value.as_u64() {
        Some(number) if number <= u64::from(most) => Ok(number as u32),
        Some(_) => Err(Why::Range(Name::of(name))),
        None => Err(Why::Kind(Name::of(name))),
    }
}

/// The whole number of at most `most` under a name, where there is one.
pub fn number_at(value: &Value, name: &str, most: u32) -> Result<Option<u32>, Why>
    ensures { Finds (spec.Has (spec.IsNumber most) name.now (view value.now)) result }
{
    match value.get(name) {
        Some(found) => Ok(Some(number_of(found, name, most)?)),
        None => Ok(None),
    }
}

/// The text that the value under a name is.
pub fn text_of<'a>(value: &'a Value, name: &str) -> Result<&'a str, Why>
    ensures { MatchResult result
        (λ text. view value.now ≡ string text.now)
        (λ why. (text : List ℕ) → view value.now ≢ string text) }
{
    match value.as_str() {
        Some(text) => Ok(text),
        None => Err(Why::Kind(Name::of(name))),
    }
}

/// The four bytes of the IPv4 address that the value under a name is, in network order (RFC 791, section
/// 3.1).
fn ipv4_of(value: &Value, name: &str) -> Result<[u8; 4], Why>
    ensures { Finds (spec.IsIpv4 (view value.now)) result }
{
    let text = text_of(value, name)?;
    match Ipv4Addr::parse_ascii(text.as_bytes()) {
        Ok(address) => Ok(address.octets()),
        Err(_) => Err(Why::Kind(Name::of(name))),
    }
}

/// The IPv4 address under a name, where there is one.
pub fn ipv4_at(value: &Value, name: &str) -> Result<Option<[u8; 4]>, Why>
    ensures { Finds (spec.Has spec.IsIpv4 name.now (view value.now)) result }
{
    match value.get(name) {
        Some(found) => Ok(Some(ipv4_of(found, name)?)),
        None => Ok(None),
    }
}

/// The sixteen bytes of the IPv6 address that the value under a name is, in network order.
fn ipv6_of(value: &Value, name: &str) -> Result<[u8; 16], Why>
    ensures { Finds (spec.IsIpv6 (view value.now)) result }
{
    let text = text_of(value, name)?;
    match <[u8; 16] as FromHex>::from_hex(text) {
        Ok(octets) => Ok(octets),
        Err(_) => Err(Why::Kind(Name::of(name))),
    }
}

/// The IPv6 address under a name, where there is one.
pub fn ipv6_at(value: &Value, name: &str) -> Result<Option<[u8; 16]>, Why>
    ensures { Finds (spec.Has spec.IsIpv6 name.now (view value.now)) result }
{
    match value.get(name) {
        Some(found) => Ok(Some(ipv6_of(found, name)?)),
        None => Ok(None),
    }
}

/// The address of either family that the value under a name is.
fn addr_of(value: &Value, name: &str) -> Result<Addr, Why>
    ensures { Finds (spec.IsAddr (view value.now)) result }
{
    match ipv4_of(value, name) {
        Ok(octets) => Ok(Addr::V4(octets)),
        Err(_) => Ok(Addr::V6(ipv6_of(value, name)?)),
    }
}

/// The address of either family under a name, where there is one.
pub fn addr_at(value: &Value, name: &str) -> Result<Option<Addr>, Why>
    ensures { Finds (spec.Has spec.IsAddr name.now (view value.now)) result }
{
    match value.get(name) {
        Some(found) => Ok(Some(addr_of(found, name)?)),
        None => Ok(None),
    }
}

/// The bytes, at most `most`, whose hexadecimal digits the value under a name is.
fn hex_of(alloc: Global, value: &Value, name: &str, most: usize) -> Result<Octets, LineStop>
    ensures { Reads (spec.IsHex most (view value.now)) result }
{
    let text = text_of(value, name)?;
    match hex::decode(alloc, text) {
        Ok(bytes) if bytes.len() <= most => Ok(Octets::of_vec(bytes)),
        Ok(_) => Err(LineStop::Bad(Why::Range(Name::of(name)))),
        Err(FromHexError::OutOfMemory) => Err(LineStop::Memory),
        Err(_) => Err(LineStop::Bad(Why::Kind(Name::of(name)))),
    }
}

/// The bytes, at most `most`, under a name, where there are any.
pub fn hex_at(
    alloc: Global,
    value: &Value,
    name: &str,
    most: usize,
) -> Result<Option<Octets>, LineStop>
    ensures { Reads (spec.Has (spec.IsHex most) name.now (view value.now)) result }
{
    match value.get(name) {
        Some(found) => Ok(Some(hex_of(alloc, found, name, most)?)),
        None => Ok(None),
    }
}

/// Whether a name is one of these.
fn is_among(name: &str, names: &[&str]) -> bool
    ensures { result ≡ spec.is_among name.now (map (λ n. n.now) names.now) }
{
    match names.split_first() {
        None => false,
        Some((first, rest)) => name == *first || is_among(name, rest),
    }
}

/// Whether each name of an object is one of these.
fn all_among(members: &Map<String, Value>, names: &[&str]) -> bool
    ensures { result
        ≡ list_all (λ k. spec.is_among (string_bytes k) (map (λ n. n.now) names.now))
        (keys members.now) }
{
    members.keys().all(|name| is_among(name.as_str(), names))
}

/// The first name of an object that is none of these.
fn stranger(members: &Map<String, Value>, names: &[&str]) -> Why {
    match members.keys().find(|name| !is_among(name.as_str(), names)) {
        Some(name) => Why::Unknown(Name::of(name.as_str())),
        None => Why::Object,
    }
}

/// Nothing, where the value under a name is an object that has no names but these.
pub fn only(value: &Value, name: &str, names: &[&str]) -> Result<(), Why>
    ensures { Passes (IsTrue (spec.has_only (map (λ n. n.now) names.now) (view value.now))) result }
{
    match value.as_object() {
        Some(members) if all_among(members, names) => Ok(()),
        Some(members) => Err(stranger(members, names)),
        None => Err(Why::Kind(Name::of(name))),
    }
}
