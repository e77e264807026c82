//! The parts of a compact text, each taken off its front or its end.

ghost use Rattle.std.specs.Prelude.{◌≡◌, ◌≢◌, ◌++◌, ℕ, List, IfSome, MatchOption, decimal};
ghost use Rattle.std.specs.Net.Grammar.{IsDotted};

use itoa::Buffer;
use memchr::memchr;
use std::net::Ipv4Addr;

/// What follows a front.
pub fn after<'a>(text: &'a [u8], front: &[u8]) -> Option<&'a [u8]>
    ensures { MatchOption result
        ((rest : List ℕ) → text.now ≢ front.now ++ rest)
        (λ rest. text.now ≡ front.now ++ rest.now) }
{
    text.strip_prefix(front)
}

/// What precedes an end.
pub fn before<'a>(text: &'a [u8], end: &[u8]) -> Option<&'a [u8]>
    ensures { MatchOption result
        ((front : List ℕ) → text.now ≢ front ++ end.now)
        (λ front. text.now ≡ front.now ++ end.now) }
{
    text.strip_suffix(end)
}

/// A number that the text may begin with: only printing it tells whether it does.
fn guessed(text: &[u8]) -> u32 {
    let mut number: u32 = 0;
    for byte in text {
        if !byte.is_ascii_digit() {
            break;
        }
        number = number
            .wrapping_mul(10)
            .wrapping_add(u32::from(byte.wrapping_sub(b'0')));
    }
    number
}

/// The number that a text begins with, and what follows it.
pub fn number(text: &[u8]) -> Option<(u32, &[u8])>
    ensures { IfSome result (λ p. text.now ≡ decimal p.0 ++ p.1.now) }
{
    let number = guessed(text);
    let mut buffer = Buffer::new();
    let rest = after(text, buffer.format(number).as_bytes())?;
    Some((number, rest))
}

/// The text in front of the first quote, and the rest from the quote on.
pub fn until_quote(text: &[u8]) -> Option<(&[u8], &[u8])>
    ensures { IfSome result (λ p. text.now ≡ p.0.now ++ p.1.now) }
{
    text.split_at_checked(memchr(b'"', text)?)
}

/// The four bytes of an IPv4 address in dotted decimal, in network order; `None` where the text is none.
pub fn octets_of(text: &[u8]) -> Option<[u8; 4]>
    ensures { IfSome result (λ octets. IsDotted text.now octets) }
{
    match Ipv4Addr::parse_ascii(text) {
        Ok(address) => Some(address.octets()),
        Err(_) => None,
    }
}
