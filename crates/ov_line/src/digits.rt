//! Hexadecimal digits into bytes, sixteen bytes at a time.

ghost use Rattle.std.specs.Prelude.{◌≡◌, ◌<◌, ◌++◌, [], ℕ, List, length, map, Ok, IfOk, IfSome};
ghost use Rattle.hex.specs.Hex.{decode_of};
ghost use Rattle.ov_line.specs.Digits as spec;

use ov_base::{Memory, Octets};
use std::alloc::Global;
use std::simd::prelude::*;

/// What each lane's digit stands for, of either case; 255 where the lane has no digit.
#[inline(always)]
fn values(digits: u8x16) -> u8x16
    ensures { result ≡ map spec.value_of digits }
{
    let decimal = digits - u8x16::splat(b'0');
    let letter = (digits | u8x16::splat(0x20)) - u8x16::splat(b'a');
    let of_letter = letter
        .simd_lt(u8x16::splat(6))
        .select(letter + u8x16::splat(10), u8x16::splat(255));
    decimal.simd_lt(u8x16::splat(10)).select(decimal, of_letter)
}

/// The high digits of sixteen bytes, and the low ones.
#[inline(always)]
fn apart(digits: &[u8; 32]) -> (u8x16, u8x16)
    ensures { digits.now ≡ spec.woven result.0 result.1 }
{
    u8x16::from_slice(&digits[..16]).deinterleave(u8x16::from_slice(&digits[16..]))
}

/// The bytes of the values of their high and their low digits; `None` where one of these is above 15.
#[inline(always)]
fn joined(high: u8x16, low: u8x16) -> Option<[u8; 16]>
    ensures { IfSome result (λ bytes. spec.AreJoined high low bytes) }
{
    let strange = low.simd_max(high).simd_gt(u8x16::splat(15));
    if strange.to_bitmask() != 0 {
        return None;
    }
    Some(((high << 4) | low).to_array())
}

/// The sixteen bytes of 32 digits; `None` where one of them is no digit.
#[inline(always)]
fn sixteen(digits: &[u8; 32]) -> Option<[u8; 16]>
    ensures { IfSome result (λ bytes. spec.AreDigits digits.now bytes) }
{
    let (high, low) = apart(digits);
    joined(values(high), values(low))
}

/// The bytes of fewer than 32 digits, behind which zeros are added; `None` where one is no digit.
fn padded(digits: &[u8]) -> Option<[u8; 16]>
    requires few { length digits.now < 32 }
    ensures { IfSome result (λ bytes. (others : List ℕ)
        × spec.AreDigits (digits.now ++ others) bytes) }
{
    let mut whole = [b'0'; 32];
    whole[..digits.len()].copy_from_slice(digits);
    sixteen(&whole)
}

/// Reads the digits in front, 32 at a time, and gives those that are left, fewer than 32; `None` where one
/// of those read is no digit.
fn add_front<'a>(digits: &'a [u8], bytes: &mut Vec<u8>) -> Result<Option<&'a [u8]>, Memory>
    requires empty { bytes.old.items ≡ [] }
    ensures { IfOk result (λ found. IfSome found (λ rest. (length rest.now < 32)
        × spec.ReadTo digits.now rest.now bytes.new.items)) }
{
    let mut rest = digits;
    'turns: while let Some((front, behind)) = rest.split_first_chunk::<32>() {
        let Some(part) = sixteen(front) else {
            return Ok(None);
        };
        bytes.extend_from_slice(&part)?;
        rest = behind;
    }
    Ok(Some(rest))
}

/// The bytes of some digits; `None` where they are of none: another character, or an odd number of digits.
pub fn bytes_of(alloc: Global, digits: &[u8]) -> Result<Option<Octets>, Memory>
    ensures { IfOk result (λ found. IfSome found (λ bytes. decode_of digits.now ≡ Ok bytes)) }
{
    if digits.len() % 2 != 0 {
        return Ok(None);
    }
    let mut bytes = Vec::with_capacity(alloc, digits.len() / 2)?;
    let Some(rest) = add_front(digits, &mut bytes)? else {
        return Ok(None);
    };
    let Some(last) = padded(rest) else {
        return Ok(None);
    };
    bytes.extend_from_slice(&last[..rest.len() / 2])?;
    Ok(Some(Octets::of_vec(bytes)))
}
