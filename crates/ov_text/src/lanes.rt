//! Hexadecimal digits of bytes, sixteen bytes at a time.

ghost use Rattle.std.specs.Prelude.{◌≡◌, ◌++◌, ◌≤◌, ◌/◌, ◌%◌, [], ◌∷◌, IfOk, OnOk, length, map, slice_index, take};
ghost use Rattle.hex.specs.Hex.{encode_lower, lower_digits};

use ov_base::Memory;
use std::simd::prelude::*;

/// The hexadecimal digits, by their value.
const DIGITS: [u8; 16] = *b"0123456789abcdef";

/// The digits of the high four bits of sixteen bytes.
#[inline(always)]
fn high_digits(bytes: u8x16) -> u8x16
    ensures { result ≡ map (λ b. slice_index lower_digits (b / 16)) bytes }
{
    u8x16::from_array(DIGITS).swizzle_dyn(bytes >> u8x16::splat(4))
}

/// The digits of the low four bits of sixteen bytes.
#[inline(always)]
fn low_digits(bytes: u8x16) -> u8x16
    ensures { result ≡ map (λ b. slice_index lower_digits (b % 16)) bytes }
{
    u8x16::from_array(DIGITS).swizzle_dyn(bytes & u8x16::splat(15))
}

/// The digits of sixteen bytes: those of the first eight, and those of the last eight.
#[inline(always)]
fn block_digits(bytes: u8x16) -> (u8x16, u8x16)
    ensures { result.0 ++ result.1 ≡ encode_lower bytes }
{
    high_digits(bytes).interleave(low_digits(bytes))
}

/// Puts the digits of sixteen bytes at the end of a page.
fn append_block(page: &mut Vec<u8>, bytes: u8x16) -> Result<(), Memory>
    ensures { OnOk result (page.new.items ≡ page.old.items ++ encode_lower bytes) }
{
    let (front, back) = block_digits(bytes);
    page.extend_from_slice(&front.to_array())?;
    page.extend_from_slice(&back.to_array())?;
    Ok(())
}

/// Puts the digits of those bytes that fill blocks of sixteen, and says how many bytes these are.
pub(crate) fn append_blocks(page: &mut Vec<u8>, bytes: &[u8]) -> Result<usize, Memory>
    ensures within { IfOk result (λ n. n ≤ length bytes.now) }
    ensures text { IfOk result (λ n. page.new.items ≡ page.old.items ++ encode_lower (take n bytes.now)) }
{
    let mut at = 0;
    'each_block: while bytes.len() - at >= 16 {
        let rest = &bytes[at..];
        append_block(page, u8x16::from_slice(rest))?;
        at += 16;
    }
    Ok(at)
}

/// Puts the digits of bytes one by one.
pub(crate) fn append_rest(page: &mut Vec<u8>, bytes: &[u8]) -> Result<(), Memory>
    ensures { OnOk result (page.new.items ≡ page.old.items ++ encode_lower bytes.now) }
{
    for byte in bytes {
        append_byte(page, *byte)?;
    }
    Ok(())
}

/// Puts the two digits of a byte.
fn append_byte(page: &mut Vec<u8>, byte: u8) -> Result<(), Memory>
    ensures { OnOk result (page.new.items ≡ page.old.items ++ encode_lower (byte ∷ [])) }
{
    let digits = [DIGITS[(byte / 16) as usize], DIGITS[(byte % 16) as usize]];
    page.extend_from_slice(&digits)?;
    Ok(())
}
