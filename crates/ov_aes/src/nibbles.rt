//! SubBytes by look-ups of half bytes in vectors.
//!
//! A byte of the state is kept in an inner form, another basis of the same field over the field of 16, in
//! which an inverse takes four look-ups in tables of 16 entries. A vector's shuffle looks all 16 bytes up
//! at once, and reads the whole table whatever they are: no address depends on a key or on a text.
//! S is the inverse and an affine map (FIPS 197, 5.1.1); the map is part of the last two look-ups.

ghost use Rattle.std.specs.Prelude.{◌≡◌, ◌/◌, ℕ, List, bit_and, map};
ghost use borrow.Rule.Simd.Moves.{SwzOk};
ghost use mir.Syntax.{w8};
ghost use Rattle.ov_aes.specs.SBox.{sub_bytes};
ghost use Rattle.ov_aes.specs.Nibbles.{AreBytes, entry, first_place, inner, nibble_sum, second_place};

use std::simd::prelude::*;

/// The inverse of each element but 0 of the field of 16, and 128 for 0, so that a look-up there gives 0.
const INVERSES: [u8; 16] = [
    0x80, 0x01, 0x08, 0x0d, 0x0f, 0x06, 0x05, 0x0e, 0x02, 0x0c, 0x0b, 0x0a, 0x09, 0x03, 0x07, 0x04,
];

/// The inverse times a constant of the field, with 128 for 0.
const SCALED: [u8; 16] = [
    0x80, 0x07, 0x0b, 0x0f, 0x06, 0x0a, 0x04, 0x01, 0x09, 0x08, 0x05, 0x02, 0x0c, 0x0e, 0x0d, 0x03,
];

/// The inner form of each byte below 16.
const INNER_LOW: [u8; 16] = [
    0x00, 0x70, 0x2a, 0x5a, 0x98, 0xe8, 0xb2, 0xc2, 0x08, 0x78, 0x22, 0x52, 0x90, 0xe0, 0xba, 0xca,
];

/// The inner form of 16 times each number below 16.
const INNER_HIGH: [u8; 16] = [
    0x00, 0x4d, 0x7c, 0x31, 0x7d, 0x30, 0x01, 0x4c, 0x81, 0xcc, 0xfd, 0xb0, 0xfc, 0xb1, 0x80, 0xcd,
];

/// The inner form of S, less 0x63, by the first place.
pub const ONCE_FIRST: [u8; 16] = [
    0x00, 0x3e, 0x50, 0xcb, 0x8f, 0xe1, 0x9b, 0xb1, 0x44, 0xf5, 0x2a, 0x14, 0x6e, 0x7a, 0xdf, 0xa5,
];

/// The same by the second place.
pub const ONCE_SECOND: [u8; 16] = [
    0x00, 0x23, 0xe2, 0xfa, 0x15, 0xd4, 0x18, 0x36, 0xef, 0xd9, 0x2e, 0x0d, 0xc1, 0xcc, 0xf7, 0x3b,
];

/// The inner form of twice S, less 0x63, by the first place.
pub const TWICE_FIRST: [u8; 16] = [
    0x00, 0x24, 0x71, 0x0b, 0xc6, 0x93, 0x7a, 0xe2, 0xcd, 0x2f, 0x98, 0xbc, 0x55, 0xe9, 0xb7, 0x5e,
];

/// The same by the second place.
pub const TWICE_SECOND: [u8; 16] = [
    0x00, 0x29, 0xe1, 0x0a, 0x40, 0x88, 0xeb, 0x69, 0x4a, 0x23, 0x82, 0xab, 0xc8, 0x63, 0xa1, 0xc2,
];

/// S, less 0x63, as a byte of the standard, by the first place.
pub const LAST_FIRST: [u8; 16] = [
    0x00, 0xc7, 0xbd, 0x6f, 0x17, 0x6d, 0xd2, 0xd0, 0x78, 0xa8, 0x02, 0xc5, 0x7a, 0xbf, 0xaa, 0x15,
];

/// The same by the second place.
pub const LAST_SECOND: [u8; 16] = [
    0x00, 0x6a, 0xbb, 0x5f, 0xa5, 0x74, 0xe4, 0xcf, 0xfa, 0x35, 0x2b, 0x41, 0xd1, 0x90, 0x1e, 0x8e,
];

/// A table's entry at each place, and 0 at places from 128 on.
#[inline(always)]
fn looked_up(table: [u8; 16], places: u8x16) -> u8x16
    requires { SwzOk w8 16 16 0 places }
    ensures { result ≡ map (entry table) places }
{
    u8x16::from_array(table).swizzle_dyn(places)
}

/// The higher half of each byte.
#[inline(always)]
fn high_halves(bytes: u8x16) -> u8x16
    ensures { result ≡ map (λ x. x / 16) bytes }
{
    bytes >> 4
}

/// The lower half of each byte.
#[inline(always)]
fn low_halves(bytes: u8x16) -> u8x16
    ensures { result ≡ map (λ x. bit_and x 15) bytes }
{
    bytes & u8x16::splat(15)
}

/// The inner form of bytes.
#[inline(always)]
pub fn inner_form(bytes: u8x16) -> u8x16
    ensures { result ≡ map inner bytes }
{
    looked_up(INNER_LOW, low_halves(bytes)) ^ looked_up(INNER_HIGH, high_halves(bytes))
}

/// The two places in the last tables for bytes in the inner form.
#[inline(always)]
pub fn places(state: u8x16) -> (u8x16, u8x16)
    ensures first { result.0 ≡ map first_place state }
    ensures second { result.1 ≡ map second_place state }
    ensures first_in { SwzOk w8 16 16 0 result.0 }
    ensures second_in { SwzOk w8 16 16 0 result.1 }
{
    let high = high_halves(state);
    let low = low_halves(state);
    let both = high ^ low;
    let scaled = looked_up(SCALED, low);
    let of_high = looked_up(INVERSES, high) ^ scaled;
    let of_both = looked_up(INVERSES, both) ^ scaled;
    (
        looked_up(INVERSES, of_high) ^ both,
        looked_up(INVERSES, of_both) ^ high,
    )
}

/// The sum of the entries of two tables at two places.
#[inline(always)]
pub fn summed(first: [u8; 16], second: [u8; 16], places: (u8x16, u8x16)) -> u8x16
    requires first { SwzOk w8 16 16 0 places.0 }
    requires second { SwzOk w8 16 16 0 places.1 }
    ensures { (s : List ℕ) → places.0 ≡ map first_place s → places.1 ≡ map second_place s →
        result ≡ map (nibble_sum first second) s }
{
    looked_up(first, places.0) ^ looked_up(second, places.1)
}

/// SubBytes of bytes that aren't in the inner form.
pub fn substituted(bytes: u8x16) -> u8x16
    ensures { result ≡ sub_bytes bytes }
{
    summed(LAST_FIRST, LAST_SECOND, places(inner_form(bytes))) ^ u8x16::splat(0x63)
}
