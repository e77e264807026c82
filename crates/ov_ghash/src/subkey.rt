//! The hash subkey, ready for products: the products of each half of a byte, laid in rows.
//!
//! A product with the subkey is the sum of the products of the block's 32 half bytes. Row i has byte i of
//! the products of all 16 half bytes, so that one shuffle looks up byte i for all bytes of a block at once.
//! A shuffle reads its whole row: no address depends on a block or on the subkey.

ghost use Rattle.std.specs.Prelude.{◌≡◌, ℕ, ◌+◌, ◌*◌, ◌/◌, ◌%◌, ◌^◌, ◌<◌, ◌≢◌, bit_xor, List, ◌∷◌, [], ◌++◌, length, map, slice_index};
ghost use Rattle.std.specs.Simd.Lanes.{Each1};
ghost use Rattle.ov_ghash.specs.Block.{bits, number_of, ghash};
ghost use Rattle.ov_ghash.specs.Turn.{horner, products, turns};
ghost use Rattle.ov_ghash.specs.Rows.{rows};
ghost use Rattle.ov_ghash.specs.Parts.{part_kept, part_passed};
ghost use Rattle.ov_ghash.specs.Ghash.{IsPrepared, prepared};

use crate::table::{products_of, turned_by_four};
use std::fmt;
use std::simd::prelude::*;

/// A hash subkey that is ready for use.
///
/// A value has 512 bytes and owns nothing else, so that it is copied with a key. It is as secret as the
/// key, since the subkey can be read off it.
#[derive(Clone, Copy)]
pub struct HashKey {
    // The rows of the products of the subkey with the polynomials of degree below 4.
    first: [u8; 256],
    // The same of the subkey times x^4.
    second: [u8; 256],
}

/// The subkey prints as its kind, with no byte of it and of no product.
impl fmt::Debug for HashKey {
    fn fmt<W: fmt::Write>(&self, f: &mut fmt::Formatter<W>) -> fmt::Result {
        write!(f, "HashKey(128 bits)")
    }
}

// A block as the number that its 128 bits are.
fn number(block: [u8; 16]) -> u128
    ensures { result ≡ number_of block }
{
    u128::from_be_bytes(block)
}

// Writes the bytes of product `n`, the lowest first, into the rows.
fn put_product(rows: &mut [u8; 256], n: usize, bytes: [u8; 16])
    requires { n < 16 }
    ensures put { (i : ℕ) → i < 16 → slice_index rows.new (16 * i + n) ≡ slice_index bytes i }
    ensures kept { (k : ℕ) → k % 16 ≢ n → slice_index rows.new k ≡ slice_index rows.old k }
{
    for i in 0..16 {
        rows[16 * i + n] = bytes[i];
    }
}

// The rows of the products of a block with the 16 polynomials of degree below 4.
fn rows_of(h: u128) -> [u8; 256]
    ensures { rows h ≡ result }
{
    let products = products_of(h);
    let mut rows = [0; 256];
    for n in 0..16 {
        put_product(&mut rows, n, products[n].to_le_bytes());
    }
    rows
}

// The first halves of bytes, which have the coefficients from x^0 to x^3.
#[inline(always)]
fn first_halves(bytes: u8x16) -> u8x16
    ensures small { Each1 (λ x. x < 16) result }
    ensures halves { (k : ℕ) → k < 16 → slice_index result k ≡ slice_index bytes k / 16 }
{
    bytes >> 4
}

// The second halves of bytes.
#[inline(always)]
fn second_halves(bytes: u8x16) -> u8x16
    ensures small { Each1 (λ x. x < 16) result }
    ensures halves { (k : ℕ) → k < 16 → slice_index result k ≡ slice_index bytes k % 16 }
{
    bytes & u8x16::splat(15)
}

// Row `place` at each half byte.
#[inline(always)]
fn looked_up(rows: &[u8; 256], place: usize, halves: u8x16) -> u8x16
    requires place { place < 16 }
    requires halves { Each1 (λ x. x < 16) halves }
    ensures { (k : ℕ) → k < 16 →
        slice_index result k ≡ slice_index rows.now (16 * place + slice_index halves k) }
{
    u8x16::from_slice(&rows[16 * place..]).swizzle_dyn(halves)
}

// The bytes of `v` moved on by one place, behind the last byte of `before`: a product with x^8, in which
// the last byte of `v` falls out.
#[inline(always)]
fn moved(before: u8x16, v: u8x16) -> u8x16
    ensures first { slice_index result 0 ≡ slice_index before 15 }
    ensures rest { (k : ℕ) → k < 15 → slice_index result (k + 1) ≡ slice_index v k }
{
    before.shuffle(
        v,
        [
            15, 16, 17, 18, 19, 20, 21, 22, 23, 24, 25, 26, 27, 28, 29, 30,
        ],
    )
}

// What bytes past x^128 add to the bytes at their own places.
#[inline(always)]
fn parts_kept(low: u8x16) -> u8x16
    ensures { result ≡ map part_kept low }
{
    low ^ (low >> 1) ^ (low >> 2) ^ (low >> 7)
}

// What they add to the bytes one place on.
#[inline(always)]
fn parts_passed(low: u8x16) -> u8x16
    ensures { result ≡ map part_passed low }
{
    (low << 7) ^ (low << 6) ^ (low << 1)
}

// The remainder of a polynomial of degree below 248, of which `low` has the coefficients from x^128 on.
#[inline(always)]
fn reduced(high: u8x16, low: u8x16) -> u8x16
    requires { slice_index low 15 ≡ 0 }
    ensures { number_of result ≡ bit_xor (number_of high) (turns 128 (number_of low)) }
{
    high ^ parts_kept(low) ^ moved(u8x16::splat(0), parts_passed(low))
}

impl HashKey {
    /// The subkey of these bytes, ready for use (SP 800-38D, section 6.4). Any 16 bytes are a subkey.
    pub fn new(h: [u8; 16]) -> HashKey
        ensures prepared { IsPrepared result h }
        ensures value { result ≡ prepared h }
    {
        let h = number(h);
        HashKey {
            first: rows_of(h),
            second: rows_of(turned_by_four(h)),
        }
    }

    // The product of a block with the subkey, row by row.
    #[inline(always)]
    fn multiplied(&self, block: u8x16) -> u8x16
        ensures { (h : List ℕ) → IsPrepared self.now h →
            number_of result ≡ horner (bits 128 (number_of block)) (number_of h) }
    {
        let firsts = first_halves(block);
        let seconds = second_halves(block);
        let mut high = u8x16::splat(0);
        let mut low = u8x16::splat(0);
        'each: for place in 0..16 {
            let row = looked_up(&self.first, place, firsts)
                ^ looked_up(&self.second, place, seconds);
            let next = moved(high, low);
            high = row ^ moved(u8x16::splat(0), high);
            low = next;
        }
        reduced(high, low)
    }

    /// GHASH of blocks and one block more, of which `sum` is GHASH of those before: 16 zero bytes where
    /// there are none (section 6.4, Algorithm 2). What is shorter than a block the caller fills up, as GCM
    /// does with zero bytes.
    pub fn folded(&self, sum: [u8; 16], block: [u8; 16]) -> [u8; 16]
        ensures { (h : List ℕ) (xs : List (List ℕ)) → IsPrepared self.now h →
            ghash h xs ≡ sum → ghash h (xs ++ block ∷ []) ≡ result }
    {
        let text = u8x16::from_array(sum) ^ u8x16::from_array(block);
        self.multiplied(text).to_array()
    }
}
