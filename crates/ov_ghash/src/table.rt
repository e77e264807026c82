//! The products of a block with the polynomials of low degree.
//!
//! A block is a `u128` whose highest bit is the coefficient of x^0. A turn multiplies it by x: it moves the
//! bits down by one, and adds the block R where a one falls out.

ghost use Rattle.std.specs.Prelude.{◌≡◌, ◌<◌, ◌≤◌, ◌+◌, ◌*◌, ℕ, bit_xor, slice_index};
ghost use Rattle.ov_ghash.specs.Block.{bits};
ghost use Rattle.ov_ghash.specs.Turn.{turn, turns, horner, products};

// The block R of SP 800-38D, section 6.3: 11100001 and then zeros.
const R: u128 = 0xe1 << 120;

// One turn.
pub fn turned(z: u128) -> u128
    ensures { result ≡ turn z }
{
    (z >> 1) ^ (z & 1) * R
}

// Four turns.
pub fn turned_by_four(z: u128) -> u128
    ensures { result ≡ turns 4 z }
{
    turned(turned(turned(turned(z))))
}

// Fills as many places again: each of the first `count` products plus `product`.
fn double(table: &mut [u128; 16], count: usize, product: u128)
    requires { count ≤ 8 }
    ensures kept { (k : ℕ) → k < count → slice_index table.new k ≡ slice_index table.old k }
    ensures added { (k : ℕ) → k < count → slice_index table.new (count + k) ≡ bit_xor (slice_index table.old k) product }
{
    for i in 0..count {
        table[count + i] = table[i] ^ product;
    }
}

// The products of a block with the 16 polynomials of degree below 4.
pub fn products_of(h: u128) -> [u128; 16]
    ensures { products h ≡ result }
{
    let by_x = turned(h);
    let by_x2 = turned(by_x);
    let by_x3 = turned(by_x2);
    let mut table = [0; 16];
    double(&mut table, 1, by_x3);
    double(&mut table, 2, by_x2);
    double(&mut table, 4, by_x);
    double(&mut table, 8, h);
    table
}
