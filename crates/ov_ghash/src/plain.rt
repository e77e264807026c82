//! The product of two blocks bit by bit, which the tests compare the tables with.

ghost use Rattle.std.specs.Prelude.{◌≡◌};
ghost use Rattle.ov_ghash.specs.Block.{bits};
ghost use Rattle.ov_ghash.specs.Polynomial.{times};

use crate::table::turned;

// Algorithm 1 of SP 800-38D, section 6.3.
pub fn product(x: u128, y: u128) -> u128
    ensures { bits 128 result ≡ times (bits 128 x) (bits 128 y) }
{
    let mut z = 0;
    let mut v = y;
    'each: for i in 0..128u32 {
        if x >> (127 - i) & 1 == 1 {
            z ^= v;
        }
        v = turned(v);
    }
    z
}
