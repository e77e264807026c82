// The powers of x, which the round constants are.

ghost use Rattle.std.specs.Prelude.{◌≡◌, ◌<◌};
ghost use Rattle.ov_aes.specs.Field.{power_of_x};

/// The powers of x in the field, from x to the 0 on (FIPS 197, 5.2).
static POWERS: [u8; 10] = [0x01, 0x02, 0x04, 0x08, 0x10, 0x20, 0x40, 0x80, 0x1b, 0x36];

/// The power of x to the n, which the key schedule adds (FIPS 197, 5.2).
pub fn power(n: usize) -> u8
    requires { n < 10 }
    ensures { result ≡ power_of_x n }
{
    POWERS[n]
}
