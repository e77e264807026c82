// Words of four bytes, high byte first (FIPS 197, 3.5).

ghost use Rattle.std.specs.Prelude.{◌≡◌, ◌∷◌, []};
ghost use Rattle.std.specs.Int.{to_be_bytes, w32};
ghost use Rattle.ov_aes.specs.Words.{byte_of};

/// The word of four bytes.
pub fn word_of(a: u8, b: u8, c: u8, d: u8) -> u32
    ensures { to_be_bytes w32 result ≡ a ∷ b ∷ c ∷ d ∷ [] }
{
    u32::from_be_bytes([a, b, c, d])
}

/// The highest byte of a word.
pub fn byte0(w: u32) -> u8
    ensures { result ≡ byte_of w 0 }
{
    (w >> 24 & 0xff) as u8
}

/// The second byte of a word.
pub fn byte1(w: u32) -> u8
    ensures { result ≡ byte_of w 1 }
{
    (w >> 16 & 0xff) as u8
}

/// The third byte of a word.
pub fn byte2(w: u32) -> u8
    ensures { result ≡ byte_of w 2 }
{
    (w >> 8 & 0xff) as u8
}

/// The lowest byte of a word.
pub fn byte3(w: u32) -> u8
    ensures { result ≡ byte_of w 3 }
{
    (w & 0xff) as u8
}
