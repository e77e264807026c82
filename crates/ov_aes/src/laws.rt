// Laws of the definitions that the contracts cite. Each is a function that does nothing.

ghost use Rattle.std.specs.Prelude.{◌≡◌, ℕ, List, length};
ghost use Rattle.ov_aes.specs.Aes.{IsKeyLength};
ghost use Rattle.ov_aes.specs.Cipher.{aes};

/// What the cipher makes of a block has 16 bytes, for each length of a key (FIPS 197, 5).
pub fn blocks_have_sixteen_bytes()
    ensures { (key block : List ℕ) → IsKeyLength (length key) → length (aes key block) ≡ 16 }
{}
