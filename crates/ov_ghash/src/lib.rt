//! GHASH of a list of blocks under a hash subkey (SP 800-38D), by rows of the subkey's products.
//!
//! A block is 16 bytes. It stands for a polynomial in x of degree below 128: the highest bit of its first
//! byte is the coefficient of x^0, the lowest bit of its last byte that of x^127.
#![tactic(auto)]

ghost use Rattle.std.specs.Prelude.{◌≡◌, ℕ, List, [], ◌∷◌, ◌++◌};
ghost use Rattle.ov_ghash.specs.Block.{ghash};
ghost use Rattle.ov_ghash.specs.Ghash.{Holds, fresh};

pub mod laws;
#[cfg(test)]
mod plain;
mod subkey;
mod table;
#[cfg(test)]
mod tests;

use std::fmt;
pub use subkey::HashKey;

/// GHASH in progress: the hash subkey, and the hash of the blocks so far.
///
/// A value has 528 bytes and owns nothing else, so that it is copied with a key. It is as secret as the
/// key: the subkey can be read off it.
#[derive(Clone, Copy)]
pub struct Ghash {
    key: HashKey,
    // The hash of the blocks so far.
    sum: [u8; 16],
}

/// It prints as its kind, with no byte of the subkey and none of the hash.
impl fmt::Debug for Ghash {
    fn fmt<W: fmt::Write>(&self, f: &mut fmt::Formatter<W>) -> fmt::Result {
        let key = &self.key;
        write!(f, "Ghash({key:?})")
    }
}

impl Ghash {
    /// A value that holds no block, under the hash subkey `h` (section 6.4): for GCM the cipher of the zero
    /// block. Any 16 bytes are a subkey.
    pub fn new(h: [u8; 16]) -> Ghash
        ensures holds { Holds result h [] }
        ensures value { result ≡ fresh h }
    {
        Ghash {
            key: HashKey::new(h),
            sum: [0; 16],
        }
    }

    /// Appends a block. What is shorter than a block the caller fills up, as GCM does with zero bytes.
    pub fn update(&mut self, block: [u8; 16])
        ensures { (h : List ℕ) (xs : List (List ℕ)) → Holds self.old h xs → Holds self.new h (xs ++ block ∷ []) }
    {
        self.sum = self.key.folded(self.sum, block);
    }

    /// GHASH of the blocks so far, in their order (section 6.4, Algorithm 2). The value stays as it was, and
    /// more blocks may follow.
    pub fn finish(&self) -> [u8; 16]
        ensures { (h : List ℕ) (xs : List (List ℕ)) → Holds self.now h xs → result ≡ ghash h xs }
    {
        self.sum
    }
}
