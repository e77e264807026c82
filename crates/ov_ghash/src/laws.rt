//! Laws of the definitions that the contracts cite. Each is a function that does nothing.

ghost use Rattle.std.specs.Prelude.{◌≡◌, ◌<◌, ◌^◌, ℕ, Bool, List, [], ◌∷◌, ◌++◌};
ghost use Rattle.ov_ghash.specs.Block.{bits, sum_of_powers};
ghost use Rattle.ov_ghash.specs.Polynomial.{variable, plus, power, times};
ghost use Rattle.ov_ghash.specs.Turn.{turns};

/// A block that is turned by k bits is its product with x^k (SP 800-38D, section 6.3).
///
/// The rows stand on it: a row more turns the sum by eight bits, and the rows of a byte's second half are
/// of the subkey turned by four.
pub fn turning_multiplies()
    ensures by_any { (k z : ℕ) → z < 2 ^ 128 → bits 128 (turns k z) ≡ times (power variable k) (bits 128 z) }
    ensures by_four { (z : ℕ) → z < 2 ^ 128 → bits 128 (turns 4 z) ≡ times (power variable 4) (bits 128 z) }
    ensures by_eight { (z : ℕ) → z < 2 ^ 128 → bits 128 (turns 8 z) ≡ times (power variable 8) (bits 128 z) }
{}

/// The sum of powers is what Algorithm 2 of section 6.4 computes: of no block it is zero, and a block
/// more is added to the sum before the product with the subkey.
pub fn blocks_are_taken_in_turn()
    ensures none { (h : List Bool) → sum_of_powers h [] ≡ bits 128 0 }
    ensures more { (h x : List Bool) (xs : List (List Bool)) → sum_of_powers h (xs ++ x ∷ []) ≡ times (plus (sum_of_powers h xs) x) h }
{}
