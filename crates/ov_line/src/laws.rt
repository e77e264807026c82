//! What follows from the definitions alone. Each law is the contract of a function that does nothing.

ghost use Rattle.std.specs.Prelude.{◌≡◌, ℕ, List};
ghost use Rattle.ov_model.specs.declared.line.Line.{Line};
ghost use Rattle.ov_line.specs.Grammar.{Says};

/// Bytes say one line at most.
pub fn one_line()
    ensures one { (bytes : List ℕ) → (lanes : ℕ) → (a b : Line) → Says bytes lanes a
        → Says bytes lanes b → a ≡ b }
{}
