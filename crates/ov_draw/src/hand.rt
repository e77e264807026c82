//! What a seat knows of the counter words, the rule that these keep, and what each step tells.

use atomic_table::{Join, Play, Split, TableRule};
use std::collections::LinkedList;

/// What one seat has drawn. It stands in proofs alone: no value of it is made.
pub struct Hand {
    /// The seat's part of 4294967296; 0 once the seat was joined into another.
    pub share: u64,
    /// The number at which every counter begins.
    pub first: u64,
    /// The draws in their order, each a key and the id drawn of it.
    pub drawn: LinkedList<(u64, u64)>,
    /// The keys of which the seat was answered that no id is left.
    pub spent: LinkedList<u64>,
    /// The key at whose word the seat stands between its load and its addition.
    pub standing: Option<u64>,
}

/// The draw rule. The table is told the first number.
pub struct DrawRule;

impl TableRule<(), Hand, u64> for DrawRule {
    ghost use Rattle.ov_draw.specs.Rule.{Kept};
    ghost use Rattle.ov_draw.specs.Steps.{whole};

    ghost holds = { λ first s. Kept first 65536 s };

    ghost first = { whole };
}

/// The load before a draw: whether the key has ids left.
pub struct Look;

impl Play<(), Hand> for Look {
    ghost use Rattle.ov_draw.specs.Steps.{looked};

    ghost then = { looked };
}

/// The addition that draws.
pub struct Take;

impl Play<(), Hand> for Take {
    ghost use Rattle.ov_draw.specs.Steps.{took};

    ghost then = { took };
}

/// The load after a join: no id stands twice in a seat's draws.
pub struct Compare;

impl Play<(), Hand> for Compare {
    ghost use Rattle.ov_draw.specs.Steps.{compared};

    ghost then = { compared };
}

/// The load of the one seat that is left: its draws are all that were made.
pub struct Settle;

impl Play<(), Hand> for Settle {
    ghost use Rattle.ov_draw.specs.Steps.{settled};

    ghost then = { settled };
}

/// A new seat gets a share of 1, and nothing else.
pub struct Cut;

impl Split<Hand> for Cut {
    ghost use Rattle.ov_draw.specs.Steps.{kept_part, new_part};

    ghost left = { kept_part };

    ghost right = { new_part };
}

/// One seat gets all that the other has.
pub struct Glue;

impl Join<Hand> for Glue {
    ghost use Rattle.ov_draw.specs.Steps.{both_parts, spent_part};

    ghost both = { both_parts };

    ghost spent = { spent_part };
}
