//! What a seat knows, the rule of the table's words, and what each step tells its seat.
//!
//! The words are the ticket that is drawn next, the ticket that is served, the length of the history,
//! and then the cells. The one slot has the kept value, unless a seat is inside.
ghost use Rattle.ov_turn.specs.TurnRule.{IsTurned, whole};
ghost use Rattle.ov_turn.specs.Steps.{queues, enters, appends, leaves, meets, first_part, second_part, both_parts, no_part};

use crate::kept::Kept;
use atomic_table::{Join, Play, Split, TableRule};
use std::collections::LinkedList;

/// The word that counts the tickets drawn.
pub(crate) const TICKET: usize = 0;

/// The word that counts the tickets served.
pub(crate) const SERVING: usize = 1;

/// The word that has the length of the history.
pub(crate) const LENGTH: usize = 2;

/// The first cell's word.
pub(crate) const CELLS: usize = 3;

/// What a seat knows. No value of it is made: it is what proofs see of a seat.
pub struct View<I> {
    /// The number of the table's cells.
    pub cells: u64,
    /// Its part of the 4294967296 shares; 0 where another seat took it in.
    pub share: u64,
    /// The history that it has seen.
    pub seen: LinkedList<I>,
    /// What a seat that it took in had seen, until it has met the longer of the two.
    pub also: LinkedList<I>,
    /// Its own entries, each with its position in the history.
    pub own: LinkedList<(u64, I)>,
    /// The cells that it holds.
    pub holds: LinkedList<u64>,
    /// The cells whose release it owes.
    pub owes: LinkedList<u64>,
    /// While it is inside: the cells that are live since the last append, or since it entered.
    pub live: LinkedList<u64>,
    /// While it is inside: the cells that are dying since then.
    pub dying: LinkedList<u64>,
    /// Cells that became live with the last append and aren't linked yet.
    pub to_link: LinkedList<u64>,
    /// Cells that became dying with the last append and are still linked.
    pub to_unlink: LinkedList<u64>,
    /// Whether it has a ticket.
    pub queued: bool,
    /// Whether it has the kept value.
    pub inside: bool,
    /// Its ticket, while it has one.
    pub ticket: u64,
}

/// The rule of the table's words.
pub(crate) struct TurnRule;

impl<S: Kept> TableRule<S, View<S::Item>, u64> for TurnRule {
    ghost holds = { λ count s. IsTurned S.history S.live S.dying count s };

    ghost first = { λ count. whole count };
}

/// Draws a ticket.
pub(crate) struct Queue;

impl<S, I> Play<S, View<I>> for Queue {
    ghost then = { queues };
}

/// Finds out whether the seat's ticket is served, and takes the kept value if so.
pub(crate) struct Enter;

impl<S: Kept> Play<S, View<S::Item>> for Enter {
    ghost then = { enters S.history S.live S.dying };
}

/// Counts one more entry.
pub(crate) struct Append;

impl<S: Kept> Play<S, View<S::Item>> for Append {
    ghost then = { appends S.history S.live S.dying };
}

/// Puts the kept value back, and serves the next ticket.
pub(crate) struct Leave;

impl<S, I> Play<S, View<I>> for Leave {
    ghost then = { leaves };
}

/// Learns which of the two histories that a joined seat had seen is the longer.
pub(crate) struct Meet;

impl<S, I> Play<S, View<I>> for Meet {
    ghost then = { meets };
}

/// Cuts one share off.
pub(crate) struct Cut;

impl<I> Split<View<I>> for Cut {
    ghost left = { first_part };

    ghost right = { second_part };
}

/// Takes another seat in.
pub(crate) struct Glue;

impl<I> Join<View<I>> for Glue {
    ghost both = { both_parts };

    ghost spent = { no_part };
}
