//! The counters of all keys, and the seats that draw from them.
ghost use Rattle.std.specs.Prelude.{◌≡◌, ℕ, ◌+◌, ◌-◌, ◌<◌, ◌≤◌, [], ◌∷◌, ◌++◌, IfOk};
ghost use Rattle.ov_draw.specs.Drawer.{Counters, Drawer, IfId, OnSpent, IsAbove, AreApart};

use crate::hand::{Compare, Cut, DrawRule, Glue, Hand, Look, Take};
use atomic_table::{Seat, Table};
use ov_base::Memory;
use ov_model::Drawn;
use std::alloc::Global;
use std::marker::Model;

/// The number of keys, each with a counter of its own.
pub const KEYS: usize = 65_536;

/// Ids are below this number, so the last is 4294967295.
const END: u64 = 4_294_967_296;

/// 65,536 counters that threads draw packet ids from, one for each key.
///
/// A packet id is part of the nonce, and no nonce may serve twice under one key (SP 800-38D, section 8).
/// Contracts see which counters they are and the number at which each begins.
#[derive(Drop)]
pub struct Draws {
    pub(crate) table: Table<(), Hand, u64, DrawRule, Global>,
}

impl Model for Draws {
    ghost use Rattle.std.specs.Prelude.{◌≡◌};
    ghost use Rattle.ov_draw.specs.Drawer.{Counters};

    ghost Value = { Counters };

    ghost view = { λ d. record { name = d.table.shared.table_id; first = d.table.shared.key } };

    ghost invariant = { λ d. d.table.shared.table_id.words ≡ 65536 };
}

/// One thread's right to draw. It has no bytes.
///
/// Contracts see its counters, its share, what it has drawn, and the keys that it found spent. The shares of all seats
/// of one `Draws` are together 4294967296, so a seat whose share is the whole is the one seat that is left.
#[derive(Drop)]
pub struct DrawSeat {
    pub(crate) seat: Seat<(), Hand>,
}

impl Model for DrawSeat {
    ghost use Rattle.ov_draw.specs.Drawer.{Drawer};

    ghost Value = { Drawer };

    ghost use Rattle.ov_draw.specs.Fields.{drawer_of, IsFree};

    ghost view = { λ s. drawer_of s.seat };

    ghost invariant = { λ s. IsFree s.seat };
}

impl Draws {
    /// Counters that all begin at `first`, and the seat with the whole share, which has drawn nothing.
    ///
    /// `Memory` says that memory ran out; no clause ties it to that.
    pub fn new(alloc: Global, first: u32) -> Result<(Draws, DrawSeat), Memory>
        requires { 1 ≤ first }
        ensures first { IfOk result (λ r. r.0.first ≡ first) }
        ensures seat { IfOk result (λ r. r.1 ≡ record { of = r.0; share = 4294967296; drawn = []; spent = [] }) }
    {
        let start = u64::from(first);
        let words = Vec::from_elem(alloc, start, KEYS)?;
        let (table, seat) = Table::of_words(alloc, words.as_slice(), &start)?;
        Ok((Draws { table }, DrawSeat { seat }))
    }

    /// Draws the next id of a key, or says that the key has given its last, 4294967295.
    ///
    /// After `Spent` the key stands among the seat's spent keys.
    pub fn draw(&self, seat: &mut DrawSeat, key: u32) -> Drawn
        requires key { key < 65536 }
        requires seat { seat.old.of ≡ self.now }
        ensures drawn { IfId result (λ n. seat.new ≡ record seat.old { drawn = seat.old.drawn ++ (key, n) ∷ [] }) }
        ensures first { IfId result (λ n. self.now.first ≤ n) }
        ensures rises { IfId result (λ n. IsAbove key n seat.old.drawn) }
        ensures spent { OnSpent result (seat.new ≡ record seat.old { spent = seat.old.spent ++ key ∷ [] }) }
    {
        let word = key as usize;
        let shared = &self.table.shared;
        if shared.load::<Look>(&mut seat.seat, word) >= END {
            return Drawn::Spent;
        }
        let found = shared.fetch_add::<Take>(&mut seat.seat, word, 1);
        if found >= END {
            Drawn::Spent
        } else {
            Drawn::Id(found as u32)
        }
    }

    /// Makes a second seat, with a share of 1, which has drawn nothing. The first keeps the rest.
    pub fn split(&self, seat: DrawSeat) -> (DrawSeat, DrawSeat)
        requires seat { seat.of ≡ self.now }
        requires share { 2 ≤ seat.share }
        ensures first { result.0 ≡ record seat { share = seat.share - 1 } }
        ensures second { result.1 ≡ record { of = self.now; share = 1; drawn = []; spent = [] } }
    {
        let DrawSeat { mut seat } = seat;
        let second = self.table.shared.split_seat::<Cut>(&mut seat);
        (DrawSeat { seat }, DrawSeat { seat: second })
    }

    /// Makes one seat of two, which has what both had. Of no key have the two drawn an id in common.
    pub fn join(&self, left: DrawSeat, right: DrawSeat) -> DrawSeat
        requires left { left.of ≡ self.now }
        requires right { right.of ≡ self.now }
        ensures both { result ≡ record { of = self.now; share = left.share + right.share; drawn = left.drawn ++ right.drawn; spent = left.spent ++ right.spent } }
        ensures apart { AreApart left.drawn right.drawn }
    {
        let DrawSeat { mut seat } = left;
        let DrawSeat { seat: other } = right;
        let shared = &self.table.shared;
        shared.join_seat::<Glue>(&mut seat, other);
        let _word = shared.load::<Compare>(&mut seat, 0);
        DrawSeat { seat }
    }
}
