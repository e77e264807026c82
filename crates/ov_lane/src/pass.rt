//! A pass: the right of one lane to take part in a shared table.

ghost use Rattle.std.specs.Prelude.{◌≡◌};
ghost use Rattle.ov_share.specs.Keepings.{IsOrderly};
ghost use Rattle.ov_ticket.specs.Within.{HasRoom};

use ov_model::Owed;
use ov_share::Share;
use std::collections::VecDeque;
use std::marker::Model;

/// The right to make calls at a shared table, on one thread at a time. It knows what it has seen of the history
/// and which entries are its own. It keeps room for every release that it may come to owe, so that no removal and no
/// give-back needs memory.
#[derive(Drop)]
pub struct Pass {
    pub(crate) number: u32,
    // How many of its lines are answered.
    pub(crate) lines: u64,
    pub(crate) share: Share,
    // The releases that a call owes, in order. It is empty between calls.
    pub(crate) owed: VecDeque<Owed>,
}

impl Model for Pass {
    ghost use Rattle.ov_ticket.specs.Within.{HasRoom};
    ghost use Rattle.ov_share.specs.Keepings.{IsOrderly};
    ghost use Rattle.ov_share.specs.Passings.{Passing};

    ghost Value = { Passing };

    ghost view = { λ p. record { number = p.number; lines = p.lines; share = p.share } };

    ghost invariant = { λ p. HasRoom p.owed × IsOrderly p.number p.share };
}

impl Pass {
    /// How many of the pass's lines are answered.
    pub fn lines(&self) -> u64
        ensures { result ≡ self.now.lines }
    {
        self.lines
    }

    /// The pass's number.
    pub fn number(&self) -> u32
        ensures { result ≡ self.now.number }
    {
        self.number
    }

    /// Its number, how many of its lines are answered, its share, and the room for the releases that it may come to owe.
    pub fn into_parts(self) -> (u32, u64, Share, VecDeque<Owed>)
        ensures number { result.0 ≡ self.number }
        ensures lines { result.1 ≡ self.lines }
        ensures share { result.2 ≡ self.share }
        ensures orderly { IsOrderly self.number self.share }
        ensures room { HasRoom result.3 }
    {
        let Pass {
            number,
            lines,
            share,
            owed,
        } = self;
        (number, lines, share, owed)
    }

    /// A pass of its parts.
    pub fn of_parts(number: u32, lines: u64, share: Share, owed: VecDeque<Owed>) -> Pass
        requires orderly { IsOrderly number share }
        requires room { HasRoom owed }
        ensures { result ≡ record { number = number; lines = lines; share = share } }
    {
        Pass {
            number,
            lines,
            share,
            owed,
        }
    }
}
