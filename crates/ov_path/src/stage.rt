// Where a line stands, with what its later turns need.

ghost use Rattle.std.specs.Prelude.{◌≡◌, ◌<◌, IfSome};
ghost use Rattle.ov_path.specs.Desks.{first_of};
ghost use Rattle.ov_path.specs.Stages.{ends, is_pause, left_in, ticked};
ghost use Rattle.ov_path.specs.declared.stage.Stage.TheVariants as stage;

use ov_base::{ListOf, Octets};
use ov_model::{Answer, Drawn, HoldView, PingOut, Use};
use std::alloc::Global;

/// What a hold is for.
#[derive(Clone, Copy)]
pub enum Purpose {
    /// A packet is sealed.
    Seal,
    /// A datagram is opened, whose head has this packet id.
    Open(u32),
}

/// Where a tick stands after its step.
#[derive(Clone, Copy)]
pub enum Pinging {
    /// No due peer was looked at yet.
    Ticked,
    /// The last due peer that was looked at takes no ping.
    Skipped,
    /// The due peer of this serial is held with its key.
    Looked(u32, HoldView),
    /// The key's counter was asked, for the ping of the peer of this serial.
    Drew(u32, HoldView, Drawn),
    /// The ping's outcome is known.
    Used(HoldView, Use),
    /// The key was given back.
    KeyGiven(HoldView, Use),
    /// The peer was given back, too.
    PeerGiven(HoldView, Use),
}

/// The peers that a tick removed and those that it found due, by their serials, and the outcomes of the pings
/// so far, in order.
#[derive(Drop)]
pub struct Pings {
    pub expired: ListOf<u32>,
    pub due: ListOf<u32>,
    /// How many of the due peers were looked at.
    pub next: usize,
    pub outs: ListOf<PingOut>,
}

/// Where a line stands: the stand of its events (`stand_at`), and what is known by then.
#[derive(Drop)]
pub enum Stage {
    /// Nothing happened yet.
    Fresh,
    /// A command was made, which is answered so.
    Replied(Answer),
    /// A peer and its key are held.
    Looked(HoldView, Purpose),
    /// The key's counter was asked.
    Drew(HoldView, Drawn),
    /// A datagram was opened and its packet id is fresh: the packet waits for the table's word.
    Judged(HoldView, Octets),
    /// What is held was put to use, and the line will be answered so.
    Used(HoldView, Use, Answer),
    /// The key was given back.
    KeyGiven(HoldView, Use, Answer),
    /// The peer was given back, too.
    PeerGiven(HoldView, Use, Answer),
    /// A tick's step was made.
    Ticking(Pinging, Pings),
}

impl Pinging {
    /// Whether nothing is held: the next due peer may be looked at.
    fn is_pause(self) -> bool
        ensures { result ≡ is_pause self }
    {
        match self {
            Pinging::Ticked => true,
            Pinging::Skipped => true,
            Pinging::PeerGiven(_, _) => true,
            Pinging::Looked(_, _) => false,
            Pinging::Drew(_, _, _) => false,
            Pinging::Used(_, _) => false,
            Pinging::KeyGiven(_, _) => false,
        }
    }
}

impl Pings {
    /// No ping was made yet.
    pub fn new(alloc: Global, expired: ListOf<u32>, due: ListOf<u32>) -> Pings
        ensures { result ≡ ticked expired due }
    {
        Pings {
            expired,
            due,
            next: 0,
            outs: ListOf::new(alloc),
        }
    }

    /// The next due peer that wasn't looked at yet; `None` exactly where there is none.
    pub fn next_due(&self) -> Option<u32>
        ensures first { result ≡ first_of (left_in self.now) }
        ensures most { IfSome result (λ peer. self.now.next < 18446744073709551615) }
    {
        self.due.as_slice().get(self.next).copied()
    }
}

impl Stage {
    /// The answer, at a line's last stage; any other stage as it is.
    pub fn into_answer(self) -> Result<Answer, Stage>
        ensures ends { result ≡ ends self }
    {
        match self {
            Stage::Replied(answer) => Ok(answer),
            Stage::PeerGiven(_, _, answer) => Ok(answer),
            Stage::Fresh => Err(Stage::Fresh),
            Stage::Looked(hold, purpose) => Err(Stage::Looked(hold, purpose)),
            Stage::Drew(hold, drawn) => Err(Stage::Drew(hold, drawn)),
            Stage::Judged(hold, packet) => Err(Stage::Judged(hold, packet)),
            Stage::Used(hold, made, answer) => Err(Stage::Used(hold, made, answer)),
            Stage::KeyGiven(hold, made, answer) => Err(Stage::KeyGiven(hold, made, answer)),
            Stage::Ticking(at, pings) => end_of_tick(at, pings),
        }
    }
}

/// The answer of a tick that holds nothing and has no due peer left; else it goes on.
fn end_of_tick(at: Pinging, pings: Pings) -> Result<Answer, Stage>
    ensures ends { result ≡ ends (stage.Ticking at pings) }
{
    if at.is_pause() && pings.next_due().is_none() {
        return Ok(Answer::Ticked {
            expired: pings.expired,
            pings: pings.outs,
        });
    }
    Err(Stage::Ticking(at, pings))
}
