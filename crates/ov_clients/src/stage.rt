//! One thing that is made, is held by the cell 0, and comes to its end.
ghost use Rattle.std.specs.Prelude.{◌≡◌, ◌↔◌, IsTrue, MatchBool};

use ov_turn::Kept;

/// What was done to the thing.
#[derive(Clone, Copy, Debug, PartialEq, Eq)]
pub enum Deed {
    Made,
    Ended,
}

/// How far the thing has come.
#[derive(Clone, Copy, Debug, PartialEq, Eq)]
pub enum Stage {
    /// It isn't there yet.
    Unmade,
    /// It may be held anew.
    Live,
    /// It may be held still, but not anew.
    Dying,
}

impl Stage {
    /// Makes the thing, and says whether it did: it does once.
    pub fn make(&mut self) -> bool
        ensures { MatchBool result ((self.old ≡ Stage.Unmade) × (self.new ≡ Stage.Live)) (self.new ≡ self.old) }
    {
        if let Stage::Unmade = *self {
            *self = Stage::Live;
            return true;
        }
        false
    }

    /// Ends the thing, and says whether it did: it does once, where it was made.
    pub fn end(&mut self) -> bool
        ensures { MatchBool result ((self.old ≡ Stage.Live) × (self.new ≡ Stage.Dying)) (self.new ≡ self.old) }
    {
        if let Stage::Live = *self {
            *self = Stage::Dying;
            return true;
        }
        false
    }

    /// Whether the thing may be held anew.
    pub fn is_live(&self) -> bool
        ensures { IsTrue result ↔ (self.now ≡ Stage.Live) }
    {
        match self {
            Stage::Live => true,
            Stage::Unmade => false,
            Stage::Dying => false,
        }
    }
}

impl Kept for Stage {
    type Item = Deed;

    ghost use Rattle.ov_clients.specs.Stages.{deeds, live_cells, dying_cells};

    ghost history = { deeds };

    ghost live = { live_cells };

    ghost dying = { dying_cells };

    fn length(&self) -> u64 {
        match self {
            Stage::Unmade => 0,
            Stage::Live => 1,
            Stage::Dying => 2,
        }
    }
}
