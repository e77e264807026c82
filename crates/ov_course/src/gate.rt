//! Where a lane waits for others, before a line and after it.

use ov_model::Place;

/// What the lanes of a script agree on about the order of their lines. A gate sees the place of a line and nothing else, so it
/// changes nothing that a line does.
pub trait Gate {
    /// The line at this place begins as soon as this returns.
    fn before(&self, place: Place);

    /// The line at this place is over.
    fn after(&self, place: Place);
}

/// No line waits for another.
#[derive(Clone, Copy, Debug)]
pub struct OpenGate;

impl Gate for OpenGate {
    fn before(&self, _place: Place) {}

    fn after(&self, _place: Place) {}
}
