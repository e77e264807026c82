//! What one step of the lists of peers and keys gives besides the lists.

ghost use Rattle.std.specs.Prelude.{◌≡◌, None};

use ov_model::{NoteBody, Reply};

/// The reply of a step, twice, since it is answered and also kept, the step's note, and the serials of the
/// keys that it took out of their slots, in order.
#[derive(Drop)]
pub struct Outcome {
    pub reply: Reply,
    pub kept: Reply,
    pub note: Option<NoteBody>,
    pub first: Option<u32>,
    pub second: Option<u32>,
}

impl Outcome {
    /// The outcome of a step without a note that takes no key, from its reply, twice.
    pub fn plain(reply: Reply, kept: Reply) -> Outcome
        ensures reply { result.reply ≡ reply }
        ensures kept { result.kept ≡ kept }
        ensures note { result.note ≡ None }
        ensures first { result.first ≡ None }
        ensures second { result.second ≡ None }
    {
        Outcome {
            reply,
            kept,
            note: None,
            first: None,
            second: None,
        }
    }
}
