//! The replay window of one key: the rule over the list of all ids that the key has accepted, kept
//! in the room of 2,048 marks and four numbers.

ghost use Rattle.std.specs.Prelude.{◌≡◌, ℕ, List, [], ◌∷◌, max, IsOk, ◌++◌, Ok};
ghost use Rattle.ov_model.specs.Replay.{Accepted, verdict_of, accepted_by, floor_of};
ghost use Rattle.ov_model.specs.declared.replay.Verdict.TheVariants.{Accept};
ghost use Rattle.ov_replay.specs.Window.{Stands};

use crate::marks::Marks;
use ov_base::Memory;
use ov_model::Verdict;
use ov_model::limits::{QUIET_SECONDS, WINDOW_PLACES};

/// What a key has accepted, seen from its highest id. With H for the highest id:
///
/// ```text
///  id       0        1 .. H-2048     H-2047 .. floor     floor+1 .. H          H+1 .. 4294967295
///           |        |               |                   |                     |
///  verdict  zero     old             below               again where marked,   accept: H moves up
///                                                        else accept           to the id
///  marks             none any more   2,048 places, each id at `id mod 2048`    none yet
/// ```
///
/// `H-2047` is the lowest id that has a place: at distance 2,047 a mark is still told, at 2,048 the
/// id is old. The floor is 0 until the first gap, and may lie below the ring. The window owns no
/// memory outside itself: 272 bytes.
#[derive(Clone, Copy, Debug)]
pub struct Window {
    marks: Marks,
    /// The greatest accepted id, 0 before the first.
    highest: u32,
    /// The floor as the last accept found it: a gap that may have come since isn't in it.
    floor: u32,
    /// The moment of the last accept, in whole seconds.
    last: u32,
    /// The window's moment: the greatest one of its steps, in whole seconds.
    moment: u32,
}

impl Window {
    /// A window that has accepted nothing, at moment 0.
    pub fn new() -> Window
        ensures { Stands result [] 0 }
    {
        Window {
            marks: Marks::none(),
            highest: 0,
            floor: 0,
            last: 0,
            moment: 0,
        }
    }

    /// Judges packet id `id` at the second `at` and marks it where it is accepted. A moment that
    /// goes back counts as the greatest one so far. It takes no memory, and never answers Memory.
    pub fn step(&mut self, id: u32, at: u32) -> Result<Verdict, Memory>
        // Whatever list the window stands for, the verdict is that of the rule over the list.
        ensures verdict { (l : List Accepted) (m : ℕ) → Stands self.old l m
            → result ≡ Ok (verdict_of l id (max m at)) }

        // Afterwards the window stands for the list with what the verdict adds, at the later moment.
        ensures stands { (l : List Accepted) (m : ℕ) → Stands self.old l m
            → let now = max m at in
            Stands self.new (l ++ accepted_by (verdict_of l id now) id now) now }

        ensures memory { IsOk result }
    {
        self.moment = self.moment.max(at);
        let verdict = self.judge(id);
        if verdict == Verdict::Accept {
            self.accept(id);
        }
        Ok(verdict)
    }

    /// The window's moment: the greatest one of its steps, 0 before the first.
    pub(crate) fn moment(&self) -> u32
        ensures { (l : List Accepted) (m : ℕ) → Stands self.now l m → result ≡ m }
    {
        self.moment
    }

    /// The verdict on `id` at the window's moment: the first row of the rule that applies.
    fn judge(&self, id: u32) -> Verdict
        ensures { (l : List Accepted) (m : ℕ) → Stands self.now l m → result ≡ verdict_of l id m }
    {
        if id == 0 {
            Verdict::Zero
        } else if id > self.highest {
            Verdict::Accept
        } else if self.highest - id >= WINDOW_PLACES {
            Verdict::Old
        } else if id <= self.floor_now() {
            Verdict::Below
        } else if self.marks.has(id) {
            Verdict::Again
        } else {
            Verdict::Accept
        }
    }

    /// The floor at the window's moment: after a gap all that was accepted lies at or below it.
    fn floor_now(&self) -> u32
        ensures { (l : List Accepted) (m : ℕ) → Stands self.now l m → result ≡ floor_of l m }
    {
        if self.moment.saturating_sub(self.last) >= QUIET_SECONDS {
            self.highest
        } else {
            self.floor
        }
    }

    /// Takes `id` in: the ring moves up where it is above the highest, and its place is marked.
    fn accept(&mut self, id: u32)
        ensures { (l : List Accepted) (m : ℕ) → Stands self.old l m → verdict_of l id m ≡ Accept
            → Stands self.new (l ++ record { id = id; moment = m } ∷ []) m }
    {
        self.floor = self.floor_now();
        self.last = self.moment;
        let highest = self.highest.max(id);
        self.marks.pass(self.highest, highest);
        self.highest = highest;
        self.marks.set(id);
    }
}
