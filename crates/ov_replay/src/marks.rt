//! A ring of marks: one bit for each of 2,048 packet ids in a row.
//! An id has the place `id mod 2048`, so two ids share one only where they are 2,048 or more apart.

ghost use Rattle.std.specs.Prelude.{◌≡◌, ◌≢◌, ℕ, ◌+◌, ◌%◌, ◌/◌, ◌<◌, ◌≤◌, false, true};
ghost use Rattle.ov_model.specs.Limits.{window_places};
ghost use Rattle.ov_replay.specs.Marks.{is_marked, KeepsOthers};

use ov_model::limits::WINDOW_PLACES;

/// The marks, 64 in a word, the lowest place in the lowest bit of the first word.
#[derive(Clone, Copy, Debug)]
pub(crate) struct Marks {
    words: [u64; 32],
}

impl Marks {
    /// No place is marked.
    pub(crate) fn none() -> Marks
        ensures { (id : ℕ) → is_marked result id ≡ false }
    {
        Marks { words: [0; 32] }
    }

    /// Whether the place of `id` is marked.
    pub(crate) fn has(&self, id: u32) -> bool
        ensures { result ≡ is_marked self.now id }
    {
        let place = id % WINDOW_PLACES;
        self.words[(place / 64) as usize] >> (place % 64) & 1 == 1
    }

    /// Marks the place of `id`.
    pub(crate) fn set(&mut self, id: u32)
        ensures set { is_marked self.new id ≡ true }
        ensures others { KeepsOthers self.old self.new id }
    {
        let place = id % WINDOW_PLACES;
        self.words[(place / 64) as usize] |= 1 << (place % 64);
    }

    /// Takes the mark from the place of `id`.
    pub(crate) fn clear(&mut self, id: u32)
        ensures cleared { is_marked self.new id ≡ false }
        ensures others { KeepsOthers self.old self.new id }
    {
        let place = id % WINDOW_PLACES;
        self.words[(place / 64) as usize] &= !(1 << (place % 64));
    }

    /// Takes the marks from the 64 places that share a word with the place of `id`.
    pub(crate) fn clear_word(&mut self, id: u32)
        ensures cleared { (other : ℕ) → other % window_places / 64 ≡ id % window_places / 64
            → is_marked self.new other ≡ false }
        ensures others { (other : ℕ) → other % window_places / 64 ≢ id % window_places / 64
            → is_marked self.new other ≡ is_marked self.old other }
    {
        let place = id % WINDOW_PLACES;
        self.words[(place / 64) as usize] = 0;
    }

    /// Makes room for the ids above `from` up to `to`: none of them is marked. A jump of 2,048 or
    /// more passes every place; a smaller one clears exactly the places that it passes, a whole
    /// word at a time where it passes one.
    pub(crate) fn pass(&mut self, from: u32, to: u32)
        requires { from ≤ to }
        ensures passed { (id : ℕ) → from < id → id ≤ to → is_marked self.new id ≡ false }
        ensures kept { (id : ℕ) → id ≤ from → to < id + window_places
            → is_marked self.new id ≡ is_marked self.old id }
    {
        let jump = to - from;
        if jump >= WINDOW_PLACES {
            *self = Marks::none();
            return;
        }
        let mut passed = 0;
        while passed < jump {
            let next = from + 1 + passed;
            if next % 64 == 0 && jump - passed >= 64 {
                self.clear_word(next);
                passed += 64;
            } else {
                self.clear(next);
                passed += 1;
            }
        }
    }
}
