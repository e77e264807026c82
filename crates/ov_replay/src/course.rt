//! The steps of any keys in one order, each judged after those before it. Each key's window stands for its steps.

ghost use Rattle.std.specs.Prelude.{◌≡◌, [], ◌∷◌, ◌++◌, ◌↔◌, length, None, IfOk, IsOk, IsTrue, OnOk, OnErr};
ghost use Rattle.std.specs.BTreeMap.{get, IsUnchanged};
ghost use Rattle.std.specs.Ordering.{nat_cmp};
ghost use Rattle.ov_model.specs.Replay.{judged};
ghost use Rattle.ov_replay.specs.Course.{EachJudged, Judges, WindowJudges};

use crate::window::Window;
use ov_base::{ListOf, Memory};
use ov_model::{Place, ReplayEntry, Verdict};
use std::alloc::Global;
use std::collections::BTreeMap;
use std::marker::Model;

/// The windows of keys, and the history of their steps.
#[derive(Debug, Drop)]
pub struct Course {
    windows: BTreeMap<u32, Window>,
    entries: Vec<ReplayEntry>,
}

impl Model for Course {
    ghost use Rattle.std.specs.Prelude.{List};
    ghost use Rattle.ov_model.specs.declared.replay.ReplayEntry.{ReplayEntry};
    ghost use Rattle.ov_replay.specs.Course.{IsCourse};

    ghost Value = { List ReplayEntry };

    ghost view = { λ c. c.entries.items };

    ghost invariant = { λ c. IsCourse c.windows c.entries.items };
}

impl Course {
    /// No step yet. It takes no memory until its first step.
    pub fn new(alloc: Global) -> Course
        ensures { result ≡ [] }
    {
        Course {
            windows: BTreeMap::new(alloc),
            entries: Vec::new(alloc),
        }
    }

    /// Makes the step of packet id `id` on the window of the key with the serial `key` and stores
    /// its entry. A key that has no window yet gets a new one. After Memory all is as it was.
    pub fn step(&mut self, place: Place, key: u32, id: u32, at: u32) -> Result<Verdict, Memory>
        // The stored entry is the one that the rule gives after the key's earlier steps.
        ensures verdict { IfOk result (λ verdict. verdict ≡ (judged self.old place key id at).verdict) }
        ensures ok { OnOk result (self.new ≡ self.old ++ judged self.old place key id at ∷ []) }

        // Want of memory changes nothing, neither the window nor its moment.
        ensures err { OnErr result (self.new ≡ self.old) }
    {
        self.entries.reserve(1)?;
        let (verdict, moment) = judge(&mut self.windows, key, id, at)?;
        self.entries.push_reserved(ReplayEntry {
            place,
            key,
            id,
            at,
            moment,
            verdict,
        });
        Ok(verdict)
    }

    /// The number of steps.
    pub fn len(&self) -> usize
        ensures { result ≡ length self.now }
    {
        self.entries.len()
    }

    /// Whether no step was made.
    pub fn is_empty(&self) -> bool
        ensures { IsTrue result ↔ (self.now ≡ []) }
    {
        self.entries.is_empty()
    }

    /// Moves the history out: the entries of all steps, in their order.
    pub fn finish(self) -> ListOf<ReplayEntry>
        ensures entries { result ≡ self }
        ensures judged { EachJudged result }
    {
        let Course {
            windows: _,
            entries,
        } = self;
        ListOf::of_vec(entries)
    }
}

/// Makes a step of the key `key` on the key's window, where it lies among the windows: a key without
/// one gets one. It gives the verdict and the window's moment. After Memory the windows are as they
/// were.
fn judge(
    windows: &mut BTreeMap<u32, Window>,
    key: u32,
    id: u32,
    at: u32,
) -> Result<(Verdict, u32), Memory>
    ensures ok { IfOk result (λ made. Judges windows.old windows.new key id at made.0 made.1) }
    ensures err { OnErr result (IsUnchanged windows.old windows.new) }
{
    match windows.get_mut(&key) {
        Some(window) => step_on(window, id, at),
        None => judge_first(windows, key, id, at),
    }
}

/// Makes the first step of the key `key`, on a new window.
fn judge_first(
    windows: &mut BTreeMap<u32, Window>,
    key: u32,
    id: u32,
    at: u32,
) -> Result<(Verdict, u32), Memory>
    requires { get nat_cmp windows.old key ≡ None }
    ensures ok { IfOk result (λ made. Judges windows.old windows.new key id at made.0 made.1) }
    ensures err { OnErr result (IsUnchanged windows.old windows.new) }
{
    let mut window = Window::new();
    let made = step_on(&mut window, id, at)?;
    windows.insert(key, window)?;
    Ok(made)
}

/// Makes a step on a window. It gives the verdict and the window's moment.
fn step_on(window: &mut Window, id: u32, at: u32) -> Result<(Verdict, u32), Memory>
    ensures ok { IfOk result (λ made. WindowJudges window.old window.new id at made.0 made.1) }
    ensures memory { IsOk result }
{
    let verdict = window.step(id, at)?;
    Ok((verdict, window.moment()))
}
