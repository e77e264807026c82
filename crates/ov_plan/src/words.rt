//! The plan of a run: its mode and the options, each in its range.

ghost use Rattle.std.specs.Prelude.{◌≡◌, ◌≢◌, ◌↔◌, map, string_bytes, None, Err, IfOk, IfErr, IfSome};
ghost use Rattle.clap.specs.Words.{found_of, rows_of};
ghost use Rattle.ov_plan.specs.declared.words.Mode.{Mode};
ghost use Rattle.ov_plan.specs.declared.words.PlanStop.TheVariants as stop;
ghost use Rattle.ov_plan.specs.Plan as spec;

use crate::command::{matched, number_of};
use crate::schedule::lanes_of;
use clap::ArgMatches;
use ov_base::ListOf;
use std::alloc::Global;
use thiserror::Error;

/// Which script is run, and how.
#[derive(Clone, Copy, Debug, PartialEq, Eq)]
pub enum Mode {
    /// Each line to its end, in the script's order.
    Trace,
    /// The lanes take turns, by a schedule.
    Steps,
    /// Each lane's lines on a thread of its own, behind the head, whose lines run first, in the script's order.
    Lanes,
    /// The script is made from a seed and a count, and nothing is read: each line to its end, in the script's order.
    Make,
    /// The script is made as by `Make`, and run as by `Lanes`, on 8 lanes and with a head of 256 lines.
    Load,
}

/// What a run is to do. An option that the mode doesn't use has no effect.
#[derive(Debug, Drop)]
pub struct RunPlan {
    pub mode: Mode,
    /// How many lanes run, from 1 to 64. `Lanes` alone uses it.
    pub lanes: u32,
    /// How many lines run before the others, from 0 to 262144. `Lanes` alone uses it.
    pub head: u32,
    /// The packet id that the counter of each key begins at, from 1. `Make` and `Load` don't use it.
    pub first_id: u32,
    /// The lanes that take the first turns, each from 0 to 63. `Steps` alone uses them.
    pub schedule: ListOf<u32>,
    /// The seed that a script is made from. `Make` and `Load` alone use it.
    pub seed: u32,
    /// How many lines a made script has behind its head, from 1 to 100000. `Make` and `Load` alone use it.
    pub count: u32,
    /// How many turns a lane makes over a link, from 1. No mode uses it.
    pub turns: u32,
    /// The lowest UDP port of a lane's links, from 1 to 65344. No mode uses it.
    pub port: u16,
}

/// Why there is no plan.
#[derive(Clone, Copy, Debug, PartialEq, Eq, Error)]
pub enum PlanStop {
    /// The words are those of no plan.
    #[error("no such use")]
    Usage,
    /// There was no memory to read the words.
    #[error("want of memory")]
    Memory,
}

/// The mode of this name.
fn mode_named(name: &str) -> Option<Mode>
    ensures some { IfSome result (λ mode. name.now ≡ spec.mode_name mode) }
    ensures none { result ≡ None → (mode : Mode) → name.now ≢ spec.mode_name mode }
{
    if name == "trace" {
        Some(Mode::Trace)
    } else if name == "steps" {
        Some(Mode::Steps)
    } else if name == "lanes" {
        Some(Mode::Lanes)
    } else if name == "make" {
        Some(Mode::Make)
    } else if name == "load" {
        Some(Mode::Load)
    } else {
        None
    }
}

/// The mode that MODE names in the matches.
fn mode_of(matches: &ArgMatches<'_>) -> Option<Mode>
    ensures some { IfSome result (spec.IsMode (rows_of (found_of matches.now))) }
    ensures none { result ≡ None → (mode : Mode) →
        ¬ (spec.IsMode (rows_of (found_of matches.now)) mode) }
{
    match matches.get_str("mode") {
        Some(name) => mode_named(name),
        None => None,
    }
}

/// The lanes of the schedule in the matches. `Usage` comes exactly where its text is no schedule's.
fn schedule_of(alloc: Global, matches: &ArgMatches<'_>) -> Result<ListOf<u32>, PlanStop>
    ensures lanes { IfOk result (spec.IsSchedule
        (spec.schedule_text (rows_of (found_of matches.now)))) }
    ensures usage { IfErr result (λ why. (why ≡ stop.Usage) ↔
        ¬ (spec.HasSchedule (spec.schedule_text (rows_of (found_of matches.now))))) }
{
    match matches.get_str("schedule") {
        Some(text) => lanes_of(alloc, text),
        None => Ok(ListOf::new(alloc)),
    }
}

/// The plan of the words behind the program's name: MODE, which is `trace`, `steps`, `lanes`, `make` or `load`, and
/// options, each given once at most and with one value. All options are read and held to their ranges in every mode.
///
/// | Option | Range | Default |
/// |---|---|---|
/// | `--lanes` | 1 to 64 | 4 |
/// | `--head` | 0 to 262144 | 0 |
/// | `--first-id` | 1 to 4294967295 | 1 |
/// | `--schedule` | empty, or decimal numbers from 0 to 63, without signs and leading zeros, joined by commas | empty |
/// | `--seed` | 0 to 4294967295 | 1 |
/// | `--count` | 1 to 100000 | 1000 |
/// | `--turns` | 1 to 4294967295 | 1000 |
/// | `--port` | 1 to 65344 | 1194 |
///
/// Words that are so have their plan or `Memory`, and all others `Usage` or `Memory`: clap tells no more of words
/// for which it found no memory.
pub fn plan(alloc: Global, words: &[String]) -> Result<RunPlan, PlanStop>
    ensures plan { IfOk result (spec.IsPlan (map string_bytes words.now)) }
    ensures ranges { IfOk result spec.IsInRange }
    ensures usage { result ≡ Err stop.Usage → ¬ (spec.HasPlan (map string_bytes words.now)) }
{
    let matches = matched(alloc, words)?;
    let Some(mode) = mode_of(&matches) else {
        return Err(PlanStop::Usage);
    };
    let schedule = schedule_of(alloc, &matches)?;
    Ok(RunPlan {
        mode,
        lanes: number_of(&matches, "lanes", 4),
        head: number_of(&matches, "head", 0),
        first_id: number_of(&matches, "first-id", 1),
        schedule,
        seed: number_of(&matches, "seed", 1),
        count: number_of(&matches, "count", 1000),
        turns: number_of(&matches, "turns", 1000),
        port: number_of(&matches, "port", 1194) as u16,
    })
}
