//! The text of a schedule: which lanes take the first turns.

ghost use Rattle.std.specs.Prelude.{◌≡◌, ◌≢◌, ◌<◌, ◌↔◌, [], None, IfOk, IfErr, IfSome, decimal};
ghost use Rattle.ov_plan.specs.declared.words.PlanStop.TheVariants as stop;
ghost use Rattle.ov_plan.specs.Plan as spec;

use crate::words::PlanStop;
use itoa::Buffer;
use ov_base::ListOf;
use std::alloc::Global;

/// The lanes that a schedule may name are those below this number.
const LANES: u32 = 64;

/// The lane of this decimal text, without sign and leading zeros. None where it is the text of no lane.
fn lane_of(text: &str) -> Option<u32>
    ensures some { IfSome result (λ lane. (lane < 64) × (text.now ≡ decimal lane)) }
    ensures none { result ≡ None → ¬ (spec.IsLane text.now) }
{
    let Ok(lane) = text.parse::<u32>() else {
        return None;
    };
    let mut digits = Buffer::new();
    if lane < LANES && digits.format(lane) == text {
        Some(lane)
    } else {
        None
    }
}

/// The lanes of a text that isn't empty. `Usage` comes exactly where it is no schedule's.
fn named_lanes(alloc: Global, text: &str) -> Result<ListOf<u32>, PlanStop>
    requires some { text.now ≢ [] }
    ensures lanes { IfOk result (spec.IsSchedule text.now) }
    ensures usage { IfErr result (λ why. (why ≡ stop.Usage) ↔ ¬ (spec.HasSchedule text.now)) }
{
    let mut lanes = Vec::new(alloc);
    // Want of memory is told only where the whole text is a schedule's.
    let mut full = false;
    let mut rest = text;
    'parts: while let Some((part, behind)) = rest.split_once(',') {
        let Some(lane) = lane_of(part) else {
            return Err(PlanStop::Usage);
        };
        full = full || lanes.push(lane).is_err();
        rest = behind;
    }
    let Some(lane) = lane_of(rest) else {
        return Err(PlanStop::Usage);
    };
    if full || lanes.push(lane).is_err() {
        return Err(PlanStop::Memory);
    }
    Ok(ListOf::of_vec(lanes))
}

/// The lanes of a schedule's text, which may be empty. `Usage` comes exactly where it is no schedule's.
pub(crate) fn lanes_of(alloc: Global, text: &str) -> Result<ListOf<u32>, PlanStop>
    ensures lanes { IfOk result (spec.IsSchedule text.now) }
    ensures usage { IfErr result (λ why. (why ≡ stop.Usage) ↔ ¬ (spec.HasSchedule text.now)) }
{
    if text.is_empty() {
        Ok(ListOf::new(alloc))
    } else {
        named_lanes(alloc, text)
    }
}
