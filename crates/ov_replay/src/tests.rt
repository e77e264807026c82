//! What no clause says: that the definitions are the rule that was meant, and that a call succeeds.

ghost use Rattle.std.specs.Prelude.{◌≡◌, ◌<◌, ◌%◌, ℕ, slice_get};
ghost use Rattle.ov_model.specs.Limits.{shard_count};
ghost use Rattle.ov_replay.specs.Desk.{IsDeskSeat, is_new, part_at};

use crate::plain::PlainWindow;
use crate::{DeskSeat, ReplayDesk, Shard, Window};
use ov_base::ListOf;
use ov_model::Verdict::{Accept, Again, Below, Old, Zero};
use ov_model::{Place, ReplayEntry, Verdict};
use std::alloc::Global;
use std::process::Abort;

/// A step of a course: row, id, moment, verdict.
type Step = (u32, u32, u32, Verdict);

/// Numbered rows, a line for each step. A row is the course of a new window, with the verdicts that
/// the rule's table gives, worked out by hand.
static WINDOW_EDGES: [Step; 130] = [
    // The ends of the range of ids.
    (1, 1, 0, Accept),
    (2, 0, 0, Zero),
    (3, 5, 0, Accept),
    (3, 0, 0, Zero),
    (4, 3000, 0, Accept),
    (4, 0, 0, Zero),
    (5, 5, 0, Accept),
    (5, 0, 30, Zero),
    (6, 4294967295, 0, Accept),
    (7, 4294967295, 0, Accept),
    (7, 4294967295, 0, Again),
    (8, 4294967295, 0, Accept),
    (8, 1, 0, Old),
    (9, 4294967295, 0, Accept),
    (9, 4294965248, 0, Accept),
    (10, 4294967295, 0, Accept),
    (10, 4294965247, 0, Old),
    // Distances from the greatest accepted id: 2,047 is in reach and 2,048 is old.
    (11, 3000, 0, Accept),
    (11, 953, 0, Accept),
    (11, 953, 0, Again),
    (12, 10, 0, Accept),
    (12, 9, 0, Accept),
    (12, 9, 0, Again),
    (12, 10, 0, Again),
    (13, 2048, 0, Accept),
    (13, 1, 0, Accept),
    (14, 2049, 0, Accept),
    (14, 1, 0, Old),
    (15, 1, 0, Accept),
    (15, 2049, 0, Accept),
    (15, 1, 0, Old),
    (16, 1, 0, Accept),
    (16, 2048, 0, Accept),
    (16, 1, 0, Again),
    // Jumps of 2,047, of 2,048 and of 2,049, and longer ones.
    (17, 2, 0, Accept),
    (17, 2049, 0, Accept),
    (17, 2, 0, Again),
    (18, 1, 0, Accept),
    (18, 2049, 0, Accept),
    (18, 2, 0, Accept),
    (18, 1, 0, Old),
    (19, 1, 0, Accept),
    (19, 2050, 0, Accept),
    (19, 3, 0, Accept),
    (19, 2, 0, Old),
    (19, 1, 0, Old),
    (20, 5, 0, Accept),
    (20, 6, 0, Accept),
    (20, 2053, 0, Accept),
    (20, 6, 0, Again),
    (20, 5, 0, Old),
    (21, 1, 0, Accept),
    (21, 4097, 0, Accept),
    (21, 2050, 0, Accept),
    (21, 2049, 0, Old),
    // A place is free again once the ring has passed it.
    (22, 1, 0, Accept),
    (22, 2, 0, Accept),
    (22, 2050, 0, Accept),
    (22, 2049, 0, Accept),
    (23, 1, 0, Accept),
    (23, 1000, 0, Accept),
    (23, 2050, 0, Accept),
    (23, 2049, 0, Accept),
    (24, 1000, 0, Accept),
    (24, 2050, 0, Accept),
    (24, 1000, 0, Again),
    // A refused id leaves no mark: 2948 has the place of 900.
    (25, 3000, 0, Accept),
    (25, 900, 0, Old),
    (25, 2948, 0, Accept),
    // Silences of 29, 30 and 31 seconds.
    (26, 10, 0, Accept),
    (26, 9, 29, Accept),
    (27, 10, 0, Accept),
    (27, 9, 30, Below),
    (28, 10, 0, Accept),
    (28, 9, 31, Below),
    (29, 10, 0, Accept),
    (29, 9, 29, Accept),
    (29, 8, 58, Accept),
    (30, 10, 0, Accept),
    (30, 11, 30, Accept),
    (31, 1, 1000, Accept),
    // The floor stays once the gap is past, and is the greatest id before it.
    (32, 10, 0, Accept),
    (32, 20, 30, Accept),
    (32, 9, 30, Below),
    (32, 11, 30, Accept),
    (33, 10, 0, Accept),
    (33, 20, 30, Accept),
    (33, 10, 30, Below),
    (34, 20, 0, Accept),
    (34, 10, 0, Accept),
    (34, 30, 30, Accept),
    (34, 15, 30, Below),
    (34, 21, 30, Accept),
    (35, 10, 0, Accept),
    (35, 20, 30, Accept),
    (35, 15, 60, Below),
    (36, 10, 0, Accept),
    (36, 20, 30, Accept),
    (36, 30, 60, Accept),
    (36, 15, 60, Below),
    (36, 25, 60, Accept),
    (37, 3000, 0, Accept),
    (37, 952, 30, Old),
    (37, 953, 30, Below),
    // A refused step raises the moment, and the silence counts from the last accept.
    (38, 10, 0, Accept),
    (38, 10, 30, Below),
    (38, 9, 0, Below),
    (39, 10, 0, Accept),
    (39, 0, 30, Zero),
    (39, 9, 0, Below),
    (40, 3000, 0, Accept),
    (40, 952, 30, Old),
    (40, 2999, 0, Below),
    (41, 10, 0, Accept),
    (41, 10, 20, Again),
    (41, 9, 40, Below),
    // A moment that goes back counts as the greatest one so far.
    (42, 10, 100, Accept),
    (42, 9, 50, Accept),
    (43, 10, 100, Accept),
    (43, 11, 0, Accept),
    (43, 9, 129, Accept),
    (44, 10, 100, Accept),
    (44, 11, 0, Accept),
    (44, 9, 130, Below),
    // The end of the range of moments.
    (45, 10, 4294967295, Accept),
    (45, 9, 0, Accept),
    (46, 10, 4294967265, Accept),
    (46, 9, 4294967295, Below),
    (47, 10, 4294967266, Accept),
    (47, 9, 4294967295, Accept),
];

/// What the ring and the list judge, which is the same.
fn judged(rt: &impl Abort, ring: &mut Window, list: &mut PlainWindow, id: u32, at: u32) -> Verdict {
    let Ok(by_ring) = ring.step(id, at) else {
        panic!(rt; "no memory");
    };
    let Ok(by_list) = list.step(id, at) else {
        panic!(rt; "no memory");
    };
    assert_eq!(rt;
        by_ring,
        by_list,
        "id {id} at {at}, by the ring and by the list"
    );
    by_ring
}

/// A step of a row gets its verdict from the ring and from the list.
fn gets(rt: &impl Abort, ring: &mut Window, list: &mut PlainWindow, step: Step) {
    let (row, id, at, verdict) = step;
    assert_eq!(rt;
        judged(rt, ring, list, id, at),
        verdict,
        "row {row}, id {id}"
    );
}

/// Steps the ring and the list through all rows.
fn take_courses(rt: &impl Abort, alloc: Global, steps: &[Step]) {
    let mut current = 0;
    let mut ring = Window::new();
    let mut list = PlainWindow::new(alloc);
    for step in steps {
        if step.0 != current {
            current = step.0;
            ring = Window::new();
            list = PlainWindow::new(alloc);
        }
        gets(rt, &mut ring, &mut list, *step);
    }
}

#[test]
fn edges_of_the_window_get_the_verdicts_of_the_table(rt: HostRuntime) {
    take_courses(&rt, rt.alloc(), &WINDOW_EDGES);
}

#[test]
fn distance_2047_is_in_reach_and_2048_is_old(rt: HostRuntime) {
    let steps = [
        (1, 3000, 0, Accept),
        (1, 953, 0, Accept),
        (1, 952, 0, Old),
        (1, 0, 0, Zero),
    ];
    take_courses(&rt, rt.alloc(), &steps);
}

#[test]
fn thirty_seconds_after_the_last_accept_all_is_below_the_floor(rt: HostRuntime) {
    let steps = [(1, 10, 0, Accept), (1, 9, 29, Accept), (1, 8, 59, Below)];
    take_courses(&rt, rt.alloc(), &steps);
}

#[test]
fn marks_are_kept_over_a_jump_of_2047(rt: HostRuntime) {
    let steps = [
        (1, 1, 0, Accept),
        (1, 2048, 0, Accept),
        (1, 1, 0, Again),
        (1, 4096, 0, Accept),
        (1, 2049, 0, Accept),
        (1, 2048, 0, Old),
    ];
    take_courses(&rt, rt.alloc(), &steps);
}

/// The next of a row of numbers that look random, from 0 to 2 ^ 31 - 1: Knuth's MMIX generator.
fn draw(state: &mut u64) -> u32 {
    *state = state
        .wrapping_mul(6364136223846793005)
        .wrapping_add(1442695040888963407);
    (*state >> 33) as u32
}

/// An id about as far from the highest as one of the edges of the ring.
fn near(highest: u32, state: &mut u64) -> u32 {
    let apart = [0, 1, 2, 3, 5, 64, 2046, 2047, 2048, 2049];
    let distance = apart[draw(state) as usize % apart.len()];
    match draw(state) % 8 {
        0 => highest.saturating_add(distance),
        1 | 2 => highest.saturating_sub(distance),
        3 => highest.saturating_add(1),
        _ => highest.saturating_sub(draw(state) % 2060),
    }
}

/// The moment of the next step: mostly the same, and at times near the end of the quiet seconds.
fn later(at: u32, state: &mut u64) -> u32 {
    match draw(state) % 40 {
        0 => at.saturating_add(29),
        1 => at.saturating_add(30),
        2 => at.saturating_add(31),
        3 => at.saturating_sub(20),
        4..9 => at.saturating_add(1),
        _ => at,
    }
}

/// Takes the ring and the list through 300 mixed steps, the first of them near an id.
fn take_mixed_steps(
    rt: &impl Abort,
    ring: &mut Window,
    list: &mut PlainWindow,
    first: u32,
    state: &mut u64,
) {
    let mut highest = first;
    let mut at: u32 = 0;
    for _step in 0..300_u32 {
        let id = near(highest, state);
        at = later(at, state);
        if judged(rt, ring, list, id, at) == Accept {
            highest = highest.max(id);
        }
    }
}

#[test]
fn the_ring_and_the_list_agree_on_mixed_steps(rt: HostRuntime) {
    let mut state = 2026;
    for course in 0..60_u32 {
        let first = if course % 3 == 0 { u32::MAX - 4000 } else { 1 };
        let mut ring = Window::new();
        let mut list = PlainWindow::new(rt.alloc());
        take_mixed_steps(&rt, &mut ring, &mut list, first, &mut state);
    }
}

/// A step of packet id 7 at a shard gets this verdict.
fn steps(rt: &impl Abort, shard: &mut Shard, place: Place, key: u32, at: u32, wanted: Verdict)
    requires { key % shard_count ≡ shard.old.number }
    ensures { shard.new.number ≡ shard.old.number }
{
    let Ok(verdict) = shard.step(place, key, 7, at) else {
        panic!(rt; "no memory");
    };
    assert_eq!(rt; verdict, wanted);
}

/// The entry of a step of packet id 7.
fn entry(place: Place, key: u32, at: u32, moment: u32, verdict: Verdict) -> ReplayEntry {
    ReplayEntry {
        place,
        key,
        id: 7,
        at,
        moment,
        verdict,
    }
}

/// The history of a shard is this one.
fn ends_with(rt: &impl Abort, shard: Shard, wanted: &[ReplayEntry]) {
    let history = shard.finish();
    assert_eq!(rt; history.as_slice(), wanted);
}

#[test]
fn each_key_of_a_shard_has_a_window_of_its_own(rt: HostRuntime) {
    let first = Place { lane: 0, line: 4 };
    let second = Place { lane: 1, line: 0 };
    let third = Place { lane: 0, line: 5 };
    let mut shard = Shard::new(rt.alloc(), 3);
    steps(&rt, &mut shard, first, 3, 10, Accept);
    steps(&rt, &mut shard, second, 11, 9, Accept);
    steps(&rt, &mut shard, third, 3, 8, Again);
    let entries = [
        entry(first, 3, 10, 10, Accept),
        entry(second, 11, 9, 9, Accept),
        entry(third, 3, 8, 10, Again),
    ];
    ends_with(&rt, shard, &entries);
}

/// A seat of no desk.
fn no_seat(rt: &impl Abort, alloc: Global) -> DeskSeat {
    let Ok(seat) = DeskSeat::none(alloc) else {
        panic!(rt; "no memory");
    };
    seat
}

/// A desk without a step, and its seat.
fn new_desk(rt: &impl Abort, alloc: Global) -> (ReplayDesk, DeskSeat)
    ensures of { IsDeskSeat result.0 result.1 }
    ensures new { (s : ℕ) → s < shard_count → part_at result.1 s ≡ is_new (slice_get result.0 s) }
{
    let Ok(made) = ReplayDesk::new(alloc) else {
        panic!(rt; "no memory");
    };
    made
}

/// Shard 3 has two steps, the last of them at a place, and shard 4 has one.
fn are_told(rt: &impl Abort, shards: &[ListOf<ReplayEntry>], last: Place) {
    assert_eq!(rt; shards.len(), 8);
    assert_eq!(rt; shards[3].len(), 2);
    assert_eq!(rt; shards[3].as_slice()[1].place, last);
    assert_eq!(rt; shards[4].len(), 1);
}

#[test]
fn two_seats_of_a_desk_share_the_window_of_a_key(rt: HostRuntime) {
    let none = no_seat(&rt, rt.alloc());
    let (desk, seat) = new_desk(&rt, rt.alloc());
    let (mut one, mut two) = desk.split(seat, none);
    let first = Place { lane: 0, line: 0 };
    let second = Place { lane: 1, line: 0 };
    let third = Place { lane: 1, line: 1 };
    let accepted = desk.step(&rt, &mut one, first, 3, 7, 10);
    let again = desk.step(&rt, &mut two, second, 3, 7, 10);
    let other = desk.step(&rt, &mut two, third, 12, 7, 10);
    let seat = desk.join(one, two);
    let shards = desk.close(seat).into_vec();
    are_told(&rt, shards.as_slice(), second);
    assert_eq!(rt; accepted, Ok(Accept));
    assert_eq!(rt; again, Ok(Again));
    assert_eq!(rt; other, Ok(Accept));
}
