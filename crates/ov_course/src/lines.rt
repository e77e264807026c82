//! A lane's lines at its desk.

ghost use Rattle.std.specs.Prelude.{◌≡◌, ◌+◌, ◌<◌, length, IfOk};
ghost use Rattle.std.specs.List.{AllByRecursion};
ghost use Rattle.ov_model.specs.Sizes.{Fits};
ghost use Rattle.ov_desk.specs.Sittings.{at_rest};
ghost use Rattle.ov_course.specs.Courses.{LineAnswered, LinesRan, RestsAgain};

use crate::gate::Gate;
use crate::walk::walk_out;
use ov_base::Memory;
use ov_desk::LaneDesk;
use ov_model::{Answer, Line, Place};
use std::alloc::Global;
use std::sync::Wait;

/// Runs a line at a lane's desk to its end. `Err` is want of memory: the line is ended, what it held is given back and what it
/// owed is released, and it has no answer.
pub fn run_line<R: Wait>(
    rt: &R,
    alloc: Global,
    desk: &mut LaneDesk<'_, R>,
    place: Place,
    line: &Line,
) -> Result<Answer, Memory>
    requires rests { desk.old ≡ at_rest desk.old.common desk.old.routes desk.old.share }
    requires fits { Fits line.now.deed }
    ensures ok { IfOk result (LineAnswered place line.now desk.old desk.new) }
    ensures rests { RestsAgain place.lane (λ p. p ≡ place) desk.old desk.new }
{
    match walk_out(rt, alloc, desk, place, line) {
        Ok(answer) => {
            desk.end_line();
            Ok(answer)
        }
        Err(memory) => {
            desk.give_up(place, line.at);
            Err(memory)
        }
    }
}

/// Runs some of a lane's lines at its desk, one after the other, and puts their answers behind the others: all of them, or, where
/// there was no memory, the first ones. `first` is the number in the lane of the first of them. A line begins and ends at
/// the gate.
pub fn run_lines<R: Wait, G: Gate>(
    rt: &R,
    alloc: Global,
    desk: &mut LaneDesk<'_, R>,
    lane: u32,
    first: u64,
    lines: &[Line],
    gate: &G,
    answers: &mut Vec<Answer>,
) -> bool
    requires rests { desk.old ≡ at_rest desk.old.common desk.old.routes desk.old.share }
    requires fits { AllByRecursion (λ line. Fits line.deed) lines.now }
    requires numbers { first + length lines.now < 18446744073709551616 }
    ensures { LinesRan lane first lines.now desk.old desk.new
        answers.old.items answers.new.items result }
{
    // Nothing is left of an earlier line.
    desk.end_line();
    let mut number = first;
    for line in lines {
        if answers.reserve(1).is_err() {
            return false;
        }
        let place = Place { lane, line: number };
        gate.before(place);
        let answered = run_line(rt, alloc, desk, place, line);
        gate.after(place);
        let Ok(answer) = answered else {
            return false;
        };
        answers.push_reserved(answer);
        number += 1;
    }
    true
}
