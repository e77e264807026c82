//! A lane at work: its pass, its lines and their answers.

ghost use Rattle.std.specs.Prelude.{◌≡◌, ◌<◌, ◌≤◌, ◌-◌, [], false, length};
ghost use Rattle.std.specs.Vec.{vec_capacity};
ghost use Rattle.std.specs.List.{AllByRecursion};
ghost use Rattle.ov_model.specs.Sizes.{Fits};
ghost use Rattle.ov_lane.specs.Passes.{IsPassOf, IsFree};
ghost use Rattle.ov_lanes.specs.Jobs.{LaneSaw, RanNext, RanOut, IsReady, log_of};

use ov_base::ListOf;
use ov_course::{Gate, run_line};
use ov_desk::LaneDesk;
use ov_lane::{Ovpn, Pass};
use ov_model::{Answer, LaneLog, Line, Place};
use std::alloc::Global;
use std::marker::Model;
use std::sync::Wait;

/// A lane at a shared table. What it takes of memory for the answers of its lines is taken before it begins.
#[derive(Drop)]
pub(crate) struct Job<'a> {
    ovpn: &'a Ovpn,
    // It is out only while a line runs.
    pass: Option<Pass>,
    lines: Vec<Line>,
    answers: Vec<Answer>,
    // A line was stopped by want of memory.
    stopped: bool,
}

impl<'a> Model for Job<'a> {
    ghost use Rattle.std.specs.Vec.{vec_capacity};
    ghost use Rattle.ov_lanes.specs.Jobs.{Lane};
    ghost use Rattle.ov_lanes.specs.Inner.{pass_in, IsKept};

    ghost Value = { Lane };

    ghost view = { λ j. record {
      table = j.ovpn.now;
      pass = pass_in j.ovpn.now.words.counters j.pass;
      lines = j.lines.items;
      answers = j.answers.items;
      stopped = j.stopped;
    } };

    ghost invariant = { λ j. IsKept j.pass (vec_capacity j.answers) (record {
      table = j.ovpn.now;
      pass = pass_in j.ovpn.now.words.counters j.pass;
      lines = j.lines.items;
      answers = j.answers.items;
      stopped = j.stopped;
    }) };
}

impl<'a> Job<'a> {
    /// A lane before its first line, with room for an answer to each.
    pub(crate) fn new(ovpn: &'a Ovpn, pass: Pass, lines: Vec<Line>, answers: Vec<Answer>) -> Job<'a>
        requires of { IsPassOf ovpn.now pass }
        requires free { IsFree pass }
        requires none { pass.lines ≡ 0 }
        requires unanswered { answers.items ≡ [] }
        requires room { length lines.items ≤ vec_capacity answers }
        requires fits { AllByRecursion (λ line. Fits line.deed) lines.items }
        ensures value { result ≡ record {
          table = ovpn.now;
          pass = pass;
          lines = lines.items;
          answers = [];
          stopped = false;
        } }
        ensures ready { IsReady result }
    {
        Job {
            ovpn,
            pass: Some(pass),
            lines,
            answers,
            stopped: false,
        }
    }

    /// Whether a line was stopped by want of memory.
    pub(crate) fn stopped(&self) -> bool
        ensures { result ≡ self.now.stopped }
    {
        self.stopped
    }

    /// How many lines are left.
    fn left(&self) -> usize
        ensures count { result ≡ length self.now.lines - length self.now.answers }
        ensures ready { IsReady self.now }
    {
        self.lines.as_slice().len() - self.answers.as_slice().len()
    }

    /// Hands each lane what the other has seen of the table's history: then both have seen the longer of the two.
    pub(crate) fn meet(&mut self, other: &mut Job<'a>)
        requires { self.old.table ≡ other.old.table }
        ensures one { LaneSaw self.old self.new }
        ensures other { LaneSaw other.old other.new }
        ensures same { self.new.pass.share.sight.seen ≡ other.new.pass.share.sight.seen }
    {
        let Some(one) = &mut self.pass else {
            unreachable!()
        };
        let Some(two) = &mut other.pass else {
            unreachable!()
        };
        self.ovpn.meet(one, two);
    }

    /// Runs the lane's next line to its end.
    pub(crate) fn run_next<R: Wait, G: Gate>(&mut self, rt: &R, alloc: Global, gate: &G)
        requires left { length self.old.answers < length self.old.lines }
        ensures { RanNext self.old self.new }
    {
        let next = self.answers.as_slice().len();
        let Some(pass) = self.pass.take() else {
            unreachable!()
        };
        let (lane, lines, share, owed) = pass.into_parts();
        let mut desk = LaneDesk::new(rt, self.ovpn.words(), self.ovpn.routes(), share, owed);
        let place = Place { lane, line: lines };
        gate.before(place);
        let ran = run_line(rt, alloc, &mut desk, place, &self.lines[next]);
        gate.after(place);
        let (share, owed) = desk.into_parts();
        let lines = match ran {
            Ok(answer) => {
                self.answers.push_reserved(answer);
                lines + 1
            }
            Err(_) => {
                self.stopped = true;
                lines
            }
        };
        self.pass = Some(Pass::of_parts(lane, lines, share, owed));
    }

    /// Runs the lines that are left, one after the other, until one is stopped.
    pub(crate) fn run_out<R: Wait, G: Gate>(&mut self, rt: &R, alloc: Global, gate: &G)
        ensures { RanOut self.old self.new }
    {
        let left = self.left();
        for _line in 0..left {
            if self.stopped() {
                return;
            }
            self.run_next(rt, alloc, gate);
        }
    }

    /// The lane's pass and its log.
    pub(crate) fn finish(self, alloc: Global) -> (Pass, LaneLog)
        ensures pass { result.0 ≡ self.entry.pass }
        ensures log { result.1 ≡ log_of self.entry }
    {
        let Job {
            pass,
            lines,
            answers,
            ..
        } = self;
        let Some(pass) = pass else { unreachable!() };
        let log = LaneLog {
            lines: ListOf::of_vec(lines),
            answers: ListOf::of_vec(answers),
            recorded: 0,
            unsent: ListOf::new(alloc),
        };
        (pass, log)
    }
}
