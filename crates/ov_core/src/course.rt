//! A lane's course: its lines, the answers of those that are over, and the line under way.

ghost use Rattle.std.specs.Prelude.{◌≡◌, ◌<◌, ◌++◌, ◌∷◌, [], map, IfOk, OnOk};
ghost use Rattle.ov_model.specs.Sizes.{Fits};
ghost use Rattle.ov_path.specs.declared.stage.Stage.TheVariants as stage;
ghost use Rattle.ov_path.specs.Walks.{GoesOn, Progressed, MadeBy};
ghost use Rattle.ov_core.specs.Seats.{Happened, Kept, shown_of, via_in};
ghost use Rattle.ov_core.specs.Courses.{SomeCourse, TurnedIn, lane_of};
ghost use Rattle.ov_core.specs.Sessions.{log_of};
ghost use Rattle.ov_core.specs.Scripts.{LinesRanIn, RanLineIn, dealt, lanes_of};

use crate::world::{LANES, World};
use ov_base::{ListOf, Memory};
use ov_model::{Answer, LaneLog, Line, Place};
use ov_path::{Progress, Walk};
use std::alloc::Global;
use std::marker::Model;

/// One lane's lines and answers. The line under way is the first one without an answer.
#[derive(Drop)]
pub struct Course {
    lane: u32,
    lines: Vec<Line>,
    answers: Vec<Answer>,
    walk: Walk,
}

impl Model for Course {
    ghost use Rattle.ov_core.specs.Courses.{Coursed, IsCourse};

    ghost Value = { Coursed };

    ghost view = { λ c. record {
      lane = c.lane;
      lines = c.lines.items;
      answers = c.answers.items;
      walk = c.walk;
    } };

    ghost invariant = { λ c. IsCourse (record {
      lane = c.lane;
      lines = c.lines.items;
      answers = c.answers.items;
      walk = c.walk;
    }) };
}

/// What a lane's turn did.
#[derive(Clone, Copy, Debug, PartialEq, Eq)]
pub enum Turn {
    /// The lane has no line left: nothing.
    Passed,
    /// The line under way goes on.
    Going,
    /// The line is answered.
    Answered,
}

impl Course {
    /// A lane without lines.
    pub fn new(alloc: Global, lane: u32) -> Course
        requires { lane < 64 }
        ensures { result ≡ record {
          lane = lane;
          lines = [];
          answers = [];
          walk = record {
            place = record { lane = lane; line = 0 };
            stage = stage.Fresh;
          };
        } }
    {
        Course {
            lane,
            lines: Vec::new(alloc),
            answers: Vec::new(alloc),
            walk: Walk::new(Place { lane, line: 0 }),
        }
    }

    /// The lane has one line more.
    pub fn push(&mut self, line: Line) -> Result<(), Memory>
        requires { Fits line.deed }
        ensures { OnOk result (self.new ≡ record self.old { lines = self.old.lines ++ line ∷ [] }) }
    {
        self.lines.push(line)?;
        Ok(())
    }

    /// Makes the lane's next turn.
    pub fn turn(&mut self, alloc: Global, world: &mut World) -> Result<Turn, Memory>
        requires on { SomeCourse world.old self.old }
        ensures { IfOk result (TurnedIn world.old world.new self.old self.new) }
    {
        let answered = self.answers.as_slice().len();
        let Some(line) = self.lines.as_slice().get(answered) else {
            return Ok(Turn::Passed);
        };
        world.give_turn(self.lane as usize);
        world.keeps();
        match take_turn(alloc, world, &mut self.walk, line)? {
            Progress::More => Ok(Turn::Going),
            Progress::Answered(answer) => {
                self.answers.push(answer)?;
                self.walk = Walk::new(Place {
                    lane: self.lane,
                    line: self.answers.as_slice().len() as u64,
                });
                world.end_line();
                Ok(Turn::Answered)
            }
        }
    }

    /// Runs the lane's next line to its end. `Passed` where it has no line left.
    pub fn run_line(&mut self, alloc: Global, world: &mut World) -> Result<Turn, Memory>
        requires on { SomeCourse world.old self.old }
        ensures { IfOk result (RanLineIn world.old world.new self.old self.new) }
    {
        let mut last = self.turn(alloc, world)?;
        'turns: while let Turn::Going = last {
            last = self.turn(alloc, world)?;
        }
        Ok(last)
    }

    /// Runs the lane's lines to their end, one after the other.
    pub fn run_out(&mut self, alloc: Global, world: &mut World) -> Result<(), Memory>
        requires on { SomeCourse world.old self.old }
        ensures { OnOk result (LinesRanIn world.old world.new self.old self.new) }
    {
        'lines: while let Turn::Answered = self.run_line(alloc, world)? {}
        Ok(())
    }

    /// The lane's log.
    pub fn finish(self, alloc: Global) -> LaneLog
        ensures { result ≡ log_of (lane_of self) }
    {
        let Course { lines, answers, .. } = self;
        LaneLog {
            lines: ListOf::of_vec(lines),
            answers: ListOf::of_vec(answers),
            recorded: 0,
            unsent: ListOf::new(alloc),
        }
    }
}

/// Makes one turn of a line, for the lane that has its turn.
fn take_turn(
    alloc: Global,
    world: &mut World,
    walk: &mut Walk,
    line: &Line,
) -> Result<Progress, Memory>
    requires goes { GoesOn (via_in world.old) walk.old.place line.now
        (shown_of world.old) walk.old.stage }
    requires fits { Fits line.now.deed }
    ensures then { IfOk result (Progressed (via_in world.old) walk.old.place line.now
        (shown_of world.new) walk.new.stage) }
    ensures made { IfOk result (λ r. MadeBy shown_of Happened (via_in world.old)
        walk.old.place line.now r world.old world.new) }
    ensures place { walk.new.place ≡ walk.old.place }
    ensures kept { OnOk result (Kept world.new) }
{
    let progress = walk.turn(alloc, world, line)?;
    world.keeps();
    Ok(progress)
}

/// The courses of all lanes, without lines.
pub fn new_courses(alloc: Global) -> Result<Vec<Course>, Memory>
    ensures { IfOk result (λ courses. courses.items ≡ dealt []) }
{
    let mut courses = Vec::new(alloc);
    for lane in 0..LANES {
        courses.push(Course::new(alloc, lane))?;
    }
    Ok(courses)
}

/// The logs of all lanes.
pub fn logs_of(alloc: Global, courses: Vec<Course>) -> Result<ListOf<LaneLog>, Memory>
    ensures { IfOk result (λ logs. logs ≡ map log_of (lanes_of courses.items)) }
{
    let mut logs = Vec::new(alloc);
    for course in courses {
        logs.push(course.finish(alloc))?;
    }
    Ok(ListOf::of_vec(logs))
}
