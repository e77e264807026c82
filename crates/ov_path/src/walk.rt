// The turns of one line: each makes the next event of the line, and the last one answers it.

ghost use Rattle.std.specs.Prelude.{◌≡◌, [], false, Some, OnOk, OnErr, IfOk};
ghost use Rattle.ov_base.specs.declared.address.Addr.{Addr};
ghost use Rattle.ov_model.specs.declared.line.Line.{Line};
ghost use Rattle.ov_model.specs.declared.act.Act.TheVariants as act;
ghost use Rattle.ov_model.specs.declared.draw.Drawn.TheVariants as drawn;
ghost use Rattle.ov_model.specs.Path.{begins, cause_of, first, settled_answer, IsLook};
ghost use Rattle.ov_model.specs.Sizes.{Fits};
ghost use Rattle.ov_model.specs.declared.stand.Use.TheVariants as used;
ghost use Rattle.ov_path.specs.declared.stage.Purpose.TheVariants as purpose;
ghost use Rattle.ov_path.specs.declared.stage.Stage.TheVariants as stage;
ghost use Rattle.ov_path.specs.declared.walk.Progress.TheVariants.{More};
ghost use Rattle.ov_path.specs.Desks.{View, IsNew, SameLine, Grows, first_owed};
ghost use Rattle.ov_path.specs.Parts.{refusal, PurposeFits};
ghost use Rattle.ov_path.specs.Stages.{is_ended, left_in, replied_at};
ghost use Rattle.ov_path.specs.Walks.{Walking, Stands, Turned, IsOpen, HopIsOwn, GoesOn, Made, MadeBy, Stays, Kept};

use crate::begun::{Begun, begin_of};
use crate::calls::{pair_of, sent_of, settle_of, was_killed};
use crate::desk::Desk;
use crate::inbound::open;
use crate::outbound::seal;
use crate::ping::ping;
use crate::stage::{Pinging, Pings, Purpose, Stage};
use ov_base::{Memory, Octets};
use ov_model::{
    Act, Answer, Call, Command, Deed, Drawn, DropCause, HoldView, Line, Owed, Place, Refusal,
    Reply, SealedOut, Settled, Use, Verdict,
};
use std::alloc::Global;
use std::mem;

/// Whether a line goes on.
#[derive(Drop)]
pub enum Progress {
    /// It has another turn.
    More,
    /// It is over, with this answer.
    Answered(Answer),
}

/// One line that runs, and where it stands.
#[derive(Drop)]
pub struct Walk {
    pub place: Place,
    pub stage: Stage,
}

impl Walk {
    /// A line that has not begun. At a desk that shows nothing of it, it can take its first turn.
    pub fn new(place: Place) -> Walk
        ensures new { result ≡ record { place = place; stage = stage.Fresh } }
        ensures ready { (via : Addr → Addr) (line : Line) (w : View) → IsNew w →
            Walking via place line w stage.Fresh }
    {
        Walk {
            place,
            stage: Stage::Fresh,
        }
    }

    /// Makes the line's next turn: the one event that comes next, or none where the line is answered without
    /// one. What is owed is released first. `alloc` is where a datagram that is sealed, a packet that is
    /// opened, and the outcomes of a tick's pings take their room. At `Memory`, which is free, neither the
    /// walk nor what the desk shows of the line has changed. `via` is the next hop of an address as the line asks for it: only the
    /// look-up of a packet and the settling of a datagram ask, each at its own turn.
    pub fn turn<D: Desk>(
        &mut self,
        alloc: Global,
        desk: &mut D,
        line: &Line,
    ) -> Result<Progress, Memory>
        ghost via: { Addr → Addr }
        // What it needs.
        requires at { Stands via line.now (D.view desk.old) self.old }
        requires open { IsOpen self.old.stage (D.view desk.old).owing }
        requires hop { HopIsOwn via self.old.stage line.now.deed (D.view desk.old) }
        requires fits { Fits line.now.deed }
        // What it made.
        ensures then { IfOk result (λ r. Turned via line.now (D.view desk.new) self.new r) }
        ensures made { IfOk result (λ r.
            MadeBy D.view D.does via self.old.place line.now r desk.old desk.new) }
        // What stays.
        ensures err { OnErr result (Kept (D.view desk.old) (D.view desk.new) self.old self.new
            × D.keeps desk.old desk.new) }
        ensures stays { Stays (D.view desk.old) (D.view desk.new) self.old self.new }
    {
        if let Some(owed) = desk.owed() {
            return Ok(self.release(desk, line, owed));
        }
        // Where memory is wanting, the stage is put back.
        match mem::replace(&mut self.stage, Stage::Fresh) {
            Stage::Fresh => self.begin(alloc, desk, line),
            Stage::Looked(hold, purpose) => self.use_hold(alloc, desk, line, hold, purpose),
            Stage::Drew(hold, drawn) => self.use_id(alloc, desk, line, hold, drawn),
            Stage::Judged(hold, packet) => self.settle(desk, line, hold, packet),
            Stage::Used(hold, made, answer) => {
                self.key_back(desk, line, hold, made, answer);
                Ok(Progress::More)
            }
            Stage::KeyGiven(hold, made, answer) => {
                Ok(self.peer_back(desk, line, hold, made, answer))
            }
            Stage::Ticking(at, pings) => self.tick(alloc, desk, line, at, pings),
            Stage::Replied(_) => unreachable!(),
            Stage::PeerGiven(_, _, _) => unreachable!(),
        }
    }

    /// Makes the release that is owed first. The line may be over then.
    fn release<D: Desk>(&mut self, desk: &mut D, line: &Line, owed: Owed) -> Progress
        ghost via: { Addr → Addr }
        requires at { Stands via line.now (D.view desk.old) self.old }
        requires first { first_owed (D.view desk.old).owing ≡ Some owed }
        ensures then { Turned via line.now (D.view desk.new) self.new result }
        ensures made { MadeBy D.view D.does via self.old.place line.now result desk.old desk.new }
        ensures stays { Stays (D.view desk.old) (D.view desk.new) self.old self.new }
    {
        desk.release(self.place, line.at, owed);
        self.finish(desk, line)
    }

    /// From here on the walk stands at `stage`. What it stood at is let go here, at one place.
    fn enter(&mut self, stage: Stage)
        ensures { self.new ≡ record self.old { stage = stage } }
    {
        drop(mem::replace(&mut self.stage, stage));
    }

    /// Answers the line where its last event was made and nothing is owed.
    fn finish<D: Desk>(&mut self, desk: &D, _line: &Line) -> Progress
        ghost via: { Addr → Addr }
        requires at { Stands via _line.now (D.view desk.now) self.old }
        ensures then { Turned via _line.now (D.view desk.now) self.new result }
        ensures place { self.new.place ≡ self.old.place }
    {
        if desk.owed().is_some() {
            return Progress::More;
        }
        match mem::replace(&mut self.stage, Stage::Fresh).into_answer() {
            Ok(answer) => Progress::Answered(answer),
            Err(stage) => {
                self.enter(stage);
                Progress::More
            }
        }
    }

    /// The line begins, or is answered at once.
    fn begin<D: Desk>(
        &mut self,
        alloc: Global,
        desk: &mut D,
        line: &Line,
    ) -> Result<Progress, Memory>
        ghost via: { Addr → Addr }
        requires at { Walking via self.old.place line.now (D.view desk.old) stage.Fresh }
        requires hop { HopIsOwn via stage.Fresh line.now.deed (D.view desk.old) }
        ensures then { IfOk result (λ r. Turned via line.now (D.view desk.new) self.new r) }
        ensures made { IfOk result (λ r.
            MadeBy D.view D.does via self.old.place line.now r desk.old desk.new) }
        ensures err { OnErr result (Kept (D.view desk.old) (D.view desk.new) self.old self.new) }
        ensures keeps { OnErr result (D.keeps desk.old desk.new) }
        ensures stays { Stays (D.view desk.old) (D.view desk.new) self.old self.new }
    {
        match begin_of(desk, &line.deed) {
            Begun::AtOnce(answer) => Ok(Progress::Answered(answer)),
            Begun::Command(command) => self.command(alloc, desk, line, command),
            Begun::Look(act, purpose) => self.look(desk, line, act, purpose),
        }
    }

    /// A command is made.
    fn command<D: Desk>(
        &mut self,
        alloc: Global,
        desk: &mut D,
        line: &Line,
        command: Command,
    ) -> Result<Progress, Memory>
        ghost via: { Addr → Addr }
        requires at { Walking via self.old.place line.now (D.view desk.old) stage.Fresh }
        requires begins { begins via line.now.deed ≡ first (act.Do command) }
        ensures then { IfOk result (λ r. Turned via line.now (D.view desk.new) self.new r) }
        ensures made { IfOk result (λ r.
            MadeBy D.view D.does via self.old.place line.now r desk.old desk.new) }
        ensures err { OnErr result (Kept (D.view desk.old) (D.view desk.new) self.old self.new) }
        ensures keeps { OnErr result (D.keeps desk.old desk.new) }
        ensures stays { Stays (D.view desk.old) (D.view desk.new) self.old self.new }
    {
        let call = Call {
            at: line.at,
            act: Act::Do(command),
        };
        let reply = desk.table(self.place, &call)?;
        self.enter(replied(alloc, reply));
        Ok(self.finish(desk, line))
    }

    /// A look-up is made. Where it finds nothing the line is answered.
    fn look<D: Desk>(
        &mut self,
        desk: &mut D,
        line: &Line,
        act: Act,
        purpose: Purpose,
    ) -> Result<Progress, Memory>
        ghost via: { Addr → Addr }
        requires at { Walking via self.old.place line.now (D.view desk.old) stage.Fresh }
        requires begins { begins via line.now.deed ≡ first act }
        requires look { IsLook act }
        requires purpose { PurposeFits line.now.deed purpose }
        ensures then { IfOk result (λ r. Turned via line.now (D.view desk.new) self.new r) }
        ensures made { IfOk result (λ r.
            MadeBy D.view D.does via self.old.place line.now r desk.old desk.new) }
        ensures err { OnErr result (Kept (D.view desk.old) (D.view desk.new) self.old self.new) }
        ensures keeps { OnErr result (D.keeps desk.old desk.new) }
        ensures stays { Stays (D.view desk.old) (D.view desk.new) self.old self.new }
    {
        let call = Call { at: line.at, act };
        let reply = desk.table(self.place, &call)?;
        match reply {
            Reply::Hold(hold) => {
                drop(reply);
                self.enter(Stage::Looked(hold, purpose));
                Ok(Progress::More)
            }
            Reply::NoPeer => {
                drop(reply);
                Ok(Progress::Answered(Answer::Dropped(DropCause::NoPeer)))
            }
            Reply::NoKey => {
                drop(reply);
                Ok(Progress::Answered(Answer::Dropped(DropCause::NoKey)))
            }
            _ => unreachable!(),
        }
    }

    /// What is held is put to use.
    fn use_hold<D: Desk>(
        &mut self,
        alloc: Global,
        desk: &mut D,
        line: &Line,
        hold: HoldView,
        purpose: Purpose,
    ) -> Result<Progress, Memory>
        ghost via: { Addr → Addr }
        requires at { Walking via self.old.place line.now (D.view desk.old)
            (stage.Looked hold purpose) }
        requires fits { Fits line.now.deed }
        ensures then { OnOk result
            (GoesOn via self.new.place line.now (D.view desk.new) self.new.stage) }
        ensures made { OnOk result
            (Made D.view D.does via self.old.place line.now desk.old desk.new) }
        ensures more { IfOk result (λ r. r ≡ More) }
        ensures err { OnErr result (SameLine (D.view desk.old) (D.view desk.new)) }
        ensures keeps { OnErr result (D.keeps desk.old desk.new) }
        ensures kept { OnErr result (self.new ≡ record self.old {
          stage = stage.Looked hold purpose;
        }) }
        ensures stays { Stays (D.view desk.old) (D.view desk.new) self.old self.new }
    {
        self.enter(Stage::Looked(hold, purpose));
        let stage = put_to_use(alloc, desk, self.place, line, hold, purpose)?;
        self.enter(stage);
        Ok(Progress::More)
    }

    /// What was drawn is used.
    fn use_id<D: Desk>(
        &mut self,
        alloc: Global,
        desk: &mut D,
        line: &Line,
        hold: HoldView,
        drawn: Drawn,
    ) -> Result<Progress, Memory>
        ghost via: { Addr → Addr }
        requires at { Walking via self.old.place line.now (D.view desk.old)
            (stage.Drew hold drawn) }
        requires fits { Fits line.now.deed }
        ensures then { OnOk result
            (GoesOn via self.new.place line.now (D.view desk.new) self.new.stage) }
        ensures made { OnOk result
            (Made D.view D.does via self.old.place line.now desk.old desk.new) }
        ensures more { IfOk result (λ r. r ≡ More) }
        ensures err { OnErr result (SameLine (D.view desk.old) (D.view desk.new)) }
        ensures keeps { OnErr result (D.keeps desk.old desk.new) }
        ensures kept { OnErr result (self.new ≡ record self.old { stage = stage.Drew hold drawn }) }
        ensures stays { Stays (D.view desk.old) (D.view desk.new) self.old self.new }
    {
        self.enter(Stage::Drew(hold, drawn));
        let stage = use_draw(alloc, desk, self.place, line, hold, drawn)?;
        self.enter(stage);
        Ok(Progress::More)
    }

    /// A fresh packet is settled: what becomes of it is the answer.
    fn settle<D: Desk>(
        &mut self,
        desk: &mut D,
        line: &Line,
        hold: HoldView,
        packet: Octets,
    ) -> Result<Progress, Memory>
        ghost via: { Addr → Addr }
        requires at { Walking via self.old.place line.now (D.view desk.old)
            (stage.Judged hold packet) }
        requires hop { (D.view desk.old).via ≡ via }
        requires fits { Fits line.now.deed }
        ensures then { OnOk result
            (GoesOn via self.new.place line.now (D.view desk.new) self.new.stage) }
        ensures made { OnOk result
            (Made D.view D.does via self.old.place line.now desk.old desk.new) }
        ensures more { IfOk result (λ r. r ≡ More) }
        ensures err { OnErr result (SameLine (D.view desk.old) (D.view desk.new)) }
        ensures keeps { OnErr result (D.keeps desk.old desk.new) }
        ensures kept { OnErr result (self.new ≡ record self.old {
          stage = stage.Judged hold packet;
        }) }
        ensures stays { Stays (D.view desk.old) (D.view desk.new) self.old self.new }
    {
        let settled = match settled(desk, self.place, line, &hold, packet.as_slice()) {
            Ok(settled) => settled,
            Err(memory) => {
                self.enter(Stage::Judged(hold, packet));
                return Err(memory);
            }
        };
        let answer = settled_as(settled, &hold, packet);
        self.enter(Stage::Used(hold, Use::Settled(settled), answer));
        Ok(Progress::More)
    }

    /// A tick goes on. The line may be over then.
    fn tick<D: Desk>(
        &mut self,
        alloc: Global,
        desk: &mut D,
        line: &Line,
        at: Pinging,
        mut pings: Pings,
    ) -> Result<Progress, Memory>
        ghost via: { Addr → Addr }
        requires at { Walking via self.old.place line.now (D.view desk.old)
            (stage.Ticking at pings) }
        requires none { (D.view desk.old).owing ≡ [] }
        requires open { is_ended at (left_in pings) ≡ false }
        ensures then { IfOk result (λ r. Turned via line.now (D.view desk.new) self.new r) }
        ensures made { IfOk result (λ r.
            MadeBy D.view D.does via self.old.place line.now r desk.old desk.new) }
        ensures err { OnErr result (SameLine (D.view desk.old) (D.view desk.new)) }
        ensures keeps { OnErr result (D.keeps desk.old desk.new) }
        ensures kept { OnErr result (self.new ≡ record self.old {
          stage = stage.Ticking at pings;
        }) }
        ensures stays { Stays (D.view desk.old) (D.view desk.new) self.old self.new }
    {
        match ping(alloc, desk, self.place, line, at, &mut pings) {
            Ok(now) => {
                self.enter(Stage::Ticking(now, pings));
                Ok(self.finish(desk, line))
            }
            Err(memory) => {
                self.enter(Stage::Ticking(at, pings));
                Err(memory)
            }
        }
    }

    /// The hold on the key is given back, after it was used.
    fn key_back<D: Desk>(
        &mut self,
        desk: &mut D,
        line: &Line,
        hold: HoldView,
        made: Use,
        answer: Answer,
    )
        ghost via: { Addr → Addr }
        requires at { Walking via self.old.place line.now (D.view desk.old)
            (stage.Used hold made answer) }
        ensures then { GoesOn via self.new.place line.now (D.view desk.new) self.new.stage }
        ensures made { Made D.view D.does via self.old.place line.now desk.old desk.new }
        ensures stays { Stays (D.view desk.old) (D.view desk.new) self.old self.new }
    {
        desk.give_back_key(hold.key);
        self.enter(Stage::KeyGiven(hold, made, answer));
    }

    /// The hold on the peer is given back, after that on the key. The line may be over then.
    fn peer_back<D: Desk>(
        &mut self,
        desk: &mut D,
        line: &Line,
        hold: HoldView,
        made: Use,
        answer: Answer,
    ) -> Progress
        ghost via: { Addr → Addr }
        requires at { Walking via self.old.place line.now (D.view desk.old)
            (stage.KeyGiven hold made answer) }
        requires none { (D.view desk.old).owing ≡ [] }
        ensures then { Turned via line.now (D.view desk.new) self.new result }
        ensures made { MadeBy D.view D.does via self.old.place line.now result desk.old desk.new }
        ensures stays { Stays (D.view desk.old) (D.view desk.new) self.old self.new }
    {
        desk.give_back(hold.peer);
        self.enter(Stage::PeerGiven(hold, made, answer));
        self.finish(desk, line)
    }
}

/// Where a command's reply leaves its line: a tick goes on with its pings, and every other command is answered
/// with its reply.
fn replied(alloc: Global, reply: Reply) -> Stage
    ensures { result ≡ replied_at reply }
{
    match reply {
        Reply::Ticked { expired, due } => {
            Stage::Ticking(Pinging::Ticked, Pings::new(alloc, expired, due))
        }
        reply => Stage::Replied(Answer::Reply(reply)),
    }
}

/// What is held is put to use: a counter is asked, or a datagram opened.
fn put_to_use<D: Desk>(
    alloc: Global,
    desk: &mut D,
    place: Place,
    line: &Line,
    hold: HoldView,
    purpose: Purpose,
) -> Result<Stage, Memory>
    ghost via: { Addr → Addr }
    requires at { Walking via place line.now (D.view desk.old) (stage.Looked hold purpose) }
    requires fits { Fits line.now.deed }
    ensures then { IfOk result (λ s. GoesOn via place line.now (D.view desk.new) s) }
    ensures made { OnOk result (Made D.view D.does via place line.now desk.old desk.new) }
    ensures err { OnErr result (SameLine (D.view desk.old) (D.view desk.new)) }
    ensures keeps { OnErr result (D.keeps desk.old desk.new) }
    ensures grows { Grows (D.view desk.old).material (D.view desk.new).material }
{
    match purpose {
        Purpose::Seal => {
            let drawn = desk.draw(hold.key);
            Ok(Stage::Drew(hold, drawn))
        }
        Purpose::Open(id) => receive(alloc, desk, place, line, hold, id),
    }
}

/// What was drawn is used: the packet is sent, or the key is spent.
fn use_draw<D: Desk>(
    alloc: Global,
    desk: &mut D,
    place: Place,
    line: &Line,
    hold: HoldView,
    drawn: Drawn,
) -> Result<Stage, Memory>
    ghost via: { Addr → Addr }
    requires at { Walking via place line.now (D.view desk.old) (stage.Drew hold drawn) }
    requires fits { Fits line.now.deed }
    ensures then { IfOk result (λ s. GoesOn via place line.now (D.view desk.new) s) }
    ensures made { OnOk result (Made D.view D.does via place line.now desk.old desk.new) }
    ensures err { OnErr result (SameLine (D.view desk.old) (D.view desk.new)) }
    ensures keeps { OnErr result (D.keeps desk.old desk.new) }
    ensures grows { Grows (D.view desk.old).material (D.view desk.new).material }
{
    match drawn {
        Drawn::Id(id) => send(alloc, desk, place, line, hold, id),
        Drawn::Spent => spend(desk, place, line, hold),
    }
}

/// The packet is sealed under the packet id that was drawn, and counted as sent.
fn send<D: Desk>(
    alloc: Global,
    desk: &mut D,
    place: Place,
    line: &Line,
    hold: HoldView,
    id: u32,
) -> Result<Stage, Memory>
    ghost via: { Addr → Addr }
    requires at { Walking via place line.now (D.view desk.old) (stage.Drew hold (drawn.Id id)) }
    requires fits { Fits line.now.deed }
    ensures then { IfOk result (λ s. GoesOn via place line.now (D.view desk.new) s) }
    ensures made { OnOk result (Made D.view D.does via place line.now desk.old desk.new) }
    ensures err { OnErr result (SameLine (D.view desk.old) (D.view desk.new)) }
    ensures keeps { OnErr result (D.keeps desk.old desk.new) }
    ensures grows { Grows (D.view desk.old).material (D.view desk.new).material }
{
    let Deed::Tx(packet) = &line.deed else {
        unreachable!();
    };
    let datagram = seal(alloc, &hold, pair_of(desk, hold.key), id, packet.as_slice())?;
    let act = sent_of(&hold, false, packet.as_slice());
    drop(desk.table(place, &Call { at: line.at, act })?);
    let answer = Answer::Sealed(SealedOut {
        to: hold.to,
        key: hold.key,
        id,
        datagram,
    });
    Ok(Stage::Used(hold, Use::Sealed(id), answer))
}

/// The key has no packet id left: it is taken out of its slot, where it still stands in one.
fn spend<D: Desk>(desk: &mut D, place: Place, line: &Line, hold: HoldView) -> Result<Stage, Memory>
    ghost via: { Addr → Addr }
    requires at { Walking via place line.now (D.view desk.old) (stage.Drew hold drawn.Spent) }
    ensures then { IfOk result (λ s. GoesOn via place line.now (D.view desk.new) s) }
    ensures made { OnOk result (Made D.view D.does via place line.now desk.old desk.new) }
    ensures err { OnErr result (SameLine (D.view desk.old) (D.view desk.new)) }
    ensures keeps { OnErr result (D.keeps desk.old desk.new) }
    ensures grows { Grows (D.view desk.old).material (D.view desk.new).material }
{
    let act = Act::Spend {
        peer: hold.peer,
        key: hold.key,
    };
    let reply = desk.table(place, &Call { at: line.at, act })?;
    let made = Use::Spent(was_killed(&reply));
    drop(reply);
    Ok(Stage::Used(hold, made, Answer::Dropped(DropCause::Spent)))
}

/// A datagram is opened, whose head has this packet id. Where its tag verifies the id is judged, else the
/// key is given back.
fn receive<D: Desk>(
    alloc: Global,
    desk: &mut D,
    place: Place,
    line: &Line,
    hold: HoldView,
    packet_id: u32,
) -> Result<Stage, Memory>
    ghost via: { Addr → Addr }
    requires at { Walking via place line.now (D.view desk.old)
        (stage.Looked hold (purpose.Open packet_id)) }
    requires fits { Fits line.now.deed }
    ensures then { IfOk result (λ s. GoesOn via place line.now (D.view desk.new) s) }
    ensures made { OnOk result (Made D.view D.does via place line.now desk.old desk.new) }
    ensures err { OnErr result (SameLine (D.view desk.old) (D.view desk.new)) }
    ensures keeps { OnErr result (D.keeps desk.old desk.new) }
    ensures grows { Grows (D.view desk.old).material (D.view desk.new).material }
{
    let Deed::Rx { datagram, .. } = &line.deed else {
        unreachable!();
    };
    let opened = open(
        alloc,
        pair_of(desk, hold.key),
        packet_id,
        datagram.as_slice(),
    )?;
    let Some(packet) = opened else {
        desk.give_back_key(hold.key);
        let answer = Answer::Dropped(DropCause::BadTag);
        return Ok(Stage::KeyGiven(hold, Use::BadTag, answer));
    };
    let verdict = desk.replay(place, hold.key, packet_id, line.at)?;
    match refusal_of(verdict) {
        Some(refusal) => {
            let answer = Answer::Dropped(dropped_as(refusal));
            Ok(Stage::Used(hold, Use::Refused(refusal), answer))
        }
        None => Ok(Stage::Judged(hold, packet)),
    }
}

/// The table says what becomes of a fresh packet.
fn settled<D: Desk>(
    desk: &mut D,
    place: Place,
    line: &Line,
    hold: &HoldView,
    packet: &[u8],
) -> Result<Settled, Memory>
    ghost via: { Addr → Addr }
    requires at { Walking via place line.now (D.view desk.old) (stage.Judged hold.now packet.now) }
    requires hop { (D.view desk.old).via ≡ via }
    requires fits { Fits line.now.deed }
    ensures then { IfOk result (λ s. Walking via place line.now (D.view desk.new)
        (stage.Used hold.now (used.Settled s) (settled_answer s hold.now packet.now))) }
    ensures made { OnOk result (Made D.view D.does via place line.now desk.old desk.new) }
    ensures err { OnErr result (SameLine (D.view desk.old) (D.view desk.new)) }
    ensures keeps { OnErr result (D.keeps desk.old desk.new) }
    ensures grows { Grows (D.view desk.old).material (D.view desk.new).material }
{
    let Deed::Rx { from, datagram } = &line.deed else {
        unreachable!();
    };
    let act = settle_of(desk, hold, *from, packet, datagram.as_slice());
    let Reply::Settled(settled) = desk.table(place, &Call { at: line.at, act })? else {
        unreachable!();
    };
    Ok(settled)
}

/// Why a packet id isn't taken, where it isn't.
fn refusal_of(verdict: Verdict) -> Option<Refusal>
    ensures { result ≡ refusal verdict }
{
    match verdict {
        Verdict::Accept => None,
        Verdict::Zero => Some(Refusal::Zero),
        Verdict::Old => Some(Refusal::Old),
        Verdict::Below => Some(Refusal::Below),
        Verdict::Again => Some(Refusal::Again),
    }
}

/// The cause with which a packet is dropped whose id isn't taken.
fn dropped_as(refusal: Refusal) -> DropCause
    ensures { result ≡ cause_of refusal }
{
    match refusal {
        Refusal::Zero => DropCause::Zero,
        Refusal::Old => DropCause::Old,
        Refusal::Below => DropCause::Below,
        Refusal::Again => DropCause::Again,
    }
}

/// What becomes of a settled packet, as the answer of its line.
fn settled_as(settled: Settled, hold: &HoldView, packet: Octets) -> Answer
    ensures { result ≡ settled_answer settled hold.now packet }
{
    match settled {
        Settled::Deliver => Answer::Delivered {
            peer: hold.id,
            packet,
        },
        Settled::Ping => Answer::Keepalive(hold.id),
        Settled::NotIp => Answer::Dropped(DropCause::NotIp),
        Settled::NotOwner => Answer::Dropped(DropCause::NotOwner),
    }
}
