// The turns of a tick after its step: each due peer in turn is looked at, and sent a ping where it takes one.

ghost use Rattle.std.specs.Prelude.{◌≡◌, ◌<◌, ◌++◌, ◌∷◌, [], true, false, OnOk, OnErr, IfOk, vec_len};
ghost use Rattle.std.specs.Vec.{vec_capacity};
ghost use Rattle.ov_base.specs.declared.address.Addr.{Addr};
ghost use Rattle.ov_model.specs.declared.draw.Drawn.TheVariants as drawn;
ghost use Rattle.ov_path.specs.declared.stage.Pinging.TheVariants as pinging;
ghost use Rattle.ov_path.specs.declared.stage.Stage.TheVariants as stage;
ghost use Rattle.ov_path.specs.Desks.{SameLine, Grows};
ghost use Rattle.ov_path.specs.Stages.{is_ended, is_pause, left_in};
ghost use Rattle.ov_path.specs.Walks.{Walking, Made};

use crate::calls::{pair_of, sent_of, was_killed};
use crate::desk::Desk;
use crate::outbound::seal;
use crate::stage::{Pinging, Pings};
use ov_base::{ListOf, Memory};
use ov_model::{
    Act, Call, Drawn, HoldView, Line, PingOut, PingOutcome, Place, Reply, SealedOut, Use,
};
use ov_packet::keepalive_message;
use std::alloc::Global;
use std::mem;

/// Makes a tick's next event where nothing is owed, and answers where the tick stands then. Between two pings it
/// looks at the next due peer. The room for a ping's outcome is taken before the event that tells it.
pub fn ping<D: Desk>(
    alloc: Global,
    desk: &mut D,
    place: Place,
    line: &Line,
    at: Pinging,
    pings: &mut Pings,
) -> Result<Pinging, Memory>
    ghost via: { Addr → Addr }
    requires at { Walking via place line.now (D.view desk.old) (stage.Ticking at pings.old) }
    requires none { (D.view desk.old).owing ≡ [] }
    requires open { is_ended at (left_in pings.old) ≡ false }
    ensures then { IfOk result (λ s.
        Walking via place line.now (D.view desk.new) (stage.Ticking s pings.new)) }
    ensures made { OnOk result (Made D.view D.does via place line.now desk.old desk.new) }
    ensures err { OnErr result (SameLine (D.view desk.old) (D.view desk.new)) }
    ensures keeps { OnErr result (D.keeps desk.old desk.new) }
    ensures kept { OnErr result (pings.new ≡ pings.old) }
    ensures grows { Grows (D.view desk.old).material (D.view desk.new).material }
{
    match at {
        Pinging::Ticked => look(alloc, desk, place, line, at, pings),
        Pinging::Skipped => look(alloc, desk, place, line, at, pings),
        Pinging::PeerGiven(_, _) => look(alloc, desk, place, line, at, pings),
        Pinging::Looked(peer, hold) => {
            let drawn = desk.draw(hold.key);
            Ok(Pinging::Drew(peer, hold, drawn))
        }
        Pinging::Drew(peer, hold, Drawn::Id(id)) => {
            send(alloc, desk, place, line, peer, hold, id, pings)
        }
        Pinging::Drew(peer, hold, Drawn::Spent) => {
            spend(alloc, desk, place, line, peer, hold, pings)
        }
        Pinging::Used(hold, made) => {
            desk.give_back_key(hold.key);
            Ok(Pinging::KeyGiven(hold, made))
        }
        Pinging::KeyGiven(hold, made) => {
            desk.give_back(hold.peer);
            Ok(Pinging::PeerGiven(hold, made))
        }
    }
}

/// Looks at the next due peer. Where it takes no ping that is its outcome.
fn look<D: Desk>(
    alloc: Global,
    desk: &mut D,
    place: Place,
    line: &Line,
    at: Pinging,
    pings: &mut Pings,
) -> Result<Pinging, Memory>
    ghost via: { Addr → Addr }
    requires at { Walking via place line.now (D.view desk.old) (stage.Ticking at pings.old) }
    requires none { (D.view desk.old).owing ≡ [] }
    requires open { is_ended at (left_in pings.old) ≡ false }
    requires pause { is_pause at ≡ true }
    ensures then { IfOk result (λ s.
        Walking via place line.now (D.view desk.new) (stage.Ticking s pings.new)) }
    ensures made { OnOk result (Made D.view D.does via place line.now desk.old desk.new) }
    ensures err { OnErr result (SameLine (D.view desk.old) (D.view desk.new)) }
    ensures keeps { OnErr result (D.keeps desk.old desk.new) }
    ensures kept { OnErr result (pings.new ≡ pings.old) }
    ensures grows { Grows (D.view desk.old).material (D.view desk.new).material }
{
    let Some(peer) = pings.next_due() else {
        unreachable!();
    };
    let outs = make_room(alloc, &mut pings.outs)?;
    let call = Call {
        at: line.at,
        act: Act::KeepLook(peer),
    };
    match desk.table(place, &call) {
        Ok(reply) => match reply {
            Reply::Hold(hold) => {
                drop(reply);
                put_back(pings, outs);
                pings.next += 1;
                Ok(Pinging::Looked(peer, hold))
            }
            Reply::Skip => {
                drop(reply);
                let outcome = PingOutcome::Skip;
                tell(pings, outs, PingOut { peer, outcome });
                pings.next += 1;
                Ok(Pinging::Skipped)
            }
            _ => unreachable!(),
        },
        Err(memory) => {
            put_back(pings, outs);
            Err(memory)
        }
    }
}

/// The keepalive message is sealed under the packet id that was drawn, and counted as sent.
fn send<D: Desk>(
    alloc: Global,
    desk: &mut D,
    place: Place,
    line: &Line,
    peer: u32,
    hold: HoldView,
    id: u32,
    pings: &mut Pings,
) -> Result<Pinging, Memory>
    ghost via: { Addr → Addr }
    requires at { Walking via place line.now (D.view desk.old)
        (stage.Ticking (pinging.Drew peer hold (drawn.Id id)) pings.old) }
    ensures then { IfOk result (λ s.
        Walking via place line.now (D.view desk.new) (stage.Ticking s pings.new)) }
    ensures made { OnOk result (Made D.view D.does via place line.now desk.old desk.new) }
    ensures err { OnErr result (SameLine (D.view desk.old) (D.view desk.new)) }
    ensures keeps { OnErr result (D.keeps desk.old desk.new) }
    ensures kept { OnErr result (pings.new ≡ pings.old) }
    ensures grows { Grows (D.view desk.old).material (D.view desk.new).material }
{
    let packet = keepalive_message();
    let datagram = seal(alloc, &hold, pair_of(desk, hold.key), id, &packet)?;
    let act = sent_of(&hold, true, &packet);
    let outs = make_room(alloc, &mut pings.outs)?;
    match desk.table(place, &Call { at: line.at, act }) {
        Ok(reply) => {
            drop(reply);
            let outcome = PingOutcome::Sealed(SealedOut {
                to: hold.to,
                key: hold.key,
                id,
                datagram,
            });
            tell(pings, outs, PingOut { peer, outcome });
            Ok(Pinging::Used(hold, Use::Sealed(id)))
        }
        Err(memory) => {
            put_back(pings, outs);
            Err(memory)
        }
    }
}

/// The key has no packet id left: it is taken out of its slot, where it still stands in one.
fn spend<D: Desk>(
    alloc: Global,
    desk: &mut D,
    place: Place,
    line: &Line,
    peer: u32,
    hold: HoldView,
    pings: &mut Pings,
) -> Result<Pinging, Memory>
    ghost via: { Addr → Addr }
    requires at { Walking via place line.now (D.view desk.old)
        (stage.Ticking (pinging.Drew peer hold drawn.Spent) pings.old) }
    ensures then { IfOk result (λ s.
        Walking via place line.now (D.view desk.new) (stage.Ticking s pings.new)) }
    ensures made { OnOk result (Made D.view D.does via place line.now desk.old desk.new) }
    ensures err { OnErr result (SameLine (D.view desk.old) (D.view desk.new)) }
    ensures keeps { OnErr result (D.keeps desk.old desk.new) }
    ensures kept { OnErr result (pings.new ≡ pings.old) }
    ensures grows { Grows (D.view desk.old).material (D.view desk.new).material }
{
    let act = Act::Spend {
        peer: hold.peer,
        key: hold.key,
    };
    let outs = make_room(alloc, &mut pings.outs)?;
    match desk.table(place, &Call { at: line.at, act }) {
        Ok(reply) => {
            let outcome = PingOutcome::Spent;
            tell(pings, outs, PingOut { peer, outcome });
            let made = Use::Spent(was_killed(&reply));
            drop(reply);
            Ok(Pinging::Used(hold, made))
        }
        Err(memory) => {
            put_back(pings, outs);
            Err(memory)
        }
    }
}

/// Takes the outcomes out, with room for one more. At `Memory` they stay.
fn make_room(alloc: Global, outs: &mut ListOf<PingOut>) -> Result<Vec<PingOut>, Memory>
    ensures ok { IfOk result (λ taken. taken.items ≡ outs.old) }
    ensures room { IfOk result (λ taken. vec_len taken < vec_capacity taken) }
    ensures err { OnErr result (outs.new ≡ outs.old) }
{
    let mut taken = mem::replace(outs, ListOf::new(alloc)).into_vec();
    match taken.reserve(1) {
        Ok(()) => Ok(taken),
        Err(_) => {
            *outs = ListOf::of_vec(taken);
            Err(Memory)
        }
    }
}

/// Puts the outcomes back that were taken out.
fn put_back(pings: &mut Pings, outs: Vec<PingOut>)
    ensures { pings.new ≡ record pings.old { outs = outs.items } }
{
    drop(mem::replace(&mut pings.outs, ListOf::of_vec(outs)));
}

/// Puts the outcomes back with one more, in the room that was taken for it.
fn tell(pings: &mut Pings, mut outs: Vec<PingOut>, out: PingOut)
    requires room { vec_len outs < vec_capacity outs }
    ensures { pings.new ≡ record pings.old { outs = outs.items ++ out ∷ [] } }
{
    outs.push_reserved(out);
    put_back(pings, outs);
}
