//! Passes made from the share of the words, and taken in again.
ghost use Rattle.std.specs.Prelude.{◌≡◌, ◌+◌, ◌<◌, ◌≤◌, [], length, map, IfOk};
ghost use Rattle.std.specs.List.{AllByRecursion};
ghost use Rattle.std.specs.Vec.{vec_capacity};
ghost use Rattle.ov_model.specs.Own.{RiseFrom};
ghost use Rattle.ov_share.specs.Shares as shares;
ghost use Rattle.ov_share.specs.Shares.{IsShareOf, IsBoth};
ghost use Rattle.ov_share.specs.Keepings.{IsOrderly};
ghost use Rattle.ov_ticket.specs.Within.{HasRoom};
ghost use Rattle.ov_lane.specs.Passes.{IsFree, HasNothing, AreFreshFrom};
ghost use Rattle.ov_lane.specs.Inner.{HasTaken, IsRest, HaveShares, are_fresh};

use crate::pass::Pass;
use ov_base::Memory;
use ov_model::Owed;
use ov_replay::DeskSeat;
use ov_share::{Share, Words};
use ov_table::CELLS;
use std::alloc::Global;
use std::collections::VecDeque;

/// What a pass needs: room for the releases that it may come to owe, and for its seats of the replay shards.
pub(crate) type Room = (VecDeque<Owed>, DeskSeat);

/// Room for every release that a pass may come to owe.
pub(crate) fn room(alloc: Global) -> Result<VecDeque<Owed>, Memory>
    ensures { IfOk result (λ owed. HasRoom owed) }
{
    let mut owed = VecDeque::new(alloc);
    owed.reserve(CELLS as usize)?;
    Ok(owed)
}

/// Rooms for so many passes.
pub(crate) fn rooms(alloc: Global, count: u32) -> Result<Vec<Room>, Memory>
    ensures long { IfOk result (λ rooms. length rooms.items ≡ count) }
    ensures each { IfOk result (λ rooms. AllByRecursion (λ r. HasRoom r.0) rooms.items) }
{
    let mut rooms = Vec::new(alloc);
    for _number in 0..count {
        let owed = room(alloc)?;
        rooms.push((owed, DeskSeat::none(alloc)?))?;
    }
    Ok(rooms)
}

/// A pass before its first line, with a share that has nothing.
pub(crate) fn pass_of(number: u32, share: Share, owed: VecDeque<Owed>) -> Pass
    requires nothing { HasNothing share }
    requires two { 2 ≤ share.sight.share }
    requires room { HasRoom owed }
    ensures { result ≡ record { number = number; lines = 0; share = share } }
{
    Pass::of_parts(number, 0, share, owed)
}

/// Makes a pass for each room, numbered from 0.
pub(crate) fn deal(
    words: &Words,
    mut whole: Share,
    count: u32,
    mut rooms: Vec<Room>,
    passes: &mut Vec<Pass>,
) -> Share
    requires rest { IsRest words.now 0 whole }
    requires few { count < 64 }
    requires long { length rooms.items ≡ count }
    requires each { AllByRecursion (λ r. HasRoom r.0) rooms.items }
    requires nothing { passes.old.items ≡ [] }
    requires room { count ≤ vec_capacity passes.old }
    ensures rest { IsRest words.entry.now count result }
    ensures long { length passes.new.items ≡ count }
    ensures fresh { are_fresh words.entry.now passes.new.items }
    ensures shares { HaveShares count passes.new.items }
    ensures capacity { vec_capacity passes.new ≡ vec_capacity passes.old }
{
    for number in 0..count {
        let Some((owed, none)) = rooms.pop() else {
            unreachable!()
        };
        let (rest, share) = words.split(whole, none);
        whole = rest;
        passes.push_reserved(pass_of(number, share, owed));
    }
    whole
}

/// Takes a pass's share in.
fn take_in(words: &Words, whole: Share, pass: Pass) -> Share
    requires whole { IsShareOf words.now whole }
    requires of { IsShareOf words.now pass.share }
    requires none { shares.IsFree whole }
    requires free { IsFree pass }
    ensures of { IsShareOf words.entry.now result }
    ensures none { shares.IsFree result }
    ensures both { IsBoth whole pass.share result }
    ensures orderly { IsOrderly pass.number pass.share }
{
    let (_number, _lines, share, _owed) = pass.into_parts();
    words.join(whole, share)
}

/// The share of a pass.
fn share_of(pass: Pass) -> Share
    ensures share { result ≡ pass.share }
    ensures orderly { IsOrderly pass.number pass.share }
{
    let (_number, _lines, share, _owed) = pass.into_parts();
    share
}

/// Takes all passes in, the last first.
pub(crate) fn gather(words: &Words, mut passes: Vec<Pass>) -> Share
    requires some { 0 < length passes.items }
    requires of { AllByRecursion (λ p. IsShareOf words.now p.share) passes.items }
    requires free { AllByRecursion IsFree passes.items }
    requires numbers { RiseFrom 0 (map (λ p. p.number) passes.items) }
    ensures { HasTaken words.entry.now passes.items result }
{
    let Some(pass) = passes.pop() else {
        unreachable!()
    };
    let mut whole = share_of(pass);
    let count = passes.len();
    for _taken in 0..count {
        let Some(pass) = passes.pop() else {
            unreachable!()
        };
        whole = take_in(words, whole, pass);
    }
    whole
}
