//! Two threads make commands at one table, each with a pass of its own.
ghost use Rattle.std.specs.Prelude.{◌≡◌, ◌<◌, IfOk, OnErr};
ghost use Rattle.ov_lane.specs.Passes.{IsPassOf, IsFree, CallDone, OnlySaw};
ghost use Rattle.ov_clients.specs.Calls.{AreCalls};

use ov_base::{ListOf, Memory};
use ov_lane::{Closed, Ovpn, Pass};
use ov_model::{Command, Reply};
use std::alloc::Global;
use std::sync::Wait;
use std::thread::{Threads, join};

/// Makes one command with a pass, at moment 0.
fn call_once<R: Wait>(
    rt: &R,
    ovpn: &Ovpn,
    mut pass: Pass,
    command: &Command,
) -> (Pass, Result<Reply, Memory>)
    requires of { IsPassOf ovpn.now pass }
    requires free { IsFree pass }
    requires lines { pass.lines < 18446744073709551615 }
    ensures ok { IfOk result.1 (λ r. CallDone pass result.0 0 command.now r) }
    ensures err { OnErr result.1 (OnlySaw pass result.0) }
{
    let reply = ovpn.call(rt, &mut pass, 0, command);
    (pass, reply)
}

/// Two threads make one command each at one table without peers. The answer is what the table ends with and both
/// replies: each is the serial table's at the command's place in the one history.
///
/// `Memory` says that memory ran out. No clause ties it to that.
pub fn call_on_two_threads<R: Threads + Wait + Sync>(
    rt: &R,
    alloc: Global,
    first: &Command,
    second: &Command,
) -> Result<(Closed, Reply, Reply), Memory>
    ensures { IfOk result (λ r.
        AreCalls first.now second.now r.0.journal r.0.notes r.0.shards r.1 r.2) }
{
    let (ovpn, passes) = Ovpn::new(alloc, 1, 2, ListOf::new(alloc))?;
    let mut passes = passes.into_vec();
    let Some(two) = passes.pop() else {
        unreachable!()
    };
    let Some(one) = passes.pop() else {
        unreachable!()
    };
    let shared = &ovpn;
    let ((one, reply), (two, also)) = join(
        rt,
        move || -> (Pass, Result<Reply, Memory>)
            requires of { IsPassOf shared.now one }
            requires free { IsFree one }
            requires lines { one.lines < 18446744073709551615 }
            ensures ok { IfOk result.1 (λ r. CallDone one result.0 0 first.entry.now r) }
            ensures err { OnErr result.1 (OnlySaw one result.0) }
        { call_once(rt, shared, one, first) },
        move || -> (Pass, Result<Reply, Memory>)
            requires of { IsPassOf shared.now two }
            requires free { IsFree two }
            requires lines { two.lines < 18446744073709551615 }
            ensures ok { IfOk result.1 (λ r. CallDone two result.0 0 second.entry.now r) }
            ensures err { OnErr result.1 (OnlySaw two result.0) }
        { call_once(rt, shared, two, second) },
    );
    passes.push_reserved(one);
    passes.push_reserved(two);
    let closed = ovpn.close(ListOf::of_vec(passes));
    let reply = reply?;
    let also = also?;
    Ok((closed, reply, also))
}
