//! The counts of a report's histories.

ghost use Rattle.std.specs.Prelude.{◌≡◌, ℕ, count_by, sum_by, IfOk};
ghost use Rattle.std.specs.Fn.{FnReturnsAt};
ghost use Rattle.ov_report.specs.Summary as spec;

use ov_base::{ListOf, Memory};
use ov_model::{
    Act, Answer, Command, DropCause, Entry, LaneLog, PingOut, PingOutcome, ReplayEntry, Reply,
    Verdict,
};

/// The sum of what is counted in each member of a list. More than a u64 counts no memory holds.
fn total<T, F: Fn(&T) -> usize>(list: &[T], count: F) -> Result<u64, Memory>
    requires { F.IsAlwaysCallable count }
    ensures { (value : T → ℕ) →
        ((member : T) → (n : ℕ) → FnReturnsAt F.Fn count member n → n ≡ value member) →
        IfOk result (λ sum. sum ≡ sum_by value list.now) }
{
    let mut sum: u64 = 0;
    for member in list {
        let Some(more) = sum.checked_add(count(member) as u64) else {
            return Err(Memory);
        };
        sum = more;
    }
    Ok(sum)
}

/// Whether an entry made a peer.
fn makes_peer(act: &Act, reply: &Reply) -> bool
    ensures { result ≡ spec.makes_peer act.now reply.now }
{
    match (act, reply) {
        (Act::Do(Command::PeerNew(_)), Reply::Made(_)) => true,
        _ => false,
    }
}

/// Whether an entry made a key.
fn makes_key(act: &Act, reply: &Reply) -> bool
    ensures { result ≡ spec.makes_key act.now reply.now }
{
    match (act, reply) {
        (Act::Do(Command::KeyNew(_)), Reply::Made(_)) => true,
        _ => false,
    }
}

/// Whether an entry let a removed peer go.
fn lets_peer_go(act: &Act) -> bool
    ensures { result ≡ spec.lets_peer_go act.now }
{
    match act {
        Act::Released(_) => true,
        _ => false,
    }
}

/// The number of peers that were made.
pub fn peers(entries: &[Entry]) -> usize
    ensures { result ≡ count_by (λ e. spec.makes_peer e.call.act e.reply) entries.now }
{
    entries
        .iter()
        .filter(|entry| makes_peer(&entry.call.act, &entry.reply))
        .count()
}

/// The number of keys that were made.
pub fn keys(entries: &[Entry]) -> usize
    ensures { result ≡ count_by (λ e. spec.makes_key e.call.act e.reply) entries.now }
{
    entries
        .iter()
        .filter(|entry| makes_key(&entry.call.act, &entry.reply))
        .count()
}

/// The number of removed peers that were let go.
pub fn released(entries: &[Entry]) -> usize
    ensures { result ≡ count_by (λ e. spec.lets_peer_go e.call.act) entries.now }
{
    entries
        .iter()
        .filter(|entry| lets_peer_go(&entry.call.act))
        .count()
}

/// Whether a ping was sealed.
fn is_sealed_ping(outcome: &PingOutcome) -> bool
    ensures { result ≡ spec.is_sealed_ping outcome.now }
{
    match outcome {
        PingOutcome::Sealed(_) => true,
        _ => false,
    }
}

/// The number of sealed pings.
fn sealed_pings(pings: &[PingOut]) -> usize
    ensures { result ≡ count_by (λ p. spec.is_sealed_ping p.outcome) pings.now }
{
    pings
        .iter()
        .filter(|ping| is_sealed_ping(&ping.outcome))
        .count()
}

/// The number of datagrams that an answer sealed.
fn sealed_by(answer: &Answer) -> usize
    ensures { result ≡ spec.sealed_by answer.now }
{
    match answer {
        Answer::Sealed(_) => 1,
        Answer::Ticked { pings, .. } => sealed_pings(pings.as_slice()),
        _ => 0,
    }
}

/// Whether an answer is a delivered packet.
fn is_delivered(answer: &Answer) -> bool
    ensures { result ≡ spec.is_delivered answer.now }
{
    match answer {
        Answer::Delivered { .. } => true,
        _ => false,
    }
}

/// Whether an answer says that a datagram's tag is wrong.
fn is_bad_tag(answer: &Answer) -> bool
    ensures { result ≡ spec.is_bad_tag answer.now }
{
    match answer {
        Answer::Dropped(DropCause::BadTag) => true,
        _ => false,
    }
}

/// The number of all lanes' answers. As each of the following, it answers want of memory where a u64 can't
/// count them.
pub fn answers(lanes: &[LaneLog]) -> Result<u64, Memory>
    ensures { IfOk result (λ n. n ≡ spec.answers lanes.now) }
{
    total(lanes, |log| log.answers.len())
}

/// The number of all lanes' sealed datagrams, those of packets and those of pings.
pub fn sealed(lanes: &[LaneLog]) -> Result<u64, Memory>
    ensures { IfOk result (λ n. n ≡ spec.sealed lanes.now) }
{
    let mut sum: u64 = 0;
    for log in lanes {
        let in_lane = total(log.answers.as_slice(), |answer| sealed_by(answer))?;
        let Some(more) = sum.checked_add(in_lane) else {
            return Err(Memory);
        };
        sum = more;
    }
    Ok(sum)
}

/// The number of all lanes' delivered packets.
pub fn delivered(lanes: &[LaneLog]) -> Result<u64, Memory>
    ensures { IfOk result (λ n. n ≡ spec.answered spec.is_delivered lanes.now) }
{
    total(lanes, |log| {
        let answers = log.answers.as_slice();
        answers.iter().filter(|answer| is_delivered(answer)).count()
    })
}

/// The number of all lanes' datagrams whose tag was wrong.
pub fn bad_tags(lanes: &[LaneLog]) -> Result<u64, Memory>
    ensures { IfOk result (λ n. n ≡ spec.answered spec.is_bad_tag lanes.now) }
{
    total(lanes, |log| {
        let answers = log.answers.as_slice();
        answers.iter().filter(|answer| is_bad_tag(answer)).count()
    })
}

/// Whether a verdict lets a packet in.
fn is_accept(verdict: Verdict) -> bool
    ensures { result ≡ spec.is_accept verdict }
{
    match verdict {
        Verdict::Accept => true,
        _ => false,
    }
}

/// The number of a shard's steps that accepted an id.
fn accepted_in(steps: &[ReplayEntry]) -> usize
    ensures { result ≡ count_by (λ r. spec.is_accept r.verdict) steps.now }
{
    steps.iter().filter(|step| is_accept(step.verdict)).count()
}

/// The number of a shard's steps that refused an id.
fn refused_in(steps: &[ReplayEntry]) -> usize
    ensures { result ≡ count_by (λ r. spec.is_refused r.verdict) steps.now }
{
    steps.iter().filter(|step| !is_accept(step.verdict)).count()
}

/// The number of all shards' steps that accepted an id.
pub fn accepted(shards: &[ListOf<ReplayEntry>]) -> Result<u64, Memory>
    ensures { IfOk result (λ n. n ≡ spec.judged spec.is_accept shards.now) }
{
    total(shards, |shard| accepted_in(shard.as_slice()))
}

/// The number of all shards' steps that refused an id.
pub fn refused(shards: &[ListOf<ReplayEntry>]) -> Result<u64, Memory>
    ensures { IfOk result (λ n. n ≡ spec.judged spec.is_refused shards.now) }
{
    total(shards, |shard| refused_in(shard.as_slice()))
}
