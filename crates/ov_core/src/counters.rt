//! The send counters of the keys: for each key the packet id that it gives next.

ghost use Rattle.std.specs.Prelude.{◌≡◌, ◌≤◌, ◌<◌, ◌++◌, map, length, vec_len, if◌then◌else◌};
ghost use Rattle.std.specs.Vec.{vec_capacity};
ghost use Rattle.ov_model.specs.Lifetime.{key_made_by};
ghost use Rattle.ov_core.specs.Worlds.{drawn_of, next_after};

use ov_model::{Act, Command, Drawn, Reply};

/// The number of packet ids and one: what a counter holds that has given its last id, 4294967295.
const NONE_LEFT: u64 = 4294967296;

/// Begins a counter, where a step made a key.
pub fn count_key(next: &mut Vec<u64>, first: u32, act: &Act, reply: &Reply)
    requires { vec_len next.old < vec_capacity next.old }
    ensures { next.new.items ≡ next.old.items ++ map (λ _. first) (key_made_by act.now reply.now) }
{
    if makes_key(act, reply) {
        next.push_reserved(u64::from(first));
    }
}

/// Whether a step made a key.
fn makes_key(act: &Act, reply: &Reply) -> bool
    ensures { length (key_made_by act.now reply.now) ≡ (if result then 1 else 0) }
{
    match (act, reply) {
        (Act::Do(Command::KeyNew(_)), Reply::Made(_)) => true,
        _ => false,
    }
}

/// What a counter gives.
pub fn drawn(next: u64) -> Drawn
    requires { next ≤ 4294967296 }
    ensures { result ≡ drawn_of next }
{
    if next < NONE_LEFT {
        Drawn::Id(next as u32)
    } else {
        Drawn::Spent
    }
}

/// What it holds then.
pub fn following(next: u64) -> u64
    requires { next ≤ 4294967296 }
    ensures { result ≡ next_after next }
{
    if next < NONE_LEFT { next + 1 } else { next }
}
