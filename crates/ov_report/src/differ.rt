//! Whether the keys of a journal differ.

ghost use Rattle.std.specs.Prelude.{◌≡◌, ◌↔◌, ◌++◌, true, map, IfOk, OnOk};
ghost use Rattle.std.specs.BTreeSet.{IsFromIterResult};
ghost use Rattle.ov_model.specs.Keys.{KeysDiffer, sealing_in};
ghost use Rattle.ov_report.specs.Summary as summary;
ghost use Rattle.ov_report.specs.Sealing as spec;

use ov_base::Memory;
use ov_model::{Act, Command, Entry, KeyDir, Reply};
use std::alloc::{AllocError, Global};
use std::collections::BTreeSet;

/// What an entry's new key seals with, where the entry made one.
fn sealing_of(entry: &Entry) -> Option<&KeyDir>
    ensures { spec.dirs_of result ≡ spec.sealing_by entry.now }
{
    match (&entry.call.act, &entry.reply) {
        (Act::Do(Command::KeyNew(conf)), Reply::Made(_)) => Some(&conf.encrypt),
        _ => None,
    }
}

/// Appends the bytes of the key and the nonce tail that an entry's new key seals with.
#[tactic(auto, using(crate::proofs::Sets::map_append))]
fn add_sealing<'a>(entry: &'a Entry, pairs: &mut Vec<(&'a [u8], &'a [u8])>) -> Result<(), Memory>
    ensures { OnOk result (map spec.pair_read pairs.new.items
        ≡ map spec.pair_read pairs.old.items ++ map spec.pair_of (spec.sealing_by entry.now)) }
{
    if let Some(dir) = sealing_of(entry) {
        pairs.push((dir.key.bytes(), dir.tail.as_slice()))?;
    }
    Ok(())
}

/// The bytes of the key and the nonce tail that each key of a journal seals with, in the order of their
/// making.
fn sealings<'a>(alloc: Global, journal: &'a [Entry]) -> Result<Vec<(&'a [u8], &'a [u8])>, Memory>
    ensures { IfOk result (λ pairs. map spec.pair_read pairs.items ≡ map spec.pair_of (sealing_in journal.now)) }
{
    let mut pairs = Vec::new(alloc);
    for entry in journal {
        add_sealing(entry, &mut pairs)?;
    }
    Ok(pairs)
}

/// The set of these pairs.
fn set_of<'a>(
    alloc: Global,
    pairs: &[(&'a [u8], &'a [u8])],
) -> Result<BTreeSet<(&'a [u8], &'a [u8])>, AllocError>
    ensures { IfOk result (IsFromIterResult spec.pair_cmp pairs.now) }
{
    pairs.iter().copied().collect(alloc)
}

/// Whether no two keys of a journal have the same sealing key and nonce tail: the set of what they seal
/// with then has as many members as there are keys.
pub fn keys_differ(alloc: Global, journal: &[Entry]) -> Result<bool, Memory>
    ensures value { IfOk result (λ differ. differ ≡ summary.keys_differ journal.now) }
    ensures law { IfOk result (λ differ. (differ ≡ true) ↔ KeysDiffer journal.now) }
{
    let pairs = sealings(alloc, journal)?;
    let set = set_of(alloc, pairs.as_slice())?;
    Ok(set.len() == pairs.as_slice().len())
}
