//! The words that the program was started with.

ghost use Rattle.std.specs.Prelude.{◌≡◌, drop, IfOk};
ghost use Rattle.std.specs.Vec.Iter.{into_iter_items};
ghost use Rattle.ov_run.specs.Told.{cause_of_words, AreWords};

use crate::ended::Cause;
use std::alloc::{AllocError, Global};
use std::env::Args;
use std::io;
use std::io::ErrorKind;

/// The words behind the program's name, where the system gave them. Else why there are none: `Usage` where
/// a word or the program's name isn't UTF-8, and `Memory`.
pub fn words_of(alloc: Global, given: io::Result<Args>) -> Result<Vec<String>, Cause>
    ensures { AreWords given result }
{
    match given {
        Ok(args) => match behind_the_name(alloc, args) {
            Ok(words) => Ok(words),
            Err(_) => Err(Cause::Memory),
        },
        Err(refused) => Err(cause_of(refused.kind())),
    }
}

/// All words but the first, which is the program's name.
fn behind_the_name(alloc: Global, args: Args) -> Result<Vec<String>, AllocError>
    ensures { IfOk result (λ words. words.items ≡ drop 1 (into_iter_items args)) }
{
    args.skip(1).collect(alloc)
}

/// What ends a run whose words couldn't be taken, by the error's kind.
fn cause_of(kind: ErrorKind) -> Cause
    ensures { result ≡ cause_of_words kind }
{
    match kind {
        ErrorKind::OutOfMemory => Cause::Memory,
        _ => Cause::Usage,
    }
}
