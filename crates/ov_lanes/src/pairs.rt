//! Two elements of a slice at once.

ghost use Rattle.std.specs.Prelude.{◌<◌, length};
ghost use Rattle.ov_lanes.specs.Pairs.{TakesBoth, ChangesBoth};

/// Calls `f` with the two elements at `low` and `high`. It is generic since what becomes of a slice that is split in two isn't
/// known where its elements' type names a lifetime.
pub(crate) fn with_both<T, F: FnOnce(&mut T, &mut T)>(all: &mut [T], low: usize, high: usize, f: F)
    requires order { low < high }
    requires high { high < length all.old }
    requires takes { TakesBoth F.FnOnce f all.old low high }
    ensures { ChangesBoth F.FnOnce f all.old low high all.new }
{
    let (front, back) = all.split_at_mut(high);
    f(&mut front[low], &mut back[0]);
}
