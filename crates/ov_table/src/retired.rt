//! Keys that were taken out of their slots.

ghost use Rattle.std.specs.Prelude.{◌≡◌, ◌<◌, ◌≤◌, ◌+◌, ◌++◌};
ghost use Rattle.ov_model.specs.Tables.{no_keys, key_if_any, keys_in, key_serials};
ghost use Rattle.ov_table.specs.Apart.{Apart};
ghost use Rattle.ov_table.specs.Outcomes.{serial_list};

use ov_index::Gone;
use ov_keys::{KeyRec, Slots};
use ov_model::Slot;

/// A key that was taken out of its slot, where there is one, joins the retired ones. Its serial is given.
pub fn retire(retired: &mut Gone<KeyRec>, key: Option<KeyRec>) -> Option<u32>
    requires room { 0 < retired.old.room }
    requires apart { Apart (key_serials (key_if_any key)) (key_serials retired.old.items)
        retired.old.serials }
    ensures items { retired.new.items ≡ retired.old.items ++ key_if_any key }
    ensures taken { serial_list result ≡ key_serials (key_if_any key) }
    ensures room { retired.old.room ≤ retired.new.room + 1 }
    ensures serials { retired.new.serials ≡ retired.old.serials }
{
    let key = key?;
    let serial = key.serial;
    retired.join(key);
    Some(serial)
}

/// All keys of some slots join the retired ones, the primary's first. Their serials are given.
pub fn retire_all(retired: &mut Gone<KeyRec>, slots: &mut Slots) -> (Option<u32>, Option<u32>)
    requires room { 2 ≤ retired.old.room }
    requires apart { Apart (key_serials (keys_in slots.old)) (key_serials retired.old.items)
        retired.old.serials }
    ensures slots { slots.new ≡ no_keys }
    ensures items { retired.new.items ≡ retired.old.items ++ keys_in slots.old }
    ensures taken { serial_list result.0 ++ serial_list result.1 ≡ key_serials (keys_in slots.old) }
    ensures room { retired.old.room ≤ retired.new.room + 2 }
    ensures serials { retired.new.serials ≡ retired.old.serials }
{
    let first = retire(retired, slots.take(Slot::Primary));
    let second = retire(retired, slots.take(Slot::Secondary));
    (first, second)
}
