//! Lists in a report's lines: their members, with commas between them.

ghost use Rattle.std.specs.Prelude.{◌≡◌, ◌++◌, OnOk, false, map};
ghost use Rattle.serde_json.specs.Data.{Data};
ghost use Rattle.serde_json.specs.View.{items_of};
ghost use Rattle.serde_json.specs.Written.{comma_if, compact_text, items_text};
ghost use Rattle.ov_text.specs.Pieces.{num};

use crate::pieces::{append, append_number};
use ov_base::Memory;

/// A member of a list in a line. `json` is what it is as JSON.
pub trait Item {
    ghost json: { Self → Data };

    /// Puts the member's compact text at the end of a page. `Err` is want of memory.
    fn append_item(&self, page: &mut Vec<u8>) -> Result<(), Memory>
        ensures { OnOk result (page.new.items ≡ page.old.items ++ compact_text (json self.now)) };
}

impl Item for u32 {
    ghost json = { num };

    fn append_item(&self, page: &mut Vec<u8>) -> Result<(), Memory> {
        append_number(page, b"", *self as u64)
    }
}

/// Puts a comma, where something stands before.
fn append_comma(page: &mut Vec<u8>, later: bool) -> Result<(), Memory>
    ensures { OnOk result (page.new.items ≡ page.old.items ++ comma_if later) }
{
    if later {
        append(page, b",")?;
    }
    Ok(())
}

/// Puts the members of a list in their order, with commas between them and the bracket that closes the list.
/// `Err` is want of memory.
pub fn append_items<T: Item>(page: &mut Vec<u8>, list: &[T]) -> Result<(), Memory>
    ensures { OnOk result (page.new.items ≡ page.old.items
        ++ items_text false (items_of (map T.json list.now))) }
{
    let mut later = false;
    for member in list {
        append_comma(page, later)?;
        member.append_item(page)?;
        later = true;
    }
    append(page, b"]")?;
    Ok(())
}
