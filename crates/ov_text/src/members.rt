//! The members of a JSON object, put one by one; serde_json's map keeps them in ascending byte order.

ghost use Rattle.std.specs.Prelude.{◌≡◌, OnOk, IfOk};
ghost use Rattle.serde_json.specs.Data.{object, put as with_member};
ghost use Rattle.serde_json.specs.View.{view, members_view};
ghost use Rattle.ov_text.specs.Pieces as spec;

use ov_base::Memory;
use serde_json::{Map, Value, put};
use std::alloc::Global;

/// An object's members, in making.
pub type Members = Map<String, Value>;

/// Puts a number.
pub fn put_number(
    members: &mut Members,
    alloc: Global,
    name: &str,
    number: u64,
) -> Result<(), Memory>
    ensures { OnOk result (members_view members.new.entries ≡ spec.put_num name.now number (members_view members.old.entries)) }
{
    put(members, alloc, name, Value::from(number))?;
    Ok(())
}

/// Puts a text.
pub fn put_text(members: &mut Members, alloc: Global, name: &str, text: &str) -> Result<(), Memory>
    ensures { OnOk result (members_view members.new.entries ≡ spec.put_text name.now text.now (members_view members.old.entries)) }
{
    let owned = String::from_str(alloc, text)?;
    put(members, alloc, name, Value::String(owned))?;
    Ok(())
}

/// Puts an object or another value that is made already.
pub fn put_value(
    members: &mut Members,
    alloc: Global,
    name: &str,
    value: Value,
) -> Result<(), Memory>
    ensures { OnOk result (members_view members.new.entries ≡ with_member name.now (view value) (members_view members.old.entries)) }
{
    put(members, alloc, name, value)?;
    Ok(())
}

/// The object of these members.
pub fn object_of(members: Members) -> Value
    ensures { view result ≡ object (members_view members.entries) }
{
    Value::Object(members)
}

/// An object with one name.
pub fn one(alloc: Global, name: &str, value: Value) -> Result<Value, Memory>
    ensures { IfOk result (λ v. view v ≡ spec.one name.now (view value)) }
{
    let mut members = Map::new(alloc);
    put_value(&mut members, alloc, name, value)?;
    Ok(object_of(members))
}
