//! The pieces of a report's lines, put at the end of a page: fixed text, numbers, words and values.

ghost use Rattle.std.specs.Prelude.{◌≡◌, ◌++◌, OnOk, decimal, false};
ghost use Rattle.serde_json.specs.View.{view};
ghost use Rattle.serde_json.specs.Written.{compact_text, has_float};

use itoa::Buffer;
use ov_base::Memory;
use serde_json::Value;
use std::alloc::Global;

/// Puts a fixed text.
pub fn append(page: &mut Vec<u8>, text: &[u8]) -> Result<(), Memory>
    ensures { OnOk result (page.new.items ≡ page.old.items ++ text.now) }
{
    page.extend_from_slice(text)?;
    Ok(())
}

/// Puts a fixed text and a number in decimal.
pub fn append_number(page: &mut Vec<u8>, front: &[u8], number: u64) -> Result<(), Memory>
    ensures { OnOk result (page.new.items ≡ page.old.items ++ (front.now ++ decimal number)) }
{
    let mut buffer = Buffer::new();
    page.extend_from_slice(front)?;
    page.extend_from_slice(buffer.format(number).as_bytes())?;
    Ok(())
}

/// Puts a number in decimal between two fixed texts.
pub fn append_closed(
    page: &mut Vec<u8>,
    front: &[u8],
    number: u64,
    back: &[u8],
) -> Result<(), Memory>
    ensures { OnOk result (page.new.items ≡ page.old.items ++ (front.now ++ (decimal number ++ back.now))) }
{
    append_number(page, front, number)?;
    page.extend_from_slice(back)?;
    Ok(())
}

/// Puts a fixed text and a word.
pub fn append_word(page: &mut Vec<u8>, front: &[u8], word: &str) -> Result<(), Memory>
    ensures { OnOk result (page.new.items ≡ page.old.items ++ (front.now ++ word.now)) }
{
    page.extend_from_slice(front)?;
    page.extend_from_slice(word.as_bytes())?;
    Ok(())
}

/// Puts the compact text of a value without floats.
pub fn append_value(alloc: Global, page: &mut Vec<u8>, value: &Value) -> Result<(), Memory>
    requires floats { has_float (view value.now) ≡ false }
    ensures { OnOk result (page.new.items ≡ page.old.items ++ compact_text (view value.now)) }
{
    let text = value.to_string(alloc)?;
    page.extend_from_slice(text.as_bytes())?;
    Ok(())
}
