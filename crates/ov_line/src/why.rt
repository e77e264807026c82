//! Why bytes are outside the grammar of lines, in words for whoever wrote them.

use std::fmt;
use thiserror::Error;

/// The most bytes of a name that are shown.
const SHOWN: usize = 32;

/// The front of a name, at most 32 bytes of it, in ASCII and on one line: another byte shows as `?`.
#[derive(Clone, Copy, PartialEq, Eq)]
pub struct Name {
    bytes: [u8; SHOWN],
    length: usize,
}

impl Name {
    /// The front of this name.
    pub fn of(name: &str) -> Name {
        let mut bytes = [b'?'; SHOWN];
        let length = name.len().min(SHOWN);
        for (shown, byte) in bytes.iter_mut().zip(name.as_bytes()) {
            if byte.is_ascii_graphic() {
                *shown = *byte;
            }
        }
        Name { bytes, length }
    }

    /// The text that is shown.
    pub fn as_str(&self) -> &str {
        let all = &self.bytes[..];
        std::str::from_utf8(&all[..self.length.min(all.len())]).unwrap_or("")
    }
}

impl fmt::Debug for Name {
    fn fmt<W: fmt::Write>(&self, f: &mut fmt::Formatter<W>) -> fmt::Result {
        write!(f, "{:?}", self.as_str())
    }
}

impl fmt::Display for Name {
    fn fmt<W: fmt::Write>(&self, f: &mut fmt::Formatter<W>) -> fmt::Result {
        write!(f, "{}", self.as_str())
    }
}

/// What is wrong with a line, with the name that it is wrong at. Each text is one line of at most 70 bytes
/// that goes on after "line N is bad: ".
#[derive(Clone, Copy, Debug, PartialEq, Eq, Error)]
pub enum Why {
    /// The bytes are no JSON value in UTF-8: they break off or go wrong at this column, from 1.
    #[error("no JSON value, from column {0} on")]
    Json(usize),
    /// The value is no object.
    #[error("no object")]
    Object,
    /// An object has a name that isn't listed for it.
    #[error("unknown name {0}")]
    Unknown(Name),
    /// An object doesn't have a name that it needs.
    #[error("missing name {0}")]
    Missing(Name),
    /// A name has a value of another kind than the listed one.
    #[error("value of the wrong kind under {0}")]
    Kind(Name),
    /// A name has a value of the right kind that is too large, or a word that isn't listed.
    #[error("value out of its range under {0}")]
    Range(Name),
}
