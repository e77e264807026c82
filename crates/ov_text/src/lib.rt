//! What the lines of a report are put together of: fixed pieces, words, numbers, digits and addresses, and the
//! texts of replies.
#![tactic(auto)]

pub mod digits;
pub mod items;
mod lanes;
pub mod members;
pub mod pieces;
pub mod reply;
pub mod sealed;
mod view;

pub use digits::{append_address, append_digits};
pub use items::{Item, append_items};
pub use members::{Members, object_of, one, put_number, put_text, put_value};
pub use pieces::{append, append_closed, append_number, append_value, append_word};
pub use reply::append_reply;
pub use sealed::append_sealed;
