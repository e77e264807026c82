//! One ticket of the lock over the peer table: what a seat makes of the table while it is inside, with the links and unlinks
//! of the cells, the holds, and the releases that it owes.
#![tactic(auto)]

mod asked;
mod ticket;
mod within;

pub use ticket::{release_once, serve_once, step_once};
