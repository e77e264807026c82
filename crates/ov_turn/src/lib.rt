//! One lock in the order of tickets, with the history of what was done under it and the cells that count its holders.
#![tactic(auto)]

pub mod cells;
mod inside;
mod kept;
mod lends;
mod lock;
#[cfg(test)]
mod tests;
mod view;

pub use inside::Inside;
pub use kept::Kept;
pub use lock::{LockSeat, TicketLock};
pub use view::View;
