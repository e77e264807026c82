//! The steps of one line, over any desk.
#![tactic(auto)]

mod begun;
mod calls;
mod desk;
mod inbound;
mod outbound;
mod ping;
mod stage;
mod walk;

pub use desk::Desk;
pub use inbound::open;
pub use outbound::seal;
pub use stage::{Pinging, Pings, Purpose, Stage};
pub use walk::{Progress, Walk};
