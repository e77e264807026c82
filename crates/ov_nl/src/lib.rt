//! The attribute checks of the netlink family: a message becomes a command or is refused.
#![tactic(auto)]

pub mod call;
pub mod keys;
#[cfg(test)]
mod tests;

pub use call::call_of;
