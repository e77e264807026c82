//! Holds on cells: who holds a peer or a key, and which seat was last and owes its release.
#![tactic(auto)]

mod held;
mod hold;
mod steps;
#[cfg(test)]
mod tests;

pub use held::Held;
pub use hold::{get, give_back, link, unlink};
