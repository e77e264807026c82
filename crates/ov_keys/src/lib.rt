//! The keys of a peer: what each seals and opens with, and the two slots that they stand in.
#![tactic(auto)]

mod pair;
mod record;
mod slots;

pub use pair::KeyPair;
pub use record::KeyRec;
pub use slots::Slots;

#[cfg(test)]
mod tests;
