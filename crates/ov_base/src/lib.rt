//! Addresses, lists, and the traits of the outside: what every other crate stands on.
#![tactic(auto)]

pub mod address;
pub mod boxed;
pub mod failures;
mod front;
pub mod list;
pub mod memory;
pub mod memory_sink;
pub mod memory_source;
pub mod read_source;
pub mod sink;
pub mod source;
pub mod steady_sink;
pub mod steady_source;
#[cfg(test)]
mod tests;
pub mod write_sink;
pub mod writing;

pub use address::{Addr, Transport};
pub use boxed::Boxed;
pub use failures::Failures;
pub use list::{ListOf, Octets};
pub use memory::Memory;
pub use memory_sink::MemorySink;
pub use memory_source::MemorySource;
pub use read_source::ReadSource;
pub use sink::{Sink, Took};
pub use source::{Got, Source};
pub use steady_sink::SteadySink;
pub use steady_source::SteadySource;
pub use write_sink::WriteSink;
pub use writing::{WriteFault, write_all};
