//! A store and a sink in memory, which fail at chosen calls.
mod plan;
mod sink;
mod store;

pub use sink::MemorySink;
pub use store::{MemoryBrand, MemoryStore};
