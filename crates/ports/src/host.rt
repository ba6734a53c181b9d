//! The store and the sink of the host: its file system, and a writer such as its standard output.
mod sink;
mod store;

pub use sink::HostSink;
pub use store::{HostBrand, HostFault, HostStore, LARGEST_FILE};
