//! The outside of the program: where it stores texts, where it writes, and the gate before each
//! job.
#![tactic(auto)]

mod fault_count;
mod file_store;
mod gate;
mod memory_sink;
mod memory_store;
mod schedule;
mod shelf;
mod sink;
mod std_sink;
mod store;
mod sure_sink;
mod sure_store;

pub use file_store::FileStore;
pub use gate::{Gate, OpenGate};
pub use memory_sink::MemorySink;
pub use memory_store::MemoryStore;
pub use sink::{Sink, SinkFault, write_all_of};
pub use std_sink::StdSink;
pub use store::{Fetched, Store, StoreFault};
pub use sure_sink::SureSink;
pub use sure_store::SureStore;
