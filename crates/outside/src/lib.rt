//! Where bytes come from and where they go: the traits of the outside, and what stands behind them.
#![tactic(auto)]

mod fault_count;
mod host;
mod memory_sink;
mod memory_source;
mod sink;
mod source;
mod steady;

pub use host::{HostSink, HostSource};
pub use memory_sink::MemorySink;
pub use memory_source::MemorySource;
pub use sink::{Sink, WriteFault, write_all};
pub use source::{Failed, LONGEST_FILE, ReadFail, Source, read_all};
pub use steady::{Counter, SteadySink, SteadySource};
