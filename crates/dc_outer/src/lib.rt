//! The outside as traits: named files, a source of bytes, a sink of bytes and a gate before work.
//!
//! Each of the first three has a count of faults, which no code that is generic over the trait can
//! raise, so that a fault answered has its cause in the count. There are forms over memory, whose
//! contents contracts see, and adapters over the system, which tell nothing of contents.
#![tactic(auto)]

mod adapters;
mod calls;
mod fault;
mod memory_files;
mod memory_sink;
mod memory_source;
mod traits;

pub use adapters::{DiskFiles, ReadSource, StdError, StdInput, StdOutput, WriteSink};
pub use fault::{Failed, FileFault};
pub use memory_files::{FilesInMemory, FilesSure};
pub use memory_sink::{BytesOut, BytesOutSure};
pub use memory_source::{BytesIn, BytesInSure};
pub use traits::{Files, Gate, OpenGate, Sink, Source};
