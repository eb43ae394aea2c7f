//! The outside of the program: sources, sinks and shelves of files, each with a count of its
//! faults.
#![tactic(auto)]

mod adapters;
mod failed;
mod memory;
mod reading;
mod shelf;
mod sink;
mod source;
mod writing;

pub use adapters::{FileShelf, StdSink, StdSource};
pub use failed::Failed;
pub use memory::{MemoryShelf, MemorySink, MemorySource};
pub use reading::{ReadError, read_to_end};
pub use shelf::{LoadError, Shelf};
pub use sink::Sink;
pub use source::Source;
pub use writing::write_all;
