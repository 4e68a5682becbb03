//! Where the program's bytes come from and where they go. A source and a sink may fail, and count
//! their faults; one in memory tells what it has left or took, so that a contract can speak of it.
#![tactic(auto)]

mod calls;
mod clean;
mod ends;
mod memory;
mod streams;
mod whole;

pub use clean::{CleanSink, CleanSource, clean_ends_never_rise};
pub use ends::{Failed, Sink, Source};
pub use memory::{MemSink, MemSource};
pub use streams::{StdSink, StdSource};
pub use whole::{ReadFault, read_all, write_all};
