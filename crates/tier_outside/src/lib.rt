//! What the tier meets outside of itself, as traits: where bytes come from and where they go, and a
//! disk that may stop at any moment. Each tells what a call does to what stands out there, and that
//! a fault is answered only where the thing itself failed. Forms in memory fail where they are told
//! to; adapters go over std's reader and writer.
//!
//! Its page is `docs/formats/disks.md`.
#![tactic(auto)]

mod calls;
mod disk;
mod mem_sink;
mod mem_source;
mod sink;
mod source;
mod std_sink;
mod std_source;

pub use disk::{Disk, DiskFault};
pub use mem_sink::MemSink;
pub use mem_source::MemSource;
pub use sink::{Sink, SinkFault};
pub use source::{Source, SourceFault};
pub use std_sink::StdSink;
pub use std_source::StdSource;
