//! What lies outside the service, as traits with a written meaning: sources and sinks of bytes, links, disks and
//! doors, each with a count of faults that never falls. For each of them there is one in memory, whose calls fail where
//! a test says so; a source, a sink and a disk stand over std's readers, writers and files.
//!
//! [`source_texts`] reads a source to its end, within a limit.
#![tactic(auto)]

mod disk;
mod door;
mod fail_stop;
mod failed;
mod faults;
mod file_disk;
mod link;
mod mem_disk;
mod mem_door;
mod mem_link;
mod mem_sink;
mod mem_source;
mod no_disk;
mod schedule;
mod sink;
mod source;
mod std_sink;
mod std_source;

pub use disk::Disk;
pub use door::Door;
pub use fail_stop::FailStop;
pub use failed::Failed;
pub use faults::FaultCount;
pub use file_disk::FileDisk;
pub use link::Link;
pub use mem_disk::MemDisk;
pub use mem_door::MemDoor;
pub use mem_link::MemLink;
pub use mem_sink::MemSink;
pub use mem_source::MemSource;
pub use no_disk::NoDisk;
pub use sink::{Sink, write_all};
pub use source::Source;
pub use std_sink::StdSink;
pub use std_source::StdSource;

pub mod source_texts;
