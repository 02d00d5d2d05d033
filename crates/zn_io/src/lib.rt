//! Sources, sinks and disks, through which all bytes come and go. A source, a sink or a disk answers a fault only
//! where its count of faults rose, and loses or invents no byte. A disk says what a crash at any moment may leave.
#![tactic(auto)]

mod buffers;
mod disk;
mod file_disk;
mod memory;
mod memory_disk;
mod room;
mod sink;
mod source;
mod standard;

pub use disk::{Disk, put_durably};
pub use file_disk::FileDisk;
pub use memory::{MemSink, MemSource};
pub use memory_disk::MemDisk;
pub use room::{Fill, Room};
pub use sink::{Sink, write_all};
pub use source::{Failed, Source};
pub use standard::{StdSink, StdSource};
