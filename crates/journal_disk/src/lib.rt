//! A journal of records on a disk. Each record is on the disk before it is told to be.
#![tactic(auto)]

mod disk;
mod fault;
mod file_disk;
mod gate;
mod journal;
mod keeper;
mod laws;
mod memory;
mod memory_keeper;
mod opening;
mod piece;
mod reading;
mod text;
mod volatile_disk;

pub use disk::Disk;
pub use fault::{JournalFault, JournalOpen, OpenFault, Ran, RecordError};
pub use file_disk::FileDisk;
pub use journal::Journal;
pub use keeper::Keeper;
pub use laws::{first_journal, judged_once, read_once};
pub use memory::MemoryDisk;
pub use memory_keeper::MemoryKeeper;
pub use volatile_disk::VolatileDisk;

#[cfg(test)]
mod tests;
