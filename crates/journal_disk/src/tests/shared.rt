use crate::{
    FileDisk, Journal, JournalFault, JournalOpen, MemoryDisk, MemoryKeeper, OpenFault, Ran,
    RecordError, VolatileDisk,
};
use std::test::Fail;

// Takes what threads may share and what may be dropped.
fn shared<T: Send + Sync + Drop>(_value: T) {}

fn shared_file(disk: Option<FileDisk>) {
    shared(disk);
}

#[test]
fn all_may_be_shared(rt: HostRuntime) -> Result<(), Fail> {
    let alloc = rt.alloc();
    shared_file(None);
    shared(MemoryDisk::new(alloc));
    shared(VolatileDisk::new(alloc));
    shared(MemoryKeeper::new(alloc, 1, 17));
    shared(Journal::create(alloc, MemoryDisk::new(alloc), 1, 17));
    shared(JournalOpen {
        disk: MemoryDisk::new(alloc),
        why: JournalFault::Memory,
    });
    shared((OpenFault::Memory, RecordError::Memory));
    shared(Ran {
        status: 0,
        kept: Some(MemoryDisk::new(alloc)),
    });
    Ok(())
}
