//! The images that are taken of a disk in memory.

use crate::{Disk, MemoryDisk};
use std::alloc::Global;
use std::test::Fail;
use sysapi_base::Failed;

fn is_image(alloc: Global, disk: &MemoryDisk, fill: Option<u8>, want: &[u8]) -> Result<bool, Fail> {
    let image = disk.crashed(alloc, fill)?;
    Ok(image.bytes() == Some(want))
}

#[test]
fn bytes_that_are_not_synced_are_filled(rt: HostRuntime) -> Result<(), Fail> {
    let alloc = rt.alloc();
    let mut disk = MemoryDisk::of(alloc, [1, 2, 3, 4].to_vec(alloc)?)?;
    assert_eq!(rt; disk.write_at(1, &[8, 9]), Ok(()));
    assert!(rt; is_image(alloc, &disk, None, &[1, 8, 9, 4])?);
    assert!(rt; is_image(alloc, &disk, Some(0), &[1, 0, 0, 4])?);
    assert_eq!(rt; disk.write_at(4, &[7]), Ok(()));
    assert!(rt; is_image(alloc, &disk, Some(0), &[1, 0, 0, 4, 0])?);
    assert_eq!(rt; disk.sync(), Ok(()));
    assert!(rt; is_image(alloc, &disk, Some(0), &[1, 8, 9, 4, 7])?);
    Ok(())
}

#[test]
fn a_cut_and_longer_again_is_not_synced(rt: HostRuntime) -> Result<(), Fail> {
    let alloc = rt.alloc();
    let mut disk = MemoryDisk::of(alloc, [1, 2, 3, 4].to_vec(alloc)?)?;
    assert_eq!(rt; disk.cut(2), Ok(()));
    assert!(rt; is_image(alloc, &disk, Some(0), &[1, 2])?);
    assert_eq!(rt; disk.write_at(2, &[3, 4]), Ok(()));
    assert!(rt; is_image(alloc, &disk, Some(255), &[1, 2, 255, 255])?);
    Ok(())
}

#[test]
fn calls_that_failed_count_as_written(rt: HostRuntime) -> Result<(), Fail> {
    let alloc = rt.alloc();
    let calls = [0, 1, 2].to_vec(alloc)?;
    let mut disk = MemoryDisk::of(alloc, [1, 2, 3, 4].to_vec(alloc)?)?.failing(calls);
    assert_eq!(rt; disk.write_at(3, &[8, 9]), Err(Failed));
    assert!(rt; is_image(alloc, &disk, None, &[1, 2, 3, 4])?);
    assert!(rt; is_image(alloc, &disk, Some(0), &[1, 2, 3, 0])?);
    assert_eq!(rt; disk.cut(2), Err(Failed));
    assert!(rt; is_image(alloc, &disk, Some(0), &[1, 2, 0, 0])?);
    assert_eq!(rt; disk.sync(), Err(Failed));
    assert!(rt; is_image(alloc, &disk, Some(0), &[1, 2, 0, 0])?);
    assert_eq!(rt; disk.sync(), Ok(()));
    assert!(rt; is_image(alloc, &disk, Some(0), &[1, 2, 3, 4])?);
    Ok(())
}
