ghost use Rattle.std.specs.Prelude.{◌≡◌, ◌+◌, ◌-◌, ◌≤◌, ◌++◌, length, replicate, OnOk};
ghost use Rattle.journal_disk.specs.Disk.{written};

use crate::disk::Disk;
use std::alloc::{AllocError, Global};
use sysapi_base::Failed;

/// A disk in memory, for a program whose data live as long as it does. A call fails only where no memory is found.
///
/// It tells nothing of its bytes, and no image. It keeps the bytes alone, so a write at the end costs what it adds.
#[derive(Debug, Drop)]
pub struct VolatileDisk {
    bytes: Vec<u8>,
    faults: u64,
}

impl VolatileDisk {
    ghost use Rattle.std.specs.Prelude.{◌≡◌, ◌≤◌};
    ghost use Rattle.sysapi_base.specs.Outside.{Rises};
    ghost use Rattle.journal_disk.specs.VolatileDisk.{volatile_faults};

    /// An empty disk, with no faults yet.
    pub fn new(alloc: Global) -> VolatileDisk
        ensures { volatile_faults result ≡ 0 }
    {
        VolatileDisk {
            bytes: Vec::new(alloc),
            faults: 0,
        }
    }

    // Counts a fault.
    fn fault(&mut self) -> Failed
        ensures rises { Rises (volatile_faults self.old) (volatile_faults self.new) }
        ensures later { volatile_faults self.old ≤ volatile_faults self.new }
    {
        self.faults = self.faults.saturating_add(1);
        Failed
    }
}

// Writes over the bytes and past their end, with zeros before a place that is past it.
fn put(bytes: &mut Vec<u8>, at: usize, from: &[u8]) -> Result<(), AllocError>
    ensures { OnOk result (bytes.new.items ≡ written (bytes.old.items ++ replicate (at - length bytes.old.items) 0) at from.now) }
{
    if bytes.len() < at {
        bytes.resize(at, 0)?;
    }
    let over = from.len().min(bytes.len() - at);
    bytes[at..at + over].copy_from_slice(&from[..over]);
    bytes.extend_from_slice(&from[over..])
}

impl Disk for VolatileDisk {
    ghost use Rattle.std.specs.Prelude.{◌≡◌, None};
    ghost use Rattle.journal_disk.specs.VolatileDisk.{volatile_faults, IsVolatileSteady};

    ghost reading = { λ disk. None };

    ghost images = { λ disk c. ⊥ };

    ghost moment = { λ disk. 0 };

    ghost images_since = { λ disk t c. ⊥ };

    ghost faults = { volatile_faults };

    ghost IsSteady = { IsVolatileSteady };

    ghost reads_as_image = { λ disk b is. Prim.cc };

    ghost counts_now = { λ disk t c le left. left };

    ghost only_now = { λ disk c left. left };

    fn len(&mut self) -> Result<u64, Failed> {
        Ok(self.bytes.len() as u64)
    }

    fn read(&mut self, at: u64, into: &mut [u8]) -> Result<usize, Failed> {
        if at >= self.bytes.len() as u64 {
            return Ok(0);
        }
        let start = at as usize;
        let n = into.len().min(self.bytes.len() - start);
        into[..n].copy_from_slice(&self.bytes[start..start + n]);
        Ok(n)
    }

    fn write_at(&mut self, at: u64, from: &[u8]) -> Result<(), Failed> {
        match put(&mut self.bytes, at as usize, from) {
            Ok(()) => Ok(()),
            Err(_) => Err(self.fault()),
        }
    }

    fn cut(&mut self, len: u64) -> Result<(), Failed> {
        if len < self.bytes.len() as u64 {
            self.bytes.truncate(len as usize);
        }
        Ok(())
    }

    fn sync(&mut self) -> Result<(), Failed> {
        Ok(())
    }
}
