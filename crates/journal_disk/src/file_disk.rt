ghost use Rattle.std.specs.Prelude.{◌≡◌, ◌≤◌, length, IfOk};

use crate::disk::Disk;
use std::fs::{File, Files, OpenOptions};
use std::io;
use std::io::ErrorKind;
use std::os::unix::fs::FileExt;
use std::path::Path;
use sysapi_base::Failed;

/// A disk over a file: positional reads and writes, and data syncs. Each error of the file is a fault, but one that says that a read
/// was interrupted, after which it reads again.
///
/// It tells nothing of its bytes, and no image. That the file keeps what was synced, that nobody else writes it, that a write that
/// fails writes nothing outside its range, and that the folder keeps the file's name is not proved of a real file: a journal over it
/// keeps its records where the file does what `Disk` says.
#[derive(Drop)]
pub struct FileDisk {
    file: File,
    faults: u64,
}

impl FileDisk {
    ghost use Rattle.std.specs.Prelude.{◌≡◌, ◌≤◌, IfOk};
    ghost use Rattle.sysapi_base.specs.Outside.{Rises};
    ghost use Rattle.journal_disk.specs.FileDisk.{file_faults};

    /// A disk over the file at this path, with no faults yet. The file is made where there is none, and the folder is synced. The
    /// file is locked until the disk is dropped, so a second disk over it is refused.
    pub fn open<R: Files<File = File>>(rt: &R, path: &str) -> io::Result<FileDisk>
        ensures { IfOk result (λ disk. file_faults disk ≡ 0) }
    {
        let file = OpenOptions::new()
            .read(true)
            .write(true)
            .create(true)
            .open(rt, path)?;
        file.try_lock()?;
        File::open(rt, folder_of(path))?.sync_all()?;
        Ok(FileDisk { file, faults: 0 })
    }

    // Counts a fault.
    fn fault(&mut self) -> Failed
        ensures rises { Rises (file_faults self.old) (file_faults self.new) }
        ensures later { file_faults self.old ≤ file_faults self.new }
    {
        self.faults = self.faults.saturating_add(1);
        Failed
    }
}

// The folder in which a path's file stands.
fn folder_of(path: &str) -> Path<'_> {
    match Path::new(path).parent() {
        Some(folder) if !folder.to_string_lossy().is_empty() => folder,
        _ => Path::new("."),
    }
}

// One read, tried again where it was interrupted.
fn read_some(file: &File, at: u64, into: &mut [u8]) -> io::Result<usize>
    ensures { IfOk result (λ n. n ≤ length into.new) }
{
    for _ in 0..u64::MAX {
        match file.read_at(into, at) {
            Ok(n) => return Ok(n),
            Err(error) => {
                if error.kind() != ErrorKind::Interrupted {
                    return Err(error);
                }
            }
        }
    }
    Err(io::Error::from(ErrorKind::Interrupted))
}

impl Disk for FileDisk {
    ghost use Rattle.std.specs.Prelude.{◌≡◌, None};
    ghost use Rattle.journal_disk.specs.FileDisk.{file_faults, IsFileSteady};

    ghost reading = { λ disk. None };

    ghost images = { λ disk c. ⊥ };

    ghost moment = { λ disk. 0 };

    ghost images_since = { λ disk t c. ⊥ };

    ghost faults = { file_faults };

    ghost IsSteady = { IsFileSteady };

    ghost reads_as_image = { λ disk b is. Prim.cc };

    ghost counts_now = { λ disk t c le left. left };

    ghost only_now = { λ disk c left. left };

    fn len(&mut self) -> Result<u64, Failed> {
        match self.file.metadata() {
            Ok(metadata) => Ok(metadata.len()),
            Err(_) => Err(self.fault()),
        }
    }

    fn read(&mut self, at: u64, into: &mut [u8]) -> Result<usize, Failed> {
        match read_some(&self.file, at, into) {
            Ok(n) => Ok(n),
            Err(_) => Err(self.fault()),
        }
    }

    fn write_at(&mut self, at: u64, from: &[u8]) -> Result<(), Failed> {
        match self.file.write_all_at(from, at) {
            Ok(()) => Ok(()),
            Err(_) => Err(self.fault()),
        }
    }

    fn cut(&mut self, len: u64) -> Result<(), Failed> {
        match self.file.set_len(len) {
            Ok(()) => Ok(()),
            Err(_) => Err(self.fault()),
        }
    }

    fn sync(&mut self) -> Result<(), Failed> {
        match self.file.sync_data() {
            Ok(()) => Ok(()),
            Err(_) => Err(self.fault()),
        }
    }
}
