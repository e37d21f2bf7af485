//! A disk in memory keeps the promise of `Disk`.
ghost use Rattle.disk_memory.specs.Memory.{disk_after, changes_of};

use crate::memory_disk::{MemoryDisk, overwritten};
use disk_io::{Disk, DiskError};

impl Disk for MemoryDisk {
    ghost state = { λ disk. disk_after (changes_of disk) };

    ghost failures = { λ disk. 0 };

    fn exists(&mut self, path: &[u8]) -> Result<bool, DiskError> {
        Ok(self.file_at(path).is_some())
    }

    fn len(&mut self, path: &[u8]) -> Result<usize, DiskError> {
        Ok(self.bytes_at(path).len())
    }

    fn read_at(&mut self, path: &[u8], at: usize, buf: &mut [u8]) -> Result<usize, DiskError> {
        let file = self.bytes_at(path);
        let rest = &file[at.min(file.len())..];
        let count = rest.len().min(buf.len());
        buf[..count].copy_from_slice(&rest[..count]);
        Ok(count)
    }

    fn write_at(&mut self, path: &[u8], at: usize, bytes: &[u8]) -> Result<(), DiskError> {
        let file = overwritten(self.alloc, self.bytes_at(path), at, bytes)?;
        self.change(path, path, Some(file))
    }

    fn create(&mut self, path: &[u8]) -> Result<(), DiskError> {
        self.change(path, path, Some(Vec::new(self.alloc)))
    }

    fn rename(&mut self, from: &[u8], to: &[u8]) -> Result<(), DiskError> {
        let file = self.bytes_at(from).to_vec(self.alloc)?;
        self.change(from, to, Some(file))
    }

    fn link(&mut self, from: &[u8], to: &[u8]) -> Result<bool, DiskError> {
        if self.file_at(to).is_some() {
            return Ok(false);
        }
        let file = self.bytes_at(from).to_vec(self.alloc)?;
        self.change(to, to, Some(file))?;
        Ok(true)
    }

    fn remove(&mut self, path: &[u8]) -> Result<(), DiskError> {
        self.change(path, path, None)
    }

    fn sync(&mut self, _path: &[u8]) -> Result<(), DiskError> {
        Ok(())
    }

    fn sync_folder(&mut self, _folder: &[u8]) -> Result<(), DiskError> {
        Ok(())
    }
}
