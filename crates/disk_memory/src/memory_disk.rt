//! A disk in memory, and its changes.
ghost use Rattle.std.specs.Prelude.{◌≡◌, ◌≢◌, ◌≤◌, ℕ, List, [], length, IfOk, MatchResult, OnOk, Some};
ghost use Rattle.disk_io.specs.{Disk.bytes_in as bytes_of, Runs.HasCause, Steps.IsWrittenAt};
ghost use Rattle.disk_memory.specs.Memory.{Puts, disk_after, file_behind, file_of, files_after, changes_of};

use disk_io::DiskError;
use std::alloc::{AllocError, Global};

/// A change: `to` has this file from now on, or none. If `from` is another path, it has no file.
#[derive(Drop)]
pub struct Change {
    pub from: Vec<u8>,
    pub to: Vec<u8>,
    pub file: Option<Vec<u8>>,
}

/// Files in memory. No call fails but for memory, and a crash leaves the files that it shows.
#[derive(Drop)]
pub struct MemoryDisk {
    pub(crate) alloc: Global,
    // The newest last.
    pub(crate) changes: Vec<Change>,
}

// The bytes with others at an offset, over the old ones and past their end.
pub(crate) fn overwritten(
    alloc: Global,
    old: &[u8],
    at: usize,
    bytes: &[u8],
) -> Result<Vec<u8>, AllocError>
    requires { at ≤ length old.now }
    ensures { IfOk result (λ new. IsWrittenAt old.now at bytes.now new.items) }
{
    let mut new = old[..at].to_vec(alloc)?;
    new.extend_from_slice(bytes)?;
    let rest = &old[at..];
    if bytes.len() < rest.len() {
        new.extend_from_slice(&rest[bytes.len()..])?;
    }
    Ok(new)
}

impl MemoryDisk {
    /// A disk without files.
    pub fn new(alloc: Global) -> MemoryDisk
        ensures { changes_of result ≡ [] }
    {
        MemoryDisk {
            alloc,
            changes: Vec::new(alloc),
        }
    }

    /// The path has this file from now on.
    pub fn put(&mut self, path: &[u8], bytes: &[u8]) -> Result<(), DiskError>
        ensures here { OnOk result (files_after (changes_of self.new) path.now ≡ Some bytes.now) }
        ensures others { OnOk result ((m : List ℕ) → m ≢ path.now → files_after (changes_of self.new) m ≡ files_after (changes_of self.old) m) }
    {
        let file = bytes.to_vec(self.alloc)?;
        self.change(path, path, Some(file))
    }

    /// The file at a path.
    pub fn file_at<'a>(&'a self, path: &[u8]) -> Option<&'a [u8]>
        ensures { file_behind result ≡ files_after (changes_of self.now) path.now }
    {
        let mut file: Option<&[u8]> = None;
        'changes: for change in &self.changes {
            if path == change.to.as_slice() {
                file = match &change.file {
                    Some(bytes) => Some(bytes.as_slice()),
                    None => None,
                };
            } else if path == change.from.as_slice() {
                file = None;
            }
        }
        file
    }

    /// The bytes of the file at a path, none without a file.
    pub(crate) fn bytes_at<'a>(&'a self, path: &[u8]) -> &'a [u8]
        ensures { result.now ≡ bytes_of (files_after (changes_of self.now) path.now) }
    {
        match self.file_at(path) {
            Some(bytes) => bytes,
            None => &[],
        }
    }

    // Gives `to` this file, or none; if `from` is another path, it has none.
    pub(crate) fn change(
        &mut self,
        from: &[u8],
        to: &[u8],
        file: Option<Vec<u8>>,
    ) -> Result<(), DiskError>
        ensures puts { MatchResult result (λ _. Puts from.now to.now (file_of file) (disk_after (changes_of self.old)) (disk_after (changes_of self.new)))
            (λ _. self.new.changes.items ≡ self.old.changes.items) }
        ensures cause { HasCause 0 0 result }
    {
        let from = from.to_vec(self.alloc)?;
        let to = to.to_vec(self.alloc)?;
        self.changes.push(Change { from, to, file })?;
        Ok(())
    }
}
