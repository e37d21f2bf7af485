//! Lists the packets that earlier scans left in staging files. The number in a name counts the messages scanned
//! before. So it shows whether that scan moved the cursor.
ghost use Rattle.std.specs.Prelude.{◌≡◌, IfOk, OnOk};
ghost use Rattle.disk_atomic.specs.ListStaged.{AreListed};

use disk_atomic::{ListStaged, StagedPacket};
use disk_io::DiskError;
use echo_addr::Items;
use std::alloc::{AllocError, Global};
use std::fs::{DirEntry, ReadDir};
use std::io::ErrorKind;
use std::{fs, io, str};

/// The report about a folder, and how often it could not be read.
#[derive(Drop)]
pub struct LeftFiles<'r> {
    rt: &'r HostRuntime,
    folder: Items<u8>,
    own: Items<u8>,
    reported: Items<StagedPacket>,
    failures: u64,
}

impl<'r> LeftFiles<'r> {
    pub fn new(rt: &'r HostRuntime) -> LeftFiles<'r> {
        LeftFiles {
            rt,
            folder: Items::new(Vec::new(rt.alloc())),
            own: Items::new(Vec::new(rt.alloc())),
            reported: Items::new(Vec::new(rt.alloc())),
            failures: 0,
        }
    }

    fn remember(
        &mut self,
        alloc: Global,
        folder: &[u8],
        own: &[u8],
        found: &[StagedPacket],
    ) -> Result<(), AllocError>
        ensures folder { OnOk result (self.new.folder ≡ folder.now) }
        ensures own { OnOk result (self.new.own ≡ own.now) }
        ensures reported { OnOk result (self.new.reported ≡ found.now) }
        ensures failures { self.new.failures ≡ self.old.failures }
    {
        self.folder = Items::new(Vec::from_slice(alloc, folder)?);
        self.own = Items::new(Vec::from_slice(alloc, own)?);
        self.reported = Items::new(copies_of(alloc, found)?);
        Ok(())
    }
}

fn copy_of(alloc: Global, left: &StagedPacket) -> Result<StagedPacket, AllocError>
    ensures { IfOk result (λ copy. copy ≡ left.now) }
{
    Ok(StagedPacket {
        name: Items::new(Vec::from_slice(alloc, left.name.as_slice())?),
        before: left.before,
    })
}

fn copies_of(alloc: Global, found: &[StagedPacket]) -> Result<Vec<StagedPacket>, AllocError>
    ensures { IfOk result (λ copies. copies.items ≡ found.now) }
{
    let mut copies = Vec::with_capacity(alloc, found.len())?;
    'found: for left in found {
        let copy = copy_of(alloc, left)?;
        copies.push(copy)?;
    }
    Ok(copies)
}

impl ListStaged for LeftFiles<'_> {
    ghost is_true = { λ listing files. AreListed listing.folder listing.own files listing.reported };

    ghost failures = { λ listing. listing.failures };

    fn left_staged(
        &mut self,
        alloc: Global,
        folder: &[u8],
        own: &[u8],
    ) -> Result<Vec<StagedPacket>, DiskError> {
        match packets_staging(self.rt, folder, own) {
            Ok(found) => {
                self.remember(alloc, folder, own, &found)?;
                Ok(found)
            }
            Err(DiskError::Memory) => Err(DiskError::Memory),
            Err(DiskError::Device) => {
                self.failures = self.failures.saturating_add(1);
                Err(DiskError::Device)
            }
        }
    }
}

fn packets_staging(
    rt: &HostRuntime,
    folder: &[u8],
    own: &[u8],
) -> Result<Vec<StagedPacket>, DiskError> {
    match (str::from_utf8(folder), str::from_utf8(own)) {
        (Ok(folder), Ok(own)) => packets_in(rt, folder, own),
        _ => Err(DiskError::Device),
    }
}

pub(crate) fn packets_in(
    rt: &HostRuntime,
    folder: &str,
    own: &str,
) -> Result<Vec<StagedPacket>, DiskError> {
    let ending = format!(in rt.alloc(); ".pkt.~{own}~.new")?;
    match fs::read_dir(rt, folder) {
        Ok(listing) => packets_listed(rt, listing, ending.as_str()),
        // A missing folder has no packets.
        Err(error) if error.kind() == ErrorKind::NotFound => Ok(Vec::new(rt.alloc())),
        Err(error) => Err(unlisted(&error)),
    }
}

fn packets_listed(
    rt: &HostRuntime,
    listing: ReadDir,
    ending: &str,
) -> Result<Vec<StagedPacket>, DiskError> {
    let mut found = Vec::new(rt.alloc());
    for entry in listing {
        push_entry(rt, entry, ending, &mut found)?;
    }
    Ok(found)
}

fn push_entry(
    rt: &HostRuntime,
    entry: io::Result<DirEntry>,
    ending: &str,
    found: &mut Vec<StagedPacket>,
) -> Result<(), DiskError> {
    match entry {
        Ok(entry) => {
            if let Some((front, before)) = packet_staging(entry.file_name(), ending) {
                found.push(left_packet(rt, front, before)?)?;
            }
            Ok(())
        }
        // A name that is no text is not ours.
        Err(error) if error.kind() == ErrorKind::InvalidFilename => Ok(()),
        Err(error) => Err(unlisted(&error)),
    }
}

// A packet with this front of its name. No scan moves a cursor past the greatest number of four bytes.
fn left_packet(rt: &HostRuntime, front: &str, before: u64) -> Result<StagedPacket, AllocError> {
    let mut name = Vec::from_slice(rt.alloc(), front.as_bytes())?;
    name.extend_from_slice(b".pkt")?;
    Ok(StagedPacket {
        name: Items::new(name),
        before: u32::try_from(before).unwrap_or(u32::MAX),
    })
}

fn unlisted(error: &io::Error) -> DiskError {
    match error.kind() {
        ErrorKind::OutOfMemory => DiskError::Memory,
        _ => DiskError::Device,
    }
}

fn packet_staging<'n>(name: &'n str, ending: &str) -> Option<(&'n str, u64)> {
    let front = name.strip_suffix(ending)?;
    let (_, number) = front.rsplit_once('.')?;
    let before = number.parse::<u64>().ok()?;
    Some((front, before))
}
