//! The session with a base folder and a base file, in both orders.
ghost use Rattle.std.specs.Prelude.{IfOk, ◌∷◌, []};
ghost use Rattle.{cmd_store.specs.Coming.Holds, disk_memory.specs.Memory.changes_of, station_bases.specs.{InFolder.folder_place, Reading.file_place}};
ghost use Rattle.law_session.specs.{InOrder.IsOrderlySession, Session.{HasReceived, HasSent, either_of}};

use crate::in_memory::Quiet;
use crate::judged::judge;
use crate::session::{FIRST_LINKS, Letter, SECOND_LINKS, Sent, begin, receive, send};
use base_store::Digest;
use disk_io::{Failure, Sink};
use disk_memory::MemoryDisk;
use model_steps::Stamp;
use station_bases::{FileStation, FolderPlace, FolderProbe, FolderStation};
use std::alloc::Global;
use std::hash::BuildHasher;
use std::marker::PhantomData;

/// A base folder of the first station, and one of the second.
const FIRST_FOLDER: &[u8] = b"one/";

const SECOND_FOLDER: &[u8] = b"two/";

/// A base file of the first station, and one of the second.
const FIRST_FILE: &str = "one.base";

const SECOND_FILE: &str = "two.base";

/// The bytes of the two link files, and of what a stopped scan left.
#[derive(Clone, Copy, Debug)]
pub struct Files<'f> {
    pub one: &'f [u8],
    pub two: &'f [u8],
    pub left: &'f [u8],
}

/// The letter goes out from a base folder.
fn from_folder<H: Digest, W: Sink>(
    alloc: Global,
    disk: MemoryDisk,
    key: (u64, u64),
    letter: Letter<'_>,
    out: &mut W,
) -> Result<Sent, Failure>
    ensures { IfOk result (λ sent. HasSent (folder_place H.keyed FIRST_FOLDER.now) (folder_place H.keyed FIRST_FOLDER.now) letter.entry.words letter.entry.body.now letter.entry.stamp (changes_of disk) (changes_of sent.disk) sent.packet.items) }
{
    let at = FolderPlace {
        links: FIRST_LINKS,
        base: "one",
        path: FIRST_FOLDER,
    };
    let found = FolderProbe {
        strange: false,
        key,
    };
    let posting: FolderStation<'_, H> = FolderStation {
        at,
        found,
        digests: PhantomData,
    };
    let scanning: FolderStation<'_, H> = FolderStation {
        at,
        found,
        digests: PhantomData,
    };
    send(alloc, disk, posting, scanning, letter, out)
}

/// Or from a base file.
fn from_file<S: BuildHasher + Copy + Drop, W: Sink>(
    alloc: Global,
    disk: MemoryDisk,
    hasher: S,
    letter: Letter<'_>,
    out: &mut W,
) -> Result<Sent, Failure>
    ensures { IfOk result (λ sent. HasSent (file_place FIRST_FILE.now) (file_place FIRST_FILE.now) letter.entry.words letter.entry.body.now letter.entry.stamp (changes_of disk) (changes_of sent.disk) sent.packet.items) }
{
    let posting = FileStation {
        links: FIRST_LINKS,
        base: FIRST_FILE,
        hasher,
        watch: Quiet,
    };
    let scanning = FileStation {
        links: FIRST_LINKS,
        base: FIRST_FILE,
        hasher,
        watch: Quiet,
    };
    send(alloc, disk, posting, scanning, letter, out)
}

/// Its packet comes to a base folder.
fn to_folder<H: Digest, W: Sink>(
    alloc: Global,
    sent: Sent,
    key: (u64, u64),
    stamp: Stamp,
    out: &mut W,
) -> Result<MemoryDisk, Failure>
    ensures { IfOk result (λ disk. HasReceived (folder_place H.keyed SECOND_FOLDER.now) (folder_place H.keyed SECOND_FOLDER.now) (Holds sent.packet.items ∷ []) stamp (changes_of sent.disk) (changes_of disk)) }
{
    let Sent { disk, packet } = sent;
    let packets = [packet.as_slice()];
    let at = FolderPlace {
        links: SECOND_LINKS,
        base: "two",
        path: SECOND_FOLDER,
    };
    let found = FolderProbe {
        strange: false,
        key,
    };
    let tossing: FolderStation<'_, H> = FolderStation {
        at,
        found,
        digests: PhantomData,
    };
    let scanning: FolderStation<'_, H> = FolderStation {
        at,
        found,
        digests: PhantomData,
    };
    receive(alloc, disk, tossing, scanning, &packets, stamp, out)
}

/// Or to a base file.
fn to_file<S: BuildHasher + Copy + Drop, W: Sink>(
    alloc: Global,
    sent: Sent,
    hasher: S,
    stamp: Stamp,
    out: &mut W,
) -> Result<MemoryDisk, Failure>
    ensures { IfOk result (λ disk. HasReceived (file_place SECOND_FILE.now) (file_place SECOND_FILE.now) (Holds sent.packet.items ∷ []) stamp (changes_of sent.disk) (changes_of disk)) }
{
    let Sent { disk, packet } = sent;
    let packets = [packet.as_slice()];
    let tossing = FileStation {
        links: SECOND_LINKS,
        base: SECOND_FILE,
        hasher,
        watch: Quiet,
    };
    let scanning = FileStation {
        links: SECOND_LINKS,
        base: SECOND_FILE,
        hasher,
        watch: Quiet,
    };
    receive(alloc, disk, tossing, scanning, &packets, stamp, out)
}

/// From a base folder to a base file.
pub fn folder_to_file<H: Digest, S: BuildHasher + Copy + Drop, W: Sink>(
    alloc: Global,
    files: Files<'_>,
    key: (u64, u64),
    hasher: S,
    letter: Letter<'_>,
    out: &mut W,
) -> Result<MemoryDisk, Failure>
    ensures { IfOk result (λ disk. IsOrderlySession (either_of (folder_place H.keyed FIRST_FOLDER.now) (file_place SECOND_FILE.now)) files.entry.one.now files.entry.two.now files.entry.left.now
        letter.entry.words letter.entry.body.now letter.entry.stamp (changes_of disk)) }
{
    judge(alloc, letter.words.tag, files.one, files.two, out)?;
    let Ok(disk) = begin(alloc, files.one, files.two, files.left) else {
        return Err(Failure);
    };
    let sent = from_folder::<H, W>(alloc, disk, key, letter, out)?;
    to_file(alloc, sent, hasher, letter.stamp, out)
}

/// From a base file to a base folder.
pub fn file_to_folder<H: Digest, S: BuildHasher + Copy + Drop, W: Sink>(
    alloc: Global,
    files: Files<'_>,
    key: (u64, u64),
    hasher: S,
    letter: Letter<'_>,
    out: &mut W,
) -> Result<MemoryDisk, Failure>
    ensures { IfOk result (λ disk. IsOrderlySession (either_of (file_place FIRST_FILE.now) (folder_place H.keyed SECOND_FOLDER.now)) files.entry.one.now files.entry.two.now files.entry.left.now
        letter.entry.words letter.entry.body.now letter.entry.stamp (changes_of disk)) }
{
    judge(alloc, letter.words.tag, files.one, files.two, out)?;
    let Ok(disk) = begin(alloc, files.one, files.two, files.left) else {
        return Err(Failure);
    };
    let sent = from_file(alloc, disk, hasher, letter, out)?;
    to_folder::<H, W>(alloc, sent, key, letter.stamp, out)
}
