//! Runs a command on a station of either kind, on the files of the system. The contract of `run_command` says what it reads
//! and writes on any disk. The locks are held until its staging file is gone, and a damaged message was found.
ghost use Rattle.std.specs.Prelude.{◌≡◌, None, OnOk};
ghost use Rattle.{disk_io.specs.Disk.Honestly, station.specs.Opening.AreFree};

use crate::opened::Opened;
use crate::place::Station;
use base_store::{SipDigest, StoreError};
use cmd_base::{Messages, check_base, hash_state};
use cmd_input::{MAX_TEXT_FILE, Progress, read_file};
use cmd_packets::Tossing;
use cmd_status::{Fault, FileLock};
use cmd_store::{CommandError, StoreCommand};
use disk_io::{Disk, Sink};
use disk_system::{RealDisk, Unknown};
use echo_links::LinkFile;
use station::{BeforeCommand, Locks, Nothing, OpenStation, Unread, run_command};
use station_bases::{FileStation, FolderPlace, FolderProbe, FolderStation};
use std::collections::hash_map::RandomState;
use std::marker::PhantomData;
use std::rt::Files;

/// What the program knows before a command: how packets are tossed, if they are, and the progress line for the reading of
/// a base file. `unread` is the fault of an earlier input.
#[derive(Clone, Copy)]
pub(crate) struct Before<'a> {
    pub toss: Option<Tossing<'a>>,
    pub progress: Option<&'a Progress<'a>>,
    pub unread: Option<Fault<'a>>,
}

/// Opens the station and runs a command on it. The command does not end well if there is an `unread` fault.
pub(crate) fn run_at_station<'a, C: StoreCommand<'a>, L: FileLock, K: FileLock, W: Sink>(
    at: Station<'a>,
    locks: &mut Locks<L, K>,
    before: Before<'a>,
    command: &mut C,
    out: &mut W,
) -> Result<C::Answer, Fault<'a>>
    requires { AreFree (L.held locks.old.links) (K.held locks.old.base) }
    ensures passed { OnOk result (before.entry.unread ≡ None) }
{
    let done = match at.folder {
        Some(found) => run_on_folder(at, locks, found, before, command, out),
        None => run_on_file(at, locks, before, command, out),
    };
    match done {
        Ok(answer) => Ok(answer),
        Err(stop) => Err(fault_of(at, stop)),
    }
}

// The same if the base is a file.
fn run_on_file<'a, C: StoreCommand<'a>, L: FileLock, K: FileLock, W: Sink>(
    at: Station<'a>,
    locks: &mut Locks<L, K>,
    before: Before<'a>,
    command: &mut C,
    out: &mut W,
) -> Result<C::Answer, CommandError<'a>>
    requires { AreFree (L.held locks.old.links) (K.held locks.old.base) }
    ensures passed { OnOk result (before.entry.unread ≡ None) }
{
    let done = match file_station(at, before.progress) {
        Ok(station) => run_on_files(at, at.files, locks, station, before.unread, command, out),
        Err(fault) => Err(CommandError::Met(fault)),
    };
    at.files.tidy();
    done
}

// The same over these files.
fn run_on_files<'a, F: Files + Drop + 'a, C: StoreCommand<'a>, L: FileLock, K: FileLock, W: Sink>(
    at: Station<'a>,
    files: F,
    locks: &mut Locks<L, K>,
    station: FileStation<'a, RandomState, Messages<'a, 'a>>,
    unread: Option<Fault<'a>>,
    command: &mut C,
    out: &mut W,
) -> Result<C::Answer, CommandError<'a>>
    requires { AreFree (L.held locks.old.links) (K.held locks.old.base) }
    ensures passed { OnOk result (unread.entry ≡ None) }
{
    let disk = RealDisk::new(files, Unknown);
    run_unprepared(at, disk, locks, station, unread, command, out)
}

// Runs a command on a station that needs no work before it.
fn run_unprepared<
    'a,
    D: Disk + Drop,
    P: OpenStation<'a, D>,
    C: StoreCommand<'a>,
    L: FileLock,
    K: FileLock,
    W: Sink,
>(
    at: Station<'a>,
    disk: D,
    locks: &mut Locks<L, K>,
    station: P,
    unread: Option<Fault<'a>>,
    command: &mut C,
    out: &mut W,
) -> Result<C::Answer, CommandError<'a>>
    requires free { AreFree (L.held locks.old.links) (K.held locks.old.base) }
    requires can { Honestly (D.state disk) (P.can_open station (D.state disk)) }
    ensures passed { OnOk result (unread.entry ≡ None) }
{
    let mut before = Unread {
        first: Nothing,
        fault: unread,
    };
    let ended = run_command(
        at.rt.alloc(),
        disk,
        locks,
        station,
        &mut before,
        command,
        out,
    );
    ended.done
}

// The same if the base is a folder.
fn run_on_folder<'a, C: StoreCommand<'a>, L: FileLock, K: FileLock, W: Sink>(
    at: Station<'a>,
    locks: &mut Locks<L, K>,
    found: FolderProbe,
    before: Before<'a>,
    command: &mut C,
    out: &mut W,
) -> Result<C::Answer, CommandError<'a>>
    requires { AreFree (L.held locks.old.links) (K.held locks.old.base) }
    ensures passed { OnOk result (before.entry.unread ≡ None) }
{
    let disk = RealDisk::new(at.rt, Unknown);
    run_on_disk(at, disk, locks, found, before, command, out)
}

// The same over a disk of which nothing is known.
fn run_on_disk<'a, D: Disk + Drop, C: StoreCommand<'a>, L: FileLock, K: FileLock, W: Sink>(
    at: Station<'a>,
    disk: D,
    locks: &mut Locks<L, K>,
    found: FolderProbe,
    before: Before<'a>,
    command: &mut C,
    out: &mut W,
) -> Result<C::Answer, CommandError<'a>>
    requires free { AreFree (L.held locks.old.links) (K.held locks.old.base) }
    requires unknown { Honestly (D.state disk) ⊥ }
    ensures passed { OnOk result (before.entry.unread ≡ None) }
{
    let mut opened = Unread {
        first: Opened::new(at.rt, at.place.base, before.toss, None),
        fault: before.unread,
    };
    let station = folder_station(at, found);
    run_over(at.rt, disk, locks, station, &mut opened, command, out)
}

// Runs a command over any disk, and gives that up. So no proof about the files of the system meets the long contract of
// `run_command`.
fn run_over<
    'a,
    D: Disk + Drop,
    P: OpenStation<'a, D>,
    Q: BeforeCommand<'a, P::Kept>,
    C: StoreCommand<'a>,
    L: FileLock,
    K: FileLock,
    W: Sink,
>(
    rt: &HostRuntime,
    disk: D,
    locks: &mut Locks<L, K>,
    station: P,
    before: &mut Q,
    command: &mut C,
    out: &mut W,
) -> Result<C::Answer, CommandError<'a>>
    requires free { AreFree (L.held locks.old.links) (K.held locks.old.base) }
    requires can { Honestly (D.state disk) (P.can_open station (D.state disk)) }
    ensures passed { OnOk result (Q.lets before.old) }
{
    let ended = run_command(rt.alloc(), disk, locks, station, before, command, out);
    ended.done
}

/// A station with a base file, and the progress line for its reading. If the system gives no seed for look-ups, that is
/// a failed read.
pub(crate) fn file_station<'a>(
    at: Station<'a>,
    progress: Option<&'a Progress<'a>>,
) -> Result<FileStation<'a, RandomState, Messages<'a, 'a>>, Fault<'a>> {
    Ok(FileStation {
        links: at.place.links,
        base: at.path,
        hasher: hash_state(at.rt)?,
        watch: Messages { progress },
    })
}

/// A station with a base folder in this state.
pub(crate) fn folder_station<'a>(
    at: Station<'a>,
    found: FolderProbe,
) -> FolderStation<'a, SipDigest> {
    FolderStation {
        at: FolderPlace {
            links: at.place.links,
            base: at.place.base,
            path: at.path.as_bytes(),
        },
        found,
        digests: PhantomData,
    }
}

/// Why a command on a station stopped. If a message of a base folder is damaged, the fault names the first such message.
pub(crate) fn fault_of<'a>(at: Station<'a>, stop: CommandError<'a>) -> Fault<'a> {
    match stop {
        CommandError::Store(StoreError::Damaged) if at.folder.is_some() => damaged_in(
            at.rt,
            at.place.base,
        ),
        other => first_of(at, by_name(at, other.fault(at.place.base))),
    }
}

// The fault of the link file, if there is one, in place of that of a base that cannot be used: it is locked before the
// link file is read.
fn first_of<'a>(at: Station<'a>, fault: Fault<'a>) -> Fault<'a> {
    match fault {
        Fault::CannotUse(path) if path == at.place.base => match judge_links(at) {
            Ok(()) => fault,
            Err(first) => first,
        },
        other => other,
    }
}

fn judge_links<'a>(at: Station<'a>) -> Result<(), Fault<'a>> {
    let bytes = read_file(at.rt, at.place.links, MAX_TEXT_FILE)?;
    let _links = LinkFile::read(at.rt.alloc(), &bytes)?;
    Ok(())
}

/// A fault of a station, with the base file as the operator named it.
pub(crate) fn by_name<'a>(at: Station<'a>, fault: Fault<'a>) -> Fault<'a> {
    match fault {
        Fault::CannotUse(path) if at.folder.is_none() && path == at.path => Fault::CannotUse(
            at.place.base,
        ),
        other => other,
    }
}

// The fault of a base folder that has a damaged message.
fn damaged_in<'a>(rt: &HostRuntime, base: &'a str) -> Fault<'a> {
    match check_base(rt, base) {
        Ok(()) => Fault::CannotUse(base),
        Err(fault) => fault,
    }
}
