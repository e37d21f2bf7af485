//! `scan` by its words, on the files of the system. The contract of `run_scan` in `station_scan` says what it reads and
//! writes on any disk.
ghost use Rattle.{disk_io.specs.Disk.Honestly, station.specs.Opening.AreFree, cmd_station.specs.Scans.IsStaying};

use crate::opened::Opened;
use crate::place::{Station, find_base, station_locks};
use crate::running::{fault_of, file_station, folder_station};
use crate::unplaced::report_unplaced;
use base_store::StoreError;
use cmd_input::{Progress, folder_path, named_stamp};
use cmd_packets::{LeftFiles, ScanEnd, ScanFiles};
use cmd_status::{Fault, FileLock, MessageProgress, Status};
use cmd_store::CommandError;
use cmd_words::{Place, ScanWords};
use disk_atomic::PlacingError;
use disk_io::{Disk, Sink};
use disk_system::{RealDisk, Unknown};
use model_steps::Stamp;
use station::{BeforeCommand, LendStation, Locks, Nothing, OpenStation};
use station_bases::FolderProbe;
use station_scan::{Scan, ScanError, run_scan as scan_station};
use std::rt::Files;

/// How many messages are scanned between two looks at the clock.
const SOME: usize = 1_000;

/// A station, and where its packets go.
#[derive(Clone, Copy)]
pub struct StationScan<'a> {
    pub at: Station<'a>,
    pub to: Outbound<'a>,
}

/// The stamp of a scan, and the folder of its packets: as the operator named it, and the path before the names of its
/// files.
#[derive(Clone, Copy)]
pub struct Outbound<'a> {
    pub stamp: Stamp,
    pub folder: &'a str,
    pub slashed: &'a str,
}

/// `scan`: the stamp is judged first. The packets get their names once the base is written.
pub(crate) fn run_scan<W: Sink, E: Sink>(
    rt: &HostRuntime,
    words: ScanWords<'_>,
    progress: &Progress<'_>,
    out: &mut W,
    errors: &mut E,
) -> Status {
    let stamp = match named_stamp(rt, words.at) {
        Ok(stamp) => stamp,
        Err(fault) => return fault.report(errors),
    };
    match folder_path(rt, words.folder) {
        Ok(slashed) => {
            let to = Outbound {
                stamp,
                folder: words.folder,
                slashed: slashed.as_str(),
            };
            find_and_scan(rt, words.place, to, progress, out, errors)
        }
        Err(_) => Fault::OutOfMemory.report(errors),
    }
}

// Finds the base and scans it, and reports the fault.
fn find_and_scan<'a, W: Sink, E: Sink>(
    rt: &'a HostRuntime,
    place: Place<'a>,
    to: Outbound<'a>,
    progress: &'a Progress<'a>,
    out: &mut W,
    errors: &mut E,
) -> Status {
    let mut locks = station_locks(rt, place);
    scan_with(rt, place, to, &mut locks, progress, out, errors)
}

// The same with these locks.
fn scan_with<'a, L: FileLock, K: FileLock, W: Sink, E: Sink>(
    rt: &'a HostRuntime,
    place: Place<'a>,
    to: Outbound<'a>,
    locks: &mut Locks<L, K>,
    progress: &'a Progress<'a>,
    out: &mut W,
    errors: &mut E,
) -> Status
    requires { AreFree (L.held locks.old.links) (K.held locks.old.base) }
{
    match find_base(rt, place, locks) {
        Ok(found) => scan_found(found.at(rt, place), to, locks, progress, out, errors),
        Err(fault) => fault.report(errors),
    }
}

// Scans a station with a found base, and reports the fault.
fn scan_found<'a, L: FileLock, K: FileLock, W: Sink, E: Sink>(
    at: Station<'a>,
    to: Outbound<'a>,
    locks: &mut Locks<L, K>,
    progress: &'a Progress<'a>,
    out: &mut W,
    errors: &mut E,
) -> Status
    requires { AreFree (L.held locks.old.links) (K.held locks.old.base) }
{
    let scan = StationScan { at, to };
    let files = ScanFiles::new(scan.at.rt, scan.at.path, scan.to.slashed, progress);
    scan_over_files(scan, progress, &files, locks, out, errors)
}

fn scan_over_files<'a, L: FileLock, K: FileLock, W: Sink, E: Sink>(
    scan: StationScan<'a>,
    progress: &'a Progress<'a>,
    files: &'a ScanFiles<'a, 'a>,
    locks: &mut Locks<L, K>,
    out: &mut W,
    errors: &mut E,
) -> Status
    requires { AreFree (L.held locks.old.links) (K.held locks.old.base) }
{
    let done = match scan.at.folder {
        Some(found) => scan_folder(scan, progress, files, locks, found, out),
        None => {
            let done = scan_file(scan, progress, files, locks, out);
            tidy(files, &done);
            done
        }
    };
    report_scanned(scan, files, done, errors)
}

// Removes what a scan of a base file left. Packets go only if the scan says that the base is as before: what a failed
// commit leaves, the next scan removes.
fn tidy(files: &ScanFiles<'_, '_>, done: &Result<(), ScanError<'_>>) {
    files.tidy();
    if let Err(ScanError::Staying(_)) = done {
        files.remove_made(&Undone { done });
    }
}

// The end of a scan, which may have left the base as it was.
#[derive(Clone, Copy)]
struct Undone<'e, 'a> {
    done: &'e Result<(), ScanError<'a>>,
}

impl ScanEnd for Undone<'_, '_> {
    ghost is_undone = { λ end. IsStaying end.done.now };
}

// Scans a station with a base file, over these files.
fn scan_file<'a, F: Files + Drop + 'a, L: FileLock, K: FileLock, W: Sink>(
    scan: StationScan<'a>,
    progress: &'a Progress<'a>,
    files: F,
    locks: &mut Locks<L, K>,
    out: &mut W,
) -> Result<(), ScanError<'a>>
    requires { AreFree (L.held locks.old.links) (K.held locks.old.base) }
{
    let station = match file_station(scan.at, Some(progress)) {
        Ok(station) => station,
        Err(fault) => return Err(ScanError::Command(CommandError::Met(fault))),
    };
    let disk = RealDisk::new(files, Unknown);
    scan_over(scan, progress, disk, locks, station, &mut Nothing, out)
}

// The same with a base folder. The folder of packets must be another one.
fn scan_folder<'a, F: Files + Drop + 'a, L: FileLock, K: FileLock, W: Sink>(
    scan: StationScan<'a>,
    progress: &'a Progress<'a>,
    files: F,
    locks: &mut Locks<L, K>,
    found: FolderProbe,
    out: &mut W,
) -> Result<(), ScanError<'a>>
    requires { AreFree (L.held locks.old.links) (K.held locks.old.base) }
{
    let at = scan.at;
    let disk = RealDisk::new(files, Unknown);
    let mut opened = Opened::new(at.rt, at.place.base, None, Some(scan.to.folder));
    let station = folder_station(at, found);
    scan_over(scan, progress, disk, locks, station, &mut opened, out)
}

// Scans over any disk, and gives that up, as `run_over` of `running` does.
fn scan_over<
    'a,
    D: Disk + Drop,
    P: LendStation<'a, D>,
    Q: BeforeCommand<'a, P::Kept>,
    L: FileLock,
    K: FileLock,
    W: Sink,
>(
    scan: StationScan<'a>,
    progress: &'a Progress<'a>,
    disk: D,
    locks: &mut Locks<L, K>,
    station: P,
    before: &mut Q,
    out: &mut W,
) -> Result<(), ScanError<'a>>
    requires free { AreFree (L.held locks.old.links) (K.held locks.old.base) }
    requires can { Honestly (D.state disk) (P.can_open station (D.state disk)) }
{
    let watch = ScanProgress { progress };
    let rt = scan.at.rt;
    let mut wanted = Scan {
        stamp: scan.to.stamp,
        outbound: scan.to.slashed.as_bytes(),
        listing: LeftFiles::new(rt),
        watch: &watch,
    };
    let scanned = scan_station(rt.alloc(), disk, locks, station, before, &mut wanted, out);
    scanned.done
}

// Reports how a scan ended.
fn report_scanned<E: Sink>(
    scan: StationScan<'_>,
    files: &ScanFiles<'_, '_>,
    done: Result<(), ScanError<'_>>,
    errors: &mut E,
) -> Status {
    match done {
        Ok(()) => Status::Good,
        Err(ScanError::Command(stop)) => fault_of(scan.at, stop).report(errors),
        // Four bytes do not count the messages that were scanned before (`IsOfPlacing` of station_scan).
        Err(ScanError::TooFar) => {
            fault_of(scan.at, CommandError::Store(StoreError::TooMany)).report(errors)
        }
        Err(ScanError::Placing(cause)) => report_unplaced(scan, files, cause, errors),
        Err(ScanError::Staying(cause)) => {
            report_unplaced(scan, files, PlacingError::from(cause), errors)
        }
    }
}

// Reports the progress of a scan.
#[derive(Drop)]
struct ScanProgress<'p> {
    progress: &'p Progress<'p>,
}

impl MessageProgress for ScanProgress<'_> {
    fn tell(&self, place: usize, messages: usize) {
        if place % SOME == 0 && self.progress.is_due() {
            self.progress
                .tell_message((place as u64).saturating_add(1), messages as u64);
        }
    }
}
