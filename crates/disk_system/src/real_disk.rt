//! The files of the system, as a disk: each call is made and then noted with its answer.
ghost use Rattle.std.specs.Prelude.{◌≡◌, [], ◌∷◌, is_ok, if◌then◌else◌, OnOk};
ghost use Rattle.disk_io.specs.Runs.{ChangesNothing, HasCause};
ghost use Rattle.disk_system.specs.{Noted.note_of, Replay.replay};

use crate::start::Start;
use crate::system::Calls;
use crate::trace::{Call, Trace};
use disk_io::{Disk, DiskError};
use std::marker::PhantomData;
use std::rt::Files;

const EXISTS: u64 = 0;

const LEN: u64 = 1;

const READ: u64 = 2;

const WRITE: u64 = 3;

const CREATE: u64 = 4;

const RENAME: u64 = 5;

const LINK: u64 = 6;

const REMOVE: u64 = 7;

const SYNC: u64 = 8;

const SYNC_FOLDER: u64 = 9;

/// The files of the system; `S` says what they were before the first call. Its state follows from its calls and their
/// answers. It is not honest after an answer that differs from that state, as when another program changes the files.
/// After a failed sync each call fails.
#[derive(Drop)]
pub struct RealDisk<R: Files + Drop, S: Start> {
    calls: Calls<R>,
    trace: Trace,
    failures: u64,
    start: PhantomData<S>,
}

impl<R: Files + Drop, S: Start> RealDisk<R, S> {
    /// A disk over these files. Its value of `S` is used up.
    pub fn new(files: R, _start: S) -> RealDisk<R, S>
        ensures first { ChangesNothing S.Start.first (⟦<RealDisk<R, S> as Disk>⟧.state result) }
        ensures unfailed { ⟦<RealDisk<R, S> as Disk>⟧.failures result ≡ 0 }
    {
        RealDisk {
            calls: Calls::new(files),
            trace: Trace::empty(),
            failures: 0,
            start: PhantomData,
        }
    }
}

fn counted<T>(failures: &mut u64, answer: Result<T, DiskError>) -> Result<T, DiskError>
    ensures same { result ≡ answer }
    ensures cause { HasCause failures.old failures.new result }
    ensures unfailed { OnOk result (failures.new ≡ failures.old) }
{
    match answer {
        Ok(found) => Ok(found),
        Err(DiskError::Memory) => Err(DiskError::Memory),
        Err(DiskError::Device) => {
            *failures = failures.saturating_add(1);
            Err(DiskError::Device)
        }
    }
}

fn done(answer: &Result<(), DiskError>) -> u64
    ensures { result ≡ (if is_ok answer.now then 1 else 0) }
{
    u64::from(answer.is_ok())
}

fn path_call(what: u64, path: &[u8], answer: u64) -> Call<'_>
    ensures { note_of result ≡ (what ∷ 0 ∷ 0 ∷ answer ∷ [], (path.now, ([], []))) }
{
    Call {
        what,
        at: 0,
        asked: 0,
        answer,
        path,
        other: &[],
        bytes: &[],
    }
}

impl<R: Files + Drop, S: Start> Disk for RealDisk<R, S> {
    ghost state = { λ disk. replay S.Start.first S.Start.unknown disk.trace.calls };

    ghost failures = { λ disk. disk.failures };

    fn exists(&mut self, path: &[u8]) -> Result<bool, DiskError> {
        let found = self.calls.exists(path);
        let answer = match &found {
            Ok(true) => 2,
            Ok(false) => 1,
            Err(_) => 0,
        };
        self.trace = self.trace.with(&Call {
            what: EXISTS,
            at: 0,
            asked: 0,
            answer,
            path,
            other: &[],
            bytes: &[],
        });
        counted(&mut self.failures, found)
    }

    fn len(&mut self, path: &[u8]) -> Result<usize, DiskError> {
        let len = self.calls.len(path);
        let (at, answer) = match &len {
            Ok(len) => (*len as u64, 1),
            Err(_) => (0, 0),
        };
        self.trace = self.trace.with(&Call {
            what: LEN,
            at,
            asked: 0,
            answer,
            path,
            other: &[],
            bytes: &[],
        });
        counted(&mut self.failures, len)
    }

    fn read_at(&mut self, path: &[u8], at: usize, buf: &mut [u8]) -> Result<usize, DiskError> {
        let came = self.calls.read_at(path, at, buf);
        let (count, answer) = match &came {
            Ok(count) => (*count, 1),
            Err(_) => (0, 0),
        };
        self.trace = self.trace.with(&Call {
            what: READ,
            at: at as u64,
            asked: buf.len() as u64,
            answer,
            path,
            other: &[],
            bytes: &buf[..count],
        });
        counted(&mut self.failures, came)
    }

    fn write_at(&mut self, path: &[u8], at: usize, bytes: &[u8]) -> Result<(), DiskError> {
        let written = self.calls.write_at(path, at, bytes);
        self.trace = self.trace.with(&Call {
            what: WRITE,
            at: at as u64,
            asked: 0,
            answer: done(&written),
            path,
            other: &[],
            bytes,
        });
        counted(&mut self.failures, written)
    }

    fn create(&mut self, path: &[u8]) -> Result<(), DiskError> {
        let made = self.calls.create(path);
        self.trace = self.trace.with(&path_call(CREATE, path, done(&made)));
        counted(&mut self.failures, made)
    }

    fn rename(&mut self, from: &[u8], to: &[u8]) -> Result<(), DiskError> {
        let renamed = self.calls.rename(from, to);
        self.trace = self.trace.with(&Call {
            what: RENAME,
            at: 0,
            asked: 0,
            answer: done(&renamed),
            path: from,
            other: to,
            bytes: &[],
        });
        counted(&mut self.failures, renamed)
    }

    fn link(&mut self, from: &[u8], to: &[u8]) -> Result<bool, DiskError> {
        let linked = self.calls.link(from, to);
        let answer = match &linked {
            Ok(true) => 2,
            Ok(false) => 1,
            Err(_) => 0,
        };
        self.trace = self.trace.with(&Call {
            what: LINK,
            at: 0,
            asked: 0,
            answer,
            path: from,
            other: to,
            bytes: &[],
        });
        counted(&mut self.failures, linked)
    }

    fn remove(&mut self, path: &[u8]) -> Result<(), DiskError> {
        let removed = self.calls.remove(path);
        self.trace = self.trace.with(&path_call(REMOVE, path, done(&removed)));
        counted(&mut self.failures, removed)
    }

    fn sync(&mut self, path: &[u8]) -> Result<(), DiskError> {
        let synced = self.calls.sync(path);
        self.trace = self.trace.with(&path_call(SYNC, path, done(&synced)));
        counted(&mut self.failures, synced)
    }

    fn sync_folder(&mut self, folder: &[u8]) -> Result<(), DiskError> {
        let synced = self.calls.sync_folder(folder);
        self.trace = self
            .trace
            .with(&path_call(SYNC_FOLDER, folder, done(&synced)));
        counted(&mut self.failures, synced)
    }
}
