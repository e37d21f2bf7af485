//! Files read and made whole, on a file system of which each call fails in turn.
pub(crate) mod disk;

use disk::{Disk, FilesState};
use disk_io::{Trial, Watched};
use disk_system::{
    InputFault, NewFile, OWNER_ALONE, OutputFault, create_file, flush_folder, read_file, read_whole,
};
use std::alloc::Global;
use std::cell::RefCell;
use std::test::Fail;

/// The new file has 10 bytes, and each write takes 4.
const NEW: &[u8] = b"new of ten";

/// More calls than any of these functions makes.
const CALLS: u64 = 16;

/// The staging file of the system 1:10/2.
const BESIDE_PACKET: &str = "a.pkt.~1.10.2~.new";

fn new_at(path: &str) -> NewFile<'_> {
    NewFile {
        path,
        own: "1.10.2",
        bytes: NEW,
        known_by: 7,
        mode: OWNER_ALONE,
    }
}

/// A state with these files. Its calls from one number up to another fail.
fn state(
    alloc: Global,
    fails: (u64, u64),
    files: &[(&str, &[u8])],
) -> Result<RefCell<FilesState>, Fail> {
    let mut state = FilesState::new(alloc, fails.0, fails.1);
    for (name, bytes) in files {
        state.put(name, bytes)?;
    }
    Ok(RefCell::new(state))
}

fn holds(state: &RefCell<FilesState>, name: &str, bytes: Option<&[u8]>) -> Result<bool, Fail> {
    let state = state.try_borrow().map_err(|_| Fail::from("borrowed"))?;
    Ok(state.bytes(name) == bytes)
}

#[test]
fn reads_whole_inputs(rt: HostRuntime) -> Result<(), Fail> {
    let alloc = rt.alloc();
    let mut five: &[u8] = b"hello";
    let read = read_whole(alloc, &mut five, 5)
        .ok()
        .ok_or("five bytes are allowed")?;
    assert!(rt; read.as_slice() == b"hello".as_slice());
    let mut six: &[u8] = b"hello!";
    assert_eq!(rt;
        read_whole(alloc, &mut six, 5).err(),
        Some(InputFault::TooLarge)
    );
    Ok(())
}

#[test]
fn sixteen_interruptions_are_a_failure(rt: HostRuntime) -> Result<(), Fail> {
    let alloc = rt.alloc();
    for (again, read) in [(15, Ok(5)), (16, Err(InputFault::Device))] {
        let slice: &[u8] = b"hello";
        let mut reader = Watched::new(Trial::new(slice, 1, again, u64::MAX));
        let got = read_whole(alloc, &mut reader, 100).map(|bytes| bytes.len());
        if got != Err(InputFault::Memory) {
            assert_eq!(rt; got, read, "after {again}");
        }
    }
    Ok(())
}

#[test]
fn reads_files(rt: HostRuntime) -> Result<(), Fail> {
    let alloc = rt.alloc();
    let state = state(alloc, (CALLS, CALLS), &[("base", b"hello")])?;
    let disk = Disk::new(&state);
    let found = read_file(alloc, &disk, "base", 5)
        .ok()
        .ok_or("five bytes are allowed")?;
    assert!(rt; found.as_slice() == b"hello".as_slice());
    assert_eq!(rt;
        read_file(alloc, &disk, "base", 4).err(),
        Some(InputFault::TooLarge)
    );
    assert_eq!(rt;
        read_file(alloc, &disk, "none", 5).err(),
        Some(InputFault::Device)
    );
    Ok(())
}

/// A packet with a name in use is a fault, and the file with that name stays.
#[test]
fn never_replaces_a_packet(rt: HostRuntime) -> Result<(), Fail> {
    let alloc = rt.alloc();
    let state = state(alloc, (CALLS, CALLS), &[("a.pkt", b"of another")])?;
    let answer = create_file(alloc, &Disk::new(&state), new_at("a.pkt"));
    assert_eq!(rt; answer, Err(OutputFault::Device));
    assert!(rt; holds(&state, "a.pkt", Some(b"of another"))?);
    assert!(rt; holds(&state, BESIDE_PACKET, None)?);
    Ok(())
}

/// Staging files that a stopped run left are removed, and nothing else.
#[test]
fn removes_what_a_stopped_run_left(rt: HostRuntime) -> Result<(), Fail> {
    let alloc = rt.alloc();
    for (left, goes) in [
        ("", true),
        ("new", true),
        ("new of 9", true),
        ("new!", false),
    ] {
        let left = left.as_bytes();
        let state = state(alloc, (CALLS, CALLS), &[(BESIDE_PACKET, left)])?;
        let answer = create_file(alloc, &Disk::new(&state), new_at("a.pkt"));
        if answer != Err(OutputFault::Memory) {
            assert!(rt; answer.is_ok() == goes);
            assert!(rt; holds(&state, BESIDE_PACKET, Some(left))? != goes);
            assert!(rt; holds(&state, "a.pkt", Some(NEW))? == goes);
        }
    }
    Ok(())
}

/// What this user owns there is removed whatever it holds: a power cut leaves zeros.
#[test]
fn removes_what_a_power_cut_left(rt: HostRuntime) -> Result<(), Fail> {
    let alloc = rt.alloc();
    for left in ["\0\0\0\0\0\0\0\0", "new!"] {
        let files = [
            (BESIDE_PACKET, left.as_bytes()),
            ("/proc/self", b"".as_slice()),
        ];
        let state = state(alloc, (CALLS, CALLS), &files)?;
        let answer = create_file(alloc, &Disk::new(&state), new_at("a.pkt"));
        if answer != Err(OutputFault::Memory) {
            assert_eq!(rt; answer, Ok(()));
            assert!(rt; holds(&state, BESIDE_PACKET, None)?);
            assert!(rt; holds(&state, "a.pkt", Some(NEW))?);
        }
    }
    Ok(())
}

/// Makes a packet on a disk. Its calls from one number up to another fail.
fn created(
    alloc: Global,
    fails: (u64, u64),
) -> Result<(Result<(), OutputFault>, RefCell<FilesState>), Fail> {
    let state = state(alloc, fails, &[])?;
    let answer = create_file(alloc, &Disk::new(&state), new_at("a.pkt"));
    Ok((answer, state))
}

/// If one call fails, no part of a packet has its name, and no staging file is left. The calls are: making the file,
/// three writes, syncing it, linking, removing the staging path. If only the last one fails, the packet has its name.
#[test]
fn one_call_fails_at_a_packet(rt: HostRuntime) -> Result<(), Fail> {
    let alloc = rt.alloc();
    for call in 0..CALLS {
        let (answer, state) = created(alloc, (call, call + 1))?;
        assert!(rt; answer.is_err() == (call < 7), "call {call}");
        let bytes = if call < 6 { None } else { Some(NEW) };
        assert!(rt; holds(&state, "a.pkt", bytes)?, "call {call}");
        assert!(rt; holds(&state, BESIDE_PACKET, None)?, "call {call}");
    }
    Ok(())
}

/// Where the program stops at a call, no part of a packet has its name.
#[test]
fn stops_at_a_call(rt: HostRuntime) -> Result<(), Fail> {
    let alloc = rt.alloc();
    for call in 0..CALLS {
        let (_, state) = created(alloc, (call, u64::MAX))?;
        let bytes = if call < 6 { None } else { Some(NEW) };
        assert!(rt; holds(&state, "a.pkt", bytes)?, "call {call}");
    }
    Ok(())
}

fn flushed_at(state: &RefCell<FilesState>) -> Result<Option<u64>, Fail> {
    let state = state.try_borrow().map_err(|_| Fail::from("borrowed"))?;
    Ok(state.flushed_at)
}

/// A folder is flushed if that is asked for.
#[test]
fn folders_are_flushed(rt: HostRuntime) -> Result<(), Fail> {
    let alloc = rt.alloc();
    let (answer, state) = created(alloc, (CALLS, CALLS))?;
    assert_eq!(rt; answer, Ok(()));
    assert_eq!(rt; flushed_at(&state)?, None);
    assert_eq!(rt; flush_folder(&Disk::new(&state), "."), Ok(()));
    assert_eq!(rt; flushed_at(&state)?, Some(9));
    Ok(())
}
