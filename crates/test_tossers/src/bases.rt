//! Base files: cut, damaged, read from readers that fail, and saved to writers that do.
use echo_addr::{Sink, Source, Trial, Watched};
use echo_toss::{BaseFault, LinkFile, Tosser};
use std::alloc::{AllocError, Global};
use std::hash::{BuildHasher, BuildHasherDefault, FoldHasher};
use std::test::Fail;
use test_formats::samples::{ALPHA, EMPTY, POSTED, POSTED_OLD, PURGED, changed, joined};

type System = Tosser<BuildHasherDefault<FoldHasher>>;

fn load<R: Source>(alloc: Global, reader: &mut R) -> Result<System, BaseFault> {
    match LinkFile::read(alloc, ALPHA) {
        Ok(links) => Tosser::load(alloc, links, reader, BuildHasherDefault::new()),
        Err(_) => Err(BaseFault::Memory),
    }
}

fn fault_of<R: Source>(alloc: Global, reader: &mut R) -> Option<BaseFault> {
    match load(alloc, reader) {
        Ok(_) => None,
        Err(fault) => Some(fault),
    }
}

/// What saving answers where the writer fails after so many bytes, and the bytes that went.
fn saved<S: BuildHasher>(
    alloc: Global,
    system: &Tosser<S>,
    left: u64,
) -> (Result<(), BaseFault>, Vec<u8>) {
    let mut writer = Watched::new(Trial::new(Vec::new(alloc), 7, 1, left));
    let answer = system.save(&mut writer);
    (answer, writer.into_inner().into_inner())
}

/// Bases, how they are saved again, and how many messages of each wait.
const LOADED: &[(&[u8], &[u8], usize)] = &[
    (EMPTY, EMPTY, 0),
    (POSTED, POSTED, 1),
    (POSTED_OLD, POSTED, 1),
    (PURGED, PURGED, 0),
];

#[test]
fn bases_are_saved_again(rt: HostRuntime) -> Result<(), Fail> {
    for (i, (bytes, wanted, waiting)) in LOADED.iter().enumerate() {
        let mut rest = *bytes;
        let system = load(rt.alloc(), &mut rest)?;
        let (answer, went) = saved(rt.alloc(), &system, u64::MAX);
        assert!(rt; answer == Ok(()) && went.as_slice() == *wanted, "row {i}");
        assert!(rt; system.waiting() == *waiting && rest.is_empty(), "row {i}");
    }
    Ok(())
}

#[test]
fn every_cut_of_a_base(rt: HostRuntime) {
    for bytes in [POSTED, POSTED_OLD, PURGED] {
        for count in 0..bytes.len() {
            let fault = fault_of(rt.alloc(), &mut &bytes[..count]);
            let wanted = BaseFault::Truncated { messages: 0 };
            assert!(rt; fault == Some(wanted), "{count} bytes");
        }
    }
}

#[test]
fn failing_base_readers(rt: HostRuntime) {
    for bytes in [POSTED, POSTED_OLD, PURGED] {
        for count in 0..bytes.len() {
            let mut reader = Watched::new(Trial::new(bytes, 7, 1, count as u64));
            let fault = fault_of(rt.alloc(), &mut reader);
            assert!(rt; fault == Some(BaseFault::Read), "{count} bytes");
        }
    }
}

/// Whether saving tells each failure of the writer, and just the first bytes went.
fn tells_failures<S: BuildHasher>(alloc: Global, system: &Tosser<S>, bytes: &[u8]) -> bool {
    (0..bytes.len()).all(|count| {
        let (answer, went) = saved(alloc, system, count as u64);
        let wanted = BaseFault::Write {
            bytes: count as u64,
        };
        answer == Err(wanted) && Some(went.as_slice()) == bytes.get(..count)
    })
}

#[test]
fn failing_base_writers(rt: HostRuntime) -> Result<(), Fail> {
    for bytes in [POSTED, PURGED] {
        let mut rest = bytes;
        let system = load(rt.alloc(), &mut rest)?;
        assert!(rt; tells_failures(rt.alloc(), &system, bytes));
    }
    Ok(())
}

/// Bytes of the base that are changed, and the fault. At 54 is the length of the text.
const HOSTILE: &[(&[(usize, u8)], BaseFault)] = &[
    (&[(0, b'e')], BaseFault::NotBase),
    (&[(8, 2)], BaseFault::NotBase),
    (&[(16, 5)], BaseFault::Damaged { message: 0 }),
    (&[(17, 1)], BaseFault::Damaged { message: 0 }),
    (&[(63, b't')], BaseFault::Damaged { message: 0 }),
    (&[(45, 0)], BaseFault::Damaged { message: 0 }),
    (&[(130, 0)], BaseFault::Damaged { message: 0 }),
    (
        &[(54, 0xff), (55, 0xff), (56, 0xff), (57, 0xff)],
        BaseFault::Truncated { messages: 0 },
    ),
];

#[test]
fn hostile_bases(rt: HostRuntime) -> Result<(), Fail> {
    for bytes in [POSTED, POSTED_OLD] {
        for (i, (changes, wanted)) in HOSTILE.iter().enumerate() {
            let hostile = changed(rt.alloc(), bytes, changes)?;
            let fault = fault_of(rt.alloc(), &mut hostile.as_slice());
            assert!(rt; fault == Some(*wanted), "row {i}");
        }
    }
    Ok(())
}

/// The base with its message twice, number 2.
fn twice(alloc: Global, bytes: &[u8]) -> Result<Vec<u8>, AllocError> {
    let mut all = changed(alloc, bytes, &[(12, 2)])?;
    all.extend_from_slice(bytes.get(16..).unwrap_or(&[]))?;
    Ok(all)
}

#[test]
fn key_twice(rt: HostRuntime) -> Result<(), Fail> {
    for bytes in [POSTED, POSTED_OLD] {
        let all = twice(rt.alloc(), bytes)?;
        let fault = fault_of(rt.alloc(), &mut all.as_slice());
        assert!(rt; fault == Some(BaseFault::Damaged { message: 1 }));
    }
    Ok(())
}

/// The stub of a message that was not scanned is damaged.
#[test]
fn purged_at_the_cursor(rt: HostRuntime) -> Result<(), Fail> {
    let all = changed(rt.alloc(), PURGED, &[(8, 0)])?;
    let fault = fault_of(rt.alloc(), &mut all.as_slice());
    assert!(rt; fault == Some(BaseFault::Damaged { message: 0 }));
    Ok(())
}

#[test]
fn bytes_after_a_base(rt: HostRuntime) -> Result<(), Fail> {
    for bytes in [POSTED, POSTED_OLD, PURGED, EMPTY] {
        let all = joined(rt.alloc(), bytes, b"after")?;
        let mut rest = all.as_slice();
        assert!(rt; fault_of(rt.alloc(), &mut rest).is_none());
        assert!(rt; rest == b"after".as_slice());
    }
    Ok(())
}
