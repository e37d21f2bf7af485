//! A base folder on files of the system.
use crate::bases::{Change, TestBase, change_folder, open_folder, read_base};
use base_log::{FolderError, FolderIdentity};
use disk_system::{RealDisk, Unknown};
use std::alloc::{AllocError, Global};
use std::fs;
use std::fs::OpenOptions;
use std::test::Fail;

const FOLDER: &[u8] = b"disk_tests_base/";

const UNCLAIMED: FolderIdentity = FolderIdentity {
    owner: 0,
    first: 0,
    second: 0,
};

const CLAIMED: FolderIdentity = FolderIdentity {
    owner: 5,
    first: 6,
    second: 7,
};

/// A length of a log that ends inside its second record.
const INSIDE: u64 = 75;

// A message is added, and the folder gets its owner.
fn first_change(alloc: Global) -> Result<Change, AllocError> {
    Ok(Change {
        anew: false,
        messages: Vec::from_slice(alloc, b"first message")?,
        keys: Vec::from_slice(alloc, b"first key")?,
        cursor: 1,
        mark: CLAIMED,
    })
}

// Another message replaces it, in files of another number.
fn second_change(alloc: Global) -> Result<Change, AllocError> {
    Ok(Change {
        anew: true,
        messages: Vec::from_slice(alloc, b"another")?,
        keys: Vec::from_slice(alloc, b"key")?,
        cursor: 2,
        mark: CLAIMED,
    })
}

#[test]
fn a_base_folder_is_opened_again_and_not_with_a_log_cut_short(rt: HostRuntime) -> Result<(), Fail> {
    let alloc = rt.alloc();
    let _ = fs::remove_dir_all(&rt, "disk_tests_base");
    fs::create_dir(&rt, "disk_tests_base")?;
    let first = first_change(alloc)?;
    let second = second_change(alloc)?;
    let empty = TestBase {
        messages: Vec::new(alloc),
        keys: Vec::new(alloc),
        cursor: 0,
        mark: UNCLAIMED,
    };
    let after = empty.changed(alloc, &first)?.changed(alloc, &second)?;

    let mut disk = RealDisk::new(&rt, Unknown);
    let end = open_folder(alloc, &mut disk, FOLDER)?;
    let end = change_folder(alloc, &mut disk, FOLDER, end, &first)?;
    let _ = change_folder(alloc, &mut disk, FOLDER, end, &second)?;

    let mut again = RealDisk::new(&rt, Unknown);
    let end = open_folder(alloc, &mut again, FOLDER)?;
    assert!(rt; read_base(alloc, &mut again, FOLDER, end)?.is(&after));

    OpenOptions::new()
        .write(true)
        .open(&rt, "disk_tests_base/log")?
        .set_len(INSIDE)?;
    let mut cut = RealDisk::new(&rt, Unknown);
    let opened = open_folder(alloc, &mut cut, FOLDER);
    assert!(rt; opened == Err(FolderError::Corrupt));
    fs::remove_dir_all(&rt, "disk_tests_base")?;
    Ok(())
}
