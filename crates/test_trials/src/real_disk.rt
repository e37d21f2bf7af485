//! Tests of the disk of the system.

use disk_io::{Disk, DiskError};
use disk_system::{NoFiles, RealDisk};
use std::fs;
use std::test::Fail;

fn emptied(rt: &HostRuntime, folder: &str) -> Result<(), Fail> {
    let _ = fs::remove_dir_all(rt, folder);
    fs::create_dir(rt, folder)?;
    Ok(())
}

#[test]
fn writes_and_reads_a_file(rt: HostRuntime) -> Result<(), Fail> {
    emptied(&rt, "echo_real_disk_bytes")?;
    let path = b"echo_real_disk_bytes/a".as_slice();
    let mut disk = RealDisk::new(&rt, NoFiles);
    assert!(rt; matches!(disk.exists(path), Ok(false)));
    assert!(rt; disk.create(path).is_ok());
    assert!(rt; disk.write_at(path, 0, b"abcdef").is_ok());
    assert!(rt; disk.write_at(path, 2, b"CD").is_ok());
    assert!(rt; disk.sync(path).is_ok());
    assert!(rt; disk.sync_folder(b"echo_real_disk_bytes/").is_ok());
    assert!(rt; matches!(disk.exists(path), Ok(true)));
    assert!(rt; matches!(disk.len(path), Ok(6)));
    let mut part = [0u8; 3];
    assert!(rt; matches!(disk.read_at(path, 1, &mut part), Ok(3)));
    assert_eq!(rt; part, *b"bCD");
    assert!(rt; matches!(disk.read_at(path, 4, &mut part), Ok(2)));
    assert!(rt; matches!(disk.read_at(path, 6, &mut part), Ok(0)));
    fs::remove_dir_all(&rt, "echo_real_disk_bytes")?;
    Ok(())
}

#[test]
fn a_file_made_anew_leaves_its_other_path_the_bytes(rt: HostRuntime) -> Result<(), Fail> {
    emptied(&rt, "echo_real_disk_links")?;
    let (a, b) = (
        b"echo_real_disk_links/a".as_slice(),
        b"echo_real_disk_links/b".as_slice(),
    );
    let mut disk = RealDisk::new(&rt, NoFiles);
    assert!(rt; disk.create(a).is_ok());
    assert!(rt; disk.write_at(a, 0, b"one").is_ok());
    assert!(rt; disk.sync(a).is_ok());
    assert!(rt; matches!(disk.link(a, b), Ok(true)));
    assert!(rt; matches!(disk.link(a, b), Ok(false)));
    assert!(rt; disk.create(a).is_ok());
    assert!(rt; matches!(disk.len(a), Ok(0)));
    assert!(rt; matches!(disk.len(b), Ok(3)));
    fs::remove_dir_all(&rt, "echo_real_disk_links")?;
    Ok(())
}

#[test]
fn each_call_fails_after_a_sync_that_failed(rt: HostRuntime) -> Result<(), Fail> {
    emptied(&rt, "echo_real_disk_faults")?;
    let (a, b) = (
        b"echo_real_disk_faults/a".as_slice(),
        b"echo_real_disk_faults/b".as_slice(),
    );
    let mut disk = RealDisk::new(&rt, NoFiles);
    assert!(rt; disk.create(a).is_ok());
    assert!(rt; disk.sync(a).is_ok());
    assert!(rt; disk.rename(a, b).is_ok());
    assert!(rt; matches!(disk.exists(a), Ok(false)));
    assert!(rt; disk.remove(b).is_ok());
    assert!(rt; matches!(disk.exists(b), Ok(false)));
    assert!(rt;
        matches!(
            disk.create(b"echo_real_disk_faults/no/a"),
            Err(DiskError::Device)
        )
    );
    assert!(rt;
        matches!(
            disk.exists(b"echo_real_disk_faults"),
            Err(DiskError::Device)
        )
    );
    assert!(rt; matches!(disk.exists(b"\xff"), Err(DiskError::Device)));
    assert!(rt; matches!(disk.exists(a), Ok(false)));
    assert!(rt;
        matches!(
            disk.sync_folder(b"echo_real_disk_faults/no/"),
            Err(DiskError::Device)
        )
    );
    assert!(rt; matches!(disk.exists(a), Err(DiskError::Device)));
    fs::remove_dir_all(&rt, "echo_real_disk_faults")?;
    Ok(())
}
