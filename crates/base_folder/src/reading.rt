//! The messages of a base folder that is looked at, read one by one.
ghost use Rattle.std.specs.Prelude.{◌≡◌, ◌≤◌, ◌<◌, ◌/◌, IfErr, OnOk};
ghost use Rattle.{disk_io.specs.{Disk.Honestly, Runs.ChangesNothing}, base_folder_store.specs.Ahead.HasParts};
ghost use Rattle.{base_folder_store.specs.{Opened.held_by, Vouched.{IsLookedAt, IsVouched}}, base_folder.specs.Looked.{AreVouched, IsUnvouched}};
ghost use Rattle.base_folder.specs.OpenError.{HasUnreadCause, unread_message};

use crate::open_error::OpenError;
use base_file::BaseFault;
use base_folder_store::{Buffers, Folder};
use base_store::{Digest, StoreError};
use disk_io::Disk;
use std::alloc::Global;

/// Learns how far the reading of messages has come.
pub trait ReadingProgress {
    /// The message of this number, counted from 0, of so many was read.
    fn tell(&self, place: usize, messages: usize);
}

impl ReadingProgress for () {
    fn tell(&self, _place: usize, _messages: usize) {}
}

/// The first number from this one on, of so many messages, or behind the last of them.
pub fn start_number(first: u64, count: usize) -> usize
    ensures within { first < count → result ≡ first }
    ensures behind { count ≤ first → result ≡ count }
{
    if first < count as u64 {
        first as usize
    } else {
        count
    }
}

/// Reads each message from this number on: no later reader meets a damaged one.
pub(crate) fn judge_messages<D: Disk, H: Digest, P: ReadingProgress>(
    alloc: Global,
    disk: &mut D,
    folder: &Folder,
    first: u64,
    progress: &P,
) -> Result<(), OpenError>
    requires { IsLookedAt (D.state disk.old) folder.now }
    ensures vouched { Honestly (D.state disk.new) (OnOk result (AreVouched H.keyed (D.state disk.old) first folder.now)) }
    ensures damaged { Honestly (D.state disk.new) (IfErr result (IsUnvouched H.keyed (held_by (D.state disk.old) folder.now))) }
    ensures quiet { ChangesNothing (D.state disk.old) (D.state disk.new) }
    ensures cause { HasUnreadCause (D.failures disk.old) (D.failures disk.new) result }
{
    let mut buffers = Buffers::new(alloc);
    let count = folder.count();
    'messages: for i in start_number(first, count)..count {
        judge_message::<D, H>(alloc, disk, folder, &mut buffers, i)?;
        progress.tell(i, count);
    }
    Ok(())
}

fn judge_message<D: Disk, H: Digest>(
    alloc: Global,
    disk: &mut D,
    folder: &Folder,
    buffers: &mut Buffers,
    i: usize,
) -> Result<(), OpenError>
    requires looked { IsLookedAt (D.state disk.old) folder.now }
    requires parts { Honestly (D.state disk.old) (HasParts (D.state disk.old) folder.now buffers.old) }
    requires within { i < folder.now.keys / 16 }
    ensures vouched { Honestly (D.state disk.new) (OnOk result (IsVouched H.keyed (held_by (D.state disk.old) folder.now) i)) }
    ensures damaged { Honestly (D.state disk.new) (IfErr result (IsUnvouched H.keyed (held_by (D.state disk.old) folder.now))) }
    ensures parts { Honestly (D.state disk.new) (HasParts (D.state disk.old) folder.now buffers.new) }
    ensures quiet { ChangesNothing (D.state disk.old) (D.state disk.new) }
    ensures cause { HasUnreadCause (D.failures disk.old) (D.failures disk.new) result }
{
    match folder.read_vouched::<D, H>(alloc, disk, buffers, i) {
        Ok(message) => {
            buffers.room.take_back(Some(message));
            Ok(())
        }
        Err(error) => Err(unread_by(error, i)),
    }
}

fn unread_by(error: StoreError, i: usize) -> OpenError
    ensures { result ≡ unread_message error i }
{
    match error {
        StoreError::Damaged => OpenError::Wrong(BaseFault::Damaged { message: i as u64 }),
        StoreError::Device => OpenError::Device,
        StoreError::Memory | StoreError::TooMany => OpenError::Memory,
    }
}
