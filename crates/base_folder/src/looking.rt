//! A base folder read without a change, so that no lock is needed.
ghost use Rattle.std.specs.Prelude.{◌≡◌, ◌++◌, ℕ, List, length, take, true, IfErr, IfOk, IfSome, IsSome, OnOk};
ghost use Rattle.disk_io.specs.{Disk.Honestly, Runs.ChangesNothing};
ghost use Rattle.{base_log.specs.{Reading.IsLogIn, Standing.{BaseBytes, Represents, base_at}}, base_folder_store.specs.{Opened.held_by, Vouched.IsLookedAt}};
ghost use Rattle.base_folder.specs.{Looked.{AreVouched, GoesOn, HasLogs, IsAsShown, IsReadWhole, IsUnseen}, OpenError.HasUnreadCause, Wrong.IsSound};

use crate::judging::judge_by;
use crate::open_error::OpenError;
use crate::reading::{ReadingProgress, judge_messages};
use base_folder_store::Folder;
use base_log::{Log, read_log};
use base_store::Digest;
use disk_io::Disk;
use std::alloc::Global;

/// How many bytes a record of the log has, and the offset in it of the number of the files.
const RECORD: usize = 50;

const NUMBER_AT: usize = 25;

/// How often a folder is read while purges change it.
const TRIES: usize = 1_000;

/// A base folder that was looked at.
#[derive(Drop)]
pub struct LookedFolder {
    pub folder: Folder,
    // The log before the messages were read, and after that.
    log: Vec<u8>,
    reread: Vec<u8>,
}

/// Looks at the base folder of this path, which ends in a slash, and changes nothing. It reads each message from the
/// number `first` on and keeps none. If others change the folder meanwhile, all is read again. `strange`: it has
/// foreign files. `Wrong`: no base folder (F1), cut short (F2), or a message differs from its digest (F3). `Raced`:
/// each try met a change.
pub fn look<D: Disk, H: Digest, P: ReadingProgress>(
    alloc: Global,
    disk: &mut D,
    path: &[u8],
    strange: bool,
    first: u64,
    progress: &P,
) -> Result<LookedFolder, OpenError>
    ensures found { Honestly (D.state disk.new) ((base : BaseBytes) → Represents path.now base (D.state disk.old).seen
        → IfOk result (λ looked. held_by (D.state disk.new) looked.folder ≡ base)) }
    ensures ready { IfOk result (λ looked. IsLookedAt (D.state disk.new) looked.folder) }
    ensures shown { Honestly (D.state disk.new) (IfOk result (λ looked. IsAsShown path.now (D.state disk.old).seen (D.state disk.new) looked.folder)) }
    ensures vouched { Honestly (D.state disk.new) (IfOk result (λ looked. AreVouched H.keyed (D.state disk.new) first looked.folder)) }
    ensures steady { IfOk result (λ looked. GoesOn looked.log.items looked.reread.items) }
    ensures logs { Honestly (D.state disk.new) (IfOk result (HasLogs path.now (D.state disk.old).seen)) }
    ensures sound { Honestly (D.state disk.new) (OnOk result (IsSound strange path.now (D.state disk.old).seen)) }
    ensures wrong { Honestly (D.state disk.new) (IfErr result (IsUnseen H.keyed strange path.now (D.state disk.old).seen)) }
    ensures quiet { ChangesNothing (D.state disk.old) (D.state disk.new) }
    ensures cause { HasUnreadCause (D.failures disk.old) (D.failures disk.new) result }
{
    'tries: for _try in 0..TRIES {
        let looked = look_once::<D, H, P>(alloc, disk, path, strange, first, progress)?;
        if let Some(looked) = looked {
            return Ok(looked);
        }
    }
    Err(OpenError::Raced)
}

fn look_once<D: Disk, H: Digest, P: ReadingProgress>(
    alloc: Global,
    disk: &mut D,
    path: &[u8],
    strange: bool,
    first: u64,
    progress: &P,
) -> Result<Option<LookedFolder>, OpenError>
    ensures some { Honestly (D.state disk.new) (IfOk result IsSome) }
    ensures found { Honestly (D.state disk.new) ((base : BaseBytes) → Represents path.now base (D.state disk.old).seen
        → IfOk result (λ looked. IfSome looked (λ l. held_by (D.state disk.new) l.folder ≡ base))) }
    ensures seen { IfOk result (λ looked. IfSome looked (λ l. IsLookedAt (D.state disk.new) l.folder × Honestly (D.state disk.new) (AreVouched H.keyed (D.state disk.new) first l.folder))) }
    ensures shown { Honestly (D.state disk.new) (IfOk result (λ looked. IfSome looked (λ l. IsAsShown path.now (D.state disk.old).seen (D.state disk.new) l.folder))) }
    ensures steady { IfOk result (λ looked. IfSome looked (λ l. GoesOn l.log.items l.reread.items)) }
    ensures logs { Honestly (D.state disk.new) (IfOk result (λ looked. IfSome looked (HasLogs path.now (D.state disk.old).seen))) }
    ensures sound { Honestly (D.state disk.new) (OnOk result (IsSound strange path.now (D.state disk.old).seen)) }
    ensures wrong { Honestly (D.state disk.new) (IfErr result (IsUnseen H.keyed strange path.now (D.state disk.old).seen)) }
    ensures quiet { ChangesNothing (D.state disk.old) (D.state disk.new) }
    ensures cause { HasUnreadCause (D.failures disk.old) (D.failures disk.new) result }
{
    let before = read_log(alloc, disk, path)?;
    let read = folder_by::<D, H, P>(alloc, disk, path, strange, &before, first, progress);
    let after = read_log(alloc, disk, path)?;
    if !is_steady(&read, &before, &after) {
        return Ok(None);
    }
    let folder = read?;
    Ok(Some(LookedFolder {
        folder,
        log: before.bytes,
        reread: after.bytes,
    }))
}

fn is_steady(read: &Result<Folder, OpenError>, before: &Log, after: &Log) -> bool
    requires before { IsReadWhole before.now }
    requires after { IsReadWhole after.now }
    ensures same { before.now.bytes.items ≡ after.now.bytes.items → result ≡ true }
    ensures steady { result ≡ true → OnOk read.now (GoesOn before.now.bytes.items after.now.bytes.items) }
{
    match read {
        Ok(_) => goes_on(before, after),
        Err(_) => before.bytes.len() == after.bytes.len()
            && begins_with(&after.bytes, &before.bytes),
    }
}

fn begins_with(log: &[u8], records: &[u8]) -> bool
    ensures yes { result ≡ true → take (length records.now) log.now ≡ records.now }
    ensures front { (rest : List ℕ) → log.now ≡ records.now ++ rest → result ≡ true }
{
    log.starts_with(records)
}

// No record since then names other files: after two purges the last record names the old number again.
fn goes_on(before: &Log, after: &Log) -> bool
    requires before { IsReadWhole before.now }
    requires after { IsReadWhole after.now }
    ensures same { before.now.bytes.items ≡ after.now.bytes.items → result ≡ true }
    ensures goes_on { result ≡ true → GoesOn before.now.bytes.items after.now.bytes.items }
{
    let (first, last) = (before.end.records_len, after.end.records_len);
    if first > last {
        return false;
    }
    if !begins_with(&after.bytes, &before.bytes[..first]) {
        return false;
    }
    name_only(&after.bytes[first..last], before.end.recorded.number)
}

fn name_only(records: &[u8], number: u8) -> bool
    ensures none { length records.now ≡ 0 → result ≡ true }
{
    'records: for i in 0..records.len() / RECORD {
        if records[RECORD * i + NUMBER_AT] != number {
            return false;
        }
    }
    true
}

fn folder_by<D: Disk, H: Digest, P: ReadingProgress>(
    alloc: Global,
    disk: &mut D,
    path: &[u8],
    strange: bool,
    log: &Log,
    first: u64,
    progress: &P,
) -> Result<Folder, OpenError>
    requires log { Honestly (D.state disk.old) (IsLogIn path.now (D.state disk.old).seen log.now) }
    requires read { IsReadWhole log.now }
    ensures bytes { IfOk result (λ folder. held_by (D.state disk.new) folder ≡ base_at (D.state disk.old) path.now log.now.end.recorded) }
    ensures ready { IfOk result (IsLookedAt (D.state disk.new)) }
    ensures shown { Honestly (D.state disk.new) (IfOk result (IsAsShown path.now (D.state disk.old).seen (D.state disk.new))) }
    ensures vouched { Honestly (D.state disk.new) (IfOk result (AreVouched H.keyed (D.state disk.new) first)) }
    ensures sound { Honestly (D.state disk.new) (OnOk result (IsSound strange path.now (D.state disk.old).seen)) }
    ensures wrong { Honestly (D.state disk.new) (IfErr result (IsUnseen H.keyed strange path.now (D.state disk.old).seen)) }
    ensures quiet { ChangesNothing (D.state disk.old) (D.state disk.new) }
    ensures cause { HasUnreadCause (D.failures disk.old) (D.failures disk.new) result }
{
    judge_by(alloc, disk, path, strange, log)?;
    let folder = Folder::look(alloc, path, log)?;
    judge_messages::<D, H, P>(alloc, disk, &folder, first, progress)?;
    Ok(folder)
}
