//! The messages of a base of either kind, as one source.
ghost use Rattle.std.specs.Prelude.{IfOk};
ghost use Rattle.cmd_base.specs.EitherBase.{either_state};

use crate::folders::{hash_state, is_folder, is_strange};
use base_file::BaseFault;
use base_folder::{BaseReader, FolderReader, MessageSource, ReadingProgress, read_folder};
use base_store::{SipDigest, StoreError};
use cmd_input::{Progress, folder_path, read_file};
use cmd_status::{Fault, MessageProgress};
use disk_system::{RealDisk, Unknown};
use echo_filed::Filed;
use std::collections::hash_map::RandomState;

/// The messages of a file, which are in memory, or those of a folder, which are read one by one.
#[derive(Drop)]
pub enum EitherBase<F, D> {
    File(F),
    Folder(D),
}

impl<F: MessageSource, D: MessageSource> MessageSource for EitherBase<F, D> {
    ghost state = { either_state F.state D.state };

    fn count(&self) -> usize {
        match self {
            EitherBase::File(messages) => messages.count(),
            EitherBase::Folder(messages) => messages.count(),
        }
    }

    fn cursor(&self) -> usize {
        match self {
            EitherBase::File(messages) => messages.cursor(),
            EitherBase::Folder(messages) => messages.cursor(),
        }
    }

    fn fetch(&mut self, place: usize) -> Result<(), StoreError> {
        match self {
            EitherBase::File(messages) => messages.fetch(place),
            EitherBase::Folder(messages) => messages.fetch(place),
        }
    }

    fn at_hand(&self) -> Option<&Filed> {
        match self {
            EitherBase::File(messages) => messages.at_hand(),
            EitherBase::Folder(messages) => messages.at_hand(),
        }
    }
}

/// The messages of a base folder of the system that was looked at.
pub type FolderMessages<'r> = FolderReader<RealDisk<&'r HostRuntime, Unknown>, SipDigest>;

/// The messages of a base of the system.
pub type BaseMessages<'r> = EitherBase<BaseReader<RandomState>, FolderMessages<'r>>;

/// Opens the base with this path, and reads each message of a folder from this number on. It changes nothing.
pub fn open_base<'r, 'a>(
    rt: &'r HostRuntime,
    base: &'a str,
    first: u64,
) -> Result<BaseMessages<'r>, Fault<'a>>
    ensures { IfOk result (λ messages. (⟦<EitherBase<BaseReader<RandomState>, FolderReader<RealDisk<&'r HostRuntime, Unknown>, SipDigest>> as MessageSource>⟧.state messages).is_ready) }
{
    if is_folder(rt, base) {
        return Ok(EitherBase::Folder(open_folder(rt, base, first, None)?));
    }
    Ok(EitherBase::File(load_file(rt, base)?))
}

/// Looks at the base folder with this path, and reads each message from this number on. It changes nothing.
pub fn open_folder<'r, 'a>(
    rt: &'r HostRuntime,
    base: &'a str,
    first: u64,
    progress: Option<&Progress<'_>>,
) -> Result<FolderMessages<'r>, Fault<'a>>
    ensures { IfOk result (λ messages. (⟦<FolderReader<RealDisk<&'r HostRuntime, Unknown>, SipDigest> as MessageSource>⟧.state messages).is_ready) }
{
    let strange = is_strange(rt, base)?;
    let path = folder_path(rt, base)?;
    let disk = RealDisk::new(rt, Unknown);
    match read_folder(
        rt.alloc(),
        disk,
        path.as_bytes(),
        strange,
        first,
        &Messages { progress },
    ) {
        Ok(messages) => Ok(messages),
        Err(why) => Err(why.fault(base)),
    }
}

/// The base file with this path, as a source of messages.
pub fn load_file<'a>(
    rt: &HostRuntime,
    base: &'a str,
) -> Result<BaseReader<RandomState>, Fault<'a>> {
    let hasher = hash_state(rt)?;
    let bytes = read_file(rt, base, usize::MAX)?;
    BaseReader::read(rt.alloc(), &bytes, hasher)
}

/// Reads the base with this path: a file, or the messages of a folder.
pub fn check_base<'a>(rt: &HostRuntime, base: &'a str) -> Result<(), Fault<'a>> {
    if is_folder(rt, base) {
        open_folder(rt, base, 0, None)?;
    } else {
        read_file(rt, base, usize::MAX)?;
    }
    Ok(())
}

/// Why the messages of the base with this path were not read as a base file.
pub fn messages_fault(fault: BaseFault, base: &str) -> Fault<'_> {
    match fault {
        BaseFault::Read => Fault::CannotUse(base),
        fault => Fault::Base(fault),
    }
}

/// Reports at which message a command is, if a progress line is given.
#[derive(Clone, Copy, Drop)]
pub struct Messages<'p, 'r> {
    pub progress: Option<&'p Progress<'r>>,
}

impl MessageProgress for Messages<'_, '_> {
    fn tell(&self, place: usize, messages: usize) {
        if let Some(progress) = self.progress {
            if progress.is_due() {
                progress.tell_message((place as u64).saturating_add(1), messages as u64);
            }
        }
    }
}

impl ReadingProgress for Messages<'_, '_> {
    fn tell(&self, place: usize, messages: usize) {
        MessageProgress::tell(self, place, messages);
    }
}
