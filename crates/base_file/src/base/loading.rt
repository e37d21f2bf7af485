//! Reads a base from a source.
ghost use Rattle.std.specs.Prelude.{◌≡◌, ◌≤◌, [], length, IfErr, IfOk, IfSome, Result};
ghost use Rattle.echo_packet.specs.Header.{AreBytes};
ghost use Rattle.base_file.specs.Loading.{AnswersLoad, CountsLoad, FailsToLoad, IsVersion, ReadsHead, ReadsVersion, TakesBase, TakesStored, TakesMessages, fault_behind};
ghost use Rattle.base_file.specs.{declared.fault.BaseFault.BaseFault as Fault, BaseFile.LoadOf, BaseFile.Loaded};

use crate::base::Base;
use crate::fault::BaseFault;
use crate::judging::judged;
use crate::room::MessageRoom;
use disk_io::{Broken, Source, fill};
use echo_filed::{Version, read_long, read_stored};
use std::alloc::Global;
use std::hash::BuildHasher;

const FIRST: &[u8] = b"ECHOBAS1";

pub(super) const SECOND: &[u8] = b"ECHOBAS2";

/// The first 16 bytes of a base file: its version, how many messages were scanned, and how many there are.
#[derive(Clone, Copy, Debug)]
pub struct Head {
    pub version: Version,
    pub cursor: u32,
    pub number: u32,
}

fn broken_fault(broken: Broken, messages: u64) -> BaseFault
    ensures { result ≡ fault_behind broken messages }
{
    match broken {
        Broken::Cut => BaseFault::Truncated { messages },
        Broken::Device => BaseFault::Read,
        Broken::Memory => BaseFault::Memory,
    }
}

pub(crate) fn version_of(front: &[u8]) -> Result<Version, BaseFault>
    requires { length front.now ≤ 8 }
    ensures { IsVersion front.now result }
{
    if front == FIRST {
        return Ok(Version::First);
    }
    if front == SECOND {
        return Ok(Version::Second);
    }
    if FIRST.starts_with(front) || SECOND.starts_with(front) {
        return Err(BaseFault::Truncated { messages: 0 });
    }
    Err(BaseFault::NotBase)
}

fn read_version<R: Source>(reader: &mut R) -> Result<Version, BaseFault>
    ensures read { ReadsVersion (R.remaining reader.old) (R.remaining reader.new) result }
    ensures device { CountsLoad result (R.failures reader.old) (R.failures reader.new) }
{
    let mut bytes = [0u8; 8];
    match fill(reader, &mut bytes) {
        Ok(count) => version_of(&bytes[..count]),
        Err(_) => Err(BaseFault::Read),
    }
}

fn read_head<R: Source>(reader: &mut R) -> Result<Head, BaseFault>
    ensures read { ReadsHead (R.remaining reader.old) (R.remaining reader.new) result }
    ensures device { CountsLoad result (R.failures reader.old) (R.failures reader.new) }
{
    let version = read_version(reader)?;
    let cursor = match read_long(reader) {
        Ok(cursor) => cursor,
        Err(broken) => return Err(broken_fault(broken, 0)),
    };
    let number = match read_long(reader) {
        Ok(number) => number,
        Err(broken) => return Err(broken_fault(broken, 0)),
    };
    if cursor > number {
        return Err(BaseFault::NotBase);
    }
    Ok(Head {
        version,
        cursor,
        number,
    })
}

fn take_message<R: Source, S: BuildHasher>(
    room: &mut MessageRoom,
    reader: &mut R,
    base: &mut Base<S>,
    version: Version,
    cursor: usize,
) -> Result<(), BaseFault>
    ensures taken { TakesStored version cursor base.old.messages base.new.messages (R.remaining reader.old) (R.remaining reader.new) result }
    ensures cursor { base.new.cursor ≡ base.old.cursor }
    ensures device { CountsLoad result (R.failures reader.old) (R.failures reader.new) }
{
    let place = base.len();
    let stored = match read_stored(room.take_strings(), reader, version) {
        Ok(stored) => stored,
        Err(broken) => return Err(broken_fault(broken, place as u64)),
    };
    if let Some((key, message)) = judged(room, version, cursor, place, stored)? {
        if base.add(key, message)? {
            return Ok(());
        }
    }
    Err(BaseFault::Damaged {
        message: place as u64,
    })
}

fn take_messages<R: Source, S: BuildHasher>(
    reader: &mut R,
    base: &mut Base<S>,
    head: Head,
) -> Result<(), BaseFault>
    requires empty { base.old.messages ≡ [] }
    ensures taken { TakesMessages head base.new (R.remaining reader.old) (R.remaining reader.new) result }
    ensures device { CountsLoad result (R.failures reader.old) (R.failures reader.new) }
{
    let number = head.number as usize;
    'messages: while base.len() < number {
        // The base keeps the vectors of the message, so the next one gets new ones.
        let mut room = MessageRoom::new(*base.entries.allocator());
        take_message(&mut room, reader, base, head.version, head.cursor as usize)?;
    }
    Ok(())
}

impl<S: BuildHasher> Base<S> {
    fn put_cursor(&mut self, cursor: usize)
        requires { cursor ≤ length self.old.messages }
        ensures messages { self.new.messages ≡ self.old.messages }
        ensures cursor { self.new.cursor ≡ cursor }
    {
        self.cursor = cursor;
        self.purged = 0;
    }

    fn read_base<R: Source>(alloc: Global, reader: &mut R, hasher: S) -> Result<Base<S>, BaseFault>
    where
        S: Drop,
        ensures taken { IfOk result (λ base. TakesBase base.messages base.cursor (R.remaining reader.old) (R.remaining reader.new)) }
        ensures fault { IfErr result (FailsToLoad (R.remaining reader.old) (R.remaining reader.new)) }
        ensures device { CountsLoad result (R.failures reader.old) (R.failures reader.new) }
    {
        let head = read_head(reader)?;
        let mut base = Base::new(alloc, hasher);
        take_messages(reader, &mut base, head)?;
        base.put_cursor(head.cursor as usize);
        Ok(base)
    }

    /// Reads a base file of either version, and no byte after its last message. `NotBase`, `Truncated` or `Damaged` as
    /// the bytes are, `Read` if the device failed. A field makes room for at most 4,096 bytes more than those that
    /// came.
    pub fn load<R: Source>(alloc: Global, reader: &mut R, hasher: S) -> Result<Base<S>, BaseFault>
    where
        S: Drop,
        ensures taken { IfOk result (λ base. TakesBase base.messages base.cursor (R.remaining reader.old) (R.remaining reader.new)) }
        ensures fault { IfErr result (FailsToLoad (R.remaining reader.old) (R.remaining reader.new)) }
        ensures only { (other : Result Loaded Fault) → IfSome (R.remaining reader.old) (λ bytes. AreBytes bytes → LoadOf bytes other → AnswersLoad result other) }
        ensures device { CountsLoad result (R.failures reader.old) (R.failures reader.new) }
    {
        Base::read_base(alloc, reader, hasher)
    }
}
