//! The base file of messages that are read one by one, written one by one.
ghost use Rattle.std.specs.{Prelude.{◌≡◌, ◌≤◌, ◌<◌, Some, slice_get, IfErr, IfOk, OnErr, OnOk}, Io.KnownBytes.Appends};
ghost use Rattle.disk_io.specs.Device.{Failed};
ghost use Rattle.{base_file.specs.{Base.Base, BaseFile.{head_bytes, saved_bytes, stored_at}}, echo_filed.specs.{Filed.Filed, Stored.{stored_as, stored_bytes}}};
ghost use Rattle.{echo_filed.specs.declared.stored.Version.TheVariants.Second, cmd_status.specs.Lines.WritesFront};
ghost use Rattle.base_folder.specs.{AsFile.{IsFileFault, IsMessageFault, IsSendFault, IsTooLong, file_cause}, Source.{AreLegible, LooksAt, ReadsLegibly}};

use crate::send_error::SendError;
use crate::source::MessageSource;
use base_file::BaseFault;
use base_store::StoreError;
use disk_io::{Failure, Sink, Watched, send};
use echo_filed::{Filed, is_short, is_short_enough, long_bytes, send_message};
use std::alloc::{AllocError, Global};

/// The most messages that four bytes count.
const MOST: usize = 0xffff_ffff;

fn head_of(alloc: Global, cursor: u32, number: u32) -> Result<Vec<u8>, AllocError>
    ensures { IfOk result (λ bytes. bytes.items ≡ head_bytes Second cursor number) }
{
    let mut bytes = Vec::from_slice(alloc, b"ECHOBAS2")?;
    bytes.extend_from_slice(&long_bytes(cursor))?;
    bytes.extend_from_slice(&long_bytes(number))?;
    Ok(bytes)
}

fn bytes_of(alloc: Global, message: &Filed, short: bool) -> Result<Vec<u8>, BaseFault>
    ensures bytes { IfOk result (λ bytes. bytes.items ≡ stored_bytes Second (stored_as short message.now)) }
    ensures fault { IfErr result (IsTooLong (stored_as short message.now)) }
{
    if !is_short_enough(alloc, message, short)? {
        return Err(BaseFault::TooMany);
    }
    let mut bytes = Watched::new(Vec::new(alloc));
    match send_message(alloc, &mut bytes, message, short, &mut 0) {
        Ok(()) => Ok(bytes.into_inner()),
        Err(_) => Err(BaseFault::Memory),
    }
}

fn bytes_at(
    alloc: Global,
    message: &Filed,
    place: usize,
    cursor: usize,
) -> Result<Vec<u8>, BaseFault>
    ensures bytes { IfOk result (λ bytes. bytes.items ≡ stored_bytes Second (stored_at cursor place message.now)) }
    ensures fault { IfErr result (IsTooLong (stored_at cursor place message.now)) }
{
    bytes_of(alloc, message, is_short(message, place, cursor))
}

pub(crate) fn fault_of(error: StoreError, i: usize) -> BaseFault
    ensures { result ≡ file_cause error i }
{
    match error {
        StoreError::Memory | StoreError::TooMany => BaseFault::Memory,
        StoreError::Device => BaseFault::Read,
        StoreError::Damaged => BaseFault::Damaged { message: i as u64 },
    }
}

fn stored_at<M: MessageSource>(
    alloc: Global,
    messages: &mut M,
    i: usize,
    cursor: usize,
) -> Result<Vec<u8>, BaseFault>
    requires ready { (M.state messages.old).is_ready }
    requires within { i < (M.state messages.old).count }
    ensures bytes { (M.state messages.new).is_honest → (base : Base) (m : Filed) → (M.state messages.old).holds base → slice_get base.messages i ≡ Some m
        → IfOk result (λ file. file.items ≡ stored_bytes Second (stored_at cursor i m)) }
    ensures fault { (M.state messages.new).is_honest → (base : Base) (m : Filed) → (M.state messages.old).holds base → slice_get base.messages i ≡ Some m
        → IfErr result (IsMessageFault (stored_at cursor i m) (M.state messages.old).failures (M.state messages.new).failures) }
    ensures legible { ReadsLegibly (M.state messages.old) (M.state messages.new) i result }
    ensures looks { LooksAt (M.state messages.old) (M.state messages.new) }
    ensures later { (M.state messages.old).failures ≤ (M.state messages.new).failures }
{
    if let Err(error) = messages.fetch(i) {
        return Err(fault_of(error, i));
    }
    match messages.at_hand() {
        Some(message) => bytes_at(alloc, message, i, cursor),
        None => Err(BaseFault::Damaged { message: i as u64 }),
    }
}

fn send_bytes<W: Sink>(file: &mut W, bytes: &[u8]) -> Result<(), Failure>
    ensures bytes { OnOk result (Appends (W.contents file.old) (W.contents file.new) bytes.now) }
    ensures begun { OnErr result (WritesFront bytes.now (W.contents file.old) (W.contents file.new)) }
    ensures ok { OnOk result (W.failures file.new ≡ W.failures file.old) }
    ensures err { OnErr result (Failed (W.failures file.old) (W.failures file.new)) }
{
    send(file, bytes, &mut 0)
}

/// Sends the base file of these messages and this cursor, with one message at a time in memory. At a fault a beginning
/// of the file was sent, perhaps all of it.
pub fn send_file<M: MessageSource, W: Sink>(
    alloc: Global,
    messages: &mut M,
    file: &mut W,
) -> Result<(), SendError>
    requires { (M.state messages.old).is_ready }
    ensures file { (M.state messages.new).is_honest → (base : Base) → (M.state messages.old).holds base
        → OnOk result (Appends (W.contents file.old) (W.contents file.new) (saved_bytes base.messages base.cursor)) }
    ensures begun { (M.state messages.new).is_honest → (base : Base) → (M.state messages.old).holds base
        → OnErr result (WritesFront (saved_bytes base.messages base.cursor) (W.contents file.old) (W.contents file.new)) }
    ensures fault { (M.state messages.new).is_honest → (base : Base) → (M.state messages.old).holds base
        → IfErr result (IsSendFault base (M.state messages.old).failures (M.state messages.new).failures (W.failures file.old) (W.failures file.new)) }
    ensures whole { (M.state messages.new).is_honest → OnOk result (AreLegible (M.state messages.old)) }
    ensures ok { OnOk result (W.failures file.new ≡ W.failures file.old) }
    ensures looks { LooksAt (M.state messages.old) (M.state messages.new) }
{
    let count = messages.count();
    let cursor = messages.cursor();
    if count > MOST || cursor > MOST {
        return Err(SendError::Messages(BaseFault::TooMany));
    }
    let head = head_of(alloc, cursor as u32, count as u32)?;
    send_bytes(file, &head)?;
    'messages: for i in 0..count {
        let bytes = stored_at(alloc, messages, i, cursor)?;
        send_bytes(file, &bytes)?;
    }
    Ok(())
}

/// The base file of the same messages and the same cursor, if all are read. If a message is damaged, that is the fault.
pub fn base_file_bytes<M: MessageSource>(
    alloc: Global,
    messages: &mut M,
) -> Result<Vec<u8>, BaseFault>
    requires { (M.state messages.old).is_ready }
    ensures file { (M.state messages.new).is_honest → (base : Base) → (M.state messages.old).holds base → IfOk result (λ bytes. bytes.items ≡ saved_bytes base.messages base.cursor) }
    ensures fault { (M.state messages.new).is_honest → (base : Base) → (M.state messages.old).holds base
        → IfErr result (IsFileFault base (M.state messages.old).failures (M.state messages.new).failures) }
    ensures whole { (M.state messages.new).is_honest → OnOk result (AreLegible (M.state messages.old)) }
{
    let mut file = Watched::new(Vec::new(alloc));
    match send_file(alloc, messages, &mut file) {
        Ok(()) => Ok(file.into_inner()),
        Err(SendError::Messages(fault)) => Err(fault),
        Err(SendError::Device) => Err(BaseFault::Memory),
    }
}
