//! Writes a base to a sink.
ghost use Rattle.std.specs.Prelude.{◌≡◌, ◌^◌, ◌<◌, ◌≤◌, length, IfOk, OnOk, OnErr, true};
ghost use Rattle.std.specs.List.{flat_map, list_all};
ghost use Rattle.disk_io.specs.Device.{Failed, Sends};
ghost use Rattle.indexmap.specs.IndexMap.{values};
ghost use Rattle.echo_filed.specs.{declared.stored.Version.TheVariants.Second, Stored.is_short_enough, Stored.stored_bytes, Sending.CountsUnsent};
ghost use Rattle.base_file.specs.{Base.IsBase, BaseFile.head_bytes, BaseFile.is_countable, BaseFile.saved_bytes, BaseFile.stored_from, Saving.CountsSaved, Saving.Saves, Saving.ReportsTooMany};

use crate::base::Base;
use crate::base::loading::SECOND;
use crate::fault::BaseFault;
use disk_io::{Failure, Sink, send};
use echo_filed::{Filed, Key, Unsent, is_short, is_short_enough, long_bytes, send_message};
use indexmap::IndexMap;
use std::alloc::{AllocError, Global};
use std::hash::BuildHasher;

// The most messages that four bytes count.
const MOST: usize = 0xffff_ffff;

fn send_head<W: Sink>(
    writer: &mut W,
    cursor: u32,
    number: u32,
    sent: &mut u64,
) -> Result<(), Failure>
    ensures bytes { Sends (W.contents writer.old) (W.contents writer.new) result (head_bytes Second cursor number) sent.old sent.new }
    ensures ok { OnOk result (W.failures writer.new ≡ W.failures writer.old) }
    ensures err { OnErr result (Failed (W.failures writer.old) (W.failures writer.new)) }
{
    send(writer, SECOND, sent)?;
    send(writer, &long_bytes(cursor), sent)?;
    send(writer, &long_bytes(number), sent)
}

fn are_short_enough<S: BuildHasher>(
    alloc: Global,
    entries: &IndexMap<Key, Filed, S>,
    cursor: usize,
) -> Result<bool, AllocError>
    ensures { IfOk result (λ enough. enough ≡ list_all is_short_enough (stored_from cursor 0 (values entries.now))) }
{
    'messages: for i in 0..entries.len() {
        let message = &entries[i];
        let short = is_short(message, i, cursor);
        if !is_short_enough(alloc, message, short)? {
            return Ok(false);
        }
    }
    Ok(true)
}

fn send_messages<W: Sink, S: BuildHasher>(
    alloc: Global,
    writer: &mut W,
    entries: &IndexMap<Key, Filed, S>,
    cursor: usize,
    sent: &mut u64,
) -> Result<(), Unsent>
    requires room { list_all is_short_enough (stored_from cursor 0 (values entries.now)) ≡ true }
    requires count { sent.old < 2 ^ 64 }
    ensures bytes { Sends (W.contents writer.old) (W.contents writer.new) result (flat_map (stored_bytes Second) (stored_from cursor 0 (values entries.now))) sent.old sent.new }
    ensures device { CountsUnsent result (W.failures writer.old) (W.failures writer.new) }
{
    'messages: for i in 0..entries.len() {
        let message = &entries[i];
        let short = is_short(message, i, cursor);
        send_message(alloc, writer, message, short, sent)?;
    }
    Ok(())
}

fn send_base<W: Sink, S: BuildHasher>(
    alloc: Global,
    writer: &mut W,
    entries: &IndexMap<Key, Filed, S>,
    cursor: usize,
    sent: &mut u64,
) -> Result<(), Unsent>
    requires within { cursor ≤ length (values entries.now) }
    requires countable { is_countable (values entries.now) cursor ≡ true }
    requires count { sent.old ≡ 0 }
    ensures bytes { Sends (W.contents writer.old) (W.contents writer.new) result (saved_bytes (values entries.now) cursor) 0 sent.new }
    ensures device { CountsUnsent result (W.failures writer.old) (W.failures writer.new) }
{
    send_head(writer, cursor as u32, entries.len() as u32, sent)?;
    send_messages(alloc, writer, entries, cursor, sent)
}

fn are_countable<S: BuildHasher>(
    alloc: Global,
    entries: &IndexMap<Key, Filed, S>,
    cursor: usize,
) -> Result<bool, AllocError>
    ensures { IfOk result (λ countable. countable ≡ is_countable (values entries.now) cursor) }
{
    if entries.len() > MOST {
        return Ok(false);
    }
    are_short_enough(alloc, entries, cursor)
}

impl<S: BuildHasher> Base<S> {
    /// Writes the base as a base file of version 2; the owner of the writer flushes it. `TooMany`: more than 2^32 - 1
    /// messages, or bytes of a text or an id; nothing was sent. `Write` has the number of bytes sent, at most the
    /// greatest `u64`. If memory was refused, a beginning of the bytes was sent.
    pub fn save<W: Sink>(&self, writer: &mut W) -> Result<(), BaseFault>
        ensures base { IsBase self.now.messages self.now.cursor }
        ensures bytes { Saves (W.contents writer.old) (W.contents writer.new) result (saved_bytes self.now.messages self.now.cursor) }
        ensures device { CountsSaved result (W.failures writer.old) (W.failures writer.new) }
        ensures too_many { ReportsTooMany (is_countable self.now.messages self.now.cursor) result }
    {
        let alloc = *self.entries.allocator();
        if !are_countable(alloc, &self.entries, self.cursor)? {
            return Err(BaseFault::TooMany);
        }
        let mut sent = 0;
        match send_base(alloc, writer, &self.entries, self.cursor, &mut sent) {
            Ok(()) => Ok(()),
            Err(Unsent::Device) => Err(BaseFault::Write { bytes: sent }),
            Err(Unsent::Memory) => Err(BaseFault::Memory),
        }
    }
}
