//! Tosses a packet into a store, and notes the messages that were not filed.
ghost use Rattle.std.specs.Prelude.{◌≡◌, ◌≢◌, ◌++◌, IfErr, IsErr, IsErrOf, OnErr, OnOk};
ghost use Rattle.{base_file.specs.Base.Base, disk_io.specs.Disk.Honestly};
ghost use Rattle.base_store.specs.{Store.{CommitsNothing, HasStoreCause}, declared.store_error.StoreError.TheVariants.TooMany};
ghost use Rattle.{model_steps.specs.declared.outcome.Outcome.TheVariants.Filed, cmd_store.specs.NotedIn.{CanBegin, NotesMessagesIn, NotesPacketIn}};
ghost use Rattle.echo_steps.specs.{PacketsIn.{GoesOnUnlessFailed, messages_answer, packet_answer, stop_in, toss_answer}, Bounds.{AddsReceived, IsPastBound}};
ghost use Rattle.{echo_steps.specs.{Messages.CountsStop, PacketSteps.CountsToss}, cmd_store.specs.{Lines.HasTallyRoom, Notes.note_of}};
ghost use Rattle.echo_steps.specs.declared.fault.TossCause.TheVariants as cause;
ghost use Rattle.echo_steps.specs.declared.step_error.TossStepError.TheVariants as toss;

use crate::lines::MOST_TALLY;
use crate::note::note_line;
use base_store::Store;
use disk_io::Source;
use echo_addr::Address;
use echo_links::LinkFile;
use echo_packet::{Buffers, HEADER_BYTES, Limits, Packed, read_next};
use echo_steps::{
    Outcome, StoppedToss, Tally, TossCause, TossStepError, check_destination, toss_step,
};
use std::alloc::{AllocError, Global};

/// Tosses as `toss_packet` does, and appends a line for each message not filed. It keeps room for the packet's own
/// line. A message without memory for its line is not counted. Nothing is committed.
pub fn toss_listing_unfiled<T: Store, R: Source>(
    alloc: Global,
    links: &LinkFile,
    store: &mut T,
    reader: &mut R,
    limits: Limits,
    text: &mut Vec<u8>,
) -> Result<Tally, StoppedToss>
    requires ready { (T.state store.old).is_ready }
    requires room { HasTallyRoom text.old }
    ensures tossed { Honestly (T.state store.new).disk ((base : Base) → (T.state store.old).keeps base
        → NotesPacketIn limits links.now base (R.remaining reader.old) (R.remaining reader.new) text.old.items text.new.items (T.state store.old) result (T.state store.new)) }
    ensures device { CountsToss (packet_answer result) (R.failures reader.old) (R.failures reader.new) }
    ensures goes_on { GoesOnUnlessFailed (T.state store.old) (stop_in result) (T.state store.new) }
    ensures commits { CommitsNothing (T.state store.old) (T.state store.new) }
    ensures many { IsErrOf (toss_answer (stop_in result)) TooMany → IsPastBound T.state (AddsReceived limits links.now) (T.state store.old) }
    ensures cause { HasStoreCause (T.state store.old) (T.state store.new) (T.failures store.old) (T.failures store.new) (toss_answer (stop_in result)) }
    ensures room { HasTallyRoom text.new }
{
    let mut tally = Tally::NONE;
    let sender = match check_destination(links, reader) {
        Ok(sender) => sender,
        Err(cause) => {
            let stop = TossStepError::Packet(cause);
            return Err(StoppedToss { tally, stop });
        }
    };
    let packet = Incoming { sender, limits };
    match note_messages_in(alloc, links, store, packet, reader, &mut tally, text) {
        Ok(()) => Ok(tally),
        Err(stop) => Err(StoppedToss { tally, stop }),
    }
}

#[derive(Clone, Copy)]
struct Incoming {
    sender: Address,
    limits: Limits,
}

fn note_messages_in<T: Store, R: Source>(
    alloc: Global,
    links: &LinkFile,
    store: &mut T,
    packet: Incoming,
    reader: &mut R,
    tally: &mut Tally,
    text: &mut Vec<u8>,
) -> Result<(), TossStepError>
    requires ready { (T.state store.old).is_ready }
    requires begins { CanBegin tally.old text.old }
    ensures tossed { Honestly (T.state store.new).disk ((base : Base) → (T.state store.old).keeps base
        → NotesMessagesIn packet.limits packet.sender links.now base (R.remaining reader.old) (R.remaining reader.new) tally.new text.old.items text.new.items (T.state store.old) result (T.state store.new)) }
    ensures device { CountsStop (messages_answer result) (R.failures reader.old) (R.failures reader.new) }
    ensures goes_on { GoesOnUnlessFailed (T.state store.old) result (T.state store.new) }
    ensures commits { CommitsNothing (T.state store.old) (T.state store.new) }
    ensures many { IsErrOf (toss_answer result) TooMany → IsPastBound T.state (AddsReceived packet.limits links.now) (T.state store.old) }
    ensures cause { HasStoreCause (T.state store.old) (T.state store.new) (T.failures store.old) (T.failures store.new) (toss_answer result) }
    ensures room { HasTallyRoom text.new }
{
    let mut given = 0;
    let mut place = HEADER_BYTES as u64;
    let mut buffers = Buffers::new(alloc);
    'messages: loop {
        let begun = place;
        match read_next(buffers, reader, packet.limits, given, &mut place)? {
            Some(message) => {
                let outcome = toss_step(alloc, links, store, packet.sender, &message)?;
                note_in(alloc, text, given + 1, begun, outcome, &message)?;
                tally.count(outcome);
                given += 1;
                buffers = message.into_buffers();
            }
            None => return Ok(()),
        }
    }
}

fn note_in(
    alloc: Global,
    text: &mut Vec<u8>,
    number: u64,
    place: u64,
    outcome: Outcome,
    message: &Packed,
) -> Result<(), TossStepError>
    requires { HasTallyRoom text.old }
    ensures ok { OnOk result (text.new.items ≡ text.old.items ++ note_of number place outcome message.now) }
    ensures err { OnErr result (text.new.items ≡ text.old.items) }
    ensures stop { IfErr result (λ stop. stop ≡ toss.Packet cause.Memory) }
    ensures other { IsErr result → outcome ≢ Filed }
    ensures room { HasTallyRoom text.new }
{
    match note_outcome(alloc, text, number, place, outcome, message) {
        Ok(()) => Ok(()),
        Err(_) => Err(TossStepError::Packet(TossCause::Memory)),
    }
}

fn note_outcome(
    alloc: Global,
    text: &mut Vec<u8>,
    number: u64,
    place: u64,
    outcome: Outcome,
    message: &Packed,
) -> Result<(), AllocError>
    requires { HasTallyRoom text.old }
    ensures ok { OnOk result (text.new.items ≡ text.old.items ++ note_of number place outcome message.now) }
    ensures err { OnErr result (text.new.items ≡ text.old.items) }
    ensures other { IsErr result → outcome ≢ Filed }
    ensures room { HasTallyRoom text.new }
{
    match outcome {
        Outcome::Filed => Ok(()),
        other => {
            let line = note_line(alloc, number, place, other, message)?;
            text.reserve(line.len() + MOST_TALLY)?;
            text.extend_from_slice(&line).unwrap();
            Ok(())
        }
    }
}
