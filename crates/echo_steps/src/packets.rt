//! Whole packets: the header, then message by message.
ghost use Rattle.std.specs.Prelude.{◌≡◌, [], IsErrOf, MatchResult};
ghost use Rattle.disk_io.specs.Disk.{Honestly};
ghost use Rattle.base_file.specs.Base.{Base};
ghost use Rattle.base_store.specs.{Store.CommitsNothing, Store.HasStoreCause, declared.store_error.StoreError.TheVariants.TooMany};
ghost use Rattle.model_steps.specs.Tossing.{destination_of, sender_of, zone_of};
ghost use Rattle.echo_steps.specs.PacketsIn.{GoesOnUnlessFailed, ReadsMessages, ReadsPacket, TossesMessagesIn, TossesPacketIn, messages_answer, packet_answer, stop_in, toss_answer};
ghost use Rattle.echo_steps.specs.{Bounds.AddsReceived, Bounds.IsPastBound, Tallies.all_counted, Tallies.tally_of, PacketSteps.CountsToss, Messages.CountsStop, Messages.IsOpened, Messages.IsUnopened};

use crate::fault::TossCause;
use crate::step_error::{StoppedToss, TossStepError};
use crate::tally::Tally;
use crate::tossing::toss_step;
use base_store::Store;
use disk_io::Source;
use echo_addr::Address;
use echo_links::LinkFile;
use echo_packet::{Buffers, HEADER_BYTES, Header, Limits, read_header, read_next};
use std::alloc::Global;

/// Tosses the messages of the packet at the front of the reader into the store, in order. Their sender is the origin
/// in the packet's header; a zone 0 there means the own zone. Nothing is committed. `NotForUs`: the destination is not
/// the own address. Messages before a fault stay tossed and counted; one at which the store failed does not.
pub fn toss_packet<T: Store, R: Source>(
    alloc: Global,
    links: &LinkFile,
    store: &mut T,
    reader: &mut R,
    limits: Limits,
) -> Result<Tally, StoppedToss>
    requires { (T.state store.old).is_ready }
    ensures tossed { Honestly (T.state store.new).disk ((base : Base) → (T.state store.old).keeps base
        → TossesPacketIn limits links.now base (R.remaining reader.old) (R.remaining reader.new) (T.state store.old) result (T.state store.new)) }
    ensures read { (base : Base) → ReadsPacket limits links.now base (R.remaining reader.old) (R.remaining reader.new) (packet_answer result) }
    ensures device { CountsToss (packet_answer result) (R.failures reader.old) (R.failures reader.new) }
    ensures goes_on { GoesOnUnlessFailed (T.state store.old) (stop_in result) (T.state store.new) }
    ensures commits { CommitsNothing (T.state store.old) (T.state store.new) }
    ensures many { IsErrOf (toss_answer (stop_in result)) TooMany → IsPastBound T.state (AddsReceived limits links.now) (T.state store.old) }
    ensures cause { HasStoreCause (T.state store.old) (T.state store.new) (T.failures store.old) (T.failures store.new) (toss_answer (stop_in result)) }
{
    let mut tally = Tally::NONE;
    let sender = match check_destination(links, reader) {
        Ok(sender) => sender,
        Err(cause) => {
            let stop = TossStepError::Packet(cause);
            return Err(StoppedToss { tally, stop });
        }
    };
    match toss_messages(alloc, links, store, sender, reader, limits, &mut tally) {
        Ok(()) => Ok(tally),
        Err(stop) => Err(StoppedToss { tally, stop }),
    }
}

fn toss_messages<T: Store, R: Source>(
    alloc: Global,
    links: &LinkFile,
    store: &mut T,
    sender: Address,
    reader: &mut R,
    limits: Limits,
    tally: &mut Tally,
) -> Result<(), TossStepError>
    requires ready { (T.state store.old).is_ready }
    requires none { tally.old ≡ tally_of [] }
    ensures tossed { Honestly (T.state store.new).disk ((base : Base) → (T.state store.old).keeps base
        → TossesMessagesIn limits sender links.now base (R.remaining reader.old) (R.remaining reader.new) tally.new (T.state store.old) result (T.state store.new)) }
    ensures read { (base : Base) → ReadsMessages limits sender links.now base (R.remaining reader.old) (R.remaining reader.new) (all_counted tally.new) (messages_answer result) }
    ensures device { CountsStop (messages_answer result) (R.failures reader.old) (R.failures reader.new) }
    ensures goes_on { GoesOnUnlessFailed (T.state store.old) result (T.state store.new) }
    ensures commits { CommitsNothing (T.state store.old) (T.state store.new) }
    ensures many { IsErrOf (toss_answer result) TooMany → IsPastBound T.state (AddsReceived limits links.now) (T.state store.old) }
    ensures cause { HasStoreCause (T.state store.old) (T.state store.new) (T.failures store.old) (T.failures store.new) (toss_answer result) }
{
    let mut given = 0;
    let mut place = HEADER_BYTES as u64;
    let mut buffers = Buffers::new(alloc);
    'messages: loop {
        match read_next(buffers, reader, limits, given, &mut place)? {
            Some(message) => {
                let outcome = toss_step(alloc, links, store, sender, &message)?;
                tally.count(outcome);
                given += 1;
                buffers = message.into_buffers();
            }
            None => return Ok(()),
        }
    }
}

/// Reads the header of a packet. Returns who sent it, if it is for this system.
pub fn check_destination<R: Source>(links: &LinkFile, reader: &mut R) -> Result<Address, TossCause>
    ensures front { MatchResult result
        (IsOpened links.now (R.remaining reader.old) (R.remaining reader.new))
        (IsUnopened links.now (R.remaining reader.old) (R.remaining reader.new)) }
    ensures device { CountsStop result (R.failures reader.old) (R.failures reader.new) }
{
    let header = read_header(reader)?;
    let destination = destination_of(links, &header);
    if destination != links.system() {
        return Err(TossCause::NotForUs(destination));
    }
    Ok(origin_of(links, &header))
}

fn destination_of(links: &LinkFile, header: &Header) -> Address
    ensures { result ≡ destination_of links.now header.now }
{
    Address {
        zone: zone_of(links, header.dest_zone),
        net: header.dest_net,
        node: header.dest_node,
    }
}

fn origin_of(links: &LinkFile, header: &Header) -> Address
    ensures { result ≡ sender_of links.now header.now }
{
    Address {
        zone: zone_of(links, header.orig_zone),
        net: header.orig_net,
        node: header.orig_node,
    }
}

fn zone_of(links: &LinkFile, zone: u16) -> u16
    ensures { result ≡ zone_of links.now zone }
{
    if zone == 0 { links.system().zone } else { zone }
}
