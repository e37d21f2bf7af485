//! The command `toss` on a store.

ghost use Rattle.std.specs.Prelude.{◌≡◌, false, IfErr, IsErrOf, OnOk};
ghost use Rattle.{disk_io.specs.Disk.Honestly, base_file.specs.Base.Base};
ghost use Rattle.{cmd_status.specs.Devices.{device_of, output_of}, base_store.specs.Store.{CommitsNothing, GoesOn, HasStoreCause}};
ghost use Rattle.cmd_store.specs.{Tossed.{PrintsRun, ReportsIn, Tosses, TossesFiles, TossesIn, TossesNext, TossesOn, TossesTo}, Lines.HasTallyRoom};
ghost use Rattle.cmd_store.specs.{TossedPacket.TossRun, Answered.{CommitsNoneWhereMet, MayMake}, Bounded.IsStoppedFull, Stops.store_answer};
ghost use Rattle.echo_steps.specs.Bounds.{AddsReceived, IsPastBound};

use crate::coming::PacketFiles;
use crate::command::StoreCommand;
use crate::command_error::CommandError;
use crate::lines::{MOST_TALLY, push_tally};
use crate::packet_fault::toss_fault;
use crate::storing::toss_listing_unfiled;
use base_store::{PurgedStore, Store, StoreError};
use cmd_status::{Fault, print_rest};
use disk_io::{Sink, Source};
use echo_links::LinkFile;
use echo_packet::Limits;
use echo_steps::{StoppedToss, Tally, TossStepError, toss_packet};
use std::alloc::Global;
use std::marker::PhantomData;

/// `toss`: tosses the packets at the front of these files, of which so much is read. With `noting`, it prints a line
/// for each message that is not filed (`toss --each`).
#[derive(Drop)]
pub struct Toss<'a, P> {
    pub limits: Limits,
    pub noting: bool,
    pub packets: P,
    faults: PhantomData<Fault<'a>>,
}

impl<'a, P: PacketFiles<'a>> Toss<'a, P> {
    /// Of these files.
    pub fn new(limits: Limits, noting: bool, packets: P) -> Toss<'a, P>
        ensures limits { result.limits ≡ limits }
        ensures noting { result.noting ≡ noting }
        ensures packets { result.packets ≡ packets }
    {
        Toss {
            limits,
            noting,
            packets,
            faults: PhantomData,
        }
    }
}

impl<'a, P: PacketFiles<'a>> StoreCommand<'a> for Toss<'a, P> {
    type Answer = Option<Fault<'a>>;

    ghost answers = { λ old new file base before after result. TossesIn (P.is_honest new.packets) old.noting old.limits (device_of P.Reader.remaining P.Reader.failures) file base (P.coming old.packets) (P.coming new.packets) before after result };

    ghost makes = { λ old new file base before after result. TossesTo (P.is_honest new.packets) old.noting old.limits (device_of P.Reader.remaining P.Reader.failures) file base (P.coming old.packets) (P.coming new.packets) before after result };

    ghost may = { λ old new file. Tosses (P.is_honest new.packets) old.noting old.limits (device_of P.Reader.remaining P.Reader.failures) file (P.coming old.packets) };

    ghost commits_held = { λ self. false };

    ghost adds = { λ self file. AddsReceived self.limits file };

    fn run<T: PurgedStore, W: Sink>(
        &mut self,
        alloc: Global,
        links: &LinkFile,
        store: &mut T,
        out: &mut W,
    ) -> Result<Option<Fault<'a>>, CommandError<'a>> {
        toss_on(
            alloc,
            self.limits,
            self.noting,
            links,
            store,
            &mut self.packets,
            out,
        )
    }
}

// Tosses the packet at the front of each file in order. At a fault it stops, commits what was tossed before, and opens
// no later file.
fn toss_on<'a, T: Store, P: PacketFiles<'a>, W: Sink>(
    alloc: Global,
    limits: Limits,
    noting: bool,
    links: &LinkFile,
    store: &mut T,
    packets: &mut P,
    out: &mut W,
) -> Result<Option<Fault<'a>>, CommandError<'a>>
    requires { (T.state store.old).is_ready }
    ensures answers { Honestly (T.state store.new).disk ((base : Base) → (T.state store.old).keeps base
        → TossesOn (P.is_honest packets.new) noting limits (device_of P.Reader.remaining P.Reader.failures) links.now base (P.coming packets.old) (P.coming packets.new)
        (output_of W.contents W.failures W.holds out.old) (output_of W.contents W.failures W.holds out.new) result (T.state store.new)) }
    ensures ready { OnOk result (T.state store.new).is_ready }
    ensures met { IfErr result (CommitsNoneWhereMet (T.state store.old) (T.state store.new)) }
    ensures crash { MayMake (Tosses (P.is_honest packets.new) noting limits (device_of P.Reader.remaining P.Reader.failures) links.now (P.coming packets.old)) (T.state store.old) (T.state store.new) }
    ensures many { IsErrOf (store_answer result) StoreError.TooMany → IsStoppedFull T.state (AddsReceived limits links.now) (T.state store.old) (T.state store.new) }
    ensures cause { HasStoreCause (T.state store.old) (T.state store.new) (T.failures store.old) (T.failures store.new) (store_answer result) }
{
    let mut lines = Vec::new(alloc);
    let stopped = toss_files(alloc, limits, noting, links, store, packets, &mut lines)?;
    print_run(&mut lines, stopped, out)?;
    store.commit()?;
    Ok(stopped)
}

// If a fault stopped the run, a failed print is not reported.
fn print_run<'a, W: Sink>(
    lines: &mut Vec<u8>,
    stopped: Option<Fault<'a>>,
    out: &mut W,
) -> Result<(), Fault<'a>>
    ensures { (run : TossRun) → run.lines ≡ lines.old.items → PrintsRun run stopped.entry (output_of W.contents W.failures W.holds out.old) (output_of W.contents W.failures W.holds out.new) result }
{
    let printed = print_rest(lines, out);
    match stopped {
        Some(_) => Ok(()),
        None => printed,
    }
}

fn toss_files<'a, T: Store, P: PacketFiles<'a>>(
    alloc: Global,
    limits: Limits,
    noting: bool,
    links: &LinkFile,
    store: &mut T,
    packets: &mut P,
    lines: &mut Vec<u8>,
) -> Result<Option<Fault<'a>>, StoreError>
    requires { (T.state store.old).is_ready }
    ensures tossed { Honestly (T.state store.new).disk ((base : Base) → (T.state store.old).keeps base
        → TossesFiles (P.is_honest packets.new) noting limits (device_of P.Reader.remaining P.Reader.failures) links.now base (P.coming packets.old) (P.coming packets.new) lines.old.items lines.new.items result (T.state store.new)) }
    ensures goes_on { OnOk result (GoesOn (T.state store.old) (T.state store.new)) }
    ensures commits { CommitsNothing (T.state store.old) (T.state store.new) }
    ensures many { IsErrOf result StoreError.TooMany → IsPastBound T.state (AddsReceived limits links.now) (T.state store.old) }
    ensures cause { HasStoreCause (T.state store.old) (T.state store.new) (T.failures store.old) (T.failures store.new) result }
{
    'files: while let Some(opened) = packets.open_next() {
        match opened {
            Ok(mut reader) => {
                let stopped = toss_next(alloc, limits, noting, links, store, &mut reader, lines)?;
                if let Some(fault) = stopped {
                    return Ok(Some(fault));
                }
            }
            Err(fault) => return Ok(Some(fault)),
        }
    }
    Ok(None)
}

// Without memory for the line of a packet, the packet is not read.
fn toss_next<'a, T: Store, R: Source>(
    alloc: Global,
    limits: Limits,
    noting: bool,
    links: &LinkFile,
    store: &mut T,
    reader: &mut R,
    lines: &mut Vec<u8>,
) -> Result<Option<Fault<'a>>, StoreError>
    requires { (T.state store.old).is_ready }
    ensures tossed { Honestly (T.state store.new).disk ((base : Base) → (T.state store.old).keeps base
        → TossesNext noting limits links.now base (device_of R.remaining R.failures reader.old) (device_of R.remaining R.failures reader.new) lines.old.items lines.new.items result (T.state store.new)) }
    ensures goes_on { OnOk result (GoesOn (T.state store.old) (T.state store.new)) }
    ensures commits { CommitsNothing (T.state store.old) (T.state store.new) }
    ensures many { IsErrOf result StoreError.TooMany → IsPastBound T.state (AddsReceived limits links.now) (T.state store.old) }
    ensures cause { HasStoreCause (T.state store.old) (T.state store.new) (T.failures store.old) (T.failures store.new) result }
{
    if lines.reserve(MOST_TALLY).is_err() {
        return Ok(Some(Fault::OutOfMemory));
    }
    if noting {
        let answer = toss_listing_unfiled(alloc, links, store, reader, limits, lines);
        push_answer(lines, answer)
    } else {
        let answer = toss_packet(alloc, links, store, reader, limits);
        push_answer(lines, answer)
    }
}

fn push_answer<'a>(
    lines: &mut Vec<u8>,
    answer: Result<Tally, StoppedToss>,
) -> Result<Option<Fault<'a>>, StoreError>
    requires { HasTallyRoom lines.old }
    ensures { ReportsIn lines.old.items lines.new.items answer result }
{
    match answer {
        Ok(tally) => {
            push_tally(lines, tally);
            Ok(None)
        }
        Err(stopped) => match stopped.stop {
            TossStepError::Packet(cause) => {
                push_tally(lines, stopped.tally);
                Ok(Some(toss_fault(cause)))
            }
            TossStepError::Store(error) => Err(error),
        },
    }
}
