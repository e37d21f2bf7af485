//! The packets for the links, and what each has so far.
ghost use Rattle.std.specs.{Prelude.{◌≡◌, [], map, IfOk, Ok}, List.flat_map};
ghost use Rattle.{cmd_status.specs.Devices.output_of, cmd_store.specs.PacketLines.counted_line};
ghost use Rattle.cmd_store.specs.{Answered.{AnswersOn, AreLines, RefusesNone}, Stops.store_answer};
ghost use Rattle.station_scan.specs.{Passing.{AreCounted, begun_in, copied_in, counts_in, made_in, with_group}, Sending.AreRoutes};

use crate::sending::{Route, Sending};
use cmd_store::{CommandError, print_counted};
use disk_atomic::Outgoing;
use disk_io::Sink;
use echo_steps::{CountedPacket, Group};
use std::alloc::{AllocError, Global};

/// The packet for a link, what it has so far, and how many messages it had before the last group.
#[derive(Clone, Copy)]
pub(crate) struct LinkPacket<'p> {
    pub packet: Outgoing<'p>,
    pub before: usize,
    pub counted: CountedPacket,
}

/// The packets for all links, without messages.
pub(crate) fn empty_packets<'p>(
    alloc: Global,
    sending: Sending<'p>,
) -> Result<Vec<LinkPacket<'p>>, AllocError>
    requires routes { AreRoutes sending }
    ensures { IfOk result (λ all. AreCounted sending.entry [] all.items) }
{
    let routes: &'p [Route] = sending.routes;
    let mut all = Vec::with_capacity(alloc, routes.len())?;
    'routes: for i in 0..routes.len() {
        let route = &routes[i];
        let packet = Outgoing {
            path: route.two.path.as_slice(),
            staging: route.two.staging.as_slice(),
            to: route.to,
        };
        all.push(LinkPacket {
            packet,
            before: 0,
            counted: CountedPacket::empty(route.to),
        })?;
    }
    Ok(all)
}

/// The packets with the copies of the group too.
pub(crate) fn packets_with<'p>(
    alloc: Global,
    packets: &[LinkPacket<'p>],
    group: &Group,
) -> Result<Vec<LinkPacket<'p>>, AllocError>
    ensures { IfOk result (λ all. all.items ≡ map (with_group group.now.sent) packets.now) }
{
    let mut all = Vec::with_capacity(alloc, packets.len())?;
    'packets: for link in packets {
        let counted = link.counted.with_group(group)?;
        all.push(LinkPacket {
            packet: link.packet,
            before: link.counted.messages,
            counted,
        })?;
    }
    Ok(all)
}

/// Those that got their first messages in the last group.
pub(crate) fn begun_of<'p>(
    alloc: Global,
    packets: &[LinkPacket<'p>],
) -> Result<Vec<Outgoing<'p>>, AllocError>
    ensures { IfOk result (λ all. all.items ≡ begun_in packets.now) }
{
    packets
        .iter()
        .filter(|link| link.before == 0 && link.counted.messages > 0)
        .map(|link| link.packet)
        .collect(alloc)
}

/// Those that got messages in the last group.
pub(crate) fn copied_of<'p>(
    alloc: Global,
    packets: &[LinkPacket<'p>],
) -> Result<Vec<Outgoing<'p>>, AllocError>
    ensures { IfOk result (λ all. all.items ≡ copied_in packets.now) }
{
    packets
        .iter()
        .filter(|link| link.before < link.counted.messages)
        .map(|link| link.packet)
        .collect(alloc)
}

/// Those that have messages.
pub(crate) fn made_of<'p>(
    alloc: Global,
    packets: &[LinkPacket<'p>],
) -> Result<Vec<Outgoing<'p>>, AllocError>
    ensures { IfOk result (λ all. all.items ≡ made_in packets.now) }
{
    packets
        .iter()
        .filter(|link| link.counted.messages > 0)
        .map(|link| link.packet)
        .collect(alloc)
}

// Their counts.
fn counts_of(alloc: Global, packets: &[LinkPacket<'_>]) -> Result<Vec<CountedPacket>, AllocError>
    ensures { IfOk result (λ all. all.items ≡ counts_in packets.now) }
{
    packets
        .iter()
        .filter(|link| link.counted.messages > 0)
        .map(|link| link.counted)
        .collect(alloc)
}

/// Prints a line for each packet with messages.
pub(crate) fn print_made<'a, W: Sink>(
    alloc: Global,
    packets: &[LinkPacket<'_>],
    out: &mut W,
) -> Result<(), CommandError<'a>>
    ensures answers { AnswersOn (AreLines (flat_map counted_line (counts_in packets.now))) RefusesNone (output_of W.contents W.failures W.holds out.old) (output_of W.contents W.failures W.holds out.new) result }
    ensures met { store_answer result ≡ Ok tt }
{
    let counts = counts_of(alloc, packets)?;
    print_counted(alloc, &counts, out)
}
