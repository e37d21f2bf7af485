//! The systems and packets of a net, and what one reads off them.

ghost use Rattle.std.specs.Prelude.{◌≡◌, None, IfOk, IfSome, length, drop, count_by, nat_le, not, false, bytes_eq, unwrap_or, slice_get, option_copied, option_map};
ghost use Rattle.std.specs.{Io.KnownBytes.Keeps, List.list_all};
ghost use Rattle.base_file.specs.{BaseFile.is_countable, BaseFile.saved_bytes, Saving.CountsSaved, Saving.Saves, Saving.ReportsTooMany};
ghost use Rattle.model_run.specs.{World.area_count, World.filed_at, World.waiting_at, World.is_settled, World.undelivered, Run.Run, Run.destination, Run.nth};
ghost use Rattle.echo_net.specs.Worlds.{IsWorldOf, OfSystem, encoded, made, message_at};

use base_file::BaseFault;
use disk_io::Sink;
use echo_addr::{Address, Items};
use echo_filed::Filed;
use echo_links::LinkFile;
use echo_toss::Tosser;
use model_steps::Packet;
use std::hash::{BuildHasher, BuildHasherDefault, FoldHasher};
use std::marker::Model;

/// A packet that was made: its bytes, whom it is for, and whether it came.
#[derive(Drop)]
pub struct Exported {
    bytes: Items<u8>,
    to: Address,
    pub(crate) came: bool,
}

impl Model for Exported {
    ghost use Rattle.echo_net.specs.Worlds as model;

    ghost Value = { model.Exported };

    ghost view = { λ e. record { bytes = e.bytes; to = e.to; came = e.came } };
}

impl Exported {
    pub(crate) fn new(packet: &Packet, bytes: Vec<u8>) -> Exported
        ensures { result ≡ record { bytes = bytes.items; to = destination packet.now; came = false } }
    {
        Exported {
            bytes: Items::new(bytes),
            to: destination(packet),
            came: false,
        }
    }

    pub(crate) fn to(&self) -> Address
        ensures { result ≡ self.now.to }
    {
        self.to
    }

    pub(crate) fn bytes(&self) -> &[u8]
        ensures { result.now ≡ self.now.bytes }
    {
        self.bytes.as_slice()
    }
}

fn destination(packet: &Packet) -> Address
    ensures { result ≡ destination packet.now }
{
    let header = &packet.header;
    Address {
        zone: header.dest_zone,
        net: header.dest_net,
        node: header.dest_node,
    }
}

/// A net after some events. Systems go by their index in the list of link files, packets by their order
/// of export, both from 0. `S` hashes the keys of messages.
#[derive(Drop)]
pub struct World<S: BuildHasher = BuildHasherDefault<FoldHasher>> {
    pub(crate) systems: Vec<Tosser<S>>,
    pub(crate) packets: Vec<Exported>,
}

impl<S: BuildHasher> Model for World<S> {
    ghost use Rattle.echo_net.specs.Worlds.{WorldState};

    ghost Value = { WorldState };

    ghost view = { λ w. record { systems = w.systems.items; packets = w.packets.items } };
}

impl<S: BuildHasher> World<S> {
    /// How many messages of the area the system has filed, 0 without such a system. Tags are compared byte for byte.
    pub fn filed(&self, system: usize, tag: &[u8]) -> usize
        ensures { (run : Run) → IsWorldOf self.now run → result ≡ filed_at run system tag.now }
    {
        match self.systems.get(system) {
            Some(tosser) => count_from(tosser, 0, tag),
            None => 0,
        }
    }

    /// How many of them wait for a scan.
    pub fn waiting(&self, system: usize, tag: &[u8]) -> usize
        ensures { (run : Run) → IsWorldOf self.now run → result ≡ waiting_at run system tag.now }
    {
        match self.systems.get(system) {
            Some(tosser) => count_from(tosser, scanned(tosser), tag),
            None => 0,
        }
    }

    /// How many systems there are.
    pub fn systems(&self) -> usize
        ensures { (run : Run) → IsWorldOf self.now run → result ≡ length run.systems }
    {
        let systems = self.systems.as_slice();
        systems.len()
    }

    /// How many packets were made.
    pub fn packets(&self) -> usize
        ensures { (run : Run) → IsWorldOf self.now run → result ≡ length run.packets }
    {
        let packets = self.packets.as_slice();
        packets.len()
    }

    /// How many of them did not come.
    pub fn undelivered(&self) -> usize
        ensures { (run : Run) → IsWorldOf self.now run → result ≡ undelivered run }
    {
        count_missing(&self.packets)
    }

    /// Whether no message of any area waits for a scan and every packet came.
    pub fn settled(&self) -> bool
        ensures { (run : Run) → IsWorldOf self.now run → result ≡ is_settled run }
    {
        all_scanned(&self.systems) && count_missing(&self.packets) == 0
    }

    /// The link file of the system.
    pub fn links(&self, system: usize) -> Option<&LinkFile>
        ensures { (run : Run) → IsWorldOf self.now run → option_copied result ≡ option_map (λ s. s.file) (nth system run.systems) }
    {
        Some(self.systems.get(system)?.links())
    }

    /// The message of this number that the system has, counted from 0 in order of filing.
    pub fn message(&self, system: usize, i: usize) -> Option<&Filed>
        ensures { (run : Run) → IsWorldOf self.now run → option_copied result ≡ message_at run system i }
    {
        self.systems.get(system)?.message(i)
    }

    /// Whom the packet is for.
    pub fn packet_destination(&self, k: usize) -> Option<Address>
        ensures { (run : Run) → IsWorldOf self.now run → result ≡ option_map destination (nth k run.packets) }
    {
        destination_at(&self.packets, k)
    }

    /// The bytes of the packet.
    pub fn packet(&self, k: usize) -> Option<&[u8]>
        ensures { (run : Run) → IsWorldOf self.now run → option_copied result ≡ option_map encoded (nth k run.packets) }
    {
        bytes_at(&self.packets, k)
    }

    /// Writes the base of the system as a base file of version 2, unflushed; None without such a system. `TooMany`:
    /// four bytes can't count the messages, or the bytes of a text or an id. `Write` has the number of bytes written.
    pub fn save<W: Sink>(&self, system: usize, writer: &mut W) -> Option<Result<(), BaseFault>>
        ensures bytes { (run : Run) → IsWorldOf self.now run → OfSystem result (nth system run.systems) (λ saved s.
            Saves (W.contents writer.old) (W.contents writer.new) saved (saved_bytes s.base s.cursor)) }
        ensures device { IfSome result (λ saved. CountsSaved saved (W.failures writer.old) (W.failures writer.new)) }
        ensures too_many { (run : Run) → IsWorldOf self.now run → OfSystem result (nth system run.systems) (λ saved s. ReportsTooMany (is_countable s.base s.cursor) saved) }
        ensures none { result ≡ None → Keeps (W.contents writer.old) (W.contents writer.new) × (W.failures writer.new ≡ W.failures writer.old) }
    {
        Some(self.systems.get(system)?.save(writer))
    }
}

fn count_from<S: BuildHasher>(tosser: &Tosser<S>, from: usize, tag: &[u8]) -> usize
    ensures { result ≡ area_count tag.now (drop from tosser.now.base) }
{
    let mut count = 0;
    for i in from..tosser.filed() {
        if is_of_area(tosser, i, tag) {
            count += 1;
        }
    }
    count
}

fn is_of_area<S: BuildHasher>(tosser: &Tosser<S>, i: usize, tag: &[u8]) -> bool
    ensures { result ≡ unwrap_or (option_map (λ m. bytes_eq m.echo.tag tag.now) (slice_get tosser.now.base i)) false }
{
    match tosser.message(i) {
        Some(message) => {
            let echo = &message.echo;
            echo.tag.as_slice() == tag
        }
        None => false,
    }
}

fn count_missing(packets: &[Exported]) -> usize
    ensures { result ≡ count_by (λ e. not e.came) packets.now }
{
    let mut count = 0;
    'packets: for packet in packets {
        if !packet.came {
            count += 1;
        }
    }
    count
}

fn all_scanned<S: BuildHasher>(systems: &[Tosser<S>]) -> bool
    ensures { result ≡ list_all (λ s. nat_le (length s.base) s.cursor) systems.now }
{
    systems
        .iter()
        .all(|tosser| tosser.filed() <= scanned(tosser))
}

/// How many messages of the tosser were scanned.
fn scanned<S: BuildHasher>(tosser: &Tosser<S>) -> usize
    ensures { result ≡ tosser.now.cursor }
{
    tosser.filed() - tosser.waiting()
}

fn destination_at(packets: &[Exported], k: usize) -> Option<Address>
    ensures { result ≡ option_map (λ e. e.to) (slice_get packets.now k) }
{
    let packet = packets.get(k)?;
    Some(packet.to())
}

fn bytes_at(packets: &[Exported], k: usize) -> Option<&[u8]>
    ensures { option_copied result ≡ option_map (λ e. e.bytes) (slice_get packets.now k) }
{
    let packet = packets.get(k)?;
    Some(packet.bytes())
}
