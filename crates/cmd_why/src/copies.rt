//! The copies of a message in packets, counted.

ghost use Rattle.std.specs.Prelude.{◌≡◌, ◌&&◌, false, IfOk, IsTrue, bytes_eq, is_none, unwrap_or, option_copied, option_map, if◌then◌else◌, map, filter};
ghost use Rattle.{echo_addr.specs.declared.address.Address.Address as Sender, echo_filed.specs.{declared.key.Key.TheVariants.ById, Filed.{key_of, same_key}}};
ghost use Rattle.{echo_links.specs.Links.same_address, model_run.specs.{Orderly.{IsPosting, copies, count, sent_count}, Run.{Run, destination, nth}}};
ghost use Rattle.{echo_net.specs.Worlds.{Fits, IsWorldOf, encoded}, model_steps.specs.{declared.packet.Packet.Packet, Tossing.received}};
ghost use Rattle.echo_text.specs.Refusal.{text_refusal};

use echo_addr::Address;
use echo_filed::Filed;
use echo_net::World;
use echo_packet::{Header, Limits, Packed, read_packet};
use echo_text::{TextFault, view_text};
use std::alloc::{AllocError, Global};
use std::hash::RandomState;

/// How many copies of the message the packets to the address hold. Fails only when out of memory.
pub(crate) fn sent_times(
    alloc: Global,
    world: &World<RandomState>,
    to: Address,
    tag: &[u8],
    id: &[u8],
) -> Result<usize, AllocError>
    ensures { IfOk result (λ times. (run : Run) → IsWorldOf world.now run → times ≡ sent_count to (ById tag.now id.now) run.packets) }
{
    let mut times: usize = 0;
    'packets: for k in 0..world.packets() {
        let more = copies_to(alloc, world, k, to, tag, id)?;
        let Some(sum) = times.checked_add(more) else {
            return Err(AllocError);
        };
        times = sum;
    }
    Ok(times)
}

fn copies_to(
    alloc: Global,
    world: &World<RandomState>,
    k: usize,
    to: Address,
    tag: &[u8],
    id: &[u8],
) -> Result<usize, AllocError>
    ensures { IfOk result (λ n. (run : Run) → IsWorldOf world.now run → (p : Packet) → nth k run.packets ≡ Some p →
        n ≡ (if same_address (destination p) to then count (ById tag.now id.now) (copies p) else 0)) }
{
    if !is_for(world, k, to) {
        return Ok(0);
    }
    match world.packet(k) {
        Some(bytes) => copies_in(alloc, bytes, tag, id),
        None => Ok(0),
    }
}

pub(crate) fn is_for(world: &World<RandomState>, k: usize, to: Address) -> bool
    ensures { (run : Run) → IsWorldOf world.now run → (p : Packet) → nth k run.packets ≡ Some p → result ≡ same_address (destination p) to }
{
    match world.packet_destination(k) {
        Some(address) => address == to,
        None => false,
    }
}

fn copies_in(alloc: Global, bytes: &[u8], tag: &[u8], id: &[u8]) -> Result<usize, AllocError>
    ensures { IfOk result (λ n. (p : Packet) → Fits p → bytes.now ≡ encoded p → n ≡ count (ById tag.now id.now) (copies p)) }
{
    let parts = parts_of(alloc, bytes)?;
    count_copies(alloc, &parts.1, tag, id)
}

/// The header and the messages of a packet.
pub(crate) fn parts_of(alloc: Global, bytes: &[u8]) -> Result<(Header, Vec<Packed>), AllocError>
    ensures { IfOk result (λ parts. (p : Packet) → Fits p → bytes.now ≡ encoded p → (parts.0 ≡ p.header) × (parts.1.items ≡ p.messages)) }
{
    match read_packet(alloc, bytes, Limits::NONE) {
        Ok(found) => Ok((found.0, found.1)),
        Err(_) => Err(AllocError),
    }
}

pub(crate) fn count_copies(
    alloc: Global,
    messages: &[Packed],
    tag: &[u8],
    id: &[u8],
) -> Result<usize, AllocError>
    ensures { IfOk result (λ n. (sender : Sender) → n ≡ count (ById tag.now id.now) (map (received sender) (filter (λ packed. is_none (text_refusal packed.text)) messages.now))) }
{
    let mut count = 0;
    'messages: for packed in messages {
        if is_copy(alloc, packed, tag, id)? {
            count += 1;
        }
    }
    Ok(count)
}

fn is_copy(alloc: Global, packed: &Packed, tag: &[u8], id: &[u8]) -> Result<bool, AllocError>
    ensures { IfOk result (λ is. (sender : Sender) → is ≡ (is_none (text_refusal packed.now.text) && same_key (key_of (received sender packed.now)) (ById tag.now id.now))) }
{
    match view_text(alloc, packed.text()) {
        Ok((view, _)) => Ok(is_of(view.tag.as_slice(), view.msgid(), tag, id)),
        Err(TextFault::NotEcho | TextFault::BadTag) => Ok(false),
        Err(_) => Err(AllocError),
    }
}

fn is_of(of: &[u8], msgid: Option<&[u8]>, tag: &[u8], id: &[u8]) -> bool
    ensures { result ≡ (bytes_eq of.now tag.now && unwrap_or (option_map (λ found. bytes_eq found id.now) (option_copied msgid.entry)) false) }
{
    match msgid {
        Some(found) => of == tag && found == id,
        None => false,
    }
}

pub(crate) fn is_posting(message: &Filed, tag: &[u8], id: &[u8]) -> bool
    ensures { IsTrue result → (IsPosting tag.now message.now × (key_of message.now ≡ ById tag.now id.now)) }
{
    let echo = &message.echo;
    match message.sender {
        None => is_of(echo.tag.as_slice(), echo.msgid(), tag, id),
        Some(_) => false,
    }
}
