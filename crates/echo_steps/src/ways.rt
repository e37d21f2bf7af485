//! The ways on which messages came. The messages of an area with the same sender, SEEN-BY and PATH have the same
//! receivers, and their copies have the same lists.
ghost use Rattle.std.specs.Prelude.{◌≡◌, false, true, ◌++◌, ◌∷◌, [], All, IsNone, IsTrue, IfOk, IfSome, map};
ghost use Rattle.std.specs.List.{flat_map};
ghost use Rattle.echo_addr.specs.Address.{net_node_of};
ghost use Rattle.echo_filed.specs.Sets.{address_set, entry_set};
ghost use Rattle.echo_text.specs.{Lines.area_word, Echo.ended};
ghost use Rattle.model_steps.specs.Scanning.{exported, targets};
ghost use Rattle.echo_steps.specs.{Exports.has_some, Ways.CameOn, Ways.CameOnOne, Ways.IsWay, Ways.list_lines};

use crate::outgoing::{links_of, targets};
use crate::sets::{entry_set, entry_union};
use echo_addr::{Address, Items, NetNode, push_path, push_seen};
use echo_filed::Filed;
use echo_links::LinkFile;
use echo_text::{Echo, push_line};
use std::alloc::{AllocError, Global};

/// A way: the sender, the tag and the entries of its messages; their receivers, and the lines of their copies.
#[derive(Drop)]
pub(crate) struct Way {
    pub(crate) sender: Option<Address>,
    pub(crate) tag: Items<u8>,
    pub(crate) seen: Items<NetNode>,
    pub(crate) path: Items<NetNode>,
    pub(crate) targets: Items<Address>,
    pub(crate) lines: Items<u8>,
}

/// How many ways a scan keeps.
const MOST_WAYS: usize = 16;

/// The number of the message's way, if it has receivers. A way that is not among those kept becomes the last of them.
#[tactic(auto, using(crate::proofs::SameWay::has_receivers))]
pub(crate) fn way_of(
    alloc: Global,
    links: &LinkFile,
    ways: &mut Vec<Way>,
    message: &Filed,
) -> Result<Option<usize>, AllocError>
    requires { All (IsWay links.now) ways.old.items }
    ensures none { IfOk result (λ found. IsNone found → has_some (address_set (targets links.now message.now)) ≡ false) }
    ensures found { IfOk result (λ found. IfSome found (CameOnOne ways.new.items message.now)) }
    ensures ways { All (IsWay links.now) ways.new.items }
{
    if let Some(at) = place_of(ways, message) {
        return Ok(Some(at));
    }
    let receivers = targets(alloc, links, message)?;
    if receivers.is_empty() {
        return Ok(None);
    }
    let way = new_way(alloc, links, message, receivers)?;
    if ways.len() >= MOST_WAYS {
        ways.clear();
    }
    let at = ways.len();
    ways.push(way)?;
    Ok(Some(at))
}

fn place_of(ways: &[Way], message: &Filed) -> Option<usize>
    ensures { IfSome result (CameOnOne ways.now message.now) }
{
    for (i, way) in ways.iter().enumerate() {
        if came_on(way, message) {
            return Some(i);
        }
    }
    None
}

fn came_on(way: &Way, message: &Filed) -> bool
    ensures { IsTrue result → CameOn way.now message.now }
{
    let echo = &message.echo;
    is_from(way.sender, message.sender)
        && same_bytes(way.tag.as_slice(), echo.tag.as_slice())
        && same_entries(way.seen.as_slice(), echo.seen.as_slice())
        && same_entries(way.path.as_slice(), echo.path.as_slice())
}

fn same_bytes(one: &[u8], other: &[u8]) -> bool
    ensures { IsTrue result → one.now ≡ other.now }
{
    one == other
}

fn same_entries(one: &[NetNode], other: &[NetNode]) -> bool
    ensures { IsTrue result → one.now ≡ other.now }
{
    one == other
}

fn is_from(one: Option<Address>, other: Option<Address>) -> bool
    ensures { IsTrue result → one ≡ other }
{
    match (one, other) {
        (Some(one), Some(other)) => one == other,
        (None, None) => true,
        _ => false,
    }
}

fn new_way(
    alloc: Global,
    links: &LinkFile,
    message: &Filed,
    receivers: Items<Address>,
) -> Result<Way, AllocError>
    requires receivers { receivers ≡ address_set (targets links.now message.now) }
    requires some { has_some receivers ≡ true }
    ensures came { IfOk result (λ way. CameOn way message.now) }
    ensures way { IfOk result (IsWay links.now) }
{
    let echo = &message.echo;
    let lines = lines_out(alloc, links, echo)?;
    Ok(Way {
        sender: message.sender,
        tag: Items::new(Vec::from_slice(alloc, echo.tag.as_slice())?),
        seen: Items::new(Vec::from_slice(alloc, echo.seen.as_slice())?),
        path: Items::new(Vec::from_slice(alloc, echo.path.as_slice())?),
        targets: receivers,
        lines: Items::new(lines),
    })
}

/// The SEEN-BY and PATH lines of the exported text.
pub(crate) fn lines_out(alloc: Global, links: &LinkFile, echo: &Echo) -> Result<Vec<u8>, AllocError>
    ensures { IfOk result (λ lines. lines.items ≡ list_lines (exported links.now echo.now)) }
{
    let own = links.system().net_node();
    let all = links_of(links, echo.tag.as_slice());
    let seen = joined(alloc, echo.seen.as_slice(), own, all)?;
    let path = path_with(alloc, echo.path.as_slice(), own)?;
    let mut lines = Vec::new(alloc);
    push_seen(&mut lines, seen.as_slice())?;
    push_path(&mut lines, &path)?;
    Ok(lines)
}

/// The text with these SEEN-BY and PATH lines. A scan holds many texts, so it has no spare room.
pub(crate) fn text_with(alloc: Global, echo: &Echo, lines: &[u8]) -> Result<Vec<u8>, AllocError>
    ensures { IfOk result (λ text. text.items ≡ ended (area_word ++ echo.now.tag) ++ (flat_map ended echo.now.kept ++ lines.now)) }
{
    let tag = echo.tag.as_slice();
    let kept = echo.kept.as_text();
    let room = kept.len().saturating_add(lines.len());
    let mut text = Vec::new(alloc);
    text.reserve_exact(
        room.saturating_add(tag.len())
            .saturating_add(AREA.len() + 1),
    )?;
    text.extend_from_slice(AREA)?;
    push_line(&mut text, tag)?;
    text.extend_from_slice(kept)?;
    text.extend_from_slice(lines)?;
    Ok(text)
}

const AREA: &[u8] = b"AREA:";

fn path_with(alloc: Global, path: &[NetNode], own: NetNode) -> Result<Vec<NetNode>, AllocError>
    ensures { IfOk result (λ all. all.items ≡ path.now ++ own ∷ []) }
{
    let mut all = Vec::with_capacity(alloc, path.len().saturating_add(1))?;
    all.extend_from_slice(path)?;
    all.push(own)?;
    Ok(all)
}

fn joined(
    alloc: Global,
    seen: &[NetNode],
    own: NetNode,
    links: &[Address],
) -> Result<Items<NetNode>, AllocError>
    ensures { IfOk result (λ set. set ≡ entry_set (seen.now ++ own ∷ map net_node_of links.now)) }
{
    let mut added = Vec::with_capacity(alloc, links.len().saturating_add(1))?;
    added.push(own)?;
    'links: for link in links {
        added.push(link.net_node())?;
    }
    let set = entry_union(alloc, seen, &entry_set(added))?;
    Ok(Items::new(set))
}
