//! Is an area of a net in order?

ghost use Rattle.std.specs.Prelude.{◌≡◌, ◌↔◌, IfOk};
ghost use Rattle.model_run.specs.{AnyState.NewMessagesAreInOrder, Tidy.Tidy};
ghost use Rattle.echo_verdict.specs.{Faults.{EveryRunIsOrderly, IfNo, IfYes, IsFirstFault, IsSharedSystem, IsYes}, Nets.{carrier_count, linked_pairs}};

use crate::area::{AreaGraph, collect_area};
use crate::area_lists::systems;
use crate::graph_faults::{area_graph, graph_fault};
use crate::link_faults::link_fault;
use crate::owners::shared_address;
use crate::verdict::Verdict;
use echo_addr::Address;
use echo_links::LinkFile;
use model_run::{every_run_of_a_tidy_area_is_orderly, new_messages_are_in_order};
use std::alloc::{AllocError, Global};

/// Is the area of this tag in order, on the net of these link files (FTS-0004)? Tags are compared byte
/// for byte. Fails only when out of memory.
///
/// At `Yes` every run from empty bases is orderly, for every list of events (clause *headline*). And each new message of the
/// area is in order, from any state of the bases and packets on, whose ids no base and no packet has (clause *orderly*). After
/// any postings, scans, deliveries, stopped tosses and purges, with losses and repeats and in any order, each system filed it
/// at most once. It was sent it at most once, and never if it posted it. When nothing with its id waits for a scan and every
/// packet with it came, each system of the area has filed it exactly once, unchanged.
///
/// A `No` has the first fault in the order of `NetFault`, with the smallest addresses.
///
/// Takes about the time of sorting the links, and where the only fault is a loop that of a few searches of the net.
pub fn check(alloc: Global, files: &[LinkFile], tag: &[u8]) -> Result<Verdict, AllocError>
    ensures tidy { IfOk result (λ verdict. IsYes verdict ↔ Tidy files.now tag.now) }
    ensures counted { IfOk result (λ verdict. IfYes verdict (λ systems links.
        (systems ≡ carrier_count files.now tag.now) × (links ≡ linked_pairs files.now tag.now))) }
    ensures orderly { IfOk result (λ verdict. IsYes verdict → NewMessagesAreInOrder files.now tag.now) }
    ensures headline { IfOk result (λ verdict. IsYes verdict → EveryRunIsOrderly files.now tag.now) }
    ensures first { IfOk result (λ verdict. IfNo verdict (IsFirstFault files.now tag.now)) }
{
    let shared = shared_system(alloc, files)?;
    check_area(alloc, files, shared, tag)
}

/// The smallest address that two of the files have. Fails only when out of memory.
pub fn shared_system(alloc: Global, files: &[LinkFile]) -> Result<Option<Address>, AllocError>
    ensures { IfOk result (IsSharedSystem files.now) }
{
    let systems = systems(alloc, files)?;
    shared_address(alloc, &systems)
}

/// The answer of `check`, where the address that two of the files share is known: for many areas it is found
/// only once.
pub fn check_area(
    alloc: Global,
    files: &[LinkFile],
    shared: Option<Address>,
    tag: &[u8],
) -> Result<Verdict, AllocError>
    requires { IsSharedSystem files.now shared }
    ensures tidy { IfOk result (λ verdict. IsYes verdict ↔ Tidy files.now tag.now) }
    ensures counted { IfOk result (λ verdict. IfYes verdict (λ systems links.
        (systems ≡ carrier_count files.now tag.now) × (links ≡ linked_pairs files.now tag.now))) }
    ensures orderly { IfOk result (λ verdict. IsYes verdict → NewMessagesAreInOrder files.now tag.now) }
    ensures headline { IfOk result (λ verdict. IsYes verdict → EveryRunIsOrderly files.now tag.now) }
    ensures first { IfOk result (λ verdict. IfNo verdict (IsFirstFault files.now tag.now)) }
{
    let area = collect_area(alloc, files, tag)?;
    let AreaGraph {
        carriers,
        links,
        systems,
        pairs,
    } = area;
    let wrong_link = link_fault(alloc, files, shared, tag, &carriers, &links)?;
    if let Some(fault) = wrong_link {
        return Ok(Verdict::No(fault));
    }
    let graph = area_graph(alloc, &carriers, &links)?;
    let wrong_graph = graph_fault(alloc, files, tag, &carriers, &graph)?;
    match wrong_graph {
        Some(fault) => Ok(Verdict::No(fault)),
        None => {
            // The laws for the clauses on new messages and on whole runs.
            new_messages_are_in_order();
            every_run_of_a_tidy_area_is_orderly();
            Ok(Verdict::Yes {
                systems,
                links: pairs as u128,
            })
        }
    }
}
