//! Where the packets of a scan go.
ghost use Rattle.std.specs.Prelude.{◌≡◌, ◌≤◌, All, IfErr, IfOk, OnOk, map};
ghost use Rattle.{disk_atomic.specs.StagingPaths.staging_path, echo_steps.specs.Counts.link_set};
ghost use Rattle.station_scan.specs.{Sending.{IsPlanned, IsSized, route_to, two_paths}, Stops.{IsUnplanned, most}};

use crate::pieces::ScanSource;
use crate::scan_error::ScanError;
use cmd_store::packet_name;
use disk_atomic::staging_path;
use echo_addr::{Address, Items};
use echo_links::LinkFile;
use echo_steps::link_set;
use station::system_name;
use std::alloc::{AllocError, Global};

/// The most scanned messages that the number in a packet's name can count: it is read back as four bytes.
const MOST: usize = 4_294_967_295;

/// The path of a packet, and its staging path before that.
#[derive(Drop)]
pub struct TwoPaths {
    pub path: Items<u8>,
    pub staging: Items<u8>,
}

/// Where the packet for a link goes.
#[derive(Drop)]
pub struct Route {
    pub to: Address,
    pub two: TwoPaths,
}

/// The system's name in staging paths, the path that is tried, and a route for each link.
#[derive(Drop)]
pub(crate) struct Plan {
    pub own: Items<u8>,
    pub trial: Items<u8>,
    pub routes: Items<Route>,
}

/// What the packets of a scan are made of, and where they go. The folder is a path that ends in a slash, or is empty.
#[derive(Clone, Copy)]
pub(crate) struct Sending<'p> {
    pub outbound: &'p [u8],
    pub own: &'p [u8],
    pub trial: &'p [u8],
    pub routes: &'p [Route],
    pub source: ScanSource<'p>,
}

/// The two paths of a packet of this name in this folder.
pub(crate) fn two_paths(
    alloc: Global,
    folder: &[u8],
    own: &[u8],
    name: &[u8],
) -> Result<TwoPaths, AllocError>
    ensures { IfOk result (λ two. two ≡ two_paths folder.now own.now name.now) }
{
    let mut path = Vec::from_slice(alloc, folder)?;
    path.extend_from_slice(name)?;
    let staging = staging_path(alloc, &path, own)?;
    Ok(TwoPaths {
        path: Items::new(path),
        staging: Items::new(staging),
    })
}

// Where the packet for the address goes.
fn route_to(
    alloc: Global,
    folder: &[u8],
    own: &[u8],
    from: usize,
    to: Address,
) -> Result<Route, AllocError>
    ensures route { IfOk result (λ route. route ≡ route_to folder.now own.now from to) }
    ensures sized { IsSized to }
{
    let name = packet_name(alloc, to, from)?;
    let two = two_paths(alloc, folder, own, &name)?;
    Ok(Route { to, two })
}

// Where the packets for these addresses go.
fn routes_to(
    alloc: Global,
    folder: &[u8],
    own: &[u8],
    from: usize,
    addresses: &[Address],
) -> Result<Vec<Route>, AllocError>
    ensures routes { IfOk result (λ all. all.items ≡ map (route_to folder.now own.now from) addresses.now) }
    ensures sized { IfOk result (λ all. All IsSized addresses.now) }
{
    let mut all = Vec::with_capacity(alloc, addresses.len())?;
    'addresses: for to in addresses {
        let route = route_to(alloc, folder, own, from, *to)?;
        all.push(route)?;
    }
    Ok(all)
}

/// Where the packets for all links go. It is `TooFar` if a packet's name does not count so many scanned messages.
pub(crate) fn plan_of<'a>(
    alloc: Global,
    links: &LinkFile,
    outbound: &[u8],
    from: usize,
) -> Result<Plan, ScanError<'a>>
    ensures plan { IfOk result (λ plan. IsPlanned links.now outbound.now from plan.own plan.trial plan.routes) }
    ensures within { OnOk result (from ≤ most) }
    ensures stop { IfErr result (IsUnplanned from) }
{
    if from > MOST {
        return Err(ScanError::TooFar);
    }
    let own = system_name(alloc, links)?;
    let trial = staging_path(alloc, outbound, &own)?;
    let addresses = link_set(alloc, links)?;
    let routes = routes_to(alloc, outbound, &own, from, &addresses)?;
    Ok(Plan {
        own: Items::new(own),
        trial: Items::new(trial),
        routes: Items::new(routes),
    })
}
