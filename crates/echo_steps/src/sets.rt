//! Lists as sets: ascending, without repeats.
ghost use Rattle.std.specs.Prelude.{◌≡◌, ◌++◌, IfOk};
ghost use Rattle.echo_filed.specs.Sets.{address_set, entry_set};

use echo_addr::{Address, NetNode, put_in_order};
use std::alloc::{AllocError, Global};

pub(crate) fn entry_set(entries: Vec<NetNode>) -> Vec<NetNode>
    ensures { result.items ≡ entry_set entries.items }
{
    let mut set = entries;
    put_in_order(&mut set);
    set
}

/// The entries of both lists as a set. Two ascending lists are merged: what is between two added entries is copied at
/// once, and a list in order is not sorted again.
pub(crate) fn entry_union(
    alloc: Global,
    entries: &[NetNode],
    added: &[NetNode],
) -> Result<Vec<NetNode>, AllocError>
    ensures { IfOk result (λ set. set.items ≡ entry_set (entries.now ++ added.now)) }
{
    let mut all = Vec::with_capacity(alloc, entries.len().saturating_add(added.len()))?;
    let mut rest = entries;
    'each: for one in added {
        let (before, after) = rest.split_at(rest.partition_point(|entry| *entry < *one));
        all.extend_from_slice(before)?;
        all.push(*one)?;
        rest = after;
    }
    all.extend_from_slice(rest)?;
    Ok(entry_set(all))
}

pub(crate) fn address_set(addresses: Vec<Address>) -> Vec<Address>
    ensures { result.items ≡ address_set addresses.items }
{
    let mut set = addresses;
    put_in_order(&mut set);
    set
}
