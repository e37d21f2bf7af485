//! The notes on the faults of an area, each once. An area is judged again, on the files that were read for its answer.

use crate::note_words::{
    NotSeen, Place, push_apart, push_given_twice, push_loop, push_no_such_area, push_not_seen,
    push_one_sided, push_same_net_node, push_self_link, push_two_files, push_unknown,
};
use crate::placing::NotedNet;
use cmd_status::print_rest;
use disk_io::Sink;
use echo_addr::Address;
use echo_links::LinkFile;
use echo_verdict::{NetFault, Verdict, all_faults, further};
use std::alloc::{AllocError, Global};
use std::collections::BTreeSet;

/// Which faults of an area have notes: each, or that of this number. The number of the first one is 0.
#[derive(Clone, Copy, PartialEq, Eq)]
pub(crate) enum Shown {
    Each,
    One(usize),
}

impl Shown {
    fn has(self, number: usize) -> bool {
        match self {
            Shown::Each => true,
            Shown::One(only) => only == number,
        }
    }
}

/// An area that is judged again: a yes, or a no, or one that no system is left of. A V7 may be among its notes.
#[derive(Clone, Copy, PartialEq, Eq)]
pub(crate) enum Found {
    Yes,
    Apart,
    Other,
}

/// The lines of the notes.
#[derive(Drop)]
pub(crate) struct Notes {
    pub(crate) alloc: Global,
    lines: Vec<u8>,
    told: BTreeSet<Vec<u8>>,
}

impl Notes {
    pub(crate) fn new(alloc: Global) -> Notes {
        Notes {
            alloc,
            lines: Vec::new(alloc),
            told: BTreeSet::new(alloc),
        }
    }

    pub(crate) fn print<E: Sink>(&mut self, errors: &mut E) {
        let _ = print_rest(&mut self.lines, errors);
    }

    /// Judges the area on the files that are left of the net, and adds the notes on its faults.
    pub(crate) fn add_area(
        &mut self,
        net: &NotedNet<'_>,
        left: &[LinkFile],
        tag: &[u8],
        shown: Shown,
    ) -> Result<Found, AllocError> {
        let verdict = echo_verdict::check(self.alloc, left, tag)?;
        match &verdict {
            Verdict::Yes { .. } => Ok(Found::Yes),
            Verdict::No(first) => {
                let found = self.add_numbered(net, tag, shown, 0, first)?;
                if shown == Shown::One(0) {
                    return Ok(found);
                }
                let all = all_faults(self.alloc, left, tag)?;
                let others = self.add_further(net, tag, shown, further(&all, &verdict))?;
                Ok(worse(found, others))
            }
        }
    }

    fn add_further(
        &mut self,
        net: &NotedNet<'_>,
        tag: &[u8],
        shown: Shown,
        faults: &[NetFault],
    ) -> Result<Found, AllocError> {
        let mut found = Found::Other;
        for (i, fault) in faults.iter().enumerate() {
            let one = self.add_numbered(net, tag, shown, i.saturating_add(1), fault)?;
            found = worse(found, one);
        }
        Ok(found)
    }

    // Adds the note on the fault of this number, if it is shown.
    fn add_numbered(
        &mut self,
        net: &NotedNet<'_>,
        tag: &[u8],
        shown: Shown,
        number: usize,
        fault: &NetFault,
    ) -> Result<Found, AllocError> {
        if !shown.has(number) {
            return Ok(Found::Other);
        }
        let mut note = Vec::new(self.alloc);
        push_fault(&mut note, net, tag, fault)?;
        self.add(note)?;
        match fault {
            NetFault::Apart(_, _) => Ok(Found::Apart),
            _ => Ok(Found::Other),
        }
    }

    pub(crate) fn add_not_seen(&mut self, what: NotSeen) -> Result<(), AllocError> {
        let mut note = Vec::new(self.alloc);
        push_not_seen(&mut note, what)?;
        self.add(note)
    }

    fn add(&mut self, note: Vec<u8>) -> Result<(), AllocError> {
        if note.is_empty() || self.told.contains(note.as_slice()) {
            return Ok(());
        }
        self.lines.extend_from_slice(b"echonet: note: ")?;
        self.lines.extend_from_slice(&note)?;
        self.lines.push(b'\n')?;
        self.told.insert(note)?;
        Ok(())
    }
}

fn worse(one: Found, other: Found) -> Found {
    if other == Found::Apart { other } else { one }
}

fn push_fault(
    note: &mut Vec<u8>,
    net: &NotedNet<'_>,
    tag: &[u8],
    fault: &NetFault,
) -> Result<(), AllocError> {
    match fault {
        NetFault::NoSuchArea => push_no_such_area(note, tag),
        NetFault::TwoFiles(system) => push_both(note, net, *system),
        NetFault::SelfLink(system) => {
            push_self_link(note, net.listing(tag, *system, *system), *system)
        }
        NetFault::Unknown(from, to) => {
            push_unknown(note, net.listing(tag, *from, *to), *from, *to, tag)
        }
        NetFault::OneSided(from, to) => {
            let back = net.carrying(tag, *to);
            push_one_sided(note, net.listing(tag, *from, *to), back, *from, *to)
        }
        NetFault::SameNetNode(one, other) => push_same_net_node(note, *one, *other),
        NetFault::Apart(one, other) => push_apart(note, *one, *other),
        NetFault::Loop(round) => push_round(note, net, tag, round.as_slice()),
    }
}

fn push_both(note: &mut Vec<u8>, net: &NotedNet<'_>, system: Address) -> Result<(), AllocError> {
    let Some((one, other)) = net.both(system) else {
        return Ok(());
    };
    if is_same(one, other) {
        push_given_twice(note, one)
    } else {
        push_two_files(note, one, other, system)
    }
}

fn is_same(one: Place<'_>, other: Place<'_>) -> bool {
    match (one, other) {
        (Place::File(path), Place::File(another)) => path == another,
        (Place::Assumed(_), Place::Assumed(_)) => true,
        _ => false,
    }
}

fn push_round(
    note: &mut Vec<u8>,
    net: &NotedNet<'_>,
    tag: &[u8],
    round: &[Address],
) -> Result<(), AllocError> {
    match unlinked_pair(net, tag, round) {
        Some((one, other)) => push_loop(note, round, one, other),
        None => Ok(()),
    }
}

// The first two systems of the loop that are not linked. Who is linked with all that follow is so with all before, since links
// go both ways.
fn unlinked_pair(net: &NotedNet<'_>, tag: &[u8], round: &[Address]) -> Option<(Address, Address)> {
    for one in round {
        for other in round {
            if one != other && !net.is_linked(tag, *one, *other) {
                return Some((*one, *other));
            }
        }
    }
    None
}
