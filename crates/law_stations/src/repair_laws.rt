//! Laws about repair of a net of stations over crashes. Each law is the contract of a function that does nothing.

ghost use Rattle.law_stations.specs.{Beside.HeadlineBesideRepairs, Repairs.{PacketsReach, RoundsBringAll, RoundsBringAllThere, RoundsEnd}};

/// In a round each station leaves a packet for each of its links: all that it has of the area, or all that a list of the
/// link does not name. These packets are tossed whole. Anything may stop a command meanwhile. From any disks on, n rounds
/// bring each message n links further, exactly once, along links that are in both files.
pub fn repairs_bring_all_there()
    ensures { RoundsBringAllThere }
{}

/// A packet that a station leaves in a round has reached its link once it was tossed whole: it has all that the station
/// had at the beginning of the round, but what the list names.
pub fn packets_of_repairs_reach()
    ensures { PacketsReach }
{}

/// If such links join the stations of an area, as many rounds as there are stations bring each message to each of them.
pub fn repairs_bring_all_everywhere()
    ensures { RoundsBringAll }
{}

/// If a round files nothing but new postings, each message was everywhere before it.
pub fn what_is_mended_is_everywhere()
    ensures { RoundsEnd }
{}

/// The headline over crashes beside repairs: let `check` have ended with 0 for the link files that the stations have now, and an
/// area. Whatever the disks have, each message of the area that none of them has, and that no repair sends, is in order.
pub fn new_messages_are_in_order_beside_repairs()
    ensures { HeadlineBesideRepairs }
{}
