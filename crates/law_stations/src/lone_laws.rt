//! Laws about the definitions. Each law is the contract of a function that does nothing.

ghost use Rattle.law_stations.specs.{AloneInOrder.AloneIsInOrder, AloneInOrder.AloneStays, AloneInOrder.FaultlessTossIsWhole, AloneOverCrashes.AloneIsInOrderOverCrashes, AloneOverCrashes.AloneStaysOverCrashes, LoneEpochs.AloneGoesOn, LoneNets.LoneSequencesAreInOrder, LoneNets.NetOfOneIsInOrder, Seats.either};

use disk_io::Disk;
use station::OpenStation;

/// Let any commands be run on one station that begins with an empty base, and let `toss` get any files.
/// Commands may be refused, and memory and devices may fail. The base has each message at most once, and
/// exactly those that were posted or came from a link of their area. Over all packet files each address is sent
/// each message at most once. It is a link of the area, did not send the message, and was not in its SEEN-BY.
pub fn lone_stations_are_in_order()
    ensures { AloneIsInOrder }
{}

/// Whatever commands are run later, each message stays at its place in the base, unchanged or as its stub, and
/// no packet file is removed.
pub fn what_lone_stations_show_stays()
    ensures { AloneStays }
{}

/// A toss without a fault has tossed the packets of all its files whole: their messages from links of their
/// area are in the base.
pub fn faultless_tosses_are_whole()
    ensures { FaultlessTossIsWhole }
{}

/// Let any commands be run on one station that begins with an empty base, whatever stops them, and let `toss`
/// get any files. The base and the packets of all scans that moved the cursor are in order, as without crashes.
/// Each of these packets has its name or will get it by the next scan. Nothing else has such a name.
pub fn lone_stations_are_in_order_over_crashes()
    ensures { AloneIsInOrderOverCrashes }
{}

/// Whatever commands are run later, and whatever stops them, each message stays at its place in the base,
/// unchanged or as its stub. No packet file loses its name.
pub fn what_lone_stations_show_stays_over_crashes()
    ensures { AloneStaysOverCrashes }
{}

/// Let the station begin with any base, as one that moved in with its old one, and let its link file change between commands.
/// The base has each message at most once, and all postings. Since it had the first base, each address was sent each message
/// at most once, and none that had been scanned before.
pub fn lone_stations_go_on()
    ensures { AloneGoesOn }
{}

/// Let the packet files of a net of one station begin with all files of others that it will ever toss. Whatever commands run,
/// and whatever stops them, the disks of the net without these files are those of a station alone, in order.
pub fn nets_of_one_station_are_in_order()
    ensures { NetOfOneIsInOrder }
{}

/// So it is after any steps at one station on a disk: commands that end or that a crash cuts, crashes between them, and
/// changes by others. All files that had packets' names in its folder are packets of that net.
pub fn lone_stations_are_in_order_over_sequences<
    'a,
    D: Disk,
    P: OpenStation<'a, D>,
    O: OpenStation<'a, D>,
>()
    ensures { LoneSequencesAreInOrder D.state (either P.place O.place) }
{}
