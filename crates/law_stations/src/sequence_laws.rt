//! Laws about steps at stations. Each law is the contract of a function that does nothing.

ghost use Rattle.law_stations.specs.{Asked.CommandsGoOn, Scanned.ScansGoOn, Scanned.TossesGoOn, Seats.either, Sequences.HeadlineFromAnySequences, Sequences.SequencesAreAmong};

use disk_atomic::ListStaged;
use disk_io::Disk;
use station::OpenStation;

/// Stations of two kinds are on disks, and several may share one. Commands run at them, and crashes cut these or come
/// between them. At the end the disks show what these commands may lead a net to: bases, link files and packets.
pub fn sequences_are_among<'a, D: Disk, P: OpenStation<'a, D>, O: OpenStation<'a, D>>()
    ensures { SequencesAreAmong D.state (either P.place O.place) }
{}

/// A command that does on the disk what its event may do is such a step, whatever crash cuts it: the contracts of
/// law_stations say so. It is a step if it ended well, or met a fault and left the station as it was. Then its base must
/// be synced if others share the disk.
pub fn commands_continue<'a, D: Disk, P: OpenStation<'a, D>, O: OpenStation<'a, D>>()
    ensures { CommandsGoOn D.state (either P.place O.place) }
{}

/// Of a toss that ended well: the packets that it tossed whole are delivered.
pub fn tosses_continue<'a, D: Disk, P: OpenStation<'a, D>, O: OpenStation<'a, D>>()
    ensures { TossesGoOn D.state (either P.place O.place) }
{}

/// Of a scan: whatever crash cuts it, if it ends well, and if it leaves the station as it was.
pub fn scans_continue<'a, D: Disk, P: OpenStation<'a, D>, O: OpenStation<'a, D>, G: ListStaged>(
    _listing: &G,
)
    ensures { ScansGoOn D.state (either P.place O.place) (G.is_true _listing.now) }
{}

/// The headline over sequences from any state on, for new messages: after any steps the disks show a net in which each
/// message of the area is in order that nothing on them had at first. All files that had packets' names are its packets.
pub fn new_messages_are_in_order_over_sequences<
    'a,
    D: Disk,
    P: OpenStation<'a, D>,
    O: OpenStation<'a, D>,
>()
    ensures { HeadlineFromAnySequences D.state (either P.place O.place) }
{}
