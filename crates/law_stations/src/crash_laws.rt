//! Laws about the definitions. Each law is the contract of a function that does nothing.

ghost use Rattle.law_stations.specs.{AnyDisks.HeadlineFromAnyDisks, AnyDisks.NoneIsLostFromAnyDisks, CanEnd.LeftCanEnd, OverCrashes.CrashesAreNone, OverCrashes.SoundOverCrashes, OverCrashes.WholeAreAmong};

/// Whatever stops commands at any time, the disks have the bases and postings of a net with such commands, all
/// of them whole. Each of its packets has its name, or is a staging file that the next scan of its station
/// will name. Nothing else has the name of a packet.
pub fn crashes_are_none()
    ensures { CrashesAreNone }
{}

/// The staging files of a station's stopped scans can be finished. So the laws on scans, which begin after
/// that, always have disks to begin from.
pub fn left_packets_can_end()
    ensures { LeftCanEnd }
{}

/// The effects of commands without a stop are among the possible effects: all packets of a scan get their
/// names.
pub fn whole_commands_are_among_them()
    ensures { WholeAreAmong }
{}

/// On stations of different addresses, checked or not, whatever stops commands: each packet file with a name is
/// a packet. Each base has each message at most once, and only messages that were posted, unchanged unless they
/// were purged.
pub fn nets_are_sound_over_crashes()
    ensures { SoundOverCrashes }
{}

/// The headline over crashes from any state on, for new messages. Let `check` have ended with 0 for the link files that the
/// stations have now, and an area. Whatever bases, packet files and staging files the disks have, each message of the area
/// that none of them has is in order once it is posted.
pub fn new_messages_are_in_order_over_crashes()
    ensures { HeadlineFromAnyDisks }
{}

/// The same if the links have loops and no other fault, as after a V8 of `check`: a message may then be sent more than once,
/// but none is lost, and no base has one twice.
pub fn loops_lose_nothing_over_crashes()
    ensures { NoneIsLostFromAnyDisks }
{}
