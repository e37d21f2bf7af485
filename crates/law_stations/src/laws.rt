//! Laws about the definitions. Each law is the contract of a function that does nothing.

ghost use Rattle.std.specs.Prelude.{◌≡◌, Bool, List, Ok, Option};
ghost use Rattle.{base_file.specs.Base.Base, echo_links.specs.Links.LinkFile};
ghost use Rattle.{echo_packet.specs.declared.limits.Limits.Limits, cmd_status.specs.{Devices.{Output, device_of}, declared.fault.Fault.Fault}};
ghost use Rattle.{cmd_store.specs.{Coming.Coming, Tossed.{Tosses, TossesTo}}, law_stations.specs.{Agreement.{EventIsEvents, EventsAreARun}, Commands.TossesAll}};
ghost use Rattle.law_stations.specs.{AnyNets.HeadlineFromAnyState, InOrder.NetsAreSound, Tallied.TossesFileNone};

use cmd_store::PacketFiles;

/// `toss` of files that are honest at the end does the same over any readers as over the known bytes of them: the same
/// fault stops it, and the same files remain.
pub fn tosses_are_what_is_known<'a, F: PacketFiles<'a>>(_files: &F)
    ensures { F.is_honest _files.now → (noting : Bool) (limits : Limits) (file : LinkFile) (files : List Coming) (base next : Base) →
        (toss : Tosses (F.is_honest _files.now) noting limits (device_of F.Reader.remaining F.Reader.failures) file files base next) →
        (known : TossesAll files file base next) × (known.stopped ≡ toss.stopped) × (known.left ≡ toss.left) }
{}

/// The answer of `toss`, if its store did not fail, is the fault that stopped it.
pub fn tosses_answer_what_stopped_them<'a, F: PacketFiles<'a>>(_files: &F)
    ensures { F.is_honest _files.now → (noting : Bool) (limits : Limits) (file : LinkFile) (files left : List Coming) (base next : Base) (old new : Output) (answer : Option Fault) →
        TossesTo (F.is_honest _files.now) noting limits (device_of F.Reader.remaining F.Reader.failures) file base files left old new (Ok answer) next →
        (known : TossesAll files file base next) × (known.stopped ≡ answer) × (known.left ≡ left) }
{}

/// If a toss of a packet, whole or in part, counts no filed message, its base is as before.
pub fn tosses_that_file_none()
    ensures { TossesFileNone }
{}

/// A command at one station of a net is some events of the run that agrees with the net. They are none, a
/// posting, a scan, a purge, or for each tossed packet a delivery, which may have stopped inside.
pub fn command_is_events()
    ensures { EventIsEvents }
{}

/// Let any commands be run on stations that begin with empty bases: refused ones, faulty packets, refused
/// memory and failing devices included. Then the net agrees with some run. Each base is a system's, the packet
/// files are the bytes of the packets, and the same packets were delivered.
pub fn commands_are_a_run()
    ensures { EventsAreARun }
{}

/// Let any commands be run on stations of different addresses, checked or not. Each packet file is a packet,
/// and each base has each message at most once. It has only messages that were posted, unchanged unless they
/// were purged.
pub fn nets_are_sound()
    ensures { NetsAreSound }
{}

/// The headline from any state of a net on, for new messages. Let `check` have ended with 0 for the link files that the
/// stations have now, and an area. Whatever bases and packet files there are, each message of the area that none of them
/// has and that is posted from then on is in order.
pub fn new_messages_are_in_order()
    ensures { HeadlineFromAnyState }
{}
