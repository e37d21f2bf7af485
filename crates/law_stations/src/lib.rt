//! Laws about nets of stations: their commands make of their bases a run of systems. There is little code, since each
//! law is the contract of a function that does nothing.
//!
//! Promise: a net of stations keeps what the model promises (`laws`). If crashes stop commands, the disks show what
//! they would show without crashes (`crash_laws`). One station alone keeps its part, whatever bytes `toss` gets
//! (`lone_laws`). Rounds of repair bring each message everywhere, over crashes too (`repair_laws`).
//!
//! Begin with specs/: `Nets` (stations, packet files) and `Commands` (the effect of a command on them). `Agreement`
//! says when a net and a run agree, `InOrder` is the promise about a net. `Repairs` has packets of repairs, and rounds.
//!
//! For crashes, `Disks` has files under their names, and staging files. `Stopping` says how far a command gets, `CanEnd`
//! treats the files of stopped scans, and `OverCrashes` is the promise about the disks. For one station: `LoneStations`
//! and `AloneInOrder`, and with crashes `LoneDisks` and `AloneOverCrashes`. `LoneNets` joins them to disks. `LoneEpochs`
//! begins with any base, and has link files that change.
//!
//! For commands on disks: a crash leaves of a command what the law over crashes allows (`commands`, `scanning`,
//! `disk_laws`). After any steps of a sequence, the disks show a net of the headline over crashes (`sequence_laws`).
//!
//! Begin with specs/. `DiskKinds` says which command events a command may be. `OnDisks` says that a link file and a base
//! on a disk are those of a station; `Scans` adds the packets of a scan. `PacketNames` has the folder of packets as the
//! net has it, and `ShownPackets` the packet files of `toss`. `Neighbours` has other stations on the same disk. Then read
//! `Seats` (stations on disks), `Steps` (the effect of a step), `Asked` and `Scanned` (which steps commands are), and
//! `Sequences` (the promise).
#![tactic(auto)]

mod commands;
mod crash_laws;
mod disk_laws;
mod laws;
mod lone_laws;
mod repair_laws;
mod scanning;
mod sequence_laws;

pub use commands::{mail_as_may, post_as_may, purge_as_may, reply_as_may, toss_as_may};
pub use crash_laws::{
    crashes_are_none, left_packets_can_end, loops_lose_nothing_over_crashes,
    nets_are_sound_over_crashes, new_messages_are_in_order_over_crashes,
    whole_commands_are_among_them,
};
pub use disk_laws::{others_stay, shown_packets_are_known};
pub use laws::{
    command_is_events, commands_are_a_run, nets_are_sound, new_messages_are_in_order,
    tosses_answer_what_stopped_them, tosses_are_what_is_known, tosses_that_file_none,
};
pub use lone_laws::{
    faultless_tosses_are_whole, lone_stations_are_in_order,
    lone_stations_are_in_order_over_crashes, lone_stations_are_in_order_over_sequences,
    lone_stations_go_on, nets_of_one_station_are_in_order, what_lone_stations_show_stays,
    what_lone_stations_show_stays_over_crashes,
};
pub use repair_laws::{
    new_messages_are_in_order_beside_repairs, packets_of_repairs_reach,
    repairs_bring_all_everywhere, repairs_bring_all_there, what_is_mended_is_everywhere,
};
pub use scanning::scan_as_may;
pub use sequence_laws::{
    commands_continue, new_messages_are_in_order_over_sequences, scans_continue,
    sequences_are_among, tosses_continue,
};
