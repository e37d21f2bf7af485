//! The commands that change the base of a station, on the files of the system: `post`, `reply`, `toss`, `scan` and
//! `purge`. Promise: each word of `post` is the field of the message that it names (`new_message`). The rest is proved to
//! be safe and to end, and no more: the crates `station` and `station_scan` promise what a command reads and writes on any
//! disk. Begin with `commands`, which picks the command, then `place`, the locks and the base of a station.
//!
//! `opened` is work on an open base folder. `running` runs a command on a station. `posting` has the words of `post`,
//! `posting_jam` posts the messages of a JAM base, and `posting_mail` a mail. `changing`, `tossing` and `scanning` are the
//! commands by their words. `unplaced` reports the path at which a scan failed.
#![tactic(auto)]

mod changing;
mod commands;
mod opened;
mod place;
mod posting;
mod posting_jam;
mod posting_mail;
mod running;
mod scanning;
mod tossing;
mod unplaced;

pub use commands::run_station;
pub use posting::new_message;
