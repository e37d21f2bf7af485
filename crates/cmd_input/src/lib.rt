//! The input of commands: files, their names, standard input, the clock and locks; and the progress line. The stamp of a
//! second is the one that the calendar gives it (`utc_stamp`, `clock_stamp`). All else is proved to be safe and to end, and
//! no more. Begin with `paths`, the names of files.
#![tactic(auto)]

mod clock;
mod inputs;
mod local;
mod locks;
mod moment;
mod paths;
mod progress;

pub use clock::{created_now, named_serial, named_stamp};
pub use inputs::{
    MAX_INPUT, MAX_TEXT_FILE, folder_fault, input_fault, output_fault, read_file, read_given,
    read_if_given, read_link_file, read_links, read_standard_input,
};
pub use locks::{BaseLock, LinkLock, lead_to_one, lock_file, locked_folder};
pub use moment::{clock_stamp, utc_stamp};
pub use paths::{PathName, PathNames, folder_path, path_names, text_path};
pub use progress::{ErasingOutput, Progress};
