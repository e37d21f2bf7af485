//! The files of the system: as a `Disk` that a crash may cut short, and read and written whole. Its state follows from
//! its calls and their answers; it is honest while each answer agrees with that state. That each noted call is the one
//! that was made has to be read, in `system`. Begin with `real_disk`; for whole files, with `reading` and `input`.
#![tactic(auto)]

mod input;
mod kept;
mod owned;
mod reading;
mod real_disk;
mod staging;
mod start;
mod system;
mod trace;
mod writing;

pub use input::{InputFault, read_whole};
pub use owned::Owned;
pub use reading::{open_regular, read_file};
pub use real_disk::RealDisk;
pub use staging::{
    Access, BY_UMASK, OWNER_ALONE, check_left, give_access, make_new, remove_left, replaced_access,
};
pub use start::{NoFiles, Start, Unknown};
pub use trace::{Call, Trace};
pub use writing::{
    NewFile, OutputFault, StagedFile, begin_file, create_file, drop_file, flush_folder, flush_path,
    name_file, parent_path, write_target,
};
