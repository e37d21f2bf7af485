//! The link files of a net in which some systems sent none, or some systems are left out, and the parts of an area.
//!
//! Promise: a supposed system lists exactly those who list it (`IsSupposedFile`). What is left of the files names no left out
//! system (`texts_left`). `cut_parts` returns exactly the parts of an area but the largest (`AreCutOff`).
//!
//! Begin with `supposed_files`: which systems are supposed, and their files. `leaving` has what is left of files. `assuming`
//! has words and lines. `listing` has the systems that an area lists, and `parts` its parts.
#![tactic(auto)]

mod assuming;
mod leaving;
mod listing;
mod parts;
mod supposed_files;

pub use assuming::{is_carried, push_assumed_lines, push_links, push_notes};
pub use leaving::{files_left, first_unknown, first_unknown_address, is_judged};
pub use listing::Listing;
pub use parts::cut_parts;
pub use supposed_files::{
    Supposed, SupposedAreas, SupposedHere, listings, one_tag, push_unseen_line, read_supposed,
    suppose, supposed_here, supposed_systems, unseen,
};
