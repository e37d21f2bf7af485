//! The commands of `echonet` that judge an area of a net or draw it. They are functions from bytes to a sink for
//! standard output. Each returns its status or a fault, and writes no file.
//!
//! The contract for the program: a command that ends well wrote only its lines, and a 0 of `check` holds for every
//! run on these link files. A command refuses an input exactly if that has the fault. Standard output failed exactly
//! if the result says so.
//!
//! The crate `cmd_print` has the lines of a verdict or a drawing, and `cmd_status` how a command ends.
//!
//! Begin with `checking` (`check`: is an area in order). `further_text` has the lines of `check --more`. `area_tags`
//! (which areas there are) and `checking_all` are for `check --all`. `supposing` judges nets with supposed and left out
//! systems, by `supposed_areas`. `picturing` (`picture`) draws an area as a graph, and `picturing_parts` what is left of
//! it. The crate `cmd_suppose` has the link files of such nets.
#![tactic(auto)]

mod area_tags;
mod checking;
mod checking_all;
mod further_text;
mod picturing;
mod picturing_parts;
mod supposed_areas;
mod supposing;

pub use checking::{Besides, check, check_status};
pub use checking_all::check_all;
pub use picturing::{picture, print_picture};
pub use picturing_parts::picture_remaining;
pub use supposed_areas::print_supposed;
pub use supposing::{Judged, check_supposing};
