//! The commands of `echonet` that print the contents of files: functions from bytes to a sink for standard output. `show`
//! writes exactly its lines. The others have exact faults and statuses, and end well only if all was read and flushed;
//! their lines are tested. Begin with `showing` (a packet); each module is named for its command.
#![tactic(auto)]

mod area_counts;
mod before;
mod exporting;
mod faulty;
mod judged;
mod laws;
mod link_laws;
mod linking;
mod links_text;
mod listing;
mod nodelists;
mod showing;
mod tags;
mod words;

pub use area_counts::list_areas;
pub use exporting::{ExportQuery, export, tell_lost};
pub use faulty::FaultyLine;
pub use judged::{Judged, judge};
pub use laws::one_printing;
pub use link_laws::first_fault_is_reported_first;
pub use linking::{NamedFile, links};
pub use links_text::{fault_number, push_number};
pub use listing::{ListQuery, list};
pub use nodelists::nodelist;
pub use showing::show;
