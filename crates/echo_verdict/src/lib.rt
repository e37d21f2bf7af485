//! Checks an area of a net of systems that exchange echomail (FTS-0004): is it in order?
//!
//! Promise: `check` answers yes exactly where the area is tidy; then each new message of it is in order, from any state
//! on. A no names the first fault. `all_faults` lists every fault. `listed` answers just the carriers that
//! a nodelist does not hold.
//!
//! Begin with `checker` (the whole) and `verdict` (the answer and the faults). `area` has the systems and links
//! of an area, by `area_lists`, `link` and `searching`. `owners`, `first_links` and `same_net_node` decide by
//! sorted addresses, `link_faults` takes the first of their faults, `each_fault` all of them. `joining`,
//! `rows` and `graph_faults` check the net as a graph. `presence` compares carriers with a nodelist, `drawing` draws an area.
#![tactic(auto)]

mod area;
mod area_lists;
mod checker;
mod drawing;
mod each_fault;
mod first_links;
mod graph_faults;
mod joining;
mod link;
mod link_faults;
mod owners;
mod presence;
mod rows;
mod same_net_node;
mod searching;
mod verdict;

pub use area_lists::{carriers, links, systems};
pub use checker::{check, check_area, shared_system};
pub use drawing::{
    Crossing, Drawing, DrawnLink, DrawnSystem, Mark, Sides, back, draw, has_address, has_link,
};
pub use each_fault::{all_faults, further};
pub use link::Link;
pub use presence::{Absence, listed};
pub use rows::outgoing_links;
pub use searching::place;
pub use verdict::{NetFault, Verdict};
