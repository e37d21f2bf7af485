//! How a fault of an area would show: a posting to try, with the scans and deliveries after it. A plan is made by rule
//! of thumb, and by addresses alone; the caller tries it on real packets. The crate is proved to be safe and to end,
//! and no more. Begin with `plan` (the result) and `planning`.
#![tactic(auto)]

mod area;
mod circle;
mod needed;
mod plan;
mod planning;
mod sets;
mod sketch;

pub use plan::{Guess, Move, Plan};
pub use planning::{find_any_plan, find_plan};
