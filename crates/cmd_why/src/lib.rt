//! The commands of `echonet` that try a net out: why an area is not in order, and what a script of events does.
//!
//! Promise: a run that `why` prints is one on the link files, and does the harm that it names. `replay` prints what the
//! net holds after just these events. A command refuses an input exactly if that has the fault.
//!
//! A plan of `model_plan` is tried on real packets; no clause says that a run is found. Begin with `explaining` (a run that
//! does harm) and `shown` (the result). `reasoning`, `why_text` and `who_text` (`why`) print the run, and name the systems in
//! it. `picturing_why` (`picture --why`) draws it. `replaying` and `replay_text` (`replay`) print the results of a script.
#![tactic(auto)]

mod carrying;
mod confirming;
mod copies;
mod events;
mod explaining;
mod judging;
mod laws;
mod picturing_why;
mod reasoning;
mod replay_text;
mod replaying;
mod shown;
mod sources;
mod who_text;
mod why_text;

pub use laws::shown_runs_break_the_promise;
pub use picturing_why::picture_why;
pub use reasoning::{Wanted, why};
pub use replaying::replay;
pub use shown::{Harm, Shown};
