//! What becomes of a net: whether an area is in order (`check`, of echo_verdict), and a trial of events (FTS-0004).
//! `replay` runs them over the bytes of real packets and returns the world of the run of these events on these files, so
//! the laws of runs hold for it. Begin with `world` and `replaying`.
#![tactic(auto)]

mod happening;
mod laws;
mod receivers;
mod replay_progress;
mod replaying;
mod script;
mod world;

pub use echo_verdict::{Absence, NetFault, Verdict, check, listed};
pub use laws::replay_laws;
pub use model_run::Event;
pub use receivers::Receivers;
pub use replay_progress::{ReplayProgress, Unreported};
pub use replaying::{replay, replay_counted, replay_reported, replay_with};
pub use script::{ScriptFault, read_script};
pub use world::World;
