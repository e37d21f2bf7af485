//! The commands that read a base and change none: `list`, `export`, `convert` and `resend`, on the files that their
//! words name. They are proved to be safe and to end, and no more. The crates that they call promise what they print
//! and write. Begin with `commands`.
#![tactic(auto)]

mod bases;
mod commands;
mod converting;
mod files;
mod repairing;
mod resending;
mod stored;

pub use commands::run_base;
