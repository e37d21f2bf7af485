//! JAM bases on the files of the system: `export --jam` adds messages to one, and an `Outbox` has the messages of one
//! that `post --jam` posts. Both are proved to be safe and to end, and no more. echo_jam promises the bytes of each
//! file. Begin with `jam` and `outbox`.
#![tactic(auto)]

mod contents;
mod jam;
mod locked;
mod named;
mod outbox;
mod texts;

pub use jam::run_export_jam;
pub use outbox::{Outbox, OutboxMessage};
