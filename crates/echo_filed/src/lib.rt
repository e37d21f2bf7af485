//! A filed message: its key, which makes two messages one, its stub, which a purge leaves, and its bytes in a base
//! file. Two keys are equal exactly where their test says so. A purge keeps keys. A written text is read back. Begin
//! with `filed` and `key`.
#![tactic(auto)]

mod boxed;
mod field;
mod filed;
mod key;
mod laws;
mod numbers;
mod sending;
mod stored;
mod stub;

pub use boxed::{Boxed, BoxedLines};
pub use field::read_long;
pub use filed::Filed;
pub use key::{Key, by_id};
pub use laws::{key_law, set_law, stub_laws, text_laws};
pub use numbers::long_bytes;
pub use sending::{Unsent, is_short, is_short_enough, send_message};
pub use stored::{StoredMessage, StoredRoom, Version, has_tag, read_stored};
pub use stub::{is_stub, leave, lines_of_id, stub_lines};
