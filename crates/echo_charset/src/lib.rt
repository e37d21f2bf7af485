//! Texts for people: charsets of message texts, and bytes and words that are escaped for printing. Each byte of a
//! single-byte charset decodes to its character in the published table; a byte without one becomes U+FFFD. Encoded
//! bytes decode to the same text. No byte of a message steers a terminal. Begin with `charset`; for printing with
//! `bytes` and `word`.
#![tactic(auto)]

mod bytes;
mod charset;
mod counting;
mod encoding;
mod formatting;
mod tables;
mod word;

pub use bytes::push_escaped;
pub use charset::Charset;
pub use counting::lost;
pub use formatting::written;
pub use word::{are_shown, is_shown, push_word};
