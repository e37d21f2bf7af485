//! A message that is to be posted.

use echo_addr::Items;

/// A message to be posted: names, subject, the id of the message that it replies to or no bytes, and a body
/// with lines that end in 0D. Posting refuses a name over 35 bytes, a subject over 71 and a 00 anywhere.
#[derive(Debug, Drop)]
pub struct Draft {
    pub to_name: Items<u8>,
    pub from_name: Items<u8>,
    pub subject: Items<u8>,
    pub reply: Items<u8>,
    pub body: Items<u8>,
}
