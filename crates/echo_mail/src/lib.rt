//! Mail messages (RFC 5322), read for posting. Each function is safe and ends; that it reads what the standards say is
//! tested (mails.cases). Begin with `mail` (a parsed mail) and `body` (its text).
#![tactic(auto)]

mod area;
mod body;
mod content;
mod encoded;
mod ends;
mod fault;
mod head;
mod mail;
mod mailbox;
mod msgid;
mod quoted;
mod transfer;

pub use area::named_area;
pub use body::{body_text, field_value};
pub use encoded::decoded_words;
pub use fault::MailFault;
pub use head::Field;
pub use mail::{Mail, read_mail};
pub use mailbox::person_name;
pub use msgid::exported_id;
