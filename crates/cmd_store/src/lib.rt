//! The commands that change a base, on any store: `post`, `post --mail` (RFC 5322), `reply`, `purge` and `toss`; and
//! the lines of `scan`. Each is a `StoreCommand`: it prints just its lines or returns just its fault. A crash leaves
//! the base that was committed before, or the one that the command makes.
#![tactic(auto)]

mod answering;
mod charset_line;
mod coming;
mod command;
mod command_error;
mod drafting;
mod fault;
mod leaving;
mod letter;
mod lines;
mod mail_posting;
mod mailed;
mod note;
mod packet_fault;
mod packet_lines;
mod posting;
mod purging;
mod replying;
mod scanning;
mod serials;
mod storing;
mod tossing;
mod writing;

pub use answering::Answer;
pub use coming::PacketFiles;
pub use command::StoreCommand;
pub use command_error::CommandError;
pub use drafting::NewMessage;
pub use fault::LetterFault;
pub use leaving::commit_store;
pub use letter::{Letter, MailDefaults};
pub use mail_posting::PostMail;
pub use mailed::MailWords;
pub use packet_lines::{packet_name, push_counted, push_packet, repair_name, resent_name};
pub use posting::Post;
pub use purging::Purge;
pub use replying::Reply;
pub use scanning::print_counted;
pub use tossing::Toss;
