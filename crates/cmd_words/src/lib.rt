//! The command line. It promises to be safe and to end, and no more; scripts/manual.sh compares its help with the
//! manual page. Begin with `commands`, the table of commands with their words and help.
#![tactic(auto)]

mod base_words;
mod commands;
mod common_words;
mod forms;
mod net_words;
mod parsing;
mod program;
mod refusing;
mod words;

pub use parsing::parse;
pub use refusing::{Ending, explain};
pub use words::{
    BaseWords, CheckWords, ExportJamWords, ExportStoredWords, ExportWords, ListWords, NetWords,
    ParsedLine, Paths, PictureWords, Place, PostJamWords, PostMailWords, PostStoredWords,
    PostWords, PurgeWords, ReplyWords, ResendWords, ScanWords, StationWords, TossWords, WhyWords,
    Words,
};
