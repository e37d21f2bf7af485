//! Runs the commands that judge a net, or show a file.

use crate::checking::run_check;
use crate::linking::run_links;
use crate::nets::{run_picture, run_replay, run_why};
use crate::printing::{run_nodelist, run_show};
use cmd_input::{Progress, path_names};
use cmd_status::{Status, ended};
use cmd_words::NetWords;
use disk_io::Sink;

/// Runs the command of these words. The words are borrowed, so no case has to be proved to drop those of another. With `notes`
/// a note follows each fault of a net or of its link files.
pub fn run_net<W: Sink, E: Sink>(
    rt: &HostRuntime,
    words: &NetWords<'_>,
    notes: bool,
    progress: &Progress<'_>,
    out: &mut W,
    errors: &mut E,
) -> Status {
    match words {
        NetWords::Show { hex, text, packet } => {
            ended(run_show(rt, *hex, *text, *packet, out), errors)
        }
        NetWords::Nodelist { find, file } => ended(run_nodelist(rt, *find, *file, out), errors),
        NetWords::Check(words) => {
            run_check(rt, words, &path_names(rt, &words.links), notes, out, errors)
        }
        NetWords::Links { areas, links } => {
            run_links(rt, *areas, &path_names(rt, links), out, errors)
        }
        NetWords::Why(words) => {
            run_why(rt, words, &path_names(rt, &words.links), notes, out, errors)
        }
        NetWords::Picture(words) => {
            run_picture(rt, words, &path_names(rt, &words.links), notes, out, errors)
        }
        NetWords::Replay { script, links } => {
            let links = path_names(rt, links);
            run_replay(rt, *script, &links, notes, progress, out, errors)
        }
    }
}
