//! Runs the commands that read a base.

use crate::bases::{run_export, run_list};
use crate::converting::run_convert;
use crate::resending::run_resend;
use crate::stored::run_export_stored;
use cmd_input::Progress;
use cmd_status::{Status, ended};
use cmd_words::BaseWords;
use disk_io::Sink;

/// Runs the command of these words. The words are borrowed, so no case has to be proved to drop those of another.
pub fn run_base<W: Sink, E: Sink>(
    rt: &HostRuntime,
    words: &BaseWords<'_>,
    progress: &Progress<'_>,
    out: &mut W,
    errors: &mut E,
) -> Status {
    match words {
        BaseWords::List(words) => ended(run_list(rt, words, progress, out), errors),
        BaseWords::Export(words) => run_export(rt, words, out, errors),
        BaseWords::ExportStored(words) => run_export_stored(rt, words, out, errors),
        BaseWords::Convert { from, to } => ended(run_convert(rt, *from, *to, out), errors),
        BaseWords::Resend(words) => run_resend(rt, words, out, errors),
    }
}
