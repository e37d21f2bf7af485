//! Runs a command that changes the base of a station, by its words.

use crate::changing::{run_post, run_post_stored, run_purge, run_reply};
use crate::posting_jam::run_post_jam;
use crate::posting_mail::run_post_mail;
use crate::scanning::run_scan;
use crate::tossing::run_toss;
use cmd_input::Progress;
use cmd_status::Status;
use cmd_words::StationWords;
use disk_io::Sink;

/// Runs the command of these words. The words are borrowed, so no case has to be proved to drop those of another.
pub fn run_station<W: Sink, E: Sink>(
    rt: &HostRuntime,
    words: &StationWords<'_>,
    progress: &Progress<'_>,
    out: &mut W,
    errors: &mut E,
) -> Status {
    match words {
        StationWords::Post(words) => run_post(rt, words, out, errors),
        StationWords::PostMail(words) => run_post_mail(rt, words, out, errors),
        StationWords::PostStored(words) => run_post_stored(rt, words, out, errors),
        StationWords::PostJam(words) => run_post_jam(rt, words, out, errors),
        StationWords::Reply(words) => run_reply(rt, words, out, errors),
        StationWords::Toss(words) => run_toss(rt, words, progress, out, errors),
        StationWords::Scan(words) => run_scan(rt, *words, progress, out, errors),
        StationWords::Purge(words) => run_purge(rt, *words, out, errors),
    }
}
