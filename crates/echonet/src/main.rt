//! The program `echonet`: it reads the words of the command line and calls the command that they name. The commands
//! are in `cmd_net`, `cmd_export`, `cmd_jam` and `cmd_station`. It is proved to be safe and to end, and no more. It is
//! small, so that the crates below it are proved in parallel. Begin at `main`, the last function.
#![tactic(auto)]

use cmd_export::run_base;
use cmd_input::{ErasingOutput, Progress};
use cmd_jam::run_export_jam;
use cmd_net::run_net;
use cmd_notes::{ExplainedCommand, KeptLines};
use cmd_station::run_station;
use cmd_status::{Fault, Status};
use cmd_words::{Ending, ParsedLine, Words, explain, parse};
use disk_io::{Sink, Watched};
use std::process::ExitCode;
use std::{env, io};

fn run_words<W: Sink, E: Sink>(
    rt: &HostRuntime,
    words: &Words<'_>,
    notes: bool,
    progress: &Progress<'_>,
    out: &mut W,
    errors: &mut E,
) -> Status {
    match words {
        Words::Net(words) => run_net(rt, words, notes, progress, out, errors),
        Words::Base(words) => run_base(rt, words, progress, out, errors),
        Words::ExportJam(words) => run_export_jam(rt, words, out, errors),
        Words::Station(words) => run_station(rt, words, progress, out, errors),
    }
}

// The words of the command line. The status is that of what stops it: words that are no text, or
// no memory.
fn words_given(rt: &HostRuntime) -> Result<Vec<String>, Status> {
    match env::args(rt) {
        Ok(args) => args.collect::<Vec<String>>(rt.alloc()).map_err(|_| Fault::OutOfMemory.report(
            &mut Watched::new(rt.stderr()),
        )),
        Err(error) if error.kind() == io::ErrorKind::OutOfMemory => {
            Err(Fault::OutOfMemory.report(&mut Watched::new(rt.stderr())))
        }
        Err(_) => {
            let _ = eprintln!(rt; "error: a word of the command line is not UTF-8");
            Err(Status::CommandLine)
        }
    }
}

fn run_asked(rt: &HostRuntime, asked: &ParsedLine<'_>) -> Status {
    let progress = Progress::new(rt);
    let noted = ExplainedCommand::of(rt, asked);
    let mut out = Watched::new(ErasingOutput::new(&progress, rt.stdout()));
    let to = ErasingOutput::new(&progress, rt.stderr());
    let mut errors = Watched::new(KeptLines::new(rt.alloc(), to));
    let notes = noted.is_some();
    let status = run_words(rt, &asked.words, notes, &progress, &mut out, &mut errors);
    let printed = errors.into_inner().into_kept();
    if let Some(noted) = noted {
        let mut errors = Watched::new(ErasingOutput::new(&progress, rt.stderr()));
        noted.tell(&printed, &mut errors);
    }
    progress.clear();
    status
}

fn run(rt: &HostRuntime) -> Status {
    let words = match words_given(rt) {
        Ok(words) => words,
        Err(status) => return status,
    };
    match parse(rt.alloc(), words.as_slice()) {
        Ok(Some(asked)) => run_asked(rt, &asked),
        Ok(None) => Status::CommandLine,
        Err(error) => match explain(rt, &error) {
            Ending::Helped => Status::Good,
            Ending::CannotPrint => Fault::CannotUse("-").report(&mut Watched::new(rt.stderr())),
            Ending::OutOfMemory => Fault::OutOfMemory.report(&mut Watched::new(rt.stderr())),
            Ending::Refused => Status::CommandLine,
        },
    }
}

fn main(rt: HostRuntime) -> ExitCode {
    ExitCode::from(run(&rt).code())
}
