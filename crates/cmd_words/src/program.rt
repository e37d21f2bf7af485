//! The parser of the command line: all commands, and the word that each of them takes.

use crate::commands::{CHANGING, Entry, LOOKING, PROGRAM_ENDING, READING};
use crate::forms::{TakePart, flag, with_all};
use clap::{Arg, Command};
use std::alloc::{AllocError, Global};

/// The version that `--version` prints after the name.
const VERSION: &str = "0.1.0";

fn explain_word<'a>(alloc: Global) -> Arg<'a> {
    let word = flag(Arg::new(alloc, "explain"), "explain").global(true);
    word.help("Also prints in words why a command stopped, as on a terminal")
}

fn with_commands<C: TakePart<Entry>>(alloc: Global, program: C) -> Result<C, AllocError> {
    let program = with_all(alloc, program, LOOKING)?;
    let program = with_all(alloc, program, CHANGING)?;
    with_all(alloc, program, READING)
}

pub(crate) fn command<'a>(alloc: Global) -> Result<Command<'a>, AllocError> {
    let program = Command::new(alloc, "echonet")
        .about("An echomail tosser and topology checker for FidoNet")
        .version(VERSION)
        .after_help(PROGRAM_ENDING)
        .subcommand_required(true);
    match program.arg(explain_word(alloc)) {
        Ok(program) => with_commands(alloc, program),
        Err(refused) => Err(refused),
    }
}
