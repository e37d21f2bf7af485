//! The parser's form of a command of the table.

use crate::commands::{Entry, Form, Word};
use clap::{Arg, ArgAction, Command};
use std::alloc::{AllocError, Global};

// The usage lines of `check`. The second has no TAG.
const CHECK_USAGE: &str =
    "echonet check [OPTIONS] <TAG> <LINKS>...\n       echonet check [OPTIONS] --all <LINKS>...";

fn argument<'a>(alloc: Global, word: Word) -> Result<Arg<'a>, AllocError> {
    let Word(name, form, help) = word;
    let arg = Arg::new(alloc, name).help(help);
    match form {
        Form::Flag => Ok(flag(arg, name)),
        Form::FlagUnless(other) => flag(arg, name).conflicts_with(other),
        Form::FlagUnlessAny(others) => flag(arg, name).conflicts_with_all(others),
        Form::FlagWith(needed, others) => option_with(flag(arg, name), needed, others),
        Form::Option(value) => Ok(arg.long(name).value_name(value)),
        Form::OptionWith(value, needed, others) => {
            option_with(arg.long(name).value_name(value), needed, others)
        }
        Form::Repeated(value) => Ok(repeated(arg, name, value)),
        Form::RepeatedUnless(value, other) => repeated(arg, name, value).conflicts_with(other),
        Form::Needed(value) => Ok(arg.long(name).value_name(value).required(true)),
        Form::NeededUnless(value, others) => {
            let option = arg.long(name).value_name(value);
            option.required_unless_present_any(others)
        }
        Form::One => Ok(arg.required(true)),
        Form::OneUnless(one, other) => arg.required_unless_present_all(&[one, other]),
        Form::ManyUnless(option) => many_unless(arg.num_args(1..), option),
        Form::RestUnless(list, option) => rest_unless(arg.num_args(1..), list, option),
    }
}

pub(crate) fn flag<'a>(arg: Arg<'a>, name: &'static str) -> Arg<'a> {
    arg.long(name).action(ArgAction::SetTrue)
}

fn option_with<'a>(
    option: Arg<'a>,
    needed: &'static str,
    others: &'static [&'static str],
) -> Result<Arg<'a>, AllocError> {
    option.requires_arg(needed)?.conflicts_with_all(others)
}

fn repeated<'a>(arg: Arg<'a>, name: &'static str, value: &'static str) -> Arg<'a> {
    arg.long(name).value_name(value).action(ArgAction::Append)
}

fn many_unless<'a>(many: Arg<'a>, option: &'static str) -> Result<Arg<'a>, AllocError> {
    many.required_unless_present(option)?.conflicts_with(option)
}

fn rest_unless<'a>(
    rest: Arg<'a>,
    list: &'static str,
    option: &'static str,
) -> Result<Arg<'a>, AllocError> {
    let rest = rest.required_unless_present(list)?;
    rest.required_unless_present(option)?.conflicts_with(list)
}

/// A command of the parser that takes one more of its parts: a word, or a command below it. A function over this trait
/// has no field of a command in its proof.
pub(crate) trait TakePart<P>: Drop {
    fn with(self, alloc: Global, part: P) -> Result<Self, AllocError>;
}

impl<'a> TakePart<Word> for Command<'a> {
    fn with(self, alloc: Global, part: Word) -> Result<Self, AllocError> {
        match argument(alloc, part) {
            Ok(argument) => self.arg(argument),
            Err(refused) => Err(refused),
        }
    }
}

impl<'a> TakePart<Entry> for Command<'a> {
    fn with(self, alloc: Global, part: Entry) -> Result<Self, AllocError> {
        let Entry(name, about, ending, words) = part;
        match with_all(alloc, described(alloc, name, about, ending), words) {
            Ok(command) => self.subcommand(command),
            Err(refused) => Err(refused),
        }
    }
}

/// Gives the command all these parts.
pub(crate) fn with_all<P: Copy, C: TakePart<P>>(
    alloc: Global,
    command: C,
    parts: &'static [P],
) -> Result<C, AllocError> {
    let mut command = command;
    for part in parts {
        command = command.with(alloc, *part)?;
    }
    Ok(command)
}

fn described<'a>(
    alloc: Global,
    name: &'static str,
    about: &'static str,
    ending: &'static str,
) -> Command<'a> {
    let command = Command::new(alloc, name).about(about).after_help(ending);
    if name == "check" {
        command.override_usage(CHECK_USAGE)
    } else {
        command
    }
}
