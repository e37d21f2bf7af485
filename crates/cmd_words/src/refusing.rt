//! Why a command line asks for no command, and the lines that say so.

use clap::Error;
use clap::error::ErrorKind;

/// The end of a command line that asks for no command.
#[derive(Clone, Copy)]
pub enum Ending {
    /// Help or the version was printed.
    Helped,
    /// Help or the version could not be printed.
    CannotPrint,
    /// There was no memory to parse the words. Nothing is printed.
    OutOfMemory,
    /// The words were refused. The reason was printed to standard error.
    Refused,
}

/// Prints the parser's text for words that ask for no command.
pub fn explain<R: Print + Eprint>(rt: &R, error: &Error) -> Ending {
    if error.kind() == ErrorKind::OutOfMemory {
        return Ending::OutOfMemory;
    }
    let printed = error.print(rt);
    match error.kind() {
        ErrorKind::DisplayHelp | ErrorKind::DisplayVersion if printed.is_ok() => Ending::Helped,
        ErrorKind::DisplayHelp | ErrorKind::DisplayVersion => Ending::CannotPrint,
        _ => Ending::Refused,
    }
}
