//! Words that several commands have.

use crate::commands::{Form, Word};

pub(crate) const AREA: &str = "The area, in letters of either case";

pub(crate) const TAG: Word = Word("TAG", Form::One, AREA);

pub(crate) const NET: &str = "The link file of each system of the net";

pub(crate) const ALL_LINKS: Word = Word("LINKS", Form::ManyUnless("links-from"), NET);

pub(crate) const LINKS_FROM: Word = Word(
    "links-from",
    Form::Option("FILE"),
    "The link files are listed in this file, or - for standard input: one a line, or each ended by 00",
);

pub(crate) const ASSUME: &str =
    "Judges this system without a file of its own: it links with exactly those who list it. May be repeated";

pub(crate) const ASSUME_MISSING: Word = Word(
    "assume-missing",
    Form::Flag,
    "Does so with each system that a link file lists and that has none",
);

pub(crate) const WITHOUT: &str =
    "As if this system had no link file and nobody listed it: who is then cut off? May be repeated";

pub(crate) const LINKS: Word = Word("LINKS", Form::One, "The link file of the system");

pub(crate) const BASE: Word = Word(
    "BASE",
    Form::One,
    "The base of the system: a file, which need not exist yet, or a folder",
);

pub(crate) const SERIAL: Word = Word(
    "serial",
    Form::Option("HEX8"),
    "The serial of its MSGID, new for each message, or auto (the default)",
);

pub(crate) const AT: Word = Word(
    "at",
    Form::Option("STAMP"),
    "The time, as YYYY-MM-DDThh:mm:ss, or now (UTC, the default), or local (in the system's time zone)",
);
