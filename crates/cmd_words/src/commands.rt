//! The table of commands: the words of each, and its help.

use crate::common_words::{
    ALL_LINKS, AREA, ASSUME, ASSUME_MISSING, AT, BASE, LINKS, LINKS_FROM, NET, SERIAL, TAG, WITHOUT,
};

// The end of a command's help: an example, and the statuses. Status 1 has this line.
macro_rules! ending_with {
    ($example:literal, $differs:literal) => {
        concat!("Example:\n  ", $example, "\n\nExit status:\n  0  good\n", $differs, "  2  an input was refused\n  3  a device failed, or memory ran out\n  4  the command line was refused")
    };
}

// The end of a command that never has status 1.
macro_rules! ending {
    ($example:literal) => {
        ending_with!($example, "")
    };
}

// The end of a command that prints a verdict.
macro_rules! judging {
    ($example:literal) => {
        ending_with!($example, "  1  the verdict is no\n")
    };
}

/// The form of a word. Each of the options that it names is another word of the command.
#[derive(Clone, Copy)]
pub(crate) enum Form {
    /// `--NAME`
    Flag,
    /// `--NAME`, not with this option
    FlagUnless(&'static str),
    /// `--NAME`, not with any of these options
    FlagUnlessAny(&'static [&'static str]),
    /// `--NAME`, only with the first of these options and not with the others
    FlagWith(&'static str, &'static [&'static str]),
    /// `--NAME VALUE`, optional
    Option(&'static str),
    /// `--NAME VALUE`, optional, only with the first of these options and not with the others
    OptionWith(&'static str, &'static str, &'static [&'static str]),
    /// `--NAME VALUE`, any number of times
    Repeated(&'static str),
    /// `--NAME VALUE`, any number of times, not with this option
    RepeatedUnless(&'static str, &'static str),
    /// `--NAME VALUE`
    Needed(&'static str),
    /// `--NAME VALUE`, optional with one of these options
    NeededUnless(&'static str, &'static [&'static str]),
    /// `NAME`
    One,
    /// `NAME`, optional with both of these options
    OneUnless(&'static str, &'static str),
    /// one or more of `NAME`, or instead this option
    ManyUnless(&'static str),
    /// One or more of `NAME`, or instead the first option. With the second option they are optional.
    RestUnless(&'static str, &'static str),
}

/// A word of a command: its name, its form, and its help.
#[derive(Clone, Copy)]
pub(crate) struct Word(
    pub(crate) &'static str,
    pub(crate) Form,
    pub(crate) &'static str,
);

/// A command: its name, what it does, the end of its help, and its words.
#[derive(Clone, Copy)]
pub(crate) struct Entry(
    pub(crate) &'static str,
    pub(crate) &'static str,
    pub(crate) &'static str,
    pub(crate) &'static [Word],
);

/// The end of the program's help.
pub(crate) const PROGRAM_ENDING: &str = ending_with!(
    "echonet show mail.pkt",
    "  1  the verdict is no, or a checksum differs from the stated one\n"
);

/// The commands for packets, nodelists and nets.
pub(crate) const LOOKING: &[Entry] = &[
    Entry(
        "show",
        "Prints a packet",
        ending!("echonet show --hex - < packet.txt"),
        &[
            Word(
                "hex",
                Form::Flag,
                "The packet is written in hexadecimal digits",
            ),
            Word("text", Form::Flag, "Also prints the lines of each text"),
            Word(
                "PACKET",
                Form::One,
                "The packet's file, or - for standard input",
            ),
        ],
    ),
    Entry(
        "nodelist",
        "Prints the systems of a nodelist",
        ending_with!(
            "echonet nodelist --find 1:10/101 NODELIST.184",
            "  1  a checksum differs from the stated one\n"
        ),
        &[
            Word(
                "find",
                Form::Option("ADDRESS"),
                "Prints only the first line with this address",
            ),
            Word("FILE", Form::One, "The nodelist"),
        ],
    ),
    Entry(
        "links",
        "Prints what is wrong with link files, or how many areas and links each has",
        ending!("echonet links --areas links/*"),
        &[
            Word(
                "areas",
                Form::Flag,
                "Also prints how many links each area has",
            ),
            LINKS_FROM,
            Word("LINKS", Form::ManyUnless("links-from"), "The link files"),
        ],
    ),
    Entry(
        "check",
        "Prints whether an area is in order, or what is wrong with it",
        judging!("echonet check --nodelist NODELIST.184 TEST links/*"),
        &[
            Word(
                "nodelist",
                Form::Option("LIST"),
                "Prints which systems of the area this nodelist lacks",
            ),
            Word(
                "more",
                Form::Flag,
                "Also prints the other faults of the area, and with --all how many areas are in order",
            ),
            Word(
                "all",
                Form::Flag,
                "Each area that a file has, instead of TAG",
            ),
            Word("assume", Form::Repeated("ADDRESS"), ASSUME),
            ASSUME_MISSING,
            Word("without", Form::Repeated("ADDRESS"), WITHOUT),
            LINKS_FROM,
            Word("TAG", Form::OneUnless("all", "links-from"), AREA),
            Word("LINKS", Form::RestUnless("links-from", "all"), NET),
        ],
    ),
    Entry(
        "why",
        "Prints a run in which an area that is not in order goes wrong, as a script for replay",
        judging!("echonet why TEST links/* > wrong.script"),
        &[
            Word(
                "fault",
                Form::Option("N"),
                "The harm of the Nth further fault that check --more prints; 0 is that of the verdict",
            ),
            Word("assume", Form::Repeated("ADDRESS"), ASSUME),
            ASSUME_MISSING,
            LINKS_FROM,
            TAG,
            ALL_LINKS,
        ],
    ),
    Entry(
        "picture",
        "Prints an area as a graph that Graphviz draws, with what is wrong marked",
        judging!("echonet picture TEST links/* | dot -Tsvg > area.svg"),
        &[
            Word(
                "why",
                Form::Flag,
                "Labels links with the events of why that send what goes wrong over them",
            ),
            Word("assume", Form::Repeated("ADDRESS"), ASSUME),
            ASSUME_MISSING,
            Word("without", Form::RepeatedUnless("ADDRESS", "why"), WITHOUT),
            LINKS_FROM,
            TAG,
            ALL_LINKS,
        ],
    ),
];

/// The commands that change a base.
pub(crate) const CHANGING: &[Entry] = &[
    Entry(
        "post",
        "Files a message, whose body is standard input",
        ending!(
            "echonet post --area TEST --to All --from Ann --subject Hi --serial auto --at now links base < body"
        ),
        &[
            Word(
                "mail",
                Form::Flag,
                "Standard input is a mail message, and the other options give what it lacks",
            ),
            Word(
                "charset",
                Form::OptionWith("C", "mail", &[]),
                "The charset in which the mail is posted, CP437 without this option",
            ),
            Word("area", Form::NeededUnless("TAG", &["mail"]), AREA),
            Word(
                "to",
                Form::NeededUnless("T", &["mail", "msg", "jam"]),
                "To whom the message is",
            ),
            Word(
                "from",
                Form::NeededUnless("F", &["mail", "msg", "jam"]),
                "From whom the message is",
            ),
            Word(
                "subject",
                Form::NeededUnless("S", &["mail", "msg", "jam"]),
                "The subject",
            ),
            SERIAL,
            AT,
            Word(
                "reply",
                Form::Option("ID"),
                "The MSGID of the message that is replied to",
            ),
            Word(
                "msg",
                Form::OptionWith("FILE", "area", &["mail", "to", "from", "subject", "reply"]),
                "Takes names, subject, reply and body from this stored message, Local and not Sent",
            ),
            Word(
                "jam",
                Form::OptionWith(
                    "PATH",
                    "area",
                    &["mail", "to", "from", "subject", "reply", "msg"],
                ),
                "Posts each message of this JAM base that is Local and not Sent, and marks it as Sent",
            ),
            LINKS,
            BASE,
        ],
    ),
    Entry(
        "reply",
        "Files an answer to a message of the base, whose body is standard input",
        ending!("echonet reply --from Cid --serial auto --at now 0 links base < body"),
        &[
            Word("from", Form::Needed("F"), "From whom the answer is"),
            SERIAL,
            AT,
            Word(
                "I",
                Form::One,
                "The number of the message that is answered, counted from 0",
            ),
            LINKS,
            BASE,
        ],
    ),
    Entry(
        "toss",
        "Files the messages of packets",
        ending!("echonet toss links base inbound/*.pkt"),
        &[
            Word(
                "each",
                Form::Flag,
                "Prints a line for each message that is not filed, before the line of its packet",
            ),
            Word(
                "packets-from",
                Form::Option("FILE"),
                "The packet files are listed in this file, or - for standard input: one a line, or each ended by 00",
            ),
            Word(
                "text-limit",
                Form::Option("N"),
                "How many bytes a text in a packet may have, at most 16777216",
            ),
            LINKS,
            BASE,
            Word(
                "PACKET",
                Form::ManyUnless("packets-from"),
                "The packet files, in order",
            ),
        ],
    ),
    Entry(
        "scan",
        "Makes the packets of the messages that wait",
        ending!("echonet scan --at now links base outbound"),
        &[
            AT,
            LINKS,
            BASE,
            Word("DIR", Form::One, "The folder of the packets"),
        ],
    ),
    Entry(
        "purge",
        "Leaves of each scanned message nothing of its text but the id",
        ending!("echonet purge --area TEST --to 1000 links base"),
        &[
            Word(
                "area",
                Form::Option("TAG"),
                "Purges only the messages of this area, in letters of either case",
            ),
            Word(
                "to",
                Form::Option("I"),
                "Purges only messages before that of this number, counted from 0",
            ),
            LINKS,
            BASE,
        ],
    ),
];

/// All other commands.
pub(crate) const READING: &[Entry] = &[
    Entry(
        "list",
        "Prints the messages of a base, and which of them wait",
        ending!("echonet list --area TEST base"),
        &[
            Word("short", Form::Flag, "Prints one line for each message"),
            Word(
                "areas",
                Form::FlagUnlessAny(&["short", "area", "from"]),
                "Prints one line for each area",
            ),
            Word(
                "ids",
                Form::FlagWith("area", &["short", "areas", "from"]),
                "Prints the ids of the area's messages, ascending",
            ),
            Word(
                "area",
                Form::Option("TAG"),
                "Prints only the messages of this area, in letters of either case",
            ),
            Word(
                "from",
                Form::Option("I"),
                "Prints from the message of this number on, counted from 0",
            ),
            Word("BASE", Form::One, "The base of the system"),
        ],
    ),
    Entry(
        "export",
        "Prints the messages of a base for other programs: mail programs, or those that read JSON",
        ending!("echonet export --area TEST base > test.mbox"),
        &[
            Word(
                "area",
                Form::Option("TAG"),
                "Prints only the messages of this area, in letters of either case",
            ),
            Word(
                "from",
                Form::Option("I"),
                "Prints from the message of this number on, counted from 0",
            ),
            Word(
                "mbox",
                Form::FlagUnless("json"),
                "Prints a mailbox, as without this option",
            ),
            Word(
                "json",
                Form::FlagUnless("mbox"),
                "Prints a line of JSON for each message",
            ),
            Word(
                "purged",
                Form::Flag,
                "Also prints what is left of purged messages",
            ),
            Word(
                "msg",
                Form::OptionWith("DIR", "area", &["mbox", "json", "purged"]),
                "Adds each message to this folder as a stored message, N.msg, for the readers of the field",
            ),
            Word(
                "jam",
                Form::OptionWith("PATH", "area", &["mbox", "json", "purged", "msg"]),
                "Adds each message to this JAM base, PATH.jhr and so on, which is made if there is none",
            ),
            Word("BASE", Form::One, "The base of the system"),
        ],
    ),
    Entry(
        "resend",
        "Makes a packet that was lost again, of scanned messages of an area for one link",
        ending!("echonet resend --area TEST --to 1:10/2 --at now links base outbound"),
        &[
            Word(
                "all",
                Form::FlagUnless("has"),
                "Sends all messages of the area, also those that wait or came from the link",
            ),
            Word(
                "has",
                Form::Option("LIST"),
                "Sends all but the messages that this list of the link names, printed there by list --ids; - is standard input",
            ),
            Word("area", Form::Needed("TAG"), AREA),
            Word(
                "to",
                Form::Needed("ADDRESS"),
                "The link that the packet is for",
            ),
            Word(
                "from",
                Form::Option("I"),
                "Begins with the message of this number, counted from 0",
            ),
            AT,
            LINKS,
            BASE,
            Word("DIR", Form::One, "The folder of the packets"),
        ],
    ),
    Entry(
        "convert",
        "Makes a base file of a base folder, or a base folder of a base file",
        ending!("mkdir new && echonet convert base new"),
        &[
            Word("FROM", Form::One, "The base that is read"),
            Word(
                "TO",
                Form::One,
                "The base that is made: an empty folder, or a file that does not exist yet",
            ),
        ],
    ),
    Entry(
        "replay",
        "Prints what the systems of a net have after what a script says",
        ending!("echonet replay chain.script links/*"),
        &[
            Word(
                "SCRIPT",
                Form::One,
                "What happens: a line each of POST, SCAN, DELIVER or PURGE",
            ),
            LINKS_FROM,
            ALL_LINKS,
        ],
    ),
];
