//! Finds the command and its words in the parser's answer.

use crate::base_words::{
    export_jam_words, export_stored_words, export_words, list_words, place_in, post_jam_words,
    post_mail_words, post_stored_words, post_words, reply_words, resend_words, scan_words,
    toss_words,
};
use crate::net_words::{check_words, links, paths_in, picture_words, why_words};
use crate::program::command;
use crate::words::{BaseWords, NetWords, ParsedLine, PurgeWords, StationWords, Words};
use clap::error::ErrorKind;
use clap::{ArgMatches, Command, Error};
use std::alloc::{AllocError, Global};

const LINKS_TWICE: &str = "the argument '--links-from <FILE>' cannot be used with '[LINKS]...'";

// Whether `check --all` has both a list of link files and link files. The first of them is parsed as the tag, so the
// parser accepts both.
fn names_links_twice(given: &ArgMatches<'_>) -> bool {
    let list = given.get_str("links-from").is_some();
    let tag = given.get_str("TAG").is_some();
    list && tag && given.get_flag("all")
}

fn posting_words<'a>(given: &ArgMatches<'a>) -> Option<StationWords<'a>> {
    if given.get_flag("mail") {
        match post_mail_words(given) {
            Some(words) => Some(StationWords::PostMail(words)),
            None => None,
        }
    } else if given.get_str("msg").is_some() {
        match post_stored_words(given) {
            Some(words) => Some(StationWords::PostStored(words)),
            None => None,
        }
    } else {
        posting_more(given)
    }
}

fn posting_more<'a>(given: &ArgMatches<'a>) -> Option<StationWords<'a>> {
    if given.get_str("jam").is_some() {
        match post_jam_words(given) {
            Some(words) => Some(StationWords::PostJam(words)),
            None => None,
        }
    } else {
        match post_words(given) {
            Some(words) => Some(StationWords::Post(words)),
            None => None,
        }
    }
}

fn tossing_words<'a>(
    alloc: Global,
    given: &ArgMatches<'a>,
) -> Result<Option<StationWords<'a>>, AllocError> {
    match place_in(given) {
        Some(place) => {
            let packets = paths_in(alloc, given, "PACKET", "packets-from")?;
            Ok(Some(StationWords::Toss(toss_words(given, place, packets))))
        }
        None => Ok(None),
    }
}

// The words of a command that changes the base of a station.
fn station_words<'a>(command: &str, given: &ArgMatches<'a>) -> Option<StationWords<'a>> {
    match command {
        "post" => posting_words(given),
        "reply" => match reply_words(given) {
            Some(words) => Some(StationWords::Reply(words)),
            None => None,
        },
        "scan" => match scan_words(given) {
            Some(words) => Some(StationWords::Scan(words)),
            None => None,
        },
        "purge" => match place_in(given) {
            Some(place) => Some(StationWords::Purge(PurgeWords {
                area: given.get_str("area"),
                to: given.get_str("to"),
                place,
            })),
            None => None,
        },
        _ => None,
    }
}

// The words of a command that reads a base, and changes none.
fn base_words<'a>(command: &str, given: &ArgMatches<'a>) -> Option<BaseWords<'a>> {
    match command {
        "list" => match list_words(given) {
            Some(words) => Some(BaseWords::List(words)),
            None => None,
        },
        "export" => exporting_words(given),
        "resend" => match resend_words(given) {
            Some(words) => Some(BaseWords::Resend(words)),
            None => None,
        },
        "convert" => match (given.get_str("FROM"), given.get_str("TO")) {
            (Some(from), Some(to)) => Some(BaseWords::Convert { from, to }),
            _ => None,
        },
        _ => None,
    }
}

fn exporting_words<'a>(given: &ArgMatches<'a>) -> Option<BaseWords<'a>> {
    if given.get_str("msg").is_some() {
        match export_stored_words(given) {
            Some(words) => Some(BaseWords::ExportStored(words)),
            None => None,
        }
    } else {
        match export_words(given) {
            Some(words) => Some(BaseWords::Export(words)),
            None => None,
        }
    }
}

// The words of a command that reads no base.
fn net_words<'a>(
    alloc: Global,
    command: &str,
    given: &ArgMatches<'a>,
) -> Result<Option<NetWords<'a>>, AllocError> {
    match command {
        "show" => Ok(show_words(given)),
        "nodelist" => Ok(nodelist_words(given)),
        "links" => {
            let links = links(alloc, given)?;
            let areas = given.get_flag("areas");
            Ok(Some(NetWords::Links { areas, links }))
        }
        "check" => match check_words(alloc, given) {
            Ok(Some(words)) => Ok(Some(NetWords::Check(words))),
            Ok(None) => Ok(None),
            Err(refused) => Err(refused),
        },
        "replay" => replay_words(alloc, given),
        _ => tagged_words(alloc, command, given),
    }
}

fn show_words<'a>(given: &ArgMatches<'a>) -> Option<NetWords<'a>> {
    match given.get_str("PACKET") {
        Some(packet) => Some(NetWords::Show {
            hex: given.get_flag("hex"),
            text: given.get_flag("text"),
            packet,
        }),
        None => None,
    }
}

fn nodelist_words<'a>(given: &ArgMatches<'a>) -> Option<NetWords<'a>> {
    match given.get_str("FILE") {
        Some(file) => Some(NetWords::Nodelist {
            find: given.get_str("find"),
            file,
        }),
        None => None,
    }
}

fn replay_words<'a>(
    alloc: Global,
    given: &ArgMatches<'a>,
) -> Result<Option<NetWords<'a>>, AllocError> {
    match given.get_str("SCRIPT") {
        Some(script) => {
            let links = links(alloc, given)?;
            Ok(Some(NetWords::Replay { script, links }))
        }
        None => Ok(None),
    }
}

fn tagged_words<'a>(
    alloc: Global,
    command: &str,
    given: &ArgMatches<'a>,
) -> Result<Option<NetWords<'a>>, AllocError> {
    match given.get_str("TAG") {
        Some(tag) if command == "why" => match why_words(alloc, given, tag) {
            Ok(words) => Ok(Some(NetWords::Why(words))),
            Err(refused) => Err(refused),
        },
        Some(tag) if command == "picture" => match picture_words(alloc, given, tag) {
            Ok(words) => Ok(Some(NetWords::Picture(words))),
            Err(refused) => Err(refused),
        },
        _ => Ok(None),
    }
}

fn words_of<'a>(
    alloc: Global,
    command: &str,
    given: &ArgMatches<'a>,
) -> Result<Option<Words<'a>>, AllocError> {
    match command {
        "show" | "nodelist" | "links" | "check" | "why" | "picture" | "replay" => {
            match net_words(alloc, command, given) {
                Ok(Some(words)) => Ok(Some(Words::Net(words))),
                Ok(None) => Ok(None),
                Err(refused) => Err(refused),
            }
        }
        "toss" => match tossing_words(alloc, given) {
            Ok(Some(words)) => Ok(Some(Words::Station(words))),
            Ok(None) => Ok(None),
            Err(refused) => Err(refused),
        },
        _ => Ok(other_words(command, given)),
    }
}

// The words of a command without a list of files.
fn other_words<'a>(command: &str, given: &ArgMatches<'a>) -> Option<Words<'a>> {
    match command {
        "export" if given.get_str("msg").is_none() && given.get_str("jam").is_some() => {
            match export_jam_words(given) {
                Some(words) => Some(Words::ExportJam(words)),
                None => None,
            }
        }
        "list" | "export" | "resend" | "convert" => match base_words(command, given) {
            Some(words) => Some(Words::Base(words)),
            None => None,
        },
        _ => match station_words(command, given) {
            Some(words) => Some(Words::Station(words)),
            None => None,
        },
    }
}

/// Parses the command line. Refused words are an error, and so is a request for help. `None` is a command that the program
/// does not have.
pub fn parse<'a>(alloc: Global, words: &'a [String]) -> Result<Option<ParsedLine<'a>>, Error> {
    let mut program = command(alloc)?;
    parse_by(alloc, &mut program, words)
}

fn parse_by<'a>(
    alloc: Global,
    program: &mut Command<'a>,
    words: &'a [String],
) -> Result<Option<ParsedLine<'a>>, Error> {
    let matches = program.try_get_matches_from_mut(words)?;
    match matched(alloc, program, &matches)? {
        Some(words) => Ok(Some(ParsedLine {
            words,
            explain: matches.get_flag("explain"),
        })),
        None => Ok(None),
    }
}

fn matched<'a>(
    alloc: Global,
    program: &mut Command<'a>,
    matches: &ArgMatches<'a>,
) -> Result<Option<Words<'a>>, Error> {
    let Some((command, given)) = matches.subcommand() else {
        return Ok(None);
    };
    if command == "check" && names_links_twice(given) {
        return Err(program.error(ErrorKind::ArgumentConflict, LINKS_TWICE)?);
    }
    Ok(words_of(alloc, command, given)?)
}
