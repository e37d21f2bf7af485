//! The words of the commands on a base.

use crate::net_words::links;
use crate::words::{
    ExportJamWords, ExportStoredWords, ExportWords, ListWords, Paths, Place, PostJamWords,
    PostMailWords, PostStoredWords, PostWords, ReplyWords, ResendWords, ScanWords, TossWords,
};
use clap::ArgMatches;

pub(crate) fn post_words<'a>(matches: &ArgMatches<'a>) -> Option<PostWords<'a>> {
    match (texts_in(matches), stated_in(matches)) {
        (Some(texts), Some(stated)) => Some(PostWords {
            area: texts.area,
            to: texts.to,
            from: texts.from,
            subject: texts.subject,
            serial: stated.serial,
            at: stated.at,
            reply: matches.get_str("reply"),
            place: stated.place,
        }),
        _ => None,
    }
}

#[derive(Clone, Copy)]
struct Texts<'a> {
    area: &'a str,
    to: &'a str,
    from: &'a str,
    subject: &'a str,
}

fn texts_in<'a>(matches: &ArgMatches<'a>) -> Option<Texts<'a>> {
    match (
        matches.get_str("area"),
        matches.get_str("to"),
        matches.get_str("from"),
        matches.get_str("subject"),
    ) {
        (Some(area), Some(to), Some(from), Some(subject)) => Some(Texts {
            area,
            to,
            from,
            subject,
        }),
        _ => None,
    }
}

#[derive(Clone, Copy)]
struct Stated<'a> {
    serial: &'a str,
    at: &'a str,
    place: Place<'a>,
}

fn stated_in<'a>(matches: &ArgMatches<'a>) -> Option<Stated<'a>> {
    match place_in(matches) {
        Some(place) => Some(Stated {
            serial: matches.get_str("serial").unwrap_or("auto"),
            at: moment_in(matches),
            place,
        }),
        None => None,
    }
}

fn moment_in<'a>(matches: &ArgMatches<'a>) -> &'a str {
    matches.get_str("at").unwrap_or("now")
}

pub(crate) fn place_in<'a>(matches: &ArgMatches<'a>) -> Option<Place<'a>> {
    match (matches.get_str("LINKS"), matches.get_str("BASE")) {
        (Some(links), Some(base)) => Some(Place { links, base }),
        _ => None,
    }
}

pub(crate) fn post_mail_words<'a>(matches: &ArgMatches<'a>) -> Option<PostMailWords<'a>> {
    match stated_in(matches) {
        Some(stated) => Some(PostMailWords {
            charset: matches.get_str("charset"),
            area: matches.get_str("area"),
            to: matches.get_str("to"),
            from: matches.get_str("from"),
            subject: matches.get_str("subject"),
            serial: stated.serial,
            at: stated.at,
            reply: matches.get_str("reply"),
            place: stated.place,
        }),
        None => None,
    }
}

pub(crate) fn post_stored_words<'a>(matches: &ArgMatches<'a>) -> Option<PostStoredWords<'a>> {
    match (
        matches.get_str("area"),
        matches.get_str("msg"),
        stated_in(matches),
    ) {
        (Some(area), Some(message), Some(stated)) => Some(PostStoredWords {
            area,
            serial: stated.serial,
            at: stated.at,
            message,
            place: stated.place,
        }),
        _ => None,
    }
}

pub(crate) fn post_jam_words<'a>(matches: &ArgMatches<'a>) -> Option<PostJamWords<'a>> {
    match (
        matches.get_str("area"),
        matches.get_str("jam"),
        stated_in(matches),
    ) {
        (Some(area), Some(jam), Some(stated)) => Some(PostJamWords {
            area,
            serial: stated.serial,
            at: stated.at,
            jam,
            place: stated.place,
        }),
        _ => None,
    }
}

pub(crate) fn reply_words<'a>(matches: &ArgMatches<'a>) -> Option<ReplyWords<'a>> {
    match (
        matches.get_str("from"),
        matches.get_str("I"),
        stated_in(matches),
    ) {
        (Some(from), Some(index), Some(stated)) => Some(ReplyWords {
            from,
            serial: stated.serial,
            at: stated.at,
            index,
            place: stated.place,
        }),
        _ => None,
    }
}

pub(crate) fn toss_words<'a>(
    matches: &ArgMatches<'a>,
    place: Place<'a>,
    packets: Paths<'a>,
) -> TossWords<'a> {
    TossWords {
        each: matches.get_flag("each"),
        text_limit: matches.get_str("text-limit"),
        place,
        packets,
    }
}

pub(crate) fn scan_words<'a>(matches: &ArgMatches<'a>) -> Option<ScanWords<'a>> {
    match (place_in(matches), matches.get_str("DIR")) {
        (Some(place), Some(folder)) => Some(ScanWords {
            at: moment_in(matches),
            place,
            folder,
        }),
        _ => None,
    }
}

pub(crate) fn list_words<'a>(matches: &ArgMatches<'a>) -> Option<ListWords<'a>> {
    match matches.get_str("BASE") {
        Some(base) => Some(ListWords {
            short: matches.get_flag("short"),
            areas: matches.get_flag("areas"),
            ids: matches.get_flag("ids"),
            area: matches.get_str("area"),
            from: matches.get_str("from"),
            base,
        }),
        None => None,
    }
}

pub(crate) fn export_words<'a>(matches: &ArgMatches<'a>) -> Option<ExportWords<'a>> {
    match matches.get_str("BASE") {
        Some(base) => Some(ExportWords {
            json: matches.get_flag("json"),
            purged: matches.get_flag("purged"),
            area: matches.get_str("area"),
            from: matches.get_str("from"),
            base,
        }),
        None => None,
    }
}

pub(crate) fn export_stored_words<'a>(matches: &ArgMatches<'a>) -> Option<ExportStoredWords<'a>> {
    match (
        matches.get_str("msg"),
        matches.get_str("area"),
        matches.get_str("BASE"),
    ) {
        (Some(folder), Some(area), Some(base)) => Some(ExportStoredWords {
            folder,
            area,
            from: matches.get_str("from"),
            base,
        }),
        _ => None,
    }
}

pub(crate) fn export_jam_words<'a>(matches: &ArgMatches<'a>) -> Option<ExportJamWords<'a>> {
    match (
        matches.get_str("jam"),
        matches.get_str("area"),
        matches.get_str("BASE"),
    ) {
        (Some(jam), Some(area), Some(base)) => Some(ExportJamWords {
            jam,
            area,
            from: matches.get_str("from"),
            base,
        }),
        _ => None,
    }
}

pub(crate) fn resend_words<'a>(matches: &ArgMatches<'a>) -> Option<ResendWords<'a>> {
    match (
        matches.get_str("area"),
        matches.get_str("to"),
        place_in(matches),
        matches.get_str("DIR"),
    ) {
        (Some(area), Some(to), Some(place), Some(folder)) => Some(ResendWords {
            all: matches.get_flag("all"),
            has: matches.get_str("has"),
            area,
            to,
            from: matches.get_str("from"),
            at: moment_in(matches),
            place,
            folder,
        }),
        _ => None,
    }
}
