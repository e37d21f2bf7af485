//! The id, tear and origin among kept lines.

ghost use Rattle.std.specs.Prelude.{◌≡◌, None, map, option_copied, filter};
ghost use Rattle.std.specs.List.{last_or};
ghost use Rattle.echo_text.specs.Echo.{first_after, id_in};
ghost use Rattle.echo_text.specs.Lines.{after_feeds, begins, is_tear, lines};

use crate::lines::split_line;
use crate::words::{after_feeds, after_word, begins, is_tear, trimmed};

fn id_in<'a>(word: &[u8], line: &'a [u8]) -> Option<&'a [u8]>
    ensures { option_copied result ≡ id_in word.now line.now }
{
    let id = trimmed(after_word(word, line)?);
    if id.is_empty() { None } else { Some(id) }
}

pub(crate) fn first_id<'a>(word: &[u8], kept: &'a [u8]) -> Option<&'a [u8]>
    ensures { option_copied result ≡ first_after word.now (lines kept.now) }
{
    let mut rest = kept;
    'lines: while !rest.is_empty() {
        let (line, after) = split_line(rest);
        if let Some(id) = id_in(word, line) {
            return Some(id);
        }
        rest = after;
    }
    None
}

pub(crate) fn last_tear(kept: &[u8]) -> Option<&[u8]>
    ensures { option_copied result ≡ last_or None (map after_feeds (filter is_tear (lines kept.now))) }
{
    let mut found = None;
    let mut rest = kept;
    'lines: while !rest.is_empty() {
        let (line, after) = split_line(rest);
        if is_tear(line) {
            found = Some(after_feeds(line));
        }
        rest = after;
    }
    found
}

pub(crate) fn last_with<'a>(word: &[u8], kept: &'a [u8]) -> Option<&'a [u8]>
    ensures { option_copied result ≡ last_or None (map after_feeds (filter (begins word.now) (lines kept.now))) }
{
    let mut found = None;
    let mut rest = kept;
    'lines: while !rest.is_empty() {
        let (line, after) = split_line(rest);
        if begins(word, line) {
            found = Some(after_feeds(line));
        }
        rest = after;
    }
    found
}
