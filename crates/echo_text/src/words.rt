//! The words with which control lines begin.

ghost use Rattle.std.specs.Prelude.{◌≡◌, ◌≤◌, true, false, length, reverse, take_while, IsTrue, MatchOption};
ghost use Rattle.echo_addr.specs.Entries.{is_blank};
ghost use Rattle.echo_text.specs.Lines.{after_feeds, after_word, begins, is_blank_line, is_control, is_feed, is_tear, trimmed};
ghost use Rattle.echo_text.specs.Tail.{is_kept_control, is_tail_line};

use echo_addr::is_blank;

/// The beginnings of SEEN-BY, PATH, MSGID, REPLY and origin lines.
pub(crate) const SEEN_BY: &[u8] = b"SEEN-BY:";

pub(crate) const PATH: &[u8] = b"\x01PATH:";

pub(crate) const MSGID: &[u8] = b"\x01MSGID:";

pub(crate) const REPLY: &[u8] = b"\x01REPLY:";

pub(crate) const ORIGIN: &[u8] = b" * Origin: ";

pub(crate) const AREA: &[u8] = b"AREA:";

const CONTROL: &[u8] = b"\x01";

/// The line without the line feeds at its front.
pub fn after_feeds(line: &[u8]) -> &[u8]
    ensures { result.now ≡ after_feeds line.now }
{
    &line[feed_count(line)..]
}

fn feed_count(line: &[u8]) -> usize
    ensures exact { result ≡ length (take_while is_feed line.now) }
    ensures within { result ≤ length line.now }
{
    line.iter().take_while(|b| **b == b'\n').count()
}

/// Whether the line begins with the word, after line feeds.
pub fn begins(word: &[u8], line: &[u8]) -> bool
    ensures value { result ≡ begins word.now line.now }
    ensures fits { IsTrue result → length word.now ≤ length (after_feeds line.now) }
{
    after_feeds(line).starts_with(word)
}

/// The bytes after the word, if the line begins with it after line feeds.
pub fn after_word<'a>(word: &[u8], line: &'a [u8]) -> Option<&'a [u8]>
    ensures { MatchOption result (begins word.now line.now ≡ false) (λ rest. (begins word.now line.now ≡ true) × (rest.now ≡ after_word word.now line.now)) }
{
    if begins(word, line) {
        Some(&after_feeds(line)[word.len()..])
    } else {
        None
    }
}

/// Whether the line is a kludge line: it begins with 01, after line feeds.
pub fn is_control(line: &[u8]) -> bool
    ensures { result ≡ is_control line.now }
{
    begins(CONTROL, line)
}

pub(crate) fn is_blank_line(line: &[u8]) -> bool
    ensures { result ≡ is_blank_line line.now }
{
    line.iter().all(|b| is_blank(*b))
}

/// The bytes without the blanks of message texts at both ends. Takes no memory.
pub fn trimmed(bytes: &[u8]) -> &[u8]
    ensures { result.now ≡ trimmed bytes.now }
{
    let begun = &bytes[front_blanks(bytes)..];
    &begun[..begun.len() - back_blanks(begun)]
}

fn front_blanks(bytes: &[u8]) -> usize
    ensures exact { result ≡ length (take_while is_blank bytes.now) }
    ensures within { result ≤ length bytes.now }
{
    bytes.iter().take_while(|b| is_blank(**b)).count()
}

fn back_blanks(bytes: &[u8]) -> usize
    ensures exact { result ≡ length (take_while is_blank (reverse bytes.now)) }
    ensures within { result ≤ length bytes.now }
{
    bytes.iter().rev().take_while(|b| is_blank(**b)).count()
}

/// Whether the line is a tear line: three hyphens, alone or followed by a blank 20.
pub fn is_tear(line: &[u8]) -> bool
    ensures { result ≡ is_tear line.now }
{
    begins(b"--- ", line) || (begins(b"---", line) && after_feeds(line).len() == 3)
}

pub(crate) fn is_tail_line(line: &[u8]) -> bool
    ensures { result ≡ is_tail_line line.now }
{
    begins(SEEN_BY, line) || begins(CONTROL, line) || is_blank_line(line)
}

pub(crate) fn is_kept_control(line: &[u8]) -> bool
    ensures { result ≡ is_kept_control line.now }
{
    begins(CONTROL, line) && !begins(PATH, line)
}
