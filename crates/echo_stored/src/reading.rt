//! A stored message that an editor wrote, read for posting.
ghost use Rattle.std.specs.Prelude.{◌≡◌, ◌||◌, ◌≤◌, ◌++◌, true, drop, length, option_copied, IsTrue, IfOk, OnOk};
ghost use Rattle.echo_text.specs.Lines.{after_feeds, begins, is_control, is_origin, is_path, is_seen, lines, msgid_word, reply_word};
ghost use Rattle.echo_text.specs.Echo.{first_after, id_in};
ghost use Rattle.echo_stored.specs.StoredReading.{ReadAnswers, body_of, is_local, is_made, is_sent, is_to_post, own_line};
ghost use Rattle.echo_stored.specs.declared.reading.StoredFault.TheVariants.{Memory};

use echo_addr::Items;
use echo_text::{
    after_feeds, after_word, begins, is_control, is_tear, push_line, split_line, trimmed,
};
use std::alloc::{AllocError, Global};

/// Why bytes are not to be posted.
#[derive(Clone, Copy, Debug, PartialEq, Eq)]
pub enum StoredFault {
    /// They are no stored message, it is not Local, or it was sent.
    BadMessage,
    Memory,
}

impl From<AllocError> for StoredFault {
    ghost from_gives = { λ _ fault. fault ≡ Memory };

    fn from(_refused: AllocError) -> StoredFault {
        StoredFault::Memory
    }
}

/// The parts that an editor wrote: names, subject, the id of the message replied to or no bytes, and lines that end in
/// 0D. Lines that posting makes or a scan adds are left out.
#[derive(Debug, Drop)]
pub struct StoredDraft<'a> {
    pub from_name: &'a [u8],
    pub to_name: &'a [u8],
    pub subject: &'a [u8],
    pub reply: &'a [u8],
    pub body: Items<u8>,
}

/// The stored message (FTS-0001) that these bytes are, read for posting: one that is Local and not Sent.
pub fn read_stored<'a>(alloc: Global, bytes: &'a [u8]) -> Result<StoredDraft<'a>, StoredFault>
    ensures { ReadAnswers bytes.now result }
{
    if !is_to_post(bytes) {
        return Err(StoredFault::BadMessage);
    }
    let text = until_zero(&bytes[190..]);
    let body = Items::new(extract_body(alloc, text)?);
    Ok(StoredDraft {
        from_name: field_at(bytes, 0, 36),
        to_name: field_at(bytes, 36, 36),
        subject: field_at(bytes, 72, 72),
        reply: first_value(b"\x01REPLY:", text).unwrap_or(b""),
        body,
    })
}

fn is_to_post(bytes: &[u8]) -> bool
    ensures value { result ≡ is_to_post bytes.now }
    ensures long { IsTrue result → 190 ≤ length bytes.now }
{
    bytes.len() >= 190 && is_local(bytes[187]) && !is_sent(bytes[186])
}

fn is_local(high: u8) -> bool
    ensures { result ≡ is_local high }
{
    high % 2 == 1
}

fn is_sent(low: u8) -> bool
    ensures { result ≡ is_sent low }
{
    low / 8 % 2 == 1
}

fn field_at(bytes: &[u8], place: usize, size: usize) -> &[u8]
    requires long { 190 ≤ length bytes.now }
    requires place { place ≤ 72 }
    requires size { size ≤ 72 }
{
    until_zero(&bytes[place..place + size])
}

fn until_zero(bytes: &[u8]) -> &[u8] {
    match bytes.iter().position(|b| *b == 0) {
        Some(end) => &bytes[..end],
        None => bytes,
    }
}

/// The lines of the text, except those that posting or a scan makes. Each ends in 0D.
pub fn extract_body(alloc: Global, text: &[u8]) -> Result<Vec<u8>, AllocError>
    ensures { IfOk result (λ body. body.items ≡ body_of text.now) }
{
    let mut body = Vec::new(alloc);
    let mut rest = text;
    'lines: while !rest.is_empty() {
        let (line, after) = split_line(rest);
        push_own(&mut body, line)?;
        rest = after;
    }
    Ok(body)
}

fn push_own(body: &mut Vec<u8>, line: &[u8]) -> Result<(), AllocError>
    ensures { OnOk result (body.new.items ≡ body.old.items ++ own_line line.now) }
{
    if is_made(line) {
        return Ok(());
    }
    push_line(body, line)
}

fn is_made(line: &[u8]) -> bool
    ensures { result ≡ is_made line.now }
{
    is_id_line(line) || is_tear(line) || is_origin(line) || is_list(line)
}

fn is_id_line(line: &[u8]) -> bool
    ensures { result ≡ begins msgid_word line.now || begins reply_word line.now }
{
    begins(b"\x01MSGID:", line) || begins(b"\x01REPLY:", line)
}

fn is_list(line: &[u8]) -> bool
    ensures { result ≡ is_seen line.now || is_path line.now }
{
    is_seen(line) || begins(b"\x01PATH:", line)
}

fn is_origin(line: &[u8]) -> bool
    ensures { result ≡ is_origin line.now }
{
    begins(b" * Origin: ", line)
}

/// The bytes after the 01 of a kludge line.
pub fn behind_mark(line: &[u8]) -> &[u8]
    requires { is_control line.now ≡ true }
    ensures { result.now ≡ drop 1 (after_feeds line.now) }
{
    match after_feeds(line).split_first() {
        Some((_, rest)) => rest,
        None => &[],
    }
}

/// Whether the line has SEEN-BY entries.
pub fn is_seen(line: &[u8]) -> bool
    ensures { result ≡ is_seen line.now }
{
    begins(b"SEEN-BY:", line)
}

/// The value of the first line that begins with the word and has more than blanks behind it.
pub fn first_value<'a>(word: &[u8], text: &'a [u8]) -> Option<&'a [u8]>
    ensures { option_copied result ≡ first_after word.now (lines text.now) }
{
    let mut rest = text;
    'lines: while !rest.is_empty() {
        let (line, after) = split_line(rest);
        if let Some(id) = value_of_line(word, line) {
            return Some(id);
        }
        rest = after;
    }
    None
}

fn value_of_line<'a>(word: &[u8], line: &'a [u8]) -> Option<&'a [u8]>
    ensures { option_copied result ≡ id_in word.now line.now }
{
    let value = trimmed(after_word(word, line)?);
    if value.is_empty() { None } else { Some(value) }
}
