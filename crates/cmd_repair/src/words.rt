//! The lines of a list of ids: they are judged here, and written.
ghost use Rattle.std.specs.{Prelude.{◌≡◌, ◌++◌, ◌≤◌, [], IfOk, List, OnOk, ℕ, length, take_while}, List.{cons_option, list_all}};
ghost use Rattle.echo_charset.specs.Escaped.{escaped, escaped_line};
ghost use Rattle.cmd_repair.specs.Ids as ids;
ghost use Rattle.cmd_repair.specs.Words as words;
ghost use Rattle.cmd_repair.specs.declared.words.Escape.TheVariants.{Outside};

use echo_addr::is_blank;
use echo_charset::{push_escaped, push_word, written};
use std::alloc::{AllocError, Global};
use std::io::Write;

/// The most messages of a base.
const MOST_MESSAGES: u64 = 4_294_967_295;

/// How far an escaped byte was read: a backslash, an `x` and two digits.
#[derive(Clone, Copy, Debug, PartialEq, Eq)]
enum Escape {
    /// None is begun.
    Outside,
    Backslash,
    /// Behind the `x`.
    Prefix,
    /// Behind the first digit, which it holds.
    Digit(u8),
}

pub(crate) fn push_area(line: &mut Vec<u8>, area: &[u8]) -> Result<(), AllocError>
    ensures { OnOk result (line.new.items ≡ line.old.items ++ words.area_words area.now) }
{
    line.extend_from_slice(b"area ")?;
    push_word(line, area)
}

pub(crate) fn push_end(line: &mut Vec<u8>, messages: u64, without: u64) -> Result<(), AllocError>
    ensures { OnOk result (line.new.items ≡ line.old.items ++ words.end_words messages without) }
{
    written(write!(line, "end {messages} messages, {without} without id"))
}

pub(crate) fn is_end_line(alloc: Global, ids: u64, line: &[u8]) -> Result<bool, AllocError>
    ensures { IfOk result (λ is. is ≡ words.is_end_line ids line.now) }
{
    let messages = messages_in(line);
    if messages < ids || messages > MOST_MESSAGES {
        return Ok(false);
    }
    let mut end = Vec::new(alloc);
    push_end(&mut end, messages, messages - ids)?;
    Ok(end.as_slice() == line)
}

fn messages_in(line: &[u8]) -> u64
    ensures { result ≡ words.messages_in line.now }
{
    digits_number(front_digits(&line[line.len().min(4)..]))
}

fn front_digits(line: &[u8]) -> &[u8]
    ensures { result.now ≡ words.front_digits line.now }
{
    &line[..digits_len(line)]
}

fn digits_len(line: &[u8]) -> usize
    ensures exact { result ≡ length (take_while words.is_digit line.now) }
    ensures within { result ≤ length line.now }
{
    line.iter().take_while(|byte| is_digit(**byte)).count()
}

fn is_digit(byte: u8) -> bool
    ensures { result ≡ words.is_digit byte }
{
    matches!(byte, b'0'..=b'9')
}

fn digits_number(digits: &[u8]) -> u64
    ensures { result ≡ words.digits_number digits.now }
{
    digits
        .iter()
        .fold(0, |number, digit| with_digit(number, *digit))
}

fn with_digit(number: u64, digit: u8) -> u64
    ensures { result ≡ words.with_digit number digit }
{
    number
        .saturating_mul(10)
        .saturating_add(u64::from(digit.saturating_sub(b'0')))
}

pub(crate) fn is_id_line(alloc: Global, line: &[u8]) -> Result<bool, AllocError>
    ensures { IfOk result (λ is. is ≡ words.is_id_line line.now) }
{
    if line.starts_with(b"id ") {
        is_id_word(alloc, id_word(line))
    } else {
        Ok(false)
    }
}

pub(crate) fn id_word(line: &[u8]) -> &[u8]
    ensures { result.now ≡ words.id_word line.now }
{
    &line[line.len().min(3)..]
}

fn is_id_word(alloc: Global, word: &[u8]) -> Result<bool, AllocError>
    ensures { IfOk result (λ is. is ≡ ids.is_id_word word.now) }
{
    let id = unescape(alloc, word)?;
    if is_id(&id) {
        Ok(word_in(&word_line(alloc, &id)?) == word)
    } else {
        Ok(false)
    }
}

fn unescape(alloc: Global, word: &[u8]) -> Result<Vec<u8>, AllocError>
    ensures { IfOk result (λ id. id.items ≡ ids.unescaped Outside word.now) }
{
    let mut id = Vec::with_capacity(alloc, word.len())?;
    let mut escape = Escape::Outside;
    'bytes: for byte in word {
        push_ended(&mut id, ended_byte(escape, *byte))?;
        escape = next_escape(escape, *byte);
    }
    Ok(id)
}

fn push_ended(id: &mut Vec<u8>, ended: Option<u8>) -> Result<(), AllocError>
    ensures { OnOk result (id.new.items ≡ id.old.items ++ cons_option ended []) }
{
    match ended {
        Some(byte) => Ok(id.push(byte)?),
        None => Ok(()),
    }
}

fn hex_digit(byte: u8) -> u8
    ensures { result ≡ ids.hex_digit byte }
{
    byte.saturating_sub(if byte <= b'9' { b'0' } else { b'a' - 10 }) % 16
}

fn next_escape(escape: Escape, byte: u8) -> Escape
    ensures { result ≡ ids.next_escape escape byte }
{
    match escape {
        Escape::Outside if byte == b'\\' => Escape::Backslash,
        Escape::Backslash if byte == b'x' => Escape::Prefix,
        Escape::Prefix => Escape::Digit(hex_digit(byte)),
        _ => Escape::Outside,
    }
}

/// The byte that ends there.
fn ended_byte(escape: Escape, byte: u8) -> Option<u8>
    ensures { result ≡ ids.ended_byte escape byte }
{
    match escape {
        Escape::Outside if byte == b'\\' => None,
        Escape::Backslash if byte == b'x' => None,
        Escape::Outside | Escape::Backslash => Some(byte),
        Escape::Prefix => None,
        Escape::Digit(digit) => Some(digit % 16 * 16 + hex_digit(byte)),
    }
}

fn is_id(id: &[u8]) -> bool
    ensures { result ≡ ids.is_id id.now }
{
    !id.is_empty() && are_text_bytes(id) && !is_blank(id[0]) && !is_blank(id[id.len() - 1])
}

fn are_text_bytes(id: &[u8]) -> bool
    ensures { result ≡ list_all ids.is_text_byte id.now }
{
    id.iter().all(|byte| is_text_byte(*byte))
}

fn is_text_byte(byte: u8) -> bool
    ensures { result ≡ ids.is_text_byte byte }
{
    byte != 0 && byte != b'\r'
}

/// The escaped form of an id, with a byte at each end.
pub(crate) fn word_line(alloc: Global, id: &[u8]) -> Result<Vec<u8>, AllocError>
    ensures { IfOk result (λ line. line.items ≡ escaped_line [] id.now) }
{
    let mut line = Vec::new(alloc);
    push_escaped(&mut line, b"", id)?;
    Ok(line)
}

pub(crate) fn word_in(line: &[u8]) -> &[u8]
    ensures { (id : List ℕ) → line.now ≡ escaped_line [] id → result.now ≡ escaped id }
{
    match line {
        [_, word @ .., _] => word,
        _ => line,
    }
}
