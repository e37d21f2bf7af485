//! Scripts: one event a line.

ghost use Rattle.std.specs.Prelude.{◌≡◌, ◌⊎◌, ◌≤◌, ◌^◌, ◌++◌, ◌∷◌, [], List, Some, None, Result, Ok, Err, MatchResult, IfOk, drop, length, option_map};
ghost use Rattle.std.specs.{Char.is_ascii_uppercase, List.list_any};
ghost use Rattle.echo_addr.specs.Entries.{tokens};
ghost use Rattle.model_run.specs.declared.event.Event.{Event, TheVariants.Deliver, TheVariants.Purge, TheVariants.Scan};
ghost use Rattle.echo_net.specs.{Script.ScriptOf, Script.draft_of, Script.event_in, Script.events_in, Script.index_in, Script.script_line_fault, Script.moment, Script.number_in, Script.only_index, Script.posting_in, Script.serial_in, declared.script.ScriptFault.ScriptFault};
ghost use Rattle.echo_net.specs.declared.script.ScriptFault.TheVariants as script;

use echo_addr::{Items, next_token};
use echo_links::{has_control_byte, is_skipped, split_line};
use model_run::Event;
use model_steps::{Draft, Stamp};
use std::alloc::{AllocError, AllocFailed, Global};
use thiserror::Error;

/// Why bytes are no script.
#[derive(Clone, Copy, Debug, PartialEq, Eq, Error)]
pub enum ScriptFault {
    /// The first line of another form, counted from 1.
    #[error("script line {0}")]
    Line(u64),
    /// A growth was refused.
    #[error("out of memory")]
    Memory,
}

impl From<AllocError> for ScriptFault {
    ghost from_gives = { λ _ e. e ≡ script.Memory };

    fn from(_e: AllocError) -> Self {
        ScriptFault::Memory
    }
}

impl<T: Drop> From<AllocFailed<T>> for ScriptFault {
    ghost from_gives = { λ _ e. e ≡ script.Memory };

    fn from(_e: AllocFailed<T>) -> Self {
        ScriptFault::Memory
    }
}

const POST: &[u8] = b"POST";

const SCAN: &[u8] = b"SCAN";

const DELIVER: &[u8] = b"DELIVER";

const PURGE: &[u8] = b"PURGE";

/// Whom a posting is for, and whom it is from.
const TO: &[u8] = b"All";

const FROM: &[u8] = b"Sysop";

/// The moment of every posting and scan.
const MOMENT: Stamp = Stamp {
    year: 2000,
    month: 1,
    day: 1,
    hour: 0,
    minute: 0,
    second: 0,
};

/// The most digits of an index.
const INDEX_DIGITS: usize = 9;

/// The digits of a serial.
const SERIAL_DIGITS: usize = 8;

/// The events of a script, one a line: `POST i TAG serial body`, `SCAN i`, `DELIVER k` or `PURGE i`. Blank lines and
/// lines that begin with `;` are skipped. An index has 1 to 9 decimal digits, a serial eight hexadecimal ones with
/// small letters. The body is the rest of the line after one blank. It is posted to All, from Sysop, with the serial's
/// digits as subject. A fault is the first line of another form. Only `Memory` may be returned instead.
pub fn read_script(alloc: Global, bytes: &[u8]) -> Result<Vec<Event>, ScriptFault>
    ensures judged { MatchResult result (λ events. ScriptOf bytes.now (Ok events.items)) (λ fault. (fault ≡ script.Memory) ⊎ ScriptOf bytes.now (Err fault)) }
    ensures only { (other : Result (List Event) ScriptFault) → ScriptOf bytes.now other →
        MatchResult result (λ events. other ≡ Ok events.items) (λ fault. (fault ≡ script.Memory) ⊎ (other ≡ Err fault)) }
{
    events_in(alloc, bytes)
}

fn events_in(alloc: Global, bytes: &[u8]) -> Result<Vec<Event>, ScriptFault>
    ensures { MatchResult result (λ events. ScriptOf bytes.now (Ok events.items)) (λ fault. (fault ≡ script.Memory) ⊎ ScriptOf bytes.now (Err fault)) }
{
    let mut events = Vec::new(alloc);
    let mut rest = bytes;
    let mut number = 0;
    'lines: while !rest.is_empty() {
        let (line, after) = split_line(rest);
        number += 1;
        take_line(alloc, &mut events, number, line)?;
        rest = after;
    }
    Ok(events)
}

fn take_line(
    alloc: Global,
    events: &mut Vec<Event>,
    number: u64,
    line: &[u8],
) -> Result<(), ScriptFault>
    ensures { MatchResult result
        (λ _. (script_line_fault number line.now ≡ None) × (events.new.items ≡ events.old.items ++ events_in (line.now ∷ [])))
        (λ fault. (fault ≡ script.Memory) ⊎ (script_line_fault number line.now ≡ Some fault)) }
{
    if is_skipped(line) {
        return Ok(());
    }
    let Some(event) = event_in(alloc, line)? else {
        return Err(ScriptFault::Line(number));
    };
    events.push(event)?;
    Ok(())
}

fn event_in(alloc: Global, line: &[u8]) -> Result<Option<Event>, AllocError>
    ensures { IfOk result (λ event. event ≡ event_in line.now) }
{
    if has_control_byte(line) {
        return Ok(None);
    }
    let Some((word, rest)) = next_token(line) else {
        return Ok(None);
    };
    if word == POST {
        posting(alloc, rest)
    } else if word == SCAN {
        Ok(scan(rest))
    } else if word == DELIVER {
        Ok(delivery(rest))
    } else if word == PURGE {
        Ok(purge(rest))
    } else {
        Ok(None)
    }
}

fn scan(rest: &[u8]) -> Option<Event>
    ensures { result ≡ option_map (λ i. Scan i moment) (only_index (tokens rest.now)) }
{
    let system = only_index(rest)?;
    Some(Event::Scan {
        system,
        stamp: MOMENT,
    })
}

fn delivery(rest: &[u8]) -> Option<Event>
    ensures { result ≡ option_map (λ k. Deliver k) (only_index (tokens rest.now)) }
{
    let packet = only_index(rest)?;
    Some(Event::Deliver { packet })
}

fn purge(rest: &[u8]) -> Option<Event>
    ensures { result ≡ option_map (λ i. Purge i) (only_index (tokens rest.now)) }
{
    let system = only_index(rest)?;
    Some(Event::Purge { system })
}

fn posting(alloc: Global, rest: &[u8]) -> Result<Option<Event>, AllocError>
    ensures { IfOk result (λ event. event ≡ posting_in rest.now) }
{
    let Some((first, after_first)) = next_token(rest) else {
        return Ok(None);
    };
    let Some((tag, after_tag)) = next_token(after_first) else {
        return Ok(None);
    };
    let Some((digits, after_digits)) = next_token(after_tag) else {
        return Ok(None);
    };
    let Some(system) = index(first) else {
        return Ok(None);
    };
    let Some(serial) = serial(digits) else {
        return Ok(None);
    };
    let body = after_blank(after_digits);
    Ok(Some(Event::Post {
        system,
        tag: Items::new(Vec::from_slice(alloc, tag)?),
        draft: draft(alloc, digits, body)?,
        serial,
        stamp: MOMENT,
    }))
}

fn after_blank(bytes: &[u8]) -> &[u8]
    ensures { result.now ≡ drop 1 bytes.now }
{
    match bytes {
        [_, body @ ..] => body,
        [] => bytes,
    }
}

fn draft(alloc: Global, digits: &[u8], body: &[u8]) -> Result<Draft, AllocError>
    ensures { IfOk result (λ draft. draft ≡ draft_of digits.now body.now) }
{
    Ok(Draft {
        to_name: Items::new(Vec::from_slice(alloc, TO)?),
        from_name: Items::new(Vec::from_slice(alloc, FROM)?),
        subject: Items::new(Vec::from_slice(alloc, digits)?),
        reply: Items::new(Vec::new(alloc)),
        body: Items::new(Vec::from_slice(alloc, body)?),
    })
}

fn only_index(rest: &[u8]) -> Option<usize>
    ensures { result ≡ only_index (tokens rest.now) }
{
    let (word, after) = next_token(rest)?;
    if next_token(after).is_some() {
        return None;
    }
    index(word)
}

#[tactic(auto, using(crate::proofs::Words::index_empty, crate::proofs::Words::index_long, crate::proofs::Words::index_short))]
fn index(word: &[u8]) -> Option<usize>
    ensures { result ≡ index_in word.now }
{
    if word.is_empty() {
        return None;
    }
    if word.len() > INDEX_DIGITS {
        return None;
    }
    let number = number(10, word)?;
    Some(number as usize)
}

#[tactic(auto, using(crate::proofs::Words::serial_of_other_length, crate::proofs::Words::serial_of_capitals, crate::proofs::Words::serial_of_eight))]
fn serial(word: &[u8]) -> Option<u32>
    ensures { result ≡ serial_in word.now }
{
    if word.len() != SERIAL_DIGITS {
        return None;
    }
    if has_capital(word) {
        return None;
    }
    number(16, word)
}

fn has_capital(word: &[u8]) -> bool
    ensures { result ≡ list_any is_ascii_uppercase word.now }
{
    word.iter().any(|b| b.is_ascii_uppercase())
}

fn number(radix: u32, digits: &[u8]) -> Option<u32>
    requires least { 2 ≤ radix }
    requires most { radix ≤ 36 }
    requires room { radix ^ length digits.now ≤ 2 ^ 32 }
    ensures { result ≡ number_in radix digits.now }
{
    let mut value = 0;
    for byte in digits {
        let digit = char::from(*byte).to_digit(radix)?;
        value = value * radix + digit;
    }
    Some(value)
}
