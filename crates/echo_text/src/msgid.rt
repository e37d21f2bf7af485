//! Message ids (FTS-0009).

ghost use Rattle.std.specs.Prelude.{◌≡◌, ◌≤◌, ◌||◌, not, true, false, length, reverse, take_while, IfOk, IsTrue, MatchOption, MatchResult};
ghost use Rattle.std.specs.{List.list_all, Str.Parse.AllDigits, Str.Parse.digits_value};
ghost use Rattle.echo_addr.specs.Entries.{is_blank};
ghost use Rattle.echo_text.specs.Ids.{IdOf, IdParts, NoId, SpellsOrigin, ends_quoted, id_of, is_bare_origin, is_gap, is_hex_digit, is_id_trimmed, is_line_byte, is_quoted_origin, undoubled, without_gap};
ghost use Rattle.echo_text.specs.declared.fault.TextFault.TheVariants.{BadMsgId};

use crate::fault::TextFault;
use crate::words::trimmed;
use echo_addr::{Address, is_blank};
use std::alloc::{AllocError, Global};

/// How many digits to the base 16 a serial has.
const DIGITS: usize = 8;

/// A parsed message id (FTS-0009). `origin` is the part before the serial, without the double
/// quotes around it if it was quoted. Double quotes inside are then still doubled.
#[derive(Clone, Copy, Debug, PartialEq, Eq)]
pub struct MsgId<'a> {
    pub origin: &'a [u8],
    pub quoted: bool,
    pub serial: u32,
}

impl<'a> MsgId<'a> {
    /// The id that the bytes spell; blanks are allowed at both ends. Takes no memory.
    pub fn read(bytes: &'a [u8]) -> Result<MsgId<'a>, TextFault>
        ensures { MatchResult result (λ id. IdOf bytes.now id.origin.now id.quoted id.serial) (λ fault. (fault ≡ BadMsgId) × NoId bytes.now) }
    {
        match parts_of(trimmed(bytes)) {
            Some(id) => Ok(id),
            None => Err(TextFault::BadMsgId),
        }
    }

    /// The origin: where it was quoted, each doubled double quote made one.
    pub fn plain(&self, alloc: Global) -> Result<Vec<u8>, AllocError>
        ensures bare { self.now.quoted ≡ false → IfOk result (λ v. v.items ≡ self.now.origin.now) }
        ensures quoted { self.now.quoted ≡ true → IfOk result (λ v. v.items ≡ undoubled false self.now.origin.now) }
    {
        if self.quoted {
            undoubled(alloc, self.origin)
        } else {
            Vec::from_slice(alloc, self.origin)
        }
    }

    /// The id of a message of this system with this serial: `zone:net/node`, a blank and eight digits.
    pub fn write(alloc: Global, address: Address, serial: u32) -> Result<Vec<u8>, AllocError>
        ensures { IfOk result (λ v. v.items ≡ id_of address serial) }
    {
        let digits = hex::encode(alloc, serial.to_be_bytes())?;
        let text = format!(in alloc; "{address} {digits}")?;
        Ok(text.into_bytes())
    }
}

fn parts_of(id: &[u8]) -> Option<MsgId>
    ensures { MatchOption result (is_id_trimmed id.now ≡ false) (λ m. IdParts id.now m.origin.now m.quoted m.serial) }
{
    if id.len() < DIGITS || !is_line(id) {
        return None;
    }
    let (front, digits) = id.split_at(id.len() - DIGITS);
    let spelled = without_gap(front);
    if spelled.len() == front.len() {
        return None;
    }
    let serial = parse_hex(digits)?;
    let (origin, quoted) = spelled_origin(spelled)?;
    Some(MsgId {
        origin,
        quoted,
        serial,
    })
}

fn is_line(bytes: &[u8]) -> bool
    ensures { result ≡ list_all is_line_byte bytes.now }
{
    bytes.iter().all(|b| !(*b == 0 || *b == b'\r'))
}

fn without_gap(front: &[u8]) -> &[u8]
    ensures value { result.now ≡ without_gap front.now }
    ensures within { length result.now ≤ length front.now }
{
    &front[..front.len() - gap_len(front)]
}

fn gap_len(front: &[u8]) -> usize
    ensures exact { result ≡ length (take_while is_gap (reverse front.now)) }
    ensures within { result ≤ length front.now }
{
    front.iter().rev().take_while(|b| **b == b' ').count()
}

/// The number that at most eight digits to the base 16 write, in either case.
pub fn parse_hex(digits: &[u8]) -> Option<u32>
    requires { length digits.now ≤ 8 }
    ensures { MatchOption result (list_all is_hex_digit digits.now ≡ false) (λ n. AllDigits 16 digits.now × (digits_value 16 digits.now ≡ n)) }
{
    let mut value = 0;
    'digits: for digit in digits {
        let worth = char::from(*digit).to_digit(16)?;
        value = value * 16 + worth;
    }
    Some(value)
}

fn spelled_origin(spelled: &[u8]) -> Option<(&[u8], bool)>
    ensures { MatchOption result ((is_quoted_origin spelled.now || is_bare_origin spelled.now) ≡ false) (λ o. SpellsOrigin o.1 spelled.now o.0.now) }
{
    if is_quoted(spelled) {
        return Some((&spelled[1..spelled.len() - 1], true));
    }
    if is_bare(spelled) {
        return Some((spelled, false));
    }
    None
}

fn is_quoted(spelled: &[u8]) -> bool
    ensures value { result ≡ is_quoted_origin spelled.now }
    ensures room { IsTrue result → 2 ≤ length spelled.now }
{
    if spelled.is_empty() {
        return false;
    }
    if spelled[0] != b'"' {
        return false;
    }
    ends_quoted(&spelled[1..])
}

fn ends_quoted(rest: &[u8]) -> bool
    ensures { result ≡ ends_quoted false rest.now }
{
    let mut single = false;
    'bytes: for byte in rest {
        let quote = *byte == b'"';
        if single && !quote {
            return false;
        }
        single = quote && !single;
    }
    single
}

fn is_bare(spelled: &[u8]) -> bool
    ensures { result ≡ is_bare_origin spelled.now }
{
    if spelled.is_empty() {
        return false;
    }
    if spelled[0] == b'"' {
        return false;
    }
    has_no_blank(spelled)
}

fn has_no_blank(bytes: &[u8]) -> bool
    ensures { result ≡ list_all (λ b. not (is_blank b)) bytes.now }
{
    bytes.iter().all(|b| !is_blank(*b))
}

fn undoubled(alloc: Global, bytes: &[u8]) -> Result<Vec<u8>, AllocError>
    ensures { IfOk result (λ v. v.items ≡ undoubled false bytes.now) }
{
    let mut found = Vec::new(alloc);
    let mut taken = false;
    'bytes: for byte in bytes {
        if taken && *byte == b'"' {
            taken = false;
        } else {
            found.push(*byte)?;
            taken = *byte == b'"';
        }
    }
    Ok(found)
}
