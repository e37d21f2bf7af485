//! The messages of a JAM base that an editor wrote, read for posting, and the ids that a base has.
ghost use Rattle.std.specs.Prelude.{◌≡◌, ◌+◌, ◌≤◌, ◌<◌, ◌^◌, IfOk, length};
ghost use Rattle.echo_jam.specs.{Unsent.{IsJamDraft, has_id_at, is_local_at, is_sent_at, is_unsent}, Same.fields_at};
ghost use Rattle.echo_jam.specs.Unsent as unsent;

use crate::content::{MOST_OF_ID, front};
use crate::same::fields_at;
use crate::standing::{Last, entries_in, is_deleted, last_at, place_in};
use crate::subfields::{controls_of, field_or_none};
use echo_addr::Items;
use echo_stored::extract_body;
use std::alloc::{AllocError, Global};

/// The offset in a header of the byte with the bits Local and Sent.
pub const ATTRIBUTE_AT: usize = 52;

/// The parts that an editor wrote: names, subject, ids and lines that end in 0D. The ids are those of the message
/// replied to and of the message; each may be empty. Lines that posting makes or a scan adds are left out.
#[derive(Drop)]
pub struct JamDraft<'a> {
    pub from_name: &'a [u8],
    pub to_name: &'a [u8],
    pub subject: &'a [u8],
    pub reply: &'a [u8],
    pub id: &'a [u8],
    pub body: Items<u8>,
}

/// The message of an index entry, if it was written here, not sent yet and not deleted. `texts` is in bytes.
pub fn read_unsent(headers: &[u8], index: &[u8], texts: u64, i: usize) -> Option<Last>
    ensures { result ≡ unsent.unsent_at headers.now index.now texts i }
{
    if i < entries_in(index) && is_unsent(headers, place_in(index, i) as usize) {
        last_at(headers, texts, place_in(index, i))
    } else {
        None
    }
}

fn is_unsent(headers: &[u8], at: usize) -> bool
    requires { at < 2 ^ 32 }
    ensures { result ≡ is_unsent headers.now at }
{
    headers.len() >= at + 76
        && is_local(headers, at)
        && !is_sent(headers, at)
        && !is_deleted(headers, at)
}

fn is_local(headers: &[u8], at: usize) -> bool
    requires { at + 76 ≤ length headers.now }
    ensures { result ≡ is_local_at headers.now at }
{
    headers[at + ATTRIBUTE_AT] % 2 == 1
}

fn is_sent(headers: &[u8], at: usize) -> bool
    requires { at + 76 ≤ length headers.now }
    ensures { result ≡ is_sent_at headers.now at }
{
    headers[at + ATTRIBUTE_AT] / 16 % 2 == 1
}

/// The message at this header, with this text, read for posting.
pub fn read_jam<'a>(
    alloc: Global,
    headers: &'a [u8],
    place: u32,
    text: &[u8],
) -> Result<JamDraft<'a>, AllocError>
    requires { place + 76 ≤ length headers.now }
    ensures { IfOk result (IsJamDraft (fields_at headers.now place) text.now) }
{
    let fields = fields_at(headers, place as usize);
    let mut lines = controls_of(alloc, fields)?;
    lines.extend_from_slice(text)?;
    Ok(JamDraft {
        from_name: field_or_none(fields, 2),
        to_name: field_or_none(fields, 3),
        subject: field_or_none(fields, 6),
        reply: field_or_none(fields, 5),
        id: field_or_none(fields, 4),
        body: Items::new(extract_body(alloc, &lines)?),
    })
}

/// The byte with the bits Local and Sent of a message that is to be posted, once it is sent.
pub fn sent_attribute(headers: &[u8], place: u32) -> Option<u8>
    ensures { result ≡ unsent.sent_attribute headers.now place }
{
    if !is_unsent(headers, place as usize) {
        return None;
    }
    Some(headers[place as usize + ATTRIBUTE_AT] + 16)
}

/// Whether a message of the base has the id, cut as its subfield has it.
pub fn has_id(headers: &[u8], index: &[u8], id: &[u8]) -> bool
    ensures { result ≡ unsent.has_id headers.now index.now id.now }
{
    let mut found = false;
    'entries: for i in 0..entries_in(index) {
        found = found || has_id_at(headers, place_in(index, i), id);
    }
    found
}

fn has_id_at(headers: &[u8], place: u32, id: &[u8]) -> bool
    ensures { result ≡ has_id_at headers.now place id.now }
{
    let at = place as usize;
    headers.len() >= at + 76 && field_or_none(fields_at(headers, at), 4) == front(id, MOST_OF_ID)
}
