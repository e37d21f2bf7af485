//! What stands in the files of a JAM base, and where a next message goes.

ghost use Rattle.std.specs.Prelude.{◌≡◌, ◌+◌, ◌*◌, ◌/◌, ◌≤◌, ◌<◌, ◌^◌, IsTrue, length};
ghost use Rattle.echo_filed.specs.Stored as numbers;
ghost use Rattle.echo_packet.specs.Header as words;
ghost use Rattle.echo_jam.specs.Standing.{active_at, active_in, are_entries, entries_in, fields_end, has_mark, has_text, is_base, is_counted, is_deleted_at, is_entry, is_header, is_unwritten, last_at, last_in, next_number, place_in, standing_in, written_behind};

/// The last message of a base: the place of its header, that of its text, and how long that is.
#[derive(Clone, Copy)]
pub struct Last {
    pub place: u32,
    pub text: u32,
    pub size: u32,
}

/// The state of a JAM base. `entries` leaves out index entries of zeros at the end. `active` is the count of active
/// messages that the base states, `counted` that of those found. `last` is none if that message is gone.
#[derive(Clone, Copy)]
pub struct Standing {
    pub entries: u32,
    pub next: u32,
    pub changes: u32,
    pub active: u32,
    pub counted: u32,
    pub last: Option<Last>,
}

/// The state of the base, with so many bytes of texts. None if the files are damaged, or no JAM base.
pub fn read_standing(headers: &[u8], index: &[u8], texts: u64) -> Option<Standing>
    ensures { result ≡ standing_in headers.now index.now texts }
{
    if !is_base(headers, index, texts) {
        return None;
    }
    let entries = entries_in(index) as u32;
    Some(Standing {
        entries,
        next: long_at(headers, 20) + entries,
        changes: long_at(headers, 8),
        active: long_at(headers, 12),
        counted: active_in(headers, index),
        last: last_in(headers, index, texts),
    })
}

fn is_base(headers: &[u8], index: &[u8], texts: u64) -> bool
    ensures value { result ≡ is_base headers.now index.now texts }
    ensures room { IsTrue result → 1024 ≤ length headers.now }
    ensures small { IsTrue result → next_number headers.now index.now < 2 ^ 32 }
{
    if headers.len() < 1024 || !has_mark(headers, 0) {
        return false;
    }
    let next = long_at(headers, 20) as usize + entries_in(index);
    next < 1 << 32 && are_entries(headers, index, texts) && is_counted(headers, index)
}

fn is_counted(headers: &[u8], index: &[u8]) -> bool
    requires room { 1024 ≤ length headers.now }
    requires small { entries_in index.now < 2 ^ 32 }
    ensures { result ≡ is_counted headers.now index.now }
{
    entries_in(index) == index.len() / 8 || long_at(headers, 12) <= active_in(headers, index)
}

pub(crate) fn entries_in(index: &[u8]) -> usize
    ensures value { result ≡ entries_in index.now }
    ensures within { result ≤ length index.now / 8 }
{
    let mut entries = 0;
    'entries: for i in 0..index.len() / 8 {
        entries = written_behind(index, entries, i);
    }
    entries
}

fn written_behind(index: &[u8], before: usize, i: usize) -> usize
    requires room { 8 * i + 8 ≤ length index.now }
    requires few { before ≤ i }
    ensures value { result ≡ written_behind index.now before i }
    ensures within { result ≤ i + 1 }
{
    if is_unwritten(index, i) {
        before
    } else {
        i + 1
    }
}

fn is_unwritten(index: &[u8], i: usize) -> bool
    requires { 8 * i + 8 ≤ length index.now }
    ensures { result ≡ is_unwritten index.now i }
{
    long_at(index, 8 * i) == 0 && place_in(index, i) == 0
}

pub(crate) fn number_at(bytes: &[u8], at: usize) -> u32
    requires { at + 2 ≤ length bytes.now }
    ensures value { result ≡ words.number_at at bytes.now }
    ensures small { result < 65536 }
{
    u32::from(bytes[at]) + 256 * u32::from(bytes[at + 1])
}

pub(crate) fn long_at(bytes: &[u8], at: usize) -> u32
    requires { at + 4 ≤ length bytes.now }
    ensures { result ≡ numbers.long_at at bytes.now }
{
    number_at(bytes, at) + 65536 * number_at(bytes, at + 2)
}

fn has_mark(headers: &[u8], at: usize) -> bool
    requires { at + 4 ≤ length headers.now }
    ensures { result ≡ has_mark headers.now at }
{
    &headers[at..at + 4] == b"JAM\0".as_slice()
}

fn is_header(headers: &[u8], texts: u64, place: u32) -> bool
    ensures value { result ≡ is_header headers.now texts place }
    ensures room { IsTrue result → place + 76 ≤ length headers.now }
{
    let at = place as usize;
    if at < 1024 || headers.len() < at + 76 {
        return false;
    }
    has_mark(headers, at)
        && fields_end(headers, at) <= headers.len()
        && has_text(headers, texts, at)
}

fn fields_end(headers: &[u8], at: usize) -> usize
    requires room { at + 76 ≤ length headers.now }
    requires small { at < 2 ^ 32 }
    ensures { result ≡ fields_end headers.now at }
{
    at + 76 + long_at(headers, at + 8) as usize
}

fn has_text(headers: &[u8], texts: u64, at: usize) -> bool
    requires room { at + 76 ≤ length headers.now }
    requires small { at < 2 ^ 32 }
    ensures { result ≡ has_text headers.now texts at }
{
    let end = u64::from(long_at(headers, at + 60)) + u64::from(long_at(headers, at + 64));
    is_deleted(headers, at) || end <= texts
}

pub(crate) fn is_deleted(headers: &[u8], at: usize) -> bool
    requires { at < 2 ^ 32 }
    ensures { result ≡ is_deleted_at headers.now at }
{
    match headers.get(at + 55) {
        Some(byte) => *byte >= 128,
        None => false,
    }
}

pub(crate) fn place_in(index: &[u8], i: usize) -> u32
    requires { 8 * i + 8 ≤ length index.now }
    ensures { result ≡ place_in index.now i }
{
    long_at(index, 8 * i + 4)
}

fn are_entries(headers: &[u8], index: &[u8], texts: u64) -> bool
    ensures { result ≡ are_entries headers.now index.now texts (entries_in index.now) }
{
    let mut whole = true;
    'entries: for i in 0..entries_in(index) {
        whole = whole && is_entry(headers, texts, place_in(index, i));
    }
    whole
}

fn is_entry(headers: &[u8], texts: u64, place: u32) -> bool
    ensures { result ≡ is_entry headers.now texts place }
{
    place == u32::MAX || is_header(headers, texts, place)
}

fn active_in(headers: &[u8], index: &[u8]) -> u32
    requires { entries_in index.now < 2 ^ 32 }
    ensures { result ≡ active_in headers.now index.now (entries_in index.now) }
{
    let mut count = 0;
    'entries: for i in 0..entries_in(index) {
        count += active_at(headers, place_in(index, i));
    }
    count
}

fn active_at(headers: &[u8], place: u32) -> u32
    ensures value { result ≡ active_at headers.now place }
    ensures small { result ≤ 1 }
{
    if place == u32::MAX || is_deleted(headers, place as usize) {
        0
    } else {
        1
    }
}

fn last_in(headers: &[u8], index: &[u8], texts: u64) -> Option<Last>
    ensures { result ≡ last_in headers.now index.now texts }
{
    let entries = entries_in(index);
    if entries == 0 {
        return None;
    }
    last_at(headers, texts, place_in(index, entries - 1))
}

pub(crate) fn last_at(headers: &[u8], texts: u64, place: u32) -> Option<Last>
    ensures { result ≡ last_at headers.now texts place }
{
    if place == u32::MAX || !is_header(headers, texts, place) {
        return None;
    }
    let at = place as usize;
    Some(Last {
        place,
        text: long_at(headers, at + 60),
        size: long_at(headers, at + 64),
    })
}
