//! Links between the messages of a JAM base.
ghost use Rattle.std.specs.Prelude.{◌≡◌, ◌+◌, ◌-◌, ◌*◌, ◌≤◌, ◌<◌, ◌^◌, ◌++◌, IfSome, drop, length, take};
ghost use Rattle.echo_filed.specs.Stored.{long};
ghost use Rattle.echo_jam.specs.Links.{behind_reply, field_at, field_in, last_with, linked, linked_at, linked_to, with_field, with_field_in};
ghost use Rattle.echo_jam.specs.Standing.{place_in};

use crate::standing::{long_at, place_in};
use echo_filed::long_bytes;

/// The offsets of the link fields in a header, and of the fields by which they are found.
const ID_AT: usize = 16;

const REPLY_AT: usize = 20;

const REPLY_TO_AT: usize = 24;

const FIRST_REPLY_AT: usize = 28;

const NEXT_REPLY_AT: usize = 32;

const NUMBER_AT: usize = 48;

/// Links the messages of `count` index entries from `from` on to those that they reply to. Existing links do
/// not change.
pub fn link_replies(headers: &mut [u8], index: &[u8], from: usize, count: usize)
    requires { 8 * (from + count) ≤ length index.now }
    ensures { headers.new ≡ linked headers.old index.now from count }
{
    'entries: for n in 0..count {
        link_at(headers, index, from + n);
    }
}

fn link_at(headers: &mut [u8], index: &[u8], i: usize)
    requires { 8 * i + 8 ≤ length index.now }
    ensures { headers.new ≡ linked_at headers.old index.now i }
{
    let reply = field_in(headers, index, REPLY_AT, i);
    if reply == u32::MAX || field_in(headers, index, NUMBER_AT, i) == 0 {
        return;
    }
    let found = last_with(headers, index, ID_AT, reply, 0, i);
    link_to(headers, index, i, found);
}

fn link_to(headers: &mut [u8], index: &[u8], i: usize, found: Option<usize>)
    requires room { 8 * i + 8 ≤ length index.now }
    requires before { IfSome found (λ k. k < i) }
    ensures { headers.new ≡ linked_to headers.old index.now i found }
{
    let Some(k) = found else {
        return;
    };
    let number = field_in(headers, index, NUMBER_AT, k);
    let last = last_with(headers, index, REPLY_TO_AT, number, k + 1, i - (k + 1));
    link_behind(headers, index, i, k, last);
    set_in(headers, index, REPLY_TO_AT, i, number);
}

fn link_behind(headers: &mut [u8], index: &[u8], i: usize, k: usize, last: Option<usize>)
    requires room { 8 * i + 8 ≤ length index.now }
    requires before { k < i }
    requires last { IfSome last (λ l. l < i) }
    ensures { headers.new ≡ behind_reply headers.old index.now i k last }
{
    let number = field_in(headers, index, NUMBER_AT, i);
    match last {
        Some(last) => set_in(headers, index, NEXT_REPLY_AT, last, number),
        None => set_in(headers, index, FIRST_REPLY_AT, k, number),
    }
}

fn last_with(
    headers: &[u8],
    index: &[u8],
    offset: usize,
    wanted: u32,
    low: usize,
    count: usize,
) -> Option<usize>
    requires room { 8 * (low + count) ≤ length index.now }
    requires small { offset ≤ 72 }
    ensures value { result ≡ last_with headers.now index.now offset wanted low count }
    ensures within { IfSome result (λ k. k < low + count) }
{
    let mut n = count;
    'entries: while n > 0 {
        n -= 1;
        if field_in(headers, index, offset, low + n) == wanted {
            return Some(low + n);
        }
    }
    None
}

fn field_in(headers: &[u8], index: &[u8], offset: usize, i: usize) -> u32
    requires room { 8 * i + 8 ≤ length index.now }
    requires small { offset ≤ 72 }
    ensures { result ≡ field_in headers.now index.now offset i }
{
    field_at(headers, place_in(index, i) as usize + offset)
}

fn field_at(headers: &[u8], at: usize) -> u32
    requires { at < 2 ^ 33 }
    ensures { result ≡ field_at headers.now at }
{
    if at + 4 <= headers.len() {
        long_at(headers, at)
    } else {
        0
    }
}

fn set_in(headers: &mut [u8], index: &[u8], offset: usize, i: usize, number: u32)
    requires room { 8 * i + 8 ≤ length index.now }
    requires small { offset ≤ 72 }
    ensures { headers.new ≡ with_field_in headers.old index.now offset i number }
{
    set_at(headers, place_in(index, i) as usize + offset, number);
}

fn set_at(headers: &mut [u8], at: usize, number: u32)
    requires { at < 2 ^ 33 }
    ensures { headers.new ≡ with_field headers.old at number }
{
    if at + 4 <= headers.len() && long_at(headers, at) == 0 {
        put_long(headers, at, number);
    }
}

fn put_long(headers: &mut [u8], at: usize, number: u32)
    requires { at + 4 ≤ length headers.old }
    ensures { headers.new ≡ take at headers.old ++ (long number ++ drop (at + 4) headers.old) }
{
    headers[at..at + 4].copy_from_slice(&long_bytes(number));
}
