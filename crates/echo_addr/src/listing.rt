//! The entries of a SEEN-BY or PATH line, read (FTS-0004).

ghost use Rattle.std.specs.Prelude.{◌≡◌, ◌<◌, [], ◌∷◌, ◌++◌, drop, length, take, not, position, Some, MatchOption, IfOk, IfSome, OnOk, OnErr};
ghost use Rattle.std.specs.{List.position_or_len, Option.option_or};
ghost use Rattle.echo_addr.specs.Entries.{dropped, entries, entry_from, is_blank, pair_of, part_of, tokens};

use crate::address::NetNode;
use crate::blanks::is_blank;
use crate::digits::number;
use crate::places::place;
use std::alloc::{AllocError, Global};

/// The greatest net or node of an entry.
const MOST: u32 = 65535;

/// How many bytes most tokens have at least, each with its blank.
const TOKEN_LEN: usize = 4;

/// The entries after the colon of a SEEN-BY or PATH line (FTS-0004), in order, and how many tokens were dropped. A
/// token is `net/node`, or a node with the net of the nearest such token before it. Each is decimal, at most 65,535.
pub fn read_list(alloc: Global, bytes: &[u8]) -> Result<(Vec<NetNode>, usize), AllocError>
    ensures entries { IfOk result (λ r. r.0.items ≡ entries bytes.now) }
    ensures dropped { IfOk result (λ r. r.1 ≡ dropped bytes.now) }
{
    let mut found = Vec::new(alloc);
    let dropped = add_list(&mut found, bytes)?;
    Ok((found, dropped))
}

/// Adds those entries, and answers how many tokens were dropped. Out of memory leaves the list as it was.
pub fn add_list(found: &mut Vec<NetNode>, bytes: &[u8]) -> Result<usize, AllocError>
    ensures entries { OnOk result (found.new.items ≡ found.old.items ++ entries bytes.now) }
    ensures dropped { IfOk result (λ n. n ≡ dropped bytes.now) }
    ensures err { OnErr result (found.new.items ≡ found.old.items) }
{
    let before = found.len();
    let dropped = add_entries(found, bytes);
    if dropped.is_err() {
        found.truncate(before);
    }
    dropped
}

/// Out of memory leaves some first entries appended to the list.
#[tactic(auto, using(crate::proofs::Carrying::kept_behind))]
fn add_entries(found: &mut Vec<NetNode>, bytes: &[u8]) -> Result<usize, AllocError>
    ensures entries { OnOk result (found.new.items ≡ found.old.items ++ entries bytes.now) }
    ensures dropped { IfOk result (λ n. n ≡ dropped bytes.now) }
    ensures err { OnErr result (take (length found.old.items) found.new.items ≡ found.old.items) }
{
    found.reserve(bytes.len() / TOKEN_LEN)?;
    let mut dropped = 0;
    let mut net = None;
    let mut rest = bytes;
    'tokens: while let Some((token, after)) = next_token(rest) {
        match entry(net, token) {
            Some(entry) => {
                found.push(entry)?;
                net = Some(entry.net);
            }
            None => dropped += 1,
        }
        rest = after;
    }
    Ok(dropped)
}

/// The first token and the bytes after it. Takes no memory.
pub fn next_token(bytes: &[u8]) -> Option<(&[u8], &[u8])>
    ensures token { MatchOption result (tokens bytes.now ≡ []) (λ r. tokens bytes.now ≡ r.0.now ∷ tokens r.1.now) }
    ensures after { IfSome result (λ r. r.1.now ≡ drop (length r.0.now) (drop (position_or_len (λ b. not (is_blank b)) bytes.now) bytes.now)) }
    ensures shorter { IfSome result (λ r. length r.1.now < length bytes.now) }
{
    let begun = &bytes[first_other(bytes)?..];
    let end = first_blank(begun).unwrap_or(begun.len());
    Some(begun.split_at(end))
}

fn first_blank(bytes: &[u8]) -> Option<usize>
    ensures { result ≡ position is_blank bytes.now }
{
    bytes.iter().position(|b| is_blank(*b))
}

fn first_other(bytes: &[u8]) -> Option<usize>
    ensures { result ≡ position (λ b. not (is_blank b)) bytes.now }
{
    bytes.iter().position(|b| !is_blank(*b))
}

/// `net` is that of the nearest `net/node` before the token. Most tokens are a node alone.
fn entry(net: Option<u16>, token: &[u8]) -> Option<NetNode>
    ensures { result ≡ option_or (pair_of token.now) (entry_from net (part_of token.now)) }
{
    match part(token) {
        Some(node) => alone(net, node),
        None => pair(token),
    }
}

fn pair(token: &[u8]) -> Option<NetNode>
    ensures { result ≡ pair_of token.now }
{
    let slash = place(token, b'/')?;
    let net = part(&token[..slash])?;
    let node = part(&token[slash + 1..])?;
    Some(NetNode { net, node })
}

fn alone(net: Option<u16>, node: u16) -> Option<NetNode>
    ensures { result ≡ entry_from net (Some node) }
{
    let net = net?;
    Some(NetNode { net, node })
}

fn part(digits: &[u8]) -> Option<u16>
    ensures { result ≡ part_of digits.now }
{
    match number(MOST + 1, digits) {
        Some(value) if value <= MOST => Some(value as u16),
        _ => None,
    }
}
