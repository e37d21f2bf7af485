//! The words of a line, and which of them is wrong.

ghost use Rattle.std.specs.Prelude.{◌≡◌, [], true, false, IfOk, MatchOption};
ghost use Rattle.{echo_addr.specs.Entries.tokens, cmd_show.specs.Before.{Tells, links_say}};
ghost use Rattle.{echo_links.specs.{LinkLines.{is_one_address, links_fault}, LinkReading.IsWordOf}, cmd_show.specs.FaultyLines.{not_one_address, word_with_control}};

use echo_addr::{Address, next_token};
use echo_links::{LinkFault, has_control_byte};
use std::alloc::{AllocError, Global};
use std::collections::BTreeSet;

/// A fault of a line, and the word that is wrong in the line.
#[derive(Clone, Copy)]
pub(crate) struct FaultyWord<'a> {
    pub(crate) fault: LinkFault,
    pub(crate) word: &'a [u8],
}

pub(crate) fn word_with_control(line: &[u8]) -> &[u8]
    ensures { result.now ≡ word_with_control (tokens line.now) }
{
    let mut rest = line;
    'words: while let Some((word, after)) = next_token(rest) {
        if has_control_byte(word) {
            return word;
        }
        rest = after;
    }
    b""
}

fn address(word: &[u8]) -> Option<Address>
    ensures { IsWordOf word.now result }
{
    Address::parse(word).ok()
}

/// The faulty word after SYSTEM: none where just one address follows.
pub(crate) fn wrong_system_word(rest: &[u8]) -> Option<&[u8]>
    ensures { MatchOption result (is_one_address (tokens rest.now) ≡ true)
        (λ word. (is_one_address (tokens rest.now) ≡ false) × (word.now ≡ not_one_address (tokens rest.now))) }
{
    let Some((word, after)) = next_token(rest) else {
        return Some(b"");
    };
    if address(word).is_none() {
        return Some(word);
    }
    let (second, _) = next_token(after)?;
    Some(second)
}

/// The first fault of an AREA line's links, read from the bytes after its tag.
pub(crate) fn wrong_link<'a>(
    alloc: Global,
    number: u64,
    rest: &'a [u8],
) -> Result<Option<FaultyWord<'a>>, AllocError>
    ensures { IfOk result (λ found. Tells (links_fault number [] (tokens rest.now)) (links_say (tokens rest.now)) (Unit {0}) (Unit {0}) found) }
{
    let mut sorted = BTreeSet::new(alloc);
    let mut left = rest;
    'links: while let Some((word, after)) = next_token(left) {
        let Some(address) = address(word) else {
            let fault = LinkFault::BadAddress { line: number };
            return Ok(Some(FaultyWord { fault, word }));
        };
        if !sorted.insert(address)? {
            let fault = LinkFault::RepeatedLink { line: number };
            return Ok(Some(FaultyWord { fault, word }));
        }
        left = after;
    }
    Ok(None)
}
