//! The lines of a link file one by one, each judged by the good lines before it.
ghost use Rattle.std.specs.Prelude.{◌≡◌, ◌++◌, ℕ, List, true, IfOk, OnOk};
ghost use Rattle.{echo_addr.specs.Entries.tokens, echo_text.specs.Lines.trimmed};
ghost use Rattle.{echo_links.specs.{Links.upper, LinkLines.first_of, LinkReading.{name_refusal, system_refusal}}, cmd_show.specs.FaultyLines.faulty_lines};
ghost use Rattle.cmd_show.specs.Before.{HasTagAdded, IsBefore, JudgesLine, Tells, area_refused, area_says, line_reported, name_says, system_says};

use crate::faulty::FaultyLine;
use crate::tags::Tags;
use crate::words::{FaultyWord, word_with_control, wrong_link, wrong_system_word};
use echo_addr::next_token;
use echo_links::{LinkFault, has_control_byte, is_skipped, split_line};
use echo_text::{is_tag, trimmed};
use std::alloc::{AllocError, Global};
use std::marker::Model;

const SYSTEM: &[u8] = b"SYSTEM";

const NAME: &[u8] = b"NAME";

const AREA: &[u8] = b"AREA";

/// The most bytes of a name.
const MOST: usize = 40;

/// What a later line is judged by: the own address and the tags of the good lines so far.
#[derive(Drop)]
struct EarlierLines {
    system: bool,
    name: bool,
    tags: Tags,
}

impl Model for EarlierLines {
    ghost use Rattle.cmd_show.specs.Before.{SaidBefore};

    ghost Value = { SaidBefore };

    ghost view = { λ b. record { system = b.system; name = b.name; tags = b.tags } };
}

impl EarlierLines {
    fn take<'a>(
        &mut self,
        alloc: Global,
        number: u64,
        line: &'a [u8],
    ) -> Result<Option<FaultyWord<'a>>, AllocError>
        ensures { (earlier : List (List ℕ)) → IsBefore earlier self.old → IfOk result (JudgesLine earlier number line.now self.new) }
    {
        if is_skipped(line) {
            return Ok(None);
        }
        let fault = LinkFault::UnknownWord { line: number };
        if has_control_byte(line) {
            let word = word_with_control(line);
            return Ok(Some(FaultyWord { fault, word }));
        }
        let Some((word, rest)) = next_token(line) else {
            return Ok(Some(FaultyWord { fault, word: b"" }));
        };
        if word == SYSTEM {
            Ok(self.take_system(number, word, rest))
        } else if word == NAME {
            Ok(self.take_name(number, word, rest))
        } else if word == AREA {
            self.take_area(alloc, number, rest)
        } else {
            Ok(Some(FaultyWord { fault, word }))
        }
    }

    fn take_system<'a>(
        &mut self,
        number: u64,
        word: &'a [u8],
        rest: &'a [u8],
    ) -> Option<FaultyWord<'a>>
        ensures { let words = tokens rest.now in Tells (system_refusal self.old.system number words) (system_says word.now words) (self.new ≡ record self.old { system = true }) (self.new ≡ self.old) result }
    {
        if self.system {
            let fault = LinkFault::RepeatedSystem { line: number };
            return Some(FaultyWord { fault, word });
        }
        if let Some(word) = wrong_system_word(rest) {
            let fault = LinkFault::BadAddress { line: number };
            return Some(FaultyWord { fault, word });
        }
        self.system = true;
        None
    }

    fn take_name<'a>(
        &mut self,
        number: u64,
        word: &'a [u8],
        rest: &'a [u8],
    ) -> Option<FaultyWord<'a>>
        ensures { let name = trimmed rest.now in Tells (name_refusal self.old.name number name) (name_says word.now name) (self.new ≡ record self.old { name = true }) (self.new ≡ self.old) result }
    {
        if self.name {
            let fault = LinkFault::RepeatedSystem { line: number };
            return Some(FaultyWord { fault, word });
        }
        let name = trimmed(rest);
        if name.len() > MOST {
            let fault = LinkFault::NameTooLong { line: number };
            return Some(FaultyWord { fault, word: name });
        }
        self.name = true;
        None
    }

    fn take_area<'a>(
        &mut self,
        alloc: Global,
        number: u64,
        rest: &'a [u8],
    ) -> Result<Option<FaultyWord<'a>>, AllocError>
        ensures { let words = tokens rest.now in IfOk result (Tells (area_refused self.old.tags number words) (area_says words)
            ((self.new.system ≡ self.old.system) × (self.new.name ≡ self.old.name) × HasTagAdded self.old.tags (upper (first_of words)) self.new.tags)
            (self.new ≡ self.old)) }
    {
        let fault = LinkFault::BadTag { line: number };
        let Some((word, after)) = next_token(rest) else {
            return Ok(Some(FaultyWord { fault, word: b"" }));
        };
        if !is_tag(word) {
            return Ok(Some(FaultyWord { fault, word }));
        }
        let tag = word.to_ascii_uppercase(alloc)?;
        if self.tags.has(&tag) {
            let fault = LinkFault::RepeatedArea { line: number };
            return Ok(Some(FaultyWord { fault, word }));
        }
        if let Some(wrong) = wrong_link(alloc, number, after)? {
            return Ok(Some(wrong));
        }
        self.tags.add(tag)?;
        Ok(None)
    }
}

pub(crate) fn faulty_lines(alloc: Global, bytes: &[u8]) -> Result<Vec<FaultyLine>, AllocError>
    ensures { IfOk result (λ found. found.items ≡ faulty_lines bytes.now) }
{
    let mut before = EarlierLines {
        system: false,
        name: false,
        tags: Tags::new(alloc),
    };
    let mut found = Vec::new(alloc);
    let mut rest = bytes;
    let mut number = 0;
    'lines: while !rest.is_empty() {
        let (line, after) = split_line(rest);
        number += 1;
        let wrong = before.take(alloc, number, line)?;
        tell(alloc, &mut found, wrong)?;
        rest = after;
    }
    Ok(found)
}

fn tell(
    alloc: Global,
    found: &mut Vec<FaultyLine>,
    wrong: Option<FaultyWord<'_>>,
) -> Result<(), AllocError>
    ensures { OnOk result (found.new.items ≡ found.old.items ++ line_reported wrong.entry) }
{
    if let Some(wrong) = wrong {
        found.push(FaultyLine::new(alloc, wrong.fault, wrong.word)?)?;
    }
    Ok(())
}
