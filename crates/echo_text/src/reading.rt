//! An echomail text, read (FTS-0004).

ghost use Rattle.std.specs.{Prelude.◌≡◌, Prelude.map, Prelude.IfOk, Prelude.MatchResult, Char.to_ascii_uppercase};
ghost use Rattle.echo_text.specs.{Echo.EchoOf, Echo.FrontOf, Echo.HasNoZero, Echo.ListsOf, Lines.later_lines, Lines.lines, Refusal.IsTextFault, Refusal.TextAnswers};

use crate::area::tag_of;
use crate::echo::{Echo, EchoRoom, EchoView, FrontView};
use crate::fault::TextFault;
use crate::kept::KeptView;
use crate::lines::split_line;
use crate::listed::entries_into;
use crate::tail::split_tail;
use crate::words::{PATH, SEEN_BY};
use echo_addr::{Items, NetNode, put_in_order};
use std::alloc::{AllocError, Global};

/// The parts of the text (FTS-0004), and how many tokens of its SEEN-BY and PATH lines are no
/// entries. The kept lines are slices of the text.
pub fn view_text<'a>(alloc: Global, text: &'a [u8]) -> Result<(EchoView<'a>, usize), TextFault>
    requires { HasNoZero text.now }
    ensures { TextAnswers text.now result }
{
    let front = view_front(alloc, text)?;
    let lists = lists_into(Vec::new(alloc), Vec::new(alloc), text)?;
    let view = EchoView {
        tag: front.tag,
        kept: front.kept,
        seen: Items::new(lists.seen),
        path: Items::new(lists.path),
    };
    Ok((view, lists.dropped))
}

/// The parts of the text, as `view_text` gives them, with a copy of the lines.
pub fn read_text(alloc: Global, text: &[u8]) -> Result<(Echo, usize), TextFault>
    requires { HasNoZero text.now }
    ensures { TextAnswers text.now result }
{
    read_into_room(EchoRoom::new(alloc), text)
}

/// Reads the text into the vectors of the room. Their content makes no difference.
pub fn read_into_room(room: EchoRoom, text: &[u8]) -> Result<(Echo, usize), TextFault>
    requires { HasNoZero text.now }
    ensures { TextAnswers text.now result }
{
    let front = front_into(room.tag, text)?;
    let read = front.echo_into(room.kept, room.seen, room.path, text)?;
    Ok(read)
}

/// The tag and the kept lines of the text, by which a message is known. SEEN-BY and PATH lines are not read.
pub fn view_front<'a>(alloc: Global, text: &'a [u8]) -> Result<FrontView<'a>, TextFault>
    ensures { MatchResult result (λ front. FrontOf text.now front.tag front.kept) (IsTextFault text.now) }
{
    front_into(Vec::new(alloc), text)
}

fn front_into<'a>(tag: Vec<u8>, text: &'a [u8]) -> Result<FrontView<'a>, TextFault>
    ensures { MatchResult result (λ front. FrontOf text.now front.tag front.kept) (IsTextFault text.now) }
{
    let (first, rest) = split_line(text);
    let raw = tag_of(first)?;
    let tag = upper_case_into(tag, raw)?;
    let (body, tail) = split_tail(rest);
    Ok(FrontView {
        tag: Items::new(tag),
        kept: KeptView::new(body, tail),
    })
}

fn upper_case_into(mut upper: Vec<u8>, bytes: &[u8]) -> Result<Vec<u8>, AllocError>
    ensures { IfOk result (λ upper. upper.items ≡ map to_ascii_uppercase bytes.now) }
{
    upper.clear();
    upper.extend_from_slice(bytes)?;
    upper.make_ascii_uppercase();
    Ok(upper)
}

impl<'a> FrontView<'a> {
    /// The parts of the text that this is the front of, with a copy of the lines, and how many tokens are no entries.
    pub fn into_echo(self, alloc: Global, text: &[u8]) -> Result<(Echo, usize), AllocError>
        requires zero { HasNoZero text.now }
        requires front { FrontOf text.now self.tag self.kept }
        ensures { IfOk result (λ read. EchoOf text.now read.0 read.1) }
    {
        self.echo_into(Vec::new(alloc), Vec::new(alloc), Vec::new(alloc), text)
    }

    fn echo_into(
        self,
        kept: Vec<u8>,
        seen: Vec<NetNode>,
        path: Vec<NetNode>,
        text: &[u8],
    ) -> Result<(Echo, usize), AllocError>
        requires zero { HasNoZero text.now }
        requires front { FrontOf text.now self.tag self.kept }
        ensures { IfOk result (λ read. EchoOf text.now read.0 read.1) }
    {
        let lists = lists_into(seen, path, text)?;
        let kept = self.kept.lines_into(kept)?;
        let echo = Echo {
            tag: self.tag,
            kept,
            seen: Items::new(lists.seen),
            path: Items::new(lists.path),
        };
        Ok((echo, lists.dropped))
    }
}

#[derive(Drop)]
struct Lists {
    seen: Vec<NetNode>,
    path: Vec<NetNode>,
    dropped: usize,
}

fn lists_into(seen: Vec<NetNode>, path: Vec<NetNode>, text: &[u8]) -> Result<Lists, AllocError>
    ensures { IfOk result (λ l. ListsOf (later_lines (lines text.now)) l.seen.items l.path.items l.dropped) }
{
    let (_, rest) = split_line(text);
    let (_, tail) = split_tail(rest);
    let (mut seen, seen_dropped) = entries_into(seen, SEEN_BY, tail)?;
    let (path, path_dropped) = entries_into(path, PATH, tail)?;
    put_in_order(&mut seen);
    Ok(Lists {
        seen,
        path,
        dropped: seen_dropped + path_dropped,
    })
}
