//! The first two lines of a stored message: its tag and its id, if they are there plainly.
ghost use Rattle.std.specs.Prelude.{◌≡◌, ◌++◌, ◌<◌, ℕ, List, Some, false, IfSome, IsTrue};
ghost use Rattle.echo_text.specs.{Echo.msgid_of, Lines.area_tag, Lines.first_line, Lines.later_lines, Lines.lines, Tail.kept_of};
ghost use Rattle.echo_filed.specs.{Stored.{IsStored, Stored, after_length, has_tag, stored_bytes}, declared.stored.Version.TheVariants.Second};

use echo_text::{is_kept_tag, split_line, trimmed};

/// How many bytes come before the names.
const FRONT: usize = 27;

const AREA: &[u8] = b"AREA:";

const MSGID: &[u8] = b"\x01MSGID:";

fn behind_string(bytes: &[u8]) -> Option<&[u8]>
    ensures { (string rest : List ℕ) → bytes.now ≡ after_length string ++ rest → IfSome result (λ found. found.now ≡ rest) }
{
    let Some(len) = bytes.first() else {
        return None;
    };
    let end = *len as usize + 1;
    if end > bytes.len() {
        return None;
    }
    Some(&bytes[end..])
}

fn behind_strings(bytes: &[u8]) -> Option<&[u8]>
    ensures { (to_name from_name subject rest : List ℕ) → bytes.now ≡ after_length to_name ++ (after_length from_name ++ (after_length subject ++ rest))
        → IfSome result (λ found. found.now ≡ rest) }
{
    let to_name = behind_string(bytes)?;
    let from_name = behind_string(to_name)?;
    behind_string(from_name)
}

/// The text of a stored message; none if it has tag and id instead.
pub(crate) fn text_in(bytes: &[u8]) -> Option<&[u8]>
    ensures { (s : Stored) → IsStored Second s → bytes.now ≡ stored_bytes Second s → IfSome result (λ text. (has_tag Second s.kind ≡ false) × (text.now ≡ s.last)) }
{
    if bytes.len() < FRONT || bytes[0] > 1 {
        return None;
    }
    let last = behind_strings(&bytes[FRONT..])?;
    if last.len() < 4 {
        return None;
    }
    Some(&last[4..])
}

fn is_area_line(line: &[u8], tag: &[u8]) -> bool
    ensures { IsTrue result → area_tag line.now ≡ tag.now }
{
    if line.len() < 5 || !is_kept_tag(tag) {
        return false;
    }
    &line[..5] == AREA && &line[5..] == tag
}

fn begins_with_id(rest: &[u8], msgid: &[u8]) -> bool
    ensures { IsTrue result → msgid_of (kept_of (lines rest.now)) ≡ Some msgid.now }
{
    let (line, _) = split_line(rest);
    if line.len() < 7 || msgid.is_empty() {
        return false;
    }
    &line[..7] == MSGID && trimmed(&line[7..]) == msgid
}

/// Whether the text has plainly this tag: its AREA line is the one that is written for it.
pub(crate) fn has_plain_tag(text: &[u8], tag: &[u8]) -> bool
    ensures { IsTrue result → area_tag (first_line (lines text.now)) ≡ tag.now }
{
    is_area_line(split_line(text).0, tag)
}

/// Whether the text has plainly this id: in the line after the AREA line.
pub(crate) fn has_plain_id(text: &[u8], msgid: &[u8]) -> bool
    ensures { IsTrue result → msgid_of (kept_of (later_lines (lines text.now))) ≡ Some msgid.now }
{
    begins_with_id(split_line(text).1, msgid)
}
