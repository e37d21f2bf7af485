//! Tags of areas, and the AREA line (FTS-0004).

ghost use Rattle.std.specs.Prelude.{◌≡◌, Some, None, map, IfOk, MatchResult};
ghost use Rattle.std.specs.{Char.to_ascii_uppercase, List.list_all};
ghost use Rattle.echo_text.specs.{Lines.area_tag, Lines.is_tag, Lines.is_tag_byte, Refusal.refusal_of};

use crate::fault::TextFault;
use crate::words::{AREA, after_word, trimmed};

/// The most bytes of a tag.
pub const MAX_TAG: usize = 60;

/// The tag of the AREA line, spelled as it is there, if the line and the tag are right.
pub(crate) fn tag_of(first: &[u8]) -> Result<&[u8], TextFault>
    ensures refused { MatchResult result (λ _. refusal_of first.now ≡ None) (λ fault. refusal_of first.now ≡ Some fault) }
    ensures tag { IfOk result (λ tag. map to_ascii_uppercase tag.now ≡ area_tag first.now) }
{
    match after_word(AREA, first) {
        None => Err(TextFault::NotEcho),
        Some(rest) => {
            let tag = trimmed(rest);
            if is_tag(tag) {
                Ok(tag)
            } else {
                Err(TextFault::BadTag)
            }
        }
    }
}

/// Whether the bytes, in upper case, are a tag. Takes no memory.
pub fn is_tag(bytes: &[u8]) -> bool
    ensures { result ≡ is_tag (map to_ascii_uppercase bytes.now) }
{
    if bytes.is_empty() || bytes.len() > MAX_TAG {
        return false;
    }
    has_tag_bytes(bytes)
}

/// Whether the bytes are a tag in upper case. Takes no memory.
pub fn is_kept_tag(bytes: &[u8]) -> bool
    ensures { result ≡ is_tag bytes.now }
{
    !bytes.is_empty() && bytes.len() <= MAX_TAG && has_kept_bytes(bytes)
}

fn has_kept_bytes(bytes: &[u8]) -> bool
    ensures { result ≡ list_all is_tag_byte bytes.now }
{
    bytes.iter().all(|b| is_tag_byte(*b))
}

fn has_tag_bytes(bytes: &[u8]) -> bool
    ensures { result ≡ list_all (λ b. is_tag_byte (to_ascii_uppercase b)) bytes.now }
{
    bytes.iter().all(|b| is_tag_byte(b.to_ascii_uppercase()))
}

fn is_tag_byte(byte: u8) -> bool
    ensures { result ≡ is_tag_byte byte }
{
    byte.is_ascii_graphic() && !byte.is_ascii_lowercase()
}
