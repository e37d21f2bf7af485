//! The ids that an answer may name.

ghost use Rattle.std.specs.{Prelude.{◌≡◌, ◌≤◌, false, not, length, reverse, take_while}, Char.is_ascii_hexdigit, List.list_all};
ghost use Rattle.echo_addr.specs.Entries.{is_blank};
ghost use Rattle.echo_text.specs.Ids.{ends_quoted, is_bare_origin, is_gap, is_line_byte, is_quoted_origin, without_gap};
ghost use Rattle.model_steps.specs.ReplyIds.{is_numbered, is_origin, is_reply_id};

use echo_addr::is_blank;
use echo_text::trimmed;

/// Whether the bytes are an id that a REPLY line may name: an origin and a number with any count of digits, or a
/// quoted origin alone (FTS-0009). Takes no memory.
#[tactic(auto, unfolding(crate::specs::ReplyIds::is_reply_id))]
pub fn is_reply_id(bytes: &[u8]) -> bool
    ensures { result ≡ is_reply_id bytes.now }
{
    let id = trimmed(bytes);
    has_line_bytes(id) && (is_quoted(id) || is_numbered(id))
}

fn has_line_bytes(bytes: &[u8]) -> bool
    ensures { result ≡ list_all is_line_byte bytes.now }
{
    bytes.iter().all(|b| !(*b == 0 || *b == b'\r'))
}

fn is_numbered(id: &[u8]) -> bool
    ensures { result ≡ is_numbered id.now }
{
    let front = &id[..id.len() - digits_len(id)];
    let spelled = without_gap(front);
    front.len() < id.len() && spelled.len() < front.len() && is_origin(spelled)
}

fn digits_len(id: &[u8]) -> usize
    ensures exact { result ≡ length (take_while is_ascii_hexdigit (reverse id.now)) }
    ensures within { result ≤ length id.now }
{
    id.iter()
        .rev()
        .take_while(|b| b.is_ascii_hexdigit())
        .count()
}

fn without_gap(front: &[u8]) -> &[u8]
    ensures value { result.now ≡ without_gap front.now }
    ensures within { length result.now ≤ length front.now }
{
    &front[..front.len() - gap_len(front)]
}

fn gap_len(front: &[u8]) -> usize
    ensures exact { result ≡ length (take_while is_gap (reverse front.now)) }
    ensures within { result ≤ length front.now }
{
    front.iter().rev().take_while(|b| **b == b' ').count()
}

fn is_origin(spelled: &[u8]) -> bool
    ensures { result ≡ is_origin spelled.now }
{
    is_quoted(spelled) || is_bare(spelled)
}

fn is_quoted(spelled: &[u8]) -> bool
    ensures { result ≡ is_quoted_origin spelled.now }
{
    if spelled.is_empty() {
        return false;
    }
    if spelled[0] != b'"' {
        return false;
    }
    ends_quoted(&spelled[1..])
}

fn ends_quoted(rest: &[u8]) -> bool
    ensures { result ≡ ends_quoted false rest.now }
{
    let mut single = false;
    'bytes: for byte in rest {
        let quote = *byte == b'"';
        if single && !quote {
            return false;
        }
        single = quote && !single;
    }
    single
}

fn is_bare(spelled: &[u8]) -> bool
    ensures { result ≡ is_bare_origin spelled.now }
{
    if spelled.is_empty() {
        return false;
    }
    if spelled[0] == b'"' {
        return false;
    }
    has_no_blank(spelled)
}

fn has_no_blank(bytes: &[u8]) -> bool
    ensures { result ≡ list_all (λ b. not (is_blank b)) bytes.now }
{
    bytes.iter().all(|b| !is_blank(*b))
}
