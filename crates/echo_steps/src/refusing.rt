//! Why a draft is refused, B1 to B6.

ghost use Rattle.std.specs.{Prelude.{◌≡◌, Some, None, MatchResult}, List.list_any};
ghost use Rattle.echo_text.specs.Ids.{is_id, is_zero};
ghost use Rattle.echo_links.specs.Links.{has_area, upper};
ghost use Rattle.model_steps.specs.Posting.{holds_zero};
ghost use Rattle.echo_steps.specs.Refusals.{allows, draft_refusal_by, is_id_by};

use echo_links::LinkFile;
use echo_packet::{MAX_NAME, MAX_SUBJECT};
use echo_text::{MAX_TAG, MsgId};
use model_steps::{Draft, PostFault, Stamp, is_reply_id, is_stamp};

/// Which ids a draft may reply to. An empty reply is none.
#[derive(Clone, Copy, Debug, PartialEq, Eq)]
pub enum ReplyRule {
    /// Those that `MsgId::read` reads: an origin and a serial of eight digits.
    EightDigits,
    /// All that a REPLY line may name (FTS-0009), because other programs write serials of other lengths.
    AnyForm,
}

/// Judges a draft by the link file and by itself. Takes no memory. Faults are those of a posting that do not depend on
/// the base: `NoArea`, `ByteZero`, `FieldTooLong`, `BadStamp` and `BadReply`, the first that applies.
pub fn judge_draft(
    links: &LinkFile,
    tag: &[u8],
    draft: &Draft,
    stamp: Stamp,
    rule: ReplyRule,
) -> Result<(), PostFault>
    ensures { MatchResult result (λ _. draft_refusal_by rule links.now tag.now draft.now stamp ≡ None) (λ fault. draft_refusal_by rule links.now tag.now draft.now stamp ≡ Some fault) }
{
    if !has_area(links, tag) {
        return Err(PostFault::NoArea);
    }
    if holds_zero(draft) {
        return Err(PostFault::ByteZero);
    }
    if draft.to_name.len() > MAX_NAME
        || draft.from_name.len() > MAX_NAME
        || draft.subject.len() > MAX_SUBJECT
    {
        return Err(PostFault::FieldTooLong);
    }
    if !is_stamp(stamp) {
        return Err(PostFault::BadStamp);
    }
    if !allows_reply(rule, draft.reply.as_slice()) {
        return Err(PostFault::BadReply);
    }
    Ok(())
}

/// Whether a draft may have this reply: none, or an id that the rule takes.
pub fn allows_reply(rule: ReplyRule, reply: &[u8]) -> bool
    ensures { result ≡ allows rule reply.now }
{
    reply.is_empty() || is_id_by(rule, reply)
}

fn is_id_by(rule: ReplyRule, reply: &[u8]) -> bool
    ensures { result ≡ is_id_by rule reply.now }
{
    match rule {
        ReplyRule::EightDigits => is_id(reply),
        ReplyRule::AnyForm => is_reply_id(reply),
    }
}

fn is_id(bytes: &[u8]) -> bool
    ensures { result ≡ is_id bytes.now }
{
    match MsgId::read(bytes) {
        Ok(_) => true,
        Err(_) => false,
    }
}

fn has_area(links: &LinkFile, tag: &[u8]) -> bool
    ensures { result ≡ has_area links.now (upper tag.now) }
{
    if tag.len() > MAX_TAG {
        // For the prover alone: no area of a link file has a longer tag.
        links.system();
        return false;
    }
    let mut raised = [0u8; MAX_TAG];
    let raised = &mut raised[..tag.len()];
    raised.copy_from_slice(tag);
    raised.make_ascii_uppercase();
    links.has_area(raised)
}

fn holds_zero(draft: &Draft) -> bool
    ensures { result ≡ holds_zero draft.now }
{
    has_zero(draft.to_name.as_slice())
        || has_zero(draft.from_name.as_slice())
        || has_zero(draft.subject.as_slice())
        || has_zero(draft.reply.as_slice())
        || has_zero(draft.body.as_slice())
}

fn has_zero(bytes: &[u8]) -> bool
    ensures { result ≡ list_any is_zero bytes.now }
{
    bytes.iter().any(|b| *b == 0)
}
