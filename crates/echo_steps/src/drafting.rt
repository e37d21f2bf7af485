//! The message that is filed for a draft.
ghost use Rattle.std.specs.{Prelude.◌≡◌, Prelude.◌++◌, Prelude.All, Prelude.None, Prelude.IfOk, Prelude.OnOk, List.flat_map};
ghost use Rattle.echo_text.specs.Echo.{IsLine, ended};
ghost use Rattle.echo_filed.specs.Filed.{id_line};
ghost use Rattle.model_steps.specs.Posting.{origin_line, posted, posted_lines, reply_lines};
ghost use Rattle.echo_steps.specs.Refusals.{draft_refusal};

use echo_addr::Items;
use echo_filed::Filed;
use echo_links::LinkFile;
use echo_text::{Echo, Lines, MsgId, push_line, push_lines, trimmed};
use model_steps::{Draft, Stamp, date_time};
use std::alloc::{AllocError, Global};

pub(crate) fn posted(
    alloc: Global,
    links: &LinkFile,
    tag: &[u8],
    draft: &Draft,
    serial: u32,
    stamp: Stamp,
) -> Result<Filed, AllocError>
    requires { draft_refusal links.now tag.now draft.now stamp ≡ None }
    ensures { IfOk result (λ m. m ≡ posted links.now tag.now draft.now serial stamp) }
{
    // For the prover alone: the link file keeps its rules.
    links.system();
    let tag = Items::new(tag.to_ascii_uppercase(alloc)?);
    let kept = posted_lines(alloc, links, draft, serial)?;
    let to_name = copied(alloc, draft.to_name.as_slice())?;
    let from_name = copied(alloc, draft.from_name.as_slice())?;
    let subject = copied(alloc, draft.subject.as_slice())?;
    let echo = Echo {
        tag,
        kept,
        seen: Items::new(Vec::new(alloc)),
        path: Items::new(Vec::new(alloc)),
    };
    Ok(Filed {
        sender: None,
        date: date_time(stamp),
        to_name,
        from_name,
        subject,
        echo,
    })
}

pub(crate) fn copied(alloc: Global, bytes: &[u8]) -> Result<Items<u8>, AllocError>
    ensures { IfOk result (λ copy. copy ≡ bytes.now) }
{
    Ok(Items::new(Vec::from_slice(alloc, bytes)?))
}

fn posted_lines(
    alloc: Global,
    links: &LinkFile,
    draft: &Draft,
    serial: u32,
) -> Result<Lines, AllocError>
    requires { All IsLine (posted_lines links.now draft.now serial) }
    ensures { IfOk result (λ kept. kept ≡ posted_lines links.now draft.now serial) }
{
    let mut text = Vec::new(alloc);
    let id = MsgId::write(alloc, links.system(), serial)?;
    push_id(&mut text, b"\x01MSGID:", &id)?;
    push_reply(&mut text, draft.reply.as_slice())?;
    push_lines(&mut text, draft.body.as_slice())?;
    push_line(&mut text, b"--- echonet")?;
    push_origin(alloc, &mut text, links)?;
    Ok(Lines::of_text(text))
}

fn push_id(text: &mut Vec<u8>, word: &[u8], id: &[u8]) -> Result<(), AllocError>
    ensures { OnOk result (text.new.items ≡ text.old.items ++ ended (id_line word.now id.now)) }
{
    text.extend_from_slice(word)?;
    text.push(b' ')?;
    push_line(text, id)
}

fn push_reply(text: &mut Vec<u8>, reply: &[u8]) -> Result<(), AllocError>
    ensures { OnOk result (text.new.items ≡ text.old.items ++ flat_map ended (reply_lines reply.now)) }
{
    if !reply.is_empty() {
        push_id(text, b"\x01REPLY:", trimmed(reply))?;
    }
    Ok(())
}

fn push_origin(alloc: Global, text: &mut Vec<u8>, links: &LinkFile) -> Result<(), AllocError>
    ensures { OnOk result (text.new.items ≡ text.old.items ++ ended (origin_line links.now)) }
{
    let system = links.system();
    let address = format!(in alloc; " ({system})")?;
    text.extend_from_slice(b" * Origin: ")?;
    text.extend_from_slice(links.name())?;
    push_line(text, address.as_bytes())
}
