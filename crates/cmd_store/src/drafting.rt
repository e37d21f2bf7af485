//! The words of a posting, and the draft that they make.
ghost use Rattle.std.specs.Prelude.{◌≡◌, ◌++◌, IfOk, OnOk};
ghost use Rattle.cmd_store.specs.Drafts.{draft_body, draft_byte, draft_given};

use echo_addr::Items;
use model_steps::{Draft, Stamp};
use std::alloc::{AllocError, Global};

/// The words of `post`. `reply` is the id of the answered message, or empty.
#[derive(Clone, Copy, Debug)]
pub struct NewMessage<'a> {
    pub tag: &'a [u8],
    pub to_name: &'a [u8],
    pub from_name: &'a [u8],
    pub subject: &'a [u8],
    pub reply: &'a [u8],
    pub serial: u32,
    pub stamp: Stamp,
}

/// The draft of the words and the body.
pub fn make_draft(alloc: Global, words: NewMessage<'_>, body: &[u8]) -> Result<Draft, AllocError>
    ensures { IfOk result (λ draft. draft ≡ draft_given words.entry body.now) }
{
    Ok(Draft {
        to_name: Items::new(Vec::from_slice(alloc, words.to_name)?),
        from_name: Items::new(Vec::from_slice(alloc, words.from_name)?),
        subject: Items::new(Vec::from_slice(alloc, words.subject)?),
        reply: Items::new(Vec::from_slice(alloc, words.reply)?),
        body: Items::new(draft_body(alloc, body)?),
    })
}

fn draft_body(alloc: Global, body: &[u8]) -> Result<Vec<u8>, AllocError>
    ensures { IfOk result (λ bytes. bytes.items ≡ draft_body body.now) }
{
    let mut lines = Vec::new(alloc);
    let mut before = 0;
    'bytes: for byte in body {
        push_byte(&mut lines, before, *byte)?;
        before = *byte;
    }
    Ok(lines)
}

fn push_byte(lines: &mut Vec<u8>, before: u8, byte: u8) -> Result<(), AllocError>
    ensures { OnOk result (lines.new.items ≡ lines.old.items ++ draft_byte before byte) }
{
    if byte != b'\n' {
        lines.push(byte)?;
    } else if before != b'\r' {
        lines.push(b'\r')?;
    }
    Ok(())
}
