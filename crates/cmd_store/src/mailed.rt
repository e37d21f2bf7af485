//! The words with which a mail is posted.
ghost use Rattle.cmd_store.specs.Mailed.{IsPosting};

use crate::drafting::NewMessage;
use crate::letter::{Letter, MailDefaults};
use echo_charset::Charset;
use model_steps::Stamp;

/// The words of `post --mail`. `spare` has those for what the mail lacks. With `free`, a later free serial will do.
#[derive(Clone, Copy, Debug)]
pub struct MailWords<'a> {
    pub spare: MailDefaults<'a>,
    pub charset: Charset,
    pub serial: u32,
    pub free: bool,
    pub stamp: Stamp,
}

pub(crate) fn words_of<'w>(letter: &'w Letter, asked: MailWords<'_>) -> NewMessage<'w>
    ensures { IsPosting letter.now asked.entry result }
{
    NewMessage {
        tag: letter.tag.as_slice(),
        to_name: letter.to_name.as_slice(),
        from_name: letter.from_name.as_slice(),
        subject: letter.subject.as_slice(),
        reply: letter.reply.as_slice(),
        serial: asked.serial,
        stamp: asked.stamp,
    }
}
