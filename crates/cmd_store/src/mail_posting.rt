//! The command `post --mail` on a store.

ghost use Rattle.std.specs.Prelude.{◌≡◌, false, IfOk};
ghost use Rattle.{echo_steps.specs.PacketsIn.state_in, cmd_store.specs.{Bounded.AddsMailed, MailPosted.{Mails, MailsOn}}};

use crate::fault::LetterFault;
use crate::letter::{Letter, read_letter};
use crate::mailed::{MailWords, words_of};
use crate::{CommandError, Post, StoreCommand};
use base_store::PurgedStore;
use disk_io::Sink;
use echo_links::LinkFile;
use std::alloc::Global;

/// `post --mail`: what a mail says, which is posted as `post` does it.
#[derive(Drop)]
pub struct PostMail<'w> {
    pub letter: Letter,
    pub asked: MailWords<'w>,
}

impl<'w> PostMail<'w> {
    /// Reads the mail. One that is refused is so before a base is opened.
    pub fn read(
        alloc: Global,
        mail: &[u8],
        asked: MailWords<'w>,
    ) -> Result<PostMail<'w>, LetterFault>
        ensures { IfOk result (λ read. read.asked ≡ asked.entry) }
    {
        let letter = read_letter(alloc, mail, asked.spare, asked.charset)?;
        Ok(PostMail { letter, asked })
    }
}

impl<'a> StoreCommand<'a> for PostMail<'_> {
    type Answer = ();

    ghost answers = { λ old new file base before after result. MailsOn old.letter old.asked (state_in file base) before after result };

    ghost makes = { λ old new file base before after result. Mails file old.letter old.asked base };

    ghost may = { λ self _ file. Mails file self.letter self.asked };

    ghost commits_held = { λ self. false };

    ghost adds = { λ self file. AddsMailed file self.letter self.asked };

    fn run<T: PurgedStore, W: Sink>(
        &mut self,
        alloc: Global,
        links: &LinkFile,
        store: &mut T,
        out: &mut W,
    ) -> Result<(), CommandError<'a>> {
        let mut post = Post {
            words: words_of(&self.letter, self.asked),
            free: self.asked.free,
            body: self.letter.body.as_slice(),
        };
        post.run(alloc, links, store, out)
    }
}
