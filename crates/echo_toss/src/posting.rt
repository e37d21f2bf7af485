//! The calls of a tosser that post.

ghost use Rattle.echo_steps.specs.declared.refusing.ReplyRule.TheVariants.{EightDigits};
ghost use Rattle.echo_toss.specs.Steps.{PostStep};

use crate::tosser::Tosser;
use echo_steps::{PostStepError, ReplyRule, judge_draft, post_step};
use model_steps::{Draft, PostFault, Stamp};
use std::hash::BuildHasher;

impl<S: BuildHasher> Tosser<S> {
    /// Files a message of the area with this tag, whatever the case of its letters. Its id is the own address and the
    /// serial (FTS-0009). `KnownSerial`: a message of the base has that id, in any area. `Memory` may come in its place
    /// or later.
    pub fn post(
        &mut self,
        tag: &[u8],
        draft: &Draft,
        serial: u32,
        stamp: Stamp,
    ) -> Result<(), PostFault>
        ensures { PostStep EightDigits self.old tag.now draft.now serial stamp result self.new }
    {
        self.post_by(ReplyRule::EightDigits, tag, draft, serial, stamp)
    }

    /// Posts as `post`, and the rule says which ids the draft may reply to.
    pub fn post_by(
        &mut self,
        rule: ReplyRule,
        tag: &[u8],
        draft: &Draft,
        serial: u32,
        stamp: Stamp,
    ) -> Result<(), PostFault>
        ensures { PostStep rule self.old tag.now draft.now serial stamp result self.new }
    {
        judge_draft(&self.links, tag, draft, stamp, rule)?;
        match post_step(
            self.alloc,
            &self.links,
            &mut self.store,
            tag,
            draft,
            serial,
            stamp,
        ) {
            Ok(()) => Ok(()),
            Err(PostStepError::Refused(refusal)) => Err(refusal),
            // A base in memory fails only where a growth is refused.
            Err(PostStepError::Store(_)) => Err(PostFault::Memory),
        }
    }
}
