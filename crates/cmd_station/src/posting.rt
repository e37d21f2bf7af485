//! The message that `post` posts.

ghost use Rattle.std.specs.Prelude.{◌≡◌, [], None, IfSome};
ghost use Rattle.cmd_station.specs.Replies.{IsStrict};

use cmd_store::NewMessage;
use cmd_words::PostWords;
use echo_steps::{ReplyRule, allows_reply};
use model_steps::Stamp;

/// What a posting names in place of an id that `--reply` may not name. No rule takes it for an id, so the posting is refused in
/// its turn (B6).
const NO_ID: &[u8] = b"?";

/// The message of these words, without its body. Without `--reply` it answers no message.
pub fn new_message<'a>(words: &PostWords<'a>, serial: u32, stamp: Stamp) -> NewMessage<'a>
    ensures tag { result.tag.now ≡ words.now.area.now }
    ensures to { result.to_name.now ≡ words.now.to.now }
    ensures from { result.from_name.now ≡ words.now.from.now }
    ensures subject { result.subject.now ≡ words.now.subject.now }
    ensures reply { IfSome words.now.reply (λ id. IsStrict id.now result.reply.now) }
    ensures none { words.now.reply ≡ None → result.reply.now ≡ [] }
    ensures serial { result.serial ≡ serial }
    ensures stamp { result.stamp ≡ stamp }
{
    NewMessage {
        tag: words.area.as_bytes(),
        to_name: words.to.as_bytes(),
        from_name: words.from.as_bytes(),
        subject: words.subject.as_bytes(),
        reply: words.reply.map_or(&[], strict_reply),
        serial,
        stamp,
    }
}

/// The id that `--reply` names: one of eight digits, as `MsgId::read` reads it. An empty one is none.
#[tactic(auto, using(crate::proofs::Replies::no_id_stands))]
fn strict_reply(reply: &str) -> &[u8]
    ensures { IsStrict reply.now result.now }
{
    if allows_reply(ReplyRule::EightDigits, reply.as_bytes()) {
        reply.as_bytes()
    } else {
        NO_ID
    }
}
