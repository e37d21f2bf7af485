//! The message of a base that has an id.
ghost use Rattle.std.specs.{Prelude.{ℕ, Option, ◌≡◌, ◌≢◌, ◌≤◌, ◌<◌, ◌^◌, not, IfOk, MatchOption, OnOk, length, option_copied, take_while}, Option.option_map};
ghost use Rattle.{base_file.specs.Base.Base, base_folder.specs.Source.AreLegible, echo_addr.specs.Entries.is_blank, echo_filed.specs.Filed.Filed};
ghost use Rattle.{echo_text.specs.Ids.id_of, cmd_numbered.specs.Reading.AnswersReading};
ghost use Rattle.cmd_numbered.specs.Finding.{IsAnswered, IsPostedAs, answered_as, charset_of, has_id, has_words, is_found_as, label_name, last_at};

use base_folder::{MessageSource, fetch_message};
use cmd_status::Fault;
use echo_addr::{Address, Items, is_blank};
use echo_charset::Charset;
use echo_filed::Filed;
use echo_stored::first_value;
use echo_text::{MsgId, one_id_is_spelled, written_id_read_back};
use std::alloc::{AllocError, Global};

/// What a mail takes from the message that it answers: its area, and the charset of its CHRS line, else CP437. `None` is
/// a charset that the program does not know.
#[derive(Debug, Drop)]
pub struct Answered {
    pub tag: Items<u8>,
    pub charset: Option<Charset>,
}

/// What the last message of the base with this id, in any area, gives to a mail that answers it.
pub fn find_answered<'a, M: MessageSource>(
    alloc: Global,
    id: &[u8],
    path: &'a str,
    messages: &mut M,
) -> Result<Option<Answered>, Fault<'a>>
    requires { (M.state messages.old).is_ready }
    ensures found { (M.state messages.new).is_honest → (base : Base) → (M.state messages.old).holds base
        → AnswersReading (IsAnswered id.now base) path.now (M.state messages.old).failures (M.state messages.new).failures result }
    ensures whole { (M.state messages.new).is_honest → OnOk result (AreLegible (M.state messages.old)) }
{
    let count = messages.count();
    let mut found = None;
    'messages: for i in 0..count {
        fetch_message(messages, path, i)?;
        note_answered(alloc, id, &mut found, messages.at_hand())?;
    }
    Ok(found)
}

fn note_answered(
    alloc: Global,
    id: &[u8],
    found: &mut Option<Answered>,
    message: Option<&Filed>,
) -> Result<(), AllocError>
    ensures { (before : Option Filed) → found.old ≡ option_map answered_as before
        → OnOk result (found.new ≡ option_map answered_as (last_at id.now (option_copied message.entry) before)) }
{
    let Some(message) = message else {
        return Ok(());
    };
    if has_id(message, id) {
        *found = Some(answered_as(alloc, message)?);
    }
    Ok(())
}

fn answered_as(alloc: Global, message: &Filed) -> Result<Answered, AllocError>
    ensures { IfOk result (λ found. found ≡ answered_as message.now) }
{
    Ok(Answered {
        tag: Items::new(Vec::from_slice(alloc, message.echo.tag.as_slice())?),
        charset: charset_of(message),
    })
}

fn has_id(message: &Filed, id: &[u8]) -> bool
    ensures { result ≡ has_id message.now id.now }
{
    match message.echo.msgid() {
        Some(own) => own == id,
        None => false,
    }
}

fn charset_of(message: &Filed) -> Option<Charset>
    ensures { result ≡ charset_of message.now }
{
    match first_value(b"\x01CHRS:", message.echo.kept.as_text()) {
        Some(label) => Charset::named(name_in(label)),
        None => Some(Charset::Cp437),
    }
}

fn name_in(label: &[u8]) -> &[u8]
    ensures { result.now ≡ label_name label.now }
{
    &label[..name_len(label)]
}

fn name_len(label: &[u8]) -> usize
    ensures exact { result ≡ length (take_while (λ b. not (is_blank b)) label.now) }
    ensures within { result ≤ length label.now }
{
    label.iter().take_while(|b| !is_blank(**b)).count()
}

/// The words under which a message of an editor may be posted already: its id, the area, the names and the subject.
#[derive(Clone, Copy, Debug)]
pub struct PostedWords<'a> {
    pub id: &'a [u8],
    pub tag: &'a [u8],
    pub to_name: &'a [u8],
    pub from_name: &'a [u8],
    pub subject: &'a [u8],
}

/// Whether the last message of the base with this id was posted here under these words.
pub fn is_posted<'a, M: MessageSource>(
    alloc: Global,
    words: PostedWords<'_>,
    path: &'a str,
    messages: &mut M,
) -> Result<bool, Fault<'a>>
    requires { (M.state messages.old).is_ready }
    ensures found { (M.state messages.new).is_honest → (base : Base) → (M.state messages.old).holds base
        → AnswersReading (IsPostedAs words.entry base) path.now (M.state messages.old).failures (M.state messages.new).failures result }
    ensures whole { (M.state messages.new).is_honest → OnOk result (AreLegible (M.state messages.old)) }
{
    let tag = words.tag.to_ascii_uppercase(alloc)?;
    let count = messages.count();
    let mut posted = false;
    'messages: for i in 0..count {
        fetch_message(messages, path, i)?;
        posted = is_posted_now(&tag, words, posted, messages.at_hand());
    }
    Ok(posted)
}

fn is_posted_now(tag: &[u8], words: PostedWords<'_>, before: bool, message: Option<&Filed>) -> bool
    ensures { (last : Option Filed) → before ≡ is_found_as tag.now words.entry last
        → result ≡ is_found_as tag.now words.entry (last_at words.entry.id.now (option_copied message.entry) last) }
{
    let Some(message) = message else {
        return before;
    };
    if has_id(message, words.id) {
        has_words(message, tag, words)
    } else {
        before
    }
}

fn has_words(message: &Filed, tag: &[u8], words: PostedWords<'_>) -> bool
    ensures { result ≡ has_words tag.now words.entry message.now }
{
    message.sender.is_none()
        && message.echo.tag.as_slice() == tag
        && message.to_name.as_slice() == words.to_name
        && message.from_name.as_slice() == words.from_name
        && message.subject.as_slice() == words.subject
}

/// The serial of an id of this system. `None` where the id is none that the system gives a message.
pub fn own_serial(alloc: Global, id: &[u8], own: Address) -> Result<Option<u32>, AllocError>
    ensures { IfOk result (λ serial. MatchOption serial ((n : ℕ) → n < 2 ^ 32 → id_of own n ≢ id.now) (λ n. id_of own n ≡ id.now)) }
{
    // The laws for the answer that there is none.
    written_id_read_back();
    one_id_is_spelled();
    let Ok(read) = MsgId::read(id) else {
        return Ok(None);
    };
    let written = MsgId::write(alloc, own, read.serial)?;
    if written.as_slice() == id {
        Ok(Some(read.serial))
    } else {
        Ok(None)
    }
}
