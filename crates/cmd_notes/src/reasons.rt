//! The reasons that a note gives, in words.

use cmd_show::{fault_number, push_number};
use echo_addr::Address;
use echo_charset::{push_word, written};
use echo_links::LinkFault;
use echo_packet::{Field, PacketFault};
use std::alloc::AllocError;
use std::io::Write;

/// Why a command stopped, or what it made.
#[derive(Clone, Copy)]
pub enum Reason<'a> {
    Line(WrongLine<'a>),
    Path(PathState<'a>),
    NotForUs(Misdelivered<'a>),
    Packet(FaultyPacket<'a>),
    TooLong(LongField),
    Word(WrongWord<'a>),
    /// The area of this tag is missing in the link file with this path.
    NoArea(&'a str, &'a str),
    /// The base has no message of this number. It has so many messages.
    NoMessage(u64, u64),
    /// No message of the base has the area of this tag. The path of the base comes second.
    NoneOfArea(&'a str, &'a str),
}

/// A line of a link file with this path: its fault, which has its number, and the wrong word in it.
#[derive(Clone, Copy)]
pub struct WrongLine<'a> {
    pub path: &'a str,
    pub fault: LinkFault,
    pub word: &'a [u8],
}

/// A path and its state.
#[derive(Clone, Copy)]
pub struct PathState<'a> {
    pub path: &'a str,
    pub state: State,
}

/// The state of a path.
#[derive(Clone, Copy, Debug, PartialEq, Eq)]
pub enum State {
    NoFile,
    NoFolder,
    Denied,
    IsFolder,
    NotFolder,
    Exists,
    /// A base that the command made.
    NewBase,
    /// A link file without its own address.
    NoSystem,
    /// A folder with packets that only a scan into it finishes.
    Unfinished,
}

/// A packet of a toss: its number from 1, how many there are, and its path.
#[derive(Clone, Copy)]
pub struct PacketPlace<'a> {
    pub number: usize,
    pub packets: usize,
    pub path: &'a str,
}

/// A packet for another system than this one.
#[derive(Clone, Copy)]
pub struct Misdelivered<'a> {
    pub packet: PacketPlace<'a>,
    pub to: Address,
    pub own: Address,
}

/// A packet with a fault.
#[derive(Clone, Copy)]
pub struct FaultyPacket<'a> {
    pub packet: PacketPlace<'a>,
    pub fault: PacketFault,
}

/// A field of a message with this many bytes, more than allowed.
#[derive(Clone, Copy)]
pub struct LongField {
    pub field: Field,
    pub length: usize,
    pub most: usize,
}

/// What a word of the command line is to be.
#[derive(Clone, Copy, Debug, PartialEq, Eq)]
pub enum WordForm {
    Stamp,
    Serial,
    Number,
    /// A number of bytes that a text may have.
    Limit,
    NodeAddress,
}

/// A word that is not of this form.
#[derive(Clone, Copy)]
pub struct WrongWord<'a> {
    pub form: WordForm,
    pub word: &'a str,
}

/// Adds the line that gives a reason.
pub fn push_note(lines: &mut Vec<u8>, why: Reason<'_>) -> Result<(), AllocError> {
    lines.extend_from_slice(b"echonet: note: ")?;
    push_reason(lines, why)?;
    lines.push(b'\n')?;
    Ok(())
}

fn push_reason(lines: &mut Vec<u8>, why: Reason<'_>) -> Result<(), AllocError> {
    match why {
        Reason::Line(line) => push_line(lines, line),
        Reason::Path(found) => push_file_path(lines, found),
        Reason::NotForUs(wrong) => push_misdelivered(lines, wrong),
        Reason::Packet(faulty) => push_faulty(lines, faulty),
        Reason::TooLong(long) => push_long(lines, long),
        Reason::Word(wrong) => push_form(lines, wrong),
        Reason::NoArea(tag, links) => push_no_area(lines, tag, links),
        Reason::NoMessage(number, count) => push_no_message(lines, number, count),
        Reason::NoneOfArea(tag, base) => push_none_of_area(lines, tag, base),
    }
}

fn push_line(lines: &mut Vec<u8>, line: WrongLine<'_>) -> Result<(), AllocError> {
    push_word(lines, line.path.as_bytes())?;
    push_number(lines, fault_number(line.fault))?;
    push_complaint(lines, line.fault, line.word)
}

fn push_complaint(lines: &mut Vec<u8>, fault: LinkFault, word: &[u8]) -> Result<(), AllocError> {
    lines.extend_from_slice(complaint(fault))?;
    lines.extend_from_slice(b" '")?;
    push_word(lines, word)?;
    lines.extend_from_slice(b"', ")?;
    lines.extend_from_slice(expectation(fault))
}

fn complaint(fault: LinkFault) -> &'static [u8] {
    match fault {
        LinkFault::UnknownWord { .. } => b"unknown word",
        LinkFault::BadAddress { .. } => b"bad address",
        LinkFault::NoSystem { .. } => b"no line",
        LinkFault::RepeatedSystem { .. } => b"second line",
        LinkFault::RepeatedArea { .. } => b"second line of area",
        LinkFault::RepeatedLink { .. } => b"second link",
        LinkFault::BadTag { .. } => b"bad tag",
        LinkFault::NameTooLong { .. } => b"long name",
        LinkFault::Memory => b"no memory for",
    }
}

fn expectation(fault: LinkFault) -> &'static [u8] {
    match fault {
        LinkFault::UnknownWord { .. } => b"expected SYSTEM, NAME or AREA",
        LinkFault::BadAddress { .. } => b"expected zone:net/node",
        LinkFault::NoSystem { .. } => b"expected SYSTEM and the own address",
        LinkFault::RepeatedSystem { .. } => b"one is allowed",
        LinkFault::RepeatedArea { .. } => b"one is allowed",
        LinkFault::RepeatedLink { .. } => b"one is allowed",
        LinkFault::BadTag { .. } => b"expected 1 to 60 bytes from ! to ~",
        LinkFault::NameTooLong { .. } => b"40 bytes are allowed",
        LinkFault::Memory => b"more is needed",
    }
}

fn push_file_path(lines: &mut Vec<u8>, found: PathState<'_>) -> Result<(), AllocError> {
    push_word(lines, found.path.as_bytes())?;
    lines.extend_from_slice(b": ")?;
    lines.extend_from_slice(state_words(found.state))
}

fn state_words(state: State) -> &'static [u8] {
    match state {
        State::NoFile => b"no such file",
        State::NoFolder => b"no such folder",
        State::Denied => b"permission denied",
        State::IsFolder => b"is a folder",
        State::NotFolder => b"is not a folder",
        State::Exists => b"exists already",
        State::NewBase => b"new base",
        State::NoSystem => b"no line SYSTEM with the own address",
        State::Unfinished => b"has packets of a stopped scan",
    }
}

fn push_packet(lines: &mut Vec<u8>, place: PacketPlace<'_>) -> Result<(), AllocError> {
    push_count(lines, place.number, place.packets)?;
    push_word(lines, place.path.as_bytes())?;
    lines.extend_from_slice(b": it ")
}

fn push_count(lines: &mut Vec<u8>, number: usize, packets: usize) -> Result<(), AllocError> {
    written(write!(lines, "packet {number} of {packets}, "))
}

fn push_misdelivered(lines: &mut Vec<u8>, wrong: Misdelivered<'_>) -> Result<(), AllocError> {
    push_packet(lines, wrong.packet)?;
    push_addresses(lines, wrong.to, wrong.own)
}

fn push_addresses(lines: &mut Vec<u8>, to: Address, own: Address) -> Result<(), AllocError> {
    written(write!(lines, "is for {to}, this is {own}"))
}

fn push_faulty(lines: &mut Vec<u8>, faulty: FaultyPacket<'_>) -> Result<(), AllocError> {
    push_packet(lines, faulty.packet)?;
    lines.extend_from_slice(packet_complaint(faulty.fault))
}

fn packet_complaint(fault: PacketFault) -> &'static [u8] {
    match fault {
        PacketFault::Truncated { .. } => b"is cut off",
        PacketFault::NotType2 { .. } => b"is not of type 2",
        PacketFault::NotMessage { .. } => b"has bytes that are no message",
        PacketFault::FieldTooLong { .. } => b"has a name or subject that is too long",
        PacketFault::TextTooLong { .. } => b"has a text that is too long",
        PacketFault::Read { .. } => b"cannot be read",
        PacketFault::Memory => b"needs more memory",
        PacketFault::Stopped => b"was given up",
        PacketFault::Write { .. } => b"cannot be written",
        PacketFault::TooManyMessages { .. } => b"has too many messages",
        PacketFault::BadField(_) => b"has a field with a zero byte or too many bytes",
    }
}

fn push_long(lines: &mut Vec<u8>, long: LongField) -> Result<(), AllocError> {
    lines.extend_from_slice(field_name(long.field))?;
    push_lengths(lines, long.length, long.most)
}

fn push_lengths(lines: &mut Vec<u8>, length: usize, most: usize) -> Result<(), AllocError> {
    written(write!(lines, " is {length} bytes long, {most} are allowed"))
}

fn field_name(field: Field) -> &'static [u8] {
    match field {
        Field::ToName => b"to",
        Field::FromName => b"from",
        Field::Subject => b"subject",
        Field::Text => b"text",
    }
}

fn push_form(lines: &mut Vec<u8>, wrong: WrongWord<'_>) -> Result<(), AllocError> {
    lines.extend_from_slice(form_complaint(wrong.form))?;
    push_word(lines, wrong.word.as_bytes())?;
    lines.extend_from_slice(form_expectation(wrong.form))
}

fn form_complaint(form: WordForm) -> &'static [u8] {
    match form {
        WordForm::Stamp => b"bad stamp '",
        WordForm::Serial => b"bad serial '",
        WordForm::Number | WordForm::Limit => b"bad number '",
        WordForm::NodeAddress => b"bad address '",
    }
}

fn form_expectation(form: WordForm) -> &'static [u8] {
    match form {
        WordForm::Stamp => b"', expected YYYY-MM-DDThh:mm:ss, now or local",
        WordForm::Serial => b"', expected eight hexadecimal digits or auto",
        WordForm::Number => b"', expected decimal digits",
        WordForm::Limit => b"', expected a number up to 16777216",
        WordForm::NodeAddress => b"', expected zone:net/node",
    }
}

fn push_no_area(lines: &mut Vec<u8>, tag: &str, links: &str) -> Result<(), AllocError> {
    push_area_in(lines, b"no area ", tag, links)
}

fn push_area_in(
    lines: &mut Vec<u8>,
    words: &[u8],
    tag: &str,
    place: &str,
) -> Result<(), AllocError> {
    lines.extend_from_slice(words)?;
    push_word(lines, tag.as_bytes())?;
    lines.extend_from_slice(b" in ")?;
    push_word(lines, place.as_bytes())
}

fn push_no_message(lines: &mut Vec<u8>, number: u64, count: u64) -> Result<(), AllocError> {
    written(write!(lines, "no message {number}, the base has {count}"))
}

fn push_none_of_area(lines: &mut Vec<u8>, tag: &str, base: &str) -> Result<(), AllocError> {
    push_area_in(lines, b"no message of area ", tag, base)
}
