//! `show`: the parts of a packet.

ghost use Rattle.std.specs.Prelude.{◌≡◌, ◌++◌, ◌<◌, ◌^◌, length, OnErr, OnOk, IfErr};
ghost use Rattle.cmd_status.specs.{Devices.output_of, Ended.IsOutOfMemory, Limits.show_limits};
ghost use Rattle.echo_packet.specs.{Reader.{IsReading, reader_given, reader_header, reader_limits, reader_place, reader_source}, Header.{IsHeader, header_bytes}};
ghost use Rattle.{echo_text.specs.Echo.HasNoZero, cmd_print.specs.{Said.TextShown, Shown.{MessageShown, end_line, header_lines}, Pushed.Pushes}};
ghost use Rattle.cmd_show.specs.Showing.{DecodeAnswers, MessagePasses, PacketAnswers, PacketPasses, ShowAnswers};

use cmd_print::{push_echo, push_end, push_fields, push_header, push_text};
use cmd_status::{Fault, LIMITS, Status, flush_piece, print_rest};
use disk_io::Sink;
use echo_packet::{Header, Packed, PacketReader};
use echo_text::{TextFault, view_text};
use hex::FromHexError;
use std::alloc::{AllocError, Global};

/// `show [--hex] [--text] PACKET`: prints the packet at the front of the input, with `full` the lines of each text
/// too. With `hex` the input is hexadecimal text. The lines before a fault are printed, also out of memory.
pub fn show<'a, W: Sink>(
    alloc: Global,
    hex: bool,
    full: bool,
    input: &[u8],
    out: &mut W,
) -> Result<Status, Fault<'a>>
    ensures { ShowAnswers full hex input.now (output_of W.contents W.failures W.holds out.old) (output_of W.contents W.failures W.holds out.new) result }
{
    if hex {
        let bytes = decode(alloc, input)?;
        show_bytes(alloc, full, &bytes, out)
    } else {
        show_bytes(alloc, full, input, out)
    }
}

fn decode<'a>(alloc: Global, input: &[u8]) -> Result<Vec<u8>, Fault<'a>>
    ensures { DecodeAnswers input.now result }
{
    let digits: Vec<u8> = input
        .iter()
        .copied()
        .filter(|b| !(*b == b' ' || *b == b'\t' || *b == b'\n' || *b == b'\r'))
        .collect(alloc)?;
    match hex::decode(alloc, digits.as_slice()) {
        Ok(bytes) => Ok(bytes),
        Err(FromHexError::OutOfMemory) => Err(Fault::OutOfMemory),
        Err(_) => Err(Fault::BadHex),
    }
}

fn show_bytes<'a, W: Sink>(
    alloc: Global,
    full: bool,
    bytes: &[u8],
    out: &mut W,
) -> Result<Status, Fault<'a>>
    ensures { PacketAnswers full bytes.now (output_of W.contents W.failures W.holds out.old) (output_of W.contents W.failures W.holds out.new) result }
{
    let mut lines = Vec::new(alloc);
    let answer = show_packet(alloc, full, bytes, &mut lines, out);
    print_rest(&mut lines, out)?;
    answer
}

fn show_packet<'a, W: Sink>(
    alloc: Global,
    full: bool,
    bytes: &[u8],
    lines: &mut Vec<u8>,
    out: &mut W,
) -> Result<Status, Fault<'a>>
    ensures { PacketPasses full bytes.now lines.old.items lines.new.items (output_of W.contents W.failures W.holds out.old) (output_of W.contents W.failures W.holds out.new) result }
{
    let mut reader = PacketReader::open(alloc, bytes, LIMITS)?;
    show_opened(alloc, full, &mut reader, lines, out)
}

fn show_opened<'a, W: Sink>(
    alloc: Global,
    full: bool,
    reader: &mut PacketReader<&[u8]>,
    lines: &mut Vec<u8>,
    out: &mut W,
) -> Result<Status, Fault<'a>>
    requires header { IsHeader (reader_header reader.old) }
    requires room { length (header_bytes (reader_header reader.old) ++ (reader_source reader.old).now) < 2 ^ 64 }
    requires begins { IsReading reader.old × (reader_given reader.old ≡ 0) × (reader_place reader.old ≡ 58) × (reader_limits reader.old ≡ show_limits) }
    ensures { PacketPasses full (header_bytes (reader_header reader.old) ++ (reader_source reader.old).now) lines.old.items lines.new.items (output_of W.contents W.failures W.holds out.old) (output_of W.contents W.failures W.holds out.new) result }
{
    add_header(alloc, lines, reader.header())?;
    let mut count = 0u64;
    let mut place = reader.place();
    'messages: while let Some(message) = reader.next()? {
        count += 1;
        pass_message(alloc, full, lines, count, place, &message, out)?;
        place = reader.place();
    }
    add_end(alloc, lines, count, reader.place())?;
    Ok(Status::Good)
}

// The lines are made by themselves first, so that out of memory adds none.
fn add_header(alloc: Global, lines: &mut Vec<u8>, header: &Header) -> Result<(), AllocError>
    ensures lines { OnOk result (lines.new.items ≡ lines.old.items ++ header_lines header.now) }
    ensures kept { OnErr result (lines.new.items ≡ lines.old.items) }
{
    let mut more = Vec::new(alloc);
    push_header(alloc, &mut more, header)?;
    lines.append(&mut more)?;
    Ok(())
}

fn add_end(alloc: Global, lines: &mut Vec<u8>, messages: u64, bytes: u64) -> Result<(), AllocError>
    ensures lines { OnOk result (lines.new.items ≡ lines.old.items ++ end_line messages bytes) }
    ensures kept { OnErr result (lines.new.items ≡ lines.old.items) }
{
    let mut more = Vec::new(alloc);
    push_end(&mut more, messages, bytes)?;
    lines.append(&mut more)?;
    Ok(())
}

fn pass_message<'a, W: Sink>(
    alloc: Global,
    full: bool,
    lines: &mut Vec<u8>,
    number: u64,
    place: u64,
    message: &Packed,
    out: &mut W,
) -> Result<(), Fault<'a>>
    ensures { MessagePasses full number place message.now lines.old.items lines.new.items (output_of W.contents W.failures W.holds out.old) (output_of W.contents W.failures W.holds out.new) result }
{
    let mut more = Vec::new(alloc);
    push_message(alloc, full, &mut more, number, place, message)?;
    lines.append(&mut more)?;
    flush_piece(lines, out)
}

fn push_message<'a>(
    alloc: Global,
    full: bool,
    lines: &mut Vec<u8>,
    number: u64,
    place: u64,
    message: &Packed,
) -> Result<(), Fault<'a>>
    ensures lines { OnOk result (Pushes (MessageShown full number place message.now) lines.old.items lines.new.items) }
    ensures err { IfErr result IsOutOfMemory }
{
    push_fields(lines, number, place, message)?;
    let text = message.text();
    push_text(lines, full, text)?;
    push_said(alloc, lines, text)
}

fn push_said<'a>(alloc: Global, lines: &mut Vec<u8>, text: &[u8]) -> Result<(), Fault<'a>>
    requires { HasNoZero text.now }
    ensures lines { OnOk result (Pushes (TextShown text.now) lines.old.items lines.new.items) }
    ensures err { IfErr result IsOutOfMemory }
{
    match view_text(alloc, text) {
        Ok((echo, dropped)) => Ok(push_echo(lines, &echo, dropped)?),
        Err(TextFault::NotEcho) => Ok(push_line(lines, b"not echomail\n")?),
        Err(TextFault::BadTag) => Ok(push_line(lines, b"bad tag\n")?),
        // No text is refused for its MSGID here.
        Err(TextFault::Memory | TextFault::BadMsgId) => Err(Fault::Text(TextFault::Memory)),
    }
}

fn push_line(lines: &mut Vec<u8>, line: &[u8]) -> Result<(), AllocError>
    ensures { OnOk result (lines.new.items ≡ lines.old.items ++ line.now) }
{
    lines.extend_from_slice(line)
}
