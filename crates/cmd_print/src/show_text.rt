//! The lines of a packet's header, and the first ones of a message.
ghost use Rattle.std.specs.Prelude.{◌≡◌, ◌++◌, OnOk};
ghost use Rattle.cmd_print.specs.Shown.{costing, date, end_line, header_lines, message_line, message_lines, message_number, packet_line, product, route, named_systems, text_line, time, whole_text};

use crate::base_text::push_lines;
use echo_addr::Address;
use echo_charset::{push_escaped, written};
use echo_packet::{Header, Packed};
use std::alloc::{AllocError, Global};
use std::io::Write;

fn push_systems(lines: &mut Vec<u8>, h: &Header) -> Result<(), AllocError>
    ensures { OnOk result (lines.new.items ≡ lines.old.items ++ named_systems h.now) }
{
    let from = Address {
        zone: h.orig_zone,
        net: h.orig_net,
        node: h.orig_node,
    };
    let to = Address {
        zone: h.dest_zone,
        net: h.dest_net,
        node: h.dest_node,
    };
    written(write!(lines, "packet {from} to {to}"))
}

fn push_date(lines: &mut Vec<u8>, h: &Header) -> Result<(), AllocError>
    ensures { OnOk result (lines.new.items ≡ lines.old.items ++ date h.now) }
{
    let year = h.year;
    let month = u32::from(h.month) + 1;
    let day = h.day;
    written(write!(lines, "{year:04}-{month:02}-{day:02}"))
}

fn push_time(lines: &mut Vec<u8>, h: &Header) -> Result<(), AllocError>
    ensures { OnOk result (lines.new.items ≡ lines.old.items ++ time h.now) }
{
    let hour = h.hour;
    let minute = h.minute;
    let second = h.second;
    written(write!(lines, "{hour:02}:{minute:02}:{second:02}"))
}

fn push_product(lines: &mut Vec<u8>, h: &Header) -> Result<(), AllocError>
    ensures { OnOk result (lines.new.items ≡ lines.old.items ++ product h.now) }
{
    let product = h.prod_code;
    let serial = h.serial_no;
    written(writeln!(lines, " product {product} serial {serial}"))
}

fn push_packet(lines: &mut Vec<u8>, h: &Header) -> Result<(), AllocError>
    ensures { OnOk result (lines.new.items ≡ lines.old.items ++ packet_line h.now) }
{
    push_systems(lines, h)?;
    lines.extend_from_slice(b" at ")?;
    push_date(lines, h)?;
    lines.push(b' ')?;
    push_time(lines, h)?;
    push_product(lines, h)
}

/// Adds the three lines of a packet's header; password and fill are printed as hexadecimal digits.
pub fn push_header(alloc: Global, lines: &mut Vec<u8>, h: &Header) -> Result<(), AllocError>
    ensures { OnOk result (lines.new.items ≡ lines.old.items ++ header_lines h.now) }
{
    let password = hex::encode(alloc, h.password.as_slice())?;
    let fill = hex::encode(alloc, h.fill.as_slice())?;
    push_packet(lines, h)?;
    written(write!(lines, "password {password}\nfill {fill}\n"))
}

fn push_route(lines: &mut Vec<u8>, m: &Packed) -> Result<(), AllocError>
    ensures { OnOk result (lines.new.items ≡ lines.old.items ++ route m.now) }
{
    let from_net = m.orig_net();
    let from_node = m.orig_node();
    let to_net = m.dest_net();
    let to_node = m.dest_node();
    written(write!(lines, "{from_net}/{from_node} to {to_net}/{to_node}"))
}

fn push_number(lines: &mut Vec<u8>, number: u64, place: u64) -> Result<(), AllocError>
    ensures { OnOk result (lines.new.items ≡ lines.old.items ++ message_number number place) }
{
    written(write!(lines, "message {number} at {place}: "))
}

fn push_cost(lines: &mut Vec<u8>, m: &Packed) -> Result<(), AllocError>
    ensures { OnOk result (lines.new.items ≡ lines.old.items ++ costing m.now) }
{
    let attribute = m.attribute();
    let cost = m.cost();
    written(writeln!(lines, " attribute {attribute} cost {cost}"))
}

fn push_first(lines: &mut Vec<u8>, number: u64, place: u64, m: &Packed) -> Result<(), AllocError>
    ensures { OnOk result (lines.new.items ≡ lines.old.items ++ message_line number place m.now) }
{
    push_number(lines, number, place)?;
    push_route(lines, m)?;
    push_cost(lines, m)
}

/// Adds the six lines of a message. Its number counts from 1, its place in bytes from the start of the packet.
pub fn push_fields(
    lines: &mut Vec<u8>,
    number: u64,
    place: u64,
    m: &Packed,
) -> Result<(), AllocError>
    ensures { OnOk result (lines.new.items ≡ lines.old.items ++ message_lines number place m.now) }
{
    push_first(lines, number, place, m)?;
    push_escaped(lines, b"date", m.date())?;
    push_escaped(lines, b"to", m.to_name())?;
    push_escaped(lines, b"from", m.from_name())?;
    push_escaped(lines, b"subject", m.subject())?;
    push_size(lines, m.text().len())
}

fn push_size(lines: &mut Vec<u8>, bytes: usize) -> Result<(), AllocError>
    ensures { OnOk result (lines.new.items ≡ lines.old.items ++ text_line bytes) }
{
    written(writeln!(lines, "text {bytes} bytes"))
}

/// Adds a line for each line of a text, if they are asked for.
pub fn push_text(lines: &mut Vec<u8>, full: bool, text: &[u8]) -> Result<(), AllocError>
    ensures { OnOk result (lines.new.items ≡ lines.old.items ++ whole_text full text.now) }
{
    if full {
        push_lines(lines, text)
    } else {
        Ok(())
    }
}

/// Adds the line after the last message of a packet: how many messages and bytes it has.
pub fn push_end(lines: &mut Vec<u8>, messages: u64, bytes: u64) -> Result<(), AllocError>
    ensures { OnOk result (lines.new.items ≡ lines.old.items ++ end_line messages bytes) }
{
    written(writeln!(lines, "end {messages} messages, {bytes} bytes"))
}
