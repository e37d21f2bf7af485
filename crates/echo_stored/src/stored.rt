//! A message as a stored one (FTS-0001).

ghost use Rattle.std.specs.Prelude.{◌≡◌, ◌≤◌, ◌++◌, IfOk, OnOk, length};
ghost use Rattle.echo_filed.specs.Written.{text_of};
ghost use Rattle.echo_stored.specs.OriginAddress as origins;

use crate::origin::origin_address;
use echo_addr::Address;
use echo_filed::Filed;
use echo_text::{Echo, write_text};
use std::alloc::{AllocError, Global};

/// The attribute of a message that was written here, and of one that was sent since.
const LOCAL: u16 = 256;

const LOCAL_SENT: u16 = 264;

/// The padding of a field.
const ZEROS: [u8; 72] = [0; 72];

/// Adds the message as a stored one (FTS-0001): the names and the subject, each filled with 00, the DateTime, the
/// numbers, and its text without the AREA line, ended by 00. A message was scanned or it waits.
pub fn push_stored(
    alloc: Global,
    stored: &mut Vec<u8>,
    message: &Filed,
    scanned: bool,
) -> Result<(), AllocError> {
    push_padded(stored, message.from_name.as_slice(), 36)?;
    push_padded(stored, message.to_name.as_slice(), 36)?;
    push_padded(stored, message.subject.as_slice(), 72)?;
    push_bytes(stored, &message.date)?;
    push_numbers(stored, message, scanned)?;
    let text = written_text(alloc, message)?;
    // AREA: and the 0D at the end of its line are six bytes.
    let kept = text.get(message.echo.tag.len() + 6..).unwrap_or(b"");
    push_bytes(stored, kept)?;
    push_bytes(stored, &[0])
}

/// Adds the bytes.
pub fn push_bytes(stored: &mut Vec<u8>, bytes: &[u8]) -> Result<(), AllocError>
    ensures { OnOk result (stored.new.items ≡ stored.old.items ++ bytes.now) }
{
    stored.extend_from_slice(bytes)
}

fn push_padded(stored: &mut Vec<u8>, bytes: &[u8], size: usize) -> Result<(), AllocError>
    requires fits { length bytes.now ≤ size }
    requires small { size ≤ 72 }
{
    push_bytes(stored, bytes)?;
    push_bytes(stored, &ZEROS[..size - bytes.len()])
}

// timesRead, destNode, origNode, cost, origNet, destNet, destZone, origZone, destPoint, origPoint, replyTo, Attribute
// and nextReply. Echomail has no single destination. The sender's address is that of the origin line, or else that of
// the system that sent the message.
fn push_numbers(stored: &mut Vec<u8>, message: &Filed, scanned: bool) -> Result<(), AllocError> {
    let attribute = match message.sender {
        Some(_) => 0,
        None if scanned => LOCAL_SENT,
        None => LOCAL,
    };
    let from = address_in_origin(&message.echo).or(message.sender);
    let (zone, net, node) = from.map_or((0, 0, 0), |from| (from.zone, from.net, from.node));
    for number in [0, 0, node, 0, net, 0, 0, zone, 0, 0, 0, attribute, 0] {
        push_bytes(stored, &number.to_le_bytes())?;
    }
    Ok(())
}

/// The address in the origin line of a text.
pub fn address_in_origin(echo: &Echo) -> Option<Address>
    ensures { result ≡ origins.address_in_origin echo.now }
{
    match echo.origin() {
        Some(line) => origin_address(line),
        None => None,
    }
}

/// The text that is written for the message.
pub fn written_text(alloc: Global, message: &Filed) -> Result<Vec<u8>, AllocError>
    ensures { IfOk result (λ text. text.items ≡ text_of message.now.echo) }
{
    write_text(alloc, &message.echo)
}
