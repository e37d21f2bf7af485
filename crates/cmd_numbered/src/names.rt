//! The names of stored messages in a folder.
ghost use Rattle.std.specs.Prelude.{◌≡◌};
ghost use Rattle.echo_addr.specs.Digits.{number_within};
ghost use Rattle.cmd_numbered.specs.Names.{ends_in_msg, front_of_name, is_left, number_of_name};

use echo_addr::number;
use echo_charset::written;
use std::alloc::{AllocError, Global};
use std::io::Write;

/// The greatest number that a name has: eight digits, as the file systems of the field take.
const MOST: u32 = 99_999_999;

/// The end of a staging name, after the name of a stored message.
const BESIDE: &[u8] = b".~msg~.new";

/// The number of the stored message with this name; none if it is no such name.
pub fn stored_number(name: &[u8]) -> Option<u32>
    ensures { result ≡ number_of_name name.now }
{
    if ends_in_msg(name) {
        small_number(front_of_name(name))
    } else {
        None
    }
}

fn small_number(digits: &[u8]) -> Option<u32>
    ensures { result ≡ number_within 99999999 digits.now }
{
    match number(MOST + 1, digits) {
        Some(n) if n <= MOST => Some(n),
        _ => None,
    }
}

fn ends_in_msg(name: &[u8]) -> bool
    ensures { result ≡ ends_in_msg name.now }
{
    name[name.len().saturating_sub(4)..].eq_ignore_ascii_case(b".MSG")
}

fn front_of_name(name: &[u8]) -> &[u8]
    ensures { result.now ≡ front_of_name name.now }
{
    &name[..name.len().saturating_sub(4)]
}

/// Whether this is the name of a staging file of a stored message, which a stopped run left.
pub fn is_left(name: &[u8]) -> bool
    ensures { result ≡ is_left name.now }
{
    let front = name.len().saturating_sub(BESIDE.len());
    &name[front..] == BESIDE && stored_number(&name[..front]).is_some()
}

pub(crate) fn file_name(alloc: Global, number: u128) -> Result<Vec<u8>, AllocError> {
    let mut name = Vec::new(alloc);
    written(write!(name, "{number}.msg"))?;
    Ok(name)
}
