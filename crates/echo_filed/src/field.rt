//! One field of a base file, taken from a source.
ghost use Rattle.std.specs.{Prelude.◌≡◌, Prelude.◌<◌, Prelude.length, Prelude.IfOk, List.flat_map};
ghost use Rattle.disk_io.specs.Fixed.{CountsBreak};
ghost use Rattle.echo_filed.specs.Fields.{HasLength, IsByte, IsLong, IsLongString, IsShortString, IsSmall, LastFits, Reads, StepsSized, address_bytes, itself, last_of, one_byte};
ghost use Rattle.echo_filed.specs.Stored.{after_length, after_long_length, long};

use crate::numbers::{long_of, word_of};
use disk_io::{Broken, Source, fill_buffer, read_fixed};
use echo_addr::{Address, Items};
use std::alloc::AllocError;

// How many bytes more than those that came room is made for.
const STEP: usize = 4096;

// The most bytes of a string that is read in one part.
const PART: usize = 65_536;

pub(crate) fn read_byte<R: Source>(reader: &mut R) -> Result<u8, Broken>
    ensures read { Reads IsByte one_byte (R.remaining reader.old) (R.remaining reader.new) result }
    ensures device { CountsBreak result (R.failures reader.old) (R.failures reader.new) }
{
    let mut bytes = [0u8; 1];
    read_fixed(reader, &mut bytes)?;
    Ok(bytes[0])
}

/// A number of four bytes.
pub fn read_long<R: Source>(reader: &mut R) -> Result<u32, Broken>
    ensures read { Reads IsLong long (R.remaining reader.old) (R.remaining reader.new) result }
    ensures device { CountsBreak result (R.failures reader.old) (R.failures reader.new) }
{
    let mut bytes = [0u8; 4];
    read_fixed(reader, &mut bytes)?;
    Ok(long_of(bytes))
}

pub(crate) fn read_address<R: Source>(reader: &mut R) -> Result<Address, Broken>
    ensures read { Reads IsSmall address_bytes (R.remaining reader.old) (R.remaining reader.new) result }
    ensures device { CountsBreak result (R.failures reader.old) (R.failures reader.new) }
{
    let mut bytes = [0u8; 6];
    read_fixed(reader, &mut bytes)?;
    Ok(Address {
        zone: word_of([bytes[0], bytes[1]]),
        net: word_of([bytes[2], bytes[3]]),
        node: word_of([bytes[4], bytes[5]]),
    })
}

pub(crate) fn read_date<R: Source>(reader: &mut R) -> Result<[u8; 20], Broken>
    ensures read { Reads (HasLength 20) itself (R.remaining reader.old) (R.remaining reader.new) result }
    ensures device { CountsBreak result (R.failures reader.old) (R.failures reader.new) }
{
    let mut date = [0u8; 20];
    read_fixed(reader, &mut date)?;
    Ok(date)
}

fn take_piece<R: Source>(reader: &mut R, string: &mut Vec<u8>, size: usize) -> Result<(), Broken>
    requires { length string.old.items < size }
    ensures step { StepsSized size string.old.items string.new.items (R.remaining reader.old) (R.remaining reader.new) result }
    ensures device { CountsBreak result (R.failures reader.old) (R.failures reader.new) }
{
    let had = string.len();
    let held = reader.held();
    let there = held.len().min(size - had);
    if there > 0 {
        string.reserve_exact(there)?;
        string.extend_from_slice(&held[..there])?;
        reader.skip(there);
        return Ok(());
    }
    let step = (size - had).min(STEP);
    string.reserve_exact(step)?;
    string.resize(had + step, 0)?;
    let consumed = fill_buffer(reader, string, had)?;
    if consumed < step {
        return Err(Broken::Cut);
    }
    Ok(())
}

fn read_part<R: Source>(
    mut string: Vec<u8>,
    reader: &mut R,
    size: usize,
) -> Result<Items<u8>, Broken>
    ensures read { Reads (HasLength size) itself (R.remaining reader.old) (R.remaining reader.new) result }
    ensures device { CountsBreak result (R.failures reader.old) (R.failures reader.new) }
{
    string.clear();
    'pieces: while string.len() < size {
        take_piece(reader, &mut string, size)?;
    }
    Ok(Items::new(string))
}

fn joined(mut string: Vec<u8>, parts: &[Items<u8>], size: usize) -> Result<Items<u8>, AllocError>
    ensures { IfOk result (λ string. string ≡ flat_map itself parts.now) }
{
    string.clear();
    string.reserve_exact(size)?;
    'parts: for part in parts {
        string.extend_from_slice(part.as_slice())?;
    }
    Ok(Items::new(string))
}

// The parts of the string are joined when all have come: growing a long one would move it at each step.
fn read_long_string<R: Source>(
    string: Vec<u8>,
    reader: &mut R,
    size: usize,
) -> Result<Items<u8>, Broken>
    ensures read { Reads (HasLength size) itself (R.remaining reader.old) (R.remaining reader.new) result }
    ensures device { CountsBreak result (R.failures reader.old) (R.failures reader.new) }
{
    let alloc = *string.allocator();
    let mut parts = Vec::new(alloc);
    let mut left = size;
    'parts: while left > 0 {
        let next = left.min(PART);
        let part = read_part(Vec::new(alloc), reader, next)?;
        parts.push(part)?;
        left -= next;
    }
    Ok(joined(string, parts.as_slice(), size)?)
}

fn read_string<R: Source>(string: Vec<u8>, reader: &mut R, size: usize) -> Result<Items<u8>, Broken>
    ensures read { Reads (HasLength size) itself (R.remaining reader.old) (R.remaining reader.new) result }
    ensures device { CountsBreak result (R.failures reader.old) (R.failures reader.new) }
{
    if size <= PART {
        return read_part(string, reader, size);
    }
    read_long_string(string, reader, size)
}

/// Bytes after their length, of one byte, in a vector.
pub(crate) fn read_short<R: Source>(string: Vec<u8>, reader: &mut R) -> Result<Items<u8>, Broken>
    ensures read { Reads IsShortString after_length (R.remaining reader.old) (R.remaining reader.new) result }
    ensures device { CountsBreak result (R.failures reader.old) (R.failures reader.new) }
{
    let size = read_byte(reader)?;
    read_string(string, reader, size as usize)
}

fn read_text<R: Source>(text: Vec<u8>, reader: &mut R) -> Result<Items<u8>, Broken>
    ensures read { Reads IsLongString after_long_length (R.remaining reader.old) (R.remaining reader.new) result }
    ensures device { CountsBreak result (R.failures reader.old) (R.failures reader.new) }
{
    let size = read_long(reader)?;
    read_string(text, reader, size as usize)
}

/// The fields after the subject, in two vectors: the tag and the id, or no tag and the text.
pub(crate) fn read_last<R: Source>(
    mut tag: Vec<u8>,
    last: Vec<u8>,
    reader: &mut R,
    with_tag: bool,
) -> Result<(Items<u8>, Items<u8>), Broken>
    ensures read { Reads (LastFits with_tag) (last_of with_tag) (R.remaining reader.old) (R.remaining reader.new) result }
    ensures device { CountsBreak result (R.failures reader.old) (R.failures reader.new) }
{
    if with_tag {
        let tag = read_short(tag, reader)?;
        let last = read_text(last, reader)?;
        return Ok((tag, last));
    }
    tag.clear();
    let last = read_text(last, reader)?;
    Ok((Items::new(tag), last))
}
