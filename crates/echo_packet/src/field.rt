//! A string of a message, taken from a source.
ghost use Rattle.std.specs.Prelude.{◌<◌, length, IfNone, IfSome, IfOk, IfErr};
ghost use Rattle.std.specs.Io.KnownBytes.{Consumes};
ghost use Rattle.disk_io.specs.Fixed.{CountsBreak};
ghost use Rattle.echo_packet.specs.Field.{BreaksString, Consumed, IsPast, IsPiece, StepsString};
ghost use Rattle.echo_packet.specs.Message.{IsString, zero_ended};

use disk_io::{Broken, Source, are_bytes};
use memchr::memchr;

/// The beginning of bytes where a string continues.
#[derive(Clone, Copy, Debug, PartialEq, Eq)]
pub(crate) enum Piece {
    /// This many bytes, and then its 00.
    Whole(usize),
    /// All bytes are the string's.
    Open,
    TooLong,
}

/// The part of a string that one more step took.
#[derive(Clone, Copy, Debug, PartialEq, Eq)]
pub(crate) enum Taken {
    Part,
    Whole,
    /// One byte more than there is room for, and no 00.
    TooLong,
}

fn find_end(held: &[u8], room: usize) -> Piece
    ensures { IsPiece room held.now result }
{
    let window = if held.len() > room {
        &held[..room + 1]
    } else {
        held
    };
    match memchr(0, window) {
        Some(count) => Piece::Whole(count),
        None if window.len() > room => Piece::TooLong,
        None => Piece::Open,
    }
}

fn take_byte<R: Source>(reader: &mut R, string: &mut Vec<u8>, room: usize) -> Result<Taken, Broken>
    ensures step { StepsString room string.old.items string.new.items (R.remaining reader.old) (R.remaining reader.new) result }
    ensures device { CountsBreak result (R.failures reader.old) (R.failures reader.new) }
{
    let mut byte = [0u8; 1];
    let count = reader.read_some(&mut byte)?;
    if count == 0 {
        return Err(Broken::Cut);
    }
    if byte[0] == 0 {
        return Ok(Taken::Whole);
    }
    if room == 0 {
        return Ok(Taken::TooLong);
    }
    string.push(byte[0])?;
    Ok(Taken::Part)
}

fn take_held<R: Source>(reader: &mut R, string: &mut Vec<u8>, room: usize) -> Result<Taken, Broken>
    requires { 0 < length (R.held reader.old) }
    ensures step { StepsString room string.old.items string.new.items (R.remaining reader.old) (R.remaining reader.new) result }
    ensures device { CountsBreak result (R.failures reader.old) (R.failures reader.new) }
{
    let held = reader.held();
    match find_end(held, room) {
        Piece::Whole(count) => {
            string.extend_from_slice(&held[..count])?;
            reader.skip(count + 1);
            Ok(Taken::Whole)
        }
        Piece::Open => {
            let count = held.len();
            string.extend_from_slice(held)?;
            reader.skip(count);
            Ok(Taken::Part)
        }
        Piece::TooLong => {
            reader.skip(room + 1);
            Ok(Taken::TooLong)
        }
    }
}

fn take_piece<R: Source>(reader: &mut R, string: &mut Vec<u8>, room: usize) -> Result<Taken, Broken>
    ensures step { StepsString room string.old.items string.new.items (R.remaining reader.old) (R.remaining reader.new) result }
    ensures device { CountsBreak result (R.failures reader.old) (R.failures reader.new) }
{
    if reader.held().is_empty() {
        take_byte(reader, string, room)
    } else {
        take_held(reader, string, room)
    }
}

/// A string of at most `most` bytes, without the 00 that ends it. None where `most + 1` bytes have
/// no 00. No byte after the 00 is consumed. The string fills `buffer`.
pub(crate) fn read_string<R: Source>(
    buffer: Vec<u8>,
    reader: &mut R,
    most: usize,
) -> Result<Option<Vec<u8>>, Broken>
    ensures found { IfOk result (λ read. IfSome read (λ s. IsString most s.items)) }
    ensures taken { IfOk result (λ read. IfSome read (λ s. Consumes (R.remaining reader.old) (R.remaining reader.new) (zero_ended s.items))) }
    ensures too_long { IfOk result (λ read. IfNone read (Consumed (R.remaining reader.old) (R.remaining reader.new) (IsPast most))) }
    ensures broken { IfErr result (BreaksString most (R.remaining reader.old) (R.remaining reader.new)) }
    ensures device { CountsBreak result (R.failures reader.old) (R.failures reader.new) }
{
    let mut string = buffer;
    string.clear();
    'pieces: loop {
        let room = most - string.len();
        match take_piece(reader, &mut string, room)? {
            Taken::Part => {}
            Taken::Whole => {
                // For the prover alone: each byte is below 256.
                are_bytes(&string);
                return Ok(Some(string));
            }
            Taken::TooLong => return Ok(None),
        }
    }
}
