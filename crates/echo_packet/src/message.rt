//! One message, or the terminator, taken from a source field by field.
ghost use Rattle.std.specs.Prelude.{◌≡◌, ℕ, ◌+◌, ◌<◌, ◌≤◌, [], length, IfOk, IfErr, IfSome, OnOk, OnErr};
ghost use Rattle.std.specs.Io.KnownBytes.{Consumes};
ghost use Rattle.echo_packet.specs.Field.{FailsInFixed, FailsInString, FixedFault, StringFault, TakesMessage, broken_fault_at, long_fault_at};
ghost use Rattle.echo_packet.specs.Next.{CountsFailures, FailsBehind, FailsInMessage, IsWithin, NextFault, TakesNext, next_bytes};
ghost use Rattle.echo_packet.specs.{Header.AreBytes, Message.IsString, Message.zero_ended, Fault.place_of};

use crate::fault::{Field, PacketFault};
use crate::field::read_string;
use crate::header::number_at;
use crate::limits::{Limits, MAX_NAME, MAX_SUBJECT};
use crate::packed::{Buffers, Packed, PackedNumbers};
use disk_io::{Broken, Source, read_fixed};

pub(crate) fn broken_fault(broken: Broken, at: u64) -> PacketFault
    ensures { result ≡ broken_fault_at at broken }
{
    match broken {
        Broken::Cut => PacketFault::Truncated { at },
        Broken::Device => PacketFault::Read { at },
        Broken::Memory => PacketFault::Memory,
    }
}

fn long_fault(field: Field, at: u64) -> PacketFault
    ensures { result ≡ long_fault_at field at }
{
    match field {
        Field::Text => PacketFault::TextTooLong { at },
        Field::ToName | Field::FromName | Field::Subject => PacketFault::FieldTooLong { at },
    }
}

fn past_string(place: u64, string: &[u8]) -> u64
    ensures { result ≡ place_of (place + length (zero_ended string.now)) }
{
    place.saturating_add(string.len() as u64).saturating_add(1)
}

fn fixed_at<R: Source>(reader: &mut R, field: &mut [u8], place: &mut u64) -> Result<(), PacketFault>
    ensures bytes { AreBytes field.new }
    ensures taken { OnOk result (Consumes (R.remaining reader.old) (R.remaining reader.new) field.new) }
    ensures place { OnOk result (place.new ≡ place_of (place.old + length field.new)) }
    ensures fault { IfSome (R.remaining reader.old) (λ bs. IfErr result (FixedFault (length field.old) place.old bs)) }
    ensures inside { IfErr result (FailsInFixed (length field.old) place.old (R.remaining reader.old) (R.remaining reader.new)) }
    ensures device { CountsFailures result (R.failures reader.old) (R.failures reader.new) }
{
    match read_fixed(reader, field) {
        Ok(()) => {
            *place = place.saturating_add(field.len() as u64);
            Ok(())
        }
        Err(broken) => Err(broken_fault(broken, *place)),
    }
}

fn string_at<R: Source>(
    buffer: Vec<u8>,
    reader: &mut R,
    field: Field,
    most: usize,
    place: &mut u64,
) -> Result<Vec<u8>, PacketFault>
    ensures found { IfOk result (λ s. IsString most s.items) }
    ensures taken { IfOk result (λ s. Consumes (R.remaining reader.old) (R.remaining reader.new) (zero_ended s.items)) }
    ensures place { IfOk result (λ s. place.new ≡ place_of (place.old + length (zero_ended s.items))) }
    ensures fault { IfSome (R.remaining reader.old) (λ bs. IfErr result (StringFault field most place.old bs)) }
    ensures inside { IfErr result (FailsInString field most place.old (R.remaining reader.old) (R.remaining reader.new)) }
    ensures device { CountsFailures result (R.failures reader.old) (R.failures reader.new) }
{
    match read_string(buffer, reader, most) {
        Ok(Some(string)) => {
            *place = past_string(*place, &string);
            Ok(string)
        }
        Ok(None) => Err(long_fault(field, *place)),
        Err(broken) => Err(broken_fault(broken, *place)),
    }
}

fn read_fields<R: Source>(
    buffers: Buffers,
    reader: &mut R,
    limits: Limits,
    place: &mut u64,
) -> Result<Packed, PacketFault>
    ensures whole { (start : ℕ) → place.old ≡ place_of (start + 2) → IfOk result (λ m. TakesMessage limits.text start (R.remaining reader.old) (R.remaining reader.new) m place.new) }
    ensures fails { (given start : ℕ) → given < limits.messages → place.old ≡ place_of (start + 2) → IfErr result (FailsBehind limits given start (R.remaining reader.old) (R.remaining reader.new)) }
    ensures device { CountsFailures result (R.failures reader.old) (R.failures reader.new) }
{
    let mut numbers = [0u8; 12];
    fixed_at(reader, &mut numbers, place)?;
    let mut date = [0u8; 20];
    fixed_at(reader, &mut date, place)?;
    let to_name = string_at(buffers.to_name, reader, Field::ToName, MAX_NAME, place)?;
    let from_name = string_at(buffers.from_name, reader, Field::FromName, MAX_NAME, place)?;
    let subject = string_at(buffers.subject, reader, Field::Subject, MAX_SUBJECT, place)?;
    let text = string_at(buffers.text, reader, Field::Text, limits.text, place)?;
    let fields = PackedNumbers {
        orig_node: number_at(&numbers, 0),
        dest_node: number_at(&numbers, 2),
        orig_net: number_at(&numbers, 4),
        dest_net: number_at(&numbers, 6),
        attribute: number_at(&numbers, 8),
        cost: number_at(&numbers, 10),
    };
    let strings = Buffers {
        to_name,
        from_name,
        subject,
        text,
    };
    Ok(Packed::from_parts(fields, date, strings))
}

/// The message that begins at the place, or none for 00 00. The place moves past it, and stays at a
/// fault. `given` messages came before it. Its strings fill `buffers`.
pub fn read_next<R: Source>(
    buffers: Buffers,
    reader: &mut R,
    limits: Limits,
    given: u64,
    place: &mut u64,
) -> Result<Option<Packed>, PacketFault>
    requires { given ≤ limits.messages }
    ensures within { IfOk result (IsWithin limits given) }
    ensures taken { TakesNext (R.remaining reader.old) (R.remaining reader.new) result }
    ensures place { IfOk result (λ next. place.new ≡ place_of (place.old + length (next_bytes next))) }
    ensures stays { OnErr result (place.new ≡ place.old) }
    ensures fault { IfSome (R.remaining reader.old) (λ bs. IfErr result (NextFault limits given place.old bs)) }
    ensures inside { IfErr result (FailsInMessage limits given place.old [] (R.remaining reader.old) (R.remaining reader.new)) }
    ensures device { CountsFailures result (R.failures reader.old) (R.failures reader.new) }
{
    let at = *place;
    let mut past = at;
    let mut bytes = [0u8; 2];
    fixed_at(reader, &mut bytes, &mut past)?;
    let number = number_at(&bytes, 0);
    if number == 0 {
        *place = past;
        return Ok(None);
    }
    if number != 2 {
        return Err(PacketFault::NotMessage { at });
    }
    if given >= limits.messages {
        return Err(PacketFault::TooManyMessages { at });
    }
    let message = read_fields(buffers, reader, limits, &mut past)?;
    *place = past;
    Ok(Some(message))
}
