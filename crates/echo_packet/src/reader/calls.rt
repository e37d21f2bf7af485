//! The calls of a reader of packets.

ghost use Rattle.std.specs.Prelude.{◌≡◌, ◌≢◌, ◌+◌, [], length, Err, IfOk, IfErr, IfSome};
ghost use Rattle.std.specs.Io.KnownBytes.{Consumes};
ghost use Rattle.echo_packet.specs.Next.{CountsFailures, FailsInMessage, IsWithin, NextFault, TakesNext, next_bytes};
ghost use Rattle.echo_packet.specs.Reader.{FailsInFront, FrontFault, GoesOn, IsDropped, IsReading, KeepsFront, StaysOver, reader_given, reader_header, reader_limits, reader_place, reader_source};
ghost use Rattle.echo_packet.specs.{declared.fault.PacketFault.TheVariants.Memory, Header.IsHeader, Header.header_bytes, Fault.place_of};

use crate::fault::PacketFault;
use crate::header::{HEADER_BYTES, Header, header_of, number_at};
use crate::limits::Limits;
use crate::message::{broken_fault, read_next};
use crate::packed::{Buffers, Packed};
use crate::reader::{PacketReader, Stage};
use disk_io::{Source, read_fixed};
use std::alloc::Global;

/// The header at the front of the source; no byte after it is consumed. Takes no memory. `Truncated` at 0 if fewer
/// than 58 bytes come, `NotType2` at 18 for another packet type, `Read` at 0 if the device failed.
pub fn read_header<R: Source>(source: &mut R) -> Result<Header, PacketFault>
    ensures header { IfOk result IsHeader }
    ensures taken { IfOk result (λ h. Consumes (R.remaining source.old) (R.remaining source.new) (header_bytes h)) }
    ensures fault { IfSome (R.remaining source.old) (λ bs. IfErr result (FrontFault bs)) }
    ensures memory { result ≢ Err Memory }
    ensures inside { IfErr result (FailsInFront (R.remaining source.old) (R.remaining source.new)) }
    ensures device { CountsFailures result (R.failures source.old) (R.failures source.new) }
{
    let mut bytes = [0u8; HEADER_BYTES];
    if let Err(broken) = read_fixed(source, &mut bytes) {
        return Err(broken_fault(broken, 0));
    }
    let kind = number_at(&bytes, 18);
    if kind != 2 {
        return Err(PacketFault::NotType2 { at: 18 });
    }
    Ok(header_of(&bytes))
}

impl<R: Source> PacketReader<R> {
    /// Reads the header by `read_header` and passes its faults on. The source is then dropped.
    pub fn open(alloc: Global, reader: R, limits: Limits) -> Result<PacketReader<R>, PacketFault>
    where
        R: Drop,
        ensures header { IfOk result (λ p. IsHeader (reader_header p)) }
        ensures taken { IfOk result (λ p. Consumes (R.remaining reader) (R.remaining (reader_source p)) (header_bytes (reader_header p))) }
        ensures begins { IfOk result (λ p. IsReading p × (reader_given p ≡ 0) × (reader_place p ≡ 58) × (reader_limits p ≡ limits)) }
        ensures device { IfOk result (λ p. R.failures (reader_source p) ≡ R.failures reader) }
        ensures fault { IfSome (R.remaining reader) (λ bs. IfErr result (FrontFault bs)) }
        ensures failed { IfErr result (IsDropped R.remaining R.failures reader) }
    {
        let mut source = reader;
        let header = read_header(&mut source)?;
        Ok(PacketReader {
            alloc,
            source,
            limits,
            header,
            given: 0,
            place: HEADER_BYTES as u64,
            stage: Stage::Reading,
        })
    }

    /// The next message, or `None` at the terminator and from then on. A fault has the place of its field, from the
    /// packet's start. After an error each call answers `Stopped`.
    pub fn next(&mut self) -> Result<Option<Packed>, PacketFault>
        ensures within { IsReading self.old → IfOk result (IsWithin (reader_limits self.old) (reader_given self.old)) }
        ensures taken { IsReading self.old → TakesNext (R.remaining (reader_source self.old)) (R.remaining (reader_source self.new)) result }
        ensures place { IsReading self.old → IfOk result (λ next. reader_place self.new ≡ place_of (reader_place self.old + length (next_bytes next))) }
        ensures goes_on { IsReading self.old → GoesOn self.old self.new result }
        ensures fault { IsReading self.old → IfSome (R.remaining (reader_source self.old)) (λ bs. IfErr result (NextFault (reader_limits self.old) (reader_given self.old) (reader_place self.old) bs)) }
        ensures inside { IsReading self.old → IfErr result (FailsInMessage (reader_limits self.old) (reader_given self.old) (reader_place self.old) [] (R.remaining (reader_source self.old)) (R.remaining (reader_source self.new))) }
        ensures over { StaysOver self.old self.new result }
        ensures front { KeepsFront self.old self.new }
        ensures device { CountsFailures result (R.failures (reader_source self.old)) (R.failures (reader_source self.new)) }
    {
        match self.stage {
            Stage::Reading => {}
            Stage::Ended => return Ok(None),
            Stage::Stopped => return Err(PacketFault::Stopped),
        }
        match read_next(
            Buffers::new(self.alloc),
            &mut self.source,
            self.limits,
            self.given,
            &mut self.place,
        ) {
            Ok(Some(message)) => {
                self.given += 1;
                Ok(Some(message))
            }
            Ok(None) => {
                self.stage = Stage::Ended;
                Ok(None)
            }
            Err(fault) => {
                self.stage = Stage::Stopped;
                Err(fault)
            }
        }
    }
}

impl<R> PacketReader<R> {
    /// The header of the packet.
    pub fn header(&self) -> &Header
        ensures { result.now ≡ reader_header self.now }
    {
        &self.header
    }

    /// How many bytes were read, the terminator included. It stops at the greatest `u64`.
    pub fn place(&self) -> u64
        ensures { result ≡ reader_place self.now }
    {
        self.place
    }
}
