//! Writes the messages of a packet one by one to a sink.

ghost use Rattle.std.specs.Prelude.{◌≡◌, ◌+◌, true, false, length, IfOk, IfErr, OnOk, OnErr, Err};
ghost use Rattle.std.specs.Io.KnownBytes.{Appends};
ghost use Rattle.disk_io.specs.Device.{Failed, Sends};
ghost use Rattle.echo_packet.specs.{declared.fault.PacketFault.TheVariants.Stopped, declared.fault.PacketFault.TheVariants.Write, Header.IsHeader, Header.header_bytes, Header.word};
ghost use Rattle.echo_packet.specs.{Message.IsMessage, Message.message_bytes, Message.readdressed, Writer.IsCutOff, Writer.bytes_sent, Writer.has_stopped, Writer.writer_below};

use crate::copy::PackedCopy;
use crate::fault::PacketFault;
use crate::header::Header;
use crate::packed::Packed;
use crate::sending::{send_header, send_message, send_terminator};
use disk_io::{Failure, Sink};

/// Writes a packet (FTS-0001): its header, messages one by one, and the terminator. Takes no memory.
#[derive(Drop)]
pub struct PacketWriter<W> {
    writer: W,
    sent: u64,
    stopped: bool,
}

impl<W: Sink + Drop> PacketWriter<W> {
    /// Writes the header. The fault `Write` has the number of bytes sent; the writer is dropped.
    pub fn begin(writer: W, header: &Header) -> Result<PacketWriter<W>, PacketFault>
        ensures bytes { IfOk result (λ packet. Appends (W.contents writer) (W.contents (writer_below packet)) (header_bytes header.now)) }
        ensures count { IfOk result (λ packet. bytes_sent packet ≡ 58) }
        ensures ready { IfOk result (λ packet. has_stopped packet ≡ false) }
        ensures same { IfOk result (λ packet. W.failures (writer_below packet) ≡ W.failures writer) }
        ensures fault { IfErr result (IsCutOff W.contents W.failures writer (header_bytes header.now) 0) }
        ensures header { IsHeader header.now }
    {
        let mut writer = writer;
        let mut sent = 0;
        match send_header(&mut writer, header, &mut sent) {
            Ok(()) => Ok(PacketWriter {
                writer,
                sent,
                stopped: false,
            }),
            Err(Failure) => Err(PacketFault::Write { bytes: sent }),
        }
    }

    /// Writes a message. Faults: `Write` with the number of bytes sent since `begin`; `Stopped` after an earlier
    /// error.
    pub fn put(&mut self, message: &Packed) -> Result<(), PacketFault>
        ensures bytes { has_stopped self.old ≡ false → Sends (W.contents (writer_below self.old)) (W.contents (writer_below self.new)) result (message_bytes message.now) (bytes_sent self.old) (bytes_sent self.new) }
        ensures ok { OnOk result (has_stopped self.new ≡ false) }
        ensures same { OnOk result (W.failures (writer_below self.new) ≡ W.failures (writer_below self.old)) }
        ensures fault { has_stopped self.old ≡ false → IfErr result (λ fault. fault ≡ Write (bytes_sent self.new)) }
        ensures failed { has_stopped self.old ≡ false → OnErr result (Failed (W.failures (writer_below self.old)) (W.failures (writer_below self.new))) }
        ensures stops { OnErr result (has_stopped self.new ≡ true) }
        ensures message { OnOk result (IsMessage (length message.now.text) message.now) }
        ensures stopped { has_stopped self.old ≡ true → (result ≡ Err Stopped) × (self.new ≡ self.old) }
    {
        self.put_for(message, message.dest_node(), message.dest_net())
    }

    /// Writes a copy, as `put` writes a message.
    pub fn put_copy(&mut self, copy: &PackedCopy) -> Result<(), PacketFault>
        ensures bytes { has_stopped self.old ≡ false → Sends (W.contents (writer_below self.old)) (W.contents (writer_below self.new)) result (message_bytes copy.now) (bytes_sent self.old) (bytes_sent self.new) }
        ensures ok { OnOk result (has_stopped self.new ≡ false) }
        ensures same { OnOk result (W.failures (writer_below self.new) ≡ W.failures (writer_below self.old)) }
        ensures fault { has_stopped self.old ≡ false → IfErr result (λ fault. fault ≡ Write (bytes_sent self.new)) }
        ensures failed { has_stopped self.old ≡ false → OnErr result (Failed (W.failures (writer_below self.old)) (W.failures (writer_below self.new))) }
        ensures stops { OnErr result (has_stopped self.new ≡ true) }
        ensures message { OnOk result (IsMessage (length copy.now.text) copy.now) }
        ensures stopped { has_stopped self.old ≡ true → (result ≡ Err Stopped) × (self.new ≡ self.old) }
    {
        self.put_for(copy.message(), copy.dest_node(), copy.dest_net())
    }

    fn put_for(
        &mut self,
        message: &Packed,
        dest_node: u16,
        dest_net: u16,
    ) -> Result<(), PacketFault>
        ensures bytes { has_stopped self.old ≡ false → Sends (W.contents (writer_below self.old)) (W.contents (writer_below self.new)) result (message_bytes (readdressed message.now dest_node dest_net)) (bytes_sent self.old) (bytes_sent self.new) }
        ensures ok { OnOk result (has_stopped self.new ≡ false) }
        ensures same { OnOk result (W.failures (writer_below self.new) ≡ W.failures (writer_below self.old)) }
        ensures fault { has_stopped self.old ≡ false → IfErr result (λ fault. fault ≡ Write (bytes_sent self.new)) }
        ensures failed { has_stopped self.old ≡ false → OnErr result (Failed (W.failures (writer_below self.old)) (W.failures (writer_below self.new))) }
        ensures stops { OnErr result (has_stopped self.new ≡ true) }
        ensures message { OnOk result (IsMessage (length message.now.text) (readdressed message.now dest_node dest_net)) }
        ensures stopped { has_stopped self.old ≡ true → (result ≡ Err Stopped) × (self.new ≡ self.old) }
    {
        if self.stopped {
            return Err(PacketFault::Stopped);
        }
        match send_message(
            &mut self.writer,
            message,
            dest_node,
            dest_net,
            &mut self.sent,
        ) {
            Ok(()) => Ok(()),
            Err(Failure) => {
                self.stopped = true;
                Err(PacketFault::Write { bytes: self.sent })
            }
        }
    }

    /// Writes the terminator 00 00 and returns the writer, not flushed. Faults, at which the writer is dropped: `Write`
    /// with the number of bytes sent since `begin`; `Stopped` after an earlier error, and nothing is sent.
    pub fn finish(self) -> Result<W, PacketFault>
        ensures bytes { IfOk result (λ writer. Appends (W.contents (writer_below self)) (W.contents writer) (word 0)) }
        ensures same { IfOk result (λ writer. W.failures writer ≡ W.failures (writer_below self)) }
        ensures fault { has_stopped self ≡ false → IfErr result (IsCutOff W.contents W.failures (writer_below self) (word 0) (bytes_sent self)) }
        ensures stopped { has_stopped self ≡ true → result ≡ Err Stopped }
    {
        if self.stopped {
            return Err(PacketFault::Stopped);
        }
        let mut writer = self.writer;
        let mut sent = self.sent;
        match send_terminator(&mut writer, &mut sent) {
            Ok(()) => Ok(writer),
            Err(Failure) => Err(PacketFault::Write { bytes: sent }),
        }
    }
}
