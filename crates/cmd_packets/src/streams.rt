//! The packet files of `toss`: their names, and the reader of those that are too large to be held in memory.

use cmd_input::{PathName, Progress, input_fault};
use cmd_status::{Fault, StreamPackets};
use disk_io::{Buffered, Watched};
use disk_system::open_regular;
use echo_packet::Limits;
use std::fs::File;
use std::io;
use std::io::Read;

/// The most bytes of a packet file that are read at once, if it is not read whole.
const BUFFER: usize = 65_536;

const WHOLE: u128 = 100;

/// How packets are tossed: the names of their files, their limits, and whether each message that is not filed is
/// printed.
#[derive(Clone, Copy)]
pub struct Tossing<'a> {
    pub names: &'a [PathName],
    pub limits: Limits,
    pub each: bool,
}

/// Packet files that are read piece by piece, and the progress of so many packets.
#[derive(Drop)]
pub struct PacketStreams<'r> {
    pub rt: &'r HostRuntime,
    pub packets: usize,
    pub progress: &'r Progress<'r>,
}

impl<'r> StreamPackets<'r> for PacketStreams<'r> {
    type Reader = Buffered<Watched<PacketInput<'r>>>;

    fn open(
        &self,
        number: usize,
        path: &'r str,
    ) -> Result<Buffered<Watched<PacketInput<'r>>>, Fault<'r>> {
        let input = packet_input(self, number, path)?;
        Ok(Buffered::new(self.rt.alloc(), Watched::new(input), BUFFER)?)
    }

    fn tell(&self, number: usize) {
        if self.progress.is_due() {
            self.progress.tell_packet(number, self.packets, WHOLE);
        }
    }
}

// The packet file with this path, which must be a regular file.
fn packet_input<'r>(
    streams: &PacketStreams<'r>,
    number: usize,
    path: &'r str,
) -> Result<PacketInput<'r>, Fault<'r>> {
    match open_regular(streams.rt, path) {
        Ok(file) => Ok(PacketInput {
            file,
            read: 0,
            number,
            packets: streams.packets,
            progress: streams.progress,
        }),
        Err(fault) => Err(input_fault(fault, path)),
    }
}

/// A packet file that reports how much of it was read.
#[derive(Drop)]
pub struct PacketInput<'r> {
    file: File,
    read: u64,
    // The number of this packet, from 1 on, and of all packets.
    number: usize,
    packets: usize,
    progress: &'r Progress<'r>,
}

impl Read for PacketInput<'_> {
    fn read(&mut self, buf: &mut [u8]) -> io::Result<usize> {
        let came = self.file.read(buf)?;
        self.read = self.read.saturating_add(came as u64);
        if self.progress.is_due() {
            self.progress
                .tell_packet(self.number, self.packets, self.share());
        }
        Ok(came)
    }
}

impl PacketInput<'_> {
    fn share(&self) -> u128 {
        match self.file.metadata() {
            Ok(found) => percentage(self.read, found.len()),
            Err(_) => 0,
        }
    }
}

// The percentage of `all` that `some` is.
fn percentage(some: u64, all: u64) -> u128 {
    (u128::from(some) * WHOLE / u128::from(all.max(1))).min(WHOLE)
}
