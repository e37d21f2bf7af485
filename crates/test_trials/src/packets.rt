//! Packet files that another program cuts while they are read.
ghost use Rattle.std.specs.Prelude.{true};

use crate::system_files::disk::{Disk, FilesState};
use cmd_status::{Fault, PacketName, StreamPackets};
use cmd_store::PacketFiles;
use disk_io::Source;
use disk_system::{NoFiles, RealDisk};
use station::{PacketSource, packets_on_disk};
use std::cell::RefCell;
use std::test::Fail;

const WHOLE: &[u8] = b"a packet of some bytes";

const FRONT: &[u8] = b"a packet";

/// The number of calls before which it is cut: more than are made.
const CALLS: u64 = 16;

#[derive(Drop)]
struct Named<'n> {
    name: &'n str,
}

impl PacketName for Named<'_> {
    ghost path = { λ named. named.name.now };

    ghost is_usable = { λ _. true };

    fn path(&self) -> Result<&str, Fault<'_>> {
        Ok(self.name)
    }
}

#[derive(Drop)]
struct Nothing;

impl<'a> StreamPackets<'a> for Nothing {
    type Reader = &'a [u8];

    fn open(&self, _number: usize, _path: &'a str) -> Result<&'a [u8], Fault<'a>> {
        Ok(b"")
    }

    fn tell(&self, _number: usize) {}
}

/// A packet is held whole if it is cut before its size is known or after it was read, and never with other bytes.
#[test]
fn a_packet_that_is_cut_is_not_filled_up(rt: HostRuntime) -> Result<(), Fail> {
    let alloc = rt.alloc();
    let names = [Named { name: "a.pkt" }];
    let mut is_streamed = false;
    for call in 0..CALLS {
        let mut state = FilesState::new(alloc, CALLS, CALLS);
        state.put("a.pkt", WHOLE)?;
        state.cut = Some((call, FRONT.len()));
        let files = RefCell::new(state);
        let disk = RealDisk::new(Disk::new(&files), NoFiles);
        let mut packets = packets_on_disk(alloc, disk, &names, Nothing);
        let Some(Ok(reader)) = packets.open_next() else {
            return Err(Fail::from("not opened"));
        };
        if matches!(reader, PacketSource::Streamed(_)) {
            is_streamed = true;
        } else {
            let bytes = reader.held();
            assert!(rt; bytes == WHOLE || bytes == FRONT, "cut before call {call}");
        }
    }
    assert!(rt; is_streamed);
    Ok(())
}
